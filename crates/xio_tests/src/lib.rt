//! Tests of sources, sinks and files, in memory and real.
#![tactic(auto)]

#[cfg(test)]
mod real;
#[cfg(test)]
mod streams;
