//! Tests of scripts as they are read, and of printed texts.
#![tactic(auto)]

#[cfg(test)]
mod bad_lines;
#[cfg(test)]
mod loader;
#[cfg(test)]
mod options;
#[cfg(test)]
mod texts;
#[cfg(test)]
mod traces;
