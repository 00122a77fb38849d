//! Tests of what loads the programs of objects.
#![tactic(auto)]

#[cfg(test)]
mod linking;
#[cfg(test)]
mod refusals;
#[cfg(test)]
mod sample;
#[cfg(test)]
mod worked;
