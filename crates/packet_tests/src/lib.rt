//! Tests of a packet's way: the rules, the state that publications make, and the sums over what was carried.
#![tactic(auto)]

#[cfg(test)]
mod answers;
#[cfg(test)]
mod changes;
#[cfg(test)]
mod counted_key;
#[cfg(test)]
mod journey;
#[cfg(test)]
mod programs;
#[cfg(test)]
mod rules;
#[cfg(test)]
mod sums;
#[cfg(test)]
mod tables;
#[cfg(test)]
mod tallies;
#[cfg(test)]
mod ways;
