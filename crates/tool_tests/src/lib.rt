//! Tests of whole runs, in memory: their texts, their traces, their faults and their words.
#![tactic(auto)]

#[cfg(test)]
mod runs;
