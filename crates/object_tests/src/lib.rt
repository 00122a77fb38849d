//! Tests of what reads an object: its sections, its types, and what these say of configurations and maps.
#![tactic(auto)]

#[cfg(test)]
mod configurations;
#[cfg(test)]
mod elf;
#[cfg(test)]
mod types;
