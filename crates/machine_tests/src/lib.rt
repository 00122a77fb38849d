//! Tests of instructions, maps and the machine.
#![tactic(auto)]

#[cfg(test)]
mod instructions;
#[cfg(test)]
mod machine;
#[cfg(test)]
mod maps;
