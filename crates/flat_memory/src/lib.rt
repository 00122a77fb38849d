//! Memory as a function from addresses to bytes, for contracts, and numbers in places of bytes, for code.
//!
//! `specs/Memory` has the words for memory, `specs/Numbers` those for numbers in bytes, and `proofs/Laws` what is true of
//! them, for the proofs of every crate above. Who keeps memory in buffers says with them what stands where, and proves each read and write by two laws:
//! `masked-number` and `masked-write`.
#![tactic(auto)]

mod numbers;
#[cfg(test)]
mod tests;

pub use numbers::{number, put_number};
