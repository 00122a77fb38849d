//! The arithmetic of BPF instructions (RFC 9669): total functions on registers of 64 bits, with no memory and no panic.
#![tactic(auto)]

mod arithmetic;
mod byte_order;
mod comparison;
mod extension;
mod half;
#[cfg(test)]
mod tests;

pub use arithmetic::{Op, alu32, alu64};
pub use byte_order::{Order, swap};
pub use comparison::{Test, compare32, compare64};
pub use extension::extend;
