//! Lists of bytes and of items that grow at their end, and want of memory, the one answer without a cause.
#![tactic(auto)]

mod bytes;
mod list;
mod memory;
#[cfg(test)]
mod tests;

pub use bytes::Bytes;
pub use list::List;
pub use memory::OutOfMemory;
