//! The programs and filters of an interface in the order in which they run. No call takes memory.
#![tactic(auto)]

mod chain;
mod member;
#[cfg(test)]
mod tests;

pub use chain::{Chain, ChainFull, MembersRef, NoSuchId};
pub use member::{Kind, Member};
