//! The maps of a program on one processor: lists of slots whose values stand at fixed addresses.
#![tactic(auto)]

mod buffers;
mod chains;
mod occupancy;
mod search;
mod slots;
mod spec;
mod store;

pub use spec::{MapKind, MapSpec, spec_rule};
pub use store::{DeleteEnd, Store, UpdateEnd};
