//! BTF, the type format of BPF objects: its types as rows with their parts, names and sizes.
#![tactic(auto)]

mod bad_btf;
mod header;
pub mod kind;
mod link;
mod read;
mod resolution;
mod size;
mod type_bytes;
mod types;
mod walk;

pub use bad_btf::{BadBtf, BtfEnd};
pub use read::read_btf;
pub use size::Size;
pub use types::{Part, TypeRow, Types};
