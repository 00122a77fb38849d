//! The programs of a BPF object, from the bytes of its file: each with its code, its maps and its run configuration.
#![tactic(auto)]

mod addresses;
mod copying;
mod drafts;
mod fixes;
mod known_maps;
mod layout;
mod linking;
mod load;
mod maps;
mod names;
mod pieces;
mod program;
mod refusal;
mod sections;
mod strays;
mod symbols;
mod types;

pub use load::programs_of;
pub use program::{Program, ProgramList};
pub use refusal::{LoadEnd, LoadRefusal};
