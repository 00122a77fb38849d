//! The machine that runs BPF programs (RFC 9669) on packets: it takes no memory and always ends.
#![tactic(auto)]

mod access;
mod arithmetic;
mod calls;
mod context;
mod ending;
mod environment;
mod errors;
mod flow;
mod frame;
mod helpers;
mod maps;
mod running;
mod scratch;
mod size;
mod stack;
mod step;
mod transfers;

pub use ending::{Cause, RunEnd};
pub use environment::{Code, Env};
pub use frame::Frame;
pub use running::run;
pub use scratch::Scratch;
