//! The words of the command line: which files they name, and whether they ask for a replay.
#![tactic(auto)]

mod end;
mod names;
mod parsing;
mod replay;
#[cfg(test)]
mod tests;

pub use end::WordsEnd;
pub use names::{FileNames, file_names};
pub use replay::wants_replay;
