//! `xdptool`: a script of commands and packets, run whole.
#![tactic(auto)]

mod carrier;
mod closed;
mod counts;
mod early;
mod ended;
mod ending;
mod fronts;
mod item;
mod objects;
mod perform;
mod performance;
mod prepare;
mod prepared;
mod processor;
mod queue;
mod replay;
mod run;
mod shown;
mod table;
mod tell;
mod texts;
mod tool;
mod trace_texts;
mod traced;
mod turn;
mod walk;
mod words;
mod write;

pub use ended::Ended;
pub use tool::{replay_tool, run_tool};
