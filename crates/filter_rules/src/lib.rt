//! The packet filter: rule rows by key, and the verdict over a frame's headers.
#![tactic(auto)]

pub mod features;
pub mod flags;
pub mod laws;
mod policy;
mod rule;
mod rule_table;
mod rules;
mod verdict;

pub use policy::Policy;
pub use rule::{RuleKey, RuleKind, RuleRow};
pub use rule_table::{RowValue, RuleTable};
pub use rules::{NoSuchRule, ROWS, Rules, RulesFull};
pub use verdict::FilterEnd;
