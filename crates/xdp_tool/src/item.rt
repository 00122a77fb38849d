use crate::table::Table;
use script_text::Outcome;

/// What came of a line, how many publications were accepted until then, and what is shown.
#[derive(Clone, Copy, Debug, PartialEq, Eq)]
pub struct Item {
    pub line: u32,
    pub outcome: Outcome,
    pub count: u32,
    pub table: Option<Table>,
}
