ghost use Rattle.std.specs.Prelude.{◌≡◌, ◌<◌, ◌≤◌, ◌↔◌, true, false, List, [], length, slice_get, Some, IfOk, OnOk, OnErr, IsErr, find};
ghost use Rattle.std.specs.Option.{option_map};
ghost use Rattle.filter_rules.specs.Rule.{answers};
ghost use Rattle.filter_rules.specs.Rules.{has_row, has_rule, set_rule, clear_rule, number_of};
ghost use Rattle.filter_rules.specs.Verdict.{verdict};

use crate::policy::Policy;
use crate::rule::{RuleKey, RuleRow};
use crate::rule_table::RuleTable;
use crate::verdict::{FilterEnd, verdict};
use net_headers::Headers;
use std::alloc::Global;
use std::marker::Model;
use xio::OutOfMemory;

/// How many rows there may be.
pub const ROWS: u32 = 4096;

/// As many rows are there as there may be, and none has the key.
#[derive(Clone, Copy, Debug, PartialEq, Eq)]
pub struct RulesFull;

/// No row with the key has any of the flags.
#[derive(Clone, Copy, Debug, PartialEq, Eq)]
pub struct NoSuchRule;

/// The rows of the filter in the order in which they were made, with different keys.
#[derive(Debug, Drop)]
pub struct Rules {
    table: RuleTable<RuleKey>,
}

impl Model for Rules {
    ghost use Rattle.std.specs.Prelude.{◌≡◌, List};
    ghost use Rattle.filter_rules.specs.Rules.{rows_of};
    ghost use Rattle.filter_rules.specs.declared.rule.RuleRow.{RuleRow};

    ghost Value = { List RuleRow };

    ghost view = { λ r. rows_of r.table.rows };

    ghost invariant = { λ r. r.table.room ≡ 4096 };
}

impl Rules {
    /// No rows, and the room of all that there may be.
    pub fn new(alloc: Global) -> Result<Self, OutOfMemory>
        ensures { IfOk result (λ rules. rules ≡ []) }
    {
        Ok(Rules {
            table: RuleTable::new(alloc, ROWS)?,
        })
    }

    /// The same rows with the room of all that there may be, from the memory that these rows take theirs from.
    pub fn copy(&self) -> Result<Self, OutOfMemory>
        ensures { IfOk result (λ copy. copy ≡ self.now) }
    {
        Ok(Rules {
            table: self.table.copy()?,
        })
    }

    pub fn len(&self) -> u32
        ensures value { result ≡ length self.now }
        ensures within { result ≤ 4096 }
    {
        self.table.len()
    }

    pub fn row(&self, index: u32) -> RuleRow
        requires { index < length self.now }
        ensures { slice_get self.now index ≡ Some result }
    {
        RuleRow {
            key: *self.table.key(index),
            flags: self.table.flags(index),
            number: self.table.number(index),
        }
    }

    /// Whether a row has the key.
    pub fn contains(&self, key: RuleKey) -> bool
        ensures { result ≡ has_row self.now key }
    {
        self.table.get(&key).is_some()
    }

    /// Whether a row with the key has one of the flags.
    pub fn has_rule(&self, key: RuleKey, flags: u8) -> bool
        ensures { result ≡ has_rule self.now key flags }
    {
        self.answering(key, flags).is_some()
    }

    /// The number of the row with the key that has one of the flags.
    pub(crate) fn answering(&self, key: RuleKey, flags: u8) -> Option<u32>
        ensures { result ≡ option_map (λ row. row.number) (find (answers key flags) self.now) }
    {
        let value = self.table.get(&key)?;
        (value.flags & flags != 0).then_some(value.number)
    }

    /// Sets flags in the row of the key, or makes a row of this number, and answers the row's number. The flags are those
    /// of the key's kind, at least one.
    pub fn add(&mut self, key: RuleKey, flags: u8, number: u32) -> Result<u32, RulesFull>
        ensures rows { OnOk result (self.new ≡ set_rule self.old key flags number) }
        ensures number { IfOk result (λ n. n ≡ number_of self.old key number) }
        ensures full { IsErr result ↔ ((has_row self.old key ≡ false) × (length self.old ≡ 4096)) }
        ensures err { OnErr result (self.new ≡ self.old) }
    {
        self.table.add(key, flags, number)
    }

    /// Clears flags in the row of the key, and drops the row where it has no flag left. The flags are those of the key's
    /// kind, at least one.
    pub fn remove(&mut self, key: RuleKey, flags: u8) -> Result<(), NoSuchRule>
        ensures rows { OnOk result (self.new ≡ clear_rule self.old key flags) }
        ensures none { IsErr result ↔ (has_rule self.old key flags ≡ false) }
        ensures err { OnErr result (self.new ≡ self.old) }
    {
        self.table.remove(&key, flags)
    }

    /// Drops all rows.
    pub fn clear(&mut self)
        ensures { self.new ≡ [] }
    {
        self.table.clear();
    }

    /// What a filter of this policy and these features makes of a frame with these headers.
    pub fn verdict(&self, headers: &Headers, policy: Policy, features: u8) -> FilterEnd
        ensures { result ≡ verdict self.now headers.now policy features }
    {
        verdict(self, headers, policy, features)
    }
}
