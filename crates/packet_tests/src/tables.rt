//! Tables of rules whose keys count their comparisons.

use crate::counted_key::CountedKey;
use filter_rules::{NoSuchRule, RuleTable, RulesFull};
use std::sync::atomic::{AtomicU32, Ordering};
use std::test::Fail;

const ROWS: u32 = 4096;

/// Adds a row for each number, and answers whether each has its own number.
fn adds_all<'a>(table: &mut RuleTable<CountedKey<'a>>, comparisons: &'a AtomicU32) -> bool {
    for number in 0..ROWS {
        let key = CountedKey {
            number,
            comparisons,
        };
        if table.add(key, 1, number) != Ok(number) {
            return false;
        }
    }
    true
}

/// Looks each number up, and answers whether each stands at the place of the same number.
fn finds_all<'a>(table: &RuleTable<CountedKey<'a>>, comparisons: &'a AtomicU32) -> bool {
    for number in 0..ROWS {
        let key = CountedKey {
            number,
            comparisons,
        };
        if table.find(&key) != Some(number) {
            return false;
        }
    }
    true
}

/// A look-up of each of 4,096 keys, of which a search through the rows would compare eight million.
#[test]
fn compares_few_keys(rt: HostRuntime) -> Result<(), Fail> {
    let comparisons = AtomicU32::new(0);
    let mut table = RuleTable::new(rt.alloc(), ROWS)?;
    assert!(rt; adds_all(&mut table, &comparisons));
    comparisons.store(0, Ordering::SeqCst);
    assert!(rt; finds_all(&table, &comparisons));
    let compared = comparisons.load(Ordering::SeqCst);
    assert!(rt; compared >= ROWS);
    assert!(rt; compared < 65_536);
    Ok(())
}

/// What a table is asked, and what it answers.
enum Step {
    Add {
        key: u32,
        flags: u8,
        number: u32,
        answer: Result<u32, RulesFull>,
    },
    Remove {
        key: u32,
        flags: u8,
        answer: Result<(), NoSuchRule>,
    },
    /// Key, flags and number of each row, in order.
    Rows(&'static [(u32, u8, u32)]),
}

/// A full table of three rows; the one in the middle goes and comes back as the last.
const STEPS: [Step; 12] = [
    Step::Add {
        key: 1,
        flags: 3,
        number: 11,
        answer: Ok(11),
    },
    Step::Add {
        key: 2,
        flags: 3,
        number: 12,
        answer: Ok(12),
    },
    Step::Add {
        key: 3,
        flags: 3,
        number: 13,
        answer: Ok(13),
    },
    Step::Add {
        key: 4,
        flags: 1,
        number: 14,
        answer: Err(RulesFull),
    },
    Step::Add {
        key: 3,
        flags: 4,
        number: 15,
        answer: Ok(13),
    },
    Step::Remove {
        key: 2,
        flags: 4,
        answer: Err(NoSuchRule),
    },
    Step::Remove {
        key: 2,
        flags: 1,
        answer: Ok(()),
    },
    Step::Rows(&[(1, 3, 11), (2, 2, 12), (3, 7, 13)]),
    Step::Remove {
        key: 2,
        flags: 2,
        answer: Ok(()),
    },
    Step::Rows(&[(1, 3, 11), (3, 7, 13)]),
    Step::Add {
        key: 2,
        flags: 1,
        number: 16,
        answer: Ok(16),
    },
    Step::Rows(&[(1, 3, 11), (3, 7, 13), (2, 1, 16)]),
];

fn rows_are<'a>(table: &RuleTable<CountedKey<'a>>, rows: &[(u32, u8, u32)]) -> bool {
    if table.len() as usize != rows.len() {
        return false;
    }
    for index in 0..table.len() {
        let row = (
            table.key(index).number,
            table.flags(index),
            table.number(index),
        );
        if rows.get(index as usize) != Some(&row) {
            return false;
        }
    }
    true
}

fn answers_so<'a>(
    table: &mut RuleTable<CountedKey<'a>>,
    comparisons: &'a AtomicU32,
    step: &Step,
) -> bool {
    let key = |number| CountedKey {
        number,
        comparisons,
    };
    match step {
        Step::Add {
            key: of,
            flags,
            number,
            answer,
        } => table.add(key(*of), *flags, *number) == *answer,
        Step::Remove {
            key: of,
            flags,
            answer,
        } => table.remove(&key(*of), *flags) == *answer,
        Step::Rows(rows) => rows_are(table, rows),
    }
}

#[test]
fn keeps_the_order_of_making(rt: HostRuntime) -> Result<(), Fail> {
    let comparisons = AtomicU32::new(0);
    let mut table = RuleTable::new(rt.alloc(), 3)?;
    for step in &STEPS {
        assert!(rt; answers_so(&mut table, &comparisons, step));
    }
    table.clear();
    assert!(rt; rows_are(&table, &[]));
    Ok(())
}
