ghost use Rattle.std.specs.Prelude.{◌≡◌, true, IfOk};
ghost use Rattle.script_text.specs.Dump.{has_entry, has_exit, names_given, names_of, setting_of, stop_of, takes_name, with_name};
ghost use Rattle.xdp_state.specs.Answer.{rule_fits};
ghost use Rattle.xdp_state.specs.Library.{is_among};
ghost use Rattle.script_text.specs.Readings.{Leads, Reads};
ghost use Rattle.script_text.specs.WordViews.{plain_of, word_of};

use crate::arranged::Plain;
use crate::name::is_name;
use crate::options::{Given, WHOLE_SNAP};
use crate::parts::first_part;
use crate::reading::{LineEnd, both, keeps, or_else};
use crate::rule::{BAD_CHOICE, BAD_NAME};
use crate::text::bytes_of;
use crate::word_lists::Sides;
use std::alloc::Global;
use xdp_state::{Command, DumpSetting, NameList};
use xio::Bytes;

/// The most names that a dump asks for.
const MOST_NAMES: u32 = 10;

/// The most bytes of such a name.
const LONGEST_NAME: usize = 128;

fn is_among(names: &[Bytes], name: &[u8]) -> bool
    ensures { result ≡ is_among name.now names.now }
{
    names.iter().any(|other| name == other.as_slice())
}

/// Whether a name may stand behind these.
fn takes_name(names: &NameList, name: &[u8]) -> bool
    ensures { result ≡ takes_name names.now name.now }
{
    names.len() < MOST_NAMES
        && !name.is_empty()
        && name.len() <= LONGEST_NAME
        && !is_among(names.as_slice(), name)
}

/// Puts a name behind the others.
#[tactic(auto, unfolding(crate::specs::Dump::with_name))]
fn add_name(alloc: Global, names: &mut NameList, name: &[u8]) -> Result<(), LineEnd>
    ensures { Leads result names.new (with_name names.old name.now) }
{
    keeps(BAD_CHOICE, takes_name(names, name))?;
    names.push(bytes_of(alloc, name)?)?;
    Ok(())
}

/// The names of a list, each at most once; the one word `all` gives none.
#[tactic(auto, unfolding(crate::specs::Dump::names_of))]
fn names_of(alloc: Global, list: &[u8]) -> Result<NameList, LineEnd>
    ensures { Reads result (names_of list.now) }
{
    let mut names = NameList::new(alloc);
    if list == b"all".as_slice() {
        return Ok(names);
    }
    let mut rest = list;
    loop {
        let part = first_part(rest, b',');
        add_name(alloc, &mut names, part.part)?;
        match part.behind {
            Some(behind) => rest = behind,
            None => return Ok(names),
        }
    }
}

/// The names that an option gives; without one there are none.
fn names_given(alloc: Global, list: Option<&[u8]>) -> Result<NameList, LineEnd>
    ensures { Reads result (names_given (word_of list.entry)) }
{
    match list {
        Some(list) => names_of(alloc, list),
        None => Ok(NameList::new(alloc)),
    }
}

fn has_entry(sides: Sides) -> bool
    ensures { result ≡ has_entry sides }
{
    matches!(sides, Sides::Entry | Sides::Both)
}

fn has_exit(sides: Sides) -> bool
    ensures { result ≡ has_exit sides }
{
    matches!(sides, Sides::Exit | Sides::Both)
}

/// What a dump on the interface of a name asks for.
#[tactic(auto, unfolding(crate::specs::Dump::setting_of))]
pub fn setting_of(
    alloc: Global,
    given: Given,
    plain: Plain<'_>,
    name: &[u8],
) -> Result<DumpSetting, LineEnd>
    ensures { Reads result (setting_of given (plain_of plain.entry) name.now) }
{
    let ((), (sides, snap)) = both(
        keeps(BAD_NAME, is_name(name)),
        both(
            or_else(given.sides, Sides::Entry),
            or_else(given.snap, WHOLE_SNAP),
        ),
    )?;
    Ok(DumpSetting {
        names: names_given(alloc, plain.names)?,
        entry: has_entry(sides),
        exit: has_exit(sides),
        snap,
    })
}

/// Reads the words of `stop`.
#[tactic(auto, unfolding(crate::specs::Dump::stop_of))]
pub fn stop_of(alloc: Global, name: &[u8]) -> Result<Command, LineEnd>
    ensures command { Reads result (stop_of name.now) }
    ensures flags { IfOk result (λ command. rule_fits command ≡ true) }
{
    keeps(BAD_NAME, is_name(name))?;
    Ok(Command::DumpStop {
        interface: bytes_of(alloc, name)?,
    })
}
