ghost use Rattle.std.specs.Prelude.{◌≡◌};
ghost use Rattle.xdp_state.specs.Dump.{asks_for, snaps_of};
ghost use Rattle.xdp_state.specs.Library.{is_among};

use crate::library::Library;
use chain_order::Kind;
use lists::{Bytes, List};

pub type NameList = List<Bytes>;

/// What a dump asks for: packets as they enter the members of these names and as they leave, cut to a length. Without names
/// it asks for all members.
#[derive(Debug, Drop)]
pub struct DumpSetting {
    pub names: NameList,
    pub entry: bool,
    pub exit: bool,
    pub snap: u32,
}

pub type DumpList = List<DumpSetting>;

/// A frame as a dump keeps it: its length, how many bytes are kept at most, and its first bytes.
#[derive(Debug, Drop)]
pub struct Captured {
    pub length: u32,
    pub snap: u32,
    pub kept: Bytes,
}

/// How many bytes are kept of a packet as it enters a member, and as it leaves, where they are asked for.
#[derive(Clone, Copy, Debug, PartialEq, Eq)]
pub(crate) struct Snaps {
    pub entry: Option<u32>,
    pub exit: Option<u32>,
}

const NO_SNAPS: Snaps = Snaps {
    entry: None,
    exit: None,
};

/// What the dump of this setting, where one is on, asks of a member.
#[tactic(auto, unfolding(crate::specs::Dump::snaps_of))]
pub(crate) fn snaps_of(library: &Library, dump: Option<u32>, member: Kind) -> Snaps
    ensures { result ≡ snaps_of library.now dump member }
{
    let Some(setting) = dump else {
        return NO_SNAPS;
    };
    let Some(dump) = library.dumps.as_slice().get(setting as usize) else {
        return NO_SNAPS;
    };
    let asked = asks_for(dump, library.name_of(member));
    Snaps {
        entry: (dump.entry && asked).then_some(dump.snap),
        exit: (dump.exit && asked).then_some(dump.snap),
    }
}

/// Whether a dump asks for members of this name.
fn asks_for(dump: &DumpSetting, name: &[u8]) -> bool
    ensures { result ≡ asks_for dump.now name.now }
{
    dump.names.len() == 0 || is_among(name, dump.names.as_slice())
}

fn is_among(name: &[u8], names: &[Bytes]) -> bool
    ensures { result ≡ is_among name.now names.now }
{
    names.iter().any(|other| name == other.as_slice())
}
