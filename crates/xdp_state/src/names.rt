//! The names of programs and of the filter, in the order of their bytes.

ghost use Rattle.std.specs.Prelude.{◌≡◌, ◌+◌, ◌++◌, ◌<◌, ◌≤◌, ◌^◌, true, length};
ghost use Rattle.xdp_state.specs.Library.{IsSound, all_names, is_among, is_last_less, is_named, is_named_in, lesser, names_of, programs_of, rank};

use crate::library::{Library, ObjectRow};
use object_load::Program;

pub(crate) const FILTER_NAME: &[u8] = b"xdp_filter";

/// How many different names are less than this one, which is one of them. It takes the time of the square of their number.
pub(crate) fn rank(library: &Library, name: &[u8]) -> u32
    requires sound { IsSound library.now }
    requires known { is_among name.now (all_names library.now) ≡ true }
    ensures { result ≡ rank library.now name.now }
{
    let objects = library.objects.as_slice();
    let mut rank = lesser_in_objects(objects, name);
    if is_last_less(FILTER_NAME, &[], objects, name) {
        rank += 1;
    }
    rank as u32
}

/// How many different names of programs are less.
fn lesser_in_objects(objects: &[ObjectRow], name: &[u8]) -> usize
    requires { length (programs_of objects.now) < 2 ^ 32 }
    ensures value { result ≡ lesser (names_of (programs_of objects.now)) name.now }
    ensures within { result ≤ length (programs_of objects.now) }
{
    let mut rank = 0;
    for place in 0..objects.len() {
        let behind = &objects[place + 1..];
        rank += lesser_in(objects[place].loaded.programs(), behind, name);
    }
    rank
}

/// How many of these names are less, which aren't named again behind them.
fn lesser_in(programs: &[Program], behind: &[ObjectRow], name: &[u8]) -> usize
    ensures value { result + lesser (names_of (programs_of behind.now)) name.now
        ≡ lesser (names_of programs.now ++ names_of (programs_of behind.now)) name.now }
    ensures within { result ≤ length programs.now }
{
    let mut rank = 0;
    for place in 0..programs.len() {
        let other = programs[place].name.as_slice();
        if is_last_less(other, &programs[place + 1..], behind, name) {
            rank += 1;
        }
    }
    rank
}

/// Whether another name is less, and isn't named again.
fn is_last_less(other: &[u8], programs: &[Program], behind: &[ObjectRow], name: &[u8]) -> bool
    ensures { result ≡ is_last_less other.now programs.now behind.now name.now }
{
    other.cmp(name).is_lt() && !is_in(programs, other) && !is_in_objects(behind, other)
}

/// Whether one of the programs has the name.
fn is_in(programs: &[Program], name: &[u8]) -> bool
    ensures { result ≡ is_named name.now programs.now }
{
    programs
        .iter()
        .any(|program| name == program.name.as_slice())
}

/// Whether a program of these objects has the name.
fn is_in_objects(objects: &[ObjectRow], name: &[u8]) -> bool
    ensures { result ≡ is_named_in name.now objects.now }
{
    objects
        .iter()
        .any(|object| is_in(object.loaded.programs(), name))
}
