ghost use Rattle.std.specs.Prelude.{◌≡◌, ◌<◌, ◌≤◌, length, position, slice_get, Some};
ghost use Rattle.xdp_state.specs.declared.library.ObjectRow.{ObjectRow};
ghost use Rattle.xdp_state.specs.Answer.{at_interface, is_asked, is_given, load_answer, load_change, off_answer, status_answer};
ghost use Rattle.xdp_state.specs.Library.{IsSound, number_of, programs_in};

use super::{judge_attach, place_of};
use crate::change::Change;
use crate::command::LoadWords;
use crate::judgement::{Judgement, Reason};
use crate::library::{Library, Loaded, count_of};
use crate::names::rank;
use crate::state::State;
use chain_order::Kind;
use lists::Bytes;
use object_load::Program;

pub(super) fn judge_load(state: &State, library: &Library, words: &LoadWords) -> Judgement
    requires interfaces { length library.now.interfaces ≤ 8 }
    requires sound { IsSound library.now }
    ensures { result ≡ load_answer library.now state.now words.now }
{
    let Some(interface) = place_of(&library.interfaces, words.interface.as_slice()) else {
        return Judgement::Refused(Reason::NoInterface);
    };
    let Some(object) = library.objects.as_slice().get(words.object as usize) else {
        return Judgement::Refused(Reason::NoSuchProgram);
    };
    let programs = match &object.loaded {
        Loaded::Programs(programs) => programs.as_slice(),
        Loaded::Refused(refusal) => return Judgement::Refused(Reason::BadObject(*refusal)),
    };
    let Some(place) = asked_place(programs, words) else {
        return Judgement::Refused(Reason::NoSuchProgram);
    };
    let change = load_change(library, interface, words, place, &programs[place]);
    judge_attach(state, interface, words.mode, change)
}

/// Judges an unload of the member of this id, or of all members.
pub(super) fn judge_off(state: &State, library: &Library, name: &[u8], id: Option<u32>) -> Judgement
    requires { length library.now.interfaces ≤ 8 }
    ensures { result ≡ at_interface library.now name.now (λ interface. off_answer state.now interface id) }
{
    let Some(interface) = place_of(&library.interfaces, name) else {
        return Judgement::Refused(Reason::NoInterface);
    };
    let chain = state.chain(interface);
    if chain.len() == 0 {
        return Judgement::Refused(Reason::NothingLoaded);
    }
    match id {
        Some(number) if !chain.has(number) => Judgement::Refused(Reason::NoSuchId),
        Some(number) => Judgement::Accepted(Change::Detach {
            interface,
            number,
            clear_rules: false,
        }),
        None => Judgement::Accepted(Change::DetachAll { interface }),
    }
}

pub(super) fn judge_status(library: &Library, name: &Option<Bytes>) -> Judgement
    ensures { result ≡ status_answer library.now name.now }
{
    match name {
        Some(name) if place_of(&library.interfaces, name.as_slice()).is_none() => {
            Judgement::Refused(Reason::NoInterface)
        }
        _ => Judgement::Shown,
    }
}

/// Whether a given word, if there is one, is the text.
fn is_given(word: &Option<Bytes>, text: &[u8]) -> bool
    ensures { result ≡ is_given word.now text.now }
{
    match word {
        Some(word) => text == word.as_slice(),
        None => true,
    }
}

/// Whether a load asks for this program.
fn is_asked(words: &LoadWords, program: &Program) -> bool
    ensures { result ≡ is_asked words.now program.now }
{
    is_given(&words.name, program.name.as_slice())
        && is_given(&words.section, program.section.as_slice())
}

/// The place of the first program that is asked for.
fn asked_place(programs: &[Program], words: &LoadWords) -> Option<usize>
    ensures { result ≡ position (is_asked words.now) programs.now }
{
    programs.iter().position(|program| is_asked(words, program))
}

/// What a load changes that takes the program at this place of its object.
fn load_change(
    library: &Library,
    interface: u32,
    words: &LoadWords,
    place: usize,
    program: &Program,
) -> Change
    requires sound { IsSound library.now }
    requires program { (row : ObjectRow) × (slice_get library.now.objects words.now.object ≡ Some row)
        × (slice_get (programs_in row.loaded) place ≡ Some program.now) }
    ensures { result ≡ load_change library.now interface words.now place program.now }
{
    Change::Attach {
        interface,
        kind: Kind::Program(number_of(library, words.object, place)),
        priority: words.priority.unwrap_or(program.config.priority),
        rank: rank(library, program.name.as_slice()),
        mask: words.mask.unwrap_or(program.config.mask),
        mode: words.mode,
    }
}

/// The number of the program at a place of an object.
fn number_of(library: &Library, object: u32, place: usize) -> u32
    requires sound { IsSound library.now }
    requires place { (row : ObjectRow) × (slice_get library.now.objects object ≡ Some row)
        × (place < length (programs_in row.loaded)) }
    ensures { result ≡ number_of library.now object place }
{
    let before = count_of(library.objects.as_slice(), object as usize);
    (before + place) as u32
}
