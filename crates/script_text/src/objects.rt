//! The names of the objects of a script.

ghost use Rattle.std.specs.Prelude.{◌≡◌, ◌==◌, ◌≤◌, length, position, OnOk, OnErr};
ghost use Rattle.std.specs.Str.{bytes_eq};
ghost use Rattle.script_text.specs.Objects.{object_place, objects_with};
ghost use Rattle.script_text.specs.WordViews.{word_of};

use crate::text::bytes_of;
use std::alloc::Global;
use xio::{Bytes, List, OutOfMemory};

/// File names, each once.
pub type NameList = List<Bytes>;

fn named(objects: &[Bytes], name: &[u8]) -> Option<usize>
    ensures { result ≡ position (λ object. bytes_eq object name.now) objects.now }
{
    objects.iter().position(|object| object.as_slice() == name)
}

/// The place of a name, which is behind the others where it isn't there yet.
#[tactic(auto, using(crate::proofs::ObjectLemmas::placed))]
pub fn object_place(objects: &NameList, name: &[u8]) -> u32
    ensures { result ≡ object_place objects.now name.now }
{
    match named(objects.as_slice(), name) {
        Some(place) => {
            prove!(place < objects.len() as usize);
            place as u32
        }
        None => objects.len(),
    }
}

/// Adds a name, where there is one and it isn't there yet.
pub fn add_object(
    alloc: Global,
    objects: &mut NameList,
    name: Option<&[u8]>,
) -> Result<(), OutOfMemory>
    ensures ok { OnOk result (objects.new ≡ objects_with objects.old (word_of name.entry)) }
    ensures err { OnErr result (objects.new ≡ objects.old) }
{
    let Some(name) = name else {
        return Ok(());
    };
    if object_place(objects, name) == objects.len() {
        let name = bytes_of(alloc, name)?;
        objects.push(name)?;
    }
    Ok(())
}
