//! What relocations ask of an object beside its symbols.

ghost use Rattle.std.specs.Prelude.{◌≡◌, ◌<◌, All, length, IfOk, IfSome};
ghost use Rattle.elf_objects.specs.Object.{sections, symbols};
ghost use Rattle.object_load.specs.Layout.{IsLayout};
ghost use Rattle.object_load.specs.Linking as of_code;
ghost use Rattle.object_load.specs.Sections as of_object;

use crate::pieces::relocs_for;
use crate::sections::{constant_sections, section_named};
use elf_objects::{Object, Reloc};
use lists::{List, OutOfMemory};
use std::alloc::Global;

#[derive(Debug, Drop)]
pub(crate) struct Layout {
    /// The sections of constants.
    pub constants: List<u32>,
    /// The section `.text`.
    pub text: Option<u32>,
    /// How many bytes it has.
    pub text_size: u64,
    /// The relocations for it.
    pub text_relocs: List<Reloc>,
}

/// The section `.text`.
#[tactic(auto, unfolding(crate::specs::Sections::text_section))]
fn text_section(object: &Object<'_>) -> Option<u32>
    ensures section { result ≡ of_object.text_section object.now }
    ensures known { IfSome result (λ number. number < length (sections object.now)) }
{
    section_named(object, b".text")
}

/// The bytes of `.text`.
#[tactic(auto, unfolding(crate::specs::Sections::text))]
pub(crate) fn text<'a>(object: &'a Object<'_>) -> &'a [u8]
    ensures { result.now ≡ of_object.text object.now }
{
    match text_section(object) {
        Some(number) => object.content(number),
        None => &[],
    }
}

/// The relocations for `.text`.
#[tactic(auto, unfolding(crate::specs::Linking::text_relocs))]
fn text_relocs(alloc: Global, object: &Object<'_>) -> Result<List<Reloc>, OutOfMemory>
    ensures relocs { IfOk result (λ found. found ≡ of_code.text_relocs object.now) }
    ensures symbols { IfOk result (All (λ reloc. reloc.symbol < length (symbols object.now))) }
{
    match text_section(object) {
        Some(number) => relocs_for(alloc, object, number),
        None => Ok(List::new(alloc)),
    }
}

impl Layout {
    pub(crate) fn read(alloc: Global, object: &Object<'_>) -> Result<Layout, OutOfMemory>
        ensures { IfOk result (IsLayout object.now) }
    {
        Ok(Layout {
            constants: constant_sections(alloc, object)?,
            text: text_section(object),
            text_size: text(object).len() as u64,
            text_relocs: text_relocs(alloc, object)?,
        })
    }
}
