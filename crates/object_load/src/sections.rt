//! The sections of an object by their names, and what they are for.

ghost use Rattle.std.specs.Prelude.{◌≡◌, ◌<◌, ◌==◌, ◌++◌, not, true, All, codes, length, IfOk, IfSome};
ghost use Rattle.std.specs.List.{list_all};
ghost use Rattle.elf_objects.specs.Object.{sections};
ghost use Rattle.object_load.specs.Sections as of_object;

use elf_objects::Object;
use elf_objects::section_flag::EXECINSTR;
use elf_objects::section_kind::PROGBITS;
use lists::{List, OutOfMemory};
use std::alloc::Global;

/// Whether a section has this name, or one that begins with the name and a dot, as `front` does.
#[tactic(auto, unfolding(crate::specs::Sections::is_under))]
fn is_under(object: &Object<'_>, number: u32, name: &[u8], front: &[u8]) -> bool
    requires known { number < length (sections object.now) }
    requires name { list_all (λ byte. not (byte == 0)) name.now ≡ true }
    requires front { list_all (λ byte. not (byte == 0)) front.now ≡ true }
    requires dot { front.now ≡ name.now ++ codes "." }
    ensures { result ≡ of_object.is_under object.now name.now number }
{
    object.section_is(number, name) || object.section_begins_with(number, front)
}

/// The number of the first section of a name.
#[tactic(auto, unfolding(crate::specs::Sections::has_name, crate::specs::Sections::section_named))]
pub(crate) fn section_named(object: &Object<'_>, name: &[u8]) -> Option<u32>
    requires { list_all (λ byte. not (byte == 0)) name.now ≡ true }
    ensures section { result ≡ of_object.section_named object.now name.now }
    ensures known { IfSome result (λ number. number < length (sections object.now)) }
{
    for number in 0..object.section_count() {
        if object.section_is(number, name) {
            return Some(number);
        }
    }
    None
}

/// Whether the bytes of a section are those of programs.
#[tactic(auto, unfolding(crate::specs::Sections::holds_programs))]
pub(crate) fn holds_programs(object: &Object<'_>, number: u32) -> bool
    requires { number < length (sections object.now) }
    ensures { result ≡ of_object.holds_programs object.now number }
{
    let section = object.section(number);
    section.kind == PROGBITS
        && section.flags & EXECINSTR != 0
        && object.section_begins_with(number, b"xdp")
}

/// Whether programs could write to a section.
#[tactic(auto, unfolding(crate::specs::Sections::is_writable))]
fn is_writable(object: &Object<'_>, number: u32) -> bool
    requires { number < length (sections object.now) }
    ensures { result ≡ of_object.is_writable object.now number }
{
    (is_under(object, number, b".data", b".data.") || is_under(object, number, b".bss", b".bss."))
        && object.section(number).size != 0
}

/// Whether there is data that programs could write.
#[tactic(auto, unfolding(crate::specs::Sections::has_writable_data))]
pub(crate) fn has_writable_data(object: &Object<'_>) -> bool
    ensures { result ≡ of_object.has_writable_data object.now }
{
    for number in 0..object.section_count() {
        if is_writable(object, number) {
            return true;
        }
    }
    false
}

/// Whether a section is one of constants that isn't empty.
#[tactic(auto, unfolding(crate::specs::Sections::holds_constants))]
fn holds_constants(object: &Object<'_>, number: u32) -> bool
    requires { number < length (sections object.now) }
    ensures { result ≡ of_object.holds_constants object.now number }
{
    is_under(object, number, b".rodata", b".rodata.") && !object.content(number).is_empty()
}

/// The numbers of the sections of constants.
#[tactic(auto, unfolding(crate::specs::Sections::constant_sections))]
pub(crate) fn constant_sections(
    alloc: Global,
    object: &Object<'_>,
) -> Result<List<u32>, OutOfMemory>
    ensures sections { IfOk result (λ numbers. numbers ≡ of_object.constant_sections object.now) }
    ensures known { IfOk result (All (λ number. number < length (sections object.now))) }
{
    let mut numbers = List::new(alloc);
    for number in 0..object.section_count() {
        if !holds_constants(object, number) {
            continue;
        }
        numbers.push(number)?;
    }
    Ok(numbers)
}
