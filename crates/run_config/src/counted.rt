//! Values in types.

ghost use Rattle.std.specs.Prelude.{◌≡◌, ℕ, ◌≤◌, ◌↔◌, length, Some};
ghost use Rattle.run_config.specs.Counted.{Counts};

use btf_types::{Types, kind};

/// The number of elements of the array that a type points to, through modifiers.
pub(crate) fn counted(types: &Types, number: u32) -> Option<u32>
    requires { number ≤ length types.now.rows }
    ensures { (value : ℕ) → (result ≡ Some value) ↔ Counts types.now number value }
{
    let pointer = types.resolve(number)?;
    if pointer.kind != kind::PTR {
        return None;
    }
    let array = types.resolve(pointer.size_or_target)?;
    if array.kind != kind::ARRAY {
        return None;
    }
    Some(types.part(array.first).place)
}
