//! The buffers of a map as they are at first, and writes to them.

ghost use Rattle.std.specs.Prelude.{◌+◌, ◌≡◌, ◌*◌, ◌<◌, ◌≤◌, ℕ, true, length, IfOk};
ghost use Rattle.byteorder.specs.Endian.{little_bytes};
ghost use Rattle.flat_memory.specs.Numbers.{with_bytes};
ghost use Rattle.map_store.specs.Initial.{IsMakeable, first_value};
ghost use Rattle.map_store.specs.Slots.{is_array};
ghost use Rattle.map_store.specs.Spec.{rounded};
ghost use Rattle.map_store.specs.SlotsView.{part};

use crate::spec::MapSpec;
use lists::OutOfMemory;
use std::alloc::Global;

/// The keys at first: those of an array, or zeros.
pub(crate) fn first_keys(alloc: Global, spec: &MapSpec) -> Result<Vec<u8>, OutOfMemory>
    requires spec { IsMakeable spec.now }
    ensures size { IfOk result (λ keys. length keys.items ≡ spec.now.max_entries * spec.now.key_size) }
    ensures indices { IfOk result (λ keys. is_array spec.now.kind ≡ true → (place : ℕ) → place < spec.now.max_entries → part 4 4 keys.items place ≡ little_bytes 4 place) }
{
    if spec.kind.is_array() {
        return array_keys(alloc, spec.max_entries);
    }
    let size = spec.max_entries as usize * spec.key_size as usize;
    Ok(vec![in alloc; 0u8; size]?)
}

/// The keys of an array, 4 bytes each: its places, the lowest byte first.
fn array_keys(alloc: Global, entries: u32) -> Result<Vec<u8>, OutOfMemory>
    requires { entries ≤ 1048576 }
    ensures size { IfOk result (λ keys. length keys.items ≡ entries * 4) }
    ensures keys { IfOk result (λ keys. (place : ℕ) → place < entries → part 4 4 keys.items place ≡ little_bytes 4 place) }
{
    let mut keys = Vec::with_capacity(alloc, entries as usize * 4)?;
    for place in 0..entries {
        keys.extend_from_slice(&place.to_le_bytes())?;
    }
    Ok(keys)
}

/// The values at first: the initial content, or zeros.
pub(crate) fn first_values(
    alloc: Global,
    spec: &MapSpec,
    stride: usize,
) -> Result<Vec<u8>, OutOfMemory>
    requires spec { IsMakeable spec.now }
    requires stride { stride ≡ rounded spec.now.value_size }
    requires room { spec.now.max_entries * stride ≤ 4194304 }
    ensures size { IfOk result (λ values. length values.items ≡ spec.now.max_entries * stride) }
    ensures values { IfOk result (λ values. (place : ℕ) → place < spec.now.max_entries → part spec.now.value_size stride values.items place ≡ first_value spec.now) }
{
    let mut values = vec![in alloc; 0u8; spec.max_entries as usize * stride]?;
    let initial = spec.initial.as_slice();
    copy_at(&mut values, 0, initial);
    Ok(values)
}

/// Writes bytes over those from a place on.
pub(crate) fn copy_at(bytes: &mut [u8], start: usize, part: &[u8])
    requires { start + length part.now ≤ length bytes.old }
    ensures { bytes.new ≡ with_bytes bytes.old start part.now }
{
    bytes[start..start + part.len()].copy_from_slice(part);
}
