ghost use Rattle.std.specs.Prelude.{◌≡◌, ◌+◌, ◌-◌, ◌*◌, ◌/◌, ◌%◌, ◌≤◌, ◌<◌, ◌&&◌, nat_le, length, if◌then◌else◌, Some, None, IfSome};
ghost use Rattle.std.specs.Option.{option_copied};
ghost use Rattle.flat_memory.specs.Numbers.{size_of, stored, with_bytes};
ghost use Rattle.bpf_machine.specs.State.{stack_start, frame_start, empty_frame};
ghost use Rattle.bpf_machine.specs.Stack.{in_frames, stack_load, stack_bytes};

use crate::size::bytes_of;
use bpf_insn::Size;
use flat_memory::{number, put_number};

/// The address of the first byte of the first frame.
pub(crate) const STACK_START: u64 = 0x2000_0000;

/// How many bytes a frame has.
pub(crate) const FRAME_SIZE: usize = 512;

/// How far the starts of two frames are apart.
pub(crate) const FRAME_DISTANCE: usize = 0x1000;

/// The number of this size at an address, where it stands in a frame up to the one of this depth.
#[inline]
pub(crate) fn load_stack(stack: &[u8], depth: usize, address: u64, size: Size) -> Option<u64>
    requires room { length stack.now ≡ 0x7200 }
    requires deep { depth < 8 }
    ensures { result ≡ stack_load depth stack.now address size }
{
    let place = place_of(depth, address, bytes_of(size))?;
    Some(number(stack, place, size))
}

/// The bytes from an address on, where they stand in a frame up to the one of this depth.
#[inline]
pub(crate) fn stack_slice(stack: &[u8], depth: usize, address: u64, count: usize) -> Option<&[u8]>
    requires room { length stack.now ≡ 0x7200 }
    requires deep { depth < 8 }
    requires count { count ≤ 65536 }
    ensures bytes { option_copied result ≡ stack_bytes depth stack.now address count }
    ensures count { IfSome result (λ bytes. length bytes.now ≡ count) }
{
    let place = place_of(depth, address, count as u64)?;
    Some(&stack[place..place + count])
}

/// Writes a number of this size at an address, where that is in a frame up to the one of this depth.
#[inline]
pub(crate) fn store_stack(
    stack: &mut [u8],
    depth: usize,
    address: u64,
    size: Size,
    value: u64,
) -> bool
    requires room { length stack.old ≡ 0x7200 }
    requires deep { depth < 8 }
    ensures test { result ≡ in_frames depth address (size_of size) }
    ensures after { stack.new ≡
        (if result then with_bytes stack.old (address - stack_start) (stored size value) else stack.old) }
{
    let Some(place) = place_of(depth, address, bytes_of(size)) else {
        return false;
    };
    put_number(stack, place, size, value);
    true
}

/// The place of an address, where so many bytes from there on are in one frame up to the one of this depth.
#[inline]
#[tactic(auto, unfolding(crate::specs::Stack::in_frames))]
fn place_of(depth: usize, address: u64, count: u64) -> Option<usize>
    requires deep { depth < 8 }
    requires count { count ≤ 65536 }
    ensures place { result ≡ (if in_frames depth address count then Some (address - stack_start) else None) }
    ensures fits { IfSome result (λ place. place + count ≤ 0x7200) }
{
    if address < STACK_START {
        return None;
    }
    let place = address - STACK_START;
    if place / 0x1000 <= depth as u64 && place % 0x1000 + count <= 512 {
        Some(place as usize)
    } else {
        None
    }
}

/// Clears a frame.
#[inline]
pub(crate) fn clear_frame(stack: &mut [u8], depth: usize)
    requires room { length stack.old ≡ 0x7200 }
    requires deep { depth < 8 }
    ensures { stack.new ≡ with_bytes stack.old (0x1000 * depth) empty_frame }
{
    let start = FRAME_DISTANCE * depth;
    stack[start..start + FRAME_SIZE].copy_from_slice(&[0; FRAME_SIZE]);
}
