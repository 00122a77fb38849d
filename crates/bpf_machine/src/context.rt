ghost use Rattle.std.specs.Prelude.{IfSome, ◌≡◌, ◌≤◌, length};
ghost use Rattle.std.specs.Option.{option_copied};
ghost use Rattle.bpf_machine.specs.Access.{context_bytes, context_load, context_part};

use crate::environment::Env;
use crate::size::bytes_of;
use bpf_insn::Size;
use flat_memory::number;

/// The address of the context's first byte.
pub(crate) const CONTEXT_START: u64 = 0x3000_0000;

/// The number of this size at an address, where it stands in the context of a packet whose ends have these addresses.
#[inline]
pub(crate) fn load_context(env: &Env, start: u32, end: u32, address: u64, size: Size) -> Option<u64>
    ensures { result ≡ context_load env.now start end address size }
{
    if address < CONTEXT_START || address > CONTEXT_START + 24 - bytes_of(size) {
        return None;
    }
    let place = (address - CONTEXT_START) as usize;
    Some(number(&context(env, start, end), place, size))
}

/// The bytes from an address on, where they stand in the context, whose bytes these are.
#[inline]
pub(crate) fn context_slice(context: &[u8], address: u64, count: usize) -> Option<&[u8]>
    requires context { length context.now ≡ 24 }
    requires count { count ≤ 65536 }
    ensures bytes { option_copied result ≡ context_part context.now address count }
    ensures count { IfSome result (λ bytes. length bytes.now ≡ count) }
{
    let place = address.checked_sub(CONTEXT_START)?;
    if count > 24 || place > 24 - count as u64 {
        return None;
    }
    let place = place as usize;
    Some(&context[place..place + count])
}

/// The bytes of the context.
#[inline]
pub(crate) fn context(env: &Env, start: u32, end: u32) -> [u8; 24]
    ensures { result ≡ context_bytes env.now start end }
{
    let start = start.to_le_bytes();
    let end = end.to_le_bytes();
    let ifindex = env.ifindex.to_le_bytes();
    let queue = env.queue.to_le_bytes();
    [
        start[0], start[1], start[2], start[3], end[0], end[1], end[2], end[3], start[0], start[1],
        start[2], start[3], ifindex[0], ifindex[1], ifindex[2], ifindex[3], queue[0], queue[1],
        queue[2], queue[3], 0, 0, 0, 0,
    ]
}
