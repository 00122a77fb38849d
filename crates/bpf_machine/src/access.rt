ghost use Rattle.std.specs.Prelude.{IfSome, ◌≡◌, ◌+◌, ◌<◌, ◌≤◌, ℕ, ℤ, length, Some, None, false, if◌then◌else◌, vec_len};
ghost use Rattle.std.specs.Option.{option_or, option_copied};
ghost use Rattle.std.specs.Vec.{vec_capacity};
ghost use Rattle.map_store.specs.Slots.{shapes};
ghost use Rattle.map_store.specs.Values as values;
ghost use Rattle.bpf_machine.specs.Access.{load_of, store_of, packet_load, context_load, packet_bytes, context_part, context_bytes};
ghost use Rattle.bpf_machine.specs.Machine.{state_of};
ghost use Rattle.bpf_machine.specs.Stack.{stack_load, stack_bytes};
ghost use Rattle.bpf_machine.specs.State.{packet_start};

use crate::context::{context, context_slice, load_context};
use crate::environment::Env;
use crate::frame::Frame;
use crate::scratch::Scratch;
use crate::stack::{load_stack, stack_slice, store_stack};
use bpf_insn::Size;
use map_store::Store;

/// The number of this size at an address that may be read.
#[inline]
pub(crate) fn load(
    scratch: &Scratch,
    store: &Store,
    frame: &Frame,
    env: &Env,
    address: u64,
    size: Size,
) -> Option<u64>
    ensures { (next : ℤ) →
        load_of env.now (state_of next scratch.now store.now frame.now) address size ≡ result }
{
    frame.bounds();
    load_region(
        &scratch.stack,
        scratch.callers.len(),
        store,
        frame,
        env,
        address,
        size,
    )
}

/// The number, by the region in which it stands.
#[inline]
fn load_region(
    stack: &[u8],
    depth: usize,
    store: &Store,
    frame: &Frame,
    env: &Env,
    address: u64,
    size: Size,
) -> Option<u64>
    requires room { length stack.now ≡ 0x7200 }
    requires deep { depth < 8 }
    ensures { result ≡ option_or (packet_load frame.now address size) (option_or (stack_load depth stack.now address size)
        (option_or (values.load_of store.now address size)
        (context_load env.now (packet_start + frame.now.data_start) (packet_start + frame.now.data_end) address size))) }
{
    match frame.load(address, size) {
        Some(value) => Some(value),
        None => load_below(stack, depth, store, frame, env, address, size),
    }
}

/// The number, where it doesn't stand in the packet.
#[inline]
fn load_below(
    stack: &[u8],
    depth: usize,
    store: &Store,
    frame: &Frame,
    env: &Env,
    address: u64,
    size: Size,
) -> Option<u64>
    requires room { length stack.now ≡ 0x7200 }
    requires deep { depth < 8 }
    ensures { result ≡ option_or (stack_load depth stack.now address size) (option_or (values.load_of store.now address size)
        (context_load env.now (packet_start + frame.now.data_start) (packet_start + frame.now.data_end) address size)) }
{
    match load_stack(stack, depth, address, size) {
        Some(value) => Some(value),
        None => load_outside(store, frame, env, address, size),
    }
}

/// The number, where it stands in a value of a map or in the context.
#[inline]
fn load_outside(store: &Store, frame: &Frame, env: &Env, address: u64, size: Size) -> Option<u64>
    ensures { result ≡ option_or (values.load_of store.now address size)
        (context_load env.now (packet_start + frame.now.data_start) (packet_start + frame.now.data_end) address size) }
{
    match store.load(address, size) {
        Some(value) => Some(value),
        None => {
            let (start, end) = frame.ends();
            load_context(env, start, end, address, size)
        }
    }
}

/// The bytes from an address on, by the region in which they stand.
#[inline]
pub(crate) fn bytes_in<'a>(
    stack: &'a [u8],
    depth: usize,
    store: &'a Store,
    frame: &'a Frame,
    context: &'a [u8],
    address: u64,
    count: usize,
) -> Option<&'a [u8]>
    requires room { length stack.now ≡ 0x7200 }
    requires deep { depth < 8 }
    requires context { length context.now ≡ 24 }
    requires count { count ≤ 65536 }
    ensures bytes { option_copied result ≡ option_or (packet_bytes frame.now address count)
        (option_or (stack_bytes depth stack.now address count)
        (option_or (values.bytes_of store.now address count) (context_part context.now address count))) }
    ensures count { IfSome result (λ bytes. length bytes.now ≡ count) }
{
    match frame.slice(address, count) {
        Some(bytes) => Some(bytes),
        None => bytes_below(stack, depth, store, context, address, count),
    }
}

/// The bytes, where they don't stand in the packet.
#[inline]
fn bytes_below<'a>(
    stack: &'a [u8],
    depth: usize,
    store: &'a Store,
    context: &'a [u8],
    address: u64,
    count: usize,
) -> Option<&'a [u8]>
    requires room { length stack.now ≡ 0x7200 }
    requires deep { depth < 8 }
    requires context { length context.now ≡ 24 }
    requires count { count ≤ 65536 }
    ensures bytes { option_copied result ≡ option_or (stack_bytes depth stack.now address count)
        (option_or (values.bytes_of store.now address count) (context_part context.now address count)) }
    ensures count { IfSome result (λ bytes. length bytes.now ≡ count) }
{
    match stack_slice(stack, depth, address, count) {
        Some(bytes) => Some(bytes),
        None => bytes_outside(store, context, address, count),
    }
}

/// The bytes, where they stand in a value of a map or in the context.
#[inline]
fn bytes_outside<'a>(
    store: &'a Store,
    context: &'a [u8],
    address: u64,
    count: usize,
) -> Option<&'a [u8]>
    requires context { length context.now ≡ 24 }
    requires count { count ≤ 65536 }
    ensures bytes { option_copied result ≡ option_or (values.bytes_of store.now address count) (context_part context.now address count) }
    ensures count { IfSome result (λ bytes. length bytes.now ≡ count) }
{
    match store.bytes(address, count) {
        Some(bytes) => Some(bytes),
        None => context_slice(context, address, count),
    }
}

/// Puts the bytes from an address on into a buffer, where they may be read.
pub(crate) fn copy_bytes(
    buffer: &mut Vec<u8>,
    stack: &[u8],
    depth: usize,
    store: &Store,
    frame: &Frame,
    env: &Env,
    address: u64,
    count: usize,
) -> bool
    requires room { length stack.now ≡ 0x7200 }
    requires deep { depth < 8 }
    requires count { count ≤ 65536 }
    requires fits { count ≤ vec_capacity buffer.old }
    ensures bytes { (if result then Some buffer.new.items else None) ≡ option_or (packet_bytes frame.now address count)
        (option_or (stack_bytes depth stack.now address count) (option_or (values.bytes_of store.now address count)
        (context_part (context_bytes env.now (packet_start + frame.now.data_start) (packet_start + frame.now.data_end)) address count))) }
    ensures capacity { vec_capacity buffer.old ≤ vec_capacity buffer.new }
{
    let (start, end) = frame.ends();
    let context = context(env, start, end);
    let Some(bytes) = bytes_in(stack, depth, store, frame, &context, address, count) else {
        return false;
    };
    put_bytes(buffer, bytes);
    true
}

/// Puts bytes in place of those that were there.
fn put_bytes(buffer: &mut Vec<u8>, bytes: &[u8])
    requires { length bytes.now ≤ vec_capacity buffer.old }
    ensures items { buffer.new.items ≡ bytes.now }
    ensures capacity { vec_capacity buffer.old ≤ vec_capacity buffer.new }
{
    buffer.clear();
    let Ok(()) = buffer.extend_from_slice(bytes) else {
        unreachable!()
    };
}

/// Writes a number of this size at an address that may be written, and says whether it may be.
#[inline]
pub(crate) fn store_number(
    scratch: &mut Scratch,
    store: &mut Store,
    frame: &mut Frame,
    address: u64,
    size: Size,
    value: u64,
) -> bool
    ensures state { (next : ℤ) →
        store_of (state_of next scratch.old store.old frame.old) address size value
        ≡ (if result then Some (state_of next scratch.new store.new frame.new) else None) }
    ensures registers { scratch.new.registers ≡ scratch.old.registers }
    ensures shapes { shapes store.new ≡ shapes store.old }
    ensures fault { result ≡ false → (next : ℤ) →
        state_of next scratch.new store.new frame.new ≡ state_of next scratch.old store.old frame.old }
{
    if frame.store(address, size, value) {
        return true;
    }
    let depth = scratch.callers.len();
    if store_stack(&mut scratch.stack, depth, address, size, value) {
        return true;
    }
    store.store(address, size, value)
}
