ghost use Rattle.std.specs.Prelude.{◌≡◌, ◌<◌, ◌+◌, ℤ, length, IfSome, Some, None, if◌then◌else◌, slice_index};
ghost use Rattle.std.specs.Option.{option_copied};
ghost use Rattle.map_store.specs.Slots.{map_at, shapes};
ghost use Rattle.bpf_machine.specs.Helpers.{map_named, map_lookup, map_update, map_delete, key_at, value_at, update_number, delete_number};
ghost use Rattle.bpf_machine.specs.Access.{context_bytes};
ghost use Rattle.bpf_machine.specs.Machine.{state_of, answer_in};
ghost use Rattle.bpf_machine.specs.State.{packet_start};

use crate::access::{bytes_in, copy_bytes};
use crate::context::context;
use crate::environment::Env;
use crate::errors::{E2BIG, EEXIST, EINVAL, ENOENT, EPERM};
use crate::frame::Frame;
use crate::scratch::Scratch;
use map_store::{DeleteEnd, Store, UpdateEnd};

/// A reference to a map is this and the map's number.
const REFERENCES: u64 = 0x7000_0000;

/// The number of the map that a reference names.
#[tactic(auto, unfolding(crate::specs::Helpers::map_named))]
fn map_named(store: &Store, reference: u64) -> Option<u32>
    ensures named { result ≡ map_named store.now reference }
    ensures within { IfSome result (λ map. map < length store.now) }
{
    let map = reference.checked_sub(REFERENCES)?;
    if map < u64::from(store.len()) {
        Some(map as u32)
    } else {
        None
    }
}

/// Puts the key at r2 into the scratch.
fn read_key(scratch: &mut Scratch, store: &Store, frame: &Frame, env: &Env, map: u32) -> bool
    requires { map < length store.now }
    ensures key { (next : ℤ) → key_at env.now (state_of next scratch.old store.now frame.now) map (slice_index scratch.old.registers 2)
        ≡ (if result then Some scratch.new.key.items else None) }
    ensures state { (next : ℤ) →
        state_of next scratch.new store.now frame.now ≡ state_of next scratch.old store.now frame.now }
{
    frame.bounds();
    let depth = scratch.callers.len();
    let address = scratch.registers[2];
    let count = store.key_size(map);
    copy_bytes(
        &mut scratch.key,
        &scratch.stack,
        depth,
        store,
        frame,
        env,
        address,
        count,
    )
}

/// Puts the value at r3 into the scratch.
fn read_value(scratch: &mut Scratch, store: &Store, frame: &Frame, env: &Env, map: u32) -> bool
    requires { map < length store.now }
    ensures value { (next : ℤ) → value_at env.now (state_of next scratch.old store.now frame.now) map (slice_index scratch.old.registers 3)
        ≡ (if result then Some scratch.new.value.items else None) }
    ensures key { scratch.new.key.items ≡ scratch.old.key.items }
    ensures state { (next : ℤ) →
        state_of next scratch.new store.now frame.now ≡ state_of next scratch.old store.now frame.now }
{
    frame.bounds();
    let depth = scratch.callers.len();
    let address = scratch.registers[3];
    let count = store.value_size(map);
    copy_bytes(
        &mut scratch.value,
        &scratch.stack,
        depth,
        store,
        frame,
        env,
        address,
        count,
    )
}

/// The bytes of the context of the packet in a frame.
#[inline]
fn frame_context(frame: &Frame, env: &Env) -> [u8; 24]
    ensures { result ≡ context_bytes env.now (packet_start + frame.now.data_start) (packet_start + frame.now.data_end) }
{
    let (start, end) = frame.ends();
    context(env, start, end)
}

/// The key at r2, where the context has these bytes.
#[inline]
fn key_bytes<'a>(
    scratch: &'a Scratch,
    store: &'a Store,
    frame: &'a Frame,
    context: &'a [u8],
    map: u32,
) -> Option<&'a [u8]>
    requires map { map < length store.now }
    requires context { length context.now ≡ 24 }
    ensures { (env : Env) (next : ℤ) →
        context.now ≡ context_bytes env (packet_start + frame.now.data_start) (packet_start + frame.now.data_end)
        → key_at env (state_of next scratch.now store.now frame.now) map (slice_index scratch.now.registers 2) ≡ option_copied result }
{
    frame.bounds();
    let depth = scratch.callers.len();
    let address = scratch.registers[2];
    let count = store.key_size(map);
    bytes_in(&scratch.stack, depth, store, frame, context, address, count)
}

/// Looks up the key at r2 in the map that r1 names: the address of its value, or 0.
#[inline]
pub(crate) fn look_up(scratch: &Scratch, store: &Store, frame: &Frame, env: &Env) -> Option<u64>
    ensures { (next : ℤ) → map_lookup env.now (state_of next scratch.now store.now frame.now) (map_named store.now (slice_index scratch.now.registers 1))
        ≡ answer_in (state_of next scratch.now store.now frame.now) result }
{
    let map = map_named(store, scratch.registers[1])?;
    let context = frame_context(frame, env);
    let key = key_bytes(scratch, store, frame, &context, map)?;
    match store.lookup(map, key) {
        Some(address) => Some(u64::from(address)),
        None => Some(0),
    }
}

/// Puts the value at r3 under the key at r2 into the map that r1 names, with the flags in r4.
pub(crate) fn update(
    scratch: &mut Scratch,
    store: &mut Store,
    frame: &Frame,
    env: &Env,
) -> Option<u64>
    ensures after { (next : ℤ) → map_update env.now (state_of next scratch.old store.old frame.now) (map_named store.old (slice_index scratch.old.registers 1))
        ≡ answer_in (state_of next scratch.new store.new frame.now) result }
    ensures fault { result ≡ None → (next : ℤ) →
        state_of next scratch.new store.new frame.now ≡ state_of next scratch.old store.old frame.now }
    ensures shapes { shapes store.new ≡ shapes store.old }
{
    let map = map_named(store, scratch.registers[1])?;
    if !read_key(scratch, store, frame, env, map) {
        return None;
    }
    if !read_value(scratch, store, frame, env, map) {
        return None;
    }
    let flags = scratch.registers[4];
    let end = store.update(map, &scratch.key, &scratch.value, flags);
    Some(update_answer(end))
}

/// Empties the slot of the key at r2 in the map that r1 names.
pub(crate) fn delete(
    scratch: &mut Scratch,
    store: &mut Store,
    frame: &Frame,
    env: &Env,
) -> Option<u64>
    ensures after { (next : ℤ) → map_delete env.now (state_of next scratch.old store.old frame.now) (map_named store.old (slice_index scratch.old.registers 1))
        ≡ answer_in (state_of next scratch.new store.new frame.now) result }
    ensures fault { result ≡ None → (next : ℤ) →
        state_of next scratch.new store.new frame.now ≡ state_of next scratch.old store.old frame.now }
    ensures shapes { shapes store.new ≡ shapes store.old }
{
    let map = map_named(store, scratch.registers[1])?;
    if !read_key(scratch, store, frame, env, map) {
        return None;
    }
    let end = store.delete(map, &scratch.key);
    Some(delete_answer(end))
}

/// What `map_update_elem` answers.
fn update_answer(end: UpdateEnd) -> u64
    ensures { result ≡ update_number end }
{
    match end {
        UpdateEnd::Done => 0,
        UpdateEnd::ReadOnly => EPERM.cast_unsigned(),
        UpdateEnd::Missing => ENOENT.cast_unsigned(),
        UpdateEnd::NoRoom => E2BIG.cast_unsigned(),
        UpdateEnd::Exists => EEXIST.cast_unsigned(),
        UpdateEnd::BadFlag => EINVAL.cast_unsigned(),
    }
}

/// What `map_delete_elem` answers.
fn delete_answer(end: DeleteEnd) -> u64
    ensures { result ≡ delete_number end }
{
    match end {
        DeleteEnd::Done => 0,
        DeleteEnd::ReadOnly => EPERM.cast_unsigned(),
        DeleteEnd::Missing => ENOENT.cast_unsigned(),
        DeleteEnd::Fixed => EINVAL.cast_unsigned(),
    }
}
