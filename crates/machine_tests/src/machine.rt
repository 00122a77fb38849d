ghost use Rattle.std.specs.Prelude.{◌≡◌, ◌≤◌, [], length};

use bpf_insn::decode;
use bpf_machine::{Cause, Code, Env, Frame, RunEnd, Scratch, run};
use byteorder::{ByteOrder, LittleEndian};
use lists::{Bytes, OutOfMemory};
use map_store::{MapKind, MapSpec, Store};
use std::alloc::Global;
use std::test::Fail;
use xio::Action;

mod helpers;
mod memory;
mod runs;

const ENV: Env = Env {
    timestamp: 0x0102_0304_0506_0708,
    processor: 3,
    ifindex: 7,
    queue: 9,
};

/// A packet of 14 bytes.
const SHORT: [u8; 14] = [2, 0, 0, 0, 0, 1, 2, 0, 0, 0, 0, 2, 0x88, 0xb5];

/// A packet whose data stands from 0x1000_0100 up to 0x1000_013c.
const LONG: [u8; 60] = [0xff; 60];

const EXIT: u64 = 0x9500_0000_0000_0000;

/// What runs change, kept from one to the next.
#[derive(Drop)]
struct Machine {
    scratch: Scratch,
    store: Store,
    frame: Frame,
}

/// A map with keys of 4 bytes.
fn spec_of(alloc: Global, kind: MapKind, value_size: u32, max_entries: u32) -> MapSpec
    ensures { result ≡ record {
      kind = kind;
      key_size = 4;
      value_size = value_size;
      max_entries = max_entries;
      initial = [];
    } }
{
    MapSpec {
        kind,
        key_size: 4,
        value_size,
        max_entries,
        initial: Bytes::new(alloc),
    }
}

/// Constants of 12 bytes, two counters of 12 bytes, a hash with room for one key, a shared hash, and two counters of 8
/// bytes.
#[tactic(auto, unfolding(map_store::specs::Spec::spec_rule, map_store::specs::Spec::rounded))]
fn five_maps(alloc: Global) -> Result<Store, OutOfMemory> {
    let mut initial = Bytes::new(alloc);
    initial.append(&[1, 2, 3, 4, 5, 6, 7, 8, 9, 10, 11, 12])?;
    let constants = MapSpec {
        kind: MapKind::Array,
        key_size: 4,
        value_size: 12,
        max_entries: 1,
        initial,
    };
    let counters = spec_of(alloc, MapKind::PercpuArray, 12, 2);
    let hash = spec_of(alloc, MapKind::PercpuHash, 8, 1);
    let shared = spec_of(alloc, MapKind::Hash, 8, 1);
    let small = spec_of(alloc, MapKind::PercpuArray, 8, 2);
    Store::new(alloc, &[constants, counters, hash, shared, small])
}

fn new_machine(alloc: Global) -> Result<Machine, OutOfMemory> {
    let scratch = Scratch::new(alloc)?;
    let store = five_maps(alloc)?;
    let frame = Frame::new(alloc)?;
    Ok(Machine {
        scratch,
        store,
        frame,
    })
}

/// Puts a packet into the frame.
fn put(machine: &mut Machine, packet: &[u8])
    requires least { 14 ≤ length packet.now }
    requires most { length packet.now ≤ 15872 }
{
    machine.frame.fill(packet);
}

fn packet(machine: &Machine) -> &[u8] {
    machine.frame.bytes()
}

/// Runs slots of 8 bytes, the first byte the highest.
fn run_slots(alloc: Global, machine: &mut Machine, slots: &[u64]) -> Result<RunEnd, Fail> {
    let mut bytes = Vec::new(alloc);
    for slot in slots {
        bytes.extend_from_slice(&slot.to_be_bytes())?;
    }
    let insns = decode(alloc, &bytes)?;
    let code = Code {
        insns,
        maps: machine.store.len(),
    };
    Ok(run(
        &code,
        &mut machine.scratch,
        &mut machine.store,
        &mut machine.frame,
        &ENV,
    ))
}

/// The end of a run with no action.
fn stop(cause: Cause, used: u32) -> RunEnd {
    RunEnd {
        action: Action::Aborted,
        cause,
        target: 0,
        used,
    }
}

/// The slot of these fields; the source is the high half of `registers`.
fn slot(opcode: u8, registers: u8, offset: i16, imm: i32) -> u64 {
    let offset = offset.cast_unsigned().swap_bytes();
    let imm = imm.cast_unsigned().swap_bytes();
    u64::from(opcode) << 56 | u64::from(registers) << 48 | u64::from(offset) << 32 | u64::from(imm)
}

/// Runs these slots between one that keeps the context's address in r7 and those that put r0 at the packet's front and
/// pass. The answer is that r0.
fn answer_of(alloc: Global, machine: &mut Machine, body: &[u64]) -> Result<Option<i64>, Fail> {
    let mut slots = Vec::new(alloc);
    slots.push(0xbf17_0000_0000_0000)?;
    slots.extend_from_slice(body)?;
    slots.extend_from_slice(&[
        0x6176_0000_0000_0000,
        0x7b06_0000_0000_0000,
        0xb700_0000_0200_0000,
        EXIT,
    ])?;
    let end = run_slots(alloc, machine, &slots)?;
    if end.action != Action::Pass {
        return Ok(None);
    }
    Ok(first_number(packet(machine)))
}

/// The 8 bytes at the front as a number.
fn first_number(bytes: &[u8]) -> Option<i64> {
    if bytes.len() < 8 {
        return None;
    }
    Some(LittleEndian::read_i64(bytes))
}
