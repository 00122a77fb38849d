ghost use Rattle.std.specs.Prelude.{◌≡◌, ◌≤◌, vec_len};
ghost use Rattle.std.specs.Vec.{vec_capacity};

use arrayvec::ArrayVec;
use lists::OutOfMemory;
use std::alloc::Global;

/// r0 to r10.
pub(crate) type Registers = [u64; 11];

/// A function that waits for the one that it called: the slot of the call, and its r6 to r10.
#[derive(Clone, Copy, Debug, Default)]
pub(crate) struct Caller {
    pub call: u32,
    pub kept: [u64; 5],
}

/// How many bytes lie from the start of the first frame of the stack to the end of the last.
pub(crate) const STACK_SIZE: usize = 0x7200;

/// How many bytes the largest key and the largest value of a map have.
const KEY_SIZE: usize = 512;

const VALUE_SIZE: usize = 65_536;

/// Room for runs, one after another. `target` is where a redirect goes; `key` and `value` are those of the last change to
/// a map.
#[derive(Debug, Drop)]
pub struct Scratch {
    pub(crate) registers: Registers,
    pub(crate) callers: ArrayVec<Caller, 7>,
    pub(crate) target: u32,
    pub(crate) stack: Vec<u8>,
    pub(crate) key: Vec<u8>,
    pub(crate) value: Vec<u8>,
    ghost room: { vec_len stack ≡ 0x7200 },
    ghost key_room: { 512 ≤ vec_capacity key },
    ghost value_room: { 65536 ≤ vec_capacity value },
}

impl Scratch {
    /// Room for runs, taken once.
    pub fn new(alloc: Global) -> Result<Self, OutOfMemory> {
        Ok(Scratch {
            registers: [0; 11],
            callers: ArrayVec::new(),
            target: 0,
            stack: vec![in alloc; 0; STACK_SIZE]?,
            key: Vec::with_capacity(alloc, KEY_SIZE)?,
            value: Vec::with_capacity(alloc, VALUE_SIZE)?,
        })
    }
}
