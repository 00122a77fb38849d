ghost use Rattle.std.specs.Prelude.{IfSome, ◌≡◌, ◌+◌, ◌-◌, ◌*◌, ◌≤◌, ◌++◌, length, replicate, if◌then◌else◌, Some, None, IfOk, vec_len, false};
ghost use Rattle.std.specs.Vec.{vec_capacity};
ghost use Rattle.std.specs.Option.{option_copied};
ghost use Rattle.flat_memory.specs.Numbers.{size_of, stored, with_bytes};
ghost use Rattle.bpf_machine.specs.Access.{is_between, packet_load, packet_bytes};
ghost use Rattle.bpf_machine.specs.Buffer.{bytes_in, filled};
ghost use Rattle.bpf_machine.specs.State.{IsPacket, packet_start};

use crate::size::bytes_of;
use bpf_insn::Size;
use flat_memory::{number, put_number};
use lists::OutOfMemory;
use std::alloc::Global;
use std::marker::Model;

/// The address of the first byte of the packet's buffer.
pub(crate) const PACKET_START: u64 = 0x1000_0000;

/// How many bytes of zero stand in front of a packet and behind it.
const MARGIN: usize = 256;

/// How many bytes a program leaves of a packet at least.
const LEAST: i64 = 14;

/// What a frame holds at first.
const ZEROS: [u8; 14] = [0; 14];

/// How many bytes the largest packet and its margins have.
const ROOM: usize = 0x4000;

/// A packet of at least 14 bytes in its buffer, which a program may make longer or shorter at both ends.
#[derive(Debug, Drop)]
pub struct Frame {
    buffer: Vec<u8>,
    start: usize,
    end: usize,
}

impl Model for Frame {
    ghost use Rattle.std.specs.Prelude.{◌+◌, ◌≤◌, vec_len};
    ghost use Rattle.std.specs.Vec.{vec_capacity};
    ghost use Rattle.bpf_machine.specs.State.{Packet};

    ghost Value = { Packet };

    ghost view = { λ f. record { buffer = f.buffer.items; data_start = f.start; data_end = f.end } };

    ghost invariant = { λ f. (f.start + 14 ≤ f.end) × (f.end ≤ vec_len f.buffer) × (vec_len f.buffer ≤ 0x4000) × (0x4000 ≤ vec_capacity f.buffer) };
}

impl Frame {
    /// A frame with room for every packet, in which 14 bytes of zero are.
    pub fn new(alloc: Global) -> Result<Self, OutOfMemory>
        ensures { IfOk result (λ frame. frame ≡ record { buffer = replicate 14 0; data_start = 0; data_end = 14 }) }
    {
        let mut buffer = Vec::with_capacity(alloc, ROOM)?;
        append(&mut buffer, &ZEROS);
        Ok(Frame {
            buffer,
            start: 0,
            end: ZEROS.len(),
        })
    }

    /// Puts a packet in place of the one that was there.
    pub fn fill(&mut self, bytes: &[u8])
        requires least { 14 ≤ length bytes.now }
        requires most { length bytes.now ≤ 15872 }
        ensures { self.new ≡ filled bytes.now }
    {
        self.buffer.clear();
        append(&mut self.buffer, &[0; MARGIN]);
        append(&mut self.buffer, bytes);
        append(&mut self.buffer, &[0; MARGIN]);
        self.start = MARGIN;
        self.end = MARGIN + bytes.len();
    }

    /// The packet's bytes.
    pub fn bytes(&self) -> &[u8]
        ensures bytes { result.now ≡ bytes_in self.now }
        ensures least { 14 ≤ length result.now }
        ensures most { length result.now ≤ 16384 }
    {
        &self.buffer[self.start..self.end]
    }

    /// What is true of every frame.
    #[inline]
    pub(crate) fn bounds(&self)
        ensures { IsPacket self.now }
    {
        let _start = &self.start;
    }

    /// The addresses of the packet's first byte and of its end.
    #[inline]
    pub(crate) fn ends(&self) -> (u32, u32)
        ensures start { result.0 ≡ packet_start + self.now.data_start }
        ensures end { result.1 ≡ packet_start + self.now.data_end }
    {
        let start = PACKET_START + self.start as u64;
        let end = PACKET_START + self.end as u64;
        (start as u32, end as u32)
    }

    /// The number of this size at an address, where it stands in the packet.
    #[inline]
    pub(crate) fn load(&self, address: u64, size: Size) -> Option<u64>
        ensures packet { IsPacket self.now }
        ensures number { result ≡ packet_load self.now address size }
    {
        let place = self.place_of(address, bytes_of(size))?;
        Some(number(&self.buffer, place, size))
    }

    /// The bytes from an address on, where they stand in the packet.
    #[inline]
    pub(crate) fn slice(&self, address: u64, count: usize) -> Option<&[u8]>
        requires { count ≤ 65536 }
        ensures bytes { option_copied result ≡ packet_bytes self.now address count }
        ensures count { IfSome result (λ bytes. length bytes.now ≡ count) }
    {
        let place = self.place_of(address, count as u64)?;
        Some(&self.buffer[place..place + count])
    }

    /// Writes a number of this size at an address, where that is in the packet.
    #[inline]
    pub(crate) fn store(&mut self, address: u64, size: Size, value: u64) -> bool
        ensures packet { IsPacket self.old }
        ensures test { result ≡
            is_between address (size_of size) (packet_start + self.old.data_start) (packet_start + self.old.data_end) }
        ensures after { self.new ≡
            (if result then record self.old { buffer = with_bytes self.old.buffer (address - packet_start) (stored size value) } else self.old) }
    {
        let Some(place) = self.place_of(address, bytes_of(size)) else {
            return false;
        };
        put_number(&mut self.buffer, place, size, value);
        true
    }

    /// The place in the buffer of an address, where so many bytes from there on are in the packet.
    #[inline]
    fn place_of(&self, address: u64, count: u64) -> Option<usize>
        requires { count ≤ 65536 }
        ensures packet { IsPacket self.now }
        ensures place { result ≡
            (if is_between address count (packet_start + self.now.data_start) (packet_start + self.now.data_end)
            then Some (address - packet_start) else None) }
    {
        let start = PACKET_START + self.start as u64;
        let end = PACKET_START + self.end as u64;
        if start <= address && address <= end - count {
            Some((address - PACKET_START) as usize)
        } else {
            None
        }
    }
}

impl Frame {
    ghost use Rattle.bpf_machine.specs.Machine.{with_start, with_end};

    /// Moves the first byte, and says whether it stays in the buffer and leaves 14 bytes. Otherwise nothing changes.
    #[tactic(auto, unfolding(crate::specs::Machine::with_start))]
    pub(crate) fn move_head(&mut self, delta: i32) -> bool
        ensures packet { IsPacket self.old }
        ensures moved { with_start self.old delta ≡ (if result then Some self.new else None) }
        ensures refused { result ≡ false → self.new ≡ self.old }
    {
        let start = self.start as i64 + i64::from(delta);
        if start < 0 || start + LEAST > self.end as i64 {
            return false;
        }
        self.start = start as usize;
        true
    }

    /// Moves the end, and says whether it stays in the buffer and leaves 14 bytes. Bytes that come to the packet are 0.
    /// Otherwise nothing changes.
    #[tactic(auto, unfolding(crate::specs::Machine::with_end))]
    pub(crate) fn move_tail(&mut self, delta: i32) -> bool
        ensures packet { IsPacket self.old }
        ensures moved { with_end self.old delta ≡ (if result then Some self.new else None) }
        ensures refused { result ≡ false → self.new ≡ self.old }
    {
        let end = self.end as i64 + i64::from(delta);
        if end < self.start as i64 + LEAST || end > self.buffer.len() as i64 {
            return false;
        }
        let end = end as usize;
        clear(&mut self.buffer, self.end, end);
        self.end = end;
        true
    }
}

/// Puts bytes behind the others, for which there is room.
fn append(buffer: &mut Vec<u8>, bytes: &[u8])
    requires { vec_len buffer.old + length bytes.now ≤ vec_capacity buffer.old }
    ensures items { buffer.new.items ≡ buffer.old.items ++ bytes.now }
    ensures capacity { vec_capacity buffer.old ≤ vec_capacity buffer.new }
{
    let Ok(()) = buffer.extend_from_slice(bytes) else {
        unreachable!()
    };
}

/// Sets the bytes from a place up to another one to 0, where that is behind it.
fn clear(bytes: &mut [u8], start: usize, end: usize)
    requires start { start ≤ length bytes.old }
    requires end { end ≤ length bytes.old }
    ensures { bytes.new ≡ with_bytes bytes.old start (replicate (end - start) 0) }
{
    if start < end {
        bytes[start..end].fill(0);
    }
}
