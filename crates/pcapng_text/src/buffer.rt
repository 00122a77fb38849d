//! The bytes of one block, taken from a source in pieces.

ghost use Rattle.std.specs.Prelude.{◌≡◌, ℕ, List, ◌<◌, ◌≤◌, ◌++◌, [], IsTrue, IfOk, OnOk, OnErr, length, take, drop};
ghost use Rattle.xio.specs.Causes.{HasCause};
ghost use Rattle.pcapng_text.specs.Buffer.{HasStopCause, StopsShort};

use crate::stop::Stop;
use lists::OutOfMemory;
use std::alloc::Global;
use std::marker::Model;
use xio::{Failed, Source};

/// The most bytes that one read asks for.
const PIECE_SIZE: usize = 4096;

/// The bytes of a block that have come. The memory grows with them, not with the block's length, and stays.
#[derive(Drop)]
pub(crate) struct Buffer {
    bytes: Vec<u8>,
    piece: Vec<u8>,
}

impl Model for Buffer {
    ghost Value = { List ℕ };

    ghost view = { λ buffer. buffer.bytes.items };

    ghost invariant = { λ buffer. length buffer.piece.items ≡ 4096 };
}

/// Reads at most so many bytes into the front of a piece.
fn read_piece<S: Source>(source: &mut S, piece: &mut [u8], most: usize) -> Result<usize, Failed>
    requires some { 0 < most }
    requires room { 0 < length piece.old }
    ensures within { IfOk result (λ n. n ≤ length piece.new) }
    ensures most { IfOk result (λ n. n ≤ most) }
    ensures bytes { IsTrue S.tells → IfOk result (λ n. S.rest source.old ≡ take n piece.new ++ S.rest source.new) }
    ensures end { IsTrue S.tells → IfOk result (λ n. n ≡ 0 → S.rest source.old ≡ []) }
    ensures none { IsTrue S.tells → OnErr result (S.rest source.new ≡ S.rest source.old) }
    ensures cause { HasCause (S.faults source.old) (S.faults source.new) result }
    ensures same_setting { S.setting source.new ≡ S.setting source.old }
{
    let size = piece.len().min(most);
    source.read(&mut piece[..size])
}

/// Takes bytes of a source until there are so many, or the source ends.
fn fill<S: Source>(
    source: &mut S,
    bytes: &mut Vec<u8>,
    piece: &mut [u8],
    size: usize,
) -> Result<(), Stop>
    requires fits { length bytes.old.items ≤ size }
    requires room { 0 < length piece.old }
    ensures within { length bytes.new.items ≤ size }
    ensures bytes { IsTrue S.tells → OnOk result (bytes.new.items ≡ take size (bytes.old.items ++ S.rest source.old)) }
    ensures rest { IsTrue S.tells → OnOk result (S.rest source.new ≡ drop size (bytes.old.items ++ S.rest source.old)) }
    ensures cut { IsTrue S.tells → StopsShort size bytes.old.items bytes.new.items (S.rest source.old) (S.rest source.new) result }
    ensures cause { HasStopCause (S.faults source.old) (S.faults source.new) result }
    ensures same_setting { S.setting source.new ≡ S.setting source.old }
{
    while bytes.len() < size {
        let taken = read_piece(source, piece, size - bytes.len())?;
        if taken == 0 {
            return Ok(());
        }
        bytes.extend_from_slice(&piece[..taken])?;
    }
    Ok(())
}

impl Buffer {
    pub(crate) fn new(alloc: Global) -> Result<Self, OutOfMemory>
        ensures { IfOk result (λ buffer. buffer ≡ []) }
    {
        Ok(Buffer {
            bytes: Vec::new(alloc),
            piece: vec![in alloc; 0; PIECE_SIZE]?,
        })
    }

    pub(crate) fn clear(&mut self)
        ensures { self.new ≡ [] }
    {
        self.bytes.clear();
    }

    pub(crate) fn as_slice(&self) -> &[u8]
        ensures { result.now ≡ self.now }
    {
        self.bytes.as_slice()
    }

    /// Takes bytes of a source until there are so many, or the source ends.
    pub(crate) fn fill<S: Source>(&mut self, source: &mut S, size: usize) -> Result<(), Stop>
        requires { length self.old ≤ size }
        ensures within { length self.new ≤ size }
        ensures bytes { IsTrue S.tells → OnOk result (self.new ≡ take size (self.old ++ S.rest source.old)) }
        ensures rest { IsTrue S.tells → OnOk result (S.rest source.new ≡ drop size (self.old ++ S.rest source.old)) }
        ensures cut { IsTrue S.tells → StopsShort size self.old self.new (S.rest source.old) (S.rest source.new) result }
        ensures cause { HasStopCause (S.faults source.old) (S.faults source.new) result }
        ensures same_setting { S.setting source.new ≡ S.setting source.old }
    {
        fill(source, &mut self.bytes, &mut self.piece, size)
    }
}
