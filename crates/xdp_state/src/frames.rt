ghost use Rattle.std.specs.Prelude.{◌≡◌, ◌+◌, ◌<◌, ◌≤◌, [], ◌∷◌, ◌++◌, length, take, slice_get, Some, IfOk, vec_len, vec_capacity};
ghost use Rattle.std.specs.Option.{option_map};
ghost use Rattle.xdp_state.specs.Dump.{captured_at, kept_of};
ghost use Rattle.xdp_state.specs.Frames.{IsInside, marked};

use crate::dump::Captured;
use crate::kept_frame::KeptFrame;
use lists::Bytes;
use std::alloc::Global;
use std::marker::Model;
use xio::OutOfMemory;

/// How many frames are kept at most.
const FRAMES: usize = 10;

/// How many bytes a frame has at most.
const FRAME_BYTES: usize = 16_384;

/// Which bytes are those of a frame, of which length and cut to how many.
#[derive(Clone, Copy, Debug, PartialEq, Eq)]
pub(crate) struct Mark {
    pub length: u32,
    pub snap: u32,
    pub start: usize,
    pub kept: usize,
}

/// A packet's frames as a dump keeps them, one for each member or none, with room for ten.
#[derive(Debug, Drop)]
pub(crate) struct Frames {
    marks: Vec<Option<Mark>>,
    bytes: Vec<u8>,
}

impl Model for Frames {
    ghost use Rattle.std.specs.Prelude.{List, Option};
    ghost use Rattle.xdp_state.specs.Frames.{view_of, IsRoomy};
    ghost use Rattle.xdp_state.specs.declared.dump.Captured.{Captured};

    ghost Value = { List (Option Captured) };

    ghost view = { view_of };

    ghost invariant = { IsRoomy };
}

impl Frames {
    pub fn new(alloc: Global) -> Result<Self, OutOfMemory>
        ensures { IfOk result (λ frames. frames ≡ []) }
    {
        Ok(Frames {
            marks: Vec::with_capacity(alloc, FRAMES)?,
            bytes: Vec::with_capacity(alloc, FRAMES * FRAME_BYTES)?,
        })
    }

    pub fn clear(&mut self)
        ensures { self.new ≡ [] }
    {
        self.marks.clear();
        self.bytes.clear();
    }

    /// Keeps the first bytes of a frame behind those before it, or nothing where no number of bytes is asked for.
    pub fn put(&mut self, frame: &[u8], snap: Option<u32>)
        requires few { length self.old < 10 }
        requires most { length frame.now ≤ 16384 }
        ensures { self.new ≡ self.old ++ captured_at snap frame.now ∷ [] }
    {
        let mark = keep_if(&mut self.bytes, frame, snap);
        self.marks.push_reserved(mark);
    }

    /// What is kept at a place.
    pub fn copy_at(&self, alloc: Global, place: usize) -> Result<KeptFrame, OutOfMemory>
        requires { place < length self.now }
        ensures { IfOk result (λ captured. slice_get self.now place ≡ Some captured) }
    {
        match self.marks[place] {
            Some(mark) => KeptFrame::new(alloc, copy_of(alloc, &self.bytes, mark)?),
            None => Ok(KeptFrame::none()),
        }
    }
}

/// Puts the first bytes of a frame behind the others, or nothing where no number of bytes is asked for.
fn keep_if(bytes: &mut Vec<u8>, frame: &[u8], snap: Option<u32>) -> Option<Mark>
    requires most { length frame.now ≤ 16384 }
    requires room { vec_len bytes.old + 16384 ≤ vec_capacity bytes.old }
    ensures frame { option_map (marked bytes.new.items) result ≡ captured_at snap frame.now }
    ensures bytes { bytes.new.items ≡ bytes.old.items ++ kept_of snap frame.now }
    ensures inside { IsInside (vec_len bytes.new) result }
    ensures within { vec_len bytes.new ≤ vec_len bytes.old + 16384 }
    ensures later { vec_len bytes.old ≤ vec_len bytes.new }
    ensures room { vec_capacity bytes.old ≤ vec_capacity bytes.new }
{
    match snap {
        Some(snap) => Some(keep(bytes, frame, snap)),
        None => None,
    }
}

/// Puts the first bytes of a frame behind the others, for which there is room.
fn keep(bytes: &mut Vec<u8>, frame: &[u8], snap: u32) -> Mark
    requires most { length frame.now ≤ 16384 }
    requires room { vec_len bytes.old + 16384 ≤ vec_capacity bytes.old }
    ensures mark { result ≡ record {
      length = length frame.now;
      snap = snap;
      start = vec_len bytes.old;
      kept = length (take snap frame.now);
    } }
    ensures bytes { bytes.new.items ≡ bytes.old.items ++ take snap frame.now }
    ensures room { vec_capacity bytes.old ≤ vec_capacity bytes.new }
{
    let first = &frame[..frame.len().min(snap as usize)];
    let mark = Mark {
        length: frame.len() as u32,
        snap,
        start: bytes.len(),
        kept: first.len(),
    };
    append(bytes, first);
    mark
}

/// Puts bytes behind the others, for which there is room.
fn append(bytes: &mut Vec<u8>, more: &[u8])
    requires { vec_len bytes.old + length more.now ≤ vec_capacity bytes.old }
    ensures items { bytes.new.items ≡ bytes.old.items ++ more.now }
    ensures room { vec_capacity bytes.old ≤ vec_capacity bytes.new }
{
    let Ok(()) = bytes.extend_from_slice(more) else {
        unreachable!()
    };
}

/// The frame of a mark.
fn copy_of(alloc: Global, bytes: &[u8], mark: Mark) -> Result<Captured, OutOfMemory>
    requires { mark.start + mark.kept ≤ length bytes.now }
    ensures { IfOk result (λ captured. captured ≡ marked bytes.now mark) }
{
    let mut kept = Bytes::new(alloc);
    kept.append(&bytes[mark.start..mark.start + mark.kept])?;
    Ok(Captured {
        length: mark.length,
        snap: mark.snap,
        kept,
    })
}
