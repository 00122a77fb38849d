ghost use Rattle.std.specs.Prelude.{◌≡◌, ℕ, List, true, IfOk, IfSome};
ghost use Rattle.script_text.specs.Frames.{has_frame_size, frame_of};

use crate::hexadecimal::bytes_of_digits;
use std::alloc::Global;
use std::marker::Model;
use xio::OutOfMemory;

const SHORTEST: usize = 14;

const LONGEST: usize = 15_872;

/// The bytes of a frame of the script.
#[derive(Debug, Drop)]
pub struct Frame {
    bytes: Vec<u8>,
}

impl Model for Frame {
    ghost Value = { List ℕ };

    ghost view = { λ frame. frame.bytes.items };
}

impl Frame {
    pub fn as_slice(&self) -> &[u8]
        ensures { result.now ≡ self.now }
    {
        self.bytes.as_slice()
    }

    /// The frame of a word of hexadecimal digits, where it is one. Memory is taken only for a word of a frame's length,
    /// and no more than the frame's.
    pub fn of_digits(alloc: Global, word: &[u8]) -> Result<Option<Self>, OutOfMemory>
        ensures value { IfOk result (λ frame. frame ≡ frame_of word.now) }
        ensures size { IfOk result (λ frame. IfSome frame (λ bytes. has_frame_size bytes ≡ true)) }
    {
        if word.len() < 2 * SHORTEST || word.len() > 2 * LONGEST {
            return Ok(None);
        }
        match bytes_of_digits(alloc, word)? {
            Some(bytes) => Ok(Some(Frame { bytes })),
            None => Ok(None),
        }
    }
}
