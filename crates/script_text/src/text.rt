ghost use Rattle.std.specs.Prelude.{◌≡◌, IfOk};
ghost use Rattle.script_text.specs.WordViews.{word_of};

use std::alloc::Global;
use xio::{Bytes, OutOfMemory};

/// A copy of bytes.
pub fn bytes_of(alloc: Global, bytes: &[u8]) -> Result<Bytes, OutOfMemory>
    ensures { IfOk result (λ copy. copy ≡ bytes.now) }
{
    let mut copy = Bytes::new(alloc);
    copy.append(bytes)?;
    Ok(copy)
}

/// A copy of bytes, where there are some.
pub fn bytes_if(alloc: Global, bytes: Option<&[u8]>) -> Result<Option<Bytes>, OutOfMemory>
    ensures { IfOk result (λ copy. copy ≡ word_of bytes.entry) }
{
    match bytes {
        Some(bytes) => Ok(Some(bytes_of(alloc, bytes)?)),
        None => Ok(None),
    }
}
