ghost use Rattle.std.specs.Prelude.{◌≡◌, IfOk};

use lists::{Bytes, OutOfMemory};
use std::alloc::Global;

pub fn copy_of(alloc: Global, bytes: &[u8]) -> Result<Bytes, OutOfMemory>
    ensures { IfOk result (λ copy. copy ≡ bytes.now) }
{
    let mut copy = Bytes::new(alloc);
    copy.append(bytes)?;
    Ok(copy)
}
