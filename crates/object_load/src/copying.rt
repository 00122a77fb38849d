//! Copies of bytes and of items.

ghost use Rattle.std.specs.Prelude.{◌≡◌, ◌++◌, IfOk, OnOk};

use lists::{Bytes, List, OutOfMemory};
use std::alloc::Global;

/// Puts copies of items behind others.
pub(crate) fn append<T: Copy + Drop>(list: &mut List<T>, items: &[T]) -> Result<(), OutOfMemory>
    ensures { OnOk result (list.new ≡ list.old ++ items.now) }
{
    for item in items {
        list.push(*item)?;
    }
    Ok(())
}

pub(crate) fn copy(alloc: Global, bytes: &[u8]) -> Result<Bytes, OutOfMemory>
    ensures { IfOk result (λ copied. copied ≡ bytes.now) }
{
    let mut copied = Bytes::new(alloc);
    copied.append(bytes)?;
    Ok(copied)
}
