ghost use Rattle.std.specs.Prelude.{◌≡◌, IfOk};

use super::State;
use crate::hook::Hook;
use std::alloc::Global;
use xio::OutOfMemory;

impl State {
    /// A state of the same book, with the room of all that changes can make, from the memory that this one takes its from.
    pub fn copy(&self) -> Result<Self, OutOfMemory>
        ensures { IfOk result (λ copy. copy ≡ self.now) }
    {
        Ok(State {
            hooks: copy_all(*self.hooks.allocator(), &self.hooks)?,
            dumps: self.dumps,
            rules: self.rules.copy()?,
            count: self.count,
        })
    }
}

fn copy_all(alloc: Global, hooks: &[Hook]) -> Result<Vec<Hook>, OutOfMemory>
    ensures { IfOk result (λ copies. copies.items ≡ hooks.now) }
{
    let mut copies = Vec::with_capacity(alloc, hooks.len())?;
    for hook in hooks {
        copies.push(hook.copy())?;
    }
    Ok(copies)
}
