ghost use Rattle.std.specs.Prelude.{◌≡◌, IfOk};

use std::alloc::Global;
use std::marker::Model;
use xdp_state::Command;
use xio::OutOfMemory;

/// A command at a place of its own, so that a line of the script is no longer than a packet's.
#[derive(Debug, Drop)]
pub struct BoxedCommand {
    command: Box<Command>,
}

impl Model for BoxedCommand {
    ghost use Rattle.xdp_state.specs.declared.command.Command.{Command};

    ghost Value = { Command };

    ghost view = { λ boxed. boxed.command.value };
}

impl BoxedCommand {
    pub fn new(alloc: Global, command: Command) -> Result<Self, OutOfMemory>
        ensures { IfOk result (λ boxed. boxed ≡ command) }
    {
        Ok(BoxedCommand {
            command: Box::new(alloc, command)?,
        })
    }

    pub fn get(&self) -> &Command
        ensures { result.now ≡ self.now }
    {
        &self.command
    }
}
