ghost use Rattle.std.specs.Prelude.{◌≡◌, [], false};

use crate::failed::Failed;
use crate::real::again::{flush_again, write_again};
use crate::sink::Sink;
use std::io::Write;

/// A writer of the system. A call that a signal interrupts is made again.
#[derive(Drop)]
pub struct RealOut<W> {
    writer: W,
    faults: u64,
}

impl<W: Write> RealOut<W> {
    pub fn new(writer: W) -> Self
        ensures { ⟦<RealOut<W> as Sink>⟧.faults result ≡ 0 }
    {
        RealOut { writer, faults: 0 }
    }
}

impl<W: Write> Sink for RealOut<W> {
    ghost tells = { false };

    ghost held = { λ _. [] };

    ghost flushed = { λ _. 0 };

    ghost faults = { λ out. out.faults };

    ghost setting = { λ _. tt };

    fn write(&mut self, piece: &[u8]) -> Result<usize, Failed> {
        let result = write_again(&mut self.writer, piece);
        if result.is_err() {
            self.faults = self.faults.saturating_add(1);
        }
        result
    }

    fn flush(&mut self) -> Result<(), Failed> {
        let result = flush_again(&mut self.writer);
        if result.is_err() {
            self.faults = self.faults.saturating_add(1);
        }
        result
    }
}
