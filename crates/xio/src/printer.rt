ghost use Rattle.std.specs.Prelude.{◌≡◌, Bool, true, false, ◌++◌};
ghost use Rattle.xio.specs.Printing.{PrinterState, Prints};

use lists::{Bytes, OutOfMemory};

/// What takes a text piece by piece.
pub trait Printer {
    /// Why a piece isn't taken.
    type End;

    /// whether it tells its text
    ghost tells: { Bool };

    /// whether each of its failures has a cause
    ghost counts: { Bool };

    /// what no call changes
    ghost Setting: { Type 0 } = { Unit {0} };

    ghost state: { Self → PrinterState Self.Setting };

    /// Takes the whole piece, or ends.
    fn print(&mut self, piece: &[u8]) -> Result<(), Self::End>
        ensures { Prints tells counts (state self.old) (state self.new) piece.now result };
}

impl Printer for Bytes {
    type End = OutOfMemory;

    ghost tells = { true };

    ghost counts = { false };

    ghost state = { λ bytes. record { text = bytes; arrived = bytes; faults = 0; setting = tt } };

    fn print(&mut self, piece: &[u8]) -> Result<(), OutOfMemory> {
        self.append(piece)
    }
}
