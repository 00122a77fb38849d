//! Instructions of BPF as RFC 9669 defines them, read from bytes and written as bytes by one table of their forms.
#![tactic(auto)]

mod decoding;
mod encoding;
mod insn;
pub mod laws;
mod operation;
mod table;

pub use decoding::{DecodeEnd, decode};
pub use encoding::encode;
pub use insn::{Insn, InsnList};
pub use operation::{Arithmetic, Atomic, Distance, Narrow, Operand, Operation, Size, Width};
pub use table::{Form, ImmRule, OffsetRule, Table, instructions, rows_apart};
