ghost use Rattle.std.specs.Prelude.{◌≡◌, Ok, IfOk, FitsSigned};
ghost use Rattle.std.specs.Int.{w16, w32};
ghost use Rattle.std.specs.List.{flat_map};
ghost use Rattle.bpf_insn.specs.Code.{Decodes, IsCode};
ghost use Rattle.bpf_insn.specs.Insn.{slot_bytes, HasRegisters};

use crate::insn::Insn;
use lists::{Bytes, OutOfMemory};
use std::alloc::Global;

/// The bytes of the instructions, which decode to them.
pub fn encode(alloc: Global, insns: &[Insn]) -> Result<Bytes, OutOfMemory>
    requires { IsCode insns.now }
    ensures bytes { IfOk result (λ bytes. bytes ≡ flat_map slot_bytes insns.now) }
    ensures round_trip { IfOk result (λ bytes. Decodes bytes (Ok insns.now)) }
{
    let mut bytes = Bytes::new(alloc);
    for insn in insns {
        bytes.append(&slot_of(insn))?;
    }
    Ok(bytes)
}

/// The slot of an instruction.
fn slot_of(insn: &Insn) -> [u8; 8]
    requires { HasRegisters insn.now }
    ensures bytes { result ≡ slot_bytes insn.now }
    ensures offset { FitsSigned w16 insn.now.offset }
    ensures imm { FitsSigned w32 insn.now.imm }
{
    let offset = insn.offset.to_le_bytes();
    let imm = insn.imm.to_le_bytes();
    [
        insn.opcode,
        insn.source * 16 + insn.target,
        offset[0],
        offset[1],
        imm[0],
        imm[1],
        imm[2],
        imm[3],
    ]
}
