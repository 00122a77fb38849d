//! Laws of the definitions, each the contract of a call that does nothing.

ghost use Rattle.std.specs.Prelude.{◌≡◌, ℕ, ℤ, List, Some, slice_get, slice_set};
ghost use Rattle.bpf_insn.specs.declared.insn.Insn.{Insn};
ghost use Rattle.bpf_insn.specs.Code.{IsCode, TakesAnyImm};

/// A code stays one that can be written, whatever immediate a call, a wide load or the half of one is given.
pub fn any_immediate()
    ensures { (insns : List Insn) (place : ℕ) (insn : Insn) (imm : ℤ)
        → slice_get insns place ≡ Some insn → TakesAnyImm insn → IsCode insns
        → IsCode (slice_set insns place (record insn { imm = imm })) }
{}
