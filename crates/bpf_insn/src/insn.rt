use lists::List;

/// One slot of 8 bytes by its fields (RFC 9669 §3.1). `half` marks the second slot of a wide load, of which the other
/// fields but `imm` are 0.
#[derive(Clone, Copy, Debug, PartialEq, Eq)]
pub struct Insn {
    pub opcode: u8,
    pub target: u8,
    pub source: u8,
    pub offset: i16,
    pub imm: i32,
    pub half: bool,
}

pub type InsnList = List<Insn>;
