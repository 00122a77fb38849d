ghost use Rattle.std.specs.Prelude.{◌≡◌, ◌<◌, ◌↔◌, pos, IfSome, IsTrue, Some};
ghost use Rattle.bpf_insn.specs.Operation.{source_bit, arithmetic_code, test_code, size_code, narrow_code, atomic_code, IsSourceWritten, alu_class, jump_class, opcode_of, IsOpcode};

use bpf_alu::{Order, Test};

/// How many bits an operation works on.
#[derive(Clone, Copy, Debug, PartialEq, Eq)]
pub enum Width {
    Bits32,
    Bits64,
}

/// Where the second operand stands.
#[derive(Clone, Copy, Debug, PartialEq, Eq)]
pub enum Operand {
    Imm,
    Register,
}

/// Arithmetic of two operands (RFC 9669 §4.1). `Div` and `Mod` are signed where the offset is 1, and `Mov` extends the
/// sign of as many bits as the offset says where it isn't 0.
#[derive(Clone, Copy, Debug, PartialEq, Eq)]
pub enum Arithmetic {
    Add,
    Sub,
    Mul,
    Div,
    Or,
    And,
    Lsh,
    Rsh,
    Mod,
    Xor,
    Mov,
    Arsh,
}

/// Where the distance of a jump stands.
#[derive(Clone, Copy, Debug, PartialEq, Eq)]
pub enum Distance {
    Offset,
    Imm,
}

/// How many bytes are loaded or stored: 1, 2, 4 or 8.
#[derive(Clone, Copy, Debug, PartialEq, Eq)]
pub enum Size {
    Byte,
    Half,
    Word,
    Double,
}

/// How many bytes are loaded where the rest of the register gets their sign: 1, 2 or 4.
#[derive(Clone, Copy, Debug, PartialEq, Eq)]
pub enum Narrow {
    Byte,
    Half,
    Word,
}

/// What an instruction does, as far as its opcode says: one value for each opcode and source form.
#[derive(Clone, Copy, Debug, PartialEq, Eq)]
pub enum Operation {
    /// Puts the result into the target.
    Alu {
        width: Width,
        op: Arithmetic,
        operand: Operand,
    },
    /// Puts the target's negative into it.
    Neg {
        width: Width,
    },
    /// Puts the target's low bytes into an order.
    End {
        order: Order,
    },
    Jump {
        distance: Distance,
    },
    /// Jumps by the offset where the test of target and operand holds.
    Branch {
        width: Width,
        test: Test,
        operand: Operand,
    },
    /// Calls a helper where the source is 0, and a function of the program where it is 1.
    Call,
    Exit,
    /// Puts what stands at source and offset into the target.
    Load {
        size: Size,
    },
    LoadSigned {
        size: Narrow,
    },
    /// Writes the operand at target and offset.
    Store {
        size: Size,
        operand: Operand,
    },
    /// Changes what stands at target and offset, as the immediate says.
    Atomic {
        width: Width,
    },
    /// Puts the immediates of two slots into the target, the low half first.
    LoadWide,
}

/// What an atomic operation does to the memory (RFC 9669 §5.3). The ones that fetch put the old value into the source
/// register, and `CompareExchange` puts it into r0.
#[derive(Clone, Copy, Debug, PartialEq, Eq)]
pub enum Atomic {
    Add,
    Or,
    And,
    Xor,
    FetchAdd,
    FetchOr,
    FetchAnd,
    FetchXor,
    Exchange,
    CompareExchange,
}

impl Arithmetic {
    /// The arithmetic of a code (RFC 9669 §4.1).
    fn from_code(code: u8) -> Option<Self>
        ensures found { IfSome result (λ op. arithmetic_code op ≡ code) }
        ensures only { (op : Arithmetic) → arithmetic_code op ≡ code → result ≡ Some op }
    {
        match code {
            0x0 => Some(Arithmetic::Add),
            0x1 => Some(Arithmetic::Sub),
            0x2 => Some(Arithmetic::Mul),
            0x3 => Some(Arithmetic::Div),
            0x4 => Some(Arithmetic::Or),
            0x5 => Some(Arithmetic::And),
            0x6 => Some(Arithmetic::Lsh),
            0x7 => Some(Arithmetic::Rsh),
            0x9 => Some(Arithmetic::Mod),
            0xa => Some(Arithmetic::Xor),
            0xb => Some(Arithmetic::Mov),
            0xc => Some(Arithmetic::Arsh),
            _ => None,
        }
    }
}

/// The test of a jump's code (RFC 9669 §4.3).
fn test_of(code: u8) -> Option<Test>
    ensures found { IfSome result (λ test. test_code test ≡ code) }
    ensures only { (test : Test) → test_code test ≡ code → result ≡ Some test }
{
    match code {
        0x1 => Some(Test::Eq),
        0x2 => Some(Test::Gt),
        0x3 => Some(Test::Ge),
        0x4 => Some(Test::Set),
        0x5 => Some(Test::Ne),
        0x6 => Some(Test::Sgt),
        0x7 => Some(Test::Sge),
        0xa => Some(Test::Lt),
        0xb => Some(Test::Le),
        0xc => Some(Test::Slt),
        0xd => Some(Test::Sle),
        _ => None,
    }
}

impl Operand {
    /// The operand by the source bit (RFC 9669 §4).
    fn from_bit(bit: u8) -> Self
        requires { bit < 2 }
        ensures { source_bit result ≡ bit }
    {
        if bit == 0 {
            Operand::Imm
        } else {
            Operand::Register
        }
    }
}

impl Size {
    /// The size of a code (RFC 9669 §5).
    fn from_code(code: u8) -> Self
        requires { code < 4 }
        ensures { size_code result ≡ code }
    {
        match code {
            0 => Size::Word,
            1 => Size::Half,
            2 => Size::Byte,
            _ => Size::Double,
        }
    }
}

impl Narrow {
    /// The size of a code (RFC 9669 §5.2).
    fn from_code(code: u8) -> Option<Self>
        ensures found { IfSome result (λ size. narrow_code size ≡ code) }
        ensures only { (size : Narrow) → narrow_code size ≡ code → result ≡ Some size }
    {
        match code {
            0 => Some(Narrow::Word),
            1 => Some(Narrow::Half),
            2 => Some(Narrow::Byte),
            _ => None,
        }
    }
}

impl Atomic {
    /// The operation of an immediate (RFC 9669 §5.3).
    #[inline]
    pub fn from_imm(imm: i32) -> Option<Self>
        ensures found { IfSome result (λ op. pos (atomic_code op) ≡ imm) }
        ensures only { (op : Atomic) → pos (atomic_code op) ≡ imm → result ≡ Some op }
    {
        match imm {
            0x00 => Some(Atomic::Add),
            0x40 => Some(Atomic::Or),
            0x50 => Some(Atomic::And),
            0xa0 => Some(Atomic::Xor),
            0x01 => Some(Atomic::FetchAdd),
            0x41 => Some(Atomic::FetchOr),
            0x51 => Some(Atomic::FetchAnd),
            0xa1 => Some(Atomic::FetchXor),
            0xe1 => Some(Atomic::Exchange),
            0xf1 => Some(Atomic::CompareExchange),
            _ => None,
        }
    }

    /// Whether the old value is put into the source register.
    #[inline]
    pub fn writes_source(self) -> bool
        ensures { IsTrue result ↔ IsSourceWritten self }
    {
        matches!(
            self,
            Atomic::FetchAdd
                | Atomic::FetchOr
                | Atomic::FetchAnd
                | Atomic::FetchXor
                | Atomic::Exchange
        )
    }
}

impl Operation {
    /// What the instructions of an opcode do, where there are such instructions.
    #[inline]
    pub fn from_opcode(opcode: u8) -> Option<Self>
        ensures found { IfSome result (λ operation. opcode_of operation ≡ opcode) }
        ensures only { (operation : Operation) →
            opcode_of operation ≡ opcode → result ≡ Some operation }
    {
        let specific = opcode / 8;
        match opcode % 8 {
            0 => wide_load(specific),
            1 => load(specific),
            2 => store(specific),
            3 => store_register(specific),
            4 => alu(Width::Bits32, specific),
            5 => jump(Width::Bits64, specific),
            6 => jump(Width::Bits32, specific),
            _ => alu(Width::Bits64, specific),
        }
    }
}

/// Operations of class 0.
fn wide_load(specific: u8) -> Option<Operation>
    requires { specific < 32 }
    ensures found { IfSome result (IsOpcode 0 specific) }
    ensures only { (operation : Operation) →
        IsOpcode 0 specific operation → result ≡ Some operation }
{
    if specific == 3 {
        Some(Operation::LoadWide)
    } else {
        None
    }
}

/// Operations of class 1.
fn load(specific: u8) -> Option<Operation>
    requires { specific < 32 }
    ensures found { IfSome result (IsOpcode 1 specific) }
    ensures only { (operation : Operation) →
        IsOpcode 1 specific operation → result ≡ Some operation }
{
    match specific / 4 {
        3 => Some(Operation::Load {
            size: Size::from_code(specific % 4),
        }),
        4 => Some(Operation::LoadSigned {
            size: Narrow::from_code(specific % 4)?,
        }),
        _ => None,
    }
}

/// Operations of class 2.
fn store(specific: u8) -> Option<Operation>
    requires { specific < 32 }
    ensures found { IfSome result (IsOpcode 2 specific) }
    ensures only { (operation : Operation) →
        IsOpcode 2 specific operation → result ≡ Some operation }
{
    match specific / 4 {
        3 => Some(Operation::Store {
            size: Size::from_code(specific % 4),
            operand: Operand::Imm,
        }),
        _ => None,
    }
}

/// Operations of class 3.
fn store_register(specific: u8) -> Option<Operation>
    requires { specific < 32 }
    ensures found { IfSome result (IsOpcode 3 specific) }
    ensures only { (operation : Operation) →
        IsOpcode 3 specific operation → result ≡ Some operation }
{
    match specific {
        12..=15 => Some(Operation::Store {
            size: Size::from_code(specific % 4),
            operand: Operand::Register,
        }),
        24 => Some(Operation::Atomic {
            width: Width::Bits32,
        }),
        27 => Some(Operation::Atomic {
            width: Width::Bits64,
        }),
        _ => None,
    }
}

/// Operations of the class of arithmetic of a width.
fn alu(width: Width, specific: u8) -> Option<Operation>
    requires { specific < 32 }
    ensures found { IfSome result (IsOpcode (alu_class width) specific) }
    ensures only { (operation : Operation) →
        IsOpcode (alu_class width) specific operation → result ≡ Some operation }
{
    match (specific, width) {
        (16, _) => Some(Operation::Neg { width }),
        (26, Width::Bits32) => Some(Operation::End {
            order: Order::ToLittle,
        }),
        (27, Width::Bits32) => Some(Operation::End {
            order: Order::ToBig,
        }),
        (26, Width::Bits64) => Some(Operation::End { order: Order::Swap }),
        _ => Some(Operation::Alu {
            width,
            op: Arithmetic::from_code(specific / 2)?,
            operand: Operand::from_bit(specific % 2),
        }),
    }
}

/// Operations of the class of jumps of a width.
fn jump(width: Width, specific: u8) -> Option<Operation>
    requires { specific < 32 }
    ensures found { IfSome result (IsOpcode (jump_class width) specific) }
    ensures only { (operation : Operation) →
        IsOpcode (jump_class width) specific operation → result ≡ Some operation }
{
    match (specific, width) {
        (0, Width::Bits64) => Some(Operation::Jump {
            distance: Distance::Offset,
        }),
        (0, Width::Bits32) => Some(Operation::Jump {
            distance: Distance::Imm,
        }),
        (16, Width::Bits64) => Some(Operation::Call),
        (18, Width::Bits64) => Some(Operation::Exit),
        _ => Some(Operation::Branch {
            width,
            test: test_of(specific / 2)?,
            operand: Operand::from_bit(specific % 2),
        }),
    }
}
