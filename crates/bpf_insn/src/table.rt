ghost use Rattle.std.specs.Prelude.{◌≡◌, ◌<◌, ◌↔◌, ℕ, IsTrue, IsBitSet, All, Contains, IfSome, Some, nat_lt};
ghost use Rattle.std.specs.List.{IsAllAdjacentAnswer};
ghost use Rattle.bpf_insn.specs.declared.table.Form.{Form};
ghost use Rattle.bpf_insn.specs.declared.operation.Operation.{Operation};
ghost use Rattle.bpf_insn.specs.Operation.{opcode_of};
ghost use Rattle.bpf_insn.specs.Form.{form_of, half_form, AllowsOffset, AllowsImm, Fits, IsForm};
ghost use Rattle.bpf_insn.specs.Table.{AreApart};

use crate::insn::Insn;
use crate::operation::Atomic;

/// What a slot may hold for one opcode, or the first slot of a wide load. `targets` and `sources` are masks of register
/// numbers, bit 0 for r0.
#[derive(Clone, Copy, Debug, PartialEq, Eq)]
pub struct Form {
    pub opcode: u8,
    pub targets: u16,
    pub sources: u16,
    pub offsets: OffsetRule,
    pub imms: ImmRule,
}

/// The offsets that a form takes: 0; each; 0 or 1; 0, 8 or 16; 0, 8, 16 or 32.
#[derive(Clone, Copy, Debug, PartialEq, Eq)]
pub enum OffsetRule {
    Zero,
    Any,
    ZeroOrOne,
    Moves16,
    Moves32,
}

/// The immediates that a form takes: 0; each; 16, 32 or 64; the code of an atomic operation, of which the source is r0
/// to r9 where the operation writes it.
#[derive(Clone, Copy, Debug, PartialEq, Eq)]
pub enum ImmRule {
    Zero,
    Any,
    Swap,
    Atomic,
}

/// Forms by opcode.
#[derive(Clone, Copy, Debug, PartialEq, Eq)]
pub struct Table<const N: usize> {
    pub rows: [Form; N],
}

/// A register field that isn't used, which is 0.
const NONE: u16 = 0x001;
/// A register that is written: r0 to r9.
const WRITTEN: u16 = 0x3ff;
/// A register that is only read: r0 to r10.
const READ: u16 = 0x7ff;
/// The source of a call: 0 for a helper, 1 for a function of the program.
const CALLS: u16 = 0x003;

macro_rules! form {
    ($opcode:literal, $targets:ident, $sources:ident, $offsets:ident, $imms:ident) => {
        Form {
            opcode: $opcode,
            targets: $targets,
            sources: $sources,
            offsets: OffsetRule::$offsets,
            imms: ImmRule::$imms,
        }
    };
}

/// The instructions of BPF, each opcode once, in ascending order.
static ROWS: [Form; 119] = [
    form!(0x04, WRITTEN, NONE, Zero, Any), // ADD32 imm
    form!(0x05, NONE, NONE, Any, Zero), // JA by offset
    form!(0x06, NONE, NONE, Zero, Any), // JA by imm
    form!(0x07, WRITTEN, NONE, Zero, Any), // ADD64 imm
    form!(0x0c, WRITTEN, READ, Zero, Zero), // ADD32 register
    form!(0x0f, WRITTEN, READ, Zero, Zero), // ADD64 register
    form!(0x14, WRITTEN, NONE, Zero, Any), // SUB32 imm
    form!(0x15, READ, NONE, Any, Any), // JEQ64 imm
    form!(0x16, READ, NONE, Any, Any), // JEQ32 imm
    form!(0x17, WRITTEN, NONE, Zero, Any), // SUB64 imm
    form!(0x18, WRITTEN, NONE, Zero, Any), // wide load
    form!(0x1c, WRITTEN, READ, Zero, Zero), // SUB32 register
    form!(0x1d, READ, READ, Any, Zero), // JEQ64 register
    form!(0x1e, READ, READ, Any, Zero), // JEQ32 register
    form!(0x1f, WRITTEN, READ, Zero, Zero), // SUB64 register
    form!(0x24, WRITTEN, NONE, Zero, Any), // MUL32 imm
    form!(0x25, READ, NONE, Any, Any), // JGT64 imm
    form!(0x26, READ, NONE, Any, Any), // JGT32 imm
    form!(0x27, WRITTEN, NONE, Zero, Any), // MUL64 imm
    form!(0x2c, WRITTEN, READ, Zero, Zero), // MUL32 register
    form!(0x2d, READ, READ, Any, Zero), // JGT64 register
    form!(0x2e, READ, READ, Any, Zero), // JGT32 register
    form!(0x2f, WRITTEN, READ, Zero, Zero), // MUL64 register
    form!(0x34, WRITTEN, NONE, ZeroOrOne, Any), // DIV32 imm
    form!(0x35, READ, NONE, Any, Any), // JGE64 imm
    form!(0x36, READ, NONE, Any, Any), // JGE32 imm
    form!(0x37, WRITTEN, NONE, ZeroOrOne, Any), // DIV64 imm
    form!(0x3c, WRITTEN, READ, ZeroOrOne, Zero), // DIV32 register
    form!(0x3d, READ, READ, Any, Zero), // JGE64 register
    form!(0x3e, READ, READ, Any, Zero), // JGE32 register
    form!(0x3f, WRITTEN, READ, ZeroOrOne, Zero), // DIV64 register
    form!(0x44, WRITTEN, NONE, Zero, Any), // OR32 imm
    form!(0x45, READ, NONE, Any, Any), // JSET64 imm
    form!(0x46, READ, NONE, Any, Any), // JSET32 imm
    form!(0x47, WRITTEN, NONE, Zero, Any), // OR64 imm
    form!(0x4c, WRITTEN, READ, Zero, Zero), // OR32 register
    form!(0x4d, READ, READ, Any, Zero), // JSET64 register
    form!(0x4e, READ, READ, Any, Zero), // JSET32 register
    form!(0x4f, WRITTEN, READ, Zero, Zero), // OR64 register
    form!(0x54, WRITTEN, NONE, Zero, Any), // AND32 imm
    form!(0x55, READ, NONE, Any, Any), // JNE64 imm
    form!(0x56, READ, NONE, Any, Any), // JNE32 imm
    form!(0x57, WRITTEN, NONE, Zero, Any), // AND64 imm
    form!(0x5c, WRITTEN, READ, Zero, Zero), // AND32 register
    form!(0x5d, READ, READ, Any, Zero), // JNE64 register
    form!(0x5e, READ, READ, Any, Zero), // JNE32 register
    form!(0x5f, WRITTEN, READ, Zero, Zero), // AND64 register
    form!(0x61, WRITTEN, READ, Any, Zero), // LDX 4
    form!(0x62, READ, NONE, Any, Any), // ST 4
    form!(0x63, READ, READ, Any, Zero), // STX 4
    form!(0x64, WRITTEN, NONE, Zero, Any), // LSH32 imm
    form!(0x65, READ, NONE, Any, Any), // JSGT64 imm
    form!(0x66, READ, NONE, Any, Any), // JSGT32 imm
    form!(0x67, WRITTEN, NONE, Zero, Any), // LSH64 imm
    form!(0x69, WRITTEN, READ, Any, Zero), // LDX 2
    form!(0x6a, READ, NONE, Any, Any), // ST 2
    form!(0x6b, READ, READ, Any, Zero), // STX 2
    form!(0x6c, WRITTEN, READ, Zero, Zero), // LSH32 register
    form!(0x6d, READ, READ, Any, Zero), // JSGT64 register
    form!(0x6e, READ, READ, Any, Zero), // JSGT32 register
    form!(0x6f, WRITTEN, READ, Zero, Zero), // LSH64 register
    form!(0x71, WRITTEN, READ, Any, Zero), // LDX 1
    form!(0x72, READ, NONE, Any, Any), // ST 1
    form!(0x73, READ, READ, Any, Zero), // STX 1
    form!(0x74, WRITTEN, NONE, Zero, Any), // RSH32 imm
    form!(0x75, READ, NONE, Any, Any), // JSGE64 imm
    form!(0x76, READ, NONE, Any, Any), // JSGE32 imm
    form!(0x77, WRITTEN, NONE, Zero, Any), // RSH64 imm
    form!(0x79, WRITTEN, READ, Any, Zero), // LDX 8
    form!(0x7a, READ, NONE, Any, Any), // ST 8
    form!(0x7b, READ, READ, Any, Zero), // STX 8
    form!(0x7c, WRITTEN, READ, Zero, Zero), // RSH32 register
    form!(0x7d, READ, READ, Any, Zero), // JSGE64 register
    form!(0x7e, READ, READ, Any, Zero), // JSGE32 register
    form!(0x7f, WRITTEN, READ, Zero, Zero), // RSH64 register
    form!(0x81, WRITTEN, READ, Any, Zero), // LDX 4 signed
    form!(0x84, WRITTEN, NONE, Zero, Zero), // NEG32
    form!(0x85, NONE, CALLS, Zero, Any), // CALL
    form!(0x87, WRITTEN, NONE, Zero, Zero), // NEG64
    form!(0x89, WRITTEN, READ, Any, Zero), // LDX 2 signed
    form!(0x91, WRITTEN, READ, Any, Zero), // LDX 1 signed
    form!(0x94, WRITTEN, NONE, ZeroOrOne, Any), // MOD32 imm
    form!(0x95, NONE, NONE, Zero, Zero), // EXIT
    form!(0x97, WRITTEN, NONE, ZeroOrOne, Any), // MOD64 imm
    form!(0x9c, WRITTEN, READ, ZeroOrOne, Zero), // MOD32 register
    form!(0x9f, WRITTEN, READ, ZeroOrOne, Zero), // MOD64 register
    form!(0xa4, WRITTEN, NONE, Zero, Any), // XOR32 imm
    form!(0xa5, READ, NONE, Any, Any), // JLT64 imm
    form!(0xa6, READ, NONE, Any, Any), // JLT32 imm
    form!(0xa7, WRITTEN, NONE, Zero, Any), // XOR64 imm
    form!(0xac, WRITTEN, READ, Zero, Zero), // XOR32 register
    form!(0xad, READ, READ, Any, Zero), // JLT64 register
    form!(0xae, READ, READ, Any, Zero), // JLT32 register
    form!(0xaf, WRITTEN, READ, Zero, Zero), // XOR64 register
    form!(0xb4, WRITTEN, NONE, Zero, Any), // MOV32 imm
    form!(0xb5, READ, NONE, Any, Any), // JLE64 imm
    form!(0xb6, READ, NONE, Any, Any), // JLE32 imm
    form!(0xb7, WRITTEN, NONE, Zero, Any), // MOV64 imm
    form!(0xbc, WRITTEN, READ, Moves16, Zero), // MOV32 register
    form!(0xbd, READ, READ, Any, Zero), // JLE64 register
    form!(0xbe, READ, READ, Any, Zero), // JLE32 register
    form!(0xbf, WRITTEN, READ, Moves32, Zero), // MOV64 register
    form!(0xc3, READ, READ, Any, Atomic), // atomic 4
    form!(0xc4, WRITTEN, NONE, Zero, Any), // ARSH32 imm
    form!(0xc5, READ, NONE, Any, Any), // JSLT64 imm
    form!(0xc6, READ, NONE, Any, Any), // JSLT32 imm
    form!(0xc7, WRITTEN, NONE, Zero, Any), // ARSH64 imm
    form!(0xcc, WRITTEN, READ, Zero, Zero), // ARSH32 register
    form!(0xcd, READ, READ, Any, Zero), // JSLT64 register
    form!(0xce, READ, READ, Any, Zero), // JSLT32 register
    form!(0xcf, WRITTEN, READ, Zero, Zero), // ARSH64 register
    form!(0xd4, WRITTEN, NONE, Zero, Swap), // END to little
    form!(0xd5, READ, NONE, Any, Any), // JSLE64 imm
    form!(0xd6, READ, NONE, Any, Any), // JSLE32 imm
    form!(0xd7, WRITTEN, NONE, Zero, Swap), // END swap
    form!(0xdb, READ, READ, Any, Atomic), // atomic 8
    form!(0xdc, WRITTEN, NONE, Zero, Swap), // END to big
    form!(0xdd, READ, READ, Any, Zero), // JSLE64 register
    form!(0xde, READ, READ, Any, Zero), // JSLE32 register
];

/// The second slot of a wide load.
pub(crate) static HALF: Form = form!(0x00, NONE, NONE, Zero, Any);

impl OffsetRule {
    fn allows(self, offset: i16) -> bool
        ensures { IsTrue result ↔ AllowsOffset self offset }
    {
        match self {
            OffsetRule::Zero => offset == 0,
            OffsetRule::Any => true,
            OffsetRule::ZeroOrOne => matches!(offset, 0 | 1),
            OffsetRule::Moves16 => matches!(offset, 0 | 8 | 16),
            OffsetRule::Moves32 => matches!(offset, 0 | 8 | 16 | 32),
        }
    }
}

impl ImmRule {
    fn allows(self, insn: &Insn) -> bool
        ensures { IsTrue result ↔ AllowsImm self insn.now }
    {
        match self {
            ImmRule::Zero => insn.imm == 0,
            ImmRule::Any => true,
            ImmRule::Swap => matches!(insn.imm, 16 | 32 | 64),
            ImmRule::Atomic => match Atomic::from_imm(insn.imm) {
                Some(op) => insn.source <= 9 || !op.writes_source(),
                None => false,
            },
        }
    }
}

impl Form {
    /// Whether the fields of a slot are as the form says.
    pub(crate) fn fits(&self, insn: &Insn) -> bool
        requires target { insn.now.target < 16 }
        requires source { insn.now.source < 16 }
        ensures { IsTrue result ↔ Fits self.now insn.now }
    {
        insn.opcode == self.opcode
            && has(self.targets, insn.target)
            && has(self.sources, insn.source)
            && self.offsets.allows(insn.offset)
            && self.imms.allows(insn)
    }
}

/// Whether the register is in the mask.
fn has(mask: u16, register: u8) -> bool
    requires { register < 16 }
    ensures { IsTrue result ↔ IsBitSet mask register }
{
    mask & (1 << register) != 0
}

/// Whether the opcodes of the rows ascend and no bytes are taken by two rows.
pub fn rows_apart<const N: usize>(table: &Table<N>) -> bool
    ensures { IsTrue result ↔ AreApart table.now.rows }
{
    ascends(&table.rows)
}

fn ascends(rows: &[Form]) -> bool
    ensures { IsAllAdjacentAnswer (λ a b less. less ≡ nat_lt a.opcode b.opcode) rows.now result }
{
    rows.is_sorted_by(|a, b| a.opcode < b.opcode)
}

/// The table of the instructions: the form of each operation and no other.
pub fn instructions() -> Table<119>
    ensures apart { AreApart result.rows }
    ensures every { (operation : Operation) → Contains result.rows (form_of operation) }
    ensures only { All IsForm result.rows }
{
    Table { rows: ROWS }
}

/// The form of an opcode.
pub(crate) fn form_at(opcode: u8) -> Option<Form>
    ensures found { IfSome result (λ form. IsForm form × (form.opcode ≡ opcode)) }
    ensures every { (operation : Operation) →
        opcode_of operation ≡ opcode → result ≡ Some (form_of operation) }
{
    look_up(&ROWS, opcode)
}

/// The row of an opcode.
fn look_up(rows: &[Form], opcode: u8) -> Option<Form>
    requires { AreApart rows.now }
    ensures found { IfSome result (λ form. Contains rows.now form × (form.opcode ≡ opcode)) }
    ensures every { (form : Form) →
        Contains rows.now form → form.opcode ≡ opcode → result ≡ Some form }
{
    match rows.binary_search_by_key(&opcode, |row| row.opcode) {
        Ok(place) => Some(rows[place]),
        Err(_) => None,
    }
}
