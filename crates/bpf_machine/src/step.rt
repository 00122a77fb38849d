ghost use Rattle.std.specs.Prelude.{List, ◌≡◌, ◌<◌, ◌^◌, ℕ, pos, ◌+ℤ◌, length, IfSome, IfNone, None};
ghost use Rattle.bpf_insn.specs.Insn.{HasRegisters};
ghost use Rattle.bpf_insn.specs.Code.{IsCode};
ghost use Rattle.bpf_insn.specs.Form.{Fits, form_of, IsListed};
ghost use Rattle.map_store.specs.Slots.{Map, shapes};
ghost use Rattle.bpf_machine.specs.Instruction.{act, wide_act, slot_at, branch_act};
ghost use Rattle.bpf_machine.specs.Next.{Next};
ghost use Rattle.bpf_machine.specs.Machine.{state_of, next_of, IsCarriedOut};
ghost use Rattle.bpf_machine.specs.Run.{Steps, instruction_at};
ghost use Rattle.bpf_machine.specs.State.{Packet};

use crate::arithmetic::{operand_value, operate, operate_alu, test};
use crate::calls::{enter, leave};
use crate::environment::Env;
use crate::flow::Flow;
use crate::frame::Frame;
use crate::helpers::call_helper;
use crate::scratch::Scratch;
use crate::transfers::{change_number, load_number, load_signed, store_operand};
use bpf_alu::{Op, Test, swap};
use bpf_insn::{Distance, Insn, Operand, Operation, Width};
use map_store::Store;

/// Carries out the instruction at a slot, where there is one.
#[inline]
#[tactic(auto, using(crate::proofs::Steps::at_negative))]
pub(crate) fn step(
    code: &[Insn],
    scratch: &mut Scratch,
    store: &mut Store,
    frame: &mut Frame,
    env: &Env,
    next: i64,
) -> Option<Flow>
    requires code { IsCode code.now }
    requires size { length code.now < 2 ^ 32 }
    ensures none { IfNone result (instruction_at code.now next ≡ None) }
    ensures unchanged { IfNone result ((scratch.new ≡ scratch.old) × (store.new ≡ store.old) × (frame.new ≡ frame.old)) }
    ensures shapes { shapes store.new ≡ shapes store.old }
    ensures some { IfSome result (λ flow.
        Steps code.now env.now (state_of next scratch.old store.old frame.old) (next_of next flow (λ slot. state_of slot scratch.new store.new frame.new))) }
    ensures only { IfSome result (λ flow. (outcome : Next) →
        Steps code.now env.now (state_of next scratch.old store.old frame.old) outcome → outcome ≡ next_of next flow (λ slot. state_of slot scratch.new store.new frame.new)) }
{
    if next < 0 {
        return None;
    }
    let Some(insn) = code.get(next as usize) else {
        return None;
    };
    if insn.half {
        return None;
    }
    let at = next as u32;
    let flow = dispatch(scratch, store, frame, env, code, at, insn);
    Some(flow)
}

/// The expression with a number in it, in an arm of its own for each of the literals.
macro_rules! by_literal {
    ($number:expr, $name:ident => $result:expr, [$($literal:literal)*]) => {
        match $number {
            $($literal => {
                let $name = $literal;
                $result
            })*
            $name => $result,
        }
    };
}

/// Carries out an instruction. Each opcode has an arm of its own, in which the compiler knows the operation, so that
/// nothing of it is asked while a program runs.
#[inline]
fn dispatch(
    scratch: &mut Scratch,
    store: &mut Store,
    frame: &mut Frame,
    env: &Env,
    code: &[Insn],
    at: u32,
    insn: &Insn,
) -> Flow
    requires { IsListed insn.now }
    ensures after { IsCarriedOut code.now env.now (pos at) insn.now (state_of (pos at) scratch.old store.old frame.old)
        result (λ next. state_of next scratch.new store.new frame.new) }
    ensures shapes { shapes store.new ≡ shapes store.old }
{
    by_literal!(insn.opcode, opcode => carry_out(scratch, store, frame, env, code, at, insn, opcode), [
        0x04 0x05 0x06 0x07 0x0c 0x0f 0x14 0x15 0x16 0x17 0x18 0x1c 0x1d 0x1e 0x1f 0x24 0x25
        0x26 0x27 0x2c 0x2d 0x2e 0x2f 0x34 0x35 0x36 0x37 0x3c 0x3d 0x3e 0x3f 0x44 0x45 0x46
        0x47 0x4c 0x4d 0x4e 0x4f 0x54 0x55 0x56 0x57 0x5c 0x5d 0x5e 0x5f 0x61 0x62 0x63 0x64
        0x65 0x66 0x67 0x69 0x6a 0x6b 0x6c 0x6d 0x6e 0x6f 0x71 0x72 0x73 0x74 0x75 0x76 0x77
        0x79 0x7a 0x7b 0x7c 0x7d 0x7e 0x7f 0x81 0x84 0x85 0x87 0x89 0x91 0x94 0x95 0x97 0x9c
        0x9f 0xa4 0xa5 0xa6 0xa7 0xac 0xad 0xae 0xaf 0xb4 0xb5 0xb6 0xb7 0xbc 0xbd 0xbe 0xbf
        0xc3 0xc4 0xc5 0xc6 0xc7 0xcc 0xcd 0xce 0xcf 0xd4 0xd5 0xd6 0xd7 0xdb 0xdc 0xdd 0xde
    ])
}

/// Carries out an instruction of this opcode.
#[inline]
#[tactic(auto, unfolding(crate::specs::Machine::IsCarriedOut))]
fn carry_out(
    scratch: &mut Scratch,
    store: &mut Store,
    frame: &mut Frame,
    env: &Env,
    code: &[Insn],
    at: u32,
    insn: &Insn,
    opcode: u8,
) -> Flow
    requires listed { IsListed insn.now }
    requires opcode { insn.now.opcode ≡ opcode }
    ensures after { IsCarriedOut code.now env.now (pos at) insn.now (state_of (pos at) scratch.old store.old frame.old)
        result (λ next. state_of next scratch.new store.new frame.new) }
    ensures shapes { shapes store.new ≡ shapes store.old }
{
    let Some(operation) = Operation::from_opcode(opcode) else {
        unreachable!()
    };
    execute(scratch, store, frame, env, code, at, insn, operation)
}

/// Carries out the instruction in slot `at`, which is of this operation.
#[inline]
#[tactic(auto, unfolding(crate::specs::Instruction::act))]
fn execute(
    scratch: &mut Scratch,
    store: &mut Store,
    frame: &mut Frame,
    env: &Env,
    code: &[Insn],
    at: u32,
    insn: &Insn,
    operation: Operation,
) -> Flow
    requires registers { HasRegisters insn.now }
    requires fields { Fits (form_of operation) insn.now }
    ensures after { act code.now env.now (state_of (pos at) scratch.old store.old frame.old) insn.now operation
        ≡ next_of (pos at) result (λ next. state_of next scratch.new store.new frame.new) }
    ensures shapes { shapes store.new ≡ shapes store.old }
{
    let behind = i64::from(at) + 1;
    let target = insn.target as usize;
    match operation {
        Operation::Alu { width, op, operand } => {
            operate_alu(&mut scratch.registers, insn, width, op, operand);
            Flow::Next(behind)
        }
        Operation::Neg { width } => {
            scratch.registers[target] = operate(width, Op::Neg, scratch.registers[target], 0);
            Flow::Next(behind)
        }
        Operation::End { order } => {
            let bits = insn.imm.cast_unsigned();
            scratch.registers[target] = swap(order, scratch.registers[target], bits);
            Flow::Next(behind)
        }
        Operation::Jump { distance } => Flow::Next(behind + distance_of(insn, distance)),
        Operation::Branch {
            width,
            test,
            operand,
        } => branch(scratch, at, insn, width, test, operand),
        Operation::Call if insn.source == 1 => enter(scratch, at, insn.imm),
        Operation::Call => call_helper(scratch, store, frame, env, at, insn.imm),
        Operation::Exit => leave(scratch, frame),
        Operation::Load { size } => load_number(scratch, store, frame, env, at, insn, size),
        Operation::LoadSigned { size } => load_signed(scratch, store, frame, env, at, insn, size),
        Operation::Store { size, operand } => {
            store_operand(scratch, store, frame, at, insn, size, operand)
        }
        Operation::Atomic { width } => change_number(scratch, store, frame, env, at, insn, width),
        Operation::LoadWide => load_wide(scratch, code, at, insn),
    }
}

/// How far a jump goes.
#[inline]
fn distance_of(insn: &Insn, distance: Distance) -> i64
    ensures offset { distance ≡ Distance.Offset → result ≡ insn.now.offset }
    ensures imm { distance ≡ Distance.Imm → result ≡ insn.now.imm }
{
    match distance {
        Distance::Offset => i64::from(insn.offset),
        Distance::Imm => i64::from(insn.imm),
    }
}

/// Jumps where the test of target and operand holds.
#[inline]
fn branch(
    scratch: &Scratch,
    at: u32,
    insn: &Insn,
    width: Width,
    asked: Test,
    operand: Operand,
) -> Flow
    requires { HasRegisters insn.now }
    ensures { (maps : List Map) (packet : Packet) → branch_act (state_of (pos at) scratch.now maps packet) insn.now width asked operand
        ≡ next_of (pos at) result (λ next. state_of next scratch.now maps packet) }
{
    let left = scratch.registers[insn.target as usize];
    let right = operand_value(&scratch.registers, insn, operand);
    let behind = i64::from(at) + 1;
    if test(width, asked, left, right) {
        Flow::Next(behind + i64::from(insn.offset))
    } else {
        Flow::Next(behind)
    }
}

/// Puts the immediates of two slots into the target.
#[inline]
#[tactic(auto, unfolding(crate::specs::Instruction::wide_act))]
fn load_wide(scratch: &mut Scratch, code: &[Insn], at: u32, insn: &Insn) -> Flow
    requires { HasRegisters insn.now }
    ensures { (maps : List Map) (packet : Packet) →
        wide_act (state_of (pos at) scratch.old maps packet) insn.now (slot_at code.now (pos at +ℤ pos 1))
        ≡ next_of (pos at) result (λ next. state_of next scratch.new maps packet) }
{
    let Some(half) = code.get(at as usize + 1) else {
        return Flow::Fault;
    };
    let low = u64::from(insn.imm.cast_unsigned());
    let high = u64::from(half.imm.cast_unsigned());
    scratch.registers[insn.target as usize] = low + high * 0x1_0000_0000;
    Flow::Next(i64::from(at) + 2)
}
