ghost use Rattle.std.specs.Prelude.{◌≡◌, ℕ, ℤ, pos, ◌+ℤ◌, ◌*◌, ◌≤◌, ◌⊎◌};
ghost use Rattle.bpf_insn.specs.Form.{IsAtomic};
ghost use Rattle.bpf_insn.specs.Insn.{HasRegisters};
ghost use Rattle.bpf_machine.specs.Instruction.{load_act, load_signed_act, store_act, atomic_act, atomic_of, fetched, full_size};
ghost use Rattle.flat_memory.specs.Numbers.{size_of};
ghost use Rattle.map_store.specs.Slots.{shapes};
ghost use Rattle.bpf_machine.specs.Machine.{state_of, next_of};

use crate::access::{load, store_number};
use crate::arithmetic::{address, exchange, operand_value};
use crate::environment::Env;
use crate::flow::Flow;
use crate::frame::Frame;
use crate::scratch::{Registers, Scratch};
use crate::size::{size_of_narrow, size_of_width};
use bpf_alu::extend;
use bpf_insn::{Atomic, Insn, Narrow, Operand, Size, Width};
use map_store::Store;

/// Loads a number into the target.
#[inline]
#[tactic(auto, unfolding(crate::specs::Instruction::after_load))]
pub(crate) fn load_number(
    scratch: &mut Scratch,
    store: &Store,
    frame: &Frame,
    env: &Env,
    at: u32,
    insn: &Insn,
    size: Size,
) -> Flow
    requires { HasRegisters insn.now }
    ensures { load_act env.now (state_of (pos at) scratch.old store.now frame.now) insn.now size
        ≡ next_of (pos at) result (λ next. state_of next scratch.new store.now frame.now) }
{
    let address = address(scratch.registers[insn.source as usize], insn.offset);
    match load(scratch, store, frame, env, address, size) {
        Some(value) => {
            scratch.registers[insn.target as usize] = value;
            Flow::Next(i64::from(at) + 1)
        }
        None => Flow::Fault,
    }
}

/// Loads a number with its sign into the target.
#[inline]
#[tactic(auto, unfolding(crate::specs::Instruction::after_load))]
pub(crate) fn load_signed(
    scratch: &mut Scratch,
    store: &Store,
    frame: &Frame,
    env: &Env,
    at: u32,
    insn: &Insn,
    narrow: Narrow,
) -> Flow
    requires { HasRegisters insn.now }
    ensures { load_signed_act env.now (state_of (pos at) scratch.old store.now frame.now) insn.now narrow
        ≡ next_of (pos at) result (λ next. state_of next scratch.new store.now frame.now) }
{
    let address = address(scratch.registers[insn.source as usize], insn.offset);
    let size = size_of_narrow(narrow);
    match load(scratch, store, frame, env, address, size) {
        Some(value) => {
            scratch.registers[insn.target as usize] = extend(value, bits_of(narrow));
            Flow::Next(i64::from(at) + 1)
        }
        None => Flow::Fault,
    }
}

/// Writes the second operand at the target's address.
#[inline]
#[tactic(auto, unfolding(crate::specs::Instruction::after_store))]
pub(crate) fn store_operand(
    scratch: &mut Scratch,
    store: &mut Store,
    frame: &mut Frame,
    at: u32,
    insn: &Insn,
    size: Size,
    operand: Operand,
) -> Flow
    requires { HasRegisters insn.now }
    ensures after { store_act (state_of (pos at) scratch.old store.old frame.old) insn.now size operand
        ≡ next_of (pos at) result (λ next. state_of next scratch.new store.new frame.new) }
    ensures shapes { shapes store.new ≡ shapes store.old }
{
    let address = address(scratch.registers[insn.target as usize], insn.offset);
    let value = operand_value(&scratch.registers, insn, operand);
    if store_number(scratch, store, frame, address, size, value) {
        Flow::Next(i64::from(at) + 1)
    } else {
        Flow::Fault
    }
}

/// Changes a number in memory, as the immediate says.
#[inline]
#[tactic(auto, unfolding(crate::specs::Instruction::atomic_act, crate::specs::Instruction::exchange, crate::specs::Instruction::after_exchange))]
pub(crate) fn change_number(
    scratch: &mut Scratch,
    store: &mut Store,
    frame: &mut Frame,
    env: &Env,
    at: u32,
    insn: &Insn,
    width: Width,
) -> Flow
    requires registers { HasRegisters insn.now }
    requires atomic { IsAtomic insn.now }
    ensures after { atomic_act width env.now (state_of (pos at) scratch.old store.old frame.old) insn.now (atomic_of insn.now.imm)
        ≡ next_of (pos at) result (λ next. state_of next scratch.new store.new frame.new) }
    ensures shapes { shapes store.new ≡ shapes store.old }
{
    let Some(op) = Atomic::from_imm(insn.imm) else {
        unreachable!()
    };
    let address = address(scratch.registers[insn.target as usize], insn.offset);
    let size = size_of_width(width);
    let Some(old) = load(scratch, store, frame, env, address, size) else {
        return Flow::Fault;
    };
    let source = scratch.registers[insn.source as usize];
    let new = exchange(width, op, old, source, scratch.registers[0]);
    if !store_number(scratch, store, frame, address, size, new) {
        return Flow::Fault;
    }
    fetch(&mut scratch.registers, op, insn.source, old);
    Flow::Next(i64::from(at) + 1)
}

/// Puts the value that was in memory where an atomic operation wants it.
#[inline]
fn fetch(registers: &mut Registers, op: Atomic, source: u8, old: u64)
    requires { source ≤ 10 }
    ensures { registers.new ≡ fetched op source old registers.old }
{
    if op.writes_source() {
        registers[source as usize] = old;
    } else if op == Atomic::CompareExchange {
        registers[0] = old;
    }
}

/// How many bits a load with a sign reads.
#[inline]
fn bits_of(narrow: Narrow) -> u32
    ensures bits { result ≡ 8 * size_of (full_size narrow) }
    ensures each { (result ≡ 8) ⊎ (result ≡ 16) ⊎ (result ≡ 32) }
{
    match narrow {
        Narrow::Byte => 8,
        Narrow::Half => 16,
        Narrow::Word => 32,
    }
}
