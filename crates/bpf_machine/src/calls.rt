ghost use Rattle.std.specs.Prelude.{List, ◌≡◌, ℕ, ℤ, pos};
ghost use Rattle.map_store.specs.Slots.{Map};
ghost use Rattle.bpf_machine.specs.Instruction.{call_local, exit_of};
ghost use Rattle.bpf_machine.specs.Machine.{state_of, next_of};
ghost use Rattle.bpf_machine.specs.State.{Packet};

use crate::flow::Flow;
use crate::frame::Frame;
use crate::scratch::{Caller, Scratch};
use crate::stack::{FRAME_DISTANCE, FRAME_SIZE, STACK_START, clear_frame};

/// Calls the function that is so many slots behind the call (RFC 9669 §4.3.2).
#[inline]
#[tactic(auto, unfolding(crate::specs::Instruction::call_local))]
pub(crate) fn enter(scratch: &mut Scratch, at: u32, distance: i32) -> Flow
    ensures { (maps : List Map) (packet : Packet) → call_local (state_of (pos at) scratch.old maps packet) distance
        ≡ next_of (pos at) result (λ next. state_of next scratch.new maps packet) }
{
    if scratch.callers.is_full() {
        return Flow::Fault;
    }
    let r = &scratch.registers;
    let kept = [r[6], r[7], r[8], r[9], r[10]];
    scratch.callers.push(Caller { call: at, kept });
    let depth = scratch.callers.len();
    clear_frame(&mut scratch.stack, depth);
    scratch.registers[10] = STACK_START + (FRAME_DISTANCE * depth + FRAME_SIZE) as u64;
    Flow::Next(i64::from(at) + 1 + i64::from(distance))
}

/// Goes back to the caller, or ends the run where there is none (RFC 9669 §4.3.2).
#[inline]
#[tactic(auto, unfolding(crate::specs::Instruction::exit_to))]
pub(crate) fn leave(scratch: &mut Scratch, frame: &Frame) -> Flow
    ensures { (at : ℤ) (maps : List Map) → exit_of (state_of at scratch.old maps frame.now)
        ≡ next_of at result (λ next. state_of next scratch.new maps frame.now) }
{
    frame.bounds();
    let Some(caller) = scratch.callers.pop() else {
        return Flow::End;
    };
    scratch.registers[6..].copy_from_slice(&caller.kept);
    Flow::Next(i64::from(caller.call) + 1)
}
