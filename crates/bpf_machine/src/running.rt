ghost use Rattle.std.specs.Prelude.{List, ◌≡◌, ◌<◌, ◌^◌, ℕ, ℤ, pos, length, slice_index};
ghost use Rattle.bpf_insn.specs.Code.{IsCode};
ghost use Rattle.map_store.specs.Slots.{Map, shapes};
ghost use Rattle.bpf_machine.specs.Run.{EndsIn, Ending, Runs, IsRun, IsEnd, answer_of, action_of};
ghost use Rattle.bpf_machine.specs.Machine.{state_of, ending_of};
ghost use Rattle.bpf_machine.specs.State.{Packet, State, start};

use crate::context::CONTEXT_START;
use crate::ending::{Cause, RunEnd};
use crate::environment::{Code, Env};
use crate::flow::{Flow, Halt};
use crate::frame::Frame;
use crate::scratch::Scratch;
use crate::stack::{STACK_START, clear_frame};
use crate::step::step;
use bpf_insn::Insn;
use map_store::Store;
use xio::Action;

/// How many instructions a run may count.
const BUDGET: u32 = 65_536;

/// Carries out instructions until one ends the run or faults, or so many were.
fn run_for(
    budget: u32,
    code: &[Insn],
    scratch: &mut Scratch,
    store: &mut Store,
    frame: &mut Frame,
    env: &Env,
) -> Halt
    requires code { IsCode code.now }
    requires size { length code.now < 2 ^ 32 }
    ensures ending { (next : ℤ) ×
        EndsIn code.now env.now (state_of (pos 0) scratch.old store.old frame.old) budget (ending_of budget result (state_of next scratch.new store.new frame.new)) }
    ensures shapes { shapes store.new ≡ shapes store.old }
{
    let mut next: i64 = 0;
    for used in 0..budget {
        match step(code, scratch, store, frame, env, next) {
            None => return Halt::Faulted { used },
            Some(Flow::Next(slot)) => next = slot,
            Some(Flow::End) => return Halt::Ended { used: used + 1 },
            Some(Flow::Fault) => return Halt::Faulted { used: used + 1 },
        }
    }
    Halt::Spent
}

/// Makes the state in which every run starts, whatever was here before.
fn restart(scratch: &mut Scratch)
    ensures { (maps : List Map) (packet : Packet) →
        state_of (pos 0) scratch.new maps packet ≡ start maps packet }
{
    scratch.registers = [0, CONTEXT_START, 0, 0, 0, 0, 0, 0, 0, 0, STACK_START + 512];
    scratch.callers.clear();
    scratch.target = 0;
    clear_frame(&mut scratch.stack, 0);
}

/// The action of a number (the kernel's `enum xdp_action`).
fn action_of(number: u64) -> Option<Action>
    ensures { result ≡ action_of number }
{
    match number {
        0 => Some(Action::Aborted),
        1 => Some(Action::Drop),
        2 => Some(Action::Pass),
        3 => Some(Action::Tx),
        4 => Some(Action::Redirect),
        _ => None,
    }
}

/// The answer of a run that ended so, with r0 and the target as they were then.
#[tactic(auto, unfolding(crate::specs::Run::answer_of, crate::specs::Run::exit_answer))]
fn answer(halt: Halt, r0: u64, target: u32) -> RunEnd
    ensures { (state : State) → slice_index state.registers 0 ≡ r0 → state.target ≡ target →
        result ≡ answer_of (ending_of 65536 halt state) }
{
    let (action, cause, used) = match halt {
        Halt::Ended { used } => match action_of(r0 % 0x1_0000_0000) {
            Some(action) => (action, Cause::Exit, used),
            None => (Action::Aborted, Cause::BadAction, used),
        },
        Halt::Faulted { used } => (Action::Aborted, Cause::Fault, used),
        Halt::Spent => (Action::Aborted, Cause::Budget, BUDGET),
    };
    RunEnd {
        action,
        cause,
        target,
        used,
    }
}

/// Runs the code on the packet with the maps of the store. It takes no memory, and what the scratch held before doesn't
/// matter.
pub fn run(
    code: &Code,
    scratch: &mut Scratch,
    store: &mut Store,
    frame: &mut Frame,
    env: &Env,
) -> RunEnd
    requires code { IsCode code.now.insns }
    requires maps { length store.old ≡ code.now.maps }
    ensures exact { IsRun code.now.insns env.now (start store.old frame.old) result store.new frame.new }
    ensures only { (ending : Ending) → Runs code.now.insns env.now (start store.old frame.old) 65536 ending →
        IsEnd ending result store.new frame.new }
    ensures shapes { shapes store.new ≡ shapes store.old }
{
    restart(scratch);
    let _size = code.insns.len();
    let halt = run_for(BUDGET, code.insns.as_slice(), scratch, store, frame, env);
    frame.bounds();
    answer(halt, scratch.registers[0], scratch.target)
}
