ghost use Rattle.std.specs.Prelude.{List, ◌∷◌, drop, ◌≡◌, ◌%◌, ◌^◌, ℤ, pos, Some, None};
ghost use Rattle.map_store.specs.Slots.{Map, shapes};
ghost use Rattle.bpf_machine.specs.Helpers.{helper_of, helper_act, help, redirect, on_context, move_head, move_tail, delta_in};
ghost use Rattle.bpf_machine.specs.Machine.{state_of, next_of, answer_in};
ghost use Rattle.bpf_machine.specs.State.{Packet};

use crate::context::CONTEXT_START;
use crate::environment::Env;
use crate::errors::EINVAL;
use crate::flow::Flow;
use crate::frame::Frame;
use crate::maps::{delete, look_up, update};
use crate::scratch::{Registers, Scratch};
use map_store::Store;
use xio::Action;

/// The helpers of the kernel that a program may call.
#[derive(Clone, Copy, Debug, PartialEq, Eq)]
enum Helper {
    MapLookup,
    MapUpdate,
    MapDelete,
    Time,
    Processor,
    Redirect,
    AdjustHead,
    AdjustTail,
}

impl Helper {
    /// The helper of a number (`enum bpf_func_id` of the kernel).
    #[tactic(auto, unfolding(crate::specs::Helpers::helper_of))]
    fn from_number(number: i32) -> Option<Self>
        ensures { result ≡ helper_of number }
    {
        match number {
            1 => Some(Helper::MapLookup),
            2 => Some(Helper::MapUpdate),
            3 => Some(Helper::MapDelete),
            5 => Some(Helper::Time),
            8 => Some(Helper::Processor),
            23 => Some(Helper::Redirect),
            44 => Some(Helper::AdjustHead),
            65 => Some(Helper::AdjustTail),
            _ => None,
        }
    }
}

/// Calls the helper of a number (RFC 9669 §4.3.1): its answer goes into r0, and r1 to r5 are 0.
#[tactic(auto, unfolding(crate::specs::Helpers::helper_act, crate::specs::Helpers::after_help))]
pub(crate) fn call_helper(
    scratch: &mut Scratch,
    store: &mut Store,
    frame: &mut Frame,
    env: &Env,
    at: u32,
    number: i32,
) -> Flow
    ensures after { helper_act env.now (state_of (pos at) scratch.old store.old frame.old) (helper_of number)
        ≡ next_of (pos at) result (λ next. state_of next scratch.new store.new frame.new) }
    ensures shapes { shapes store.new ≡ shapes store.old }
{
    let Some(helper) = Helper::from_number(number) else {
        return Flow::Fault;
    };
    let Some(answer) = ask(scratch, store, frame, env, helper) else {
        return Flow::Fault;
    };
    put_answer(&mut scratch.registers, answer);
    Flow::Next(i64::from(at) + 1)
}

/// Puts a helper's answer into r0, and 0 into r1 to r5.
fn put_answer(registers: &mut Registers, answer: u64)
    ensures { registers.new ≡ answer ∷ 0 ∷ 0 ∷ 0 ∷ 0 ∷ 0 ∷ drop 6 registers.old }
{
    registers[..6].copy_from_slice(&[answer, 0, 0, 0, 0, 0]);
}

/// What a helper answers, or none where it faults, which changes nothing.
fn ask(
    scratch: &mut Scratch,
    store: &mut Store,
    frame: &mut Frame,
    env: &Env,
    helper: Helper,
) -> Option<u64>
    ensures after { (next : ℤ) → help env.now (state_of next scratch.old store.old frame.old) helper
        ≡ answer_in (state_of next scratch.new store.new frame.new) result }
    ensures fault { result ≡ None → (next : ℤ) →
        state_of next scratch.new store.new frame.new ≡ state_of next scratch.old store.old frame.old }
    ensures shapes { shapes store.new ≡ shapes store.old }
{
    match helper {
        Helper::MapLookup => look_up(scratch, store, frame, env),
        Helper::MapUpdate => update(scratch, store, frame, env),
        Helper::MapDelete => delete(scratch, store, frame, env),
        Helper::Time => Some(env.timestamp),
        Helper::Processor => Some(u64::from(env.processor)),
        Helper::Redirect => Some(redirect(scratch)),
        Helper::AdjustHead => adjust_head(scratch, frame),
        Helper::AdjustTail => adjust_tail(scratch, frame),
    }
}

/// Sets where a redirect goes, and answers the action `XDP_REDIRECT`, or `XDP_ABORTED` where there are flags.
#[tactic(auto, unfolding(crate::specs::Helpers::redirect))]
fn redirect(scratch: &mut Scratch) -> u64
    ensures { (next : ℤ) (maps : List Map) (packet : Packet) →
        redirect (state_of next scratch.old maps packet) ≡ answer_in (state_of next scratch.new maps packet) (Some result) }
{
    if scratch.registers[2] != 0 {
        return u64::from(Action::Aborted.number());
    }
    scratch.target = low_half(scratch.registers[1]);
    u64::from(Action::Redirect.number())
}

/// Moves the first byte of the context's packet.
fn adjust_head(scratch: &Scratch, frame: &mut Frame) -> Option<u64>
    ensures after { (next : ℤ) (maps : List Map) → on_context (state_of next scratch.now maps frame.old)
        (move_head (state_of next scratch.now maps frame.old) (delta_in (state_of next scratch.now maps frame.old) 2))
        ≡ answer_in (state_of next scratch.now maps frame.new) result }
    ensures fault { result ≡ None → frame.new ≡ frame.old }
{
    if scratch.registers[1] != CONTEXT_START {
        return None;
    }
    let delta = low_half(scratch.registers[2]).cast_signed();
    if frame.move_head(delta) {
        Some(0)
    } else {
        Some(EINVAL.cast_unsigned())
    }
}

/// Moves the end of the context's packet.
fn adjust_tail(scratch: &Scratch, frame: &mut Frame) -> Option<u64>
    ensures after { (next : ℤ) (maps : List Map) → on_context (state_of next scratch.now maps frame.old)
        (move_tail (state_of next scratch.now maps frame.old) (delta_in (state_of next scratch.now maps frame.old) 2))
        ≡ answer_in (state_of next scratch.now maps frame.new) result }
    ensures fault { result ≡ None → frame.new ≡ frame.old }
{
    if scratch.registers[1] != CONTEXT_START {
        return None;
    }
    let delta = low_half(scratch.registers[2]).cast_signed();
    if frame.move_tail(delta) {
        Some(0)
    } else {
        Some(EINVAL.cast_unsigned())
    }
}

/// The low half of a register.
#[inline]
fn low_half(number: u64) -> u32
    ensures { result ≡ number % 2 ^ 32 }
{
    (number % 0x1_0000_0000) as u32
}
