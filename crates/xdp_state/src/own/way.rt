ghost use Rattle.std.specs.Prelude.{◌≡◌, ◌≤◌, ℕ, length, List, Option, Some, [], true};
ghost use Rattle.chain_order.specs.declared.member.Member.{Member};
ghost use Rattle.filter_rules.specs.Verdict.{verdict};
ghost use Rattle.filter_rules.specs.declared.rule.RuleRow.{RuleRow};
ghost use Rattle.net_headers.specs.Headers.{headers_of};
ghost use Rattle.xdp_state.specs.Library.{IsSound, program_at};
ghost use Rattle.xdp_state.specs.Dump.{dump_on};
ghost use Rattle.xdp_state.specs.Own.{IsPrepared};
ghost use Rattle.xdp_state.specs.Stores.{AreReady, is_ready, is_ready_as, entry_of};
ghost use Rattle.xdp_state.specs.Traversal.{course_of, filter_seen, made, program_made, run_seen, sent_to, setting_of, standing_behind, target_of, traversal_of, verdict_of, way_from, way_of};
ghost use Rattle.xdp_state.specs.Trails.{IsEven, visits_in};

use super::Own;
use crate::dump::snaps_of;
use crate::library::Library;
use crate::machine::Machine;
use crate::packet::Packet;
use crate::state::State;
use crate::trail::{Seen, Trail};
use bpf_machine::{Cause, Env, RunEnd};
use chain_order::{Chain, Kind, Member};
use filter_rules::{FilterEnd, Policy, Rules};
use net_headers::headers;
use xio::Action;

/// Takes a packet through its interface's chain; `Own::trip` tells the way.
pub fn traverse(state: &State, library: &Library, own: &mut Own, packet: &Packet)
    requires sound { IsSound library.now }
    requires prepared { IsPrepared library.now own.old state.now }
    ensures standing { own.new.standing
        ≡ standing_behind own.old.standing (way_of library.now state.now own.old.standing packet.now) }
    ensures trip { own.new.trip ≡ Some (traversal_of (way_of library.now state.now own.old.standing packet.now)) }
{
    own.trail.clear();
    own.machine.frame.fill(packet.frame.as_slice());
    let env = Env {
        timestamp: packet.timestamp,
        processor: own.processor,
        ifindex: own.interface + 1,
        queue: own.queue,
    };
    let last = visit_all(
        state.rules(),
        library,
        state.dump(own.interface),
        &env,
        state.chain(own.interface),
        &mut own.machine,
        &mut own.trail,
    );
    let (verdict, target) = decided_by(last);
    own.verdict = Some(verdict);
    own.target = target;
}

/// The verdict and its target: those of the member that decides, and XDP_PASS where none does.
fn decided_by(last: Option<Seen>) -> (Action, u32)
    ensures verdict { result.0 ≡ verdict_of last }
    ensures target { result.1 ≡ target_of last }
{
    match last {
        Some(seen) => (seen.action, seen.target),
        None => (Action::Pass, 0),
    }
}

/// Visits the members in order, and answers what the one made that decides.
fn visit_all(
    rules: &Rules,
    library: &Library,
    dump: Option<u32>,
    env: &Env,
    chain: &Chain,
    machine: &mut Machine,
    trail: &mut Trail,
) -> Option<Seen>
    requires sound { IsSound library.now }
    requires ready { AreReady library.now machine.old.stores.items chain.now }
    requires none { trail.old.seen.items ≡ [] }
    requires even { IsEven trail.old }
    ensures way { way_from (setting_of rules.now library.now dump env.now) (course_of machine.old.frame machine.old.stores.items) chain.now
        ≡ record { visits = visits_in trail.new; last = result; course = course_of machine.new.frame machine.new.stores.items } }
    ensures even { IsEven trail.new }
{
    for place in 0..chain.len() {
        let member = chain.at(place);
        let snaps = snaps_of(library, dump, member.kind);
        trail.enter(&machine.frame, snaps.entry);
        let seen = visit(rules, library, env, machine, member);
        trail.leave(&machine.frame, snaps.exit, seen);
        if !seen.action.is_in(member.mask) {
            return Some(seen);
        }
    }
    None
}

/// What one member makes of the packet.
#[tactic(auto, unfolding(crate::specs::Traversal::made))]
fn visit(
    rules: &Rules,
    library: &Library,
    env: &Env,
    machine: &mut Machine,
    member: &Member,
) -> Seen
    requires sound { IsSound library.now }
    requires ready { is_ready library.now machine.old.stores.items member.now ≡ true }
    ensures made { (dump : Option ℕ) →
        made (setting_of rules.now library.now dump env.now) (course_of machine.old.frame machine.old.stores.items) member.now
        ≡ record { seen = result; course = course_of machine.new.frame machine.new.stores.items } }
    ensures ready { (chain : List Member) → AreReady library.now machine.old.stores.items chain
        → AreReady library.now machine.new.stores.items chain }
{
    match member.kind {
        Kind::Program(program) => visit_program(library, env, machine, member, program),
        Kind::Filter { policy, features } => {
            visit_filter(rules, machine.frame.bytes(), member, policy, features)
        }
    }
}

/// Runs a member's program on the packet; without the program the packet is aborted.
fn visit_program(
    library: &Library,
    env: &Env,
    machine: &mut Machine,
    member: &Member,
    program: u32,
) -> Seen
    requires sound { IsSound library.now }
    requires ready { is_ready_as (program_at library.now program) (entry_of machine.old.stores.items member.now.number) ≡ true }
    ensures made { (rows : List RuleRow) (dump : Option ℕ) →
        program_made (setting_of rows library.now dump env.now) (course_of machine.old.frame machine.old.stores.items) member.now
        (program_at library.now program)
        ≡ record { seen = result; course = course_of machine.new.frame machine.new.stores.items } }
    ensures ready { (chain : List Member) → AreReady library.now machine.old.stores.items chain
        → AreReady library.now machine.new.stores.items chain }
{
    match library.program(program) {
        Some(program) => end_visit(member, machine.run(member.number, &program.code, env)),
        None => Seen {
            number: member.number,
            kind: member.kind,
            action: Action::Aborted,
            cause: Cause::Fault,
            target: 0,
            rule: None,
        },
    }
}

/// What a program made that ended so. Only a redirect has a target.
fn end_visit(member: &Member, end: RunEnd) -> Seen
    ensures { result ≡ run_seen member.now end }
{
    let target = match end.action {
        Action::Redirect => end.target,
        Action::Aborted | Action::Drop | Action::Pass | Action::Tx => 0,
    };
    Seen {
        number: member.number,
        kind: member.kind,
        action: end.action,
        cause: end.cause,
        target,
        rule: None,
    }
}

/// Asks a filter about a frame.
fn visit_filter(rules: &Rules, frame: &[u8], member: &Member, policy: Policy, features: u8) -> Seen
    requires { 14 ≤ length frame.now }
    ensures { result ≡ filter_seen member.now (verdict rules.now (headers_of frame.now) policy features) }
{
    let Ok(headers) = headers(frame) else {
        unreachable!()
    };
    let (action, rule) = match rules.verdict(&headers, policy, features) {
        FilterEnd::Hit { rule, action } => (action, Some(rule)),
        FilterEnd::Miss { action } => (action, None),
        FilterEnd::Cut => (Action::Aborted, None),
    };
    Seen {
        number: member.number,
        kind: member.kind,
        action,
        cause: Cause::Exit,
        target: 0,
        rule,
    }
}
