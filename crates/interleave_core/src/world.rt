ghost use Rattle.std.specs.Prelude.{◌≡◌, ◌≢◌, ℕ, ◌^◌, ◌<◌, ◌≤◌, true, false, length, map, replicate, sum_by, position, vec_len, Some, IfOk, IfErr, OnOk, OnErr};
ghost use Rattle.std.specs.Option.{option_map};
ghost use Rattle.interleave_core.specs.Event.{Answers, Happens, IsPossible, refusal};
ghost use Rattle.interleave_core.specs.Moment.{Goes, Publishes, HandsIn, Carries, EndsPhase, beginning, changed_at, waits_at};
ghost use Rattle.interleave_core.specs.Reached.{IsPlan};
ghost use Rattle.interleave_core.specs.Sound.{AreLegalFor, IsSoundMoment};
ghost use Rattle.interleave_core.specs.Traffic.{idle, waits, with_count, with_packet};
ghost use Rattle.interleave_core.specs.declared.event.StepEnd.{StepEnd};
ghost use Rattle.xdp_state.specs.Answer.{answer, rule_fits};
ghost use Rattle.xdp_state.specs.Book.{after, takes};
ghost use Rattle.xdp_state.specs.Library.{IsSound};
ghost use Rattle.xdp_state.specs.Work.{needs_of};

use crate::event::{Event, StepEnd};
use crate::lane::Lane;
use lists::{Bytes, OutOfMemory};
use std::alloc::Global;
use std::marker::Model;
use xdp_state::{
    Change, Command, HandIn, Interface, InterfaceList, Judgement, Library, NeedsList, Packet,
    PlanPhase, State, judge,
};

/// A run that goes on event by event, in any order: what was published, by processor the packets that were handed in and the
/// counts of those that were carried, and the phases that have ended.
#[derive(Debug, Drop)]
pub struct World {
    state: State,
    changes: Vec<Change>,
    lanes: Vec<Lane>,
    plan: Vec<PlanPhase>,
    choices: Vec<NeedsList>,
}

impl Model for World {
    ghost use Rattle.interleave_core.specs.Moment.{Moment};
    ghost use Rattle.interleave_core.specs.WorldView.{moment_of, IsWorld};

    ghost Value = { Moment };

    ghost view = { moment_of };

    ghost invariant = { IsWorld };
}

impl World {
    /// Before the first event, with a processor for each queue of the interfaces.
    pub fn new(alloc: Global, interfaces: &InterfaceList) -> Result<Self, OutOfMemory>
        requires { sum_by (λ interface. interface.queues) interfaces.now < 2 ^ 32 }
        ensures { IfOk result (λ world. world ≡ beginning (sum_by (λ interface. interface.queues) interfaces.now)) }
    {
        let processors = queues_of(interfaces.as_slice());
        let state = State::new(alloc)?;
        let lanes = idle_lanes(alloc, processors as usize)?;
        Ok(World {
            state,
            changes: Vec::new(alloc),
            lanes,
            plan: Vec::new(alloc),
            choices: Vec::new(alloc),
        })
    }

    /// Makes an event come, of which a command is answered for this library. Its processor is there, a rule's flags are
    /// some flags of its kind, and there are fewer than 65,536 publications where a command comes.
    pub fn step(&mut self, library: &Library, event: &Event) -> Result<(), StepEnd>
        requires possible { IsPossible self.old event.now }
        requires interfaces { length library.now.interfaces ≤ 8 }
        requires sound { IsSound library.now }
        ensures happens { OnOk result (Happens library.now self.old event.now self.new) }
        ensures refused { (stop : StepEnd) → refusal self.old event.now ≡ Some stop → result ≡ Err stop }
        ensures only { IfErr result (λ stop. stop ≢ StepEnd.OutOfMemory → refusal self.old event.now ≡ Some stop) }
        ensures err { OnErr result (self.new ≡ self.old) }
    {
        match event {
            Event::Command(command) => self.answer(library, command),
            Event::HandIn { processor, packet } => self.hand_in(*processor, packet),
            Event::Carry { processor } => self.carry(*processor),
            Event::Barrier => self.end_phase(),
        }
    }

    /// By phase that has ended, by processor and packet: with how many publications it was carried. At each moment these
    /// counts are legal for the plan, and so are those of the phase under way as far as they go.
    pub fn choices(&self) -> &[NeedsList]
        ensures choices { result.now ≡ self.now.choices }
        ensures legal { AreLegalFor self.now.plan result.now }
        ensures sound { IsSoundMoment self.now }
    {
        self.choices.as_slice()
    }

    /// What the phases that have ended ask of the counts. It is a plan as `schedule` takes it.
    pub fn plan(&self) -> &[PlanPhase]
        ensures plan { result.now ≡ self.now.plan }
        ensures planned { IsPlan (length self.now.processors) result.now }
    {
        self.plan.as_slice()
    }

    /// How many processors there are.
    pub fn processors(&self) -> u32
        ensures { result ≡ length self.now.processors }
    {
        self.lanes.len() as u32
    }

    /// What the publications so far have made.
    pub fn state(&self) -> &State
        ensures state { result.now ≡ after self.now.published }
        ensures count { result.now.count ≡ length self.now.published }
    {
        &self.state
    }

    fn answer(&mut self, library: &Library, command: &Command) -> Result<(), StepEnd>
        requires flags { rule_fits command.now ≡ true }
        requires room { length self.old.published < 65536 }
        requires interfaces { length library.now.interfaces ≤ 8 }
        requires sound { IsSound library.now }
        ensures ok { OnOk result (Answers self.old (answer library.now (after self.old.published) command.now) self.new) }
        ensures only { IfErr result (λ stop. stop ≡ StepEnd.OutOfMemory) }
        ensures err { OnErr result (self.new ≡ self.old) }
    {
        match judge(&self.state, library, command) {
            Judgement::Accepted(change) => self.publish(change),
            Judgement::Shown | Judgement::Refused(_) => Ok(()),
        }
    }

    fn publish(&mut self, change: Change) -> Result<(), StepEnd>
        requires { takes (after self.old.published) change ≡ true }
        ensures ok { OnOk result (Goes self.old (Publishes change) self.new) }
        ensures only { IfErr result (λ stop. stop ≡ StepEnd.OutOfMemory) }
        ensures err { OnErr result (self.new ≡ self.old) }
    {
        self.changes.reserve(1)?;
        self.changes.push_reserved(change);
        self.state.absorb(&change);
        Ok(())
    }

    fn hand_in(&mut self, processor: u32, packet: &Packet) -> Result<(), StepEnd>
        requires { processor < length self.old.processors }
        ensures ok { OnOk result (Goes self.old (HandsIn processor packet.now) self.new) }
        ensures only { IfErr result (λ stop. stop ≡ StepEnd.OutOfMemory) }
        ensures err { OnErr result (self.new ≡ self.old) }
    {
        let packet = copy_of(*self.changes.allocator(), packet)?;
        let need = self.state.count();
        hand_to(&mut self.lanes, processor, HandIn { packet, need })?;
        Ok(())
    }

    fn carry(&mut self, processor: u32) -> Result<(), StepEnd>
        requires { processor < length self.old.processors }
        ensures ok { OnOk result (Goes self.old (Carries processor) self.new) }
        ensures refused { waits_at processor self.old.processors ≡ false → result ≡ Err (StepEnd.EmptyQueue processor) }
        ensures only { IfErr result (λ stop. stop ≢ StepEnd.OutOfMemory → waits_at processor self.old.processors ≡ false) }
        ensures err { OnErr result (self.new ≡ self.old) }
    {
        if !waits_on(&self.lanes, processor) {
            return Err(StepEnd::EmptyQueue { processor });
        }
        let count = self.state.count();
        carry_on(&mut self.lanes, processor, count)?;
        Ok(())
    }

    fn end_phase(&mut self) -> Result<(), StepEnd>
        ensures ok { OnOk result (Goes self.old EndsPhase self.new) }
        ensures refused { (processor : ℕ) → position waits self.old.processors ≡ Some processor
            → result ≡ Err (StepEnd.QueueLeft processor) }
        ensures only { IfErr result (λ stop. stop ≢ StepEnd.OutOfMemory
            → option_map (λ processor. StepEnd.QueueLeft processor) (position waits self.old.processors) ≡ Some stop) }
        ensures err { OnErr result (self.new ≡ self.old) }
    {
        if let Some(processor) = first_waiting(&self.lanes) {
            return Err(StepEnd::QueueLeft { processor });
        }
        let alloc = *self.changes.allocator();
        let needs = needs_in(alloc, &self.lanes)?;
        let counts = counts_in(alloc, &self.lanes)?;
        let lanes = idle_lanes(alloc, self.lanes.len())?;
        self.plan.reserve(1)?;
        self.choices.reserve(1)?;
        let published = self.state.count();
        self.plan.push_reserved(PlanPhase { published, needs });
        self.choices.push_reserved(counts);
        self.lanes = lanes;
        Ok(())
    }
}

/// How many queues the interfaces have.
fn queues_of(interfaces: &[Interface]) -> u32
    requires { sum_by (λ interface. interface.queues) interfaces.now < 2 ^ 32 }
    ensures { result ≡ sum_by (λ interface. interface.queues) interfaces.now }
{
    interfaces.iter().map(|interface| interface.queues).sum()
}

fn idle_lanes(alloc: Global, processors: usize) -> Result<Vec<Lane>, OutOfMemory>
    ensures { IfOk result (λ lanes. lanes.items ≡ replicate processors idle) }
{
    let mut lanes = Vec::with_capacity(alloc, processors)?;
    for _ in 0..processors {
        lanes.push(Lane::new(alloc))?;
    }
    Ok(lanes)
}

fn copy_of(alloc: Global, packet: &Packet) -> Result<Packet, OutOfMemory>
    ensures { IfOk result (λ copy. copy ≡ packet.now) }
{
    let mut frame = Bytes::new(alloc);
    frame.append(packet.frame.as_slice())?;
    Ok(Packet {
        id: packet.id,
        timestamp: packet.timestamp,
        frame,
    })
}

fn hand_to(lanes: &mut Vec<Lane>, processor: u32, hand_in: HandIn) -> Result<(), OutOfMemory>
    requires { processor < vec_len lanes.old }
    ensures ok { OnOk result (lanes.new.items ≡ changed_at processor (with_packet hand_in) lanes.old.items) }
    ensures err { OnErr result (lanes.new.items ≡ lanes.old.items) }
{
    lanes[processor as usize].hand_in(hand_in)
}

fn waits_on(lanes: &[Lane], processor: u32) -> bool
    requires { processor < length lanes.now }
    ensures { result ≡ waits_at processor lanes.now }
{
    lanes[processor as usize].waits()
}

fn carry_on(lanes: &mut Vec<Lane>, processor: u32, count: u32) -> Result<(), OutOfMemory>
    requires place { processor < vec_len lanes.old }
    requires waits { waits_at processor lanes.old.items ≡ true }
    ensures ok { OnOk result (lanes.new.items ≡ changed_at processor (with_count count) lanes.old.items) }
    ensures err { OnErr result (lanes.new.items ≡ lanes.old.items) }
{
    lanes[processor as usize].carry(count)
}

/// The first processor for which a packet waits.
fn first_waiting(lanes: &[Lane]) -> Option<u32>
    requires { length lanes.now < 2 ^ 32 }
    ensures { result ≡ position waits lanes.now }
{
    let place = place_of_waiting(lanes)?;
    Some(place as u32)
}

fn place_of_waiting(lanes: &[Lane]) -> Option<usize>
    ensures { result ≡ position waits lanes.now }
{
    lanes.iter().position(|lane| lane.waits())
}

/// By processor the needs of its packets.
fn needs_in(alloc: Global, lanes: &[Lane]) -> Result<NeedsList, OutOfMemory>
    ensures { IfOk result (λ needs. needs ≡ map (λ traffic. needs_of traffic.handed) lanes.now) }
{
    let mut needs = NeedsList::new(alloc);
    for lane in lanes {
        needs.push(lane.needs(alloc)?)?;
    }
    Ok(needs)
}

/// By processor its counts.
fn counts_in(alloc: Global, lanes: &[Lane]) -> Result<NeedsList, OutOfMemory>
    ensures { IfOk result (λ counts. counts ≡ map (λ traffic. traffic.counts) lanes.now) }
{
    let mut counts = NeedsList::new(alloc);
    for lane in lanes {
        counts.push(lane.counts(alloc)?)?;
    }
    Ok(counts)
}
