//! The worked rows: legal and illegal choices, two schedules, and a world that goes through its steps.
ghost use Rattle.std.specs.Prelude.{◌^◌, ◌<◌, sum_by, IsTrue};
ghost use Rattle.interleave_core.specs.Event.{IsPossible};
ghost use Rattle.xdp_state.specs.Library.{IsSound};

use filter_rules::Policy;
use interleave_core::{
    Event, Illegal, LegalRule, ScheduleEnd, Step, StepEnd, StepList, World, is_legal, schedule,
};
use lists::{Bytes, OutOfMemory};
use std::alloc::Global;
use std::test::Fail;
use xdp_state::{
    Choices, Command, CountList, DumpList, Interface, InterfaceList, Library, Mode, NeedsList,
    Packet, Plan, PlanPhase,
};

/// By processor, the numbers of its packets.
type Numbers = &'static [&'static [u32]];

/// Two packets, with a command between them.
const TWO_PACKETS: &[(u32, Numbers)] = &[(1, &[&[0, 1]])];

/// Two processors; the second one has no packet in the second phase.
const THREE_PHASES: &[(u32, Numbers)] = &[
    (1, &[&[0], &[1]]),
    (2, &[&[1, 2], &[]]),
    (3, &[&[], &[2, 3]]),
];

/// A plan, choices, and the first illegal packet.
type Row = (
    &'static [(u32, Numbers)],
    &'static [Numbers],
    Option<(u32, u32, u32, LegalRule)>,
);

const ROWS: &[Row] = &[
    (TWO_PACKETS, &[&[&[0, 1]]], None),
    (TWO_PACKETS, &[&[&[1, 1]]], None),
    (TWO_PACKETS, &[&[&[1, 0]]], Some((0, 0, 1, LegalRule::Fell))),
    (
        TWO_PACKETS,
        &[&[&[0, 0]]],
        Some((0, 0, 1, LegalRule::BelowNeed)),
    ),
    (
        TWO_PACKETS,
        &[&[&[0, 2]]],
        Some((0, 0, 1, LegalRule::AbovePhase)),
    ),
    (
        TWO_PACKETS,
        &[&[&[2, 0]]],
        Some((0, 0, 0, LegalRule::AbovePhase)),
    ),
    (TWO_PACKETS, &[], Some((0, 0, 0, LegalRule::Shape))),
    (
        TWO_PACKETS,
        &[&[&[0, 1]], &[&[]]],
        Some((1, 0, 0, LegalRule::Shape)),
    ),
    (TWO_PACKETS, &[&[]], Some((0, 0, 0, LegalRule::Shape))),
    (
        TWO_PACKETS,
        &[&[&[0, 1], &[]]],
        Some((0, 1, 0, LegalRule::Shape)),
    ),
    (TWO_PACKETS, &[&[&[9]]], Some((0, 0, 1, LegalRule::Shape))),
    (
        TWO_PACKETS,
        &[&[&[9, 9, 9]]],
        Some((0, 0, 2, LegalRule::Shape)),
    ),
    (
        THREE_PHASES,
        &[&[&[1], &[1]], &[&[1, 2], &[]], &[&[], &[3, 3]]],
        None,
    ),
    (
        THREE_PHASES,
        &[&[&[0], &[1]], &[&[2, 2], &[]], &[&[], &[2, 3]]],
        None,
    ),
    (
        THREE_PHASES,
        &[&[&[1], &[1]], &[&[0, 2], &[]], &[&[], &[3, 3]]],
        Some((1, 0, 0, LegalRule::Fell)),
    ),
    (
        THREE_PHASES,
        &[&[&[1], &[1]], &[&[1, 3], &[]], &[&[], &[0, 3]]],
        Some((1, 0, 1, LegalRule::AbovePhase)),
    ),
    (
        THREE_PHASES,
        &[&[&[1], &[1]], &[&[1, 2], &[]], &[&[], &[0, 3]]],
        Some((2, 1, 0, LegalRule::Fell)),
    ),
    (
        THREE_PHASES,
        &[&[&[1], &[1]], &[&[1], &[]], &[&[]]],
        Some((1, 0, 1, LegalRule::Shape)),
    ),
];

fn list_of(alloc: Global, numbers: &[u32]) -> Result<CountList, OutOfMemory> {
    let mut list = CountList::new(alloc);
    for number in numbers {
        list.push(*number)?;
    }
    Ok(list)
}

fn table_of(alloc: Global, numbers: &[&[u32]]) -> Result<NeedsList, OutOfMemory> {
    let mut table = NeedsList::new(alloc);
    for list in numbers {
        table.push(list_of(alloc, list)?)?;
    }
    Ok(table)
}

fn plan_of(alloc: Global, phases: &[(u32, Numbers)]) -> Result<Plan, OutOfMemory> {
    let mut plan = Plan::new(alloc);
    for (published, needs) in phases {
        plan.push(PlanPhase {
            published: *published,
            needs: table_of(alloc, needs)?,
        })?;
    }
    Ok(plan)
}

fn choices_of(alloc: Global, phases: &[Numbers]) -> Result<Choices, OutOfMemory> {
    let mut choices = Choices::new(alloc);
    for counts in phases {
        choices.push(table_of(alloc, counts)?)?;
    }
    Ok(choices)
}

/// The first illegal packet.
fn illegal(
    alloc: Global,
    plan: &[(u32, Numbers)],
    choices: &[Numbers],
) -> Result<Option<Illegal>, OutOfMemory> {
    let (plan, choices) = (plan_of(alloc, plan)?, choices_of(alloc, choices)?);
    Ok(is_legal(&plan, &choices).err())
}

#[test]
fn names_the_first_illegal_packet(rt: HostRuntime) -> Result<(), Fail> {
    for (plan, choices, want) in ROWS {
        let want = want.map(|(phase, processor, packet, rule)| Illegal {
            phase,
            processor,
            packet,
            rule,
        });
        assert_eq!(rt; illegal(rt.alloc(), plan, choices)?, want);
    }
    Ok(())
}

/// The steps of a schedule.
fn steps(
    alloc: Global,
    plan: &[(u32, Numbers)],
    choices: &[Numbers],
) -> Result<StepList, ScheduleEnd> {
    let (plan, choices) = (plan_of(alloc, plan)?, choices_of(alloc, choices)?);
    schedule(alloc, &plan, &choices)
}

#[test]
fn schedules_each_step_as_early_as_it_may(rt: HostRuntime) -> Result<(), Fail> {
    let (hand_in, carry) = (Step::HandIn { processor: 0 }, Step::Carry { processor: 0 });
    let want = [hand_in, carry, Step::Publish, hand_in, carry, Step::Barrier];
    let given = steps(rt.alloc(), TWO_PACKETS, &[&[&[0, 1]]])?;
    assert_eq!(rt; given.as_slice(), want.as_slice());
    let late = [hand_in, Step::Publish, hand_in, carry, carry, Step::Barrier];
    let given = steps(rt.alloc(), TWO_PACKETS, &[&[&[1, 1]]])?;
    assert_eq!(rt; given.as_slice(), late.as_slice());
    Ok(())
}

const FRAME: [u8; 14] = [2, 0, 0, 0, 0, 1, 2, 0, 0, 0, 0, 2, 0x88, 0xB5];

/// An event in a table, on the one processor there is.
#[derive(Clone, Copy)]
enum Come {
    Load,
    Status,
    HandIn,
    Carry,
    Barrier,
}

const EVENTS: &[(Come, Result<(), StepEnd>)] = &[
    (Come::Carry, Err(StepEnd::EmptyQueue { processor: 0 })),
    (Come::HandIn, Ok(())),
    (Come::Barrier, Err(StepEnd::QueueLeft { processor: 0 })),
    (Come::Carry, Ok(())),
    (Come::Load, Ok(())),
    (Come::Load, Ok(())),
    (Come::Status, Ok(())),
    (Come::HandIn, Ok(())),
    (Come::Carry, Ok(())),
    (Come::Barrier, Ok(())),
];

fn bytes_of(alloc: Global, bytes: &[u8]) -> Result<Bytes, OutOfMemory> {
    let mut list = Bytes::new(alloc);
    list.append(bytes)?;
    Ok(list)
}

fn event_of(alloc: Global, come: Come) -> Result<Event, OutOfMemory> {
    Ok(match come {
        Come::Load => Event::Command(Command::FilterLoad {
            interface: bytes_of(alloc, b"eth0")?,
            mode: Mode::Native,
            policy: Policy::Allow,
            features: 31,
        }),
        Come::Status => Event::Command(Command::FilterStatus),
        Come::HandIn => Event::HandIn {
            processor: 0,
            packet: packet_of(alloc, &FRAME)?,
        },
        Come::Carry => Event::Carry { processor: 0 },
        Come::Barrier => Event::Barrier,
    })
}

fn packet_of(alloc: Global, frame: &[u8; 14]) -> Result<Packet, OutOfMemory> {
    let mut bytes = Bytes::new(alloc);
    bytes.append(frame)?;
    Ok(Packet {
        id: 0,
        timestamp: 0,
        frame: bytes,
    })
}

/// Makes an event come, if it is one that may be asked for.
fn step_if_possible(
    world: &mut World,
    library: &Library,
    event: &Event,
) -> Option<Result<(), StepEnd>>
    requires { IsSound library.now }
{
    if library.interfaces.len() > 8 || !is_possible(world, event) {
        return None;
    }
    Some(world.step(library, event))
}

/// Whether the processor is there, and a command has a number left.
fn is_possible(world: &World, event: &Event) -> bool
    ensures { IsTrue result → IsPossible world.now event.now }
{
    match event {
        Event::Command(Command::FilterRule { .. }) => false,
        Event::Command(_) => world.state().count() < 65_536,
        Event::HandIn { processor, .. } | Event::Carry { processor } => {
            *processor < world.processors()
        }
        Event::Barrier => true,
    }
}

/// One interface with one queue, and a world over it.
fn small_world(alloc: Global) -> Result<Option<(InterfaceList, World)>, OutOfMemory> {
    let mut interfaces = InterfaceList::new(alloc);
    interfaces.push(Interface {
        name: bytes_of(alloc, b"eth0")?,
        queues: 1,
    })?;
    new_world(alloc, interfaces)
}

fn new_world(
    alloc: Global,
    interfaces: InterfaceList,
) -> Result<Option<(InterfaceList, World)>, OutOfMemory> {
    if !has_one_queue(interfaces.as_slice()) {
        return Ok(None);
    }
    let world = World::new(alloc, &interfaces)?;
    Ok(Some((interfaces, world)))
}

fn has_one_queue(interfaces: &[Interface]) -> bool
    ensures { IsTrue result → sum_by (λ interface. interface.queues) interfaces.now < 2 ^ 32 }
{
    matches!(interfaces, [only] if only.queues == 1)
}

fn only_row(tables: &[NeedsList]) -> Option<&[u32]> {
    let table = tables.first()?;
    table.as_slice().first().map(|row| row.as_slice())
}

#[test]
fn a_world_goes_from_step_to_step(rt: HostRuntime) -> Result<(), Fail> {
    let (interfaces, mut world) = small_world(rt.alloc())?.ok_or("no world")?;
    let library = Library::new(rt.alloc(), interfaces, DumpList::new(rt.alloc()));
    for (asked, want) in EVENTS {
        let event = event_of(rt.alloc(), *asked)?;
        assert_eq!(rt; step_if_possible(&mut world, &library, &event), Some(*want));
    }
    assert_eq!(rt; world.state().count(), 1);
    assert_eq!(rt; world.plan().len(), 1);
    assert_eq!(rt; world.choices().len(), 1);
    assert_eq!(rt;
        only_row(world.choices()).ok_or("no counts")?,
        [0, 1].as_slice()
    );
    Ok(())
}
