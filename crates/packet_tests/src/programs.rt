//! Programs in chains: what comes of loads and unloads, and of packets.
ghost use Rattle.std.specs.Prelude.{◌≡◌, ◌≤◌, All, length, IfOk};
ghost use Rattle.object_load.specs.Load.{IsRunnable};
ghost use Rattle.xdp_state.specs.Library.{IsSound, programs_in};

use crate::answers::judged;
use crate::journey::{Journey, gone, told};
use bpf_machine::Cause;
use filter_rules::Policy;
use lists::{Bytes, OutOfMemory};
use object_load::{LoadEnd, programs_of};
use std::alloc::Global;
use std::test::Fail;
use xdp_state::{
    Change, Command, DumpList, DumpSetting, Interface, InterfaceList, Judgement, Library,
    LoadWords, Loaded, Mode, NameList, ObjectRow, Reason, State,
};
use xio::Action;

/// r0 = 2; exit.
const PASS: Code = [0x0002_0000_00b7, 0x95, 0x95, 0x95, 0x95, 0x95];

/// r0 = 1; exit.
const DROP: Code = [0x0001_0000_00b7, 0x95, 0x95, 0x95, 0x95, 0x95];

/// Writes over the packet's first byte, and then to its end, which faults.
const WRITES_PAST: Code = [
    0x1261,
    0x00ff_0000_0272,
    0x0004_1361,
    0x0001_0000_0372,
    0x0002_0000_00b7,
    0x95,
];

const FRAME: [u8; 14] = [2, 0, 0, 0, 0, 1, 2, 0, 0, 0, 0, 2, 0x88, 0xb5];

/// Six instructions.
type Code = [u64; 6];

/// The least object with one program of six instructions, in words (ELF64): its header, symbols and sections.
const HEADER: &[u64] = &[
    0x0001_0102_464c_457f,
    0,
    0x0001_00f7_0001,
    0,
    0,
    184,
    0x0040_0000_0000,
    0x0003_0004_0040_0000,
];

const SYMBOLS: &[u64] = &[0, 0, 0, 0x0001_0012_0000_0015, 0, 48];

const SECTIONS: &[&[u64]] = &[
    &[0; 8],
    &[0x0001_0000_0001, 6, 0, 64, 48, 0, 8, 0],
    &[0x0002_0000_0005, 0, 0, 112, 48, 0x0001_0000_0003, 8, 24],
    &[0x0003_0000_000d, 0, 0, 160, 23, 0, 1, 0],
];

/// The object whose program has this name of one letter.
fn object(alloc: Global, name: u8, code: &Code) -> Result<Bytes, OutOfMemory> {
    let mut bytes = Bytes::new(alloc);
    append(&mut bytes, HEADER)?;
    append(&mut bytes, code)?;
    append(&mut bytes, SYMBOLS)?;
    bytes.append(b"\0xdp\0.symtab\0.strtab\0")?;
    bytes.append(&[name, 0, 0])?;
    for words in SECTIONS {
        append(&mut bytes, words)?;
    }
    Ok(bytes)
}

fn append(bytes: &mut Bytes, words: &[u64]) -> Result<(), OutOfMemory> {
    for word in words {
        bytes.append(&word.to_le_bytes())?;
    }
    Ok(())
}

fn text(alloc: Global, bytes: &[u8]) -> Result<Bytes, OutOfMemory>
    ensures { IfOk result (λ text. text ≡ bytes.now) }
{
    let mut text = Bytes::new(alloc);
    text.append(bytes)?;
    Ok(text)
}

/// The interface eth0, objects by their bytes, and a dump that keeps the first byte on both sides of each member.
fn library(alloc: Global, objects: &[Bytes]) -> Result<Library, OutOfMemory>
    ensures { IfOk result IsSound }
{
    let mut interfaces = InterfaceList::new(alloc);
    interfaces.push(Interface {
        name: text(alloc, b"eth0")?,
        queues: 1,
    })?;
    let mut dumps = DumpList::new(alloc);
    dumps.push(DumpSetting {
        names: NameList::new(alloc),
        entry: true,
        exit: true,
        snap: 1,
    })?;
    let mut library = Library::new(alloc, interfaces, dumps);
    for bytes in objects {
        let name = text(alloc, b"o")?;
        let loaded = loaded(alloc, bytes.as_slice())?;
        library.add(ObjectRow { name, loaded })?;
    }
    Ok(library)
}

/// What an object's bytes give.
fn loaded(alloc: Global, bytes: &[u8]) -> Result<Loaded, OutOfMemory>
    ensures { IfOk result (λ loaded. All IsRunnable (programs_in loaded)) }
{
    match programs_of(alloc, bytes) {
        Ok(programs) => Ok(Loaded::Programs(programs)),
        Err(LoadEnd::Refused(refusal)) => Ok(Loaded::Refused(refusal)),
        Err(LoadEnd::OutOfMemory) => Err(OutOfMemory),
    }
}

/// A command on eth0.
#[derive(Clone, Copy)]
enum Asked {
    Load { object: u32, mask: Option<u8> },
    Unload(Option<u32>),
    FilterLoad(Mode),
}

fn command(alloc: Global, asked: Asked) -> Result<Command, OutOfMemory> {
    let interface = text(alloc, b"eth0")?;
    Ok(match asked {
        Asked::Load { object, mask } => Command::LoaderLoad(LoadWords {
            interface,
            object,
            name: None,
            section: None,
            mode: Mode::Native,
            priority: None,
            mask,
        }),
        Asked::Unload(id) => Command::LoaderUnload { interface, id },
        Asked::FilterLoad(mode) => Command::FilterLoad {
            interface,
            mode,
            policy: Policy::Allow,
            features: 31,
        },
    })
}

/// The number of the publication that a command makes, or why it is refused.
type Given = Result<u32, Reason>;

fn step(
    alloc: Global,
    state: &mut State,
    library: &Library,
    asked: Asked,
) -> Result<Given, OutOfMemory>
    requires { IsSound library.now }
{
    let command = command(alloc, asked)?;
    Ok(match judged(state, library, &command) {
        Some(Judgement::Accepted(change)) => {
            state.absorb(&change);
            Ok(state.count())
        }
        Some(Judgement::Refused(reason)) => Err(reason),
        Some(Judgement::Shown) | None => Ok(0),
    })
}

/// A load of the first object, and one of the second.
const A: Asked = Asked::Load {
    object: 0,
    mask: None,
};

const B: Asked = Asked::Load {
    object: 1,
    mask: None,
};

/// Objects with programs of these names that pass each packet; 0 stands for an empty file.
fn objects(alloc: Global, names: &[u8]) -> Result<Vec<Bytes>, OutOfMemory> {
    let mut objects = Vec::new(alloc);
    for name in names {
        objects.push(match *name {
            0 => Bytes::new(alloc),
            name => object(alloc, name, &PASS)?,
        })?;
    }
    Ok(objects)
}

/// What comes of commands over objects with these names, and then the numbers of the members.
fn answers(
    alloc: Global,
    names: &[u8],
    commands: &[Asked],
) -> Result<(Vec<Given>, Vec<u32>), OutOfMemory> {
    let library = library(alloc, objects(alloc, names)?.as_slice())?;
    let mut state = State::new(alloc)?;
    let mut answers = Vec::new(alloc);
    for asked in commands {
        answers.push(step(alloc, &mut state, &library, *asked)?)?;
    }
    Ok((answers, numbers(alloc, &state)?))
}

fn numbers(alloc: Global, state: &State) -> Result<Vec<u32>, OutOfMemory> {
    let mut numbers = Vec::new(alloc);
    for member in state.chain(0).members() {
        numbers.push(member.number)?;
    }
    Ok(numbers)
}

/// Programs by name, commands, what comes of each, and the numbers of the members then.
type Chain = (
    &'static [u8],
    &'static [Asked],
    &'static [Given],
    &'static [u32],
);

const CHAINS: [Chain; 3] = [
    (
        b"a",
        &[A, A, A, A, A, A, A, A, A, A, A, Asked::Unload(Some(10)), A],
        &[
            Ok(1),
            Ok(2),
            Ok(3),
            Ok(4),
            Ok(5),
            Ok(6),
            Ok(7),
            Ok(8),
            Ok(9),
            Ok(10),
            Err(Reason::ChainFull),
            Ok(11),
            Ok(12),
        ],
        &[1, 2, 3, 4, 5, 6, 7, 8, 9, 12],
    ),
    (
        b"a",
        &[
            A,
            Asked::FilterLoad(Mode::Skb),
            Asked::Unload(Some(2)),
            Asked::Unload(None),
            Asked::Unload(None),
        ],
        &[
            Ok(1),
            Err(Reason::ModeDiffers),
            Err(Reason::NoSuchId),
            Ok(2),
            Err(Reason::NothingLoaded),
        ],
        &[],
    ),
    // members stand by their names, and then by their numbers
    (b"ba", &[A, B, B], &[Ok(1), Ok(2), Ok(3)], &[2, 3, 1]),
];

#[test]
fn answers_by_chain(rt: HostRuntime) -> Result<(), Fail> {
    for (names, commands, want, members) in CHAINS {
        let (given, numbers) = answers(rt.alloc(), names, commands)?;
        assert_eq!(rt; given.as_slice(), want);
        assert_eq!(rt; numbers.as_slice(), members);
    }
    Ok(())
}

#[test]
fn refuses_an_empty_file(rt: HostRuntime) -> Result<(), Fail> {
    let (given, _) = answers(rt.alloc(), b"a\0", &[B])?;
    let refused = matches!(given.as_slice().first(), Some(Err(Reason::BadObject(_))));
    assert!(rt; refused);
    Ok(())
}

/// How a packet goes through one program.
fn carried(alloc: Global, code: &Code, mask: Option<u8>) -> Result<Option<Journey>, OutOfMemory> {
    let objects = [object(alloc, b'p', code)?];
    let library = library(alloc, &objects)?;
    let state = dumping(alloc, &library, mask)?;
    told(alloc, &gone(alloc, &state, &library, 0, &FRAME)?)
}

/// A state with the first object's program, and a dump that is on.
fn dumping(alloc: Global, library: &Library, mask: Option<u8>) -> Result<State, OutOfMemory>
    requires { IsSound library.now }
{
    let mut state = State::new(alloc)?;
    let load = Asked::Load { object: 0, mask };
    let _ = step(alloc, &mut state, library, load)?;
    state.absorb(&Change::DumpOn {
        interface: 0,
        setting: 0,
    });
    Ok(state)
}

/// A program, its mask, the verdict, the program's cause, and the frame's first byte behind it.
const RUNS: [(Code, Option<u8>, Action, Cause, u8); 5] = [
    (PASS, None, Action::Pass, Cause::Exit, 2),
    (DROP, None, Action::Drop, Cause::Exit, 2),
    (DROP, Some(2), Action::Pass, Cause::Exit, 2),
    (WRITES_PAST, None, Action::Aborted, Cause::Fault, 255),
    (WRITES_PAST, Some(1), Action::Pass, Cause::Fault, 255),
];

#[test]
fn carries_a_packet_through_a_program(rt: HostRuntime) -> Result<(), Fail> {
    for (code, mask, verdict, cause, first) in RUNS {
        let way = carried(rt.alloc(), &code, mask)?.ok_or("no way")?;
        let (_, _, seen, _, _) = way.seen;
        assert_eq!(rt; (way.verdict, seen), (verdict, cause));
        assert_eq!(rt;
            (way.entry, way.exit, way.first),
            (
                Some((14, 1, Some(2))),
                Some((14, 1, Some(first))),
                Some(first)
            )
        );
    }
    Ok(())
}
