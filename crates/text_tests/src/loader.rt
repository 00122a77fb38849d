use crate::options::command_of;
use script_text::{Script, What, chain_text, read_script};
use std::alloc::Global;
use std::test::Fail;
use xdp_state::{
    Change, Command, DumpList, Interface, InterfaceList, Kind, Library, LoadWords, Mode, State,
};
use xio::{Bytes, OutOfMemory};

/// What a load on eth0 asks for, of the object with this place.
#[derive(Clone, Copy, Debug, PartialEq, Eq)]
struct Load {
    object: u32,
    name: Option<&'static str>,
    section: Option<&'static str>,
    mode: Mode,
    priority: Option<u32>,
    mask: Option<u8>,
}

const PLAIN: Load = Load {
    object: 0,
    name: None,
    section: None,
    mode: Mode::Native,
    priority: None,
    mask: None,
};

const LOADS: [(&str, Load); 8] = [
    ("eth0 a.o", PLAIN),
    ("eth0 ./a.o", Load { object: 1, ..PLAIN }),
    (
        "-m skb eth0 a.o",
        Load {
            mode: Mode::Skb,
            ..PLAIN
        },
    ),
    ("eth0 a.o --mode unspecified", PLAIN),
    (
        "-n -P -s xdp/a eth0 ./a.o",
        Load {
            object: 1,
            name: Some("-P"),
            section: Some("xdp/a"),
            ..PLAIN
        },
    ),
    (
        "eth0 --prog-name b b.o --section xdp",
        Load {
            object: 2,
            name: Some("b"),
            section: Some("xdp"),
            ..PLAIN
        },
    ),
    (
        "eth0 -P 4294967295 a.o -A XDP_REDIRECT,XDP_ABORTED",
        Load {
            priority: Some(4_294_967_295),
            mask: Some(17),
            ..PLAIN
        },
    ),
    (
        "eth0 a.o --prio 0 --actions XDP_PASS,XDP_DROP,XDP_TX",
        Load {
            priority: Some(0),
            mask: Some(14),
            ..PLAIN
        },
    ),
];

fn is_word(word: &Option<Bytes>, wanted: Option<&str>) -> bool {
    match (word, wanted) {
        (Some(word), Some(wanted)) => word.as_slice() == wanted.as_bytes(),
        (None, None) => true,
        _ => false,
    }
}

fn is_load(words: &LoadWords, load: &Load) -> bool {
    words.interface.as_slice() == b"eth0".as_slice()
        && words.object == load.object
        && is_word(&words.name, load.name)
        && is_word(&words.section, load.section)
        && words.mode == load.mode
        && words.priority == load.priority
        && words.mask == load.mask
}

/// Whether the line at this place of the script asks for the load.
fn has_load(script: &Script, place: usize, load: &Load) -> bool {
    match script.lines.as_slice().get(place) {
        Some(line) => match command_of(&line.what) {
            Some(Command::LoaderLoad(words)) => is_load(words, load),
            _ => false,
        },
        None => false,
    }
}

fn script_of(alloc: Global, text: &str) -> Result<Script, OutOfMemory> {
    match read_script(alloc, text.as_bytes()) {
        Ok(script) => Ok(script),
        Err(_) => Err(OutOfMemory),
    }
}

#[test]
fn loads(rt: HostRuntime) -> Result<(), Fail> {
    let mut text = String::new(rt.alloc());
    for (line, _) in LOADS {
        text.push_str("xdp-loader load ")?;
        text.push_str(line)?;
        text.push_str("\n")?;
    }
    let script = script_of(rt.alloc(), &text)?;
    let mut place = 0usize;
    for (line, load) in LOADS {
        assert!(rt; has_load(&script, place, &load), "{line}");
        place = place.wrapping_add(1);
    }
    let [first, second, third] = script.objects.as_slice() else {
        return Err("not three objects")?;
    };
    assert!(rt; first.as_slice() == b"a.o".as_slice());
    assert!(rt; second.as_slice() == b"./a.o".as_slice());
    assert!(rt; third.as_slice() == b"b.o".as_slice());
    Ok(())
}

const OTHERS: &str = "xdp-loader unload eth0 -i 4294967295
xdp-loader unload --all eth0
xdp-loader status
xdp-loader status eth0
";

fn is_unload(what: &What, wanted: Option<u32>) -> bool {
    match command_of(what) {
        Some(Command::LoaderUnload { interface, id }) => {
            interface.as_slice() == b"eth0".as_slice() && *id == wanted
        }
        _ => false,
    }
}

fn is_status(what: &What, wanted: Option<&str>) -> bool {
    match command_of(what) {
        Some(Command::LoaderStatus { interface }) => is_word(interface, wanted),
        _ => false,
    }
}

#[test]
fn others(rt: HostRuntime) -> Result<(), Fail> {
    let script = script_of(rt.alloc(), OTHERS)?;
    let [one, every, all, single] = script.lines.as_slice() else {
        return Err("not four lines")?;
    };
    assert!(rt; is_unload(&one.what, Some(4_294_967_295)));
    assert!(rt; is_unload(&every.what, None));
    assert!(rt; is_status(&all.what, None));
    assert!(rt; is_status(&single.what, Some("eth0")));
    assert!(rt; script.objects.len() == 0);
    Ok(())
}

/// Members of eth0, of which the second one's program isn't in the library.
fn state(alloc: Global) -> Result<State, OutOfMemory> {
    let mut state = State::new(alloc)?;
    let members = [
        (
            Kind::Filter {
                policy: filter_rules::Policy::Allow,
                features: 31,
            },
            10,
            4,
        ),
        (Kind::Program(0), 4_294_967_295, 31),
        (Kind::Program(0), 0, 0),
    ];
    for (kind, priority, mask) in members {
        state.absorb(&Change::Attach {
            interface: 0,
            kind,
            priority,
            rank: 0,
            mask,
            mode: Mode::Skb,
        });
    }
    Ok(state)
}

fn library(alloc: Global) -> Result<Library, OutOfMemory> {
    let mut interfaces = InterfaceList::new(alloc);
    for word in [b"eth0", b"eth1"] {
        let mut name = Bytes::new(alloc);
        name.append(word)?;
        interfaces.push(Interface { name, queues: 1 })?;
    }
    Ok(Library::new(alloc, interfaces, DumpList::new(alloc)))
}

fn is_table(alloc: Global, state: &State, library: &Library, interface: u32, wanted: &str) -> bool {
    if library.interfaces.len() > 8 {
        return false;
    }
    match chain_text(alloc, state, library, interface) {
        Ok(text) => text.as_slice() == wanted.as_bytes(),
        Err(OutOfMemory) => false,
    }
}

#[test]
fn status(rt: HostRuntime) -> Result<(), Fail> {
    let state = state(rt.alloc())?;
    let library = library(rt.alloc())?;
    let chain = "  eth0 skb\n  0  #3 -\n  10 xdp_filter #1 XDP_PASS\n  \
        4294967295  #2 XDP_ABORTED,XDP_DROP,XDP_PASS,XDP_TX,XDP_REDIRECT\n";
    assert!(rt; is_table(rt.alloc(), &state, &library, 0, chain));
    assert!(rt; is_table(rt.alloc(), &state, &library, 1, "  eth1 -\n"));
    Ok(())
}
