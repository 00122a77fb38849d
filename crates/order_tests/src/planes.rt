//! A plane with one port: what it sees alone, and in another thread beside its publisher.

ghost use Rattle.std.specs.Prelude.{◌≡◌, false};
ghost use Rattle.dispatch_plane.specs.Sight.{Joins};

use dispatch_plane::{Note, Port, Publisher, close_plane, open_plane};
use std::snapshot::Snapshot;
use std::sync::Wait;
use std::test::Fail;
use std::thread::{Promise, Threads};
use std::{mem, thread};
use xdp_state::{Change, State};

/// How often a port looks for a view before a test gives up.
const LOOKS: u32 = 1_000;

/// How many changes are published beside a port that looks.
const CHANGES: u32 = 100;

/// No member has this number, and each state before its last change takes it.
const CHANGE: Change = Change::Detach {
    interface: 0,
    number: 0,
    clear_rules: false,
};

/// Publishes a change, where the state takes it and memory is there.
fn publish<R: Wait>(rt: &R, publisher: &mut Publisher) -> Option<u32>
    ensures { publisher.new.plane ≡ publisher.old.plane }
{
    if !publisher.state().takes(&CHANGE) {
        return None;
    }
    publisher.publish(rt, &CHANGE).ok()
}

/// Looks until there is a view, and answers its count.
fn look(port: &mut Port) -> Option<u32>
    requires { port.old.inside ≡ false }
    ensures { Joins port.old.plane port.new }
{
    'enters: for _ in 0..LOOKS {
        if port.enter().is_ok() {
            let count = port.count();
            port.leave();
            return Some(count);
        }
    }
    None
}

#[test]
fn a_port_sees_what_it_was_told(rt: HostRuntime) -> Result<(), Fail> {
    let state = State::new(rt.alloc())?;
    let (mut publisher, mut ports) = open_plane(&rt, rt.alloc(), state, 1)?;
    let first = publish(&rt, &mut publisher);
    let note = publisher.note();
    let noted = note.count();
    let second = publish(&rt, &mut publisher);
    let mut port = mem::replace(&mut ports.as_mut_slice()[0], Port::hollow());
    port.learn(note);
    let counts = [look(&mut port), look(&mut port)];
    ports.as_mut_slice()[0] = port;
    let state = close_plane(&rt, publisher, ports);

    assert_eq!(rt; [first, second], [Some(1), Some(2)]);
    assert_eq!(rt; noted, 1);
    assert!(rt; counts[0] == Some(1) || counts[0] == Some(2));
    assert!(rt; counts[0] <= counts[1] && counts[1] <= Some(2));
    assert_eq!(rt; state.count(), 2);
    Ok(())
}

/// Looks once, and answers how often no view was given.
fn misses_after_a_look(port: &mut Port) -> u64
    requires { port.old.inside ≡ false }
    ensures { port.new.inside ≡ false }
{
    if port.enter().is_ok() {
        port.leave();
    }
    port.misses()
}

#[test]
fn each_look_without_a_view_is_counted(rt: HostRuntime) -> Result<(), Fail> {
    let state = State::new(rt.alloc())?;
    let (publisher, mut ports) = open_plane(&rt, rt.alloc(), state, 1)?;
    let mut port = mem::replace(&mut ports.as_mut_slice()[0], Port::hollow());
    let seen = misses_after_a_look(&mut port);
    publisher.let_go(&rt);
    let misses = [
        misses_after_a_look(&mut port),
        misses_after_a_look(&mut port),
    ];

    assert_eq!(rt; seen, 0);
    assert_eq!(rt; misses, [1, 2]);
    Ok(())
}

/// Looks again and again, and says whether the counts never fell, nor below the note's.
fn looks(port: Port, note: Note) -> (Port, bool)
    requires outside { port.inside ≡ false }
    requires plane { note.plane ≡ port.plane }
    ensures { Joins port.plane result.0 }
{
    let mut looking = port;
    let mut last = note.count();
    let mut rises = true;
    looking.learn(note);
    'looks: for _ in 0..LOOKS {
        if let Some(count) = look(&mut looking) {
            rises = rises && last <= count;
            last = count;
        }
    }
    (looking, rises)
}

/// Publishes so many changes, and answers how many were published.
fn publishes<R: Wait>(rt: &R, publisher: &mut Publisher) -> u32
    ensures { publisher.new.plane ≡ publisher.old.plane }
{
    let mut count = 0;
    'changes: for _ in 0..CHANGES {
        if let Some(published) = publish(rt, publisher) {
            count = published;
        }
    }
    count
}

/// The port that went to another thread comes back in its plane, outside.
#[derive(Drop)]
struct Returned(Snapshot<Port>);

impl Promise<(Port, bool)> for Returned {
    ghost use Rattle.dispatch_plane.specs.Sight.{Joins};

    ghost kept_by = { λ went came. Joins went.0.value.plane came.0 };
}

/// A port looks in a thread of its own while changes are published.
fn side_by_side<R: Threads + Wait>(
    rt: &R,
    publisher: &mut Publisher,
    port: Port,
) -> ((Port, bool), u32)
    requires { Joins publisher.old.plane port }
    ensures { Joins publisher.new.plane result.0.0 }
{
    let note = publisher.note();
    let went = Returned(Snapshot::of(&port));
    match thread::spawn_with(rt, went, move || looks(port, note)) {
        Ok(there) => {
            let published = publishes(rt, publisher);
            (there.join(rt), published)
        }
        Err(here) => {
            let published = publishes(rt, publisher);
            ((here.value)(), published)
        }
    }
}

#[test]
fn a_port_looks_while_changes_are_published(rt: HostRuntime) -> Result<(), Fail> {
    let state = State::new(rt.alloc())?;
    let (mut publisher, mut ports) = open_plane(&rt, rt.alloc(), state, 1)?;
    let port = mem::replace(&mut ports.as_mut_slice()[0], Port::hollow());
    let ((mut port, rises), published) = side_by_side(&rt, &mut publisher, port);
    port.learn(publisher.note());
    let last = look(&mut port);
    ports.as_mut_slice()[0] = port;
    let state = close_plane(&rt, publisher, ports);

    assert!(rt; rises);
    assert_eq!(rt; published, CHANGES);
    assert_eq!(rt; last, Some(CHANGES));
    assert_eq!(rt; state.count(), CHANGES);
    Ok(())
}
