ghost use Rattle.std.specs.Prelude.{◌≡◌, ◌+◌, ◌<◌, ◌||◌, true, nat_lt, List, [], ◌∷◌, ◌++◌, length, replicate, slice_set, Some, None, is_some, not, IfOk, if◌then◌else◌};
ghost use Rattle.chain_order.specs.Chain.{IsChain, without};
ghost use Rattle.chain_order.specs.declared.member.Member.{Member};
ghost use Rattle.filter_rules.specs.Rules.{has_row, set_rule, clear_rule};
ghost use Rattle.xdp_state.specs.Book.{has_place, has_own_flags};
ghost use Rattle.xdp_state.specs.Dump.{dump_on};
ghost use Rattle.xdp_state.specs.Members.{chain_on, members_off, members_without, mode_on};

use crate::change::Change;
use crate::filters::{has_filter, is_filter};
use crate::hook::Hook;
use crate::mode::{Mode, differs};
use chain_order::{Chain, Kind, Member};
use filter_rules::{ROWS, RuleKey, Rules};
use std::alloc::Global;
use std::marker::Model;
use xio::OutOfMemory;

mod copy;

/// How many interfaces there may be.
pub const INTERFACES: u32 = 8;

/// How many members a chain may have.
pub const MEMBERS: u32 = 10;

/// How many changes may be made.
pub const CHANGES: u32 = 65_536;

/// What the changes so far have made: the members of each interface and the setting of its dump, the filter's rows and the
/// number of publications.
#[derive(Debug, Drop)]
pub struct State {
    hooks: Vec<Hook>,
    dumps: [Option<u32>; INTERFACES as usize],
    rules: Rules,
    count: u32,
}

impl Model for State {
    ghost use Rattle.xdp_state.specs.Book.{Book};
    ghost use Rattle.xdp_state.specs.State.{view_of, IsWhole};

    ghost Value = { Book };

    ghost view = { view_of };

    ghost invariant = { IsWhole };
}

impl State {
    ghost use Rattle.xdp_state.specs.Book.{empty, fits, takes, applied};

    /// The state before any change, with the room of all that changes can make.
    pub fn new(alloc: Global) -> Result<Self, OutOfMemory>
        ensures { IfOk result (λ state. state ≡ empty) }
    {
        Ok(State {
            hooks: no_hooks(alloc)?,
            dumps: [None; INTERFACES as usize],
            rules: Rules::new(alloc)?,
            count: 0,
        })
    }

    /// How many publications made it.
    pub fn count(&self) -> u32
        ensures { result ≡ self.now.count }
    {
        self.count
    }

    /// The members of an interface in the order in which they run.
    pub fn chain(&self, interface: u32) -> &Chain
        requires { interface < 8 }
        ensures { result.now ≡ chain_on self.now.members interface }
    {
        &self.hooks[interface as usize].chain
    }

    /// The mode of an interface's members, where it has some.
    pub fn mode(&self, interface: u32) -> Option<Mode>
        requires { interface < 8 }
        ensures { result ≡ mode_on self.now.members interface }
    {
        let hook = &self.hooks[interface as usize];
        (hook.chain.len() > 0).then_some(hook.mode)
    }

    /// The setting of the dump on an interface, where one is on.
    pub fn dump(&self, interface: u32) -> Option<u32>
        requires { interface < 8 }
        ensures { result ≡ dump_on self.now.dumps interface }
    {
        self.dumps[interface as usize]
    }

    /// The rules that all filters share.
    pub fn rules(&self) -> &Rules
        ensures { result.now ≡ self.now.rows }
    {
        &self.rules
    }

    /// Whether the change can be made now.
    pub fn takes(&self, change: &Change) -> bool
        ensures { result ≡ takes self.now change.now }
    {
        self.count < CHANGES && self.fits(change)
    }

    /// Makes the change as the next publication; one that isn't taken changes nothing.
    pub fn absorb(&mut self, change: &Change)
        ensures { self.new ≡ applied self.old change.now }
    {
        if !self.takes(change) {
            return;
        }
        match *change {
            Change::Attach {
                interface,
                kind,
                priority,
                rank,
                mask,
                mode,
            } => {
                let number = self.count + 1;
                let member = Member {
                    priority,
                    rank,
                    number,
                    mask,
                    kind,
                };
                self.attach(interface, mode, member);
            }
            Change::Detach {
                interface,
                number,
                clear_rules,
            } => self.detach(interface, number, clear_rules),
            Change::DetachAll { interface } => self.detach_all(interface),
            Change::SetRule { key, flags } => self.set_rule(key, flags),
            Change::ClearRule { key, flags } => self.clear_rule(key, flags),
            Change::DumpOn { interface, setting } => self.set_dump(interface, Some(setting)),
            Change::DumpOff { interface } => self.set_dump(interface, None),
        }
    }

    /// Puts a member into the chain of its interface.
    fn attach(&mut self, interface: u32, mode: Mode, member: Member)
        requires known { interface < 8 }
        requires place { has_place self.old.members interface member.kind mode ≡ true }
        requires number { member.number ≡ self.old.count + 1 }
        requires count { self.old.count < 65536 }
        ensures { self.new ≡ record self.old {
          members = self.old.members ++ record { interface = interface; mode = mode; member = member } ∷ [];
          count = self.old.count + 1;
        } }
    {
        let hook = &mut self.hooks[interface as usize];
        let _ = hook.chain.insert(member);
        hook.mode = mode;
        self.count += 1;
    }

    /// Takes a member off its interface, and with `clear_rules` all rows.
    fn detach(&mut self, interface: u32, number: u32, clear_rules: bool)
        requires known { interface < 8 }
        requires count { self.old.count < 65536 }
        ensures { self.new ≡ record self.old {
          members = members_without self.old.members interface number;
          rows = if clear_rules then [] else self.old.rows;
          count = self.old.count + 1;
        } }
    {
        take_off(&mut self.hooks[interface as usize].chain, number);
        if clear_rules {
            self.rules.clear();
        }
        self.count += 1;
    }

    /// Takes all members off their interface.
    fn detach_all(&mut self, interface: u32)
        requires known { interface < 8 }
        requires count { self.old.count < 65536 }
        ensures { self.new ≡ record self.old { members = members_off self.old.members interface; count = self.old.count + 1 } }
    {
        self.hooks[interface as usize] = Hook::new();
        self.count += 1;
    }

    /// Sets flags in the row of the key, or makes it.
    fn set_rule(&mut self, key: RuleKey, flags: u8)
        requires place { (has_row self.old.rows key || nat_lt (length self.old.rows) 4096) ≡ true }
        requires count { self.old.count < 65536 }
        ensures { self.new ≡ record self.old { rows = set_rule self.old.rows key flags (self.old.count + 1); count = self.old.count + 1 } }
    {
        let _ = self.rules.add(key, flags, self.count + 1);
        self.count += 1;
    }

    /// Clears flags in the row of the key.
    fn clear_rule(&mut self, key: RuleKey, flags: u8)
        requires flags { has_own_flags key flags ≡ true }
        requires count { self.old.count < 65536 }
        ensures { self.new ≡ record self.old { rows = clear_rule self.old.rows key flags; count = self.old.count + 1 } }
    {
        let _ = self.rules.remove(key, flags);
        self.count += 1;
    }

    /// Turns the dump of an interface on or off.
    fn set_dump(&mut self, interface: u32, setting: Option<u32>)
        requires known { interface < 8 }
        requires count { self.old.count < 65536 }
        ensures { self.new ≡ record self.old { dumps = slice_set self.old.dumps interface setting; count = self.old.count + 1 } }
    {
        self.dumps[interface as usize] = setting;
        self.count += 1;
    }

    /// Whether there is a place for the change.
    fn fits(&self, change: &Change) -> bool
        ensures { result ≡ fits self.now change.now }
    {
        match *change {
            Change::Attach {
                interface,
                kind,
                mode,
                ..
            } => interface < INTERFACES && self.has_place(interface, kind, mode),
            Change::Detach { interface, .. }
            | Change::DetachAll { interface }
            | Change::DumpOff { interface } => interface < INTERFACES,
            Change::SetRule { key, flags } => {
                has_own_flags(key, flags) && (self.rules.len() < ROWS || self.rules.contains(key))
            }
            Change::ClearRule { key, flags } => has_own_flags(key, flags),
            Change::DumpOn { interface, .. } => {
                interface < INTERFACES && self.dump(interface).is_none()
            }
        }
    }

    /// Whether the interface has a place for one more member of this kind and mode.
    fn has_place(&self, interface: u32, kind: Kind, mode: Mode) -> bool
        requires { interface < 8 }
        ensures { result ≡ has_place self.now.members interface kind mode }
    {
        let chain = self.chain(interface);
        chain.len() < MEMBERS
            && !differs(self.mode(interface), mode)
            && !(is_filter(kind) && has_filter(chain))
    }
}

/// Whether these are some flags of the key's kind.
fn has_own_flags(key: RuleKey, flags: u8) -> bool
    ensures { result ≡ has_own_flags key flags }
{
    flags != 0 && flags <= key.kind.all_flags()
}

/// Hooks without members.
fn no_hooks(alloc: Global) -> Result<Vec<Hook>, OutOfMemory>
    ensures { IfOk result (λ hooks. hooks.items ≡ replicate 8 (record { chain = []; mode = Mode.Native })) }
{
    let mut hooks = Vec::with_capacity(alloc, INTERFACES as usize)?;
    for _ in 0..INTERFACES {
        hooks.push(Hook::new())?;
    }
    Ok(hooks)
}

/// Takes the member of a number out, where there is one.
fn take_off(chain: &mut Chain, number: u32)
    ensures members { chain.new ≡ without number chain.old }
    ensures chain { (members : List Member) → IsChain members chain.old → IsChain (without number members) chain.new }
{
    let _ = chain.remove(number);
}
