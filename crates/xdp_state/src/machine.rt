ghost use Rattle.std.specs.Prelude.{◌≡◌, ◌==◌, ◌≤◌, ◌+◌, [], ◌++◌, position, vec_capacity, vec_len, IfOk, OnOk, OnErr};
ghost use Rattle.std.specs.List.{list_any};
ghost use Rattle.bpf_insn.specs.Code.{IsCode};
ghost use Rattle.bpf_machine.specs.Outcome.{outcome_of};
ghost use Rattle.chain_order.specs.Ordered.{IsOrdered};
ghost use Rattle.xdp_state.specs.Library.{IsSound};
ghost use Rattle.xdp_state.specs.Stores.{AreReady, HasMaps, entering, entering_as, maps_of, prepared, program_of, staying, suits, with_maps};

use crate::library::Library;
use crate::member_store::{MemberStore, program_of};
use bpf_machine::{Code, Env, Frame, RunEnd, Scratch};
use chain_order::{Chain, Member};
use std::alloc::Global;
use xio::OutOfMemory;

/// What runs programs on one processor: the maps of each member, and one frame and one scratch for all.
#[derive(Debug, Drop)]
pub(crate) struct Machine {
    pub stores: Vec<MemberStore>,
    pub frame: Frame,
    pub scratch: Scratch,
}

impl Machine {
    /// A machine without maps.
    pub fn new(alloc: Global) -> Result<Self, OutOfMemory>
        ensures { IfOk result (λ machine. machine.stores.items ≡ []) }
    {
        Ok(Machine {
            stores: Vec::new(alloc),
            frame: Frame::new(alloc)?,
            scratch: Scratch::new(alloc)?,
        })
    }

    /// Makes the maps of programs that have none, and drops those that no member needs.
    pub fn prepare(&mut self, library: &Library, chain: &Chain) -> Result<(), OutOfMemory>
        requires { IsSound library.now }
        ensures stores { OnOk result (self.new.stores.items ≡ prepared library.now chain.now self.old.stores.items) }
        ensures ready { OnOk result (AreReady library.now self.new.stores.items chain.now) }
        ensures err { OnErr result (self.new.stores.items ≡ self.old.stores.items) }
        ensures frame { self.new.frame ≡ self.old.frame }
    {
        let made = entering(*self.stores.allocator(), library, chain, &self.stores)?;
        self.stores.reserve(made.len())?;
        keep_staying(&mut self.stores, library, chain);
        append(&mut self.stores, made);
        Ok(())
    }

    /// Runs the code of the member of a number on the packet in the frame, with the member's maps.
    pub fn run(&mut self, number: u32, code: &Code, env: &Env) -> RunEnd
        requires code { IsCode code.now.insns }
        requires maps { HasMaps self.old.stores.items number code.now.maps }
        ensures outcome { outcome_of code.now.insns env.now (maps_of self.old.stores.items number) self.old.frame
            ≡ record { answer = result; maps = maps_of self.new.stores.items number; packet = self.new.frame } }
        ensures stores { self.new.stores.items
            ≡ with_maps self.old.stores.items number (maps_of self.new.stores.items number) }
    {
        match place_of(&self.stores, number) {
            Some(place) => self.stores[place].run(code, &mut self.scratch, &mut self.frame, env),
            None => unreachable!(),
        }
    }
}

/// The place of the first that is of this number.
fn place_of(stores: &[MemberStore], number: u32) -> Option<usize>
    ensures { result ≡ position (λ entry. entry.number == number) stores.now }
{
    stores.iter().position(|store| store.is_of(number))
}

/// Puts some behind the others, for which there is room.
fn append(stores: &mut Vec<MemberStore>, more: Vec<MemberStore>)
    requires { vec_len stores.old + vec_len more ≤ vec_capacity stores.old }
    ensures { stores.new.items ≡ stores.old.items ++ more.items }
{
    for store in more {
        stores.push_reserved(store);
    }
}

/// The maps, as they are at first, of each program of the chain that none of these suits. Its members have different numbers.
fn entering(
    alloc: Global,
    library: &Library,
    chain: &Chain,
    stores: &[MemberStore],
) -> Result<Vec<MemberStore>, OutOfMemory>
    requires { IsSound library.now }
    ensures made { IfOk result (λ made. made.items ≡ entering library.now chain.now stores.now) }
    ensures ordered { IsOrdered chain.now }
{
    let mut made = Vec::new(alloc);
    for place in 0..chain.len() {
        if let Some(store) = entering_for(alloc, library, chain.at(place), stores)? {
            made.push(store)?;
        }
    }
    Ok(made)
}

/// The maps for a member, if it is a program that none of these suits.
fn entering_for(
    alloc: Global,
    library: &Library,
    member: &Member,
    stores: &[MemberStore],
) -> Result<Option<MemberStore>, OutOfMemory>
    requires { IsSound library.now }
    ensures { IfOk result (λ made. made ≡ entering_as library.now stores.now member.now (program_of library.now member.now)) }
{
    match program_of(library, member) {
        Some(program) if !has_suiting(stores, library, member) => {
            Ok(Some(MemberStore::new(alloc, member.number, program)?))
        }
        Some(_) | None => Ok(None),
    }
}

/// Whether one of these suits the member.
fn has_suiting(stores: &[MemberStore], library: &Library, member: &Member) -> bool
    ensures { result ≡ list_any (suits library.now member.now) stores.now }
{
    stores.iter().any(|store| store.suits(library, member))
}

/// Keeps those that suit some member of the chain.
fn keep_staying(stores: &mut Vec<MemberStore>, library: &Library, chain: &Chain)
    ensures stores { stores.new.items ≡ staying library.now chain.now stores.old.items }
    ensures len { vec_len stores.new ≤ vec_len stores.old }
    ensures room { vec_capacity stores.new ≡ vec_capacity stores.old }
{
    stores.retain(|store| suits_one(store, library, chain));
}

/// Whether it suits some member of the chain.
fn suits_one(store: &MemberStore, library: &Library, chain: &Chain) -> bool
    ensures { result ≡ list_any (λ member. suits library.now member store.now) chain.now }
{
    chain.members().any(|member| store.suits(library, member))
}
