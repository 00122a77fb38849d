ghost use Rattle.std.specs.Prelude.{◌≡◌, ◌==◌, length, option_copied, IfOk};
ghost use Rattle.bpf_insn.specs.Code.{IsCode};
ghost use Rattle.bpf_machine.specs.Outcome.{outcome_of};
ghost use Rattle.object_load.specs.Load.{IsRunnable};
ghost use Rattle.run_config.specs.Maps.{specs_of};
ghost use Rattle.xdp_state.specs.Stores.{first_maps, program_of, same_specs, suits};

use crate::library::Library;
use bpf_machine::{Code, Env, Frame, RunEnd, Scratch, run};
use chain_order::{Kind, Member};
use lists::{List, OutOfMemory};
use map_store::{MapSpec, Store};
use object_load::Program;
use run_config::NamedMap;
use std::alloc::Global;
use std::marker::Model;

/// The maps of the member of a number, and what they were made of.
#[derive(Debug, Drop)]
pub(crate) struct MemberStore {
    number: u32,
    specs: List<MapSpec>,
    store: Store,
}

impl Model for MemberStore {
    ghost use Rattle.xdp_state.specs.Stores.{MemberMaps};
    ghost use Rattle.xdp_state.specs.StoreView.{view_of, HasEach};

    ghost Value = { MemberMaps };

    ghost view = { view_of };

    ghost invariant = { HasEach };
}

impl MemberStore {
    /// The maps that a program finds first.
    pub fn new(alloc: Global, number: u32, program: &Program) -> Result<Self, OutOfMemory>
        requires { IsRunnable program.now }
        ensures { IfOk result (λ store. store ≡ first_maps number program.now) }
    {
        let specs = copy_specs(alloc, program.maps.as_slice())?;
        let store = Store::new(alloc, specs.as_slice())?;
        Ok(MemberStore {
            number,
            specs,
            store,
        })
    }

    /// Whether it is of this number.
    pub fn is_of(&self, number: u32) -> bool
        ensures { result ≡ (self.now.number == number) }
    {
        self.number == number
    }

    /// Whether it is the member's, and was made for its program, where the library has that.
    pub fn suits(&self, library: &Library, member: &Member) -> bool
        ensures { result ≡ suits library.now member.now self.now }
    {
        self.number == member.number
            && match program_of(library, member) {
                Some(program) => same_specs(self.specs.as_slice(), program.maps.as_slice()),
                None => true,
            }
    }

    /// Runs a code on a packet, with these maps.
    pub fn run(
        &mut self,
        code: &Code,
        scratch: &mut Scratch,
        frame: &mut Frame,
        env: &Env,
    ) -> RunEnd
        requires code { IsCode code.now.insns }
        requires maps { length self.old.specs ≡ code.now.maps }
        ensures outcome { outcome_of code.now.insns env.now self.old.maps frame.old
            ≡ record { answer = result; maps = self.new.maps; packet = frame.new } }
        ensures same { self.new ≡ record self.old { maps = self.new.maps } }
    {
        run(code, scratch, &mut self.store, frame, env)
    }
}

/// The program that a member is, where the library has it.
pub(crate) fn program_of<'a>(library: &'a Library, member: &Member) -> Option<&'a Program>
    ensures { option_copied result ≡ program_of library.now member.now }
{
    match member.kind {
        Kind::Program(number) => library.program(number),
        Kind::Filter { .. } => None,
    }
}

fn copy_specs(alloc: Global, maps: &[NamedMap]) -> Result<List<MapSpec>, OutOfMemory>
    ensures { IfOk result (λ specs. specs ≡ specs_of maps.now) }
{
    let mut specs = List::new(alloc);
    for map in maps {
        specs.push(map.spec.copy(alloc)?)?;
    }
    Ok(specs)
}

/// Whether these are the specs of the maps.
fn same_specs(specs: &[MapSpec], maps: &[NamedMap]) -> bool
    ensures { result ≡ same_specs specs.now (specs_of maps.now) }
{
    if specs.len() != maps.len() {
        return false;
    }
    for place in 0..specs.len() {
        if !specs[place].equals(&maps[place].spec) {
            return false;
        }
    }
    true
}
