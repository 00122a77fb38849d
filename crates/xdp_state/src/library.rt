ghost use Rattle.std.specs.Prelude.{◌≡◌, ◌<◌, ◌≤◌, ◌^◌, All, [], ◌∷◌, ◌++◌, length, take, OnOk, OnErr};
ghost use Rattle.std.specs.Option.{option_copied};
ghost use Rattle.object_load.specs.Load.{IsRunnable};
ghost use Rattle.xdp_state.specs.Dump.{name_of};
ghost use Rattle.xdp_state.specs.Library.{IsSound, programs_in, programs_of, program_at};

use crate::dump::DumpList;
use crate::interface::InterfaceList;
use crate::names::FILTER_NAME;
use chain_order::Kind;
use lists::{Bytes, List, OutOfMemory};
use object_load::{LoadRefusal, Program, ProgramList};
use std::alloc::Global;

/// What commands name by numbers: the interfaces, the objects of the script in its order, and the settings of its dumps.
#[derive(Debug, Drop)]
pub struct Library {
    pub interfaces: InterfaceList,
    pub objects: ObjectList,
    pub dumps: DumpList,
}

pub type ObjectList = List<ObjectRow>;

/// An object, by the name of its file.
#[derive(Debug, Drop)]
pub struct ObjectRow {
    pub name: Bytes,
    pub loaded: Loaded,
}

/// What an object's bytes gave.
#[derive(Debug, Drop)]
pub enum Loaded {
    Programs(ProgramList),
    Refused(LoadRefusal),
}

impl Loaded {
    /// The programs; a refused object has none.
    pub(crate) fn programs(&self) -> &[Program]
        ensures { result.now ≡ programs_in self.now }
    {
        match self {
            Loaded::Programs(programs) => programs.as_slice(),
            Loaded::Refused(_) => &[],
        }
    }
}

impl Library {
    /// A library without objects.
    pub fn new(alloc: Global, interfaces: InterfaceList, dumps: DumpList) -> Self
        ensures library { result ≡ record { interfaces = interfaces; objects = []; dumps = dumps } }
        ensures sound { IsSound result }
    {
        Library {
            interfaces,
            objects: ObjectList::new(alloc),
            dumps,
        }
    }

    /// Puts an object behind the others, whose programs can be run. More than 2^32 - 1 programs find no room.
    pub fn add(&mut self, object: ObjectRow) -> Result<(), OutOfMemory>
        requires sound { IsSound self.old }
        requires runnable { All IsRunnable (programs_in object.loaded) }
        ensures ok { OnOk result (self.new ≡ record self.old { objects = self.old.objects ++ object ∷ [] }) }
        ensures sound { OnOk result (IsSound self.new) }
        ensures err { OnErr result (self.new ≡ self.old) }
    {
        let objects = self.objects.as_slice();
        let count = count_of(objects, objects.len());
        if count + object.loaded.programs().len() > u32::MAX as usize {
            return Err(OutOfMemory);
        }
        self.objects.push(object)
    }

    /// The program of a number among those of all objects, counted from 0.
    pub fn program(&self, number: u32) -> Option<&Program>
        ensures { option_copied result ≡ program_at self.now number }
    {
        let mut place = number as usize;
        for object in self.objects.as_slice() {
            let programs = object.loaded.programs();
            if place < programs.len() {
                return Some(&programs[place]);
            }
            place -= programs.len();
        }
        None
    }

    /// A member's name; a program that isn't here has the empty one.
    pub fn name_of(&self, member: Kind) -> &[u8]
        ensures { result.now ≡ name_of self.now member }
    {
        match member {
            Kind::Program(number) => match self.program(number) {
                Some(program) => program.name.as_slice(),
                None => &[],
            },
            Kind::Filter { .. } => FILTER_NAME,
        }
    }
}

/// How many programs the first objects have.
pub(crate) fn count_of(objects: &[ObjectRow], first: usize) -> usize
    requires objects { first ≤ length objects.now }
    requires few { length (programs_of objects.now) < 2 ^ 32 }
    ensures { result ≡ length (programs_of (take first objects.now)) }
{
    let mut count = 0;
    for object in &objects[..first] {
        count += object.loaded.programs().len();
    }
    count
}
