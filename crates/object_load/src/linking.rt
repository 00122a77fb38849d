//! Programs whose code is linked.

ghost use Rattle.std.specs.Prelude.{◌≡◌, ◌≤◌, ◌+◌, ◌*◌, ◌%◌, All, length, IfOk};
ghost use Rattle.map_store.specs.Initial.{AreMakeable};
ghost use Rattle.run_config.specs.Maps.{specs_of};
ghost use Rattle.object_load.specs.Code.{IsReady};
ghost use Rattle.object_load.specs.KnownMaps.{AreKnown};
ghost use Rattle.object_load.specs.Layout.{IsLayout};
ghost use Rattle.object_load.specs.Linking as of_code;
ghost use Rattle.object_load.specs.Load as of_object;
ghost use Rattle.object_load.specs.Reading.{Answers, AnswersAt};

use crate::copying::{append, copy};
use crate::drafts::{Draft, program_symbol};
use crate::fixes::fix_all;
use crate::known_maps::KnownMaps;
use crate::layout::Layout;
use crate::pieces::{Piece, relocs_for};
use crate::program::{Program, ProgramList};
use crate::refusal::{LoadEnd, LoadRefusal, SlotEnd};
use crate::strays::{first_stray, fixed_slots};
use bpf_insn::{Insn, InsnList};
use bpf_machine::Code;
use elf_objects::{Object, Symbol};
use lists::{List, OutOfMemory};
use run_config::NamedMap;
use std::alloc::Global;

/// The linked code of a function.
fn linked(
    alloc: Global,
    object: &Object<'_>,
    layout: &Layout,
    maps: &[NamedMap],
    symbol: Symbol,
    insns: &[Insn],
    known: &mut KnownMaps,
) -> Result<InsnList, SlotEnd>
    requires known { AreKnown object.now maps.now known.old }
    requires layout { IsLayout object.now layout.now }
    requires makeable { AreMakeable (specs_of maps.now) }
    requires few { length layout.now.constants ≤ length maps.now }
    requires slots { symbol.size % 8 ≡ 0 }
    requires small { symbol.size + layout.now.text_size ≤ 8 * 65536 }
    ensures linked { AnswersAt (λ answer. answer ≡ of_code.linked object.now maps.now symbol insns.now) result }
    ensures known { AreKnown object.now maps.now known.new }
{
    let own = (symbol.size / 8) as u32;
    let function = Piece::Own {
        first: symbol.value,
        size: symbol.size,
    };
    let text = Piece::Text {
        start: symbol.size,
        size: layout.text_size,
    };
    let relocs = relocs_for(alloc, object, u32::from(symbol.section))?;
    let mut code = List::new(alloc);
    append(&mut code, insns)?;
    if let Err(slot) = fix_all(
        object,
        layout,
        maps,
        own,
        function,
        relocs.as_slice(),
        known,
        &mut code,
    ) {
        return Err(SlotEnd::Bad { slot });
    }
    if let Err(slot) = fix_all(
        object,
        layout,
        maps,
        own,
        text,
        layout.text_relocs.as_slice(),
        known,
        &mut code,
    ) {
        return Err(SlotEnd::Bad { slot });
    }
    let marks = fixed_slots(alloc, function, relocs.as_slice(), own)?;
    match first_stray(marks.as_slice(), &code, own) {
        Some(slot) => Err(SlotEnd::Bad { slot }),
        None => Ok(code),
    }
}

fn copy_map(alloc: Global, map: &NamedMap) -> Result<NamedMap, OutOfMemory>
    ensures { IfOk result (λ copied. copied ≡ map.now) }
{
    let name = copy(alloc, map.name.as_slice())?;
    let spec = map.spec.copy(alloc)?;
    Ok(NamedMap { name, spec })
}

fn copy_maps(alloc: Global, maps: &[NamedMap]) -> Result<List<NamedMap>, OutOfMemory>
    ensures { IfOk result (λ copied. copied ≡ maps.now) }
{
    let mut copied = List::new(alloc);
    for map in maps {
        copied.push(copy_map(alloc, map)?)?;
    }
    Ok(copied)
}

/// The program of a draft.
#[tactic(auto, using(crate::proofs::Counts::symbols_counted))]
fn make_program(
    alloc: Global,
    object: &Object<'_>,
    layout: &Layout,
    maps: &[NamedMap],
    draft: &Draft,
    known: &mut KnownMaps,
) -> Result<Program, SlotEnd>
    requires known { AreKnown object.now maps.now known.old }
    requires ready { IsReady object.now draft.now }
    requires layout { IsLayout object.now layout.now }
    requires makeable { AreMakeable (specs_of maps.now) }
    requires few { length layout.now.constants ≤ length maps.now }
    ensures program { AnswersAt (λ answer. answer ≡ of_code.program_of object.now maps.now draft.now) result }
    ensures known { AreKnown object.now maps.now known.new }
{
    let symbol = program_symbol(object, draft.function.symbol);
    let insns = linked(
        alloc,
        object,
        layout,
        maps,
        symbol,
        draft.insns.as_slice(),
        known,
    )?;
    let name = copy(alloc, object.symbol_name(draft.function.symbol))?;
    let section = copy(alloc, object.section_name(u32::from(symbol.section)))?;
    let maps = copy_maps(alloc, maps)?;
    let code = Code {
        insns,
        maps: maps.len(),
    };
    Ok(Program {
        name,
        section,
        config: draft.function.config,
        code,
        maps,
    })
}

/// The programs of drafts.
pub(crate) fn make_programs(
    alloc: Global,
    object: &Object<'_>,
    layout: &Layout,
    maps: &[NamedMap],
    drafts: &[Draft],
) -> Result<ProgramList, LoadEnd>
    requires ready { All (IsReady object.now) drafts.now }
    requires layout { IsLayout object.now layout.now }
    requires makeable { AreMakeable (specs_of maps.now) }
    requires few { length layout.now.constants ≤ length maps.now }
    ensures programs { Answers (of_object.ArePrograms object.now maps.now drafts.now) result }
    ensures runnable { IfOk result (All of_object.IsRunnable) }
{
    let mut known = KnownMaps::new(alloc, object)?;
    let mut programs = List::new(alloc);
    for draft in drafts {
        let program = match make_program(alloc, object, layout, maps, draft, &mut known) {
            Ok(program) => program,
            Err(SlotEnd::Bad { slot }) => {
                return Err(LoadEnd::Refused(LoadRefusal::BadReloc {
                    program: programs.len(),
                    index: slot,
                }));
            }
            Err(SlotEnd::OutOfMemory) => return Err(LoadEnd::OutOfMemory),
        };
        programs.push(program)?;
    }
    Ok(programs)
}
