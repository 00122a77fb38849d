//! The types of an object, and the run configurations of its programs.

ghost use Rattle.std.specs.Prelude.{All, IfOk};
ghost use Rattle.object_load.specs.Reading.{Answers, Is};
ghost use Rattle.object_load.specs.Symbols.{IsProgram};
ghost use Rattle.object_load.specs.Types as of_object;

use crate::drafts::Function;
use crate::refusal::{LoadEnd, LoadRefusal};
use crate::sections::section_named;
use btf_types::{Types, read_btf};
use elf_objects::Object;
use lists::List;
use run_config::{BadConfig, RunConfig, config_of};
use std::alloc::Global;

/// The configuration of a function that has none: priority 50, and the chain goes on after XDP_PASS.
const DEFAULT_CONFIG: RunConfig = RunConfig {
    priority: 50,
    mask: 4,
};

/// The types of an object that has a section of types.
pub(crate) fn types_in(alloc: Global, object: &Object<'_>) -> Result<Option<Types>, LoadEnd>
    ensures { Answers (Is (of_object.types_in object.now)) result }
{
    let Some(number) = section_named(object, b".BTF") else {
        return Ok(None);
    };
    let types = read_btf(alloc, object.content(number))?;
    Ok(Some(types))
}

/// The configuration of a function.
fn config_for(types: &Option<Types>, name: &[u8]) -> Result<RunConfig, BadConfig>
    ensures { of_object.HasConfig types.now name.now result }
{
    match types {
        Some(types) => config_of(types, name),
        None => Ok(DEFAULT_CONFIG),
    }
}

/// The functions of symbols, with their configurations.
#[tactic(auto, using(crate::proofs::Counts::symbols_counted))]
pub(crate) fn make_functions(
    alloc: Global,
    object: &Object<'_>,
    types: &Option<Types>,
    indexes: &[u32],
) -> Result<List<Function>, LoadEnd>
    requires { All (IsProgram object.now) indexes.now }
    ensures functions { Answers (of_object.AreFunctions object.now types.now indexes.now) result }
    ensures programs { IfOk result (All (λ function. IsProgram object.now function.symbol)) }
{
    let mut functions = List::new(alloc);
    for index in indexes {
        let config = match config_for(types, object.symbol_name(*index)) {
            Ok(config) => config,
            Err(bad) => {
                return Err(LoadEnd::Refused(LoadRefusal::BadConfig { member: bad.member }));
            }
        };
        functions.push(Function {
            symbol: *index,
            config,
        })?;
    }
    Ok(functions)
}
