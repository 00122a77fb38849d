//! The run configuration of a function.

ghost use Rattle.std.specs.Prelude.{◌≡◌, ◌≤◌, ◌↔◌, ◌++◌, codes, length, Some, Result, IfSome, MatchResult, option_copied};
ghost use Rattle.std.specs.Str.{bytes_eq};
ghost use Rattle.btf_types.specs.declared.types.TypeRow.{TypeRow};
ghost use Rattle.btf_types.specs.TypeTable.{name_at, RowFits};
ghost use Rattle.run_config.specs.declared.settings.RunConfig.{RunConfig};
ghost use Rattle.run_config.specs.declared.config.BadConfig.{BadConfig};
ghost use Rattle.run_config.specs.Config as configs;
ghost use Rattle.run_config.specs.Variables.{parts_of};

use crate::settings::{RunConfig, read_setting};
use crate::variables::{part_at, section_of, variable_of};
use btf_types::{TypeRow, Types, kind};

/// The place of the first member of a configuration that sets nothing; 0 where it is no structure.
#[derive(Clone, Copy, Debug, PartialEq, Eq)]
pub struct BadConfig {
    pub member: u32,
}

/// Whether a variable is named by an underscore and the function's name.
#[tactic(auto, using(crate::proofs::Fronts::named_for))]
fn is_named_for(types: &Types, variable: &TypeRow, function: &[u8]) -> bool
    requires { RowFits types.now variable.now }
    ensures { result ≡ bytes_eq (name_at types.now variable.now.name) (codes "_" ++ function.now) }
{
    match types
        .name_front(variable.name, function.len() + 2)
        .split_first()
    {
        Some((first, name)) => *first == b'_' && name == function,
        None => false,
    }
}

/// The variable of a function's configuration.
#[tactic(auto, unfolding(crate::specs::Config::config_variable, crate::specs::Variables::variables))]
fn config_variable<'a>(types: &'a Types, function: &[u8]) -> Option<&'a TypeRow>
    ensures variable { option_copied result ≡ configs.config_variable types.now function.now }
    ensures target { IfSome result (λ variable. variable.now.size_or_target ≤ length types.now.rows) }
{
    let section = section_of(types, b".xdp_run_config")?;
    for place in 0..section.count {
        let Some(variable) = variable_of(types, part_at(types, section, place)) else {
            continue;
        };
        if is_named_for(types, variable, function) {
            return Some(variable);
        }
    }
    None
}

/// The structure that a type is, through modifiers.
fn structure_of(types: &Types, number: u32) -> Option<&TypeRow>
    requires { number ≤ length types.now.rows }
    ensures structure { (structure : TypeRow)
        → (option_copied result ≡ Some structure) ↔ configs.IsStructure types.now number structure }
    ensures fits { IfSome result (λ structure. RowFits types.now structure.now) }
{
    let row = types.resolve(number)?;
    (row.kind == kind::STRUCT).then_some(row)
}

/// What the members of a configuration set, or the first of them that sets nothing.
fn read_config(types: &Types, structure: &TypeRow) -> Result<RunConfig, BadConfig>
    requires { RowFits types.now structure.now }
    ensures { MatchResult result
        (configs.HasSettings types.now (parts_of types.now structure.now))
        (λ bad. configs.IsFirstBad types.now (parts_of types.now structure.now) bad.member) }
{
    let mut config = RunConfig::default_config();
    for place in 0..structure.count {
        let Some((setting, value)) = read_setting(types, part_at(types, structure, place)) else {
            return Err(BadConfig { member: place });
        };
        config = config.with(setting, value);
    }
    Ok(config)
}

/// The run configuration of a function. It takes no memory.
pub fn config_of(types: &Types, function: &[u8]) -> Result<RunConfig, BadConfig>
    ensures { (answer : Result RunConfig BadConfig)
        → (result ≡ answer) ↔ configs.IsConfig types.now function.now answer }
{
    let Some(variable) = config_variable(types, function) else {
        return Ok(RunConfig::default_config());
    };
    let Some(structure) = structure_of(types, variable.size_or_target) else {
        return Err(BadConfig { member: 0 });
    };
    read_config(types, structure)
}
