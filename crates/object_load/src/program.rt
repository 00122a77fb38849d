//! What an object is loaded for.

use bpf_machine::Code;
use lists::{Bytes, List};
use run_config::{NamedMap, RunConfig};

/// A program of an object, as a machine runs it.
#[derive(Debug, Drop)]
pub struct Program {
    pub name: Bytes,
    /// The name of its section.
    pub section: Bytes,
    pub config: RunConfig,
    pub code: Code,
    /// The maps of its object: those of `.maps`, and behind them one for each section of constants.
    pub maps: List<NamedMap>,
}

pub type ProgramList = List<Program>;
