//! The run configuration of a function and the definitions of maps, from an object's BTF.
#![tactic(auto)]

mod config;
mod counted;
pub mod laws;
mod map_definition;
mod map_member;
mod maps;
mod named_map;
mod settings;
mod variables;

pub use config::{BadConfig, config_of};
pub use maps::maps_of;
pub use named_map::{MapsEnd, NamedMap, add_map};
pub use settings::RunConfig;
