ghost use Rattle.std.specs.Prelude.{◌≡◌, position};
ghost use Rattle.xdp_state.specs.Interfaces.{has_name, interface_named};
ghost use Rattle.xdp_tool.specs.Table.{table_of};

use xdp_state::{Command, Interface, InterfaceList, Library};

/// What a status command shows.
#[derive(Clone, Copy, Debug, PartialEq, Eq)]
pub enum Table {
    /// The filters, their rules and the sums of packets.
    Rules,
    /// The members of the interface of this number.
    Chain { interface: u32 },
    /// The members of all interfaces.
    Chains,
}

/// The table of a status command; no other command is shown.
#[tactic(auto, unfolding(crate::specs::Table::table_of))]
pub fn table_of(library: &Library, command: &Command) -> Table
    ensures { result ≡ table_of library.now command.now }
{
    match command {
        Command::LoaderStatus { interface: None } => Table::Chains,
        Command::LoaderStatus {
            interface: Some(name),
        } => Table::Chain {
            interface: place_of(&library.interfaces, name.as_slice()),
        },
        _ => Table::Rules,
    }
}

/// The number of the interface of this name, or how many there are.
#[tactic(auto, using(crate::proofs::Places::placed))]
fn place_of(interfaces: &InterfaceList, name: &[u8]) -> u32
    ensures { result ≡ interface_named interfaces.now name.now }
{
    match named(interfaces.as_slice(), name) {
        Some(place) => {
            prove!(place < interfaces.len() as usize);
            place as u32
        }
        None => interfaces.len(),
    }
}

fn named(interfaces: &[Interface], name: &[u8]) -> Option<usize>
    ensures { result ≡ position (has_name name.now) interfaces.now }
{
    interfaces
        .iter()
        .position(|interface| interface.name.as_slice() == name)
}
