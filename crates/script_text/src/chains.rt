ghost use Rattle.std.specs.Prelude.{◌≡◌, ◌<◌, ◌≤◌, length, IfOk};
ghost use Rattle.script_text.specs.Chains.{chain_text, chains_text, interface_line, interface_text, member_line, members_text, mode_text};
ghost use Rattle.xio.specs.Printing.{Prints};

use crate::piece::{Piece, print_line};
use crate::vocabulary::mode_name;
use crate::word_lists::mask_print;
use std::alloc::Global;
use xdp_state::{Chain, Library, Member, Mode, State};
use xio::{Bytes, OutOfMemory, Printer};

/// The word of a mode, or `-` where there is no member.
fn mode_text(mode: Option<Mode>) -> &'static [u8]
    ensures { result.now ≡ mode_text mode }
{
    match mode {
        Some(mode) => mode_name(mode),
        None => b"-",
    }
}

/// Prints a member.
#[tactic(auto, unfolding(crate::specs::Chains::member_line), using(xio::proofs::PrintLemmas::printing))]
fn member_print<P: Printer>(
    printer: &mut P,
    library: &Library,
    member: &Member,
) -> Result<(), P::End>
    ensures { Prints P.tells P.counts (P.state printer.old) (P.state printer.new) (member_line library.now member.now) result }
{
    print_line(
        printer,
        &[
            Piece::Text(b"  "),
            Piece::Number(u128::from(member.priority)),
            Piece::Text(b" "),
            Piece::Text(library.name_of(member.kind)),
            Piece::Text(b" #"),
            Piece::Number(u128::from(member.number)),
            Piece::Text(b" "),
        ],
    )?;
    mask_print(printer, member.mask)?;
    printer.print(b"\n")
}

/// Prints the members of a chain, in the order in which they run.
fn members_print<P: Printer>(
    printer: &mut P,
    library: &Library,
    chain: &Chain,
) -> Result<(), P::End>
    ensures { Prints P.tells P.counts (P.state printer.old) (P.state printer.new) (members_text library.now chain.now) result }
{
    for place in 0..chain.len() {
        member_print(printer, library, chain.at(place))?;
    }
    Ok(())
}

/// Prints an interface's name and the mode of its members.
#[tactic(auto, unfolding(crate::specs::Chains::interface_line))]
fn mode_print<P: Printer>(printer: &mut P, name: &[u8], mode: Option<Mode>) -> Result<(), P::End>
    ensures { Prints P.tells P.counts (P.state printer.old) (P.state printer.new) (interface_line name.now mode) result }
{
    print_line(
        printer,
        &[
            Piece::Text(b"  "),
            Piece::Text(name),
            Piece::Text(b" "),
            Piece::Text(mode_text(mode)),
            Piece::Text(b"\n"),
        ],
    )
}

/// Prints the interface of a name and a number, with its members.
#[tactic(auto, unfolding(crate::specs::Chains::interface_text), using(xio::proofs::PrintLemmas::printing))]
fn interface_print<P: Printer>(
    printer: &mut P,
    state: &State,
    library: &Library,
    place: u32,
    name: &[u8],
) -> Result<(), P::End>
    requires { place < 8 }
    ensures { Prints P.tells P.counts (P.state printer.old) (P.state printer.new)
        (interface_text library.now state.now place name.now) result }
{
    mode_print(printer, name, state.mode(place))?;
    members_print(printer, library, state.chain(place))
}

/// Prints the table of `xdp-loader status` of one interface, behind its first line; of an interface that isn't declared nothing.
pub fn chain_print<P: Printer>(
    printer: &mut P,
    state: &State,
    library: &Library,
    interface: u32,
) -> Result<(), P::End>
    requires { length library.now.interfaces ≤ 8 }
    ensures { Prints P.tells P.counts (P.state printer.old) (P.state printer.new)
        (chain_text library.now state.now interface) result }
{
    if interface >= library.interfaces.len() {
        return Ok(());
    }
    let name = library.interfaces.at(interface).name.as_slice();
    interface_print(printer, state, library, interface, name)
}

/// Prints the table of `xdp-loader status` of all interfaces, behind its first line.
#[tactic(auto, unfolding(crate::specs::Chains::chains_text))]
pub fn chains_print<P: Printer>(
    printer: &mut P,
    state: &State,
    library: &Library,
) -> Result<(), P::End>
    requires { length library.now.interfaces ≤ 8 }
    ensures { Prints P.tells P.counts (P.state printer.old) (P.state printer.new) (chains_text library.now state.now) result }
{
    for place in 0..library.interfaces.len() {
        let interface = library.interfaces.at(place);
        interface_print(printer, state, library, place, interface.name.as_slice())?;
    }
    Ok(())
}

/// The table of `xdp-loader status` of one interface, behind its first line; of an interface that isn't declared nothing.
pub fn chain_text(
    alloc: Global,
    state: &State,
    library: &Library,
    interface: u32,
) -> Result<Bytes, OutOfMemory>
    requires { length library.now.interfaces ≤ 8 }
    ensures { IfOk result (λ text. text ≡ chain_text library.now state.now interface) }
{
    let mut text = Bytes::new(alloc);
    chain_print(&mut text, state, library, interface)?;
    Ok(text)
}
