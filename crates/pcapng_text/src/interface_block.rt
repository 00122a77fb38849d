ghost use Rattle.std.specs.Prelude.{◌≡◌, ◌%◌, ◌≤◌, not, is_some, IfOk, IfSome, length};
ghost use Rattle.pcapng_text.specs.Interface.{has_bad_option, interface_of, interface_rules, options_of, resolution_in};
ghost use Rattle.pcapng_text.specs.Rule.{first_broken, RefusesAs};

use crate::endian::Endian;
use crate::options::{are_inside, option_of, option_size};
use crate::rule::Rule;

const ETHERNET: u16 = 1;

const IF_TSRESOL: u16 = 9;

/// The unit of timestamps where an interface gives none.
const MICROSECONDS: u8 = 6;

/// What an interface block says for the packets of its interface.
#[derive(Clone, Copy, Debug, PartialEq, Eq)]
pub struct Interface {
    /// The most bytes that are captured of a packet; 0 is no limit.
    pub snap: u32,
    /// Timestamps count seconds divided by ten to this power.
    pub resolution: u8,
}

/// The unit of timestamps; `None` where an option is bad.
#[tactic(auto, unfolding(crate::specs::Interface::has_bad_option, crate::specs::Interface::resolution_in))]
fn read_resolution(endian: Endian, options: &[u8]) -> Option<u8>
    requires { length options.now % 4 ≡ 0 }
    ensures bad { is_some result ≡ not (has_bad_option endian options.now) }
    ensures value { IfSome result (λ resolution. resolution ≡ resolution_in endian options.now) }
{
    if !are_inside(endian, options) {
        return None;
    }
    match option_of(endian, IF_TSRESOL, options) {
        None => Some(MICROSECONDS),
        Some(unit) if option_size(endian, unit) == 1 => Some(unit[4]),
        Some(_) => None,
    }
}

#[tactic(auto, unfolding(crate::specs::Interface::options_of))]
fn options_of(block: &[u8]) -> &[u8]
    requires whole { 20 ≤ length block.now }
    requires even { length block.now % 4 ≡ 0 }
    ensures value { result.now ≡ options_of block.now }
    ensures even { length result.now % 4 ≡ 0 }
{
    &block[16..block.len() - 4]
}

/// An interface by its block.
#[tactic(auto, unfolding(crate::specs::Interface::interface_rules, crate::specs::Interface::interface_of))]
pub(crate) fn read_interface(endian: Endian, block: &[u8]) -> Result<Interface, Rule>
    requires { length block.now % 4 ≡ 0 }
    ensures rules { RefusesAs result (first_broken (interface_rules endian block.now)) }
    ensures value { IfOk result (λ interface. interface ≡ interface_of endian block.now) }
{
    if block.len() < 20 {
        return Err(Rule::ShortInterface);
    }
    if endian.u16_at(block, 8) != ETHERNET {
        return Err(Rule::LinkType);
    }
    let Some(resolution) = read_resolution(endian, options_of(block)) else {
        return Err(Rule::BadOption);
    };
    if resolution >= 128 {
        return Err(Rule::BinaryResolution);
    }
    Ok(Interface {
        snap: endian.u32_at(block, 12),
        resolution,
    })
}
