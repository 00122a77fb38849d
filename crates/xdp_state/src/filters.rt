//! The filters among the members of chains.

ghost use Rattle.std.specs.Prelude.{◌≡◌, find, is_some, IfSome};
ghost use Rattle.std.specs.List.{list_any};
ghost use Rattle.xdp_state.specs.Members.{has_feature, has_filter, has_filter_elsewhere, has_filter_somewhere, filter_number, is_filter, is_on};

use crate::state::{INTERFACES, State};
use chain_order::{Chain, Kind, Member};

pub(crate) fn is_filter(kind: Kind) -> bool
    ensures { result ≡ is_filter kind }
{
    matches!(kind, Kind::Filter { .. })
}

pub(crate) fn has_filter(chain: &Chain) -> bool
    ensures { result ≡ has_filter chain.now }
{
    chain.members().any(|member| is_filter(member.kind))
}

/// The number of a chain's filter.
pub(crate) fn filter_in(chain: &Chain) -> Option<u32>
    ensures there { is_some result ≡ has_filter chain.now }
    ensures number { IfSome result (λ number. number ≡ filter_number chain.now) }
{
    let filter = first_filter(chain)?;
    Some(filter.number)
}

fn first_filter(chain: &Chain) -> Option<Member>
    ensures { result ≡ find (λ member. is_filter member.kind) chain.now }
{
    chain
        .members()
        .copied()
        .find(|member| is_filter(member.kind))
}

/// Whether some interface has a filter.
pub(crate) fn has_filter_somewhere(state: &State) -> bool
    ensures { result ≡ has_filter_somewhere state.now.members }
{
    for interface in 0..INTERFACES {
        if has_filter(state.chain(interface)) {
            return true;
        }
    }
    false
}

/// Whether an interface that isn't this one has a filter.
pub(crate) fn has_filter_elsewhere(state: &State, but: u32) -> bool
    ensures { result ≡ has_filter_elsewhere state.now.members but }
{
    for interface in 0..INTERFACES {
        if interface != but && has_filter(state.chain(interface)) {
            return true;
        }
    }
    false
}

/// Whether the feature is on in some filter.
pub(crate) fn is_on(state: &State, feature: u8) -> bool
    ensures { result ≡ is_on state.now.members feature }
{
    for interface in 0..INTERFACES {
        if has_feature(state.chain(interface), feature) {
            return true;
        }
    }
    false
}

/// Whether the feature is on in a chain's filter.
fn has_feature(chain: &Chain, feature: u8) -> bool
    ensures { result ≡ list_any (λ member. has_feature feature member.kind) chain.now }
{
    chain.members().any(|member| match member.kind {
        Kind::Program(_) => false,
        Kind::Filter { features, .. } => features & feature != 0,
    })
}
