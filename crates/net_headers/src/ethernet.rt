//! The Ethernet header and the VLAN tags behind its addresses (IEEE 802.3, IEEE 802.1Q).

ghost use Rattle.std.specs.Prelude.{◌≡◌, ◌+◌, ◌≤◌, length};
ghost use Rattle.net_headers.specs.Ethernet.{is_tag, has_tag, tag_count, type_place, ether_type_of, has_cut_tag, packet_of};

use crate::bytes::u16_at;

/// The length of two addresses and a type.
pub const HEADER_LEN: usize = 14;

pub const TARGET: usize = 0;

pub const SOURCE: usize = 6;

const TYPE_LEN: usize = 2;

const TAG_LEN: usize = 4;

const MOST_TAGS: usize = 2;

const CUSTOMER_TAG: u16 = 0x8100;

const SERVICE_TAG: u16 = 0x88A8;

/// What a frame carries behind its addresses and tags.
#[derive(Clone, Copy, Debug, Drop)]
pub struct Payload<'a> {
    /// The type behind the tags that were passed.
    pub ether_type: u16,
    /// Whether that type begins a tag that isn't whole.
    pub has_cut_tag: bool,
    /// The bytes behind that type.
    pub packet: &'a [u8],
}

/// What stands behind the addresses and the tags that are passed.
#[tactic(auto, unfolding(crate::specs::Ethernet::ether_type_of, crate::specs::Ethernet::has_cut_tag, crate::specs::Ethernet::packet_of))]
pub fn read(frame: &[u8]) -> Payload<'_>
    requires { 14 ≤ length frame.now }
    ensures ether_type { result.ether_type ≡ ether_type_of frame.now }
    ensures cut { result.has_cut_tag ≡ has_cut_tag frame.now }
    ensures packet { result.packet.now ≡ packet_of frame.now }
{
    let tags = tag_count(frame);
    let place = type_place(tags);
    let ether_type = u16_at(frame, place);
    Payload {
        ether_type,
        has_cut_tag: is_tag(ether_type) && tags < MOST_TAGS,
        packet: &frame[place + TYPE_LEN..],
    }
}

/// How many tags are passed.
#[tactic(auto, unfolding(crate::specs::Ethernet::tag_count, crate::specs::Ethernet::has_tag))]
fn tag_count(frame: &[u8]) -> usize
    requires { 14 ≤ length frame.now }
    ensures count { result ≡ tag_count frame.now }
    ensures most { result ≤ 2 }
    ensures within { type_place result + 2 ≤ length frame.now }
{
    let mut tags = 0;
    while tags < MOST_TAGS && has_tag(frame, tags) {
        tags += 1;
    }
    tags
}

/// Whether another whole tag stands behind so many.
#[tactic(auto, unfolding(crate::specs::Ethernet::has_tag))]
fn has_tag(frame: &[u8], tags: usize) -> bool
    requires count { tags ≤ 2 }
    requires within { type_place tags + 2 ≤ length frame.now }
    ensures { result ≡ has_tag frame.now tags }
{
    let place = type_place(tags);
    is_tag(u16_at(frame, place)) && frame.len() >= place + TAG_LEN + TYPE_LEN
}

/// Where the type stands behind so many tags.
fn type_place(tags: usize) -> usize
    requires { tags ≤ 2 }
    ensures { result ≡ type_place tags }
{
    HEADER_LEN - TYPE_LEN + TAG_LEN * tags
}

#[tactic(auto, unfolding(crate::specs::Ethernet::is_tag))]
fn is_tag(ether_type: u16) -> bool
    ensures { result ≡ is_tag ether_type }
{
    matches!(ether_type, CUSTOMER_TAG | SERVICE_TAG)
}
