//! Laws of the definitions, each the contract of a call that does nothing.

ghost use Rattle.std.specs.Prelude.{◌≡◌, ◌<◌, ◌≤◌, ◌++◌, ℕ, List, length, slice_index, IsFalse};
ghost use Rattle.std.specs.List.{concat};
ghost use Rattle.net_headers.specs.Ethernet.{tag_count, has_cut_tag, IsTag};
ghost use Rattle.net_headers.specs.Headers.{headers_of, IsComplete};
ghost use Rattle.net_headers.specs.Ipv6.{ipv6_ports, is_extension, IsChain};
ghost use Rattle.net_headers.specs.Transport.{transport_ports};

/// What stands behind the headers of a frame changes none of its fields.
pub fn longer_frame()
    ensures { (frame more : List ℕ) → 14 ≤ length frame → IsComplete (headers_of frame)
        → headers_of (frame ++ more) ≡ headers_of frame }
{}

/// A VLAN tag put behind the addresses of a frame changes none of its fields, where at most one whole tag is there.
pub fn tagged_frame()
    ensures { (addresses tag rest : List ℕ) → length addresses ≡ 12 → IsTag tag → 2 ≤ length rest
        → tag_count (addresses ++ rest) < 2 → IsFalse (has_cut_tag (addresses ++ rest))
        → headers_of (addresses ++ tag ++ rest) ≡ headers_of (addresses ++ rest) }
{}

/// Behind at most six extension headers stands what the last one announces, and it has the ports.
pub fn extended_packet()
    ensures { (header : List ℕ) (extensions : List (List ℕ)) (protocol : ℕ) (payload : List ℕ)
        → length header ≡ 40 → length extensions ≤ 6 → IsChain (slice_index header 6) extensions protocol
        → IsFalse (is_extension protocol)
        → ipv6_ports (header ++ concat extensions ++ payload) ≡ transport_ports protocol payload }
{}
