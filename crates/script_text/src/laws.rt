//! What is printed reads back: laws of the definitions, each the contract of a call that does nothing.

ghost use Rattle.std.specs.Prelude.{◌≡◌, ℕ, ◌+◌, ◌*◌, ◌^◌, ◌<◌, true, List, [], ◌∷◌, length, map, Some, Ok};
ghost use Rattle.std.specs.Fmt.{decimal};
ghost use Rattle.hex.specs.Hex.{IsBytes, encode_lower};
ghost use Rattle.script_text.specs.Addresses.{group_of, octets_of};
ghost use Rattle.script_text.specs.Filter.{direction_flags, protocol_flags};
ghost use Rattle.script_text.specs.Frames.{has_frame_size, frame_of};
ghost use Rattle.script_text.specs.Lists.{bits_end, bits_of, directions_of, list_text, protocols_of};
ghost use Rattle.script_text.specs.Numbers.{number_of};
ghost use Rattle.script_text.specs.Trace.{whole_trace};
ghost use Rattle.script_text.specs.TraceRead.{AreTraceableIn, counts_in, trace_read};
ghost use Rattle.script_text.specs.declared.vocabulary.BitNames.{BitNames};
ghost use Rattle.script_text.specs.declared.vocabulary.BitNames.TheVariants.{Features, AddressFlags};
ghost use Rattle.script_text.specs.declared.word_lists.Directions.{Directions};
ghost use Rattle.script_text.specs.declared.word_lists.Protocols.{Protocols};
ghost use Rattle.xdp_state.specs.declared.carried.Carried.{Carried};

/// A number in decimal digits; a frame, a byte and a group of two bytes in hexadecimal ones; a list of names, also where it
/// stands for directions or protocols; and a trace, as the counts of its packets.
pub fn reads_back()
    ensures numbers { (number : ℕ) → number < 2 ^ 64 → number_of (decimal number) ≡ Some number }
    ensures frames { (frame : List ℕ) → IsBytes frame → has_frame_size frame ≡ true → frame_of (encode_lower frame) ≡ Some frame }
    ensures octets { (octet : ℕ) → octet < 256 → octets_of (encode_lower (octet ∷ [])) ≡ Some (octet ∷ []) }
    ensures groups { (high low : ℕ) → high < 256 → low < 256 → group_of (encode_lower (high ∷ low ∷ [])) ≡ Some (high * 256 + low) }
    ensures lists { (names : BitNames) (bits : ℕ) → 0 < bits → bits < bits_end names → bits_of names (list_text names bits) ≡ Some bits }
    ensures directions { (d : Directions) → directions_of (list_text AddressFlags (direction_flags d)) ≡ Some d }
    ensures protocols { (p : Protocols) → protocols_of (list_text Features (protocol_flags p)) ≡ Some p }
    ensures traces { (phases : List (List (List Carried))) → length phases < 2 ^ 32 → AreTraceableIn phases
        → trace_read (whole_trace phases) ≡ Ok (map counts_in phases) }
{}
