//! The names that programs may have.

ghost use Rattle.std.specs.Prelude.{◌≡◌};
ghost use Rattle.std.specs.List.{list_all};
ghost use Rattle.object_load.specs.Symbols as names;

/// Whether a byte may stand in a program's name.
#[tactic(auto, unfolding(crate::specs::Symbols::is_name_byte))]
fn is_name_byte(byte: u8) -> bool
    ensures { result ≡ names.is_name_byte byte }
{
    byte.is_ascii_alphanumeric() || byte == b'_' || byte == b'.' || byte == b'$'
}

fn has_name_bytes(name: &[u8]) -> bool
    ensures { result ≡ list_all names.is_name_byte name.now }
{
    name.iter().all(|byte| is_name_byte(*byte))
}

/// Whether a program may have this name.
#[tactic(auto, unfolding(crate::specs::Symbols::is_program_name))]
pub(crate) fn is_program_name(name: &[u8]) -> bool
    ensures { result ≡ names.is_program_name name.now }
{
    !name.is_empty() && name.len() <= 128 && has_name_bytes(name)
}
