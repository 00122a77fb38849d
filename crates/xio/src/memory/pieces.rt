ghost use Rattle.std.specs.Prelude.{◌≡◌, ◌+◌, ◌^◌, ◌<◌, ◌≤◌, length, min, drop, take, is_err, IfOk, IfSome};
ghost use Rattle.xio.specs.Pieces.{IsFrontOf, is_bad};

use crate::failed::Failed;

/// What a read at this place can take: the rest up to the bad place, at which a read fails.
pub fn piece_at(bytes: &[u8], place: u64, bad_place: Option<u64>) -> Result<&[u8], Failed>
    ensures fails { is_err result ≡ is_bad bad_place place }
    ensures front { IfOk result (λ piece. IsFrontOf piece.now (drop place bytes.now)) }
    ensures stops { IfOk result (λ piece. IfSome bad_place (λ bad. place ≤ bad → place + length piece.now ≤ bad)) }
    ensures fits { IfOk result (λ piece. place + length piece.now < 2 ^ 64) }
{
    let rest = rest_from(bytes, place);
    match bad_place {
        Some(bad) if place == bad => Err(Failed),
        Some(bad) if place < bad => Ok(front_of(rest, bad - place)),
        _ => Ok(rest),
    }
}

/// What stands from this place on.
pub fn rest_from(bytes: &[u8], place: u64) -> &[u8]
    ensures { result.now ≡ drop place bytes.now }
{
    if place < bytes.len() as u64 {
        &bytes[place as usize..]
    } else {
        &[]
    }
}

fn front_of(bytes: &[u8], most: u64) -> &[u8]
    ensures { result.now ≡ take most bytes.now }
{
    if most < bytes.len() as u64 {
        &bytes[..most as usize]
    } else {
        bytes
    }
}

/// Fills the front of the buffer from the piece and says how many bytes that took.
pub fn fill(buffer: &mut [u8], piece: &[u8]) -> usize
    ensures count { result ≡ min (length buffer.old) (length piece.now) }
    ensures filled { take result buffer.new ≡ take result piece.now }
{
    let count = buffer.len().min(piece.len());
    buffer[..count].copy_from_slice(&piece[..count]);
    count
}
