//! A device in pieces.
ghost use Rattle.std.specs.Prelude.{◌≡◌, ◌↔◌, ◌≤◌, ◌+◌, ◌*◌, IfSome, IsSome};
ghost use Rattle.hpb_house.specs.Pieces.{IsPiece};

/// The first byte of a piece of a device, and how many bytes it has.
#[derive(Clone, Copy)]
pub(crate) struct Piece {
    pub(crate) at: usize,
    pub(crate) len: usize,
}

/// The piece with this number of a device of `device` bytes, or `None` if there is none. Pieces are numbered from 0,
/// and each has `most` bytes; the last one may have fewer.
pub(crate) fn find_piece(device: usize, most: usize, number: usize) -> Option<Piece>
    ensures found { IsSome result ↔ IsPiece device most number }
    ensures at { IfSome result (λ piece. piece.at ≡ number * most) }
    ensures within { IfSome result (λ piece. (piece.len ≤ most) × (piece.at + piece.len ≤ device)) }
{
    let at = number.checked_mul(most)?;
    let left = device.checked_sub(at)?;
    let len = left.min(most);
    if len == 0 {
        return None;
    }
    Some(Piece { at, len })
}
