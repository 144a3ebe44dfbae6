//! The pieces of a proof, in the order of the positions. Serves `check_trace`; decided by `rise_from`, `begins` and
//! `goes_on`.
ghost use Rattle.std.specs.Prelude.{◌≡◌, ◌+◌, nat_lt, List as ListOf, option_copied};
ghost use Rattle.std.specs.List.{list_any};
ghost use Rattle.match_text.specs.declared.matched.Routed.{Routed};
ghost use Rattle.cert_checker.specs.inside.InHand.{AreLeft, TellsEnding};
ghost use Rattle.cert_checker.specs.Pieces.{begins, goes_on, is_in_any, rise_from};

use match_text::Routed;

/// Whether no piece ends before it begins, and each begins after the one before it ends.
pub fn pieces_rise(pieces: &[Routed]) -> bool
    ensures { result ≡ rise_from 0 pieces.now }
{
    let mut least: u64 = 0;
    for piece in pieces {
        if u64::from(piece.first) < least || piece.last < piece.first {
            return false;
        }
        least = u64::from(piece.last) + 1;
    }
    true
}

/// Whether one of the pieces that end at position i or later contains the position.
pub fn is_in_any(left: &[Routed], i: usize) -> bool
    ensures { (pieces : ListOf Routed) → AreLeft pieces left.now i → result ≡ is_in_any pieces i }
{
    match left.first() {
        Some(piece) => piece.first as usize <= i,
        None => false,
    }
}

/// Whether one of the pieces that end at position i or later begins with the position.
pub fn begins(left: &[Routed], i: usize) -> bool
    ensures { (pieces : ListOf Routed) → AreLeft pieces left.now i → result ≡ begins pieces i }
{
    match left.first() {
        Some(piece) => piece.first as usize == i,
        None => false,
    }
}

/// Whether the position is a later position of one of the pieces that end at position i or later.
pub fn goes_on(left: &[Routed], i: usize) -> bool
    ensures { (pieces : ListOf Routed) → AreLeft pieces left.now i → result ≡ goes_on pieces i }
{
    match left.first() {
        Some(piece) => (piece.first as usize) < i,
        None => false,
    }
}

/// The piece that ends with position i, where these end at i or later.
pub fn ending(left: &[Routed], i: usize) -> Option<&Routed>
    ensures { (pieces : ListOf Routed) → AreLeft pieces left.now i
        → TellsEnding pieces i (option_copied result) }
{
    match left.first() {
        Some(piece) if piece.last as usize == i => Some(piece),
        _ => None,
    }
}

/// The pieces that end after position i, where these end at i or later.
pub fn left_after(left: &[Routed], i: usize) -> &[Routed]
    ensures { (pieces : ListOf Routed) → AreLeft pieces left.now i
        → AreLeft pieces result.now (i + 1) }
{
    match left.first() {
        Some(piece) if piece.last as usize == i => &left[1..],
        _ => left,
    }
}

/// Whether one of these pieces ends after position i.
pub fn ends_after(left: &[Routed], i: usize) -> bool
    ensures { result ≡ list_any (λ q. nat_lt i q.last) left.now }
{
    left.iter().any(|piece| piece.last as usize > i)
}
