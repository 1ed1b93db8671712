//! The marks at the two ends of a guard.

ghost use Rattle.std.specs.Prelude.{◌≡◌};
ghost use Rattle.text.specs.Grammar.{ends};
ghost use Rattle.text.specs.Write.{mark_of};

use crate::draft::End;

/// A side of a guard.
#[derive(Clone, Copy, Debug, PartialEq, Eq)]
pub(crate) enum Side {
    Low,
    High,
}

/// Whether the guard has its end on this side, where the mark is one of this side. The project keeps the form of this `match`.
pub(crate) fn end_of(side: Side, mark: char) -> Option<End>
    ensures { result ≡ ends side mark }
{
    let (found, end) = match mark {
        '[' => (Side::Low, End::Shut),
        '(' => (Side::Low, End::Open),
        ']' => (Side::High, End::Shut),
        ')' => (Side::High, End::Open),
        _ => return None,
    };
    (found == side).then_some(end)
}

/// The mark of an end on this side.
pub(crate) fn mark_of(side: Side, end: End) -> u8
    ensures { result ≡ mark_of side end }
{
    match (side, end) {
        (Side::Low, End::Shut) => b'[',
        (Side::Low, End::Open) => b'(',
        (Side::High, End::Shut) => b']',
        (Side::High, End::Open) => b')',
    }
}
