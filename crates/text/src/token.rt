//! The parts of a text.

ghost use Rattle.std.specs.Prelude.{◌≡◌};
ghost use Rattle.text.specs.Token.{is_of};

/// A part of a text. A word is lent from the text; a mark is one of `[ ( ] )` and the comma.
#[derive(Clone, Copy, Debug, PartialEq, Eq)]
pub enum Token<'a> {
    Word(&'a [u8]),
    Number(u16),
    Mark(u8),
    End,
}

/// What the bytes of a run have in common.
#[derive(Clone, Copy, Debug, PartialEq, Eq)]
pub enum Kind {
    Blank,
    Letter,
    Digit,
}

impl Kind {
    /// Whether the byte is of the kind.
    pub fn has(self, byte: u8) -> bool
        ensures { result ≡ is_of self byte }
    {
        match self {
            Kind::Blank => matches!(byte, b' ' | b'\n'),
            Kind::Letter => byte.is_ascii_lowercase(),
            Kind::Digit => byte.is_ascii_digit(),
        }
    }
}
