//! Why a text is refused.

ghost use Rattle.std.specs.Prelude.{◌≡◌};
ghost use Rattle.text.specs.Fault.{number_of, layer_of, place_of};

use crate::limits::MAX_BYTES;

/// A refusal of this layer, with the byte at which it comes where it has a place.
#[derive(Clone, Copy, Debug, PartialEq, Eq)]
pub enum TextFault {
    /// The text has too many bytes.
    TooLong,
    /// A byte or a number that no text has.
    Malformed { at: usize },
    /// Another part than the one that is due, or the end.
    Unexpected { at: usize },
    /// A number outside its range.
    OutOfRange { at: usize },
    /// Something stands behind the last book.
    Trailing { at: usize },
    /// The buffer has too few places for the text.
    BufferTooShort,
}

impl TextFault {
    pub fn number(self) -> u8
        ensures { result ≡ number_of self }
    {
        match self {
            TextFault::TooLong => 10,
            TextFault::Malformed { .. } => 11,
            TextFault::Unexpected { .. } => 12,
            TextFault::OutOfRange { .. } => 13,
            TextFault::Trailing { .. } => 14,
            TextFault::BufferTooShort => 16,
        }
    }

    pub fn layer(self) -> &'static str
        ensures { result.now ≡ layer_of self }
    {
        "text"
    }

    pub fn place(self) -> Option<usize>
        ensures { result ≡ place_of self }
    {
        match self {
            TextFault::TooLong => Some(MAX_BYTES),
            TextFault::Malformed { at }
            | TextFault::Unexpected { at }
            | TextFault::OutOfRange { at }
            | TextFault::Trailing { at } => Some(at),
            TextFault::BufferTooShort => None,
        }
    }
}
