//! Numbers in decimal.

ghost use Rattle.std.specs.Prelude.{◌≡◌, ◌≤◌, length, decimal};

use arrayvec::ArrayString;
use itoa::Buffer;

// The most digits of a number of 64 bits.
const MOST: usize = 20;

/// The digits that write a number, with no needless 0 before it.
#[derive(Clone, Copy, Debug, PartialEq, Eq)]
pub struct Digits {
    text: ArrayString<MOST>,
    ghost short: { length text.bytes ≤ 20 },
}

impl Digits {
    /// The digits of a number.
    pub fn of(n: u64) -> Digits
        ensures { result.text.bytes ≡ decimal n }
    {
        let mut text = ArrayString::new();
        text.push_str(Buffer::new().format(n));
        Digits { text }
    }

    /// The digits as a text.
    pub fn as_str(&self) -> &str
        ensures value { result.now ≡ self.now.text.bytes }
        ensures short { length result.now ≤ 20 }
    {
        self.text.as_str()
    }

    /// The digits as bytes.
    pub fn as_bytes(&self) -> &[u8]
        ensures value { result.now ≡ self.now.text.bytes }
        ensures short { length result.now ≤ 20 }
    {
        self.as_str().as_bytes()
    }
}
