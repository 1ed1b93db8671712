//! From bytes to tokens with their places.

ghost use Rattle.std.specs.Prelude.{◌≡◌, ◌+◌, ◌-◌, ◌≤◌, length, drop, OnErr};
ghost use Rattle.std.specs.List.{prefix_len};
ghost use Rattle.text.specs.Token.{is_of, is_mark, run, numeral as numeral_of, first_part};
ghost use Rattle.text.specs.Lexer.{Lexed};

use crate::fault::TextFault;
use crate::token::{Kind, Token};

// How many bytes from the first on are of the kind.
fn run(bytes: &[u8], kind: Kind) -> usize
    ensures is { result ≡ prefix_len (is_of kind) bytes.now }
    ensures within { result ≤ length bytes.now }
{
    bytes.iter().take_while(|byte| kind.has(**byte)).count()
}

// The end of the longest run of the kind that begins at `from`.
fn run_end(text: &[u8], from: usize, kind: Kind) -> usize
    ensures is { result ≡ from + run kind (drop from text.now) }
    ensures within { from ≤ length text.now → result ≤ length text.now }
{
    match text.get(from..) {
        Some(rest) => from + run(rest, kind),
        None => from,
    }
}

// The number that a digit stands for.
fn digit(byte: u8) -> u16
    ensures is { result ≡ byte - 48 }
    ensures small { result ≤ 207 }
{
    u16::from(byte.saturating_sub(b'0'))
}

// The number that these digits write; none where they are too many or begin with a needless 0. The library's parsing takes any
// count of digits and a needless 0, so it would be no plainer.
fn numeral(digits: &[u8]) -> Option<u16>
    ensures { result ≡ numeral_of digits.now }
{
    match digits {
        [a] => Some(digit(*a)),
        [b'0', ..] => None,
        [a, b] => Some(digit(*a) * 10 + digit(*b)),
        [a, b, c] => Some(digit(*a) * 100 + digit(*b) * 10 + digit(*c)),
        _ => None,
    }
}

// Whether the byte is a mark.
fn is_mark(byte: u8) -> bool
    ensures { result ≡ is_mark byte }
{
    matches!(byte, b'[' | b'(' | b']' | b')' | b',')
}

/// Takes a text apart, one token after another.
#[derive(Drop)]
pub struct Lexer<'a> {
    text: &'a [u8],
    at: usize,
}

impl<'a> Lexer<'a> {
    /// A lexer of the text that begins at a place.
    pub fn new(text: &'a [u8], at: usize) -> Self
        ensures { (result.text.now ≡ text.now) × (result.at ≡ at) }
    {
        Lexer { text, at }
    }

    /// The end of the last token, or where the lexer began.
    pub fn at(&self) -> usize
        ensures { result ≡ self.now.at }
    {
        self.at
    }

    /// The next token and the place of its first byte; a refusal leaves the lexer where it was.
    pub fn next(&mut self) -> Result<(Token<'a>, usize), TextFault>
        ensures same { self.new.text ≡ self.old.text }
        ensures is { Lexed self.old self.new result }
        ensures kept { OnErr result (self.new.at ≡ self.old.at) }
    {
        let text = self.text;
        let start = run_end(text, self.at, Kind::Blank);
        let Some(&first) = text.get(start) else {
            self.at = text.len();
            return Ok((Token::End, text.len()));
        };
        if Kind::Letter.has(first) {
            let end = run_end(text, start, Kind::Letter);
            self.at = end;
            return Ok((Token::Word(&text[start..end]), start));
        }
        if Kind::Digit.has(first) {
            let end = run_end(text, start, Kind::Digit);
            let Some(n) = numeral(&text[start..end]) else {
                return Err(TextFault::Malformed { at: start });
            };
            self.at = end;
            return Ok((Token::Number(n), start));
        }
        if is_mark(first) {
            self.at = start + 1;
            return Ok((Token::Mark(first), start));
        }
        Err(TextFault::Malformed { at: start })
    }
}

/// The place of the first byte from a place on that is no blank.
pub fn first_part(text: &[u8], from: usize) -> Option<usize>
    ensures { result ≡ first_part text.now from }
{
    let start = run_end(text, from, Kind::Blank);
    (start < text.len()).then_some(start)
}
