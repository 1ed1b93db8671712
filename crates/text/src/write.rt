//! The canonical text of a draft: a line for each head of a section, each state and each row.

ghost use Rattle.std.specs.Prelude.{◌≡◌, ℕ, ◌+◌, ◌*◌, ◌<◌, ◌≤◌, List, [], ◌∷◌, ◌++◌, length, decimal};
ghost use Rattle.std.specs.List.{flat_map};
ghost use Rattle.text.specs.Draft.{Ranged};
ghost use Rattle.text.specs.Limits.{max_bytes};
ghost use Rattle.text.specs.Parts.{ReadsBack};
ghost use Rattle.text.specs.Write.{head_line, state_line, high_text, guard_text, row_line, canonical, written, filled};

use crate::draft::*;
use crate::fault::TextFault;
use crate::limits::*;
use crate::mark::{Side, mark_of};
use arrayvec::ArrayString;
use itoa::Buffer;

// A text of a book while it is written.
type Text = ArrayString<MAX_BYTES>;

// The number, and the mark that stands behind it.
fn put_number(text: &mut Text, n: u16, after: u8)
    requires ascii { after < 128 }
    requires room { length text.old.bytes + 6 ≤ max_bytes }
    ensures puts { text.new.bytes ≡ text.old.bytes ++ (decimal n ++ (after ∷ [])) }
    ensures short { length (decimal n) ≤ 5 }
{
    text.push_str(Buffer::new().format(n));
    text.push(after as char);
}

// The head of a section, with how many there are.
fn put_head(text: &mut Text, head: &str, n: u16)
    requires { length text.old.bytes + length head.now + 7 ≤ max_bytes }
    ensures puts { text.new.bytes ≡ text.old.bytes ++ head_line head.now n }
    ensures short { length (head_line head.now n) ≤ length head.now + 7 }
{
    text.push_str(head);
    text.push(' ');
    put_number(text, n, b'\n');
}

// What has a spelling of its own, of at most so many bytes. A `Display` would not do: where its `fmt` answers `Err`, its clause
// says nothing of the bytes that were written.
trait Put: Copy {
    ghost spelling: { Self → List ℕ };

    ghost longest: { ℕ };

    // Puts the spelling behind the text.
    fn put(self, text: &mut Text)
        requires { length text.old.bytes + longest ≤ max_bytes }
        ensures puts { text.new.bytes ≡ text.old.bytes ++ spelling self }
        ensures short { length (spelling self) ≤ longest };
}

impl Put for High {
    ghost spelling = { high_text };

    ghost longest = { 6 };

    fn put(self, text: &mut Text) {
        match self {
            High::At(n, end) => put_number(text, u16::from(n), mark_of(Side::High, end)),
            High::Inf => text.push_str("inf)"),
        }
    }
}

impl Put for Guard {
    ghost spelling = { guard_text };

    ghost longest = { 13 };

    fn put(self, text: &mut Text) {
        text.push(mark_of(Side::Low, self.end) as char);
        put_number(text, u16::from(self.low), b',');
        self.high.put(text);
    }
}

impl Put for State {
    ghost spelling = { state_line };

    ghost longest = { 17 };

    fn put(self, text: &mut Text) {
        match self {
            State::Stay => text.push_str("stay\n"),
            State::Hold { timeout, target } => {
                text.push_str("hold ");
                put_number(text, u16::from(timeout), b' ');
                put_number(text, u16::from(target), b'\n');
            }
        }
    }
}

impl Put for Row {
    ghost spelling = { row_line };

    ghost longest = { 38 };

    fn put(self, text: &mut Text) {
        put_number(text, u16::from(self.state), b' ');
        put_number(text, u16::from(self.input), b' ');
        self.guard.put(text);
        text.push(' ');
        put_number(text, u16::from(self.output), b' ');
        put_number(text, u16::from(self.next), b'\n');
    }
}

// One after another.
fn put_all<T: Put>(text: &mut Text, all: &[T])
    requires { length text.old.bytes + T.longest * length all.now ≤ max_bytes }
    ensures puts { text.new.bytes ≡ text.old.bytes ++ flat_map T.spelling all.now }
    ensures short { length (flat_map T.spelling all.now) ≤ T.longest * length all.now }
{
    for one in all {
        one.put(text);
    }
}

// The whole canonical text, for which an empty text always has room.
#[tactic(auto, unfolding(crate::specs::Write::canonical))]
fn put_draft(text: &mut Text, draft: &Draft)
    requires empty { text.old.bytes ≡ [] }
    ensures { text.new.bytes ≡ canonical draft.now }
{
    put_head(text, "inputs", u16::from(draft.inputs));
    put_head(text, "outputs", u16::from(draft.outputs));
    put_head(text, "states", draft.states.count);
    put_all(text, draft.states.as_slice());
    put_head(text, "rows", draft.rows.count);
    put_all(text, draft.rows.as_slice());
}

// Puts the bytes at the buffer's start and answers how many there are; a buffer that is too short stays.
fn fill(buffer: &mut [u8], bytes: &[u8]) -> Result<usize, TextFault>
    ensures answers { result ≡ written bytes.now buffer.old }
    ensures fills { buffer.new ≡ filled bytes.now buffer.old }
{
    if bytes.len() > buffer.len() {
        return Err(TextFault::BufferTooShort);
    }
    buffer[..bytes.len()].copy_from_slice(bytes);
    Ok(bytes.len())
}

/// Writes the canonical text from the buffer's start and answers how many places it filled; a buffer that
/// is too short stays as it is.
pub fn write_draft(draft: &Draft, buffer: &mut [u8]) -> Result<usize, TextFault>
    ensures answers { result ≡ written (canonical draft.now) buffer.old }
    ensures fills { buffer.new ≡ filled (canonical draft.now) buffer.old }
    ensures short { length (canonical draft.now) ≤ max_bytes }
    ensures back { Ranged draft.now → ReadsBack draft.now }
{
    let mut text = ArrayString::new();
    put_draft(&mut text, draft);
    fill(buffer, text.as_str().as_bytes())
}
