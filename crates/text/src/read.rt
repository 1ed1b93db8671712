//! The section readers: from tokens to the draft of a book.

ghost use Rattle.std.specs.Prelude.{◌≡◌, ◌<◌, ◌≤◌, [], length, take, IfOk};
ghost use Rattle.text.specs.Draft.{StateRanged, RowRanged, GuardRanged, Ranged, high_day};
ghost use Rattle.text.specs.Grammar.{due, as_number, as_word, as_mark, only, ends, high_end, state, guarded, row, section, many, book, reading};
ghost use Rattle.text.specs.Lexer.{whole};
ghost use Rattle.text.specs.Limits.{max_days};
ghost use Rattle.text.specs.Parts.{ReadsExactly};
ghost use Rattle.text.specs.Refusal.{RefusesExactly};
ghost use Rattle.text.specs.Read.{Reads, shown, Filled};
ghost use Rattle.text.specs.Token.{Reader};

use crate::draft::*;
use crate::fault::TextFault;
use crate::lexer::Lexer;
use crate::limits::*;
use crate::mark::{Side, end_of};
use crate::token::Token;

// A number from `low` on and below `limit`. Each reader of one part asks the lexer itself: one reader over a closure would have
// to say of the closure what these contracts say by the definition that they name.
fn read_number(lexer: &mut Lexer, low: u16, limit: u16) -> Result<u16, TextFault>
    ensures reads { Reads (due (as_number low limit)) lexer.old lexer.new result }
    ensures inside { IfOk result (λ n. (low ≤ n) × (n < limit)) }
{
    let (token, at) = lexer.next()?;
    match token {
        Token::Number(n) if low <= n && n < limit => Ok(n),
        Token::Number(..) => Err(TextFault::OutOfRange { at }),
        _ => Err(TextFault::Unexpected { at }),
    }
}

// A number of at most a byte, in the same way.
fn read_small(lexer: &mut Lexer, low: u8, limit: u8) -> Result<u8, TextFault>
    ensures reads { Reads (due (as_number low limit)) lexer.old lexer.new result }
    ensures inside { IfOk result (λ n. (low ≤ n) × (n < limit)) }
{
    Ok(read_number(lexer, u16::from(low), u16::from(limit))? as u8)
}

// This word. It and the mark below have a reader each, since the grammar takes a word and a mark by two definitions.
fn read_word(lexer: &mut Lexer, word: &[u8]) -> Result<(), TextFault>
    ensures { Reads (due (as_word word.now)) lexer.old lexer.new result }
{
    let (token, at) = lexer.next()?;
    if token == Token::Word(word) {
        Ok(())
    } else {
        Err(TextFault::Unexpected { at })
    }
}

// A mark on this side of a guard, and whether the guard has that end.
fn read_end(lexer: &mut Lexer, side: Side) -> Result<End, TextFault>
    ensures { Reads (due (as_mark (ends side))) lexer.old lexer.new result }
{
    let (token, at) = lexer.next()?;
    if let Token::Mark(mark) = token
        && let Some(end) = end_of(side, mark as char)
    {
        Ok(end)
    } else {
        Err(TextFault::Unexpected { at })
    }
}

// This mark.
fn read_mark(lexer: &mut Lexer, expected: u8) -> Result<(), TextFault>
    ensures { Reads (due (as_mark (only expected))) lexer.old lexer.new result }
{
    let (token, at) = lexer.next()?;
    if token == Token::Mark(expected) {
        Ok(())
    } else {
        Err(TextFault::Unexpected { at })
    }
}

// The head of a section and its count, from 1 on and below `limit`.
fn read_section(lexer: &mut Lexer, head: &[u8], limit: u16) -> Result<u16, TextFault>
    ensures reads { Reads (section head.now limit) lexer.old lexer.new result }
    ensures inside { IfOk result (λ n. (1 ≤ n) × (n < limit)) }
{
    read_word(lexer, head)?;
    read_number(lexer, 1, limit)
}

// The high end of a guard, up to the mark that closes it.
fn read_high(lexer: &mut Lexer) -> Result<High, TextFault>
    ensures reads { Reads high_end lexer.old lexer.new result }
    ensures inside { IfOk result (λ high. high_day high ≤ max_days) }
{
    let (token, at) = lexer.next()?;
    match token {
        Token::Number(n) if n <= u16::from(MAX_DAYS) => {
            let end = read_end(lexer, Side::High)?;
            Ok(High::At(n as u8, end))
        }
        Token::Number(_) => Err(TextFault::OutOfRange { at }),
        Token::Word(b"inf") => {
            read_mark(lexer, b')')?;
            Ok(High::Inf)
        }
        _ => Err(TextFault::Unexpected { at }),
    }
}

// A guard, from mark to mark.
fn read_guard(lexer: &mut Lexer) -> Result<Guard, TextFault>
    ensures reads { Reads guarded lexer.old lexer.new result }
    ensures ranged { IfOk result GuardRanged }
{
    let end = read_end(lexer, Side::Low)?;
    let low = read_small(lexer, 0, MAX_DAYS + 1)?;
    read_mark(lexer, b',')?;
    let high = read_high(lexer)?;
    Ok(Guard { low, end, high })
}

// How many inputs, outputs and states there are for a state or a row to name.
#[derive(Clone, Copy)]
struct Counts {
    inputs: u8,
    outputs: u8,
    states: u8,
    ghost some: { 1 ≤ states },
}

// What a section lists, one after another.
trait Listed: Copy {
    ghost use Rattle.text.specs.declared.read.Counts.{Counts};

    ghost reader: { Counts → Reader Self };

    ghost Ranged: { Counts → Self → Type 0 };

    fn read(lexer: &mut Lexer, counts: Counts) -> Result<Self, TextFault>
        ensures reads { Reads (reader counts) lexer.old lexer.new result }
        ensures ranged { IfOk result (Ranged counts) };
}

impl Listed for State {
    ghost reader = { λ counts. state counts.states };

    ghost Ranged = { λ counts. StateRanged counts.states };

    fn read(lexer: &mut Lexer, counts: Counts) -> Result<State, TextFault> {
        let (token, at) = lexer.next()?;
        match token {
            Token::Word(b"stay") => Ok(State::Stay),
            Token::Word(b"hold") => {
                let timeout = read_small(lexer, 1, MAX_DAYS + 1)?;
                let target = read_small(lexer, 0, counts.states)?;
                Ok(State::Hold { timeout, target })
            }
            _ => Err(TextFault::Unexpected { at }),
        }
    }
}

impl Listed for Row {
    ghost reader = { λ counts. row counts.inputs counts.outputs counts.states };

    ghost Ranged = { λ counts. RowRanged counts.inputs counts.outputs counts.states };

    fn read(lexer: &mut Lexer, counts: Counts) -> Result<Row, TextFault> {
        let state = read_small(lexer, 0, counts.states)?;
        let input = read_small(lexer, 0, counts.inputs)?;
        let guard = read_guard(lexer)?;
        let output = read_small(lexer, 0, counts.outputs)?;
        let next = read_small(lexer, 0, counts.states)?;
        Ok(Row {
            state,
            input,
            guard,
            output,
            next,
        })
    }
}

// So many of what a section lists; `past` stands at the places past them.
fn read_many<T: Listed, const N: usize>(
    lexer: &mut Lexer,
    counts: Counts,
    count: u16,
    past: T,
) -> Result<UpTo<T, N>, TextFault>
    requires few { count ≤ N }
    requires within { lexer.old.at ≤ length (whole lexer.old) }
    ensures reads { Reads (many (T.reader counts) count []) lexer.old lexer.new (shown (λ read. take count read.all) result) }
    ensures counted { IfOk result (λ read. read.count ≡ count) }
    ensures filled { IfOk result (λ read. Filled N past (T.Ranged counts) count read.all) }
{
    let mut all = [past; N];
    for place in &mut all[..usize::from(count)] {
        *place = T::read(lexer, counts)?;
    }
    Ok(UpTo { count, all })
}

// All sections of a book. The two small limits are cast: through `from` the refusals of the later sections stay open in the proof.
fn read_book(lexer: &mut Lexer) -> Result<Draft, TextFault>
    ensures reads { Reads book lexer.old lexer.new result }
    ensures ranged { IfOk result Ranged }
{
    let inputs = read_section(lexer, b"inputs", MAX_INPUTS as u16 + 1)? as u8;
    let outputs = read_section(lexer, b"outputs", MAX_OUTPUTS as u16 + 1)? as u8;
    let count = read_section(lexer, b"states", MAX_STATES as u16 + 1)?;
    let counts = Counts {
        inputs,
        outputs,
        states: count as u8,
    };
    let states = read_many(lexer, counts, count, State::Stay)?;
    let count = read_section(lexer, b"rows", MAX_ROWS as u16 + 1)?;
    let rows = read_many(lexer, counts, count, NO_ROW)?;
    Ok(Draft {
        inputs,
        outputs,
        states,
        rows,
    })
}

/// The draft that a text writes from a place on, and the place where its last part ends.
pub fn read_draft(text: &[u8], from: usize) -> Result<(Draft, usize), TextFault>
    ensures reads { result ≡ reading text.now from }
    ensures ranged { IfOk result (λ p. Ranged p.0) }
    ensures exactly { ReadsExactly text.now from result }
    ensures refused { RefusesExactly text.now from result }
{
    if text.len() > MAX_BYTES {
        return Err(TextFault::TooLong);
    }
    let mut lexer = Lexer::new(text, from);
    let draft = read_book(&mut lexer)?;
    Ok((draft, lexer.at()))
}
