//! The judge's report.
//!
//! Each line is pushed into a text of its own. An impl of `Display` would not do: its contract says nothing of a `fmt` that fails,
//! and the report's contract says every byte.

ghost use Rattle.std.specs.Prelude.{◌≡◌, ◌+◌, ◌*◌, ◌≤◌, ◌++◌, length, IfOk, decimal};
ghost use Rattle.std.specs.List.{flat_map};
ghost use Rattle.arrayvec.specs.ArrayString.{array_string_len};
ghost use Rattle.text.specs.Put.{Puts};
ghost use Rattle.text.specs.Write.{filled};
ghost use Rattle.compare.specs.Report.{field, place_fields, head_line, entry_line, word_of, shown_entries, fault_line, verdict_line, report as report_of, reported};

use crate::compare::Verdict;
use crate::fault::CompareFault;
use crate::outcome::{Finding, Outcome, Refusal};
use arrayvec::ArrayString;
use itoa::Buffer;
use table::fault::Place;
use table::word::Entry;
use text::put::put;

// Room for the first line of any report.
const HEAD_ROOM: usize = 128;
// Room for the line of any entry.
const ENTRY_ROOM: usize = 48;
// Room for a blank and any number behind it.
const FIELD_ROOM: usize = 21;

// A number behind a blank.
fn push_field<const CAP: usize>(line: &mut ArrayString<CAP>, n: u64)
    requires { array_string_len line.old + FIELD_ROOM ≤ CAP }
    ensures bytes { line.new.bytes ≡ line.old.bytes ++ field n }
    ensures short { array_string_len line.new ≤ array_string_len line.old + FIELD_ROOM }
{
    line.push_str(" ");
    line.push_str(Buffer::new().format(n));
}

// The numbers of a fault's place.
fn push_place(line: &mut ArrayString<HEAD_ROOM>, place: Option<Place>)
    requires { array_string_len line.old + 3 * FIELD_ROOM ≤ HEAD_ROOM }
    ensures bytes { line.new.bytes ≡ line.old.bytes ++ place_fields place }
    ensures short { array_string_len line.new ≤ array_string_len line.old + 3 * FIELD_ROOM }
{
    match place {
        None => {}
        Some(Place::At(n)) => push_field(line, n as u64),
        Some(Place::Spot(spot)) => {
            push_field(line, u64::from(spot.state));
            push_field(line, u64::from(spot.input));
            push_field(line, u64::from(spot.stretch));
        }
    }
}

// The word of a verdict, and how many states each book has.
fn states_line(word: &str, finding: Finding) -> ArrayString<HEAD_ROOM>
    requires { length word.now ≤ 9 }
    ensures bytes { result.bytes ≡ word.now ++ (field finding.left ++ field finding.right) }
    ensures short { array_string_len result ≤ length word.now + 2 * FIELD_ROOM }
{
    let mut line = ArrayString::new();
    line.push_str(word);
    push_field(&mut line, u64::from(finding.left));
    push_field(&mut line, u64::from(finding.right));
    line
}

// The line of what was found.
fn finding_line(finding: Finding) -> ArrayString<HEAD_ROOM>
    ensures { result.bytes ≡ verdict_line finding.left finding.right finding.verdict }
{
    let mut line = match finding.verdict {
        Verdict::Alike => states_line("alike", finding),
        Verdict::Different { steps, entries } => {
            let mut line = states_line("different", finding);
            push_field(&mut line, u64::from(steps));
            push_field(&mut line, u64::from(entries));
            line
        }
    };
    line.push_str("\n");
    line
}

// The line of a refusal.
fn refusal_line(refusal: Refusal) -> ArrayString<HEAD_ROOM>
    ensures { result.bytes ≡ fault_line refusal.book refusal.fault }
{
    let fault = refusal.fault;
    let mut line = ArrayString::new();
    line.push_str("fault");
    push_field(&mut line, u64::from(refusal.book));
    line.push_str(" ");
    line.push_str(fault.layer());
    push_field(&mut line, u64::from(fault.number()));
    push_place(&mut line, fault.place());
    line.push_str("\n");
    line
}

// The first line of a report.
fn first_line(outcome: Outcome) -> ArrayString<HEAD_ROOM>
    ensures { result.bytes ≡ head_line outcome }
{
    match outcome {
        Ok(finding) => finding_line(finding),
        Err(refusal) => refusal_line(refusal),
    }
}

// The line of an entry.
fn line_of(entry: Entry) -> ArrayString<ENTRY_ROOM>
    ensures { result.bytes ≡ entry_line entry }
{
    let mut line = ArrayString::new();
    line.push_str(Buffer::new().format(entry.wait));
    push_field(&mut line, u64::from(entry.input));
    line.push_str("\n");
    line
}

// How many digits a number has. They are counted and not written: written for the count too, they would cost each line twice.
fn count_digits(n: u32) -> usize
    ensures is { result ≡ length (decimal n) }
    ensures few { result ≤ 10 }
{
    let mut digits = 1;
    let mut rest = n;
    while rest >= 10 {
        rest /= 10;
        digits += 1;
    }
    digits
}

// How long the line of an entry is, without building it.
fn line_length(entry: Entry) -> usize
    ensures { result ≡ length (entry_line entry) }
{
    count_digits(entry.wait) + count_digits(u32::from(entry.input)) + 2
}

// How long the lines of the entries are.
fn lines_length(entries: &[Entry]) -> u128
    ensures { result ≡ length (flat_map entry_line entries.now) }
{
    entries
        .iter()
        .map(|entry| line_length(*entry) as u128)
        .sum()
}

// Puts a line, for which there is room. A place is handed on, and not the rest of the buffer: that would be lent back, and its
// contract would have to say how the two go together.
fn put_line<const CAP: usize>(out: &mut [u8], at: usize, line: &ArrayString<CAP>) -> usize
    requires { at + array_string_len line.now ≤ length out.old }
    ensures { Puts out.old at out.new result line.now.bytes }
{
    put(out, at, line.as_str().as_bytes())
}

// Puts the lines of the entries, for which there is room.
fn put_lines(out: &mut [u8], from: usize, entries: &[Entry]) -> usize
    requires { from + length (flat_map entry_line entries.now) ≤ length out.old }
    ensures { Puts out.old from out.new result (flat_map entry_line entries.now) }
{
    let mut at = from;
    for entry in entries {
        at = put_line(out, at, &line_of(*entry));
    }
    at
}

// The entries of the word that was found.
fn found_word(verdict: Verdict, word: &[Entry]) -> &[Entry]
    ensures { result.now ≡ word_of verdict word.now }
{
    match verdict {
        Verdict::Alike => &[],
        Verdict::Different { entries, .. } => &word[..(entries as usize).min(word.len())],
    }
}

// The entries that the report shows.
fn shown(outcome: Outcome, word: &[Entry]) -> &[Entry]
    ensures { result.now ≡ shown_entries outcome word.now }
{
    match outcome {
        Ok(finding) => found_word(finding.verdict, word),
        Err(_) => &[],
    }
}

/// Writes the report from the buffer's start and answers how many places it filled; a buffer that is too
/// short stays as it is.
pub fn write_report(
    report: &mut [u8],
    outcome: Outcome,
    word: &[Entry],
) -> Result<usize, CompareFault>
    ensures answers { result ≡ reported (report_of outcome word.now) report.old }
    ensures fills { report.new ≡ filled (report_of outcome word.now) report.old }
    ensures within { IfOk result (λ n. n ≤ length report.old) }
{
    let head = first_line(outcome);
    let entries = shown(outcome, word);
    let length = lines_length(entries).saturating_add(head.len() as u128);
    if length > report.len() as u128 {
        return Err(CompareFault::Report);
    }
    let at = put_line(report, 0, &head);
    Ok(put_lines(report, at, entries))
}
