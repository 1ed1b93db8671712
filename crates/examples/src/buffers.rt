//! Buffers of every size: just large enough, one too short, and what they hold afterwards.

use crate::books::*;
use compare::cell::{BLANK, Cell};
use compare::fault::CompareFault;
use compare::judge::judge;
use std::process::Abort;
use std::test::Fail;
use table::word::Entry;
use text::put::put;

const MARK: Entry = Entry { wait: 7, input: 6 };

// The two drafts of the landing that comes back after one and after two days.
fn two_drafts() -> [u8; 256] {
    let mut input = [b' '; 256];
    let at = put(&mut input, 0, ONE_DAY.as_bytes());
    let _ = put(&mut input, at, TWO_DAYS.as_bytes());
    input
}

// Judges the two drafts over these buffers, and compares the report with the text.
fn reports(
    rt: &impl Abort,
    cells: &mut [Cell],
    word: &mut [Entry],
    report: &mut [u8],
    expected: &str,
) -> Result<(), Fail> {
    let filled = judge(&two_drafts(), cells, word, report)?;
    assert_eq!(rt; &report[..filled], expected.as_bytes());
    Ok(())
}

#[test]
fn cells_just_enough(rt: HostRuntime) -> Result<(), Fail> {
    let mut word = [MARK; 32];
    reports(
        &rt,
        &mut [BLANK; 32],
        &mut word,
        &mut [0; 64],
        "different 4 8 4 2\n0 0\n2 0\n",
    )?;
    assert!(rt; are_all(&word[2..], MARK));
    Ok(())
}

#[test]
fn cells_one_short(rt: HostRuntime) -> Result<(), Fail> {
    let mut word = [MARK; 32];
    reports(
        &rt,
        &mut [BLANK; 31],
        &mut word,
        &mut [0; 64],
        "fault 2 compare 32\n",
    )?;
    assert!(rt; are_all(&word, MARK));
    Ok(())
}

#[test]
fn entries_one_short(rt: HostRuntime) -> Result<(), Fail> {
    let mut word = [MARK; 31];
    reports(
        &rt,
        &mut [BLANK; 32],
        &mut word,
        &mut [0; 64],
        "fault 2 compare 33\n",
    )?;
    assert!(rt; are_all(&word, MARK));
    reports(&rt, &mut [], &mut [], &mut [0; 64], "fault 2 compare 32\n")
}

#[test]
fn report_just_fits(rt: HostRuntime) -> Result<(), Fail> {
    reports(
        &rt,
        &mut [BLANK; 32],
        &mut [MARK; 32],
        &mut [b'.'; 26],
        "different 4 8 4 2\n0 0\n2 0\n",
    )?;
    let mut longer = [b'.'; 28];
    reports(
        &rt,
        &mut [BLANK; 32],
        &mut [MARK; 32],
        &mut longer,
        "different 4 8 4 2\n0 0\n2 0\n",
    )?;
    assert_eq!(rt; &longer[26..], b"..".as_slice());
    Ok(())
}

#[test]
fn report_one_short(rt: HostRuntime) {
    let mut report = [b'.'; 25];
    let answer = judge(
        &two_drafts(),
        &mut [BLANK; 32],
        &mut [MARK; 32],
        &mut report,
    );
    assert_eq!(rt; answer, Err(CompareFault::Report));
    assert_eq!(rt; report, [b'.'; 25]);
}

// Two plain books, and as many blanks behind them as fill the buffer.
fn long_input(input: &mut [u8]) {
    let at = put(input, 0, PLAIN.as_bytes());
    let at = put(input, at, b" ");
    let _ = put(input, at, PLAIN.as_bytes());
}

#[test]
fn longest_input(rt: HostRuntime) -> Result<(), Fail> {
    let mut input = [b' '; 16384];
    long_input(&mut input);
    let mut report = [0; 64];
    let filled = judge(&input, &mut [BLANK; 4], &mut [MARK; 4], &mut report)?;
    assert_eq!(rt; &report[..filled], b"alike 2 2\n".as_slice());
    Ok(())
}

#[test]
fn one_byte_too_long(rt: HostRuntime) -> Result<(), Fail> {
    let mut input = [b' '; 16385];
    long_input(&mut input);
    let mut report = [0; 64];
    let mut word = [MARK; 4];
    let filled = judge(&input, &mut [BLANK; 4], &mut word, &mut report)?;
    assert_eq!(rt; &report[..filled], b"fault 1 text 10 16384\n".as_slice());
    assert!(rt; are_all(&word, MARK));
    Ok(())
}

#[test]
fn a_cell_has_no_padding(rt: HostRuntime) {
    let fields = 3 * size_of::<u32>();
    assert_eq!(rt; size_of::<Cell>(), fields);
}
