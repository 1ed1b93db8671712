//! Judges two books read from standard input, and prints the report.

#![tactic(auto)]

ghost use Rattle.std.specs.Prelude.{◌≤◌, length, IfOk};

use anyhow::Context;
use compare::cell::BLANK;
use compare::judge::judge;
use std::io;
use std::io::{Read, Write};
use table::word::Entry;
use text::limits::MAX_BYTES;

// One byte more than a text may have, to know an input that is too long.
const INPUT_BYTES: usize = MAX_BYTES + 1;

const CELLS: usize = 1_024;

const ENTRIES: usize = 1_024;

const REPORT_BYTES: usize = 16_384;

// Reads until the input ends or the buffer is full, and answers how many bytes came. Each read is given the whole rest of the
// buffer, since a socket of messages drops what a shorter one leaves; the library's `io::copy` reads by pieces of 8 KiB.
fn read_input(mut input: impl Read + Drop, buffer: &mut [u8]) -> io::Result<usize>
    ensures { IfOk result (λ n. n ≤ length buffer.old) }
{
    let mut length = 0;
    while length < buffer.len() {
        let count = input.read(&mut buffer[length..])?;
        if count == 0 {
            break;
        }
        length += count;
    }
    Ok(length)
}

// Judges the input and prints the report.
fn print_report(mut output: impl Write + Drop, input: &[u8]) -> anyhow::Result<()> {
    let mut cells = [BLANK; CELLS];
    let mut word = [Entry { wait: 0, input: 0 }; ENTRIES];
    let mut report = [0; REPORT_BYTES];
    let filled = judge(input, &mut cells, &mut word, &mut report)
        .ok()
        .context("the report does not fit its buffer")?;
    output.write_all(&report[..filled])?;
    Ok(())
}

fn main(rt: HostRuntime) -> anyhow::Result<()> {
    let mut input = [0; INPUT_BYTES];
    let length = read_input(rt.stdin(), &mut input)?;
    print_report(rt.stdout(), &input[..length])
}
