//! Books, allowances, views and waits.

use crate::books::*;
use compare::cell::BLANK;
use compare::compare::{Verdict, compare};
use std::process::Abort;
use std::test::Fail;
use table::allowance::Allowance;
use table::book::Book;
use table::fault::{Spot, TableFault};
use table::grain::Grain;
use table::machine::Machine;
use table::view::View;
use table::word::Entry;

/// The book that a text gives.
pub fn book(text: &str) -> Result<Book, Fail> {
    let mut book = Book::new();
    book.read(text.as_bytes())?;
    Ok(book)
}

// The steps of a shortest telling word, where there is one.
fn steps_apart<M: Machine, N: Machine>(left: &M, right: &N) -> Result<Option<u32>, Fail> {
    let mut cells = [BLANK; 64];
    let mut word = [Entry { wait: 0, input: 0 }; 64];
    match compare(left, right, &mut cells, &mut word)? {
        Verdict::Alike => Ok(None),
        Verdict::Different { steps, .. } => Ok(Some(steps)),
    }
}

#[test]
fn a_book_and_an_allowance(rt: HostRuntime) -> Result<(), Fail> {
    let day = book(ONE_DAY)?;
    let one = Allowance::new(1, 1)?;
    let two = Allowance::new(1, 2)?;
    assert_eq!(rt; steps_apart(&day, &one)?, None);
    assert_eq!(rt; steps_apart(&one, &two)?, Some(4));
    assert_eq!(rt; steps_apart(&day, &two)?, Some(4));
    Ok(())
}

#[test]
fn allowances_at_their_limits(rt: HostRuntime) -> Result<(), Fail> {
    assert_eq!(rt; Allowance::new(15, 31)?.count(), 992);
    assert_eq!(rt; Allowance::new(1, 1)?.count(), 4);
    let refused = [
        (0, 32, TableFault::Landings),
        (16, 1, TableFault::Landings),
        (1, 0, TableFault::QuietDays),
        (15, 32, TableFault::QuietDays),
    ];
    for (landings, days, fault) in refused {
        assert_eq!(rt; Allowance::new(landings, days), Err(fault));
    }
    Ok(())
}

#[test]
fn a_view_passes_outputs_through_its_table(rt: HostRuntime) -> Result<(), Fail> {
    let one = Allowance::new(1, 1)?;
    let mut view = View::new(View::new(one));
    assert_eq!(rt; steps_apart(&one, &view)?, None);
    let mut table = [5; 32];
    view.set_table(table)?;
    assert_eq!(rt; steps_apart(&one, &view)?, Some(1));
    assert_eq!(rt; view.take(0, 0), Some((2, 5)));
    table[7] = 32;
    table[9] = 200;
    assert_eq!(rt; view.set_table(table), Err(TableFault::Output { entry: 7 }));
    assert_eq!(rt; view.take(0, 0), Some((2, 5)));
    Ok(())
}

#[test]
fn numbers_outside_get_no_answer(rt: HostRuntime) -> Result<(), Fail> {
    let day = book(ONE_DAY)?;
    assert_eq!(rt; day.count(), 4);
    assert!(rt; day.tick(3).is_some() && day.tick(4).is_none() && day.tick(65535).is_none());
    assert!(rt; day.take(3, 0).is_some() && day.take(4, 0).is_none());
    assert!(rt; day.take(0, 1).is_none() && day.take(0, 255).is_none());
    Ok(())
}

#[test]
fn waits_in_hours(rt: HostRuntime) -> Result<(), Fail> {
    let Some(hours) = Grain::new(24) else {
        return Err(Fail::new("no such grain"));
    };
    for (wait, ticks) in [(0, 0), (1, 1), (23, 1), (24, 2), (25, 3)] {
        assert_eq!(rt; hours.ticks(wait), ticks, "{wait}");
    }
    assert_eq!(rt; Grain::half_days().ticks(7), 7);
    assert!(rt; Grain::new(0).is_none());
    let word = [Entry { wait: 0, input: 0 }, Entry { wait: 25, input: 0 }];
    assert_eq!(rt; hours.steps(&word), 5);
    assert_eq!(rt; hours.steps(&[]), 0);
    Ok(())
}

// Writes the book that a text gives and compares it with what is expected.
fn writes(rt: &impl Abort, text: &str, expected: &str) -> Result<(), Fail> {
    let mut buffer = [b'.'; 128];
    let length = book(text)?.write(&mut buffer)?.min(buffer.len());
    let (written, rest) = buffer.split_at(length);
    assert_eq!(rt; written, expected.as_bytes());
    assert!(rt; are_all(rest, b'.'));
    Ok(())
}

#[test]
fn books_are_written_line_by_line(rt: HostRuntime) -> Result<(), Fail> {
    writes(&rt, ONE_DAY, ONE_DAY)?;
    writes(&rt, TWO_DAYS, TWO_DAYS)?;
    writes(
        &rt,
        PLAIN,
        "inputs 1\noutputs 1\nstates 1\nstay\nrows 1\n0 0 [0,inf) 0 0\n",
    )
}

#[test]
fn a_buffer_too_short_stays(rt: HostRuntime) -> Result<(), Fail> {
    let mut buffer = [b'.'; 55];
    let answer = book(PLAIN)?.write(&mut buffer);
    assert_eq!(rt; answer.map_err(TableFault::number), Err(16));
    assert_eq!(rt; buffer, [b'.'; 55]);
    Ok(())
}

#[test]
fn a_refused_text_leaves_the_book(rt: HostRuntime) -> Result<(), Fail> {
    let mut day = book(ONE_DAY)?;
    let answer = day.read(b"inputs 1 outputs 1 states 1 stay rows 1 0 0 (0,inf) 0 0");
    let spot = Spot {
        state: 0,
        input: 0,
        stretch: 0,
    };
    assert_eq!(rt; answer, Err(TableFault::NoRow(spot)));
    assert_eq!(rt; steps_apart(&day, &Allowance::new(1, 1)?)?, None);
    Ok(())
}
