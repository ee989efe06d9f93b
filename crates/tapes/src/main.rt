// Runs what document 01 gives of BUILD, REWRITE, ACCOUNT and SHOW and does not mark as proved, and compares: the limits, and every reply number of
// theirs with its place, its counts and what stands in each buffer afterwards. A line a case: ok or WRONG, operation, reply, place.
#![tactic(auto)]

mod full; // full.rt: the cases of a book that puts in everywhere
mod pair; // pair.rt: the cases of the book PAIR

use cases::expect::Tables;
use cases::{Answer, Case, Lent, Want, books, expect, report};
use rewriter::{LINE_WORDS, LONGEST_TAPE};
use sets::{ROW_BYTES, SET_WORDS};
use std::io;

// The longest tape has so many stretches.
const STRETCHES: usize = LONGEST_TAPE * (LONGEST_TAPE + 1) / 2;

// 0 1 0 1 ..
fn tape_of(tape: &mut [u8]) {
    for (i, s) in tape.iter_mut().enumerate() {
        *s = expect::symbol(i);
    }
}

// All symbols of the longest tape become nothing in one stretch; each of its stretches is a candidate.
fn long_cases(rt: &impl Print) -> io::Result<()> {
    let book = books::long();
    let mut tape = [0u8; LONGEST_TAPE];
    tape_of(&mut tape);
    let rewritten = Case {
        lent: Lent::new(ROW_BYTES, SET_WORDS, LONGEST_TAPE + 1, 0, 0, 0),
        want: Want::accepted(Tables::Long, [0, 1, 0]),
        note: b"an empty output",
    };
    let accounted = Case {
        lent: Lent::ample(),
        want: Want::refused(Tables::Long, 15, LINE_WORDS * STRETCHES),
        note: b"8,390,656 candidates",
    };
    rewritten.rewrite(rt, &book, &tape)?;
    accounted.account(rt, &book, &tape)
}

// The part that SHOW hands back of a tape of four symbols, and where it starts.
// A row of a test: each number has its place here.
fn show_case(
    rt: &impl Print,
    lines: &[u16],
    line: usize,
    part: &[u8],
    start: usize,
    note: &[u8],
) -> io::Result<()> {
    let tape = [5u8, 6, 7, 8];
    let b = rewriter::bounds_of(tape.len(), lines, line);
    let shown = rewriter::show(&tape, lines, line);
    let ok = (shown == part) & (b.start == start);
    let want = Answer {
        reply: 0,
        place: start,
        counts: [part.len(), 0, 0],
    };
    report(rt, ok, b"SHOW", want, note)
}

fn show_cases(rt: &impl Print) -> io::Result<()> {
    let two = [0, 1, 3, 0, 1, 0, 1, 2, 4, 0, 2, 1];
    let cases: [(&[u16], usize, &[u8], usize, &[u8]); 10] = [
        (&two, 0, &[6, 7], 1, b"a stretch"),
        (&two, 1, &[7, 8], 2, b"the second line"),
        (&[0, 2, 2, 0, 2, 0], 0, &[], 2, b"an empty stretch"),
        (
            &[0, 4, 4, 0, 4, 0],
            0,
            &[],
            4,
            b"an empty stretch at the tape's end",
        ),
        (&[0, 3, 2, 0, 3, 0], 0, &[], 0, b"start above end"),
        (&[0, 3, 5, 0, 3, 0], 0, &[], 0, b"end past the tape"),
        (
            &[0, 5, 5, 0, 5, 0],
            0,
            &[],
            0,
            b"an empty stretch past the tape",
        ),
        (&[0, 0, 1, 0, 0], 0, &[], 0, b"a cut line"),
        (&two, 2, &[], 0, b"one past the last line"),
        (&two, usize::MAX, &[], 0, b"no such line"),
    ];
    for (lines, line, part, start, note) in cases {
        show_case(rt, lines, line, part, start, note)?;
    }
    Ok(())
}

fn main(rt: HostRuntime) -> io::Result<()> {
    pair::all(&rt)?;
    long_cases(&rt)?;
    full::all(&rt)?;
    show_cases(&rt)
}
