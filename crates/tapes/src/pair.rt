// The cases of the book PAIR: room, tapes at the limit, symbols that are none.
use super::tape_of;
use book::SYMBOLS;
use cases::expect::Tables;
use cases::{Case, Lent, TOO_LONG, Want, books, front};
use rewriter::{LINE_WORDS, LONGEST_TAPE};
use sets::{ROW_BYTES, SET_WORDS};
use std::io;

// The longest tape, 0 1 0 1 .., has so many ones.
const ONES: usize = LONGEST_TAPE / 2;

// Its output is 0 7 8 0 7 8, and its account has two lines.
const TAPE: [u8; 4] = [0, 1, 0, 1];

fn accepted(counts: [usize; 3]) -> Want {
    Want::accepted(Tables::Pair, counts)
}

// the reply as document 01 numbers it (see `Want::refused`)
fn refused(reply: u8, place: usize) -> Want {
    Want::refused(Tables::Pair, reply, place)
}

fn pair_check(rt: &impl Print, book: &[u8]) -> io::Result<()> {
    let case = Case {
        lent: Lent::ample(),
        want: accepted([1, 4, 1]),
        note: b"a pair for each 1",
    };
    case.check(rt, book)
}

fn pair_build(rt: &impl Print, book: &[u8]) -> io::Result<()> {
    let cases = [
        Case {
            lent: Lent::ample(),
            want: accepted([1, 2, 0]),
            note: b"ample room",
        },
        Case {
            lent: Lent::new(ROW_BYTES, SET_WORDS, 0, 0, 0, 0),
            want: accepted([1, 2, 0]),
            note: b"just enough",
        },
        Case {
            lent: Lent::new(ROW_BYTES - 1, SET_WORDS, 0, 0, 0, 0),
            want: refused(11, 0),
            note: b"rows too short",
        },
        Case {
            lent: Lent::new(ROW_BYTES, SET_WORDS - 1, 0, 0, 0, 0),
            want: refused(11, 0),
            note: b"sets too short",
        },
    ];
    for case in cases {
        case.build(rt, book)?;
    }
    Ok(())
}

// Rows of cases, here and below: values, and no code to share.
fn pair_rewrite(rt: &impl Print, book: &[u8]) -> io::Result<()> {
    let cases = [
        Case {
            lent: Lent::ample(),
            want: accepted([6, 2, 0]),
            note: b"ample room",
        },
        Case {
            lent: Lent::new(ROW_BYTES, SET_WORDS, 5, 6, 6, 0),
            want: accepted([6, 2, 0]),
            note: b"just enough",
        },
        Case {
            lent: Lent::new(ROW_BYTES - 1, SET_WORDS, 4, 5, 5, 0),
            want: refused(11, 0),
            note: b"all too short",
        },
        Case {
            lent: Lent::new(ROW_BYTES, SET_WORDS - 1, 5, 6, 6, 0),
            want: refused(11, 0),
            note: b"sets too short",
        },
        Case {
            lent: Lent::new(ROW_BYTES, SET_WORDS, 4, 5, 5, 0),
            want: refused(12, 0),
            note: b"scratch too short",
        },
        Case {
            lent: Lent::new(ROW_BYTES, SET_WORDS, 5, 5, 6, 0),
            want: refused(15, 6),
            note: b"output too short",
        },
        Case {
            lent: Lent::new(ROW_BYTES, SET_WORDS, 5, 6, 5, 0),
            want: refused(15, 6),
            note: b"origins too short",
        },
    ];
    for case in cases {
        case.rewrite(rt, book, &TAPE)?;
    }
    Ok(())
}

fn pair_account(rt: &impl Print, book: &[u8]) -> io::Result<()> {
    let cases = [
        Case {
            lent: Lent::ample(),
            want: accepted([2, 0, 0]),
            note: b"ample room",
        },
        Case {
            lent: Lent::new(ROW_BYTES, SET_WORDS, 5, 0, 0, 2 * LINE_WORDS),
            want: accepted([2, 0, 0]),
            note: b"just enough",
        },
        Case {
            lent: Lent::new(ROW_BYTES - 1, SET_WORDS, 4, 0, 0, 2 * LINE_WORDS - 1),
            want: refused(11, 0),
            note: b"all too short",
        },
        Case {
            lent: Lent::new(ROW_BYTES, SET_WORDS - 1, 5, 0, 0, 2 * LINE_WORDS),
            want: refused(11, 0),
            note: b"sets too short",
        },
        Case {
            lent: Lent::new(ROW_BYTES, SET_WORDS, 4, 0, 0, 2 * LINE_WORDS - 1),
            want: refused(12, 0),
            note: b"scratch too short",
        },
        Case {
            lent: Lent::new(ROW_BYTES, SET_WORDS, 5, 0, 0, 2 * LINE_WORDS - 1),
            want: refused(15, 2 * LINE_WORDS),
            note: b"account too short",
        },
    ];
    for case in cases {
        case.account(rt, book, &TAPE)?;
    }
    Ok(())
}

// "4,096 symbols accepted, 4,097 refused 9"
fn longest(rt: &impl Print, book: &[u8]) -> io::Result<()> {
    let mut tape = [0u8; LONGEST_TAPE];
    tape_of(&mut tape);
    let rewritten = Case {
        lent: Lent::ample(),
        want: accepted([LONGEST_TAPE + ONES, ONES, 0]),
        note: b"4,096 symbols",
    };
    let accounted = Case {
        lent: Lent::ample(),
        want: accepted([ONES, 0, 0]),
        note: b"4,096 symbols",
    };
    rewritten.rewrite(rt, book, &tape)?;
    accounted.account(rt, book, &tape)
}

// What REWRITE and ACCOUNT refuse alike.
fn both_refuse(rt: &impl Print, book: &[u8], tape: &[u8], case: Case<'_>) -> io::Result<()> {
    case.rewrite(rt, book, tape)?;
    case.account(rt, book, tape)
}

// A tape that is too long, and one without symbols, also where there is no room.
fn too_long(rt: &impl Print, book: &[u8]) -> io::Result<()> {
    let mut tape = [0u8; TOO_LONG];
    tape_of(&mut tape);
    let ample = Case {
        lent: Lent::ample(),
        want: refused(9, 0),
        note: b"4,097 symbols",
    };
    let none = Case {
        lent: Lent::new(0, 0, 0, 0, 0, 0),
        want: refused(9, 0),
        note: b"no symbols and no room either",
    };
    both_refuse(rt, book, &tape, ample)?;
    both_refuse(rt, book, &[SYMBOLS; TOO_LONG], none)
}

// "first such position", whatever the room
fn bad_symbols(rt: &impl Print, book: &[u8]) -> io::Result<()> {
    let ample = Case {
        lent: Lent::ample(),
        want: refused(10, 2),
        note: b"symbol 32",
    };
    let none = Case {
        lent: Lent::new(0, 0, 0, 0, 0, 0),
        want: refused(10, 0),
        note: b"no room either",
    };
    both_refuse(rt, book, &[0, 1, SYMBOLS, 255], ample)?;
    both_refuse(rt, book, &[255], none)
}

pub(crate) fn all(rt: &impl Print) -> io::Result<()> {
    let bytes = books::PAIR;
    let book = front(&bytes, books::PAIR_LENGTH);
    pair_check(rt, book)?;
    pair_build(rt, book)?;
    pair_rewrite(rt, book)?;
    pair_account(rt, book)?;
    longest(rt, book)?;
    too_long(rt, book)?;
    bad_symbols(rt, book)
}
