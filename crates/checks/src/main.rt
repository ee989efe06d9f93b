// Runs what document 01 gives of books and does not mark as proved, and compares: the limits of records and of sets, and every reply number of CHECK with
// its place and its counts, also from BUILD, REWRITE and ACCOUNT, which hand it on. A line a case: ok or WRONG, operation, reply, place.
#![tactic(auto)]

mod written; // written.rt: books written record by record

use book::{LAST_SYMBOL, SYMBOLS};
use cases::expect::Tables;
use cases::{Case, Lent, TOO_LONG, Want, books, front};
use sets::{ROW_BYTES, SET_WORDS};
use std::io;

// The refusals of a book: a part of PAIR, from a place up to another, with the byte at a place changed; reply and place; the note.
const EDITS: [(usize, usize, usize, u8, u8, usize, &[u8]); 19] = [
    // cut
    (0, 0, 0, 1, 1, 0, b"nothing at all"),
    (0, 27, 0, 1, 1, 27, b"no kind byte after the arc"),
    (0, 26, 0, 1, 1, 22, b"the arc's body is cut"),
    // unknown kinds
    (0, 28, 27, 5, 2, 27, b"kind 5"),
    (0, 28, 10, 0, 2, 10, b"kind 0"),
    // no rule
    (10, 28, 0, 1, 4, 0, b"a state before any rule"),
    (22, 28, 0, 1, 4, 0, b"an arc before any rule"),
    (27, 28, 0, 1, 4, 0, b"an end before any rule"),
    // bad fields
    (0, 28, 1, 9, 5, 0, b"a word of nine symbols"),
    (0, 28, 2, SYMBOLS, 5, 0, b"a word with symbol 32"),
    (0, 28, 4, 1, 5, 0, b"an unused byte that is not 0"),
    (0, 28, 11, 3, 5, 10, b"part 3"),
    (0, 28, 12, 4, 5, 10, b"flags 4"),
    // bad arcs
    (0, 28, 24, 2, 5, 22, b"lowest above highest"),
    (0, 28, 25, SYMBOLS, 5, 22, b"an arc for symbol 32"),
    (0, 28, 26, 4, 6, 22, b"an arc to a state that is not given"),
    (0, 28, 23, 200, 6, 22, b"an arc from a state that cannot be"),
    (0, 28, 26, 0, 6, 22, b"an arc to another part"),
    // bad end
    (0, 29, 0, 1, 8, 28, b"a byte after the end"),
];

// A book that CHECK refuses is refused by all, also beside a tape that is too long and has no symbols;
// the reply as document 01 numbers it (see `Want::refused`).
fn refused_book(
    rt: &impl Print,
    book: &[u8],
    reply: u8,
    place: usize,
    note: &[u8],
) -> io::Result<()> {
    let tape = [SYMBOLS; TOO_LONG];
    let case = Case {
        lent: Lent::ample(),
        want: Want::refused(Tables::Untouched, reply, place),
        note,
    };
    case.check(rt, book)?;
    case.build(rt, book)?;
    case.rewrite(rt, book, &tape)?;
    case.account(rt, book, &tape)
}

fn edit_cases(rt: &impl Print) -> io::Result<()> {
    for (from, to, at, byte, reply, place, note) in EDITS {
        let mut book = books::PAIR;
        written::change(&mut book, at, byte);
        if let Some(part) = book.get(from..to) {
            refused_book(rt, part, reply, place, note)?;
        }
    }
    Ok(())
}

fn accepted_book(rt: &impl Print, book: &[u8], counts: [usize; 3], note: &[u8]) -> io::Result<()> {
    let case = Case {
        lent: Lent::ample(),
        want: Want::accepted(Tables::Untouched, counts),
        note,
    };
    case.check(rt, book)
}

// "Symbols run from 0 to 31"
fn last_symbols(rt: &impl Print) -> io::Result<()> {
    let mut book = books::PAIR;
    written::change(&mut book, 2, LAST_SYMBOL);
    written::change(&mut book, 25, LAST_SYMBOL);
    accepted_book(
        rt,
        front(&book, books::PAIR_LENGTH),
        [1, 4, 1],
        b"a word with symbol 31 and an arc for it",
    )
}

// "7 is no longer given"
// Beside `last_symbols`: two tests, each with its sentence and its bytes.
fn empty_focus(rt: &impl Print) -> io::Result<()> {
    let mut book = books::PAIR;
    written::change(&mut book, 15, book::BOTH);
    accepted_book(
        rt,
        front(&book, books::PAIR_LENGTH),
        [1, 4, 1],
        b"a focus state with flags 3",
    )
}

// Rules, states and arcs of a book, the place of its refusal where it has one too many, and the note.
const COUNTS: [(usize, usize, usize, Option<usize>, &[u8]); 6] = [
    (16, 0, 0, None, b"16 rules"),
    (17, 0, 0, Some(160), b"17 rules"),
    (1, 64, 0, None, b"64 states"),
    (1, 65, 0, Some(202), b"65 states"),
    (1, 1, 512, None, b"512 arcs"),
    (1, 1, 513, Some(2573), b"513 arcs"),
];

fn count_cases(rt: &impl Print) -> io::Result<()> {
    for (rules, states, arcs, too_many, note) in COUNTS {
        let book = written::many(rules, states, arcs);
        match too_many {
            None => accepted_book(rt, book.as_slice(), [rules, states, arcs], note)?,
            Some(place) => refused_book(rt, book.as_slice(), 3, place, note)?,
        }
    }
    Ok(())
}

// More than 256 sets: BUILD, REWRITE and ACCOUNT refuse, also with no room for an output; a scratch that is too short comes first;
// the reply as document 01 numbers it (see `Want::refused`).
fn unbuilt(rt: &impl Print, book: &[u8], reply: u8, note: &[u8]) -> io::Result<()> {
    let tape = [0, 1];
    let want = Want::refused(Tables::Untouched, reply, 0);
    let ample = Case {
        lent: Lent::ample(),
        want,
        note,
    };
    let enough = Case {
        lent: Lent::new(ROW_BYTES, SET_WORDS, 3, 0, 0, 0),
        want,
        note,
    };
    let short = Case {
        lent: Lent::new(ROW_BYTES, SET_WORDS, 2, 0, 0, 0),
        want: Want::refused(Tables::Untouched, 12, 0),
        note,
    };
    ample.build(rt, book)?;
    enough.rewrite(rt, book, &tape)?;
    enough.account(rt, book, &tape)?;
    short.rewrite(rt, book, &tape)
}

#[derive(Clone, Copy)]
enum Side {
    Left,
    Right,
}

// "A left part that asks for symbol 1 exactly" 8 "places before the present position, with a full range after it", and 9 places; "The
// mirror image on the right"
fn chain_cases(
    rt: &impl Print,
    side: Side,
    symbol: u8,
    built: &[u8],
    many: &[u8],
) -> io::Result<()> {
    let (book, longer, want, reply) = match side {
        Side::Left => (
            written::chain(book::LEFT, book::RIGHT, 8, 0, symbol),
            written::chain(book::LEFT, book::RIGHT, 9, 0, symbol),
            Want::accepted(Tables::Left(symbol), [256, 1, 0]),
            13,
        ),
        Side::Right => (
            written::chain(book::RIGHT, book::LEFT, 8, 7, symbol),
            written::chain(book::RIGHT, book::LEFT, 9, 8, symbol),
            Want::accepted(Tables::Right(symbol), [1, 256, 0]),
            14,
        ),
    };
    let case = Case {
        lent: Lent::ample(),
        want,
        note: built,
    };
    case.build(rt, book.as_slice())?;
    unbuilt(rt, longer.as_slice(), reply, many)
}

// The same for symbol 31, which comes last in the numbering.
fn set_cases(rt: &impl Print) -> io::Result<()> {
    chain_cases(rt, Side::Left, 1, b"256 left sets", b"512 left sets")?;
    chain_cases(rt, Side::Right, 1, b"256 right sets", b"512 right sets")?;
    chain_cases(
        rt,
        Side::Left,
        LAST_SYMBOL,
        b"256 left sets by symbol 31",
        b"512 left sets by symbol 31",
    )?;
    chain_cases(
        rt,
        Side::Right,
        LAST_SYMBOL,
        b"256 right sets by symbol 31",
        b"512 right sets by symbol 31",
    )
}

fn main(rt: HostRuntime) -> io::Result<()> {
    edit_cases(&rt)?;
    last_symbols(&rt)?;
    empty_focus(&rt)?;
    count_cases(&rt)?;
    set_cases(&rt)
}
