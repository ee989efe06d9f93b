// The cases of a book whose sixteen rules each put in eight symbols at every position, the tape's end among them.
use super::tape_of;
use book::{END_SIZE, RULE_SIZE, RULES, STATE_SIZE, WORD};
use cases::expect::Tables;
use cases::{Case, Lent, Want};
use rewriter::{LINE_WORDS, LONGEST_TAPE};
use std::io;

// The records of one rule: each of its parts has the empty word alone.
const RECORDS: usize = RULE_SIZE + 3 * STATE_SIZE;

const RULE: [u8; RECORDS] = *b"\
    \x01\x08\x01\x02\x03\x04\x05\x06\x07\x08\
    \x02\x00\x03\
    \x02\x01\x03\
    \x02\x02\x03";

const ALL_RECORDS: usize = RULES * RECORDS;

const BYTES: usize = ALL_RECORDS + END_SIZE;

const POSITIONS: usize = LONGEST_TAPE + 1;

// "9n + 8"
const LONGEST_OUT: usize = WORD * POSITIONS + LONGEST_TAPE;

// The records of the rule, again and again.
fn repeat(bytes: &mut [u8]) {
    let rule = RULE;
    for (i, b) in bytes.iter_mut().enumerate() {
        *b = rule[i % RECORDS];
    }
}

fn case(want: Want, note: &[u8]) -> Case<'_> {
    Case {
        lent: Lent::ample(),
        want,
        note,
    }
}

fn full_cases(rt: &impl Print, book: &[u8], tape: &[u8]) -> io::Result<()> {
    let rules = Want::accepted(Tables::Full, [RULES, 3 * RULES, 0]);
    let sets = Want::accepted(Tables::Full, [1, 1, 0]);
    let symbols = Want::refused(Tables::Full, 15, LONGEST_OUT);
    let words = Want::refused(Tables::Full, 15, LINE_WORDS * RULES * POSITIONS);
    case(rules, b"16 rules that put in everywhere").check(rt, book)?;
    case(sets, b"no arc").build(rt, book)?;
    case(symbols, b"the longest output").rewrite(rt, book, tape)?;
    case(words, b"65,552 candidates").account(rt, book, tape)
}

pub(crate) fn all(rt: &impl Print) -> io::Result<()> {
    let mut book = [0u8; BYTES];
    repeat(&mut book);
    book[ALL_RECORDS] = book::END;
    let mut tape = [0u8; LONGEST_TAPE];
    tape_of(&mut tape);
    full_cases(rt, &book, &tape)
}
