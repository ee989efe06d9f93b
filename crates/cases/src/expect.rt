// What document 01 says must stand in each buffer after a call, worked out by hand for each book, as a value for each element.
ghost use Rattle.std.specs.Prelude.{◌≡◌, ◌%◌};

use rewriter::LINE_WORDS;
use sets::{MOST_SETS, PAIRS, ROW};

// What stands in every element before a call.
pub(crate) const OLD: u8 = 165;

// What stands in the workspace afterwards: nothing new, all 0, or the tables of a book.
#[derive(Clone, Copy)]
pub enum Tables {
    Untouched,
    Cleared,
    Pair,
    Long,
    Left(u8), // a chain on the left, which asks for this symbol
    Right(u8), // its mirror image on the right
    Full,
}

impl Tables {
    // "1 to 12 change no buffer. 13 and 14 leave the workspace parts all 0 and nothing else changed. 15 leaves workspace and scratch as
    // acceptance does": by document 01's numbers, as the sentence has them.
    pub(crate) fn after(self, reply: u8) -> Tables {
        match reply {
            0 | 15 => self,
            13..=14 => Tables::Cleared,
            _ => Tables::Untouched,
        }
    }

    pub(crate) fn row(self, i: usize) -> u8 {
        if 2 * PAIRS <= i {
            return OLD;
        }
        match self {
            Tables::Untouched => OLD,
            Tables::Pair => pair_row(i),
            Tables::Long => long_row(i),
            Tables::Left(symbol) => left_row(i, symbol),
            Tables::Right(symbol) => right_row(i, symbol),
            Tables::Cleared | Tables::Full => 0,
        }
    }

    pub(crate) fn set(self, i: usize) -> u64 {
        if 2 * MOST_SETS <= i {
            return u64::from(OLD);
        }
        match self {
            Tables::Untouched => u64::from(OLD),
            Tables::Pair | Tables::Long => small_set(i),
            Tables::Left(_) => left_set(i),
            Tables::Right(_) => right_set(i),
            Tables::Full => full_set(i),
            Tables::Cleared => 0,
        }
    }

    // "Scratch byte i, for i from 0 to n, is the number of the right set at i."
    pub(crate) fn scratch(self, n: usize, i: usize) -> u8 {
        if n < i {
            return OLD;
        }
        match self {
            Tables::Pair => { if i == n { 0 } else { symbol(i) } }
            Tables::Long => { if i == n { 0 } else { 1 } }
            Tables::Full => 0,
            _ => OLD,
        }
    }
}

// A chain's sets are the last eight symbols, a bit for each that is the one asked for, in the order of their numbers: set k leads to 2 k, with
// the one asked for to 2 k + 1, and the ninth symbol back is forgotten.
fn chain_row(i: usize, asked: u8) -> u8 {
    let next = 2 * (i / ROW % MOST_SETS);
    if i % ROW == usize::from(asked) {
        return ((next + 1) % MOST_SETS) as u8;
    }
    (next % MOST_SETS) as u8
}

fn left_row(i: usize, asked: u8) -> u8 {
    if i < PAIRS { chain_row(i, asked) } else { 0 }
}

fn right_row(i: usize, asked: u8) -> u8 {
    if i < PAIRS {
        0
    } else {
        chain_row(i - PAIRS, asked)
    }
}

// PAIR and LONG have one left set. Right set 0 holds the accepting focus state and the right state, set 1 the starting one too.
// Symbol 1 in front gives set 1 in PAIR, any symbol in LONG.
fn pair_row(i: usize) -> u8 {
    u8::from((i == PAIRS + 1) | (i == PAIRS + ROW + 1))
}

fn long_row(i: usize) -> u8 {
    u8::from((PAIRS <= i) & (i < PAIRS + 2 * ROW))
}

fn small_set(i: usize) -> u64 {
    if i == 0 {
        return 1;
    }
    if i == MOST_SETS {
        return 12;
    }
    if i == MOST_SETS + 1 { 14 } else { 0 }
}

// State 0 always, state j where the symbol j places back is the one asked for; on the right one set of state 9.
fn left_set(i: usize) -> u64 {
    if i < MOST_SETS {
        return 2 * (i as u64) + 1;
    }
    if i == MOST_SETS { 512 } else { 0 }
}

// State 8 always, state 7 - j where the symbol j places on is the one asked for; on the left one set of state 9.
fn right_set(i: usize) -> u64 {
    if i == 0 {
        return 512;
    }
    if i < MOST_SETS {
        0
    } else {
        256 + u64::from(mirrored(i))
    }
}

// The eight lowest bits, turned round.
fn mirrored(number: usize) -> u8 {
    ((number % 256) as u8).reverse_bits()
}

// FULL has one set on each side: the left state of each of its sixteen rules, every third from state 0 on, and its other two.
fn full_set(i: usize) -> u64 {
    let left: u64 = 0x2492_4924_9249;
    if i == 0 {
        return left;
    }
    if i == MOST_SETS { 6 * left } else { 0 }
}

// The tapes are 0 1 0 1 ..
pub fn symbol(i: usize) -> u8
    ensures { result ≡ i % 2 }
{
    (i % 2) as u8
}

// PAIR's output is 0 7 8 0 7 8 .., of which 7 and 8 stand for the 1 at an odd position.
pub(crate) fn output(front: usize, i: usize) -> u8 {
    if front <= i {
        return OLD;
    }
    match i % 3 {
        0 => 0,
        1 => 7,
        _ => 8,
    }
}

pub(crate) fn origin(front: usize, i: usize) -> usize {
    if front <= i {
        return usize::from(OLD);
    }
    if i % 3 == 0 {
        return i / 3 * 2;
    }
    i / 3 * 2 + 1
}

// PAIR's account: each 1, at the odd positions, is a candidate of rule 0, and taken.
pub(crate) fn line_word(front: usize, i: usize) -> usize {
    if front <= i / LINE_WORDS {
        return usize::from(OLD);
    }
    let start = i / LINE_WORDS * 2 + 1;
    match i % LINE_WORDS {
        1 => start,
        2 => start + 1,
        4 => start,
        _ => 0,
    }
}
