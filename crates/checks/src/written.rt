// Books written record by record. Where a book has no more room a record is left out, and the case fails.
ghost use Rattle.std.specs.Prelude.{◌<◌};

use arrayvec::ArrayVec;
use book::{ACCEPT, ARC, BOTH, END, LAST_SYMBOL, LEFT, RULE, RULE_SIZE, START, STATE};

// Room for any book here.
pub(crate) type Book = ArrayVec<u8, 3000>;

// A rule with an empty word.
const NO_WORD: [u8; RULE_SIZE] = [RULE, 0, 0, 0, 0, 0, 0, 0, 0, 0];

pub(crate) fn change(book: &mut [u8], at: usize, byte: u8) {
    if let Some(old) = book.get_mut(at) {
        *old = byte;
    }
}

fn put(book: &mut Book, records: &[u8]) {
    let _ = book.try_extend_from_slice(records);
}

// The record n times.
fn repeat(book: &mut Book, record: &[u8], n: usize) {
    for _ in 0..n {
        put(book, record);
    }
}

// So many rules, states of the last and arcs of the last, from its state 0 to itself.
pub(crate) fn many(rules: usize, states: usize, arcs: usize) -> Book {
    let mut book = Book::new();
    repeat(&mut book, &NO_WORD, rules);
    repeat(&mut book, &[STATE, LEFT, BOTH], states);
    repeat(&mut book, &[ARC, 0, 0, LAST_SYMBOL, 0], arcs);
    put(&mut book, &[END]);
    book
}

// A chain's arc from j to j + 1 asks for the symbol where j is `asked`, and else for any.
fn chain_arc(j: u8, asked: u8, symbol: u8) -> [u8; book::ARC_SIZE]
    requires { j < 255 }
{
    if j == asked {
        return [ARC, j, symbol, symbol, j + 1];
    }
    [ARC, j, 0, LAST_SYMBOL, j + 1]
}

// One rule without focus states. States 0 to k are a chain of the part, which asks for the symbol at its arc `asked`; state k + 1
// is the other condition, which always holds.
pub(crate) fn chain(part: u8, other: u8, k: u8, asked: u8, symbol: u8) -> Book
    requires { 0 < k }
{
    let mut book = Book::new();
    put(&mut book, &NO_WORD);
    put(&mut book, &[STATE, part, START]);
    repeat(&mut book, &[STATE, part, 0], usize::from(k - 1));
    put(&mut book, &[STATE, part, ACCEPT, STATE, other, BOTH]);
    for j in 0..k {
        put(&mut book, &chain_arc(j, asked, symbol));
    }
    put(&mut book, &[END]);
    book
}
