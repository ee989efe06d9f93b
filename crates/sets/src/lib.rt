// BUILD: the two automata of a book.
#![tactic(auto)]

ghost use Rattle.std.specs.Prelude.{◌≡◌, ◌≤◌, length};
ghost use Rattle.book.specs.Reading.{check_def};
ghost use Rattle.sets.specs.Workspace.{row_bytes, set_words, build_leaves, build_def};
ghost use Rattle.sets.specs.Results.{built};

pub mod stepping; // stepping.rt: the step of a set
pub mod entries; // entries.rt: reading a built workspace
mod sides; // sides.rt: the two sides
mod numbering; // numbering.rt: the numbers of a side's sets
mod workspace; // workspace.rt: the parts of the workspace

use book::outline::Outline;
use book::replies::{Reason, Refusal};
use sides::Side;

// The numbers of document 01: the next numbers in a row, the rows and sets a side, and the two pieces of the workspace.
pub const ROW: usize = book::SYMBOLS as usize;

pub const MOST_SETS: usize = 256;

pub const PAIRS: usize = ROW * MOST_SETS;

pub const ROW_BYTES: usize = PAIRS + PAIRS;

pub const SET_WORDS: usize = MOST_SETS + MOST_SETS;

// The counts of left and of right sets, 1 to 256 each: the rows and sets of a side from its count on are all 0.
#[derive(Clone, Copy)]
pub struct Counts {
    pub left: usize,
    pub right: usize,
}

// BUILD's answer, which its callers hand on: a reply beside its counts, since the C interface has the same fields.
#[derive(Clone, Copy)]
pub struct Built {
    pub reply: u8, // 0, or why the workspace holds no automata: 1 to 8 are CHECK's, 11, 13 and 14 BUILD's own
    pub place: usize, // the place of CHECK's refusal, 0 with every other reply
    pub left: usize, // the count of left sets, 1 to 256 with reply 0 and 0 with every other: the left rows and sets from this number on are all 0
    pub right: usize, // the same of the right sets
}

// Each such conversion names the fields that C has, of its own type, once.
impl From<Result<Counts, Refusal>> for Built {
    ghost from_gives = { λ r b. b ≡ built r };

    fn from(counted: Result<Counts, Refusal>) -> Built {
        match counted {
            Ok(counts) => Built {
                reply: 0,
                place: 0,
                left: counts.left,
                right: counts.right,
            },
            Err(refusal) => Built {
                reply: refusal.reason.number(),
                place: refusal.place,
                left: 0,
                right: 0,
            },
        }
    }
}

// Both sides of an accepted book, into a workspace that is long enough: left, then right; 13 and 14 clear both. Public, and with a `requires`:
// who has checked the book and has its outline, as REWRITE and ACCOUNT have for their passes, lends it, and it is neither checked nor read once more.
// Rows and sets are document 01's two buffers, whose lengths the operations test: no type of the two.
pub fn number_both(outline: &Outline, rows: &mut [u8], sets: &mut [u64]) -> Result<Counts, Refusal>
    requires row_bytes_in_bounds { (row_bytes ≤ length rows.old) × (set_words ≤ length sets.old) }
    ensures { build_leaves (built result) rows.new sets.new ≡ build_def outline.now.states.book.now rows.old sets.old }
{
    let left = workspace::number_side(
        outline,
        Side::Left,
        &mut rows[..PAIRS],
        &mut sets[..MOST_SETS],
    );
    let Some(left) = left else {
        workspace::clear(rows, sets);
        return Err(Reason::ManyLeftSets.at(0));
    };
    let right = workspace::number_side(
        outline,
        Side::Right,
        &mut rows[PAIRS..ROW_BYTES],
        &mut sets[MOST_SETS..SET_WORDS],
    );
    let Some(right) = right else {
        workspace::clear(rows, sets);
        return Err(Reason::ManyRightSets.at(0));
    };
    Ok(Counts { left, right })
}

// The same, with the outline, which is taken from the book once for both sides: where each state's record stands, and the masks. Public, so that
// who has checked the book and the workspace himself, as HEAT has, need not have the book checked once more.
pub fn number_book(book: &[u8], rows: &mut [u8], sets: &mut [u64]) -> Result<Counts, Refusal>
    requires book_value { (check_def book.now).reply ≡ 0 }
    requires row_bytes_in_bounds { (row_bytes ≤ length rows.old) × (set_words ≤ length sets.old) }
    ensures { build_leaves (built result) rows.new sets.new ≡ build_def book.now rows.old sets.old }
{
    let mut places = [0u16; book::STATES];
    let mut masks = [0u64; book::outline::MASKS];
    book::outline::outline_of(book, &mut places, &mut masks);
    let outline = Outline::new(book, &places, &masks);
    number_both(&outline, rows, sets)
}

// Document 01's BUILD: any book, rows and sets get their counts, or the refusal.
pub fn try_build(book: &[u8], rows: &mut [u8], sets: &mut [u64]) -> Result<Counts, Refusal>
    ensures { build_leaves (built result) rows.new sets.new ≡ build_def book.now rows.old sets.old }
{
    book::read(book)?;
    if rows.len() < ROW_BYTES || sets.len() < SET_WORDS {
        return Err(Reason::ShortWorkspace.at(0));
    }
    number_book(book, rows, sets)
}

// BUILD's answer as a record of numbers.
pub fn build(book: &[u8], rows: &mut [u8], sets: &mut [u64]) -> Built
    ensures { build_leaves result rows.new sets.new ≡ build_def book.now rows.old sets.old }
{
    Built::from(try_build(book, rows, sets))
}
