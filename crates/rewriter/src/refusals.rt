// The refusals before anything is built: of the book, of the tape, and of buffers that are too short.
ghost use Rattle.std.specs.Prelude.{◌≡◌, ◌<◌, length, MatchOption, IfOk};
ghost use Rattle.book.specs.Reading.{book_of};
ghost use Rattle.rewriter.specs.Replies.{first_bad, early};
ghost use Rattle.stretches.specs.Lists.{greatest};
ghost use Rattle.rewriter.specs.Opening.{refusal_of, tape_refusal};

use super::LONGEST_TAPE;
use book::replies::{Reason, Refusal};

// The greatest symbol of the tape, 0 for none. A fold has no way out, so that many symbols are looked at in one step.
fn greatest(tape: &[u8]) -> u8
    ensures { result ≡ greatest 0 tape.now }
{
    tape.iter().fold(0, |top, symbol| top.max(*symbol))
}

// The first place of the tape whose symbol is none. Only a tape that has such a place is searched for it.
fn first_bad(tape: &[u8]) -> Option<usize>
    ensures { MatchOption result (first_bad tape.now ≡ length tape.now) (λ i. (i ≡ first_bad tape.now) × (i < length tape.now)) }
{
    if greatest(tape) < book::SYMBOLS {
        return None;
    }
    tape.iter().position(|symbol| book::SYMBOLS <= *symbol)
}

// The refusals of a tape alone, 9 and 10.
pub(crate) fn of_tape(tape: &[u8]) -> Result<(), Refusal>
    ensures { refusal_of result ≡ tape_refusal tape.now }
{
    if LONGEST_TAPE < tape.len() {
        return Err(Reason::LongTape.at(0));
    }
    match first_bad(tape) {
        Some(place) => Err(Reason::BadSymbol.at(place)),
        None => Ok(()),
    }
}

// The refusals of the book, of the tape, and of the lengths of rows, sets and scratch, in this order; where there is none, how many rules the book has:
// the passes try that many.
pub(crate) fn early(
    book: &[u8],
    tape: &[u8],
    rows: usize,
    sets: usize,
    scratch: usize,
) -> Result<usize, Refusal>
    ensures refusal { refusal_of result ≡ early book.now tape.now rows sets scratch }
    ensures counted { IfOk result (λ rules. rules ≡ length (book_of book.now).words) }
{
    let counts = book::read(book)?;
    of_tape(tape)?;
    if rows < sets::ROW_BYTES {
        return Err(Reason::ShortWorkspace.at(0)); // the bytes
    }
    if sets < sets::SET_WORDS {
        return Err(Reason::ShortWorkspace.at(0)); // the sets
    }
    if scratch <= tape.len() {
        return Err(Reason::ShortScratch.at(0));
    }
    Ok(counts.rules)
}
