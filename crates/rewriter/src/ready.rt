// What REWRITE and ACCOUNT share after the refusals: build and backward pass; and what is left of it for one tape after a build.
ghost use Rattle.std.specs.Prelude.{◌≡◌, ◌≤◌, ◌<◌, length};
ghost use Rattle.sets.specs.Workspace.{row_bytes};
ghost use Rattle.stretches.specs.Buffers.{onto};
ghost use Rattle.rewriter.specs.Replies.{early, ready_leaves, ready_def};
ghost use Rattle.book.specs.Reading.{check_def, book_of};
ghost use Rattle.book.specs.Outline.{Placed, Masked};
ghost use Rattle.stretches.specs.Ready.{Ready};
ghost use Rattle.rewriter.specs.Opening.{refusal_of, Symbols, right_all, opens, open_def};

use super::refusals::of_tape;
use book::outline::{MASKS, Outline};
use book::replies::{Reason, Refusal};
use stretches::pass::Pass;
use stretches::walk::Walk;

// The backward pass: the number of the right set at each place of the tape, from 0 at its end, by the right rows.
pub(crate) fn backward(tape: &[u8], rows: &[u8], scratch: &mut [u8])
    requires tape_in_bounds { length tape.now < length scratch.old }
    requires row_bytes_in_bounds { row_bytes ≤ length rows.now }
    requires symbols { Symbols tape.now }
    ensures { scratch.new ≡ onto (right_all rows.now tape.now) scratch.old }
{
    let mut number: u8 = 0;
    scratch[tape.len()] = 0;
    for i in (0..tape.len()).rev() {
        number = sets::entries::right_entry(rows, number, tape[i]);
        scratch[i] = number;
    }
}

// The replies of the build, 13 and 14, where none came before them; where it is not refused the workspace holds the book's two automata, and the scratch
// the numbers of the tape's right sets.
#[tactic(auto, using(crate::proofs::MakeReady::handed_on, crate::proofs::MakeReady::number_over))]
pub(crate) fn make_ready(
    outline: &Outline,
    tape: &[u8],
    rows: &mut [u8],
    sets: &mut [u64],
    scratch: &mut [u8],
) -> Result<(), Refusal>
    requires { (early outline.now.states.book.now tape.now (length rows.old) (length sets.old) (length scratch.old)).reply ≡ 0 }
    ensures { ready_leaves (refusal_of result) rows.new sets.new scratch.new
        ≡ ready_def outline.now.states.book.now tape.now rows.old sets.old scratch.old }
{
    sets::number_both(outline, rows, sets)?;
    backward(tape, rows, scratch);
    Ok(())
}

// One tape after a build: 9, 10 and 12, and where none is given the backward pass.
pub(crate) fn tape_ready(tape: &[u8], rows: &[u8], scratch: &mut [u8]) -> Result<(), Refusal>
    requires { row_bytes ≤ length rows.now }
    ensures { opens (refusal_of result) scratch.new ≡ open_def rows.now tape.now scratch.old }
{
    of_tape(tape)?;
    if scratch.len() <= tape.len() {
        return Err(Reason::ShortScratch.at(0));
    }
    backward(tape, rows, scratch);
    Ok(())
}

// What the forward passes are lent, where all is ready. Each loan comes alone, so that the call gives them one lifetime; tried with an `Outline` in the
// place of the first three: a struct whose loans are shortened once more by a call gets no proof.
pub(crate) fn pass_over<'a>(
    book: &'a [u8],
    places: &'a [u16; book::STATES],
    masks: &'a [u64; MASKS],
    rules: usize,
    tape: &'a [u8],
    rows: &'a [u8],
    sets: &'a [u64],
    scratch: &'a [u8],
) -> Pass<'a>
    requires placed { Placed (book_of book.now).states places.now }
    requires masked { Masked (book_of book.now).states masks.now }
    requires counted { rules ≡ length (book_of book.now).words }
    requires ready { Ready book.now tape.now rows.now sets.now scratch.now }
    ensures { (result.walk.outline.states.book.now ≡ book.now) × (result.walk.tape.now ≡ tape.now) }
{
    let outline = Outline::new(book, places, masks);
    let walk = Walk {
        outline,
        rules,
        tape,
        sets,
        scratch,
    };
    Pass { walk, rows }
}
