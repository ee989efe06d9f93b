// The rewriter: REWRITE, ACCOUNT and SHOW.
#![tactic(auto)]

ghost use Rattle.std.specs.Prelude.{◌≡◌, length};
ghost use Rattle.book.specs.Reading.{book_of};
ghost use Rattle.sets.specs.Tables.{AsBuilt};
ghost use Rattle.rewriter.specs.Replies.{rewrite_leaves, rewrite_def, account_leaves, account_def};
ghost use Rattle.output.specs.Results.{rewritten};
ghost use Rattle.lines.specs.Results.{accounted};

use crate::ready::{make_ready, pass_over, tape_ready};
use crate::refusals::early;
use book::outline::{MASKS, Outline, outline_of};
use book::replies::Refusal;

mod refusals; // refusals.rt: the refusals before anything is built
mod ready; // ready.rt: what REWRITE and ACCOUNT share after the refusals, and one tape after a build
pub mod shown; // shown.rt: the stretch of the tape that a line of an account names

pub use lines::{Accounted, LINE_WORDS};
pub use output::{Rewritten, Size};
pub use shown::{bounds_of, show};

// "tape 0 to 4,096 symbols"
pub const LONGEST_TAPE: usize = 4096;

// Document 01's REWRITE: any book, any tape and any buffers get their reply. The buffers of this function and of the four
// below are slices of their own, as document 01 has them lent.
pub fn rewrite(
    book: &[u8],
    tape: &[u8],
    rows: &mut [u8],
    sets: &mut [u64],
    scratch: &mut [u8],
    out: &mut [u8],
    origins: &mut [u16],
) -> Rewritten
    ensures { rewrite_leaves result rows.new sets.new scratch.new out.new origins.new
        ≡ rewrite_def book.now tape.now rows.old
        sets.old scratch.old out.old origins.old }
{
    Rewritten::from(try_rewrite(book, tape, rows, sets, scratch, out, origins))
}

// REWRITE as a result: the size of what it wrote, or the refusal.
pub fn try_rewrite(
    book: &[u8],
    tape: &[u8],
    rows: &mut [u8],
    sets: &mut [u64],
    scratch: &mut [u8],
    out: &mut [u8],
    origins: &mut [u16],
) -> Result<Size, Refusal>
    ensures { rewrite_leaves (rewritten result) rows.new sets.new scratch.new out.new origins.new
        ≡ rewrite_def book.now tape.now rows.old
        sets.old scratch.old out.old origins.old }
{
    let rules = early(book, tape, rows.len(), sets.len(), scratch.len())?; // 1 to 12 change no buffer
    let mut places = [0u16; book::STATES];
    let mut masks = [0u64; MASKS];
    outline_of(book, &mut places, &mut masks);
    let outline = Outline::new(book, &places, &masks);
    make_ready(&outline, tape, rows, sets, scratch)?;
    let pass = pass_over(book, &places, &masks, rules, tape, rows, sets, scratch);
    output::rewrite_ready(&pass, out, origins)
}

// REWRITE where rows and sets are as BUILD left them for this book: nothing is checked or built again, and the answer is REWRITE's. Public,
// and with a `requires`: who rewrites many tapes after one build calls it once a tape.
pub fn rewrite_built(
    book: &[u8],
    tape: &[u8],
    rules: usize,
    rows: &[u8],
    sets: &[u64],
    scratch: &mut [u8],
    out: &mut [u8],
    origins: &mut [u16],
) -> Result<Size, Refusal>
    requires as_built { AsBuilt book.now rows.now sets.now }
    requires rules_value { rules ≡ length (book_of book.now).words }
    ensures { rewrite_leaves (rewritten result) rows.now sets.now scratch.new out.new origins.new
        ≡ rewrite_def book.now tape.now rows.now
        sets.now scratch.old out.old origins.old }
{
    tape_ready(tape, rows, scratch)?;
    let mut places = [0u16; book::STATES];
    let mut masks = [0u64; MASKS];
    outline_of(book, &mut places, &mut masks);
    let pass = pass_over(book, &places, &masks, rules, tape, rows, sets, scratch);
    output::rewrite_ready(&pass, out, origins)
}

// Document 01's ACCOUNT: any book, any tape and any buffers get their reply.
pub fn account(
    book: &[u8],
    tape: &[u8],
    rows: &mut [u8],
    sets: &mut [u64],
    scratch: &mut [u8],
    lines: &mut [u16],
) -> Accounted
    ensures { account_leaves result rows.new sets.new scratch.new lines.new
        ≡ account_def book.now tape.now rows.old sets.old scratch.old lines.old }
{
    Accounted::from(try_account(book, tape, rows, sets, scratch, lines))
}

// ACCOUNT as a result: how many candidates it listed, or the refusal. With REWRITE it shares these calls by `?` and no more: one function with the pass
// as a closure would have to say in `F.pre` and `F.post` what `Pass` and the lent arrays say.
pub fn try_account(
    book: &[u8],
    tape: &[u8],
    rows: &mut [u8],
    sets: &mut [u64],
    scratch: &mut [u8],
    lines: &mut [u16],
) -> Result<usize, Refusal>
    ensures { account_leaves (accounted result) rows.new sets.new scratch.new lines.new
        ≡ account_def book.now tape.now rows.old sets.old scratch.old lines.old }
{
    let rules = early(book, tape, rows.len(), sets.len(), scratch.len())?; // the account stays on 1 to 12
    let mut places = [0u16; book::STATES];
    let mut masks = [0u64; MASKS];
    outline_of(book, &mut places, &mut masks);
    let outline = Outline::new(book, &places, &masks);
    make_ready(&outline, tape, rows, sets, scratch)?;
    let pass = pass_over(book, &places, &masks, rules, tape, rows, sets, scratch);
    lines::account_ready(&pass, lines)
}
