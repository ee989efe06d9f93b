// ACCOUNT's passes over one tape: the candidates are counted before the first word is written, so that a refusal leaves the account as it was.
#![tactic(auto)]

ghost use Rattle.std.specs.Prelude.{◌≡◌, length};
ghost use Rattle.book.specs.Reading.{book_of};
ghost use Rattle.book.specs.Language.{rules_in};
ghost use Rattle.stretches.specs.Account.{account};
ghost use Rattle.lines.specs.Results.{accounted};
ghost use Rattle.lines.specs.Listing.{lines_leave, lines_def};
ghost use Rattle.lines.specs.Coming.{bytes, rules_for, tape_of};
ghost use Rattle.lines.specs.Lines.{hit_count, start_count};

use crate::ends::{End, Start, Starts};
use crate::writing::write_lines;
use book::outline::ALL_ACCEPTS;
use book::replies::{Reason, Refusal};
use stretches::pass::Pass;

mod ends; // ends.rt: the starts of a tape and the ends of each, in the account's order
mod writing; // writing.rt: the lines of the account, one after the other

// The words of a line of an account, and where each stands in it.
pub const LINE_WORDS: usize = 6;

pub const LINE_RULE: usize = 0;

pub const LINE_START: usize = 1;

pub const LINE_END: usize = 2;

pub const LINE_VERDICT: usize = 3;

pub const LINE_DECIDING: usize = 4;

pub const LINE_DECIDING_RULE: usize = 5;

// ACCOUNT's answer, in document 01's numbers: the C interface has the same fields.
#[derive(Clone, Copy)]
pub struct Accounted {
    // 0, or the refusal: here 15 alone, the account too short.
    pub reply: u8,
    // 0, or for 15 the number of words needed.
    pub place: usize,
    // How many lines were written, 0 where it is refused: the caller reads so many.
    pub candidates: usize,
}

// Each such conversion names the fields that C has, of its own type, once.
impl From<Result<usize, Refusal>> for Accounted {
    ghost from_gives = { λ r a. a ≡ accounted r };

    fn from(counted: Result<usize, Refusal>) -> Accounted {
        match counted {
            Ok(n) => Accounted {
                reply: 0,
                place: 0,
                candidates: n,
            },
            Err(refusal) => Accounted {
                reply: refusal.reason.number(),
                place: refusal.place,
                candidates: 0,
            },
        }
    }
}

// How many rules pass at an end. At most ends the set holds no focus accept.
fn hit_count(end: &End) -> usize
    ensures { result ≡ hit_count (book_of (bytes end.now.start)) end.now.set end.now.right }
{
    let walk = &end.start.pass.walk;
    if end.set & walk.outline.masks[ALL_ACCEPTS] == 0 {
        return 0;
    }
    (0..walk.rules)
        .filter(|rule| walk.hits(end.set, end.right, *rule))
        .count()
}

// How many candidates start at a position.
fn start_count(start: &Start) -> usize
    ensures { result ≡ start_count (rules_for start.now) (tape_of start.now) start.now.at }
{
    let mut n = 0;
    for end in start.ends() {
        n += hit_count(&end);
    }
    n
}

// How many candidates the tape has.
fn count(pass: &Pass) -> usize
    ensures { result ≡ length (account (rules_in pass.now.walk.outline.states.book.now) pass.now.walk.tape.now) }
{
    let mut n = 0;
    for start in Starts::of(pass) {
        n += start_count(&start);
    }
    n
}

// The account of one tape after a build and its backward pass: counts, then writes. Answers the number of candidates, or is refused with 15 and nothing
// written where the account is too short. Public, as `output::rewrite_ready` is: who accounts calls it after a build, with what a pass is lent.
pub fn account_ready(pass: &Pass, lines: &mut [u16]) -> Result<usize, Refusal>
    ensures { lines_leave (accounted result) lines.new ≡ lines_def (rules_in pass.now.walk.outline.states.book.now) pass.now.walk.tape.now lines.old }
{
    let candidates = count(pass);
    if lines.len() / LINE_WORDS < candidates {
        return Err(Reason::NoRoom.at(LINE_WORDS * candidates));
    }
    write_lines(pass, lines);
    Ok(candidates)
}
