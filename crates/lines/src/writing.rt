// The lines of the account: for each start the ends in order, and for each end the rules.
ghost use Rattle.std.specs.Prelude.{◌≡◌, ◌∷◌, [], ◌+◌, ◌≤◌, ◌<◌, length};
ghost use Rattle.book.specs.Format.{most_rules};
ghost use Rattle.book.specs.Reading.{book_of};
ghost use Rattle.book.specs.Language.{rules_in};
ghost use Rattle.stretches.specs.Account.{judge, verdict_by, account, line_length, words_in};
ghost use Rattle.stretches.specs.Buffers.{longest_tape, onto};
ghost use Rattle.stretches.specs.Ready.{Remembers};
ghost use Rattle.lines.specs.Coming.{bytes, rules_for, tape_of};
ghost use Rattle.lines.specs.Lines.{deciding_at, decided, code, DecidesBy, hit_lines, start_lines, Fits, Puts};

use crate::ends::{End, Start, Starts};
use crate::{
    LINE_DECIDING, LINE_DECIDING_RULE, LINE_END, LINE_RULE, LINE_START, LINE_VERDICT, LINE_WORDS,
};
use book::outline::ALL_ACCEPTS;
use stretches::pass::Pass;
use stretches::steps::Steps;

// The taken stretch that decides at a position: the one that starts there or covers it. That its numbers fit the words of a line say the contracts
// (`DecidesBy`) and not its type: the definition `decider` makes one of any tape and stretch.
#[derive(Clone, Copy)]
pub struct Deciding {
    // Where it starts, at most the position: the fifth word of a line.
    pub start: usize,
    // Where it ends: the next position that it does not cover decides anew, and a candidate that ends before it is shorter.
    pub end: usize,
    // Its rule's number: of candidates of the same stretch that of the lowest rule is taken. The sixth word of a line.
    pub rule: usize,
}

// What becomes of a candidate, with document 01's numbers.
#[derive(Clone, Copy)]
enum Verdict {
    Taken = 0,
    Shorter = 1, // than the taken one at the same start
    LowerRule = 2, // taken of the same stretch
    Inside = 3, // its start strictly inside a taken stretch
}

impl Verdict {
    // By name, and no `From`, which would be no plainer: `code` is the word's.
    fn number(self) -> u16
        ensures { result ≡ code self }
    {
        self as u16
    }
}

// The account as far as it is written: the words that ACCOUNT is lent (document 01, the C interface), and the place of the next line.
#[derive(Drop)]
struct Account<'a> {
    lines: &'a mut [u16],
    // Where the next line begins.
    at: usize,
}

// The verdict on the candidate of rule r from i to j, where d decides.
fn verdict_of(i: usize, j: usize, r: usize, d: Deciding) -> Verdict
    ensures { code result ≡ verdict_by i j r d.start d.end d.rule }
{
    if d.start < i {
        return Verdict::Inside;
    }
    if j < d.end {
        return Verdict::Shorter;
    }
    if d.rule < r {
        return Verdict::LowerRule;
    }
    Verdict::Taken
}

// The words of the line of the candidate of rule r that ends there, where d decides. One store after the other: an array of the six is put on the stack
// before it is copied here, and an account of many lines then takes up to 1.3 of the time.
fn put_line(end: &End, r: usize, verdict: Verdict, d: Deciding, to: &mut Account)
    requires r_lt_most_rules { (r < most_rules) × DecidesBy longest_tape d }
    requires room { to.old.at + line_length ≤ length to.old.lines.now }
    ensures { Puts (judge end.now.start.at end.now.at r (code verdict) d.start d.rule ∷ []) to.old to.new }
{
    to.lines[to.at + LINE_RULE] = r as u16;
    to.lines[to.at + LINE_START] = end.start.at as u16;
    to.lines[to.at + LINE_END] = end.at as u16;
    to.lines[to.at + LINE_VERDICT] = verdict.number();
    to.lines[to.at + LINE_DECIDING] = d.start as u16;
    to.lines[to.at + LINE_DECIDING_RULE] = d.rule as u16;
    to.at += LINE_WORDS;
}

// The lines of one end. At most ends the set holds no focus accept.
fn put_rules(end: &End, d: Deciding, to: &mut Account)
    requires decides { DecidesBy longest_tape d }
    requires room { Fits (hit_lines (book_of (bytes end.now.start)) end.now.set end.now.right end.now.start.at end.now.at d) to.old }
    ensures { Puts (hit_lines (book_of (bytes end.now.start)) end.now.set end.now.right end.now.start.at end.now.at d) to.old to.new }
{
    let walk = &end.start.pass.walk;
    if end.set & walk.outline.masks[ALL_ACCEPTS] == 0 {
        return;
    }
    for r in 0..walk.rules {
        if walk.hits(end.set, end.right, r) {
            put_line(end, r, verdict_of(end.start.at, end.at, r, d), d, to);
        }
    }
}

// The lines of one start.
fn lines_at(start: &Start, d: Deciding, to: &mut Account)
    requires decides { DecidesBy start.now.at d }
    requires room { Fits (start_lines (rules_for start.now) (tape_of start.now) start.now.at d) to.old }
    ensures { Puts (start_lines (rules_for start.now) (tape_of start.now) start.now.at d) to.old to.new }
{
    for end in start.ends() {
        put_rules(&end, d, to);
    }
}

// What decides at a start, where `last` decides at the one before: none where no taken stretch starts there or covers it, and then no candidate starts
// there either.
fn deciding_at(start: &Start, last: Option<Deciding>, steps: &mut Steps) -> Option<Deciding>
    requires { Remembers (book_of (bytes start.now)) steps.old }
    ensures value { decided start.now.at result ≡ deciding_at (rules_for start.now) (tape_of start.now) start.now.at (decided start.now.at last) }
    ensures remembers { Remembers (book_of (bytes start.now)) steps.new }
{
    if let Some(d) = last {
        if start.at < d.end {
            return last;
        }
    }
    let taken = start.pass.walk.taken_at(start.at, start.left, steps)?;
    Some(Deciding {
        start: start.at,
        end: taken.end,
        rule: taken.rule,
    })
}

// The whole account, where there is room for it. As a part of its caller, which counts too, it has fewer registers for its loops, and accounts take up to
// 1.3 of the time.
#[inline(never)]
pub(crate) fn write_lines(pass: &Pass, lines: &mut [u16])
    requires { length (words_in (account (rules_in pass.now.walk.outline.states.book.now) pass.now.walk.tape.now)) ≤ length lines.old }
    ensures { lines.new ≡ onto (words_in (account (rules_in pass.now.walk.outline.states.book.now) pass.now.walk.tape.now)) lines.old }
{
    let mut steps = Steps::new();
    let mut last = None;
    let mut to = Account { lines, at: 0 };
    for start in Starts::of(pass) {
        last = deciding_at(&start, last, &mut steps);
        if let Some(d) = last {
            lines_at(&start, d, &mut to);
        }
    }
}
