// The stretches of a tape in the account's order: one start after the other, and from each the ends at which a candidate may be met. The walk from a
// start ends right after its last candidate.
ghost use Rattle.std.specs.Prelude.{◌≡◌, ◌≤◌, ◌<◌, ◌+◌, suc, length};
ghost use Rattle.book.specs.Reading.{book_of};
ghost use Rattle.sets.specs.Sets.{left_at};
ghost use Rattle.sets.specs.Focus.{focus_next};
ghost use Rattle.lines.specs.Ends.{LeftIs, EndSets, EndsLeft};

use sets::entries::{left_entry, right_set};
use stretches::pass::Pass;
use stretches::walk::Walk;

// A position where candidates may start: one of the tape's, its end among them.
#[derive(Clone, Copy)]
pub(crate) struct Start<'a> {
    pub pass: &'a Pass<'a>,
    pub at: usize,
    // The left set there.
    pub left: u64,
    pub ghost within: { at ≤ length pass.now.walk.tape.now },
    pub ghost set_there: { left ≡ left_at (book_of pass.now.walk.outline.states.book.now) pass.now.walk.tape.now at },
}

// An end of stretches from that start, the start itself among them.
#[derive(Clone, Copy)]
pub(crate) struct End<'a> {
    pub start: Start<'a>,
    pub at: usize,
    // The focus states there that can still end well, and the right set: which rules have a candidate is tested with them.
    pub set: u64,
    pub right: u64,
    pub ghost sets_there: { EndSets (book_of start.pass.now.walk.outline.states.book.now) start.pass.now.walk.tape.now start.at at set right },
}

// The starts, from the tape's front on.
#[derive(Drop)]
pub(crate) struct Starts<'a> {
    pub pass: &'a Pass<'a>,
    // The next one: past the tape's end where none is left.
    pub at: usize,
    // The number of the left set there.
    pub number: usize,
    pub ghost reached: { at ≤ suc (length pass.now.walk.tape.now) },
    pub ghost numbered: { at ≤ length pass.now.walk.tape.now → LeftIs pass.now.walk.outline.states.book.now pass.now.walk.tape.now pass.now.walk.sets.now number at },
}

// The ends of a start, the start itself first.
#[derive(Drop)]
pub(crate) struct Ends<'a> {
    pub start: Start<'a>,
    // The next one, and the sets there; no state is left where no candidate ends at it or later.
    pub at: usize,
    pub set: u64,
    pub right: u64,
    pub ghost left: { EndsLeft (book_of start.pass.now.walk.outline.states.book.now) start.pass.now.walk.tape.now start.at at set right },
}

// The focus states one symbol on, those that the right set there holds.
fn next_set(walk: &Walk, set: u64, symbol: u8, right: u64) -> u64
    ensures { result ≡ focus_next (book_of walk.now.outline.states.book.now) set symbol right }
{
    sets::stepping::focus_next(&walk.outline.states, set, symbol, right)
}

impl<'a> Starts<'a> {
    pub fn of(pass: &'a Pass<'a>) -> Self
        ensures begin { result.at ≡ 0 }
        ensures same_pass { result.pass ≡ pass.entry }
    {
        Starts {
            pass,
            at: 0,
            number: 0,
        }
    }
}

impl<'a> Iterator for Starts<'a> {
    ghost use Rattle.lines.specs.Coming.{StartGiven, starts_left};

    type Item = Start<'a>;

    ghost next_gives = { StartGiven };

    ghost remaining = { starts_left };

    fn next(&mut self) -> Option<Start<'a>> {
        let pass = self.pass;
        let walk = &pass.walk;
        if walk.tape.len() < self.at {
            return None;
        }
        let start = Start {
            pass,
            at: self.at,
            left: walk.sets[self.number],
        };
        if self.at < walk.tape.len() {
            self.number = left_entry(pass.rows, self.number, walk.tape[self.at]);
        }
        self.at += 1;
        Some(start)
    }
}

impl<'a> Start<'a> {
    // The ends of the stretches that start here.
    pub fn ends(&self) -> Ends<'a>
        ensures begin { result.at ≡ self.now.at }
        ensures same_start { result.start ≡ self.now }
    {
        let walk = &self.pass.walk;
        let right = right_set(walk.sets, walk.scratch, self.at);
        Ends {
            start: *self,
            at: self.at,
            set: walk.first_set(self.left, right),
            right,
        }
    }
}

impl<'a> Iterator for Ends<'a> {
    ghost use Rattle.lines.specs.Coming.{EndGiven, ends_left};

    type Item = End<'a>;

    ghost next_gives = { EndGiven };

    ghost remaining = { ends_left };

    fn next(&mut self) -> Option<End<'a>> {
        if self.set == 0 {
            return None;
        }
        let end = End {
            start: self.start,
            at: self.at,
            set: self.set,
            right: self.right,
        };
        let walk = &self.start.pass.walk;
        if self.at < walk.tape.len() {
            self.right = right_set(walk.sets, walk.scratch, self.at + 1);
            self.set = next_set(walk, self.set, walk.tape[self.at], self.right);
        } else {
            self.set = 0;
        }
        self.at += 1;
        Some(end)
    }
}
