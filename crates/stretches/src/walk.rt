// The walk from one position: the focus states of the stretches that begin there, pruned by the right set at every step, so that it ends
// right after the longest candidate. One rule's focus is never carried on by another rule's left context.
ghost use Rattle.std.specs.Prelude.{◌≡◌, ◌≤◌, ◌<◌, length, IfSome};
ghost use Rattle.book.specs.Format.{most_rules};
ghost use Rattle.book.specs.Reading.{book_of};
ghost use Rattle.book.specs.Language.{rules_in};
ghost use Rattle.sets.specs.Sets.{left_at};
ghost use Rattle.sets.specs.Focus.{focus_first, opened_by};
ghost use Rattle.stretches.specs.Ready.{Tests, Outlined, RightSets, Remembers};
ghost use Rattle.stretches.specs.Position.{hits, hit_rule, up_to, end_of, rule_in, TakenHere};

use crate::steps::Steps;
use book::outline::{
    ALL_ACCEPTS, ALL_STARTS, FOCUS_ACCEPTS, FOCUS_STARTS, LEFT_ACCEPTS, MASKS, Outline,
    RIGHT_STARTS,
};
use sets::entries::right_set;

// The rules of a book, as they are tested: sets meet their masks.
#[derive(Clone, Copy)]
pub struct Rules<'a> {
    // The book whose sets are tested.
    pub book: &'a [u8],
    pub masks: &'a [u64; MASKS],
    // How many rules it has: 0 up to and not including this number are tested.
    pub count: usize,
    pub ghost tests: { Tests (book_of book.now) count masks.now },
}

// What the walks over one tape are lent.
#[derive(Clone, Copy)]
pub struct Walk<'a> {
    // Of an accepted book: its arcs are read from its bytes, and sets are tested by its masks.
    pub outline: Outline<'a>,
    // How many rules the book has: 0 up to and not including this number are tested.
    pub rules: usize,
    pub tape: &'a [u8],
    // The sets of the workspace, and at each position of the tape, its end among them, the number of the right set there.
    pub sets: &'a [u64],
    pub scratch: &'a [u8],
    pub ghost outlined: { Outlined (book_of outline.states.book.now) rules outline.states.places.now outline.masks.now },
    pub ghost right_sets: { RightSets outline.states.book.now tape.now sets.now scratch.now },
}

// What is taken at a free position: the longest candidate that starts there, by its lowest rule.
#[derive(Clone, Copy)]
pub struct Taken {
    // Where it ends, at most the tape's length: the position itself where it is empty.
    pub end: usize,
    // The number of its rule: its word is written, and the account judges the other rules by it.
    pub rule: usize,
}

impl<'a> Rules<'a> {
    // The states that a rule starts with: its focus starts where its left context holds, none where it does not.
    fn starts(&self, left: u64, rule: usize) -> u64
        requires { rule < self.now.count }
        ensures { result ≡ opened_by (book_of self.now.book.now) left rule }
    {
        if left & self.masks[LEFT_ACCEPTS + rule] == 0 {
            return 0;
        }
        self.masks[FOCUS_STARTS + rule]
    }

    // The set that the walk starts with between the left set and the right set. At most positions the right set holds no focus start.
    pub fn first_set(&self, left: u64, right: u64) -> u64
        ensures { result ≡ focus_first (book_of self.now.book.now) left right }
    {
        if right & self.masks[ALL_STARTS] == 0 {
            return 0;
        }
        let mut out: u64 = 0;
        for rule in 0..self.count {
            out |= self.starts(left, rule);
        }
        out & right
    }

    // Whether a rule passes at an end.
    pub fn hits(&self, set: u64, right: u64, rule: usize) -> bool
        requires { rule < self.now.count }
        ensures { result ≡ hits (book_of self.now.book.now) set right rule }
    {
        if set & self.masks[FOCUS_ACCEPTS + rule] == 0 {
            return false;
        }
        if right & self.masks[RIGHT_STARTS + rule] == 0 {
            return false;
        }
        true
    }

    // What the lowest rule that passes at an end could take up to it. At most ends the set holds no focus accept.
    fn hit(&self, set: u64, right: u64, end: usize) -> Option<Taken>
        ensures lowest { result ≡ up_to end (hit_rule (book_of self.now.book.now) set right) }
        ensures some_rule { IfSome result (λ t. t.rule < most_rules) }
    {
        if set & self.masks[ALL_ACCEPTS] == 0 {
            return None;
        }
        for rule in 0..self.count {
            if self.hits(set, right, rule) {
                return Some(Taken { end, rule });
            }
        }
        None
    }
}

impl<'a> Walk<'a> {
    // What tests its rules: that asks for the book's masks and no tape.
    fn tests(&self) -> Rules<'a>
        ensures { (result.book.now ≡ self.now.outline.states.book.now) × (result.count ≡ self.now.rules) }
    {
        Rules {
            book: self.outline.states.book,
            masks: self.outline.masks,
            count: self.rules,
        }
    }

    // The set that the walk starts with between the left set and the right set.
    pub fn first_set(&self, left: u64, right: u64) -> u64
        ensures { result ≡ focus_first (book_of self.now.outline.states.book.now) left right }
    {
        self.tests().first_set(left, right)
    }

    // Whether a rule passes at an end.
    pub fn hits(&self, set: u64, right: u64, rule: usize) -> bool
        requires { rule < self.now.rules }
        ensures { result ≡ hits (book_of self.now.outline.states.book.now) set right rule }
    {
        self.tests().hits(set, right, rule)
    }

    fn hit(&self, set: u64, right: u64, end: usize) -> Option<Taken>
        ensures lowest { result ≡ up_to end (hit_rule (book_of self.now.outline.states.book.now) set right) }
        ensures some_rule { IfSome result (λ t. t.rule < most_rules) }
    {
        self.tests().hit(set, right, end)
    }

    // The walk from a free position: after each symbol the focus states that can still end well, until none is left or the tape ends.
    pub fn taken_at(&self, from: usize, left: u64, steps: &mut Steps) -> Option<Taken>
        requires from_in_bounds { (from ≤ length self.now.tape.now) × (left ≡ left_at (book_of self.now.outline.states.book.now) self.now.tape.now from) }
        requires remembers { Remembers (book_of self.now.outline.states.book.now) steps.old }
        ensures taken_here { TakenHere (rules_in self.now.outline.states.book.now) self.now.tape.now from (end_of from result) (rule_in result) }
        ensures some_rule { IfSome result (λ t. t.rule < most_rules) }
        ensures remembers_2 { Remembers (book_of self.now.outline.states.book.now) steps.new }
    {
        let here = right_set(self.sets, self.scratch, from);
        let mut set = self.first_set(left, here);
        let mut taken = self.hit(set, here, from); // the empty stretch
        for j in from..self.tape.len() {
            if set == 0 {
                return taken;
            }
            let right = right_set(self.sets, self.scratch, j + 1);
            set = steps.step(&self.outline.states, set, self.tape[j]) & right;
            if let Some(longer) = self.hit(set, right, j + 1) {
                taken = Some(longer);
            }
        }
        taken
    }
}
