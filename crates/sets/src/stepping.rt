// The step of a set, read from the book's bytes; no arc is copied. Trailing zeros pick the next state of the set, which falls by that bit until
// it is empty; the arcs of a state stand between its own record and the end of its rule, and the records of a rule are read once for all its
// states in the set. A walk steps a set of focus states on one symbol; BUILD steps a set on all symbols at once, along the arcs or against
// them. What is public here serves walks over tapes, whose callers have CHECK's reply and the places of the book already: hence `States`.
ghost use Rattle.std.specs.Prelude.{◌≡◌, ◌+◌, ◌<◌, ◌≤◌, length, get_or, ltb, eqb};
ghost use Rattle.book.specs.Format.{symbol_count, most_rules, most_states, arc_size, from_at, to_at, byte};
ghost use Rattle.book.specs.Reading.{arc_at, book_of};
ghost use Rattle.book.specs.Language.{state_of};
ghost use Rattle.book.specs.Outline.{right_starts, focus_accepts};
ghost use Rattle.sets.specs.Focus.{focus_step, focus_next};
ghost use Rattle.sets.specs.Stepping.{hop_fold, arc_bytes, ArcStands, between, Added, joins, gather, close_by};
ghost use Rattle.sets.specs.Sides.{back, source, target};
ghost use Rattle.sets.specs.Making.{Making, Adds, Sweeps, Empty, Made};
ghost use Rattle.sets.specs.declared.sides.Side.TheVariants.{Left};

use super::sides::Side;
use book::outline::States;

// A step of a set while it is made. The records of the book are read in one way, whatever an arc's record is taken into.
pub(crate) trait Step {
    ghost making: { Self → Making };

    // The set that is stepped.
    fn set(&self) -> u64
        ensures { result ≡ (making self.now).set };

    // What the arc at `at` adds: the offset and no record, since `sweep` has no length to test, which is what it saves.
    fn add(&mut self, book: &[u8], at: usize)
        requires { let m = making self.old in ArcStands book.now at (source m.side) (target m.side) }
        ensures { let m = making self.old in Adds (hop_fold (arc_bytes (source m.side) (target m.side) book.now at) m.set) m (making self.new) };
}

// The step along the arcs on one symbol.
#[derive(Drop)]
struct OneSymbol {
    set: u64,
    symbol: u8,
    out: u64,
}

// What an arc's record adds to the step of a set. The tests only put the bit out, so that there is no branch: whether an arc is open is as
// good as random on hostile books.
fn hop_of(book: &[u8], at: usize, set: u64, symbol: u8) -> u64
    requires arc_size_in_bounds { at + arc_size ≤ length book.now }
    requires from_at_bound { (byte book.now (at + from_at) < most_states) × (byte book.now (at + to_at) < most_states) }
    ensures { result ≡ hop_fold (arc_at book.now at) set symbol }
{
    let mut bit = set >> book[at + book::FROM] & 1;
    if symbol < book[at + book::LOW] {
        bit = 0;
    }
    if book[at + book::HIGH] < symbol {
        bit = 0;
    }
    bit << book[at + book::TO]
}

impl Step for OneSymbol {
    ghost making = { λ step. record { side = Left; set = step.set; on = λ a. eqb a step.symbol; so_far = λ a. step.out } };

    fn set(&self) -> u64 {
        self.set
    }

    fn add(&mut self, book: &[u8], at: usize) {
        self.out |= hop_of(book, at, self.set, self.symbol);
    }
}

// The steps on all symbols, on either side.
#[derive(Drop)]
pub(crate) struct Row {
    pub(crate) side: Side,
    pub(crate) set: u64,
    pub(crate) steps: [u64; super::ROW],
    ghost long: { length steps ≡ symbol_count },
}

// One bit more on each symbol from `low` to `high`.
fn spread(steps: &mut [u64; super::ROW], low: u8, high: u8, bit: u64)
    requires row_len { length steps.old ≡ symbol_count }
    requires high_lt_symbol_count { high < symbol_count }
    ensures { Added (between low high bit) steps.old steps.new }
{
    for symbol in low as usize..high as usize + 1 {
        steps[symbol] |= bit;
    }
}

impl Step for Row {
    ghost making = { λ row. record { side = row.side; set = row.set; on = λ a. ltb a symbol_count; so_far = λ a. get_or row.steps a 0 } };

    fn set(&self) -> u64 {
        self.set
    }

    // Nothing, unless the set holds the state that the arc leaves.
    fn add(&mut self, book: &[u8], at: usize) {
        let source = book[at + self.side.source()];
        let target = book[at + self.side.target()];
        if self.set >> source & 1 != 0 {
            spread(
                &mut self.steps,
                book[at + book::LOW],
                book[at + book::HIGH],
                1u64 << target,
            );
        }
    }
}

// Reads the records after a state's own, which stands at `place`, to the end of their rule: once for all states of the set. The number of the first
// state past them, at most 64, comes back. Here `at` is counted up by a constant in each arm: a step over book's `Records`, which tests the length of each
// record anew, takes 2.4 times as long and more in a model of both loops in plain Rust; as proved code it is not measured.
fn sweep<S: Step>(states: &States, place: usize, state: usize, step: &mut S) -> usize
    requires place_value { place ≡ (state_of (book_of states.now.book.now) state).place }
    requires place_nonzero { 0 < place }
    ensures { Sweeps (book_of states.now.book.now).arcs state result (S.making step.old) (S.making step.new) }
{
    let book = states.book;
    let mut at = place + book::STATE_SIZE;
    let mut next = state + 1;
    loop {
        let kind = book[at]; // by number: document 01, "What form to use where"
        match kind {
            book::ARC => {
                step.add(book, at);
                at += book::ARC_SIZE;
            }
            book::STATE => {
                next += 1;
                at += book::STATE_SIZE;
            }
            book::RULE | book::END => return next,
            0 | 5..=255 => return next, // no such record is in an accepted book
        }
    }
}

// Makes a step, lowest state first: the records of a rule are read when its first state of the set is picked, for all of them.
pub(crate) fn make<S: Step>(states: &States, step: &mut S)
    requires { Empty (S.making step.old) }
    ensures { Made (book_of states.now.book.now).arcs (S.making step.old) (S.making step.new) }
{
    let mut left = step.set();
    let mut done: usize = 0; // what is left below it stands in a rule that has been read
    // document 01, "What form to use where": trailing zeros pick the next state, and the set falls by that bit until it is empty
    while left != 0 {
        let state = left.trailing_zeros() as usize;
        left &= left - 1;
        if done <= state { // its rule has not been read
            let place = states.places[state] as usize;
            // 0 is the place of no state, as `Placed` has it
            if place != 0 {
                done = sweep(states, place, state, step);
            }
        }
    }
}

// The step of a set along the arcs.
pub fn focus_step(states: &States, set: u64, symbol: u8) -> u64
    ensures { result ≡ focus_step (book_of states.now.book.now) set symbol }
{
    let mut step = OneSymbol {
        set,
        symbol,
        out: 0,
    };
    make(states, &mut step);
    step.out
}

// The focus states one symbol on, those that the right set there holds.
pub fn focus_next(states: &States, set: u64, symbol: u8, right: u64) -> u64
    ensures { result ≡ focus_next (book_of states.now.book.now) set symbol right }
{
    focus_step(states, set, symbol) & right
}

// What a rule gives to a set that meets its test.
fn joins(set: u64, test: u64, give: u64) -> u64
    ensures { result ≡ joins set test give }
{
    if set & test == 0 { 0 } else { give }
}

// Of each rule whose right starts the set meets, the focus accepts.
fn gather(set: u64, masks: &[u64; book::outline::MASKS]) -> u64
    ensures { result
        ≡ gather most_rules set (λ k. get_or masks.now (right_starts k) 0) (λ k. get_or masks.now (focus_accepts k) 0) }
{
    let mut out: u64 = 0;
    for rule in 0..book::RULES {
        out |= joins(
            set,
            masks[book::outline::RIGHT_STARTS + rule],
            masks[book::outline::FOCUS_ACCEPTS + rule],
        );
    }
    out
}

// What becomes of a step. On the left all left starts are added, which begin anew at each position; on the right all right accepts are
// added, and a focus is closed where the right context of its own rule holds, by the right starts and the focus accepts of each rule.
pub(crate) fn close(masks: &[u64; book::outline::MASKS], side: Side, step: u64) -> u64
    ensures { result ≡ close_by masks.now (back side) step }
{
    match side {
        Side::Left => masks[book::outline::LEFT_STARTS] | step,
        Side::Right => {
            let near = masks[book::outline::RIGHT_ACCEPTS] | step;
            near | gather(near, masks)
        }
    }
}
