// The steps of the focus that a pass over a tape remembers: on real tapes the same few come again and again.
ghost use Rattle.std.specs.Prelude.{◌≡◌, ◌<◌};
ghost use Rattle.book.specs.Reading.{Book, book_of};
ghost use Rattle.sets.specs.Focus.{focus_step};
ghost use Rattle.stretches.specs.Ready.{slot_count, Remembers};

use book::outline::States;

// How many they are.
pub const SLOTS: usize = 16;

// Step k leads from the set before it on its symbol to the set after it. Three arrays and not one of steps: a step of its own takes 24 bytes, these
// take 17, and the stack is counted (QAFRENDI_STACK). Which steps they are steps of says `Remembers` in the contracts: a type that held the book too
// would have to say in each contract that the book stays.
#[derive(Clone, Copy)]
pub struct Steps {
    pub before: [u64; SLOTS],
    pub after: [u64; SLOTS],
    pub symbols: [u8; SLOTS],
}

// Where the step of a set on a symbol is looked for, and put: sets with another lowest state, or on another symbol, seldom share a place.
fn slot_of(set: u64, symbol: u8) -> usize
    ensures { result < slot_count }
{
    (2 * u64::trailing_zeros(set) as usize + symbol as usize) % SLOTS
}

impl Steps {
    // At first they are steps of the empty set.
    pub fn new() -> Self
        ensures { (b : Book) → Remembers b result }
    {
        Steps {
            before: [0; SLOTS],
            after: [0; SLOTS],
            symbols: [0; SLOTS],
        }
    }

    // The step of a set, remembered or computed.
    pub(crate) fn step(&mut self, states: &States, set: u64, symbol: u8) -> u64
        requires { Remembers (book_of states.now.book.now) self.old }
        ensures value { result ≡ focus_step (book_of states.now.book.now) set symbol }
        ensures remembers { Remembers (book_of states.now.book.now) self.new }
    {
        let slot = slot_of(set, symbol);
        if self.before[slot] == set {
            if self.symbols[slot] == symbol {
                return self.after[slot];
            }
        }
        let after = sets::stepping::focus_step(states, set, symbol);
        self.before[slot] = set;
        self.symbols[slot] = symbol;
        self.after[slot] = after;
        after
    }
}
