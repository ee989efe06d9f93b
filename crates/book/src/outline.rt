// The outline of an accepted book, computed once from its bytes and small: where the records of its states and of its rules stand, and
// the sets of the states of a part that start or accept. It is put into arrays that the caller lends, so that it stands on the stack once.
ghost use Rattle.std.specs.Prelude.{◌≡◌, [], ◌<◌, length};
ghost use Rattle.book.specs.Format.{most_rules, most_states, state_kind, byte, pad};
ghost use Rattle.book.specs.Reading.{word_at, check_def, book_of};
ghost use Rattle.book.specs.Language.{flagged};
ghost use Rattle.book.specs.Outline.{state_places, rule_places, WordRoom, mask_count, Placed, Masked, Joined, passes, state_bits};

use crate::record::{Record, Records};
use crate::{
    ACCEPT, ARC, BOTH, END, FLAGS, FOCUS, LEFT, LENGTH, PART, RIGHT, RULE, RULES, START, STATE,
    STATES,
};

// The masks, sets of states with bit s for state s, stand in one array. One kind after the other, a mask a rule, 0 past the last rule; then those
// of all rules: the focus starts, the focus accepts, the left starts and the right accepts. One array and no struct of several, since that is what
// `Masked` (specs/Outline) speaks of and the layers above are lent.
pub const LEFT_ACCEPTS: usize = 0;

pub const FOCUS_STARTS: usize = RULES;

pub const FOCUS_ACCEPTS: usize = 2 * RULES;

pub const RIGHT_STARTS: usize = 3 * RULES;

pub const ALL_STARTS: usize = 4 * RULES;

pub const ALL_ACCEPTS: usize = ALL_STARTS + 1;

pub const LEFT_STARTS: usize = ALL_STARTS + 2;

pub const RIGHT_ACCEPTS: usize = ALL_STARTS + 3;

pub const MASKS: usize = ALL_STARTS + 4;

// An accepted book, with where the record of each of its states stands: what a step of a set is read with.
#[derive(Clone, Copy)]
pub struct States<'a> {
    pub book: &'a [u8],
    pub places: &'a [u16; STATES],
    pub ghost accepted: { (check_def book.now).reply ≡ 0 },
    pub ghost placed: { Placed (book_of book.now).states places.now },
}

// The outline: the states, and their masks.
#[derive(Clone, Copy)]
pub struct Outline<'a> {
    pub states: States<'a>,
    pub masks: &'a [u64; MASKS],
    pub ghost masked: { Masked (book_of states.book.now).states masks.now },
}

impl<'a> Outline<'a> {
    // Of the arrays that `outline_of` has filled. The three loans get one lifetime by this call.
    pub fn new(book: &'a [u8], places: &'a [u16; STATES], masks: &'a [u64; MASKS]) -> Outline<'a>
        requires accepted { (check_def book.now).reply ≡ 0 }
        requires placed { Placed (book_of book.now).states places.now }
        requires masked { Masked (book_of book.now).states masks.now }
        ensures { (result.states.book.now ≡ book.now) × (result.states.places.now ≡ places.now) × (result.masks.now ≡ masks.now) }
    {
        let states = States { book, places };
        Outline { states, masks }
    }
}

// Where each rule's record stands, 0 past the last rule, as `rule_places` has it, and no Option: the output reads its words there. Into an array that
// is all 0, and of an accepted book alone: its callers have CHECK's reply, and its records stand below 65,536.
pub fn place_rules(s: &[u8], places: &mut [u16; RULES])
    requires s_value { (check_def s.now).reply ≡ 0 }
    requires places_value { places.old ≡ pad most_rules [] }
    ensures { places.new ≡ rule_places s.now }
{
    let mut rules = 0;
    for record in (Records { book: s, at: 0 }) {
        let kind = record.kind(); // by number: document 01, "What form to use where"
        match kind {
            RULE => {
                places[rules] = record.at as u16;
                rules += 1;
            }
            STATE | ARC => {}
            END | 0 | 5..=255 => {} // not among them
        }
    }
}

// The length of the word in the rule's record at `at`; its symbols stand after it.
pub fn word_length(s: &[u8], at: usize) -> usize
    requires { WordRoom s.now at }
    ensures { result ≡ length (word_at s.now at) }
{
    s[at + LENGTH] as usize
}

// Whether a state's flags have that flag: by number, document 01, "What form to use where".
fn flagged(flag: u8, flags: u8) -> bool
    ensures { result ≡ flagged flag flags }
{
    match flag {
        START => {
            match flags {
                START | BOTH => true,
                0 | ACCEPT => false,
                4..=255 => false,
            }
        }
        ACCEPT => {
            match flags {
                ACCEPT | BOTH => true,
                0 | START => false,
                4..=255 => false,
            }
        }
        0 | 3..=255 => false,
    }
}

// Whether a state of that part and those flags is of the mask's part, with its flag.
fn passes(part: u8, flag: u8, of: u8, flags: u8) -> bool
    ensures { result ≡ passes part flag of flags }
{
    of == part && flagged(flag, flags)
}

// Adds state k, of rule r and with that record, to the masks of its part and flags.
fn add_state(record: &Record, k: usize, r: usize, masks: &mut [u64; MASKS])
    requires kind { byte «record».now.book.now «record».now.at ≡ state_kind }
    requires room { (k < most_states) × (r < most_rules) }
    ensures { Joined (state_bits «record».now.book.now «record».now.at k r) masks.old masks.new }
{
    let of = record.byte(PART);
    let flags = record.byte(FLAGS);
    let bit = 1u64 << k;
    // Each mask: the part and the flag of its states, and where it stands.
    let table = [
        (LEFT, ACCEPT, LEFT_ACCEPTS + r),
        (FOCUS, START, FOCUS_STARTS + r),
        (FOCUS, ACCEPT, FOCUS_ACCEPTS + r),
        (RIGHT, START, RIGHT_STARTS + r),
        (FOCUS, START, ALL_STARTS),
        (FOCUS, ACCEPT, ALL_ACCEPTS),
        (LEFT, START, LEFT_STARTS),
        (RIGHT, ACCEPT, RIGHT_ACCEPTS),
    ];
    for (part, flag, i) in table {
        if passes(part, flag, of, flags) {
            masks[i] |= bit;
        }
    }
}

// Where each state's record stands, 0 where there is no state, as `state_places` has it, and no Option (no state's record stands at 0, where the first
// rule's does), and the masks of all states: one reading of the records, into arrays that are all 0. Of an accepted book alone: its callers have
// CHECK's reply. One walk, `Records`, serves this and `place_rules`: what each puts into which array is all that is left.
pub fn outline_of(s: &[u8], places: &mut [u16; STATES], masks: &mut [u64; MASKS])
    requires s_value { (check_def s.now).reply ≡ 0 }
    requires places_value { (places.old ≡ pad most_states []) × (masks.old ≡ pad mask_count []) }
    ensures places_after { places.new ≡ state_places s.now }
    ensures masked { Masked (book_of s.now).states masks.new }
{
    let mut rules = 0;
    let mut states = 0;
    for record in (Records { book: s, at: 0 }) {
        let kind = record.kind(); // by number: document 01, "What form to use where"
        match kind {
            RULE => rules += 1,
            STATE => {
                places[states] = record.at as u16;
                add_state(&record, states, rules - 1, masks);
                states += 1;
            }
            ARC => {}
            END | 0 | 5..=255 => {} // not among them
        }
    }
}
