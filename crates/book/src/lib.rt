// CHECK: a book of context rules, read record by record.
#![tactic(auto)]

ghost use Rattle.std.specs.Prelude.{◌≡◌, ◌+◌, ◌≤◌, length, IfOk};
ghost use Rattle.book.specs.Format.{longest_word, most_states, rule_kind, byte, record_size, symbol_fits, symbols_fit};
ghost use Rattle.book.specs.Format.{rule_reply, state_reply, arc_reply, kind_reply, record_reply};
ghost use Rattle.book.specs.Scanning.{record_more};
ghost use Rattle.book.specs.Reading.{check_def};
ghost use Rattle.book.specs.Refusals.{number_of, checked};

pub mod replies; // replies.rt: why a call is refused, and the number of each reason
mod record; // record.rt: a record, and the records of a book
pub mod outline; // outline.rt: where the records of an accepted book's states and rules stand, and which states start or accept

use record::Record;
use replies::{Reason, Refusal};

// The numbers of document 01, and of document 02, No. 6.
pub const SYMBOLS: u8 = 32;

pub const LAST_SYMBOL: u8 = SYMBOLS - 1;

pub const RULES: usize = 16;

pub const STATES: usize = 64;

pub const ARCS: usize = 512;

pub const WORD: usize = 8;

// Kinds, parts and flags are the numbers of document 01, which asks for a `match` with ranges on each ("What form to use where").
// The kinds of a record.
pub const RULE: u8 = 1;

pub const STATE: u8 = 2;

pub const ARC: u8 = 3;

pub const END: u8 = 4;

// The parts of a rule that have states.
pub const LEFT: u8 = 0;

pub const FOCUS: u8 = 1;

pub const RIGHT: u8 = 2;

// The flags of a state; 0 is neither.
pub const START: u8 = 1;

pub const ACCEPT: u8 = 2;

pub const BOTH: u8 = 3;

// The length of each kind's record with its kind byte.
pub const RULE_SIZE: usize = 10;

pub const STATE_SIZE: usize = 3;

pub const ARC_SIZE: usize = 5;

pub const END_SIZE: usize = 1;

// Where the fields stand in a rule's record, a state's, an arc's.
pub const LENGTH: usize = 1;

pub const SYMBOLS_AT: usize = 2;

pub const PART: usize = 1;

pub const FLAGS: usize = 2;

pub const FROM: usize = 1;

pub const LOW: usize = 2;

pub const HIGH: usize = 3;

pub const TO: usize = 4;

// How many rules, states and arcs an accepted book has.
#[derive(Clone, Copy)]
pub struct Counts {
    pub rules: usize,
    pub states: usize,
    pub arcs: usize,
}

// CHECK's answer: the reply, its place, and the counts of an accepted book. C has these fields, and document 01 the 0 of an accepted book.
#[derive(Clone, Copy)]
pub struct Checked {
    pub reply: u8,
    pub place: usize,
    pub rules: usize,
    pub states: usize,
    pub arcs: usize,
}

// The answer of the operations that write records, as C has it.
#[repr(C)]
#[derive(Clone, Copy)]
pub struct Written {
    // 0, or the number of the refusal.
    pub reply: u8,
    // Where the input was refused, with 15 the bytes needed, else 0.
    pub place: usize,
    // How many bytes stand at the front of the output; 0 with every reply but 0.
    pub length: usize,
}

// What the records so far have given: their counts, the number of the latest rule's first state, and each state's part. That there are at most 64
// states is a clause of the tests and no ghost field, since `scan_of` (specs/Reading) makes a Scan of any book. An array with its count, since there
// is no heap.
#[derive(Clone, Copy)]
pub struct Scan {
    pub rules: usize,
    pub states: usize,
    pub arcs: usize,
    pub first: usize,
    pub parts: [u8; STATES],
}

// The length of a record with its kind byte; 0 for an unknown kind, as in the definition of the same name, and no Option.
pub fn record_size(kind: u8) -> usize
    ensures { result ≡ record_size kind }
{
    match kind {
        RULE => RULE_SIZE,
        STATE => STATE_SIZE,
        ARC => ARC_SIZE,
        END => END_SIZE,
        0 | 5..=255 => 0,
    }
}

fn symbol_fits(n: usize, i: usize, x: u8) -> bool
    ensures { result ≡ symbol_fits n i x }
{
    if i < n { x < SYMBOLS } else { x == 0 }
}

// The eight symbol bytes at p fit a word of n symbols.
fn symbols_fit(s: &[u8], p: usize, n: usize) -> bool
    requires { p + longest_word ≤ length s.now }
    ensures { result ≡ symbols_fit s.now p n longest_word }
{
    (0..WORD).all(|i| symbol_fits(n, i, s[p + i]))
}

impl Scan {
    // The tests of each kind in their order, 4, 3, 5, 6.
    fn test_rule(&self, record: &Record) -> Result<(), Reason>
        requires { byte «record».now.book.now «record».now.at ≡ rule_kind }
        ensures { number_of result ≡ rule_reply «record».now.book.now «record».now.at self.now.rules }
    {
        if RULES <= self.rules {
            return Err(Reason::TooMany);
        }
        let n = record.byte(LENGTH) as usize;
        if WORD < n {
            return Err(Reason::BadField);
        }
        if symbols_fit(record.book, record.at + SYMBOLS_AT, n) {
            Ok(())
        } else {
            Err(Reason::BadField)
        }
    }

    fn test_state(&self, part: u8, flags: u8) -> Result<(), Reason>
        ensures { number_of result ≡ state_reply part flags self.now.rules self.now.states }
    {
        if self.rules == 0 {
            return Err(Reason::NoRule);
        }
        if STATES <= self.states {
            return Err(Reason::TooMany);
        }
        match part {
            LEFT | FOCUS | RIGHT => {
                match flags {
                    0 | START | ACCEPT | BOTH => Ok(()),
                    4..=255 => Err(Reason::BadField),
                }
            }
            3..=255 => Err(Reason::BadField),
        }
    }

    #[tactic(auto, using(crate::proofs::Laws::arc_many))]
    fn test_arc(&self, from: u8, low: u8, high: u8, to: u8) -> Result<(), Reason>
        requires { self.now.states ≤ most_states }
        ensures { number_of result ≡ arc_reply from low high to self.now }
    {
        if self.rules == 0 {
            return Err(Reason::NoRule);
        }
        if ARCS <= self.arcs {
            return Err(Reason::TooMany); // the 513th arc
        }
        if SYMBOLS <= high {
            return Err(Reason::BadField); // no such symbol
        }
        if high < low {
            return Err(Reason::BadField);
        }
        let a = from as usize;
        let b = to as usize;
        let latest = self.first..self.states;
        if latest.contains(&a) && latest.contains(&b) && self.parts[a] == self.parts[b] {
            Ok(())
        } else {
            Err(Reason::BadArc)
        }
    }

    // The kind's own tests of a record.
    fn test_kind(&self, record: &Record) -> Result<(), Reason>
        requires { self.now.states ≤ most_states }
        ensures { number_of result ≡ kind_reply «record».now.book.now «record».now.at self.now }
    {
        let kind = record.kind();
        match kind {
            RULE => self.test_rule(record),
            STATE => self.test_state(record.byte(PART), record.byte(FLAGS)),
            ARC => self.test_arc(
                record.byte(FROM),
                record.byte(LOW),
                record.byte(HIGH),
                record.byte(TO),
            ),
            END => {
                if self.rules == 0 {
                    Err(Reason::NoRule)
                } else {
                    Ok(())
                }
            }
            0 | 5..=255 => Err(Reason::UnknownKind), // no record has it
        }
    }

    // The record at `at`, if it passes its tests.
    fn test<'a>(&self, book: &'a [u8], at: usize) -> Result<Record<'a>, Reason>
        requires { self.now.states ≤ most_states }
        ensures reply { number_of result ≡ record_reply book.now at self.now }
        ensures record { IfOk result (λ r. (r.book.now ≡ book.now) × (r.at ≡ at)) }
    {
        let record = Record::new(book, at)?;
        self.test_kind(&record)?;
        Ok(record)
    }

    // Counts a record that passed its tests.
    fn add(&mut self, record: &Record)
        requires { kind_reply «record».now.book.now «record».now.at self.old ≡ 0 }
        ensures { self.new ≡ record_more «record».now.book.now «record».now.at self.old }
    {
        let kind = record.kind();
        match kind {
            RULE => {
                self.rules += 1;
                self.first = self.states;
            }
            STATE => {
                self.parts[self.states] = record.byte(PART);
                self.states += 1;
            }
            ARC => self.arcs += 1,
            END => {}
            0 | 5..=255 => {} // no record has it
        }
    }
}

// The counts of an accepted book, or why and where any other bytes are refused. The walk is written out, since what ends it is the answer; `Records`
// is the walk over an accepted book.
pub fn read(book: &[u8]) -> Result<Counts, Refusal>
    ensures { checked result ≡ check_def book.now }
{
    let mut scan = Scan {
        rules: 0,
        states: 0,
        arcs: 0,
        first: 0,
        parts: [0u8; STATES],
    };
    let mut at = 0;
    while at < book.len() {
        let record = scan.test(book, at).map_err(|reason| reason.at(at))?;
        let kind = record.kind();
        match kind {
            RULE | STATE | ARC => {
                scan.add(&record);
                at += record.size();
            }
            END => {
                if at + END_SIZE < book.len() {
                    return Err(Reason::AfterEnd.at(at + END_SIZE));
                }
                return Ok(Counts {
                    rules: scan.rules,
                    states: scan.states,
                    arcs: scan.arcs,
                });
            }
            0 | 5..=255 => return Err(Reason::UnknownKind.at(at)), // no record has it
        }
    }
    Err(Reason::Cut.at(at))
}

// Each such conversion names the fields that C has, of its own type, once.
impl From<Result<Counts, Refusal>> for Checked {
    ghost from_gives = { λ r c. c ≡ checked r };

    fn from(r: Result<Counts, Refusal>) -> Checked {
        match r {
            Ok(counts) => Checked {
                reply: 0,
                place: 0,
                rules: counts.rules,
                states: counts.states,
                arcs: counts.arcs,
            },
            Err(refusal) => Checked {
                reply: refusal.reason.number(),
                place: refusal.place,
                rules: 0,
                states: 0,
                arcs: 0,
            },
        }
    }
}

// Document 01's CHECK: any bytes get their reply.
pub fn check(book: &[u8]) -> Checked
    ensures { result ≡ check_def book.now }
{
    Checked::from(read(book))
}
