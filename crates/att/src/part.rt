// The part that a text becomes: what is decided before a byte is written, and the second pass over the text, which writes.
ghost use Rattle.std.specs.Prelude.{◌≡◌, ◌+◌, ◌*◌, ◌≤◌, ◌<◌, [], ◌∷◌, length};
ghost use Rattle.book.specs.Format.{most_states, state_size, arc_size, state_kind, arc_kind};
ghost use Rattle.att.specs.Text.{read_text, lines_in, idx, names, needed, state_records, written, answer_by, answer_of, answer_read};
ghost use Rattle.att.specs.Results.{said, written_by};
ghost use Rattle.att.specs.Survey.{states, fresh, put, Filled, final_flags, after_states, LineFits, line_leaves, line_def};

use crate::reading::{Line, Lines};
use crate::states::Known;
use crate::survey::Survey;
use book::replies::{Reason, Refusal};

// All that is decided before a byte is written: an accepted text, as which part it stands, its states and the first one's number. Parts and flags are
// document 01's numbers.
#[derive(Clone, Copy)]
pub struct Plan<'a> {
    text: &'a [u8],
    part: u8,
    first: u8,
    known: Known,
    // How many bytes are written.
    pub bytes: usize,
    ghost accepted: { (answer_read first bytes (read_text text.now)).reply ≡ 0 },
    ghost listed: { states known ≡ names (lines_in (read_text text.now)) },
    ghost whole: { bytes ≡ needed (lines_in (read_text text.now)) },
}

// These three are lent the output whole, with a place: a final state's record and an arc's are written in turn, at two places.
fn put_state(out: &mut [u8], at: usize, part: u8, flags: u8)
    requires { at + state_size ≤ length out.old }
    ensures { out.new ≡ put out.old at (state_kind ∷ part ∷ flags ∷ []) }
{
    out[at] = book::STATE;
    out[at + book::PART] = part;
    out[at + book::FLAGS] = flags;
}

fn put_arc(out: &mut [u8], at: usize, from: u8, symbol: u8, to: u8)
    requires { at + arc_size ≤ length out.old }
    ensures { out.new ≡ put out.old at (arc_kind ∷ from ∷ symbol ∷ symbol ∷ to ∷ []) }
{
    out[at] = book::ARC;
    out[at + book::FROM] = from;
    out[at + book::LOW] = symbol;
    out[at + book::HIGH] = symbol;
    out[at + book::TO] = to;
}

// The records of n states, none of them accepting yet, the first the start; of one state that is no start where n is 0.
fn put_states(out: &mut [u8], part: u8, n: usize)
    requires { (n ≤ most_states) × (state_size * length (fresh n) ≤ length out.old) }
    ensures { Filled out.new (state_records part (fresh n)) out.old }
{
    if n == 0 {
        put_state(out, 0, part, 0);
        return;
    }
    put_state(out, 0, part, book::START);
    for m in 1..n {
        put_state(out, book::STATE_SIZE * m, part, 0);
    }
}

// The flags of a final state: the first is the start too.
#[tactic(auto, unfolding(crate::specs::Survey::final_flags))]
fn final_flags(k: usize) -> u8
    ensures { result ≡ final_flags k }
{
    if k == 0 { book::BOTH } else { book::ACCEPT }
}

// One state is written even where the text has none.
fn states_of(n: usize) -> usize
    ensures { result ≡ length (fresh n) }
{
    n.max(1)
}

// Where the first arc's record stands.
fn after_states(n: usize) -> usize
    requires { n ≤ most_states }
    ensures { result ≡ after_states n }
{
    book::STATE_SIZE * states_of(n)
}

// The length of an accepted text's part, by its numbers of arcs and states.
#[tactic(auto, unfolding(crate::specs::Text::answer_by))]
fn judged(arcs: usize, states: usize, first: u8, room: usize) -> Result<usize, Refusal>
    requires { states ≤ most_states }
    ensures { written_by result ≡ answer_by arcs states first room }
{
    let first = usize::from(first);
    if book::ARCS < arcs {
        return Err(Reason::LargePart.at(0));
    }
    if book::STATES < first + states {
        return Err(Reason::LargePart.at(0));
    }
    let bytes = book::STATE_SIZE * states + book::ARC_SIZE * arcs;
    if room < bytes {
        return Err(Reason::NoRoom.at(bytes));
    }
    Ok(bytes)
}

impl<'a> Plan<'a> {
    ghost use Rattle.att.specs.Planned.{plan_answer, OfCall};

    #[tactic(auto, using(crate::proofs::Answers::answer_part))]
    pub fn new(text: &'a [u8], part: u8, first: u8, room: usize) -> Result<Plan<'a>, Refusal>
        ensures answer { plan_answer result ≡ answer_of text.now part first room }
        ensures of { OfCall text.now part first room result }
    {
        if book::RIGHT < part {
            return Err(Reason::BadField.at(0));
        }
        let Survey { arcs, known } = Survey::of(text)?;
        let known = known.ok_or(Reason::LargePart.at(0))?;
        let bytes = judged(arcs, states_of(known.count()), first, room)?;
        Ok(Plan {
            text,
            part,
            first,
            known,
            bytes,
        })
    }

    // The number of a state of the text.
    fn number_of(&self, x: u16) -> usize
        requires { idx (states self.now.known) x < length (states self.now.known) }
        ensures { result ≡ idx (states self.now.known) x }
    {
        self.known.number_of(x).unwrap()
    }

    // The second pass after a line: a final state is marked in its record, an arc is written after the `used` bytes so far. The output is lent whole, since
    // both are written in turn.
    fn put_line(&self, out: &mut [u8], line: Line, used: usize) -> usize
        requires { LineFits (said line) (states self.now.known) used (length out.old) }
        ensures { line_leaves result out.new ≡ line_def (said line) (states self.now.known) self.now.first used out.old }
    {
        match line {
            Line::Final { state } => {
                let k = self.number_of(state);
                out[book::STATE_SIZE * k + book::FLAGS] = final_flags(k);
                used
            }
            Line::Arc { from, to, symbol } => {
                let first = usize::from(self.first);
                let p = self.number_of(from);
                let q = self.number_of(to);
                put_arc(out, used, (first + p) as u8, symbol, (first + q) as u8);
                used + book::ARC_SIZE
            }
        }
    }

    // The part's records: all states first, then, line by line, the accepting ones are marked, and the arcs are written after the states.
    pub fn put(&self, out: &mut [u8])
        requires { self.now.bytes ≤ length out.old }
        ensures { Filled out.new (written self.now.part self.now.first (lines_in (read_text self.now.text.now))) out.old }
    {
        let n = self.known.count();
        put_states(out, self.part, n);
        let mut used = after_states(n);
        let mut lines = Lines::new(self.text);
        // Document 02's form, a struct of text and place that yields a line at a time: nothing is counted
        // an accepted text has no faulty line
        while let Some(line) = lines.advance().unwrap() {
            used = self.put_line(out, line, used);
        }
    }
}
