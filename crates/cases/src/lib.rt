// A case of the programs checks and tapes: a book, a tape and room are handed to an operation, and its reply with its place, its counts and
// what stands in each buffer afterwards are compared. It prints a line: ok or WRONG, operation, reply, place.
#![tactic(auto)]

ghost use Rattle.std.specs.Prelude.{◌≡◌, [], ◌∷◌, take};

pub mod books; // books.rt: the books of the cases
mod buffers; // buffers.rt: what an operation is lent
pub mod expect; // expect.rt: what must stand in each buffer
mod hold; // hold.rt: whole buffers compared
mod lent; // lent.rt: how much of each buffer is lent

use book::Checked;
use buffers::Buffers;
use expect::Tables;
pub use lent::Lent;
use rewriter::{Accounted, LONGEST_TAPE, Rewritten};
use sets::Built;
use std::io;
use std::io::Write;
use text::Text;

// The bytes printed at once: any line that the cases have.
const LINE: usize = 128;

// The length of a tape that is refused for it.
pub const TOO_LONG: usize = LONGEST_TAPE + 1;

// The numbers that an operation answers: reply and place, and its counts in their order, 0 past the last.
// The reply is as document 01 numbers it (see `Want::refused`).
#[derive(Clone, Copy, PartialEq, Eq)]
pub struct Answer {
    pub reply: u8,
    pub place: usize,
    pub counts: [usize; 3],
}

// Each conversion names the fields of its own type, once.
impl From<Checked> for Answer {
    ghost from_gives = { λ r a. a ≡ record { reply = r.reply; place = r.place; counts = r.rules ∷ r.states ∷ r.arcs ∷ [] } };

    fn from(r: Checked) -> Answer {
        Answer {
            reply: r.reply,
            place: r.place,
            counts: [r.rules, r.states, r.arcs],
        }
    }
}

impl From<Built> for Answer {
    ghost from_gives = { λ r a. a ≡ record { reply = r.reply; place = r.place; counts = r.left ∷ r.right ∷ 0 ∷ [] } };

    fn from(r: Built) -> Answer {
        Answer {
            reply: r.reply,
            place: r.place,
            counts: [r.left, r.right, 0],
        }
    }
}

impl From<Rewritten> for Answer {
    ghost from_gives = { λ r a. a ≡ record { reply = r.reply; place = r.place; counts = r.length ∷ r.taken ∷ 0 ∷ [] } };

    fn from(r: Rewritten) -> Answer {
        Answer {
            reply: r.reply,
            place: r.place,
            counts: [r.length, r.taken, 0],
        }
    }
}

impl From<Accounted> for Answer {
    ghost from_gives = { λ r a. a ≡ record { reply = r.reply; place = r.place; counts = r.candidates ∷ 0 ∷ 0 ∷ [] } };

    fn from(r: Accounted) -> Answer {
        Answer {
            reply: r.reply,
            place: r.place,
            counts: [r.candidates, 0, 0],
        }
    }
}

// What a case must answer; `tables` names what acceptance leaves in the workspace.
#[derive(Clone, Copy)]
pub struct Want {
    pub tables: Tables,
    pub answer: Answer,
}

impl Want {
    pub fn accepted(tables: Tables, counts: [usize; 3]) -> Want
        ensures { result ≡ record { tables = tables; answer = record { reply = 0; place = 0; counts = counts } } }
    {
        Want {
            tables,
            answer: Answer {
                reply: 0,
                place: 0,
                counts,
            },
        }
    }

    // "Every refusal returns 0 for these." The reply is written as document 01 numbers it, and not by a `Reason` of crates/book: a test keeps its
    // values, and a wrong number there would be wanted here too.
    pub fn refused(tables: Tables, reply: u8, place: usize) -> Want
        ensures { result ≡ record { tables = tables; answer = record { reply = reply; place = place; counts = 0 ∷ 0 ∷ 0 ∷ [] } } }
    {
        Want {
            tables,
            answer: Answer {
                reply,
                place,
                counts: [0; 3],
            },
        }
    }

    // What stands in the workspace after that answer.
    fn workspace(self) -> Tables {
        self.tables.after(self.answer.reply)
    }
}

// The first n bytes.
pub fn front<'a>(bytes: &'a [u8], n: usize) -> &'a [u8]
    ensures { result.now ≡ take n bytes.now }
{
    if n < bytes.len() {
        return &bytes[..n];
    }
    bytes
}

// Numbers go by `put_number`: what `write!` puts into a text no contract says.
pub fn report(
    rt: &impl Print,
    ok: bool,
    operation: &[u8],
    want: Answer,
    note: &[u8],
) -> io::Result<()> {
    let mut bytes = [0u8; LINE];
    let mut line = Text::new(rt, &mut bytes);
    line.put_all(if ok {
        b"ok ".as_slice()
    } else {
        b"WRONG ".as_slice()
    })?;
    line.put_all(operation)?;
    line.put(b' ')?;
    line.put_number(u64::from(want.reply))?;
    line.put(b' ')?;
    line.put_number(want.place as u64)?;
    line.put(b' ')?;
    line.put_all(note)?;
    line.put(b'\n')?;
    line.flush()
}

// How much an operation is lent, what it must answer, and the note that is printed with it.
#[derive(Clone, Copy)]
pub struct Case<'a> {
    pub lent: Lent,
    pub want: Want,
    pub note: &'a [u8],
}

// Each operation is lent its buffers here.
// Tried: in a method of `Buffers` two fields would be lent as `&mut` behind one reference, and that proof does not close.
impl Case<'_> {
    pub fn check(&self, rt: &impl Print, book: &[u8]) -> io::Result<()> {
        let answer = Answer::from(book::check(book));
        self.compare(rt, b"CHECK", answer, true)
    }

    pub fn build(&self, rt: &impl Print, book: &[u8]) -> io::Result<()> {
        let mut buffers = Buffers::new();
        let answer = Answer::from(sets::build(
            book,
            &mut buffers.rows[..self.lent.rows],
            &mut buffers.sets[..self.lent.sets],
        ));
        let held = buffers.built(self.want.workspace());
        self.compare(rt, b"BUILD", answer, held)
    }

    pub fn rewrite(&self, rt: &impl Print, book: &[u8], tape: &[u8]) -> io::Result<()> {
        let mut buffers = Buffers::new();
        let answer = Answer::from(rewriter::rewrite(
            book,
            tape,
            &mut buffers.rows[..self.lent.rows],
            &mut buffers.sets[..self.lent.sets],
            &mut buffers.scratch[..self.lent.scratch],
            &mut buffers.out[..self.lent.out],
            &mut buffers.origins[..self.lent.origins],
        ));
        let held = buffers.passed(self.want.workspace(), tape.len())
            & buffers.written(self.want.answer.counts[0]);
        self.compare(rt, b"REWRITE", answer, held)
    }

    pub fn account(&self, rt: &impl Print, book: &[u8], tape: &[u8]) -> io::Result<()> {
        let mut buffers = Buffers::new();
        let answer = Answer::from(rewriter::account(
            book,
            tape,
            &mut buffers.rows[..self.lent.rows],
            &mut buffers.sets[..self.lent.sets],
            &mut buffers.scratch[..self.lent.scratch],
            &mut buffers.lines[..self.lent.lines],
        ));
        let held = buffers.passed(self.want.workspace(), tape.len())
            & buffers.listed(self.want.answer.counts[0]);
        self.compare(rt, b"ACCOUNT", answer, held)
    }

    fn compare(
        &self,
        rt: &impl Print,
        operation: &[u8],
        answer: Answer,
        held: bool,
    ) -> io::Result<()> {
        let ok = held & (answer == self.want.answer);
        report(rt, ok, operation, self.want.answer, self.note)
    }
}
