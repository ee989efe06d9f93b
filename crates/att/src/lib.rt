// IMPORT: a text in the AT&T form of acceptors as one part of a rule.
#![tactic(auto)]

ghost use Rattle.std.specs.Prelude.{◌≡◌};
ghost use Rattle.att.specs.Text.{import_leaves, import_def};
ghost use Rattle.att.specs.Results.{written_by};

use crate::part::Plan;
use book::Written;
use book::replies::Refusal;

mod fields; // fields.rt: a line's fields, and a field as a number
mod part; // part.rt: what is decided before a byte is written, and the records
mod reading; // reading.rt: one line, and the text with a place in it
mod states; // states.rt: the states, numbered by first appearance
mod survey; // survey.rt: the first pass over the text

// The length of the records that are written, or why none is.
pub fn try_import(text: &[u8], part: u8, first: u8, out: &mut [u8]) -> Result<usize, Refusal>
    ensures { import_leaves (written_by result) out.new ≡ import_def text.now part first out.old }
{
    let plan = Plan::new(text, part, first, out.len())?;
    plan.put(out);
    Ok(plan.bytes)
}

// Document 02's IMPORT: any text, part, first number and buffer get their reply. The answer is put together here, since `Written` is of crates/book,
// where alone a `From` for it could stand.
pub fn import(text: &[u8], part: u8, first: u8, out: &mut [u8]) -> Written
    ensures { import_leaves result out.new ≡ import_def text.now part first out.old }
{
    match try_import(text, part, first, out) {
        Ok(length) => Written {
            reply: 0,
            place: 0,
            length,
        },
        Err(refusal) => Written {
            reply: refusal.reason.number(),
            place: refusal.place,
            length: 0,
        },
    }
}
