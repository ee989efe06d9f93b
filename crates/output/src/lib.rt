// REWRITE's forward passes over one tape.
#![tactic(auto)]

ghost use Rattle.std.specs.Prelude.{◌≡◌};
ghost use Rattle.book.specs.Language.{rules_in};
ghost use Rattle.output.specs.Tape.{tape_leaves, tape_def};
ghost use Rattle.output.specs.Results.{rewritten};

use crate::passes::Writer;
use book::outline::place_rules;
use book::replies::Refusal;
use stretches::pass::Pass;

mod passes; // passes.rt: measuring and writing the output, position after position
mod words; // words.rt: both outputs, as far as they are written

// REWRITE's answer, in document 01's numbers: the C interface has the same fields.
#[derive(Clone, Copy)]
pub struct Rewritten {
    // 0 for accepted, else the refusal's number, 1 to 15: callers test it before they read any buffer.
    pub reply: u8,
    // Where the refusal arose: an offset of the book, a position of the tape, or with 15 the symbols needed; 0 for accepted.
    pub place: usize,
    // How many symbols, and origins, stand at the front of both outputs: at most the length of each; 0 on a refusal.
    pub length: usize,
    // How many stretches were taken, at most one a position of the tape, its end among them; 0 on a refusal.
    pub taken: usize,
}

// "REWRITE the output length and the number of stretches taken".
#[derive(Clone, Copy)]
pub struct Size {
    // How many symbols, and origins, stand at the front of both outputs: at most the length of each.
    pub length: usize,
    // At most one a position of the tape, its end among them.
    pub taken: usize,
}

// Each such conversion names the fields that C has, of its own type, once.
impl From<Result<Size, Refusal>> for Rewritten {
    ghost from_gives = { λ r w. w ≡ rewritten r };

    fn from(r: Result<Size, Refusal>) -> Rewritten {
        match r {
            Ok(size) => Rewritten {
                reply: 0,
                place: 0,
                length: size.length,
                taken: size.taken,
            },
            Err(refusal) => Rewritten {
                reply: refusal.reason.number(),
                place: refusal.place,
                length: 0,
                taken: 0,
            },
        }
    }
}

// One tape after a build and its backward pass: refused with 15 and nothing written where the shorter of the two outputs has no room. Public: who
// rewrites calls it after a build, once a tape, with the pass that he has from the book.
pub fn rewrite_ready(pass: &Pass, out: &mut [u8], origins: &mut [u16]) -> Result<Size, Refusal>
    ensures { tape_leaves (rewritten result) out.new origins.new
        ≡ tape_def (rules_in pass.now.walk.outline.states.book.now) pass.now.walk.tape.now out.old origins.old }
{
    let mut words = [0u16; book::RULES];
    place_rules(pass.walk.outline.states.book, &mut words);
    let writer = Writer {
        pass: *pass,
        words: &words,
    };
    let room = usize::min(out.len(), origins.len());
    writer.fits(room)?;
    Ok(writer.forward(out, origins))
}
