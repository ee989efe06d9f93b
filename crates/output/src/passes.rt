// The output, position after position, the tape's end among them: nothing inside a taken stretch; else the word of the stretch that is taken there, if
// one is, and then the symbol, if that stretch does not cover it. Where the output may not fit it is measured before the first write, so that a
// refusal leaves the outputs as they were.
ghost use Rattle.std.specs.Prelude.{◌≡◌, ◌+◌, ◌≤◌, ◌<◌, length, get_or};
ghost use Rattle.std.specs.Int.Bits.{bit_and};
ghost use Rattle.book.specs.Reading.{book_of};
ghost use Rattle.book.specs.Outline.{WordsAt, all_starts, all_accepts};
ghost use Rattle.sets.specs.Tables.{left_entry};
ghost use Rattle.stretches.specs.Buffers.{onto};
ghost use Rattle.stretches.specs.Output.{rule_word, rewriting, symbols_of, origins_of};
ghost use Rattle.stretches.specs.Ready.{Remembers};
ghost use Rattle.stretches.specs.Position.{word_here, marks_at};

use crate::Size;
use crate::words::Outputs;
use book::outline::{ALL_ACCEPTS, ALL_STARTS, word_length};
use book::replies::{Reason, Refusal};
use sets::entries::{left_entry, right_set};
use stretches::pass::Pass;
use stretches::steps::Steps;

// What the passes are lent: the pass, and where each rule's record stands, whose word is written.
#[derive(Clone, Copy)]
pub(crate) struct Writer<'a> {
    pub pass: Pass<'a>,
    pub words: &'a [u16; book::RULES],
    pub ghost words_at: { WordsAt pass.walk.outline.states.book.now (book_of pass.walk.outline.states.book.now).words words.now },
}

// How far a pass has come.
#[derive(Clone, Copy)]
pub(crate) struct Spot {
    // The number of the left set at the next position.
    pub left: usize,
    // Where the last stretch taken ends, at most the tape's length: positions before it write nothing.
    pub end: usize,
    // How many stretches are taken, at most one a position: REWRITE reports them.
    pub taken: usize,
}

// What one position can give: a longest word, and the symbol after it.
const MOST: usize = book::WORD + 1;

// Before the first position.
const FRONT: Spot = Spot {
    left: 0,
    end: 0,
    taken: 0,
};

impl<'a> Writer<'a> {
    ghost use Rattle.output.specs.Passes.{by, along, longest_in, longest_for, MarksFit, MarksPut, fits_in, Sized, Standing, Moved};

    // The word of a rule, as its record has it.
    fn word(&self, rule: usize) -> &'a [u8]
        requires { rule < length (book_of self.now.pass.walk.outline.states.book.now).words }
        ensures { result.now ≡ rule_word (by self.now.pass) rule }
    {
        let book = self.pass.walk.outline.states.book;
        let at = self.words[rule] as usize;
        let from = at + book::SYMBOLS_AT;
        &book[from..from + word_length(book, at)]
    }

    // How many symbols the longest word has.
    fn longest_word(&self) -> usize
        ensures { result ≡ longest_in (by self.now.pass) }
    {
        let mut most = 0;
        for rule in 0..self.pass.walk.rules {
            most = usize::max(most, self.word(rule).len());
        }
        most
    }

    // No output is longer than this: at each position, the tape's end among them, a longest word, and each symbol kept. Where no focus state both
    // starts and accepts nothing is put in, and each symbol gives a longest word or itself.
    fn longest_output(&self) -> usize
        ensures { result
            ≡ longest_for (bit_and (get_or self.now.pass.walk.outline.masks.now all_starts 0) (get_or self.now.pass.walk.outline.masks.now all_accepts 0))
            (length (along self.now.pass)) (longest_in (by self.now.pass)) }
    {
        let masks = self.pass.walk.outline.masks;
        let n = self.pass.walk.tape.len();
        let word = self.longest_word();
        if masks[ALL_STARTS] & masks[ALL_ACCEPTS] != 0 {
            return n * (word + 1) + word;
        }
        n * usize::max(1, word)
    }

    // Refused where the output is longer than the room. It is measured only where the longest possible output is longer.
    pub(crate) fn fits(&self, room: usize) -> Result<(), Refusal>
        ensures { result ≡ fits_in (by self.now.pass) (along self.now.pass) room }
    {
        if self.longest_output() <= room {
            return Ok(());
        }
        let length = self.measure();
        if length <= room {
            return Ok(());
        }
        Err(Reason::NoRoom.at(length))
    }

    // Writes the word of the stretch that is taken at a free position, if one is.
    #[tactic(auto, using(crate::proofs::Positions::some_fits))]
    fn write_taken(&self, i: usize, spot: Spot, steps: &mut Steps, to: &mut Outputs) -> Spot
        requires i_in_bounds { i ≤ length (along self.now.pass) }
        requires standing { Standing self.now.pass i spot }
        requires remembers { Remembers (book_of self.now.pass.walk.outline.states.book.now) steps.old }
        requires fits { MarksFit (word_here (by self.now.pass) (along self.now.pass) i) to.old }
        ensures marks_put { MarksPut (word_here (by self.now.pass) (along self.now.pass) i) to.old to.new }
        ensures moved { Moved self.now.pass i i spot result }
        ensures remembers_2 { Remembers (book_of self.now.pass.walk.outline.states.book.now) steps.new }
    {
        let walk = &self.pass.walk;
        let Some(t) = walk.taken_at(i, walk.sets[spot.left], steps) else {
            return Spot { end: i, ..spot };
        };
        to.put_word(self.word(t.rule), i, t.end);
        Spot {
            end: t.end,
            taken: spot.taken + 1,
            ..spot
        }
    }

    // Writes what stands for one position before the tape's end: "if it is empty, the word is written and the symbol at that position is kept". The number
    // of the next left set is read first: each waits for the one before, and none for what is written. It becomes a part of both passes, however large it
    // is: where they call it they take two to three times as long on the house book.
    #[inline(always)]
    fn write_position(&self, i: usize, spot: Spot, steps: &mut Steps, to: &mut Outputs) -> Spot
        requires i_in_bounds { i < length (along self.now.pass) }
        requires standing { Standing self.now.pass i spot }
        requires remembers { Remembers (book_of self.now.pass.walk.outline.states.book.now) steps.old }
        requires fits { MarksFit (marks_at (by self.now.pass) (along self.now.pass) i spot.end) to.old }
        ensures marks_put { MarksPut (marks_at (by self.now.pass) (along self.now.pass) i spot.end) to.old to.new }
        ensures left_next { result.left ≡ left_entry self.now.pass.rows.now spot.left (get_or (along self.now.pass) i 0) }
        ensures moved { Moved self.now.pass i spot.end spot result }
        ensures remembers_2 { Remembers (book_of self.now.pass.walk.outline.states.book.now) steps.new }
    {
        let walk = &self.pass.walk;
        let left = left_entry(self.pass.rows, spot.left, walk.tape[i]);
        if i < spot.end {
            return Spot { left, ..spot };
        }
        if right_set(walk.sets, walk.scratch, i) & walk.outline.masks[ALL_STARTS] == 0 {
            to.put(walk.tape[i], i); // no focus starts here: most positions
            return Spot {
                left,
                end: i,
                ..spot
            };
        }
        let next = self.write_taken(i, spot, steps, to);
        if i < next.end { // the stretch covers the symbol
            return Spot { left, ..next };
        }
        to.put(walk.tape[i], i);
        Spot { left, ..next }
    }

    // The output's length. What stands for a position is written where that much has room, over what stood for the one before, and only how much
    // it is counts: so what becomes of a position is decided in one place. The loop is not `forward`'s: there the length is the place that is carried on.
    fn measure(&self) -> usize
        ensures { result ≡ length (rewriting (by self.now.pass) (along self.now.pass)) }
    {
        let mut steps = Steps::new();
        let mut word = [0u8; MOST];
        let mut marks = [0u16; MOST];
        let mut to = Outputs {
            out: &mut word,
            origins: &mut marks,
            at: 0,
        };
        let mut spot = FRONT;
        let mut length = 0;
        for i in 0..self.pass.walk.tape.len() {
            to.at = 0;
            spot = self.write_position(i, spot, &mut steps, &mut to);
            length += to.at;
        }
        to.at = 0;
        self.write_taken(self.pass.walk.tape.len(), spot, &mut steps, &mut to); // a word put in at the tape's end
        length + to.at
    }

    // The writing pass, where there is room for the whole output; it counts as it writes.
    pub(crate) fn forward(&self, out: &mut [u8], origins: &mut [u16]) -> Size
        requires { (length (rewriting (by self.now.pass) (along self.now.pass)) ≤ length out.old)
            × (length (rewriting (by self.now.pass) (along self.now.pass)) ≤ length origins.old) }
        ensures sized { Sized (by self.now.pass) (along self.now.pass) result }
        ensures out_after { out.new
            ≡ onto (symbols_of (rewriting (by self.now.pass) (along self.now.pass))) out.old }
        ensures origins_after { origins.new
            ≡ onto (origins_of (rewriting (by self.now.pass) (along self.now.pass))) origins.old }
    {
        let mut steps = Steps::new();
        let mut to = Outputs {
            out,
            origins,
            at: 0,
        };
        let mut spot = FRONT;
        for i in 0..self.pass.walk.tape.len() {
            spot = self.write_position(i, spot, &mut steps, &mut to); // behind what stands so far
        }
        let last = self.write_taken(self.pass.walk.tape.len(), spot, &mut steps, &mut to); // a word put in at the tape's end
        Size {
            length: to.at,
            taken: last.taken,
        }
    }
}
