// Both outputs, as far as they are written: kept symbols and words, each symbol with its origin.
ghost use Rattle.std.specs.Prelude.{◌≤◌, ◌<◌, [], ◌∷◌, length};
ghost use Rattle.stretches.specs.Buffers.{longest_tape};
ghost use Rattle.stretches.specs.Output.{marks, word_marks};
ghost use Rattle.output.specs.Passes.{MarksFit, MarksPut};

// The two buffers, and how far they are filled: two and not one of pairs, as REWRITE is lent them (document 01, and the C interface).
#[derive(Drop)]
pub(crate) struct Outputs<'a> {
    pub out: &'a mut [u8],
    pub origins: &'a mut [u16],
    // Where the next symbol is written, and its origin: at most the length of each buffer.
    pub at: usize,
}

impl Outputs<'_> {
    // Writes a symbol and its origin.
    pub(crate) fn put(&mut self, symbol: u8, origin: usize)
        requires { (origin ≤ longest_tape) × (self.old.at < length self.old.out.now) × (self.old.at < length self.old.origins.now) }
        ensures { MarksPut (marks (symbol ∷ []) origin) self.old self.new }
    {
        self.out[self.at] = symbol;
        self.origins[self.at] = origin as u16;
        self.at += 1;
    }

    // Writes a word that stands for the stretch from start up to stop: "When a replacement has two or more symbols, the last one's origin is the last
    // position of the stretch; the others keep the start". Of an empty stretch that is its own position. It is put in after the others, so that nothing is
    // decided symbol by symbol.
    pub(crate) fn put_word(&mut self, word: &[u8], start: usize, stop: usize)
        requires in_bounds { (start ≤ stop) × (stop ≤ longest_tape) }
        requires fits { MarksFit (word_marks word.now start stop) self.old }
        ensures { MarksPut (word_marks word.now start stop) self.old self.new }
    {
        let last = usize::max(start, stop.saturating_sub(1));
        for symbol in word {
            self.put(*symbol, start);
        }
        if word.len() <= 1 {
            return;
        }
        self.origins[self.at - 1] = last as u16;
    }
}
