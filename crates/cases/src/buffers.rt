// The buffers of a case: an operation is lent their first elements, and afterwards every element is compared.
use super::expect::{self, OLD, Tables};
use super::hold::holds;
use rewriter::{LINE_WORDS, LONGEST_TAPE};

// The room there is: some elements more than the workspace, the scratch of the longest tape, its output and its account need. Every
// second symbol of that tape becomes two.
pub(crate) const ROWS: usize = sets::ROW_BYTES + 8;

pub(crate) const SETS: usize = sets::SET_WORDS + 8;

pub(crate) const SCRATCH: usize = LONGEST_TAPE + 4;

pub(crate) const OUT: usize = LONGEST_TAPE + LONGEST_TAPE / 2 + 6;

pub(crate) const LINES: usize = LINE_WORDS * (LONGEST_TAPE / 2) + 10;

#[derive(Drop)]
pub(crate) struct Buffers {
    pub(crate) rows: [u8; ROWS],
    pub(crate) sets: [u64; SETS],
    pub(crate) scratch: [u8; SCRATCH],
    pub(crate) out: [u8; OUT],
    pub(crate) origins: [u16; OUT],
    pub(crate) lines: [u16; LINES],
}

impl Buffers {
    pub(crate) fn new() -> Buffers {
        Buffers {
            rows: [OLD; ROWS],
            sets: [u64::from(OLD); SETS],
            scratch: [OLD; SCRATCH],
            out: [OLD; OUT],
            origins: [u16::from(OLD); OUT],
            lines: [u16::from(OLD); LINES],
        }
    }

    // What BUILD leaves.
    pub(crate) fn built(&self, tables: Tables) -> bool {
        holds(&self.rows, |i| tables.row(i)) & holds(&self.sets, |i| tables.set(i))
    }

    // What the backward pass over n symbols leaves.
    pub(crate) fn passed(&self, tables: Tables, n: usize) -> bool {
        self.built(tables) & holds(&self.scratch, |i| tables.scratch(n, i))
    }

    // So many symbols, with their origins.
    pub(crate) fn written(&self, front: usize) -> bool {
        holds(&self.out, |i| expect::output(front, i))
            & holds(&self.origins, |i| expect::origin(front, i))
    }

    // So many lines.
    pub(crate) fn listed(&self, front: usize) -> bool {
        holds(&self.lines, |i| expect::line_word(front, i))
    }
}
