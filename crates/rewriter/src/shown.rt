// SHOW: the stretch of the tape itself that a line of an account names. The contract says which part of the tape comes back, and not only what
// stands in it.
ghost use Rattle.std.specs.Prelude.{◌≡◌, ◌+◌, ◌≤◌, length};
ghost use Rattle.rewriter.specs.Show.{bounds_of, show_def};

use lines::{LINE_END, LINE_START, LINE_WORDS};

// A part of the tape.
#[derive(Clone, Copy)]
pub struct Bounds {
    // Where it begins, at most `end`: SHOW's part is cut there, and C adds it to its pointer.
    pub start: usize,
    // The position after its last, or its start where it is empty; at most the tape's length, so that the part is one of the tape; 0 where the line
    // names no stretch.
    pub end: usize,
}

// The stretch that a line names in a tape of n symbols; 0 and 0, and no `Option`, where there is none: so document 01 has it ("the empty part at the
// tape's front"), and so C gets it, which calls this one.
pub fn bounds_of(n: usize, lines: &[u16], line: usize) -> Bounds
    ensures value { result ≡ bounds_of n lines.now line }
    ensures start_le_end { (result.start ≤ result.end) × (result.end ≤ n) }
{
    if lines.len() / LINE_WORDS <= line {
        return Bounds { start: 0, end: 0 };
    }
    let i = line * LINE_WORDS;
    let start = usize::from(lines[i + LINE_START]);
    let end = usize::from(lines[i + LINE_END]);
    if end < start {
        return Bounds { start: 0, end: 0 };
    }
    if n < end {
        return Bounds { start: 0, end: 0 }; // past the tape
    }
    Bounds { start, end }
}

pub fn show<'a>(tape: &'a [u8], lines: &[u16], line: usize) -> &'a [u8]
    ensures result_value { result.now ≡ show_def tape.now lines.now line }
    ensures ref_ptr_value { (result.ref_ptr.0 ≡ tape.entry.ref_ptr.0)
        × (result.ref_ptr.1 ≡ tape.entry.ref_ptr.1 + (bounds_of (length tape.now) lines.now line).start) }
{
    let b = bounds_of(tape.len(), lines, line);
    &tape[b.start..b.end]
}
