// The states of a text, numbered by first appearance.
ghost use Rattle.std.specs.Prelude.{◌≡◌, ◌≤◌, [], length};
ghost use Rattle.std.specs.Bool.{then_some};
ghost use Rattle.book.specs.Format.{most_states};

use crate::reading::Line;

// The first `count` of the list, in the order of first appearance. A list with its count, since memory is fixed and there is no heap (document 01).
#[derive(Clone, Copy)]
pub struct Known {
    list: [u16; book::STATES],
    count: usize,
    ghost few: { count ≤ most_states },
}

impl Known {
    ghost use Rattle.att.specs.Text.{add, add_line};
    ghost use Rattle.att.specs.Survey.{states, Lists, number_in};
    ghost use Rattle.att.specs.Results.{said};

    // None yet.
    pub fn new() -> Known
        ensures { states result ≡ [] }
    {
        Known {
            list: [0; book::STATES],
            count: 0,
        }
    }

    // How many they are.
    pub fn count(&self) -> usize
        ensures { result ≡ length (states self.now) }
    {
        self.count
    }

    // The number of x, if it is one of them.
    pub fn number_of(&self, x: u16) -> Option<usize>
        ensures { result ≡ number_in (states self.now) x }
    {
        // `min` tells the compiler what `few` says: it then compares eight at a time
        let count = self.count.min(book::STATES);
        self.list[..count].iter().position(|y| *y == x)
    }

    // Adds x, if it is none of them yet; false where they would be more than there may be.
    fn add(&mut self, x: u16) -> bool
        ensures { Lists (then_some result self.new) (add (states self.old) x) }
    {
        if self.number_of(x).is_some() {
            return true;
        }
        if self.count == book::STATES {
            return false;
        }
        self.list[self.count] = x;
        self.count += 1;
        true
    }

    // Adds those of a line; false where they would be too many.
    pub fn add_line(&mut self, line: Line) -> bool
        ensures { Lists (then_some result self.new) (add_line (states self.old) (said line)) }
    {
        match line {
            Line::Final { state } => self.add(state),
            Line::Arc { from, to, .. } => self.add(from) && self.add(to), // the source first
        }
    }
}
