// The numbering of a side: nested loops over the numbered sets and the symbols, in turn. One function serves both sides.
ghost use Rattle.std.specs.Prelude.{◌≡◌, Some, length};
ghost use Rattle.book.specs.Reading.{book_of};
ghost use Rattle.sets.specs.Stepping.{close_by, StepsEnd};
ghost use Rattle.sets.specs.Sides.{back, side_table, number_in, Clear, Counted};

use super::sides::Side;
use super::stepping::{Row, close, make};
use book::outline::Outline;

// The last step, and the number of the set that it gave: that of the empty tape's set at first, which the empty step gives.
#[derive(Clone, Copy)]
struct Last {
    step: u64,
    number: usize,
}

// The number of the set, if it was met before.
fn find(sets: &[u64], set: u64) -> Option<usize>
    ensures { result ≡ number_in sets.now set }
{
    // document 01, "What form to use where": the search for an equal set breaks out with its number, hence no `position`
    let mut i: usize = 0;
    loop {
        if i == sets.len() {
            break None;
        }
        if sets[i] == set {
            break Some(i);
        }
        i += 1;
    }
}

// The number of the set that a step gives, if it was met before. Where the step is the last one, so is its number: nothing is closed and
// nothing is sought.
fn number_of(outline: &Outline, side: Side, sets: &[u64], last: Last, step: u64) -> Option<usize>
    requires { Some last.number ≡ number_in sets.now (close_by outline.now.masks.now (back side) last.step) }
    ensures { result ≡ number_in sets.now (close_by outline.now.masks.now (back side) step) }
{
    if step == last.step {
        return Some(last.number);
    }
    let set = close(outline.masks, side, step);
    find(sets, set)
}

// Where the row's steps end: no symbol from there on has one. Such a symbol leads back to set 0, and its number stands in rows that are all 0.
fn steps_end(steps: &[u64; super::ROW]) -> usize
    ensures { StepsEnd steps.now result }
{
    let last = steps.iter().rposition(|step| *step != 0);
    last.map_or(0, |symbol| symbol + 1)
}

// All pairs of a numbered set and a symbol, into rows and sets that are all 0: the sets with their count, since document 01 lends them whole and there
// is no heap. The count; or none, at the first set that would pass the most.
pub(crate) fn number_sets(
    outline: &Outline,
    side: Side,
    rows: &mut [u8],
    sets: &mut [u64],
) -> Option<usize>
    requires { Clear rows.old sets.old }
    ensures { Counted (side_table (book_of outline.now.states.book.now) (back side)) result rows.new sets.new }
{
    sets[0] = close(outline.masks, side, 0);
    let mut count: usize = 1;
    let mut k: usize = 0;
    let mut last = Last { step: 0, number: 0 };
    // document 01, "What form to use where": nested loops over numbered sets and symbols, which the 257th set leaves by label. The sets grow
    // on the way, so the outer one is no `for`
    'all: loop {
        if k == count {
            break Some(count);
        }
        let mut row = Row {
            side,
            set: sets[k],
            steps: [0u64; super::ROW],
        };
        make(&outline.states, &mut row);
        let end = steps_end(&row.steps);
        for symbol in 0..end {
            let step = row.steps[symbol];
            let number = match number_of(outline, side, &sets[..count], last, step) {
                Some(met) => met,
                None => {
                    if count == super::MOST_SETS {
                        break 'all None;
                    }
                    sets[count] = close(outline.masks, side, step);
                    count += 1;
                    count - 1
                }
            };
            last = Last { step, number };
            rows[super::ROW * k + symbol] = number as u8;
        }
        k += 1;
    }
}
