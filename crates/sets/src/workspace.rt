// The workspace: one side put into its own rows and sets, and both cleared. Rows and sets are two slices, as document 01 and the C interface lend
// them.
ghost use Rattle.std.specs.Prelude.{◌≡◌, [], ◌++◌, ◌≤◌, length, drop};
ghost use Rattle.book.specs.Reading.{book_of};
ghost use Rattle.sets.specs.Numbering.{most_sets, pairs, pad};
ghost use Rattle.sets.specs.Workspace.{row_bytes, set_words};
ghost use Rattle.sets.specs.Sides.{back, side_table, Counted};

use super::sides::Side;
use book::outline::Outline;

// Both sides all 0, and nothing past them changed.
pub(crate) fn clear(rows: &mut [u8], sets: &mut [u64])
    requires { (row_bytes ≤ length rows.old) × (set_words ≤ length sets.old) }
    ensures rows_after { rows.new ≡ pad row_bytes [] ++ drop row_bytes rows.old }
    ensures sets_after { sets.new ≡ pad set_words [] ++ drop set_words sets.old }
{
    rows[..super::ROW_BYTES].fill(0);
    sets[..super::SET_WORDS].fill(0);
}

// One side, into its own rows and sets, whatever stood there before. The count; or none, where there are more sets than the most.
pub(crate) fn number_side(
    outline: &Outline,
    side: Side,
    rows: &mut [u8],
    sets: &mut [u64],
) -> Option<usize>
    requires { (length rows.old ≡ pairs) × (length sets.old ≡ most_sets) }
    ensures { Counted (side_table (book_of outline.now.states.book.now) (back side)) result rows.new sets.new }
{
    rows.fill(0);
    sets.fill(0);
    super::numbering::number_sets(outline, side, rows, sets)
}
