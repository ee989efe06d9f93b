// Reading a built workspace: the entries of its rows, and its sets. Public, and with a `requires`: a pass over a tape reads an entry a symbol,
// and has the lengths from BUILD. Two entries, and not one of any side: `left_entry` and `right_entry` of specs/Tables are two sums, each in its
// own order, and each pass carries its number in its own type.
ghost use Rattle.std.specs.Prelude.{◌≡◌, ◌≤◌, ◌<◌, length, get_or};
ghost use Rattle.book.specs.Format.{symbol_count};
ghost use Rattle.sets.specs.Numbering.{most_sets};
ghost use Rattle.sets.specs.Workspace.{row_bytes, set_words};
ghost use Rattle.sets.specs.Tables.{left_entry, right_entry, right_set};

// The number of the left set one symbol on.
pub fn left_entry(rows: &[u8], k: usize, symbol: u8) -> usize
    requires { (k < most_sets) × (symbol < symbol_count) × (row_bytes ≤ length rows.now) }
    ensures { result ≡ left_entry rows.now k symbol }
{
    rows[symbol as usize + super::ROW * k] as usize
}

// The number of the right set with one symbol more in front.
pub fn right_entry(rows: &[u8], k: u8, symbol: u8) -> u8
    requires { (symbol < symbol_count) × (row_bytes ≤ length rows.now) }
    ensures { result ≡ right_entry rows.now k symbol }
{
    rows[super::PAIRS + symbol as usize + k as usize * super::ROW]
}

// The right set at position j, whose number stands in the scratch.
pub fn right_set(sets: &[u64], scratch: &[u8], j: usize) -> u64
    requires { (j < length scratch.now) × (set_words ≤ length sets.now) }
    ensures { result ≡ right_set sets.now (get_or scratch.now j 0) }
{
    sets[super::MOST_SETS + scratch[j] as usize]
}
