// How many elements of each buffer a case lends, within the room that there is.
ghost use Rattle.std.specs.Prelude.{◌≡◌, ◌+◌, ◌≤◌};
ghost use Rattle.sets.specs.Workspace.{row_bytes, set_words};
ghost use Rattle.stretches.specs.Buffers.{longest_tape};
ghost use Rattle.cases.specs.Room.{Room, out_room, lines_room};

use super::buffers;

#[derive(Clone, Copy)]
pub struct Lent {
    pub rows: usize,
    pub sets: usize,
    pub scratch: usize,
    pub out: usize,
    pub origins: usize,
    pub lines: usize,
    pub ghost room: { Room rows sets scratch out origins lines },
}

impl Lent {
    // A row of a test: each number has its place here.
    pub fn new(
        rows: usize,
        sets: usize,
        scratch: usize,
        out: usize,
        origins: usize,
        lines: usize,
    ) -> Lent
        requires rows_bound { (rows ≤ row_bytes + 8) × (sets ≤ set_words + 8) × (scratch ≤ longest_tape + 4) }
        requires out_le_out_room { (out ≤ out_room) × (origins ≤ out_room) × (lines ≤ lines_room) }
        ensures workspace { (result.rows ≡ rows) × (result.sets ≡ sets) × (result.scratch ≡ scratch) }
        ensures written { (result.out ≡ out) × (result.origins ≡ origins) × (result.lines ≡ lines) }
    {
        Lent {
            rows,
            sets,
            scratch,
            out,
            origins,
            lines,
        }
    }

    // More than any case needs.
    pub fn ample() -> Lent
        ensures workspace { (result.rows ≡ row_bytes + 8) × (result.sets ≡ set_words + 8) × (result.scratch ≡ longest_tape + 4) }
        ensures written { (result.out ≡ out_room) × (result.origins ≡ out_room) × (result.lines ≡ lines_room) }
    {
        Lent::new(
            buffers::ROWS,
            buffers::SETS,
            buffers::SCRATCH,
            buffers::OUT,
            buffers::OUT,
            buffers::LINES,
        )
    }
}
