// A pass over one tape.
ghost use Rattle.stretches.specs.Ready.{Ready};

use crate::walk::Walk;

// What the forward passes are lent after BUILD and the backward pass: the walk at each position, and the left rows, by which they come from the left
// set at one position to that at the next.
#[derive(Clone, Copy)]
pub struct Pass<'a> {
    pub walk: Walk<'a>,
    pub rows: &'a [u8],
    pub ghost ready: { Ready walk.outline.states.book.now walk.tape.now rows.now walk.sets.now walk.scratch.now },
}
