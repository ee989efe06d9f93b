// Which stretches of a tape are candidates, and what is taken at a position. The meaning of it all is in specs/.
#![tactic(auto)]

pub mod steps; // steps.rt: the steps of the focus that a pass remembers
pub mod walk; // walk.rt: what is taken at one position
pub mod pass; // pass.rt: what a pass over a tape is lent
