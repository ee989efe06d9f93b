// The two sides of the automata: the left sets go along the arcs from a tape's front, the right sets against them from its end.
ghost use Rattle.std.specs.Prelude.{◌≡◌};
ghost use Rattle.sets.specs.Sides.{source, target};

#[derive(Clone, Copy)]
pub(crate) enum Side {
    Left,
    Right,
}

impl Side {
    // Where an arc's record names the state that a step leaves.
    pub(crate) fn source(self) -> usize
        ensures { result ≡ source self }
    {
        match self {
            Side::Left => book::FROM,
            Side::Right => book::TO,
        }
    }

    // Where it names the state that the step leads to.
    pub(crate) fn target(self) -> usize
        ensures { result ≡ target self }
    {
        match self {
            Side::Left => book::TO,
            Side::Right => book::FROM,
        }
    }
}
