ghost use Rattle.std.specs.Prelude.{◌≡◌};
ghost use Rattle.store.specs.Cells.{other_half};

// One of the two halves of a cell or a word.
#[derive(Clone, Copy, Debug, PartialEq, Eq)]
pub enum Half {
    Upper,
    Lower,
}

impl Half {
    // The half beside this one.
    pub fn other(self) -> Half
        ensures { result ≡ other_half self }
    {
        match self {
            Half::Upper => Half::Lower,
            Half::Lower => Half::Upper,
        }
    }
}
