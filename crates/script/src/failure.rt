// Why a statement or a line was not done: there was no memory for it, or something is wrong with it.
ghost use Rattle.std.specs.Prelude.{◌≡◌};
ghost use Rattle.script.specs.declared.failure.Failure.TheVariants.{OutOfMemory, Wrong};
ghost use Rattle.script.specs.Failure.{at_line};

use crate::problem::Problem;
use crate::reason::Reason;
use std::alloc::AllocError;

// It has no Display: who gets one takes it apart.
#[derive(Clone, Copy, Debug, PartialEq, Eq)]
pub enum Failure<E> {
    OutOfMemory(AllocError),
    Wrong(E),
}

impl<E> From<AllocError> for Failure<E> {
    ghost from_gives = { λ error failure. failure ≡ OutOfMemory error };

    fn from(error: AllocError) -> Self {
        Failure::OutOfMemory(error)
    }
}

impl From<Reason> for Failure<Reason> {
    ghost from_gives = { λ reason failure. failure ≡ Wrong reason };

    fn from(reason: Reason) -> Self {
        Failure::Wrong(reason)
    }
}

impl Failure<Reason> {
    // What is wrong with a line is told with its number.
    pub(crate) fn at_line(self, line: u64) -> Failure<Problem>
        ensures { result ≡ at_line line self }
    {
        match self {
            Failure::OutOfMemory(error) => Failure::OutOfMemory(error),
            Failure::Wrong(reason) => Failure::Wrong(Problem { line, reason }),
        }
    }
}
