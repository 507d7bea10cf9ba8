// The plays that there were, and which of two plays of a line is written.
use super::kinds::Kind;
use super::problem::Problem;
use std::io;

// The plays over stores of each kind, and whether the next line is written as its second play gives it.
#[derive(Clone, Copy, Debug, PartialEq, Eq)]
pub(crate) struct Plays {
    by_kind: [u32; 3],
    takes_second: bool,
}

impl Plays {
    pub(crate) const NONE: Plays = Plays {
        by_kind: [0; 3],
        takes_second: false,
    };

    // Counts a play over a store of this kind.
    pub(crate) fn count(&mut self, kind: Kind) {
        if let Some(plays) = self.by_kind.get_mut(kind as usize) {
            *plays = plays.saturating_add(1);
        }
    }

    // One of a line's two plays, which have to be equal: the first of one line, the second of the next.
    pub(crate) fn one_of<P: PartialEq + Drop>(
        &mut self,
        first: P,
        second: P,
    ) -> Result<P, Problem> {
        if first != second {
            return Err(Problem::PlaysDiffer);
        }
        let takes_second = self.takes_second;
        self.takes_second = !takes_second;
        Ok(if takes_second { second } else { first })
    }

    pub(crate) fn print(&self, rt: &impl Print) -> io::Result<()> {
        for (kind, plays) in Kind::ALL.iter().zip(self.by_kind.iter()) {
            println!(rt; "plays over {kind}: {plays}")?;
        }
        Ok(())
    }
}
