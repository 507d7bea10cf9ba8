// What controls show: that plays of different words are told apart.
use super::comparing::Difference;
use std::io;

// Which kinds of differences were found in controls.
#[derive(Clone, Copy, Debug, PartialEq, Eq)]
pub(crate) struct Controls {
    answers: bool,
    tells: bool,
    words: bool,
}

fn yes_or_no(is_so: bool) -> &'static str {
    if is_so { "yes" } else { "no" }
}

impl Controls {
    pub(crate) const NONE: Controls = Controls {
        answers: false,
        tells: false,
        words: false,
    };

    // Takes note of the differences that a control has.
    pub(crate) fn note(&mut self, found: &[Difference]) {
        for difference in found {
            match difference {
                Difference::NotAdmitted | Difference::NumberOfAnswers => {}
                Difference::Answer(_) => self.answers = true,
                Difference::Told => self.tells = true,
                Difference::Word(_) => self.words = true,
            }
        }
    }

    // Were differences of each kind found?
    pub(crate) fn are_complete(&self) -> bool {
        self.answers && self.tells && self.words
    }

    pub(crate) fn print(&self, rt: &impl Print) -> io::Result<()> {
        let answers = yes_or_no(self.answers);
        println!(rt; "controls tell other words by answers: {answers}")?;
        let tells = yes_or_no(self.tells);
        println!(rt; "controls tell other words by tells: {tells}")?;
        let words = yes_or_no(self.words);
        println!(rt; "controls tell other words by words: {words}")
    }
}
