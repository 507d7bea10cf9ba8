// What two plays of one worker have not in common.
use super::histories::Close;
use super::playing::Played;
use engine::Answer;
use std::alloc::{AllocError, Global};

// Answers are numbered from the worker's admit on, which is 0, and words by their relative addresses.
#[derive(Clone, Copy, Debug, PartialEq, Eq)]
pub(crate) enum Difference {
    NotAdmitted,
    NumberOfAnswers,
    Answer(u32),
    Told,
    Word(u32),
}

impl Difference {
    // What it is, with what the first play has and what the second has.
    pub(crate) fn text(
        self,
        heap: Global,
        first: &Played,
        second: &Played,
    ) -> Result<String, AllocError> {
        match self {
            Difference::NotAdmitted => String::from_str(heap, "the worker was not admitted"),
            Difference::NumberOfAnswers => String::from_str(heap, "there are not as many answers"),
            Difference::Answer(number) => {
                let one = first.answers.get(number as usize);
                let other = second.answers.get(number as usize);
                format!(in heap; "answer {number} is {one:?} and {other:?}")
            }
            Difference::Told => {
                let (one, other) = (first.told, second.told);
                format!(in heap; "tell at the end answers {one:?} and {other:?}")
            }
            Difference::Word(address) => {
                let one = first.words.get(address as usize);
                let other = second.words.get(address as usize);
                format!(in heap; "word {address} is {one:?} and {other:?}")
            }
        }
    }
}

impl Played {
    fn was_admitted(&self) -> bool {
        match self.answers.first() {
            Some(Answer::Admitted(Ok(()))) => true,
            _ => false,
        }
    }
}

// Adds how the answers to the calls for the worker differ.
fn compare_answers(
    found: &mut Vec<Difference>,
    first: &Played,
    second: &Played,
) -> Result<(), AllocError> {
    if first.answers.len() != second.answers.len() {
        found.push(Difference::NumberOfAnswers)?;
    }
    let mut number = 0u32;
    for (answer, other) in first.answers.iter().zip(second.answers.iter()) {
        if answer != other {
            found.push(Difference::Answer(number))?;
        }
        number = number.wrapping_add(1);
    }
    Ok(())
}

// Adds how the ends differ.
fn compare_ends(
    found: &mut Vec<Difference>,
    first: &Played,
    second: &Played,
) -> Result<(), AllocError> {
    if first.told != second.told {
        found.push(Difference::Told)?;
    }
    let mut address = 0u32;
    for (word, other) in first.words.iter().zip(second.words.iter()) {
        if word != other {
            found.push(Difference::Word(address))?;
        }
        address = address.wrapping_add(1);
    }
    Ok(())
}

// All differences. The ends are compared where no other call follows the worker's retire.
pub(crate) fn differences(
    heap: Global,
    close: Close,
    first: &Played,
    second: &Played,
) -> Result<Vec<Difference>, AllocError> {
    let mut found = Vec::new(heap);
    if !first.was_admitted() || !second.was_admitted() {
        found.push(Difference::NotAdmitted)?;
    }
    compare_answers(&mut found, first, second)?;
    if close != Close::Followed {
        compare_ends(&mut found, first, second)?;
    }
    Ok(found)
}
