// Trials and controls: a worker, and two sides that it is played on.
ghost use Rattle.std.specs.Prelude.{◌<◌, ◌≤◌};

use super::cells::Cell;
use super::comparing::{Difference, differences};
use super::controls::Controls;
use super::counts::Counts;
use super::histories::{History, Worker};
use super::layout::Layout;
use super::playing::{Played, Side, play};
use super::random::Random;
use std::alloc::{AllocError, Global};

// A side with this worker in it, whose words are these.
fn side(
    heap: Global,
    random: &mut Random,
    layout: Layout,
    worker: &Worker,
    words: &[Cell],
) -> Result<Side, AllocError> {
    let row = layout.row(heap, random, words)?;
    let history = History::of(heap, random, layout, worker)?;
    Ok(Side {
        layout,
        row,
        history,
    })
}

// What came of the two sides, and how they differ.
#[derive(Drop)]
pub(crate) struct Compared {
    pub(crate) first: Played,
    pub(crate) second: Played,
    pub(crate) found: Vec<Difference>,
}

impl Compared {
    // The first difference, if there is one.
    fn text(&self, heap: Global) -> Result<Option<String>, AllocError> {
        match self.found.first() {
            None => Ok(None),
            Some(difference) => Ok(Some(difference.text(heap, &self.first, &self.second)?)),
        }
    }
}

// Plays a worker of so many words on a side that has them, and on a second side that has these words.
fn compare(
    heap: Global,
    random: &mut Random,
    length: u32,
    worker: &Worker,
    second_words: &[Cell],
) -> Result<Compared, AllocError>
    requires some { 0 < length }
    requires few { length ≤ 32 }
{
    let layout = Layout::any(random, length);
    let other = Layout::any(random, length).apart_from(layout.lower);
    let side_of_first = side(heap, random, layout, worker, worker.words.as_slice())?;
    let side_of_second = side(heap, random, other, worker, second_words)?;
    let (first, second) = play(heap, worker.place, side_of_first, side_of_second)?;
    let found = differences(heap, worker.close, &first, &second)?;
    Ok(Compared {
        first,
        second,
        found,
    })
}

// Plays a random worker, and counts. It tells the first difference, if there is one.
pub(crate) fn trial(
    heap: Global,
    random: &mut Random,
    counts: &mut Counts,
) -> Result<Option<String>, AllocError> {
    let length = 1 + random.below(32);
    let worker = Worker::any(heap, random, length)?;
    let compared = compare(heap, random, length, &worker, worker.words.as_slice())?;
    counts.count_trial(&compared);
    compared.text(heap)
}

// Plays a random worker whose words on the second side are those of another one, and takes note of the differences.
pub(crate) fn control(
    heap: Global,
    random: &mut Random,
    controls: &mut Controls,
) -> Result<(), AllocError> {
    let length = 1 + random.below(32);
    let worker = Worker::any(heap, random, length)?;
    let another = Worker::any(heap, random, length)?;
    let compared = compare(heap, random, length, &worker, another.words.as_slice())?;
    controls.note(compared.found.as_slice());
    Ok(())
}
