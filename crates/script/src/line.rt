// The words of a line: what stands between spaces, before any `#`.
ghost use Rattle.std.specs.Prelude.{◌≡◌, ◌<◌, ◌≤◌, ◌||◌, ◌++◌, length, take, drop, IfOk, ◌==◌, ◌≢◌, slice_index};
ghost use Rattle.std.specs.List.{AllByRecursion};
ghost use Rattle.script.specs.Line.{begun, words_of, texts, Word};

use std::alloc::{AllocError, Global};

// A space or a `#` ends a word.
fn ends_word(byte: u8) -> bool
    ensures { result ≡ (byte == 32 || byte == 35) }
{
    matches!(byte, b' ' | b'#')
}

// How many bytes at the front are those of a word.
fn word_len(line: &[u8]) -> usize
    ensures within { result ≤ length line.now }
    ensures word { words_of line.now ≡ begun (take result line.now) ++ words_of (drop result line.now) }
    ensures some { 0 < length line.now → (slice_index line.now 0 ≢ 32) → (slice_index line.now 0 ≢ 35) → 0 < result }
{
    for (i, byte) in line.iter().enumerate() {
        if ends_word(*byte) {
            return i;
        }
    }
    line.len()
}

// The words, as parts of the line. By a loop over words, and one over the bytes of each: to find the `#` first, then split at each space and pass over empty parts, took twice as long where there are many spaces.
pub fn split_words(heap: Global, line: &[u8]) -> Result<Vec<&[u8]>, AllocError>
    ensures words { IfOk result (λ v. texts v.items ≡ words_of line.now) }
    ensures plain { IfOk result (λ v. AllByRecursion Word (texts v.items)) }
{
    let mut words = Vec::new(heap);
    let mut rest = line;
    while let [first, after @ ..] = rest {
        match *first {
            b'#' => break,
            b' ' => rest = after,
            _ => {
                let (word, after) = rest.split_at(word_len(rest));
                words.push(word)?;
                rest = after;
            }
        }
    }
    Ok(words)
}
