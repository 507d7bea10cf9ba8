// 30-bit words, their 15-bit halves, and what is computed on them. `word_bits` and `half_bits` answer for every number, of which they
// take the bits that count; everything else takes words and halves by their types, which hold so many bits and no more.
#![tactic(auto)]

mod bits;
mod characters;
mod double;
mod extension;
mod halves;
mod logic;
mod numbers;
mod octal;
mod order;
mod scale;
mod shifts;
mod sums;

pub use bits::Bits;
pub use characters::packed;
pub use double::DoubleWord;
pub use halves::{half_bits, join, word_bits};
pub use scale::Scaled;

pub type Word = Bits<30>;

pub type HalfWord = Bits<15>;
