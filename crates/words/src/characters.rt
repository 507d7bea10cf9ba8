// Characters of six bits.
ghost use Rattle.std.specs.Prelude.{◌≡◌};
ghost use Rattle.words.specs.Characters.{packed};

use super::Word;

// The lowest characters of five words side by side, the first word's on top.
#[tactic(auto, unfolding(crate::specs::Characters::packed))]
pub fn packed(words: [Word; 5]) -> Word
    ensures { result ≡ packed words }
{
    let [first, second, third, fourth, fifth] = words.map(|word| word.get() % 64);
    Word::new((first << 24) + (second << 18) + (third << 12) + (fourth << 6) + fifth)
}
