// Words of programs that run: instructions of the machine's list, with a fitting k and an address that mostly is one of the worker's.
ghost use Rattle.std.specs.Prelude.{◌<◌, ◌≤◌};

use super::random::Random;

// The codes that allow every k.
const OF_EVERY_K: [u32; 20] = [
    0o01, 0o02, 0o03, 0o05, 0o06, 0o07, 0o10, 0o11, 0o12, 0o14, 0o15, 0o16, 0o20, 0o21, 0o40, 0o41,
    0o42, 0o43, 0o51, 0o71,
];

// The jumps, and the k by which they mostly reach one of the worker's words.
const JUMPS: [u32; 4] = [0o60, 0o60, 0o64, 0o72];

const NEAR: [u32; 4] = [0, 0, 4, 3];

// Those that do not allow a k of 7.
const BELOW_K_7: [u32; 4] = [0o47, 0o50, 0o52, 0o53];

// The replace instructions, and what they allow.
const REPLACING: [u32; 11] = [
    0o24, 0o25, 0o36, 0o37, 0o44, 0o45, 0o46, 0o54, 0o55, 0o56, 0o57,
];

const REPLACED: [u32; 5] = [1, 2, 3, 5, 6];

// The codes under 77.
const UNDER_77: [u32; 13] = [
    0o21, 0o23, 0o25, 0o27, 0o30, 0o31, 0o51, 0o52, 0o53, 0o54, 0o55, 0o56, 0o57,
];

// The address of an instruction: mostly one of so many words, at times one that is past them.
fn address(random: &mut Random, length: u32) -> u32
    requires some { 0 < length }
    requires few { length ≤ 32768 }
    ensures { result < 32771 }
{
    match random.below(60) {
        0 => random.below(1 << 15),
        1 => length + random.below(3),
        _ => random.below(length),
    }
}

// The code with its k, where one has another, in the places of f and k.
fn code(random: &mut Random) -> (u32, u32) {
    match random.below(8) {
        0..=2 => (random.one_of(&OF_EVERY_K), random.below(8)),
        3 => (random.one_of(&JUMPS), random.one_of(&NEAR)),
        4 => (random.one_of(&BELOW_K_7), random.below(7)),
        _ => (random.one_of(&REPLACING), random.one_of(&REPLACED)),
    }
}

// An instruction that refers by its address to one of so many words.
fn instruction(random: &mut Random, length: u32) -> u32
    requires some { 0 < length }
    requires few { length ≤ 32768 }
{
    let y = address(random, length) % (1 << 15);
    let b = if random.once_in(8) {
        random.below(8)
    } else {
        0
    };
    let low = b << 15 | y;
    if random.once_in(5) {
        return 0o77 << 24 | random.one_of(&UNDER_77) << 18 | low;
    }
    let (f, k) = code(random);
    let j = if random.once_in(2) {
        random.below(8)
    } else {
        0
    };
    f << 24 | j << 21 | k << 18 | low
}

// A word of a program of so many words: mostly an instruction, at times any word.
pub(crate) fn program_word(random: &mut Random, length: u32) -> u32
    requires some { 0 < length }
    requires few { length ≤ 32768 }
{
    let word = if random.once_in(30) {
        random.number()
    } else {
        instruction(random, length)
    };
    word % (1 << 30)
}

// A jump to one of so many words, at times with a condition.
pub(crate) fn jump_back(random: &mut Random, length: u32) -> u32
    requires some { 0 < length }
    requires few { length ≤ 32768 }
{
    let j = if random.once_in(4) {
        random.below(8)
    } else {
        1
    };
    0o60 << 24 | j << 21 | random.below(length)
}
