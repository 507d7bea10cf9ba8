// Register records, good ones and bad ones, and buffers for them.
ghost use Rattle.std.specs.Prelude.{◌<◌};

use super::random::Random;
use records::Registers;
use std::alloc::{AllocError, Global};
use words::word_bits;

// What is done to a good record.
#[derive(Clone, Copy, Debug, PartialEq, Eq)]
enum Damage {
    Cut,
    Length,
    Version,
    WideField,
    Any,
}

const DAMAGES: [Damage; 5] = [
    Damage::Cut,
    Damage::Length,
    Damage::Version,
    Damage::WideField,
    Damage::Any,
];

// Where the fields of a record begin.
const FIELDS: [usize; 10] = [3, 7, 11, 13, 15, 17, 19, 21, 23, 25];

// So many bytes.
pub(crate) fn any_bytes(
    heap: Global,
    random: &mut Random,
    number: u32,
) -> Result<Vec<u8>, AllocError> {
    let mut bytes = Vec::new(heap);
    for _ in 0..number {
        bytes.push(random.byte())?;
    }
    Ok(bytes)
}

// Registers with small numbers in B1 to B7, so that sums with them stay near a worker's words.
fn any_registers(random: &mut Random, length: u32) -> Registers
    requires { 0 < length }
{
    let mut registers = Registers::starting_at(random.below(length));
    registers.set_a(word_bits(random.number()));
    registers.set_q(word_bits(random.number()));
    for j in 1..8 {
        registers.set_b(j, random.below(length));
    }
    registers
}

// Sets a byte, if there is one.
fn set_byte(bytes: &mut Vec<u8>, index: usize, byte: u8) {
    if let Some(place) = bytes.get_mut(index) {
        *place = byte;
    }
}

impl Damage {
    fn apply(self, random: &mut Random, bytes: &mut Vec<u8>) {
        match self {
            Damage::Cut => bytes.truncate(random.below(29) as usize),
            Damage::Length => set_byte(bytes, 1, random.byte()),
            Damage::Version => set_byte(bytes, 2, random.byte()),
            Damage::WideField => set_byte(bytes, random.one_of(&FIELDS), 0xff),
            Damage::Any => set_byte(bytes, random.below(29) as usize, random.byte()),
        }
    }
}

// The bytes of a record, once in three times damaged, with some bytes after it.
pub(crate) fn any_record(
    heap: Global,
    random: &mut Random,
    length: u32,
) -> Result<Vec<u8>, AllocError>
    requires { 0 < length }
{
    let after = random.below(3);
    let mut bytes = any_bytes(heap, random, 29 + after)?;
    let _ = any_registers(random, length).write(bytes.as_mut_slice());
    if random.once_in(3) {
        random.one_of(&DAMAGES).apply(random, &mut bytes);
    }
    Ok(bytes)
}
