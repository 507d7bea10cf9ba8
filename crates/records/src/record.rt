// The register record.
ghost use Rattle.std.specs.Prelude.{◌≡◌, ◌^◌, ◌<◌, ◌≤◌, ◌+◌, length, map, nat_lt, take, is_ok, if◌then◌else◌, IfOk, OnOk};
ghost use Rattle.records.specs.Record.{b_fields, fields_read, first_wide, read_if, record_of, record_read, too_wide, two_at, four_at, write_answer, written};
ghost use Rattle.records.specs.Registers.{Fits};

use crate::fault::{BufferTooShort, RecordFault};
use crate::registers::Registers;
use words::word_bits;

const SIZE: usize = 29;

const LENGTH: u16 = 27;

const VERSION: u8 = 1;

// The number, if it has no more than so many bits.
fn within(number: u32, bits: u32, at: u32) -> Result<u32, RecordFault>
    requires { bits < 32 }
    ensures { result ≡ (if nat_lt number (2 ^ bits) then Ok number else Err (RecordFault.TooWide at)) }
{
    if number < 1 << bits {
        Ok(number)
    } else {
        Err(RecordFault::TooWide(at))
    }
}

// The field of two bytes at an offset.
fn two_bytes(bytes: &[u8], at: usize) -> Result<u32, RecordFault>
    requires within { at + 2 ≤ length bytes.now }
    requires small { at < 2 ^ 32 }
    ensures { result ≡ (if nat_lt (two_at bytes.now at) (2 ^ 15) then Ok (two_at bytes.now at) else Err (RecordFault.TooWide at)) }
{
    let number = u16::from_be_bytes([bytes[at], bytes[at + 1]]);
    within(number.into(), 15, at as u32)
}

// The field of four bytes at an offset.
fn four_bytes(bytes: &[u8], at: usize, bits: u32) -> Result<u32, RecordFault>
    requires bits { bits < 32 }
    requires within { at + 4 ≤ length bytes.now }
    requires small { at < 2 ^ 32 }
    ensures { result ≡ (if nat_lt (four_at bytes.now at) (2 ^ bits) then Ok (four_at bytes.now at) else Err (RecordFault.TooWide at)) }
{
    let number = u32::from_be_bytes([bytes[at], bytes[at + 1], bytes[at + 2], bytes[at + 3]]);
    within(number, bits, at as u32)
}

// The fields of B1 to B7.
fn index_fields(bytes: &[u8]) -> Result<[u32; 7], RecordFault>
    requires { 29 ≤ length bytes.now }
    ensures { result ≡ read_if (first_wide 15 (two_at bytes.now) b_fields) (map (two_at bytes.now) b_fields) }
{
    Ok([
        two_bytes(bytes, 11)?,
        two_bytes(bytes, 13)?,
        two_bytes(bytes, 15)?,
        two_bytes(bytes, 17)?,
        two_bytes(bytes, 19)?,
        two_bytes(bytes, 21)?,
        two_bytes(bytes, 23)?,
    ])
}

impl Registers {
    // The bytes of the record.
    #[tactic(auto, unfolding(crate::specs::Record::record_of))]
    fn record(&self) -> [u8; SIZE]
        ensures value { result ≡ record_of self.now }
        ensures size { length result ≡ 29 }
        ensures fits { Fits self.now }
    {
        let [b1, b2, b3, b4, b5, b6, b7] = self.b;
        let mut bytes = [0; SIZE];
        bytes[..2].copy_from_slice(&LENGTH.to_be_bytes());
        bytes[2] = VERSION;
        bytes[3..7].copy_from_slice(&self.a.get().to_be_bytes());
        bytes[7..11].copy_from_slice(&self.q.get().to_be_bytes());
        bytes[11..13].copy_from_slice(&(b1 as u16).to_be_bytes());
        bytes[13..15].copy_from_slice(&(b2 as u16).to_be_bytes());
        bytes[15..17].copy_from_slice(&(b3 as u16).to_be_bytes());
        bytes[17..19].copy_from_slice(&(b4 as u16).to_be_bytes());
        bytes[19..21].copy_from_slice(&(b5 as u16).to_be_bytes());
        bytes[21..23].copy_from_slice(&(b6 as u16).to_be_bytes());
        bytes[23..25].copy_from_slice(&(b7 as u16).to_be_bytes());
        bytes[25..].copy_from_slice(&self.p.to_be_bytes());
        bytes
    }

    // Writes the record at the start of a buffer; what is after it stays.
    #[tactic(auto, using(crate::proofs::Read::reads_again))]
    pub fn write(&self, buffer: &mut [u8]) -> Result<(), BufferTooShort>
        ensures answer { result ≡ write_answer buffer.old }
        ensures buffer { buffer.new ≡ (if is_ok result then written self.now buffer.old else buffer.old) }
        ensures front { OnOk result (take 29 buffer.new ≡ record_of self.now) }
        ensures reads_again { OnOk result (record_read buffer.new ≡ Ok self.now) }
    {
        if buffer.len() < SIZE {
            return Err(BufferTooShort);
        }
        buffer[..SIZE].copy_from_slice(&self.record());
        Ok(())
    }

    // The registers of a record that is long enough, or the first number that is too wide.
    #[tactic(auto, unfolding(crate::specs::Record::registers_in, crate::specs::Record::too_wide))]
    fn fields(bytes: &[u8]) -> Result<Registers, RecordFault>
        requires { 29 ≤ length bytes.now }
        ensures { result ≡ fields_read bytes.now (too_wide bytes.now) }
    {
        let a = four_bytes(bytes, 3, 30)?;
        let q = four_bytes(bytes, 7, 30)?;
        let b = index_fields(bytes)?;
        let p = four_bytes(bytes, 25, 17)?;
        Ok(Registers {
            a: word_bits(a),
            q: word_bits(q),
            b,
            p,
        })
    }

    // What `read` does, apart from it for the proof of its law.
    #[tactic(auto, unfolding(crate::specs::Record::record_read))]
    fn in_record(bytes: &[u8]) -> Result<Registers, RecordFault>
        ensures { result ≡ record_read bytes.now }
    {
        if bytes.len() < SIZE {
            return Err(RecordFault::TooShort);
        }
        if u16::from_be_bytes([bytes[0], bytes[1]]) != LENGTH {
            return Err(RecordFault::WrongLength);
        }
        if bytes[2] != VERSION {
            return Err(RecordFault::WrongVersion);
        }
        Self::fields(bytes)
    }

    // Reads the record at the start of these bytes; those after it do not matter.
    pub fn read(bytes: &[u8]) -> Result<Registers, RecordFault>
        ensures value { result ≡ record_read bytes.now }
        ensures writes_again { IfOk result (λ r. record_of r ≡ take 29 bytes.now) }
    {
        Self::in_record(bytes)
    }
}
