// Why a register record was not written or not read.

// The buffer has fewer than 29 bytes.
#[derive(Clone, Copy, Debug, PartialEq, Eq)]
pub struct BufferTooShort;

// There are fewer than 29 bytes; the length field is not 27; the version is not 1; or a field is too wide for its register, the first such
// field at this offset.
#[derive(Clone, Copy, Debug, PartialEq, Eq)]
pub enum RecordFault {
    TooShort,
    WrongLength,
    WrongVersion,
    TooWide(u32),
}
