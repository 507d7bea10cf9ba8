// Why a call was not taken.
ghost use Rattle.std.specs.Prelude.{◌≡◌};
ghost use Rattle.engine.specs.Refusals.{number_of};

use processor::ReferenceFault;
use records::{BufferTooShort, RecordFault};
use store::{Fault, Half};

// The refusals, numbered from 1 in this order. A refused call leaves everything as it was.
#[derive(Clone, Copy, Debug, PartialEq, Eq)]
pub enum Refusal {
    // The place is above 7.
    NoSuchPlace,
    // The place has a worker already.
    PlaceOccupied,
    // The place has no worker.
    PlaceFree,
    // The length is 0 or above 32,768.
    BadLength,
    // The cells would end past the end of the store.
    PastStore,
    // A cell would be another worker's too.
    CellShared,
    // The entry is not below the length.
    EntryPastLength,
    // The address is not below the length.
    AddressPastLength,
    // The word, A, Q or P has more bits than it can have.
    NumberTooWide,
    // The budget is above 1,000,000.
    BudgetTooLarge,
    // The worker is held, so it cannot run.
    WorkerHeld,
    // The worker is not held, so there is nothing to answer.
    WorkerNotHeld,
    // The buffer has fewer than 29 bytes.
    ShortBuffer,
    // No cause has that number, or no store has a cell at that address.
    NoFixedAddress,
    // The register record has fewer than 29 bytes.
    ShortRecord,
    // Its length is not 27.
    RecordLength,
    // Its version is not 1.
    RecordVersion,
    // A field of it is too wide for its register: the first such field has this offset.
    FieldTooWide(u32),
    // This half of the cell is spoiled.
    Spoiled(Half),
}

impl Refusal {
    // Its number, 1 to 19.
    pub fn number(self) -> u32
        ensures { result ≡ number_of self }
    {
        match self {
            Refusal::NoSuchPlace => 1,
            Refusal::PlaceOccupied => 2,
            Refusal::PlaceFree => 3,
            Refusal::BadLength => 4,
            Refusal::PastStore => 5,
            Refusal::CellShared => 6,
            Refusal::EntryPastLength => 7,
            Refusal::AddressPastLength => 8,
            Refusal::NumberTooWide => 9,
            Refusal::BudgetTooLarge => 10,
            Refusal::WorkerHeld => 11,
            Refusal::WorkerNotHeld => 12,
            Refusal::ShortBuffer => 13,
            Refusal::NoFixedAddress => 14,
            Refusal::ShortRecord => 15,
            Refusal::RecordLength => 16,
            Refusal::RecordVersion => 17,
            Refusal::FieldTooWide(_) => 18,
            Refusal::Spoiled(_) => 19,
        }
    }
}

// A word that the store does not have is none of the worker's.
impl From<Fault> for Refusal {
    ghost use Rattle.engine.specs.Refusals.{by_fault};

    ghost from_gives = { λ fault refusal. refusal ≡ by_fault fault };

    fn from(fault: Fault) -> Self {
        match fault {
            Fault::NoCell => Refusal::AddressPastLength,
            Fault::Spoiled(half) => Refusal::Spoiled(half),
        }
    }
}

impl From<ReferenceFault> for Refusal {
    ghost use Rattle.engine.specs.Refusals.{by_reference};

    ghost from_gives = { λ fault refusal. refusal ≡ by_reference fault };

    fn from(fault: ReferenceFault) -> Self {
        match fault {
            ReferenceFault::Protection => Refusal::AddressPastLength,
            ReferenceFault::Parity(fault) => fault.into(),
        }
    }
}

impl From<BufferTooShort> for Refusal {
    ghost use Rattle.engine.specs.declared.refusal.Refusal.TheVariants.{ShortBuffer};

    ghost from_gives = { λ fault refusal. refusal ≡ ShortBuffer };

    fn from(_: BufferTooShort) -> Self {
        Refusal::ShortBuffer
    }
}

impl From<RecordFault> for Refusal {
    ghost use Rattle.engine.specs.Refusals.{by_record_fault};

    ghost from_gives = { λ fault refusal. refusal ≡ by_record_fault fault };

    fn from(fault: RecordFault) -> Self {
        match fault {
            RecordFault::TooShort => Refusal::ShortRecord,
            RecordFault::WrongLength => Refusal::RecordLength,
            RecordFault::WrongVersion => Refusal::RecordVersion,
            RecordFault::TooWide(offset) => Refusal::FieldTooWide(offset),
        }
    }
}
