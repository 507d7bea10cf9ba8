use super::{BufferTooShort, RecordFault, Registers};
use std::test::Fail;

// A = 1, Q = 2^30 - 1, B1 = 1, B2 = 2, B7 = 2^15 - 1, P = 2^16 + 5.
const RECORD: [u8; 29] = [
    0x00, 0x1b, 0x01, 0x00, 0x00, 0x00, 0x01, 0x3f, 0xff, 0xff, 0xff, 0x00, 0x01, 0x00, 0x02, 0x00,
    0x00, 0x00, 0x00, 0x00, 0x00, 0x00, 0x00, 0x7f, 0xff, 0x00, 0x01, 0x00, 0x05,
];

// The record with another byte at an offset.
fn changed(at: usize, byte: u8) -> [u8; 29] {
    let mut bytes = RECORD;
    if let Some(place) = bytes.get_mut(at) {
        *place = byte;
    }
    bytes
}

#[test]
fn a_new_worker_is_written(rt: HostRuntime) -> Result<(), Fail> {
    let mut buffer = [0xaa; 32];
    assert_eq!(rt; Registers::starting_at(5).write(&mut buffer), Ok(()));
    assert_eq!(rt;
        buffer,
        [
            0x00, 0x1b, 0x01, 0x00, 0x00, 0x00, 0x00, 0x00, 0x00, 0x00, 0x00, 0x00, 0x00, 0x00,
            0x00, 0x00, 0x00, 0x00, 0x00, 0x00, 0x00, 0x00, 0x00, 0x00, 0x00, 0x00, 0x00, 0x00,
            0x05, 0xaa, 0xaa, 0xaa
        ]
    );
    Ok(())
}

#[test]
fn what_is_read_is_written_again(rt: HostRuntime) -> Result<(), Fail> {
    let Ok(registers) = Registers::read(&RECORD) else {
        panic!(rt; "the record was refused");
    };
    let mut buffer = [0xaa; 30];
    assert_eq!(rt; registers.write(&mut buffer), Ok(()));
    assert_eq!(rt; buffer[..29], RECORD[..]);
    assert_eq!(rt; buffer[29], 0xaa);
    Ok(())
}

#[test]
fn the_first_wide_field_is_told(rt: HostRuntime) -> Result<(), Fail> {
    for (at, byte) in [
        (3, 0x40),
        (7, 0x40),
        (11, 0x80),
        (13, 0x80),
        (15, 0x80),
        (17, 0x80),
        (19, 0x80),
        (21, 0x80),
        (23, 0x80),
    ] {
        let bytes = changed(at, byte);
        assert_eq!(rt;
            Registers::read(&bytes),
            Err(RecordFault::TooWide(at as u32))
        );
    }
    let mut bytes = changed(26, 0x02);
    assert_eq!(rt; Registers::read(&bytes), Err(RecordFault::TooWide(25)));
    bytes[13] = 0x80;
    assert_eq!(rt; Registers::read(&bytes), Err(RecordFault::TooWide(13)));
    assert_eq!(rt; Registers::read(&[0xff; 29]), Err(RecordFault::WrongLength));
    Ok(())
}

#[test]
fn short_ones_are_refused(rt: HostRuntime) -> Result<(), Fail> {
    let mut buffer = [0xaa; 28];
    assert_eq!(rt;
        Registers::starting_at(5).write(&mut buffer),
        Err(BufferTooShort)
    );
    assert_eq!(rt; buffer, [0xaa; 28]);
    assert_eq!(rt; Registers::read(&RECORD[..28]), Err(RecordFault::TooShort));
    assert_eq!(rt; Registers::read(&[]), Err(RecordFault::TooShort));
    Ok(())
}

#[test]
fn other_lengths_and_versions_are_refused(rt: HostRuntime) -> Result<(), Fail> {
    assert_eq!(rt;
        Registers::read(&changed(1, 26)),
        Err(RecordFault::WrongLength)
    );
    assert_eq!(rt;
        Registers::read(&changed(0, 1)),
        Err(RecordFault::WrongLength)
    );
    assert_eq!(rt;
        Registers::read(&changed(2, 2)),
        Err(RecordFault::WrongVersion)
    );
    assert_eq!(rt;
        Registers::read(&changed(2, 0)),
        Err(RecordFault::WrongVersion)
    );
    Ok(())
}

// A = 1234567012, Q = 7777777777, B1 = 12345, B7 = 77777 (octal), P = 131,071, as docs/FORMATS.md has it.
const OTHER: [u8; 29] = [
    0x00, 0x1b, 0x01, 0x0a, 0x72, 0xee, 0x0a, 0x3f, 0xff, 0xff, 0xff, 0x14, 0xe5, 0x00, 0x00, 0x00,
    0x00, 0x00, 0x00, 0x00, 0x00, 0x00, 0x00, 0x7f, 0xff, 0x00, 0x01, 0xff, 0xff,
];

#[test]
fn the_other_record_is_read(rt: HostRuntime) -> Result<(), Fail> {
    let Ok(registers) = Registers::read(&OTHER) else {
        panic!(rt; "the record was refused");
    };
    let mut buffer = [0; 29];
    assert_eq!(rt; registers.write(&mut buffer), Ok(()));
    assert_eq!(rt; buffer, OTHER);
    let mut bytes = OTHER;
    bytes[3] = 0x4a;
    assert_eq!(rt; Registers::read(&bytes), Err(RecordFault::TooWide(3)));
    bytes = OTHER;
    bytes[23] = 0xff;
    bytes[26] = 0x02;
    assert_eq!(rt; Registers::read(&bytes), Err(RecordFault::TooWide(23)));
    Ok(())
}
