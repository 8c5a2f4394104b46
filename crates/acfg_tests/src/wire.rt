//! Vectors of the Protocol Buffers encoding guide, refusals with their places, and every cut of a
//! small message.

use acfg_wire::*;
use std::test::Fail;

/// Messages with their fields. The first three stand in the encoding guide.
const MESSAGES: [(&[u8], &[Field<'static>]); 7] = [
    (
        &[0x08, 0x96, 0x01],
        &[Field {
            number: 1,
            place: 0,
            value: FieldValue::Varint(150),
        }],
    ),
    (
        &[0x12, 0x07, 0x74, 0x65, 0x73, 0x74, 0x69, 0x6e, 0x67],
        &[Field {
            number: 2,
            place: 0,
            value: FieldValue::Bytes(b"testing"),
        }],
    ),
    (
        &[0x32, 0x06, 0x03, 0x8e, 0x02, 0x9e, 0xa7, 0x05],
        &[Field {
            number: 6,
            place: 0,
            value: FieldValue::Bytes(&[3, 0x8e, 2, 0x9e, 0xa7, 5]),
        }],
    ),
    (&[], &[]),
    // Spellings that are longer than need be: the key 8 in three bytes, and 0 in ten.
    (
        &[
            0x88, 0x80, 0x00, 0x80, 0x80, 0x80, 0x80, 0x80, 0x80, 0x80, 0x80, 0x80, 0x00,
        ],
        &[Field {
            number: 1,
            place: 0,
            value: FieldValue::Varint(0),
        }],
    ),
    // The greatest number of 64 bits.
    (
        &[
            0x08, 0xff, 0xff, 0xff, 0xff, 0xff, 0xff, 0xff, 0xff, 0xff, 0x01,
        ],
        &[Field {
            number: 1,
            place: 0,
            value: FieldValue::Varint(u64::MAX),
        }],
    ),
    // A field number that no field may be written with, then the types of eight and four bytes.
    (
        &[
            0x80, 0x80, 0x80, 0x80, 0x10, 0x05, 0x09, 1, 2, 3, 4, 5, 6, 7, 8, 0x15, 9, 10, 11, 12,
        ],
        &[
            Field {
                number: 536_870_912,
                place: 0,
                value: FieldValue::Varint(5),
            },
            Field {
                number: 1,
                place: 6,
                value: FieldValue::Eight(&[1, 2, 3, 4, 5, 6, 7, 8]),
            },
            Field {
                number: 2,
                place: 15,
                value: FieldValue::Four(&[9, 10, 11, 12]),
            },
        ],
    ),
];

#[test]
fn messages_are_read(rt: HostRuntime) -> Result<(), Fail> {
    for (bytes, fields) in MESSAGES {
        assert_eq!(rt; read_fields(rt.alloc(), bytes)?.as_slice(), fields);
    }
    Ok(())
}

/// Bytes that are no fields, each with its first fault.
const REFUSED: [(&[u8], WireFault); 20] = [
    (&[0x80], WireFault::Truncated(0)),
    (&[0x08], WireFault::Truncated(0)),
    (&[0x08, 0x01, 0x08, 0x96], WireFault::Truncated(2)),
    (
        &[0x08, 0xff, 0xff, 0xff, 0xff, 0xff, 0xff, 0xff, 0xff, 0xff],
        WireFault::Truncated(0),
    ),
    (&[0x0a, 0x80], WireFault::Truncated(0)),
    (&[0x0a, 0x02, 0x00], WireFault::Truncated(0)),
    // The greatest length.
    (
        &[
            0x0a, 0xff, 0xff, 0xff, 0xff, 0xff, 0xff, 0xff, 0xff, 0xff, 0x01, 0x00,
        ],
        WireFault::Truncated(0),
    ),
    (
        &[0x08, 0x01, 0x09, 1, 2, 3, 4, 5, 6, 7],
        WireFault::Truncated(2),
    ),
    (&[0x08, 0x01, 0x0d, 1, 2, 3], WireFault::Truncated(2)),
    // A tenth byte of 2, also where nothing is behind it.
    (
        &[
            0x08, 0xff, 0xff, 0xff, 0xff, 0xff, 0xff, 0xff, 0xff, 0xff, 0x02,
        ],
        WireFault::LongVarint(0),
    ),
    // Eleven bytes.
    (
        &[
            0x08, 0x80, 0x80, 0x80, 0x80, 0x80, 0x80, 0x80, 0x80, 0x80, 0x80, 0x00,
        ],
        WireFault::LongVarint(0),
    ),
    // A key, and a length.
    (
        &[
            0x08, 0x01, 0x88, 0x80, 0x80, 0x80, 0x80, 0x80, 0x80, 0x80, 0x80, 0x02, 0x00,
        ],
        WireFault::LongVarint(2),
    ),
    (
        &[
            0x0a, 0x80, 0x80, 0x80, 0x80, 0x80, 0x80, 0x80, 0x80, 0x80, 0x02, 0x00,
        ],
        WireFault::LongVarint(0),
    ),
    // The types of groups, and those of nothing.
    (&[0x08, 0x01, 0x0b, 0x0c], WireFault::BadType(2)),
    (&[0x0c], WireFault::BadType(0)),
    (&[0x0e], WireFault::BadType(0)),
    (&[0x0f], WireFault::BadType(0)),
    // The number 0, whether or not a value is behind it.
    (&[0x00, 0x01], WireFault::BadType(0)),
    (&[0x02], WireFault::BadType(0)),
    // The first of two faults.
    (&[0x0b, 0x80], WireFault::BadType(0)),
];

#[test]
fn faults_are_told(rt: HostRuntime) {
    for (bytes, fault) in REFUSED {
        assert_eq!(rt; read_fields(rt.alloc(), bytes), Err(fault), "{bytes:?}");
    }
}

/// A field of each type, and the places where a field begins or the message ends.
const MESSAGE: [u8; 22] = [
    0x08, 0x96, 0x01, 0x09, 1, 2, 3, 4, 5, 6, 7, 8, 0x1a, 0x03, 0x08, 0x96, 0x01, 0x15, 1, 2, 3, 4,
];

const BOUNDARIES: [usize; 5] = [0, 3, 12, 17, 22];

#[test]
fn a_cut_field_is_truncated(rt: HostRuntime) {
    for len in 0..=MESSAGE.len() {
        let whole = BOUNDARIES.iter().filter(|place| **place <= len).count();
        assert!(rt; 0 < whole && whole <= BOUNDARIES.len());
        let begin = BOUNDARIES[whole - 1];
        match read_fields(rt.alloc(), &MESSAGE[..len]) {
            Ok(fields) => {
                assert_eq!(rt; begin, len);
                assert_eq!(rt; fields.len() + 1, whole);
            }
            Err(fault) => {
                assert_ne!(rt; begin, len);
                assert_eq!(rt; fault, WireFault::Truncated(begin));
            }
        }
    }
}

#[test]
fn fields_are_put(rt: HostRuntime) -> Result<(), Fail> {
    let mut out = Vec::new(rt.alloc());
    put_varint(rt.alloc(), &mut out, 1, 150)?;
    put_bytes(rt.alloc(), &mut out, 2, b"testing")?;
    put_varint(rt.alloc(), &mut out, MAX_FIELD_NUMBER, 127)?;
    put_bytes(rt.alloc(), &mut out, 3, &[])?;
    let bytes = [
        0x08, 0x96, 0x01, 0x12, 0x07, 0x74, 0x65, 0x73, 0x74, 0x69, 0x6e, 0x67, 0xf8, 0xff, 0xff,
        0xff, 0x0f, 0x7f, 0x1a, 0x00,
    ];
    assert_eq!(rt; out.as_slice(), bytes.as_slice());
    Ok(())
}

#[test]
fn a_thousand_fields_are_read_in_their_order(rt: HostRuntime) -> Result<(), Fail> {
    let mut out = Vec::new(rt.alloc());
    for number in 1..=1000 {
        put_varint(rt.alloc(), &mut out, number, number)?;
    }
    let fields = read_fields(rt.alloc(), &out)?;
    assert_eq!(rt; fields.len(), 1000);
    for (number, field) in (1..=1000).zip(fields.iter()) {
        assert_eq!(rt; field.number, number);
        assert_eq!(rt; field.value, FieldValue::Varint(number));
    }
    Ok(())
}
