// Records: a key, which is the field's number times 8 plus the wire type, and a payload.
use pb_wire::{Fields, Payload};

// One record of each wire type, of the fields 1 to 4.
const EACH: [u8; 22] = [
    0x08, 0x96, 0x01, // 1 * 8 + 0: the varint 150
    0x11, 0x01, 0x02, 0x03, 0x04, 0x05, 0x06, 0x07, 0x08, // 2 * 8 + 1: eight bytes
    0x1A, 0x03, 0x61, 0x62, 0x63, // 3 * 8 + 2: three bytes
    0x25, 0x01, 0x02, 0x03, 0x04, // 4 * 8 + 5: four bytes
];

fn is_payload(found: Payload<'_>, want: Payload<'_>) -> bool {
    match (found, want) {
        (Payload::Varint(found), Payload::Varint(want)) => found == want,
        (Payload::Eight(found), Payload::Eight(want)) => found == want,
        (Payload::Bytes(found), Payload::Bytes(want)) => found == want,
        (Payload::Four(found), Payload::Four(want)) => found == want,
        _ => false,
    }
}

// Whether the next record stands at this place, and is of this field and holds this.
fn reads(fields: &mut Fields<'_>, place: usize, number: u32, want: Payload<'_>) -> bool {
    if fields.place() != place {
        return false;
    }
    match fields.next() {
        Some(Ok(record)) => record.place == place
            && record.number == number
            && is_payload(record.payload, want),
        _ => false,
    }
}

// Whether nothing is left behind this place.
fn ends(fields: &mut Fields<'_>, place: usize) -> bool {
    fields.next().is_none() && fields.place() == place
}

// Whether no record stands at this place, though something does.
fn is_refused(fields: &mut Fields<'_>, place: usize) -> bool {
    match fields.next() {
        Some(Err(found)) => found == place && fields.place() == place,
        _ => false,
    }
}

// Which of these doesn't hold, if one doesn't.
fn first_false(seen: &[bool]) -> Option<usize> {
    seen.iter().position(|holds| !*holds)
}

#[test]
fn one_record_of_each_wire_type(rt: HostRuntime) {
    let mut fields = Fields::new(&EACH);
    let mut none = Fields::new(&[]);
    let seen = [
        reads(&mut fields, 0, 1, Payload::Varint(150)),
        reads(&mut fields, 3, 2, Payload::Eight(0x0807_0605_0403_0201)),
        reads(&mut fields, 12, 3, Payload::Bytes(b"abc")),
        reads(&mut fields, 17, 4, Payload::Four(0x0403_0201)),
        ends(&mut fields, 22),
        ends(&mut fields, 22),
        ends(&mut none, 0),
    ];
    assert_eq!(rt; first_false(&seen), None);
}

// The largest field number, 2^29 - 1, whose key 2^32 - 8 takes five bytes; then no bytes; then the field once more.
#[test]
fn largest_number_and_no_bytes(rt: HostRuntime) {
    let bytes = [
        0xF8, 0xFF, 0xFF, 0xFF, 0x0F, 0x00, 0x0A, 0x00, 0xF8, 0xFF, 0xFF, 0xFF, 0x0F, 0x07,
    ];
    let mut fields = Fields::new(&bytes);
    let seen = [
        reads(&mut fields, 0, 536_870_911, Payload::Varint(0)),
        reads(&mut fields, 6, 1, Payload::Bytes(b"")),
        reads(&mut fields, 8, 536_870_911, Payload::Varint(7)),
        ends(&mut fields, 14),
    ];
    assert_eq!(rt; first_false(&seen), None);
}

#[test]
fn no_record_stands(rt: HostRuntime) {
    let messages: [&[u8]; 15] = [
        // The start and the end of a group, and wire types that there are none of.
        &[0x0B],
        &[0x0C],
        &[0x0E, 0x00],
        &[0x0F, 0x00],
        // Field number 0, in each wire type.
        &[0x00, 0x01],
        &[0x01, 0x01, 0x02, 0x03, 0x04, 0x05, 0x06, 0x07, 0x08],
        &[0x02, 0x00],
        &[0x05, 0x01, 0x02, 0x03, 0x04],
        // The key 2^32 + 8, which is past the largest field number.
        &[0x88, 0x80, 0x80, 0x80, 0x10, 0x01],
        // Less is left than the payload needs.
        &[0x08],
        &[0x08, 0x80],
        &[0x09, 0x01, 0x02, 0x03, 0x04, 0x05, 0x06, 0x07],
        &[0x0D, 0x01, 0x02, 0x03],
        &[0x0A, 0x03, 0x61, 0x62],
        &[
            0x0A, 0xFF, 0xFF, 0xFF, 0xFF, 0xFF, 0xFF, 0xFF, 0xFF, 0xFF, 0x01,
        ],
    ];
    for bytes in messages {
        let mut fields = Fields::new(bytes);
        assert!(rt; is_refused(&mut fields, 0));
    }
    // It stays where no record stands.
    let mut fields = Fields::new(&[0x0A, 0x01, 0x61, 0x10, 0x05, 0x0B, 0x08, 0x01]);
    let seen = [
        reads(&mut fields, 0, 1, Payload::Bytes(b"a")),
        reads(&mut fields, 3, 2, Payload::Varint(5)),
        is_refused(&mut fields, 5),
        is_refused(&mut fields, 5),
    ];
    assert_eq!(rt; first_false(&seen), None);
}
