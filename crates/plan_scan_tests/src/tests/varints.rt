// Varints: seven bits a byte, the least first, and the top bit on all but the last.
use pb_wire::varint;

#[test]
fn values_and_lengths(rt: HostRuntime) {
    let vectors: [(&[u8], (u64, usize)); 9] = [
        (&[0x00], (0, 1)),
        (&[0x01], (1, 1)),
        (&[0x7F], (127, 1)),
        // 0 + 1 * 128
        (&[0x80, 0x01], (128, 2)),
        // 44 + 2 * 128
        (&[0xAC, 0x02], (300, 2)),
        // What stands behind the last byte is not read.
        (&[0x96, 0x01, 0xFF, 0xFF], (150, 2)),
        // A longer form than needed is the same number.
        (&[0x81, 0x80, 0x00], (1, 3)),
        // Only bit 63: the tenth byte's least bit, after nine groups of seven.
        (
            &[0x80, 0x80, 0x80, 0x80, 0x80, 0x80, 0x80, 0x80, 0x80, 0x01],
            (0x8000_0000_0000_0000, 10),
        ),
        (
            &[0xFF, 0xFF, 0xFF, 0xFF, 0xFF, 0xFF, 0xFF, 0xFF, 0xFF, 0x01],
            (u64::MAX, 10),
        ),
    ];
    for (bytes, want) in vectors {
        assert!(rt; varint(bytes) == Some(want));
    }
}

#[test]
fn no_varint(rt: HostRuntime) {
    let vectors: [&[u8]; 8] = [
        // Cut off.
        &[],
        &[0x80],
        &[0xAC, 0x82],
        &[0xFF, 0xFF, 0xFF, 0xFF, 0xFF, 0xFF, 0xFF, 0xFF, 0xFF],
        // A tenth byte that tells more than bit 63.
        &[0xFF, 0xFF, 0xFF, 0xFF, 0xFF, 0xFF, 0xFF, 0xFF, 0xFF, 0x02],
        &[0x80, 0x80, 0x80, 0x80, 0x80, 0x80, 0x80, 0x80, 0x80, 0x7F],
        // Eleven bytes, also where the last two tell nothing more.
        &[
            0xFF, 0xFF, 0xFF, 0xFF, 0xFF, 0xFF, 0xFF, 0xFF, 0xFF, 0xFF, 0x01,
        ],
        &[
            0x80, 0x80, 0x80, 0x80, 0x80, 0x80, 0x80, 0x80, 0x80, 0x80, 0x00,
        ],
    ];
    for bytes in vectors {
        assert!(rt; varint(bytes).is_none());
    }
}
