// Bytes that are no call, and the place where each ceases to be one: the length of the longest front with which some call's
// bytes begin.
pub(crate) struct Garbled {
    pub bytes: &'static [u8],
    pub place: u64,
}

pub(crate) static GARBLED: [Garbled; 12] = [
    // nothing
    Garbled {
        bytes: b"",
        place: 0,
    },
    // no call has the number 12 or more
    Garbled {
        bytes: b"\x0c",
        place: 0,
    },
    Garbled {
        bytes: b"\xff",
        place: 0,
    },
    Garbled {
        bytes: b"\x0c\x00\x00\x00\x00\x00\x00\x00\x00",
        place: 0,
    },
    Garbled {
        bytes: b"\x80\x0b",
        place: 0,
    },
    // numbers that are cut off
    Garbled {
        bytes: b"\x00",
        place: 1,
    },
    Garbled {
        bytes: b"\x01\x07\x00\x00\x00\x00\x00\x00",
        place: 8,
    },
    Garbled {
        bytes: b"\x08\x07\x00\x00\x00\x00\x00\x00\x00",
        place: 9,
    },
    // bytes after the end
    Garbled {
        bytes: b"\x0b\x00",
        place: 1,
    },
    Garbled {
        bytes: b"\x0b\x0b",
        place: 1,
    },
    Garbled {
        bytes: b"\x06\x00\x00\x00\x00\x00\x00\x00\x00\x00",
        place: 9,
    },
    Garbled {
        bytes: b"\x05\x00\x00\x00\x00\x00\x00\x00\x00\x00\x00\x00\x00\x00\x00\x00\x00\x01\x02",
        place: 17,
    },
];

// What may stand after a rename's seventeen bytes of number and directories, and the place counted from there: the place of
// the whole is 17 more.
pub(crate) static TAILS: [Garbled; 17] = [
    // no digit
    Garbled {
        bytes: b"",
        place: 0,
    },
    // digits that do not end
    Garbled {
        bytes: b"\x80",
        place: 1,
    },
    Garbled {
        bytes: b"\xff\xff",
        place: 2,
    },
    // a zero too many, at the zero: 0, 1 and 0 again, each with a last digit that says nothing
    Garbled {
        bytes: b"\x80\x00",
        place: 1,
    },
    Garbled {
        bytes: b"\x81\x00\x61",
        place: 1,
    },
    Garbled {
        bytes: b"\x80\x80\x00",
        place: 2,
    },
    Garbled {
        bytes: b"\x80\x80\x80\x80\x80\x80\x80\x80\x80\x80\x00\x61",
        place: 10,
    },
    // a name that is too short: it ends with the bytes
    Garbled {
        bytes: b"\x05",
        place: 1,
    },
    Garbled {
        bytes: b"\x02\x61",
        place: 2,
    },
    Garbled {
        bytes: b"\x80\x01\x61",
        place: 3,
    },
    Garbled {
        bytes: b"\x80\x80\x01\x61\x62",
        place: 5,
    },
    // of 2^63 bytes, of 2^64 - 1, of 2^64, and of 2^64 + 1: not one of 0 bytes or 1
    Garbled {
        bytes: b"\x80\x80\x80\x80\x80\x80\x80\x80\x80\x01",
        place: 10,
    },
    Garbled {
        bytes: b"\xff\xff\xff\xff\xff\xff\xff\xff\xff\x01\x61",
        place: 11,
    },
    Garbled {
        bytes: b"\x80\x80\x80\x80\x80\x80\x80\x80\x80\x02\x61",
        place: 11,
    },
    Garbled {
        bytes: b"\x81\x80\x80\x80\x80\x80\x80\x80\x80\x02\x61\x62",
        place: 12,
    },
    // of 2^70 - 1, and of 2^140
    Garbled {
        bytes: b"\xff\xff\xff\xff\xff\xff\xff\xff\xff\x7f",
        place: 10,
    },
    Garbled {
        bytes: b"\x80\x80\x80\x80\x80\x80\x80\x80\x80\x80\x80\x80\x80\x80\x80\x80\x80\x80\x80\x80\x01\x61",
        place: 22,
    },
];
