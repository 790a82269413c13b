// Calls and their bytes. Of each: the length of the shortest front that is a call, and whether the call has an end, so that
// no byte may follow it.
use crate::rows::Row;
use calls::Call;

pub(crate) static CALLS: [Row<Call<'static>>; 17] = [
    Row {
        value: Call::Find(7, b"ab"),
        bytes: b"\x00\x07\x00\x00\x00\x00\x00\x00\x00\x61\x62",
        whole_from: 9,
        ends: false,
    },
    Row {
        value: Call::Find(0, b""),
        bytes: b"\x00\x00\x00\x00\x00\x00\x00\x00\x00",
        whole_from: 9,
        ends: false,
    },
    Row {
        value: Call::MakeFile(0x0102030405060708, b"a"),
        bytes: b"\x01\x08\x07\x06\x05\x04\x03\x02\x01\x61",
        whole_from: 9,
        ends: false,
    },
    Row {
        value: Call::MakeDir(255, b"\xc3\xa9"),
        bytes: b"\x02\xff\x00\x00\x00\x00\x00\x00\x00\xc3\xa9",
        whole_from: 9,
        ends: false,
    },
    Row {
        value: Call::Remove(256, b"x"),
        bytes: b"\x03\x00\x01\x00\x00\x00\x00\x00\x00\x78",
        whole_from: 9,
        ends: false,
    },
    Row {
        value: Call::Rename(1, b"a", 2, b"bc"),
        bytes: b"\x04\x01\x00\x00\x00\x00\x00\x00\x00\x02\x00\x00\x00\x00\x00\x00\x00\x01\x61\x62\x63",
        whole_from: 19,
        ends: false,
    },
    Row {
        value: Call::Rename(0, b"", 256, b""),
        bytes: b"\x04\x00\x00\x00\x00\x00\x00\x00\x00\x00\x01\x00\x00\x00\x00\x00\x00\x00",
        whole_from: 18,
        ends: false,
    },
    Row {
        value: Call::List(9, 3),
        bytes: b"\x05\x09\x00\x00\x00\x00\x00\x00\x00\x03\x00\x00\x00\x00\x00\x00\x00",
        whole_from: 17,
        ends: true,
    },
    Row {
        value: Call::Size(10),
        bytes: b"\x06\x0a\x00\x00\x00\x00\x00\x00\x00",
        whole_from: 9,
        ends: true,
    },
    Row {
        value: Call::Read(11, 65535),
        bytes: b"\x07\x0b\x00\x00\x00\x00\x00\x00\x00\xff\xff\x00\x00\x00\x00\x00\x00",
        whole_from: 17,
        ends: true,
    },
    Row {
        value: Call::Write(12, 1, b"\xde\xad\xbe\xef"),
        bytes: b"\x08\x0c\x00\x00\x00\x00\x00\x00\x00\x01\x00\x00\x00\x00\x00\x00\x00\xde\xad\xbe\xef",
        whole_from: 17,
        ends: false,
    },
    Row {
        value: Call::Write(0, 0, b""),
        bytes: b"\x08\x00\x00\x00\x00\x00\x00\x00\x00\x00\x00\x00\x00\x00\x00\x00\x00",
        whole_from: 17,
        ends: false,
    },
    Row {
        value: Call::Resize(13, 65536),
        bytes: b"\x09\x0d\x00\x00\x00\x00\x00\x00\x00\x00\x00\x01\x00\x00\x00\x00\x00",
        whole_from: 17,
        ends: true,
    },
    Row {
        value: Call::SyncFile(14),
        bytes: b"\x0a\x0e\x00\x00\x00\x00\x00\x00\x00",
        whole_from: 9,
        ends: true,
    },
    Row {
        value: Call::SyncFile(0xffffffffffffffff),
        bytes: b"\x0a\xff\xff\xff\xff\xff\xff\xff\xff",
        whole_from: 9,
        ends: true,
    },
    Row {
        value: Call::SyncFile(0x8000000000000000),
        bytes: b"\x0a\x00\x00\x00\x00\x00\x00\x00\x80",
        whole_from: 9,
        ends: true,
    },
    Row {
        value: Call::SyncTree,
        bytes: b"\x0b",
        whole_from: 1,
        ends: true,
    },
];

// Lengths of a first name, and their digits in base 128.
pub(crate) struct Length {
    pub name: usize,
    pub digits: &'static [u8],
}

// 300 is 2 * 128 + 44, and 44 + 128 is 0xac
pub(crate) static LENGTHS: [Length; 7] = [
    Length {
        name: 0,
        digits: b"\x00",
    },
    Length {
        name: 1,
        digits: b"\x01",
    },
    Length {
        name: 127,
        digits: b"\x7f",
    },
    Length {
        name: 128,
        digits: b"\x80\x01",
    },
    Length {
        name: 129,
        digits: b"\x81\x01",
    },
    Length {
        name: 256,
        digits: b"\x80\x02",
    },
    Length {
        name: 300,
        digits: b"\xac\x02",
    },
];

// What stands before the digits in the tests of lengths: a rename from directory 1 to directory 2.
pub(crate) const RENAME: [u8; 17] = [
    0x04, 0x01, 0x00, 0x00, 0x00, 0x00, 0x00, 0x00, 0x00, 0x02, 0x00, 0x00, 0x00, 0x00, 0x00, 0x00,
    0x00,
];
