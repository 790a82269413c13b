// Answers and their bytes, with the length of the shortest front that is an answer, and whether the answer has an end; and
// bytes that are no answer.
use crate::rows::Row;
use calls::{Answer, Refusal};

pub(crate) static ANSWERS: [Row<Answer<'static>>; 18] = [
    Row {
        value: Answer::Refused(Refusal::NoCall, 18),
        bytes: b"\x00\x01\x12\x00\x00\x00\x00\x00\x00\x00",
        whole_from: 10,
        ends: true,
    },
    Row {
        value: Answer::Refused(Refusal::OutOfRange, 0),
        bytes: b"\x00\x02\x00\x00\x00\x00\x00\x00\x00\x00",
        whole_from: 10,
        ends: true,
    },
    Row {
        value: Answer::Refused(Refusal::NoDirectory, 0),
        bytes: b"\x00\x03\x00\x00\x00\x00\x00\x00\x00\x00",
        whole_from: 10,
        ends: true,
    },
    Row {
        value: Answer::Refused(Refusal::NoFile, 0),
        bytes: b"\x00\x04\x00\x00\x00\x00\x00\x00\x00\x00",
        whole_from: 10,
        ends: true,
    },
    Row {
        value: Answer::Refused(Refusal::NoEntry, 0),
        bytes: b"\x00\x05\x00\x00\x00\x00\x00\x00\x00\x00",
        whole_from: 10,
        ends: true,
    },
    Row {
        value: Answer::Refused(Refusal::NameTaken, 0),
        bytes: b"\x00\x06\x00\x00\x00\x00\x00\x00\x00\x00",
        whole_from: 10,
        ends: true,
    },
    Row {
        value: Answer::Refused(Refusal::InTheWay, 0),
        bytes: b"\x00\x07\x00\x00\x00\x00\x00\x00\x00\x00",
        whole_from: 10,
        ends: true,
    },
    Row {
        value: Answer::Refused(Refusal::NoRoom, 0),
        bytes: b"\x00\x08\x00\x00\x00\x00\x00\x00\x00\x00",
        whole_from: 10,
        ends: true,
    },
    Row {
        value: Answer::Refused(Refusal::TooManyOlder, 0),
        bytes: b"\x00\x09\x00\x00\x00\x00\x00\x00\x00\x00",
        whole_from: 10,
        ends: true,
    },
    Row {
        value: Answer::Refused(Refusal::NoPlace, 0xfedcba9876543210),
        bytes: b"\x00\x0a\x10\x32\x54\x76\x98\xba\xdc\xfe",
        whole_from: 10,
        ends: true,
    },
    Row {
        value: Answer::Done,
        bytes: b"\x01",
        whole_from: 1,
        ends: true,
    },
    Row {
        value: Answer::Number(0),
        bytes: b"\x02\x00\x00\x00\x00\x00\x00\x00\x00",
        whole_from: 9,
        ends: true,
    },
    Row {
        value: Answer::Number(258),
        bytes: b"\x02\x02\x01\x00\x00\x00\x00\x00\x00",
        whole_from: 9,
        ends: true,
    },
    Row {
        value: Answer::Number(0xffffffffffffffff),
        bytes: b"\x02\xff\xff\xff\xff\xff\xff\xff\xff",
        whole_from: 9,
        ends: true,
    },
    Row {
        value: Answer::Entry(b"ab", 7),
        bytes: b"\x03\x07\x00\x00\x00\x00\x00\x00\x00\x61\x62",
        whole_from: 9,
        ends: false,
    },
    Row {
        value: Answer::Entry(b"", 256),
        bytes: b"\x03\x00\x01\x00\x00\x00\x00\x00\x00",
        whole_from: 9,
        ends: false,
    },
    Row {
        value: Answer::Block(b"\xde\xad\xbe\xef"),
        bytes: b"\x04\xde\xad\xbe\xef",
        whole_from: 1,
        ends: false,
    },
    Row {
        value: Answer::Block(b""),
        bytes: b"\x04",
        whole_from: 1,
        ends: false,
    },
];

pub(crate) static NO_ANSWERS: [&[u8]; 10] = [
    // nothing
    b"",
    // no answer has the number 5 or more
    b"\x05",
    b"\x05\x00\x00\x00\x00\x00\x00\x00\x00",
    b"\xff",
    // no refusal has the number 0, or 11 or more
    b"\x00\x00\x00\x00\x00\x00\x00\x00\x00\x00",
    b"\x00\x0b\x00\x00\x00\x00\x00\x00\x00\x00",
    b"\x00\xff\x00\x00\x00\x00\x00\x00\x00\x00",
    // a refusal without a place
    b"\x00\x01",
    // bytes after the end
    b"\x01\x00",
    b"\x02\x00\x00\x00\x00\x00\x00\x00\x00\x00",
];
