// Bytes that are no call are garbled at just the place of the table.
use crate::call_table::RENAME;
use crate::garbled_table::{GARBLED, TAILS};
use crate::rows::joined;
use calls::Call;
use decode::read_call;

#[test]
fn garbled_bytes(rt: HostRuntime) {
    for row in &GARBLED {
        assert_eq!(rt; read_call(row.bytes), Call::Garbled(row.place));
    }
}

#[test]
fn garbled_renames(rt: HostRuntime) {
    for row in &TAILS {
        let bytes = joined::<49>(&[&RENAME, row.bytes]).expect(&rt, "room");
        let place = row.place.checked_add(17).expect(&rt, "place");
        assert_eq!(rt; read_call(&bytes), Call::Garbled(place));
    }
}
