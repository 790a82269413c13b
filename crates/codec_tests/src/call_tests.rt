// Each call of the table is read from its bytes and written as them, and no more than them. Each front of its bytes, and a byte
// after its end, is as the table says.
use crate::call_table::{CALLS, LENGTHS, RENAME};
use crate::rows::{
    Coded, UNTOUCHED, end_is_right, fronts_are_right, is_not_written, is_written, joined,
    wants_room,
};
use calls::Call;
use decode::read_call;
use encode::write_call;

impl Coded for Call<'_> {
    fn write(&self, out: &mut [u8]) -> Option<usize> {
        write_call(self, out)
    }

    fn ceases_at(bytes: &[u8], place: usize) -> bool {
        read_call(bytes) == Call::Garbled(place as u64)
    }
}

#[test]
fn each_call(rt: HostRuntime) {
    for row in &CALLS {
        assert_eq!(rt; read_call(row.bytes), row.value, "read");
        assert!(rt; wants_room(row), "written");
        assert!(rt; fronts_are_right(row), "fronts");
        assert!(rt; end_is_right(row), "a byte more");
    }
}

// Garbled has no bytes: what is read of no bytes is not written.
#[test]
fn garbled_is_not_written(rt: HostRuntime) {
    assert!(rt; is_not_written(&read_call(&[]), &mut [UNTOUCHED; 32]));
}

// A rename of a first name of so many bytes has these digits before it.
#[test]
fn each_length(rt: HostRuntime) {
    let names = [0x78; 300];
    for row in &LENGTHS {
        let name = names.get(..row.name).expect(&rt, "a name");
        let whole = joined::<320>(&[&RENAME, row.digits, name, b"y"]).expect(&rt, "room");
        let call = Call::Rename(1, name, 2, b"y");
        assert!(rt; is_written(&call, &whole, &mut [UNTOUCHED; 320]), "written");
        assert_eq!(rt; read_call(&whole), call, "read");
    }
}
