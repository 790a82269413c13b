// Names of 1, 8, 9 and 64 bytes as words, and back.
ghost use Rattle.std.specs.Prelude.{◌≤◌, length};

use rows::entries::{entry_id, read_entry};
use rows::keys::{entry_row, name_key};
use std::process::Abort;

#[test]
fn keys(rt: HostRuntime) {
    assert_eq!(rt; name_key(b"a"), [1, 0x61, 0, 0, 0, 0, 0, 0, 0]);
    assert_eq!(rt;
        name_key(b"abcdefgh"),
        [8, 0x6867666564636261, 0, 0, 0, 0, 0, 0, 0]
    );
    assert_eq!(rt;
        name_key(b"abcdefghi"),
        [9, 0x6867666564636261, 0x69, 0, 0, 0, 0, 0, 0]
    );
    let long = [0xff; 64];
    let full = 0xffffffffffffffff;
    assert_eq!(rt;
        name_key(&long),
        [64, full, full, full, full, full, full, full, full]
    );
}

#[test]
fn rows(rt: HostRuntime) {
    assert_eq!(rt;
        entry_row(5, b"ab"),
        [5, 2, 0x6261, 0, 0, 0, 0, 0, 0, 0, 0, 0, 0, 0, 0, 0]
    );
}

// An entry with the name, as a row, is read back.
fn there_and_back(rt: &impl Abort, name: &[u8])
    requires { length name.now ≤ 64 }
{
    let row = entry_row(7, name);
    assert_eq!(rt; entry_id(&row, 0), 7);
    let entry = read_entry(&row, 0);
    assert_eq!(rt; entry.id, 7);
    assert_eq!(rt; entry.name(), name);
}

#[test]
fn names_come_back(rt: HostRuntime) {
    there_and_back(&rt, b"a");
    there_and_back(&rt, b"abcdefgh");
    there_and_back(&rt, b"abcdefghi");
    there_and_back(&rt, &[0xfe; 64]);
}
