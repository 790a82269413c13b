// A node by its id, at both ends and where there is none; its place; a name among names that begin alike; a file's block.
use rows::cells::block_of;
use rows::entries::find_name;
use rows::keys::{entry_row, name_key};
use rows::nodes::{Kind, Place, find_row, place_at};
use splice::words::insert_words;

// The row of an id among 2, 5 and 9.
fn row(id: u64) -> Option<usize> {
    find_row(&[2, 0, 1, 0, 5, 1, 3, 0, 9, 1, 0, 0], 3, id)
}

#[test]
fn ids(rt: HostRuntime) {
    assert_eq!(rt; row(2), Some(0));
    assert_eq!(rt; row(5), Some(1));
    assert_eq!(rt; row(9), Some(2));
    assert_eq!(rt; row(1), None);
    assert_eq!(rt; row(7), None);
    assert_eq!(rt; row(10), None);
}

#[test]
fn places(rt: HostRuntime) {
    assert_eq!(rt;
        place_at(&[2, 0, 1, 0, 5, 1, 3, 0], &[0, 0, 1, 4], 1),
        Place {
            row: 1,
            kind: Kind::File,
            count: 3,
            entries: 1,
            cells: 4,
        }
    );
}

#[test]
fn names(rt: HostRuntime) {
    let mut entries = [0; 64];
    insert_words(&mut entries, 0, 0, &entry_row(4, b"other"));
    insert_words(&mut entries, 16, 16, &entry_row(5, b"report"));
    insert_words(&mut entries, 32, 32, &entry_row(6, b"report.old"));
    insert_words(&mut entries, 48, 48, &entry_row(7, b"repor"));
    assert_eq!(rt; find_name(&entries, 1, 3, &name_key(b"report")), Some(0));
    assert_eq!(rt;
        find_name(&entries, 1, 3, &name_key(b"report.old")),
        Some(1)
    );
    assert_eq!(rt; find_name(&entries, 1, 3, &name_key(b"repor")), Some(2));
    assert_eq!(rt; find_name(&entries, 1, 3, &name_key(b"other")), None);
}

#[test]
fn blocks(rt: HostRuntime) {
    assert_eq!(rt; block_of(&[11, 12, 13, 14], 1, 2), 14);
}
