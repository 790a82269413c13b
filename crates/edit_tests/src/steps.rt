// The steps of the afternoon, each from the tables of the moment before.
ghost use Rattle.edit_tests.specs.Lends.{Lends};

use crate::moments::{BOTH, DIR, FILE, INNER, LONG, Moment, NEW, SHORT, WITHOUT};
use change::names::{make, remove, rename};
use change::sizes::{lengthen, shorten};
use memory::newest::Tables;
use rows::nodes::{Kind, Place};

impl Moment {
    // Its tables, to be changed.
    fn tables(&mut self) -> Tables<'_>
        ensures { Lends self.old result }
    {
        let Moment {
            nodes,
            sums,
            entries,
            cells,
            ..
        } = self;
        Tables {
            nodes,
            sums,
            entries,
            cells,
        }
    }
}

// kept: the steps differ in their data alone, but each shows a call as a caller writes it
// The first directory gets a file, "a".
pub fn make_file() -> Moment {
    let root = Place {
        row: 0,
        kind: Kind::Dir,
        count: 0,
        entries: 0,
        cells: 0,
    };
    let mut next = NEW;
    next.used = make(&mut next.tables(), NEW.used, root, Kind::File, b"a");
    next
}

// It gets a directory, "d".
pub fn make_dir() -> Moment {
    let root = Place {
        row: 0,
        kind: Kind::Dir,
        count: 1,
        entries: 0,
        cells: 0,
    };
    let mut next = FILE;
    next.used = make(&mut next.tables(), FILE.used, root, Kind::Dir, b"d");
    next
}

// "d" gets a file, "b".
pub fn make_inner() -> Moment {
    let inner = Place {
        row: 2,
        kind: Kind::Dir,
        count: 0,
        entries: 2,
        cells: 0,
    };
    let mut next = DIR;
    next.used = make(&mut next.tables(), DIR.used, inner, Kind::File, b"b");
    next
}

// "a" gets two cells.
pub fn grow_first() -> Moment {
    let first = Place {
        row: 1,
        kind: Kind::File,
        count: 0,
        entries: 2,
        cells: 0,
    };
    let mut next = INNER;
    next.used = lengthen(&mut next.tables(), INNER.used, first, &[5, 6]);
    next
}

// "b" gets three.
pub fn grow_last() -> Moment {
    let last = Place {
        row: 3,
        kind: Kind::File,
        count: 0,
        entries: 3,
        cells: 2,
    };
    let mut next = LONG;
    next.used = lengthen(&mut next.tables(), LONG.used, last, &[7, 8, 9]);
    next
}

// "a" keeps its first cell.
pub fn cut_first() -> Moment {
    let first = Place {
        row: 1,
        kind: Kind::File,
        count: 2,
        entries: 2,
        cells: 0,
    };
    let mut next = BOTH;
    next.used = shorten(&mut next.tables(), BOTH.used, first, 1);
    next
}

// "a" is removed, to make way.
pub fn remove_first() -> Moment {
    let root = Place {
        row: 0,
        kind: Kind::Dir,
        count: 2,
        entries: 0,
        cells: 0,
    };
    let mut next = SHORT;
    next.used = remove(&mut next.tables(), SHORT.used, root, 0, 1);
    next
}

// "b" in "d" is renamed to "a" in the first directory.
pub fn rename_over() -> Moment {
    let inner = Place {
        row: 1,
        kind: Kind::Dir,
        count: 1,
        entries: 1,
        cells: 0,
    };
    let mut next = WITHOUT;
    next.used = rename(&mut next.tables(), WITHOUT.used, inner, 0, 0, 3, b"a");
    next
}
