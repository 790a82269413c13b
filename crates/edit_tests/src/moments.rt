// Tables worked out by hand, with room for four nodes and six cells: one for each moment of the afternoon.
use rows::used::Used;

// The tables of a tree, and how much of them is in use.
#[derive(Clone, Copy, Debug, PartialEq, Eq)]
pub struct Moment {
    pub nodes: [u64; 16],
    pub sums: [u64; 8],
    pub entries: [u64; 64],
    pub cells: [u64; 6],
    pub used: Used,
}

// Tables of entries, sixteen words a row: an id, the length of the name, its one byte, and zeros.
const FIRST: [u64; 64] = [
    1, 1, 97, 0, 0, 0, 0, 0, 0, 0, 0, 0, 0, 0, 0, 0, 0, 0, 0, 0, 0, 0, 0, 0, 0, 0, 0, 0, 0, 0, 0,
    0, 0, 0, 0, 0, 0, 0, 0, 0, 0, 0, 0, 0, 0, 0, 0, 0, 0, 0, 0, 0, 0, 0, 0, 0, 0, 0, 0, 0, 0, 0, 0,
    0,
];

const SECOND: [u64; 64] = [
    1, 1, 97, 0, 0, 0, 0, 0, 0, 0, 0, 0, 0, 0, 0, 0, 2, 1, 100, 0, 0, 0, 0, 0, 0, 0, 0, 0, 0, 0, 0,
    0, 0, 0, 0, 0, 0, 0, 0, 0, 0, 0, 0, 0, 0, 0, 0, 0, 0, 0, 0, 0, 0, 0, 0, 0, 0, 0, 0, 0, 0, 0, 0,
    0,
];

const THIRD: [u64; 64] = [
    1, 1, 97, 0, 0, 0, 0, 0, 0, 0, 0, 0, 0, 0, 0, 0, 2, 1, 100, 0, 0, 0, 0, 0, 0, 0, 0, 0, 0, 0, 0,
    0, 3, 1, 98, 0, 0, 0, 0, 0, 0, 0, 0, 0, 0, 0, 0, 0, 0, 0, 0, 0, 0, 0, 0, 0, 0, 0, 0, 0, 0, 0,
    0, 0,
];

const FEWER: [u64; 64] = [
    2, 1, 100, 0, 0, 0, 0, 0, 0, 0, 0, 0, 0, 0, 0, 0, 3, 1, 98, 0, 0, 0, 0, 0, 0, 0, 0, 0, 0, 0, 0,
    0, 0, 0, 0, 0, 0, 0, 0, 0, 0, 0, 0, 0, 0, 0, 0, 0, 0, 0, 0, 0, 0, 0, 0, 0, 0, 0, 0, 0, 0, 0, 0,
    0,
];

const RENAMED: [u64; 64] = [
    2, 1, 100, 0, 0, 0, 0, 0, 0, 0, 0, 0, 0, 0, 0, 0, 3, 1, 97, 0, 0, 0, 0, 0, 0, 0, 0, 0, 0, 0, 0,
    0, 0, 0, 0, 0, 0, 0, 0, 0, 0, 0, 0, 0, 0, 0, 0, 0, 0, 0, 0, 0, 0, 0, 0, 0, 0, 0, 0, 0, 0, 0, 0,
    0,
];

// The first directory alone.
pub const NEW: Moment = Moment {
    nodes: [0; 16],
    sums: [0; 8],
    entries: [0; 64],
    cells: [0; 6],
    used: Used {
        next: 1,
        nodes: 1,
        entries: 0,
        cells: 0,
    },
};

// It has a file, "a".
pub const FILE: Moment = Moment {
    nodes: [0, 0, 1, 0, 1, 1, 0, 0, 0, 0, 0, 0, 0, 0, 0, 0],
    sums: [0, 0, 1, 0, 0, 0, 0, 0],
    entries: FIRST,
    cells: [0; 6],
    used: Used {
        next: 2,
        nodes: 2,
        entries: 1,
        cells: 0,
    },
};

// It has a directory, "d", too.
pub const DIR: Moment = Moment {
    nodes: [0, 0, 2, 0, 1, 1, 0, 0, 2, 0, 0, 0, 0, 0, 0, 0],
    sums: [0, 0, 2, 0, 2, 0, 0, 0],
    entries: SECOND,
    cells: [0; 6],
    used: Used {
        next: 3,
        nodes: 3,
        entries: 2,
        cells: 0,
    },
};

// In "d" is a file, "b".
pub const INNER: Moment = Moment {
    nodes: [0, 0, 2, 0, 1, 1, 0, 0, 2, 0, 1, 0, 3, 1, 0, 0],
    sums: [0, 0, 2, 0, 2, 0, 3, 0],
    entries: THIRD,
    cells: [0; 6],
    used: Used {
        next: 4,
        nodes: 4,
        entries: 3,
        cells: 0,
    },
};

// "a" has two cells.
pub const LONG: Moment = Moment {
    nodes: [0, 0, 2, 0, 1, 1, 2, 0, 2, 0, 1, 0, 3, 1, 0, 0],
    sums: [0, 0, 2, 0, 2, 2, 3, 2],
    entries: THIRD,
    cells: [5, 6, 0, 0, 0, 0],
    used: Used {
        next: 4,
        nodes: 4,
        entries: 3,
        cells: 2,
    },
};

// "b" has three, after those.
pub const BOTH: Moment = Moment {
    nodes: [0, 0, 2, 0, 1, 1, 2, 0, 2, 0, 1, 0, 3, 1, 3, 0],
    sums: [0, 0, 2, 0, 2, 2, 3, 2],
    entries: THIRD,
    cells: [5, 6, 7, 8, 9, 0],
    used: Used {
        next: 4,
        nodes: 4,
        entries: 3,
        cells: 5,
    },
};

// "a" has its first cell only.
pub const SHORT: Moment = Moment {
    nodes: [0, 0, 2, 0, 1, 1, 1, 0, 2, 0, 1, 0, 3, 1, 3, 0],
    sums: [0, 0, 2, 0, 2, 1, 3, 1],
    entries: THIRD,
    cells: [5, 7, 8, 9, 0, 0],
    used: Used {
        next: 4,
        nodes: 4,
        entries: 3,
        cells: 4,
    },
};

// "a" is removed.
pub const WITHOUT: Moment = Moment {
    nodes: [0, 0, 1, 0, 2, 0, 1, 0, 3, 1, 3, 0, 0, 0, 0, 0],
    sums: [0, 0, 1, 0, 2, 0, 0, 0],
    entries: FEWER,
    cells: [7, 8, 9, 0, 0, 0],
    used: Used {
        next: 4,
        nodes: 3,
        entries: 2,
        cells: 3,
    },
};

// What was "b" in "d" is "a" in the first directory.
pub const MOVED: Moment = Moment {
    nodes: [0, 0, 2, 0, 2, 0, 0, 0, 3, 1, 3, 0, 0, 0, 0, 0],
    sums: [0, 0, 2, 0, 2, 0, 0, 0],
    entries: RENAMED,
    cells: [7, 8, 9, 0, 0, 0],
    used: Used {
        next: 4,
        nodes: 3,
        entries: 2,
        cells: 3,
    },
};
