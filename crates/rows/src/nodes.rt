// The table of nodes, four words each, with that of sums: a node by its id, and what the two say of it.
ghost use Rattle.std.specs.Prelude.{◌≡◌, ◌+◌, ◌*◌, ◌≤◌, ◌++◌, length, codes, Some};
ghost use Rattle.std.specs.Fmt.{decimal};
ghost use Rattle.tables.specs.Lookup.{row_kind, row_of, Ascends, place_at};
ghost use Rattle.rows.specs.Kinds.{kind_number, KindRead};
ghost use Rattle.rows.specs.Places.{place_in};
ghost use Rattle.rows.specs.Found.{found};

use std::error::Error;
use std::fmt;

// What a node is.
#[derive(Clone, Copy, Debug, PartialEq, Eq)]
pub enum Kind {
    Dir,
    File,
}

// A word of the table that is no node's kind.
// kept: a word, where the kinds of calls and answers have a byte, and it says what has no such number
#[derive(Clone, Copy, Debug, PartialEq, Eq)]
pub struct UnknownKind(pub u64);

impl From<Kind> for u64 {
    // The number that the table has for a kind.
    ghost from_gives = { λ kind r. r ≡ kind_number kind };

    fn from(kind: Kind) -> u64 {
        match kind {
            Kind::Dir => 0,
            Kind::File => 1,
        }
    }
}

impl TryFrom<u64> for Kind {
    type Error = UnknownKind;

    ghost try_from_gives = { KindRead };

    fn try_from(word: u64) -> Result<Kind, UnknownKind> {
        match word {
            0 => Ok(Kind::Dir),
            1 => Ok(Kind::File),
            _ => Err(UnknownKind(word)),
        }
    }
}

impl fmt::Display for UnknownKind {
    ghost output = { λ e. Some (codes "no kind of nodes has the number " ++ decimal e.0) };

    fn fmt<W: fmt::Write>(&self, f: &mut fmt::Formatter<W>) -> fmt::Result {
        write!(f, "no kind of nodes has the number {}", self.0)
    }
}

impl Error for UnknownKind {}

// All that the two tables say of a node: its row, how many entries or cells it has, and where its entries and its cells begin.
#[derive(Clone, Copy, Debug, PartialEq, Eq)]
pub struct Place {
    pub row: usize,
    pub kind: Kind,
    pub count: usize,
    pub entries: usize,
    pub cells: usize,
}

// What stands at a row.
pub fn place_at(nodes: &[u64], sums: &[u64], row: usize) -> Place
    requires nodes { 4 * row + 4 ≤ length nodes.now }
    requires sums { 2 * row + 2 ≤ length sums.now }
    requires kind { row_kind nodes.now row ≤ 1 }
    ensures { place_in result ≡ place_at row nodes.now sums.now }
{
    Place {
        row,
        kind: Kind::try_from(nodes[4 * row + 1]).unwrap(),
        count: nodes[4 * row + 2] as usize,
        entries: sums[2 * row] as usize,
        cells: sums[2 * row + 1] as usize,
    }
}

// The row of an id, by halves, since ids ascend.
pub fn find_row(nodes: &[u64], rows: usize, id: u64) -> Option<usize>
    requires inside { 4 * rows ≤ length nodes.now }
    requires ascend { Ascends rows nodes.now }
    ensures { result ≡ found rows (row_of id rows nodes.now) }
{
    let mut low = 0;
    let mut high = rows;
    while low < high {
        let mid = low + (high - low) / 2;
        if nodes[4 * mid] < id {
            low = mid + 1;
        } else {
            high = mid;
        }
    }
    (low < rows && nodes[4 * low] == id).then_some(low)
}
