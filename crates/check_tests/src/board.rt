// A small tree in tables worked out by hand, full of nodes: the first directory has a file "a" of two places and a directory "d", in
// which is an empty file, "b". Four nodes, six cells and two older trees may be.
ghost use Rattle.std.specs.Prelude.{◌≡◌};
ghost use Rattle.model.specs.Refusals.{refusal};
ghost use Rattle.calls.specs.Meaning.{call_of};
ghost use Rattle.check_tests.specs.Board.{limits, small_tree, reason_number};

use calls::{Call, Limits, Refusal};
use check_calls::check::check;
use lookup::tree::Tree;
use lookup::view::View;
use rows::used::Used;
use steps::stage::Stage;
use steps::state::{Room, State};

// Four words a node: id, kind (0 a directory, 1 a file), how many entries or cells, zero.
const NODES: [u64; 16] = [0, 0, 2, 0, 1, 1, 2, 0, 2, 0, 1, 0, 3, 1, 0, 0];

// Two words a node: entries and cells of the nodes before it.
const SUMS: [u64; 8] = [0, 0, 2, 0, 2, 2, 3, 2];

// Sixteen words an entry: an id, the length of the name, its one byte, and zeros.
const ENTRIES: [u64; 64] = [
    1, 1, 97, 0, 0, 0, 0, 0, 0, 0, 0, 0, 0, 0, 0, 0, 2, 1, 100, 0, 0, 0, 0, 0, 0, 0, 0, 0, 0, 0, 0,
    0, 3, 1, 98, 0, 0, 0, 0, 0, 0, 0, 0, 0, 0, 0, 0, 0, 0, 0, 0, 0, 0, 0, 0, 0, 0, 0, 0, 0, 0, 0,
    0, 0,
];

const CELLS: [u64; 6] = [3, 5, 0, 0, 0, 0];

// The reason why a call is refused, or none, where so many older trees are and so many cells are held.
pub fn reason(older: u64, held: u64, call: Call<'_>) -> Option<Refusal>
    ensures { reason_number result ≡ refusal limits small_tree older held (call_of call.entry) }
{
    let view = View {
        nodes: &NODES,
        sums: &SUMS,
        entries: &ENTRIES,
        cells: &CELLS,
        used: Used {
            next: 4,
            nodes: 4,
            entries: 3,
            cells: 2,
        },
    };
    let state = State {
        tree: Tree { view },
        room: Room {
            limits: Limits {
                cells: 6,
                nodes: 4,
                older: 2,
            },
            older,
            held,
        },
    };
    check(&state, Stage::Whole, call).err()
}
