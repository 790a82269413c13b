// The count of entries or cells that a node's row has.
ghost use Rattle.std.specs.Prelude.{◌≡◌, ◌+◌, ◌*◌, ◌≤◌, length};
ghost use Rattle.tables.specs.Edits.{counted};
ghost use Rattle.splice.specs.Rows.{at_row};

// Another count for the node at a row.
pub fn set_count(nodes: &mut [u64], row: usize, count: usize)
    requires { 4 * row + 4 ≤ length nodes.old }
    ensures { nodes.new ≡ counted (at_row row) count nodes.old }
{
    nodes[4 * row + 2] = count as u64;
}
