// The table of sums, two words a node: where its entries and its cells begin.
ghost use Rattle.std.specs.Prelude.{◌≡◌, ℕ, ◌+◌, ◌-◌, ◌*◌, ◌^◌, ◌<◌, ◌≤◌, length};
ghost use Rattle.tables.specs.Lookup.{row_entries, row_cells};
ghost use Rattle.splice.specs.Calls.{Computes};
ghost use Rattle.tables.specs.Edits.{shifted, raised, lowered};

// Changes the two sums of each of `rows` rows, from `from_row` on.
fn change_sums<F: Fn(u64) -> u64, G: Fn(u64) -> u64>(
    sums: &mut [u64],
    from_row: usize,
    rows: usize,
    entries: F,
    cells: G,
)
    requires inside { 2 * (from_row + rows) ≤ length sums.old }
    requires can_entries { (k : ℕ) → from_row ≤ k → k < from_row + rows → F.pre entries (row_entries sums.old k) }
    requires can_cells { (k : ℕ) → from_row ≤ k → k < from_row + rows → G.pre cells (row_cells sums.old k) }
    ensures { (f g : ℕ → ℕ) → Computes (F.post entries) f → Computes (G.post cells) g →
        sums.new ≡ shifted f g rows from_row sums.old }
{
    // kept: what `chunks_exact_mut` leaves behind no contract says, so rows go by their number
    for row in from_row..from_row + rows {
        sums[2 * row] = entries(sums[2 * row]);
        sums[2 * row + 1] = cells(sums[2 * row + 1]);
    }
}

// So many entries and cells more stand before each of `rows` rows, from `from_row` on.
pub fn raise_sums(
    sums: &mut [u64],
    from_row: usize,
    rows: usize,
    entries_by: usize,
    cells_by: usize,
)
    requires inside { 2 * (from_row + rows) ≤ length sums.old }
    requires fits_entries { (k : ℕ) → from_row ≤ k → k < from_row + rows → row_entries sums.old k + entries_by < 2 ^ 64 }
    requires fits_cells { (k : ℕ) → from_row ≤ k → k < from_row + rows → row_cells sums.old k + cells_by < 2 ^ 64 }
    ensures { sums.new ≡ raised entries_by cells_by rows from_row sums.old }
{
    change_sums(
        sums,
        from_row,
        rows,
        |sum| sum + entries_by as u64,
        |sum| sum + cells_by as u64,
    );
}

// So many fewer; a sum stops at zero, as the definition's does.
pub fn lower_sums(
    sums: &mut [u64],
    from_row: usize,
    rows: usize,
    entries_by: usize,
    cells_by: usize,
)
    requires { 2 * (from_row + rows) ≤ length sums.old }
    ensures { sums.new ≡ lowered entries_by cells_by rows from_row sums.old }
{
    change_sums(
        sums,
        from_row,
        rows,
        |sum| sum.saturating_sub(entries_by as u64),
        |sum| sum.saturating_sub(cells_by as u64),
    );
}
