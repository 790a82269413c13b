// Data blocks taken for new cells, given up with cells that go, and settled by a sync.
#![tactic(auto)]

ghost use Rattle.std.specs.Prelude.{◌≡◌, ◌+◌, ◌*◌, ◌^◌, ◌<◌, ◌≤◌, length};
ghost use Rattle.std.specs.List.{AllByRecursion};
ghost use Rattle.blocks.specs.Words.{Words, part};
ghost use Rattle.blocks.specs.Bits.{bits_of};
ghost use Rattle.machine.specs.State.{count_set};
ghost use Rattle.memory.specs.Lent.{SameTables, SameStatus};
ghost use Rattle.allocate.specs.Allocate.{Claimed, Released, Settled};

use bitmap::{clear_all, mark_all, take_lowest, unmark_all};
use memory::newest::Tables;
use memory::status::Status;

// The words of a map are below 2 ^ 64, as their type says. (Nothing runs: it tells so where maps are fields of what is lent.)
fn words_fit(map: &[u64])
    ensures { Words map.now }
{}

// So are those of the three maps.
fn maps_fit(status: &Status<'_>)
    ensures held { Words status.now.held.now }
    ensures fresh { Words status.now.fresh.now }
    ensures own { Words status.now.own.now }
{
    words_fit(status.held);
    words_fit(status.fresh);
    words_fit(status.own);
}

// Takes the lowest free data blocks for the `count` cells from `at` on: they are held, fresh and the newest tree's from now on.
pub fn claim(tables: &mut Tables<'_>, status: &mut Status<'_>, at: usize, count: usize)
    requires cells { at + count ≤ length tables.old.cells.now }
    requires few { length status.old.held.now < 2 ^ 32 }
    requires enough { count + count_set (bits_of status.old.held.now) ≤ 64 * length status.old.held.now }
    requires fresh { length status.old.fresh.now ≡ length status.old.held.now }
    requires own { length status.old.own.now ≡ length status.old.held.now }
    ensures tables { SameTables tables.old tables.new }
    ensures status { SameStatus status.old status.new }
    ensures claimed { Claimed at count tables.old tables.new status.old status.new }
{
    let cells = &mut tables.cells[at..at + count];
    take_lowest(status.held, cells);
    mark_all(status.fresh, cells);
    mark_all(status.own, cells);
    maps_fit(status);
}

// Gives up the data blocks of the `count` cells from `at` on: the newest tree has them no more. They stay held until a sync, since an
// older tree may come back with them.
pub fn release(tables: &Tables<'_>, status: &mut Status<'_>, at: usize, count: usize)
    requires cells { at + count ≤ length tables.now.cells.now }
    requires below { AllByRecursion (λ x. x < 64 * length status.old.own.now) (part at count tables.now.cells.now) }
    ensures status { SameStatus status.old status.new }
    ensures released { Released (part at count tables.now.cells.now) status.old status.new }
{
    unmark_all(status.own, &tables.cells[at..at + count]);
    maps_fit(status);
}

// Copies a lent map over another of its length.
// kept: `copy_from_slice` at two maps of one lent struct is not covered by the borrow checker (tried)
fn copy_map(to: &mut &mut [u64], from: &&mut [u64])
    requires { length to.old.now ≡ length from.now.now }
    ensures same { to.new.ghost_name ≡ to.old.ghost_name }
    ensures copied { to.new.now ≡ from.now.now }
{
    to.copy_from_slice(from);
}

// After a sync: held is what the newest tree has, and nothing is fresh.
pub fn settle(status: &mut Status<'_>)
    requires { length status.old.held.now ≡ length status.old.own.now }
    ensures status { SameStatus status.old status.new }
    ensures settled { Settled status.old status.new }
{
    let Status { held, own, .. } = status;
    copy_map(held, own);
    clear_all(status.fresh);
}
