// What a call is checked by: the newest tree, and what room there is.
ghost use Rattle.std.specs.Prelude.{◌≡◌, ◌+◌, ◌-◌, ◌&&◌, nat_lt, nat_le};

use calls::Limits;
use lookup::tree::Tree;
use rows::used::Used;

// The limits that are fixed at opening, and what is taken of them: how many older trees there are, and how many cells are held.
#[derive(Clone, Copy, Debug, PartialEq, Eq)]
pub struct Room {
    pub limits: Limits,
    pub older: u64,
    pub held: u64,
}

#[derive(Clone, Copy)]
pub struct State<'a> {
    pub tree: Tree<'a>,
    pub room: Room,
}

impl Room {
    // May one more older tree be?
    pub fn may_change(&self) -> bool
        ensures { result ≡ nat_lt self.now.older self.now.limits.older }
    {
        self.older < self.limits.older
    }

    // Is there room for one more node, and an id, where so much of the tables is in use?
    pub fn has_room(&self, used: &Used) -> bool
        ensures { result ≡ (nat_lt used.now.nodes self.now.limits.nodes && nat_lt used.now.next 4294967295) }
    {
        (used.nodes as u64) < self.limits.nodes && used.next < 4294967295
    }

    // May a file of `count` places have so many, by the cells that are held?
    pub fn cells_fit(&self, count: u64, places: u64) -> bool
        ensures { result ≡ nat_le (self.now.held + (places - count)) self.now.limits.cells }
    {
        self.held <= self.limits.cells
            && places.saturating_sub(count) <= self.limits.cells - self.held
    }
}
