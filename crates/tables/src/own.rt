// Which data blocks a tree has, after a change. Nothing here runs; each function asks for the proof of a law.
ghost use Rattle.tables.specs.Own.{OwnDir, OwnAdded, OwnGrown, OwnCut, OwnGone};

// A change of a directory changes no block that the tree has.
pub fn own_dir()
    ensures { OwnDir }
{}

// Nor does a node without cells.
pub fn own_added()
    ensures { OwnAdded }
{}

// Cells that a file gets are marked.
pub fn own_grown()
    ensures { OwnGrown }
{}

// Cells that a file loses are unmarked.
pub fn own_cut()
    ensures { OwnCut }
{}

// So are those of a node that goes.
pub fn own_gone()
    ensures { OwnGone }
{}
