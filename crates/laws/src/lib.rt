// Laws of the file system, proved of the model: what whoever uses it may count on. Nothing here runs; each function asks for
// the proof of the law that it is named for, of a file system with all calls and of one with those of the first stage.
#![tactic(auto)]

ghost use Rattle.model.specs.Promise.{all, thin};
ghost use Rattle.model.specs.Laws.{NamesOnce, NamedOnce, CellsOnce, HasRoom, TreeKept, FileKept, CopiedWhole, TurnedAway};
ghost use Rattle.model.specs.Laws.{ReadBack, AllBelow, NotInItself, KindStays, ResizeKeeps, SyncLasts, FileLasts, AllLawful};
ghost use Rattle.laws.specs.Afternoon.{Afternoon};

// In a directory each name is there once, and names a node that is there.
pub fn names_once()
    ensures { (NamesOnce all) × (NamesOnce thin) }
{}

// Each node but directory 0 is named once.
pub fn named_once()
    ensures { (NamedOnce all) × (NamedOnce thin) }
{}

// No cell is at two places, in any tree.
pub fn cells_once()
    ensures { (CellsOnce all) × (CellsOnce thin) }
{}

// Cells held, nodes and older trees are at most as many as may be.
pub fn has_room()
    ensures { (HasRoom all) × (HasRoom thin) }
{}

// After the tree was synced, power brings back no older one.
pub fn tree_kept()
    ensures { TreeKept }
{}

// After a file was synced, its places have what they had.
pub fn file_kept()
    ensures { FileKept }
{}

// A synced file renamed over another that was: whenever power goes, by the name there is the one or the other, whole.
pub fn copied_whole()
    ensures { CopiedWhole }
{}

// What is refused changes nothing.
pub fn turned_away()
    ensures { TurnedAway }
{}

// What is written is read back, and every other place reads as before.
pub fn read_back()
    ensures { (ReadBack all) × (ReadBack thin) }
{}

// Every node lies below directory 0, in every tree that power may bring back.
pub fn all_below()
    ensures { (AllBelow all) × (AllBelow thin) }
{}

// No directory is in itself, in every tree that power may bring back.
pub fn not_in_itself()
    ensures { (NotInItself all) × (NotInItself thin) }
{}

// A rename leaves no file where a directory was, nor a directory where a file was.
pub fn kind_stays()
    ensures { (KindStays all) × (KindStays thin) }
{}

// A resize gives a file so many places: those that stay read as before, new ones read zeros.
pub fn resize_keeps()
    ensures { (ResizeKeeps all) × (ResizeKeeps thin) }
{}

// Once the tree was synced, power never brings back an older one.
pub fn sync_lasts()
    ensures { SyncLasts }
{}

// Once a file and the tree were synced, each place has what it had or something written to it since.
pub fn file_lasts()
    ensures { (FileLasts all) × (FileLasts thin) }
{}

// Every tree that power may bring back is one that the laws allow.
pub fn all_lawful()
    ensures { (AllLawful all) × (AllLawful thin) }
{}

// The model answers the worked afternoon as its table says, and power may leave what is said there.
pub fn afternoon()
    ensures { Afternoon }
{}
