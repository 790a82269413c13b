// Entries listed, files read, written, resized and synced: what is asked first, or the step.
ghost use Rattle.std.specs.Prelude.{◌≡◌};
ghost use Rattle.model.specs.Calls as model_calls;
ghost use Rattle.lookup.specs.Views.{words};
ghost use Rattle.steps.specs.Steps.{BlockTold, ToldByTables, ToldByState};

use calls::Refusal;
use lookup::tree::Tree;
use rows::cells::block_of;
use steps::state::State;
use steps::step::Step;

// The row of an entry of a directory.
pub fn list(tree: &Tree<'_>, dir: u64, index: u64) -> Result<Step<'static>, Refusal>
    ensures { ToldByTables (words tree.now.view) (model_calls.list dir index) result }
{
    let place = tree.directory(dir).ok_or(Refusal::NoDirectory)?;
    if index >= place.count as u64 {
        return Err(Refusal::NoEntry);
    }
    let entries = tree.view.entries;
    prove!(place.entries + place.count <= entries.len());
    Ok(Step::List(place.entries + index as usize))
}

// How many places a file has.
pub fn size(tree: &Tree<'_>, id: u64) -> Result<Step<'static>, Refusal>
    ensures { ToldByTables (words tree.now.view) (model_calls.size id) result }
{
    let place = tree.file(id).ok_or(Refusal::NoFile)?;
    Ok(Step::Size(place.count))
}

// The data block of a place of a file.
fn block_at(tree: &Tree<'_>, id: u64, at: u64) -> Result<u64, Refusal>
    ensures { BlockTold (words tree.now.view) id at result }
{
    let place = tree.file(id).ok_or(Refusal::NoFile)?;
    if at >= place.count as u64 {
        return Err(Refusal::NoPlace);
    }
    Ok(block_of(tree.view.cells, place.cells, at as usize))
}

// The data block of a place of a file, to be read.
pub fn read(tree: &Tree<'_>, id: u64, at: u64) -> Result<Step<'static>, Refusal>
    ensures { ToldByTables (words tree.now.view) (model_calls.read id at) result }
{
    let block = block_at(tree, id, at)?;
    Ok(Step::Read(block))
}

// The same, to be written.
pub fn write<'a>(tree: &Tree<'_>, id: u64, at: u64, block: &'a [u8]) -> Result<Step<'a>, Refusal>
    ensures { ToldByTables (words tree.now.view) (model_calls.write id at block.now) result }
{
    let to = block_at(tree, id, at)?;
    Ok(Step::Write { to, block })
}

// A file to have so many places.
pub fn resize(state: &State<'_>, id: u64, places: u64) -> Result<Step<'static>, Refusal>
    ensures { ToldByState state.now state.now.room.held (model_calls.resize id places) result }
{
    let file = state.tree.file(id).ok_or(Refusal::NoFile)?;
    let count = file.count as u64;
    if places == count {
        return Ok(Step::SameSize);
    }
    if !state.room.cells_fit(count, places) {
        return Err(Refusal::NoRoom);
    }
    if !state.room.may_change() {
        return Err(Refusal::TooManyOlder);
    }
    if places > count {
        let more = (places - count) as usize;
        return Ok(Step::Grow { file, more });
    }
    let kept = places as usize;
    Ok(Step::Cut { file, kept })
}

// A file to be synced.
pub fn sync_file(tree: &Tree<'_>, id: u64) -> Result<Step<'static>, Refusal>
    ensures { ToldByTables (words tree.now.view) (model_calls.sync_file id) result }
{
    tree.file(id).ok_or(Refusal::NoFile)?;
    Ok(Step::SyncFile(id))
}
