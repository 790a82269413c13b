// Nodes removed and renamed: what is asked first, or the step.
ghost use Rattle.std.specs.Prelude.{◌≡◌, ℕ, ◌≤◌, true};
ghost use Rattle.model.specs.Tree as model;
ghost use Rattle.model.specs.Calls as model_calls;
ghost use Rattle.model.specs.Calls.{good_name};
ghost use Rattle.steps.specs.declared.stage.Stage as stages;
ghost use Rattle.lookup.specs.Found.{ids_in};
ghost use Rattle.lookup.specs.Views.{words, Sound};
ghost use Rattle.steps.specs.Stages.{limits_of};
ghost use Rattle.steps.specs.Steps.{InPlaceTells, ToldByState};

use calls::Refusal;
use lookup::search::Named;
use steps::state::State;
use steps::step::{Renaming, Step};

// A name removed, with its node.
pub fn remove(state: &State<'_>, dir: u64, name: &[u8]) -> Result<Step<'static>, Refusal>
    requires { good_name name.now ≡ true }
    ensures { (held : ℕ) → ToldByState state.now held (model_calls.remove dir name.now) result }
{
    let tree = &state.tree;
    let place = tree.directory(dir).ok_or(Refusal::NoDirectory)?;
    let entry = tree.view.name_in(place, name).ok_or(Refusal::NoEntry)?;
    if tree.has_entries(entry.id) {
        return Err(Refusal::InTheWay);
    }
    if !state.room.may_change() {
        return Err(Refusal::TooManyOlder);
    }
    Ok(Step::Remove { dir: place, entry })
}

// May a node stand in the place of what has its new name? True where that is the node itself.
pub fn in_place(state: &State<'_>, id: u64, replaced: Option<Named>) -> Result<bool, Refusal>
    ensures { (s : stages.Stage) (t : model.Tree) →
        Sound (limits_of s state.now.room.limits) (words state.now.tree.view) t →
        InPlaceTells (limits_of s state.now.room.limits) t state.now.room.older id (ids_in replaced) result }
{
    if let Some(other) = replaced {
        if other.id == id {
            return Ok(true);
        }
        if !state.tree.alike(id, other.id) || state.tree.has_entries(other.id) {
            return Err(Refusal::InTheWay);
        }
    }
    if !state.room.may_change() {
        return Err(Refusal::TooManyOlder);
    }
    Ok(false)
}

// A node renamed.
pub fn rename<'a>(
    state: &State<'_>,
    from: u64,
    old: &[u8],
    to: u64,
    name: &'a [u8],
) -> Result<Step<'a>, Refusal>
    requires few { state.now.tree.view.used.nodes ≤ 4096 }
    requires old { good_name old.now ≡ true }
    requires name { good_name name.now ≡ true }
    ensures { (held : ℕ) → ToldByState state.now held (model_calls.rename from old.now to name.now) result }
{
    let tree = &state.tree;
    let source = tree.directory(from).ok_or(Refusal::NoDirectory)?;
    let target = tree.directory(to).ok_or(Refusal::NoDirectory)?;
    let entry = tree.view.name_in(source, old).ok_or(Refusal::NoEntry)?;
    let nodes = tree.view.used.nodes;
    if tree.inside(2 * nodes * (nodes + 1), entry.id, to) {
        return Err(Refusal::InTheWay);
    }
    let replaced = tree.view.name_in(target, name);
    let same = in_place(state, entry.id, replaced)?;
    if same {
        return Ok(Step::SameName);
    }
    Ok(Step::Rename(Renaming {
        from,
        source,
        entry,
        to,
        target,
        name,
        replaced,
    }))
}
