// Names found and nodes made: what is asked first, or the step.
ghost use Rattle.std.specs.Prelude.{◌≡◌, ℕ, true};
ghost use Rattle.model.specs.Calls as model_calls;
ghost use Rattle.model.specs.Calls.{good_name};
ghost use Rattle.lookup.specs.Views.{words};
ghost use Rattle.steps.specs.Steps.{make_call, ToldByTables, ToldByState};

use calls::Refusal;
use lookup::tree::Tree;
use rows::nodes::Kind;
use steps::state::State;
use steps::step::Step;

// The id that a name has.
pub fn find(tree: &Tree<'_>, dir: u64, name: &[u8]) -> Result<Step<'static>, Refusal>
    requires { good_name name.now ≡ true }
    ensures { ToldByTables (words tree.now.view) (model_calls.find dir name.now) result }
{
    let place = tree.directory(dir).ok_or(Refusal::NoDirectory)?;
    let entry = tree.view.name_in(place, name).ok_or(Refusal::NoEntry)?;
    Ok(Step::Find(entry.id))
}

// A node made in a directory.
pub fn make<'a>(
    state: &State<'_>,
    kind: Kind,
    dir: u64,
    name: &'a [u8],
) -> Result<Step<'a>, Refusal>
    requires { good_name name.now ≡ true }
    ensures { (held : ℕ) → ToldByState state.now held (make_call kind dir name.now) result }
{
    let tree = &state.tree;
    let place = tree.directory(dir).ok_or(Refusal::NoDirectory)?;
    if tree.view.name_in(place, name).is_some() {
        return Err(Refusal::NameTaken);
    }
    if !state.room.has_room(&tree.view.used) {
        return Err(Refusal::NoRoom);
    }
    if !state.room.may_change() {
        return Err(Refusal::TooManyOlder);
    }
    Ok(Step::Make {
        kind,
        dir: place,
        name,
    })
}
