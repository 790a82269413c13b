// A call checked: why it is refused, or the step that is to be done.
ghost use Rattle.std.specs.Prelude.{◌≡◌, ◌≤◌, true};
ghost use Rattle.model.specs.Tree as model;
ghost use Rattle.model.specs.Calls.{good_name, good_fields};
ghost use Rattle.calls.specs.Meaning.{call_of};
ghost use Rattle.lookup.specs.Views.{words, Sound, SomeTree};
ghost use Rattle.steps.specs.Stages.{limits_of, stage_calls};
ghost use Rattle.steps.specs.Steps.{ToldByState, TellsAll};

use calls::kind::Kind as CallKind;
use calls::{Call, Refusal};
use check_files::files::{list, read, resize, size, sync_file, write};
use check_names::makes::{find, make};
use check_names::renames::{remove, rename};
use rows::nodes::Kind;
use steps::stage::Stage;
use steps::state::State;
use steps::step::Step;

// Can the call with a number be done? No stage says no to a number that no call has: bytes with it are told before.
// kept: any number, as callers may give one; `Stage::can` is for those who have a kind
pub fn can(stage: Stage, number: u8) -> bool
    ensures { result ≡ stage_calls stage number }
{
    match CallKind::try_from(number) {
        Ok(kind) => stage.can(kind),
        Err(_) => true,
    }
}

// Has a name 1 to 64 bytes?
pub fn named_well(name: &[u8]) -> bool
    ensures { result ≡ good_name name.now }
{
    !name.is_empty() && name.len() <= 64
}

// Are the fields of a call in range?
#[tactic(auto, unfolding(model::specs::Calls::good_fields))]
pub fn in_range(call: Call<'_>) -> bool
    ensures { result ≡ good_fields (call_of call.entry) }
{
    match call {
        Call::Find(_, name)
        | Call::MakeFile(_, name)
        | Call::MakeDir(_, name)
        | Call::Remove(_, name) => named_well(name),
        Call::Rename(_, old, _, name) => named_well(old) && named_well(name),
        Call::Write(_, _, block) => block.len() == 4096,
        Call::Resize(_, places) => places <= 65536,
        Call::List(_, _)
        | Call::Size(_)
        | Call::Read(_, _)
        | Call::SyncFile(_)
        | Call::SyncTree
        | Call::Garbled(_) => true,
    }
}

// A call whose fields are in range, by the tables.
#[tactic(auto, unfolding(model::specs::Calls::good_fields, model::specs::Refusals::refusal_by))]
pub fn ask<'a>(state: &State<'_>, call: Call<'a>) -> Result<Step<'a>, Refusal>
    requires few { state.now.tree.view.used.nodes ≤ 4096 }
    requires fields { good_fields (call_of call) ≡ true }
    ensures { ToldByState state.now state.now.room.held (call_of call.entry) result }
{
    let tree = &state.tree;
    match call {
        Call::Find(dir, name) => find(tree, dir, name),
        Call::MakeFile(dir, name) => make(state, Kind::File, dir, name),
        Call::MakeDir(dir, name) => make(state, Kind::Dir, dir, name),
        Call::Remove(dir, name) => remove(state, dir, name),
        Call::Rename(from, old, to, name) => rename(state, from, old, to, name),
        Call::List(dir, index) => list(tree, dir, index),
        Call::Size(id) => size(tree, id),
        Call::Read(id, at) => read(tree, id, at),
        Call::Write(id, at, block) => write(tree, id, at, block),
        Call::Resize(id, places) => resize(state, id, places),
        Call::SyncFile(id) => sync_file(tree, id),
        Call::SyncTree => Ok(Step::SyncTree),
        Call::Garbled(_) => Err(Refusal::NoCall),
    }
}

// Any call: why it is refused, or the step.
pub fn check<'a>(state: &State<'_>, stage: Stage, call: Call<'a>) -> Result<Step<'a>, Refusal>
    requires tree { SomeTree (limits_of stage state.now.room.limits) (words state.now.tree.view) }
    requires few { state.now.room.limits.nodes ≤ 4096 }
    ensures { (t : model.Tree) → Sound (limits_of stage state.now.room.limits) (words state.now.tree.view) t →
        TellsAll (limits_of stage state.now.room.limits) (words state.now.tree.view) t state.now.room.older
        state.now.room.held (call_of call.entry) result }
{
    let kind = call.kind().ok_or(Refusal::NoCall)?;
    if !stage.can(kind) || !in_range(call) {
        return Err(Refusal::OutOfRange);
    }
    ask(state, call)
}
