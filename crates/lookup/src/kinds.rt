// What nodes are: whether one has entries, and whether two are of one kind.
ghost use Rattle.std.specs.Prelude.{◌≡◌, ◌&&◌, ◌||◌};
ghost use Rattle.model.specs.Tree as model;
ghost use Rattle.model.specs.Refusals as refusals;
ghost use Rattle.lookup.specs.Views.{words, Sound};

use crate::tree::Tree;

impl Tree<'_> {
    // Has a node entries?
    pub fn has_entries(&self, id: u64) -> bool
        ensures { (l : refusals.Limits) (t : model.Tree) → Sound l (words self.now.view) t →
            result ≡ model.some_of (model.entries (model.body_of t id)) }
    {
        self.directory(id).is_some_and(|place| place.count > 0)
    }

    // Are both directories, or both files?
    pub fn alike(&self, a: u64, b: u64) -> bool
        ensures { (l : refusals.Limits) (t : model.Tree) → Sound l (words self.now.view) t →
            result ≡ ((model.is_dir (model.body_of t a) && model.is_dir (model.body_of t b))
            || (model.is_file (model.body_of t a) && model.is_file (model.body_of t b))) }
    {
        self.place_of(a)
            .zip(self.place_of(b))
            .is_some_and(|(first, second)| first.kind == second.kind)
    }
}
