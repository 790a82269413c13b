// Is a node another one itself, or in it at some depth?
ghost use Rattle.std.specs.Prelude.{◌≡◌};
ghost use Rattle.model.specs.Tree as model;
ghost use Rattle.model.specs.Refusals as refusals;
ghost use Rattle.lookup.specs.Views.{words, Sound};

use crate::tree::Tree;
use rows::entries::entry_id;

impl Tree<'_> {
    // Going down at most so many steps: passing over an entry is one, and so is going into it. The recursion goes no deeper than the
    // tree does.
    pub fn inside(&self, steps: usize, outer: u64, inner: u64) -> bool
        ensures { (l : refusals.Limits) (t : model.Tree) → Sound l (words self.now.view) t → result ≡ model.holds steps t outer inner }
    {
        if outer == inner {
            return true;
        }
        // kept: the answer is a bool, so that there is no directory is no error to hand on
        let Some(place) = self.directory(outer) else {
            return false;
        };
        // kept: the number of an entry also counts the steps that passing over those before it took
        for k in 0..place.count {
            if steps < k + 2 {
                return false;
            }
            let id = entry_id(self.view.entries, place.entries + k);
            if self.inside(steps - k - 2, id, inner) {
                return true;
            }
        }
        false
    }
}
