// Tables that hold a tree.
ghost use Rattle.lookup.specs.Views.{words, AnyTree};

use crate::view::View;

// The tables of the newest tree: by some limits there is a tree that fits, and they hold it.
#[derive(Clone, Copy)]
pub struct Tree<'a> {
    pub view: View<'a>,
    pub ghost sound: { ∥ AnyTree (words view) ∥₁ },
}
