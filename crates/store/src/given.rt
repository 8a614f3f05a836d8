//! The forest of an import: one that is lent, or one that is not in memory any more once the import is decided.

ghost use Rattle.std.specs.Prelude.{◌≡◌, List};
ghost use Rattle.gedcom_tree.specs.Forest.{Item};

use gedcom_tree::Forest;

/// What a forest is taken from.
pub(crate) trait Given: Drop {
    ghost forest_of: { Self → List Item };

    /// The forest.
    fn forest(&self) -> &Forest
        ensures { result.now ≡ forest_of self.now };
}

impl Given for Forest {
    ghost forest_of = { λ forest. forest };

    fn forest(&self) -> &Forest {
        self
    }
}

impl Given for &Forest {
    ghost forest_of = { λ forest. forest.now };

    fn forest(&self) -> &Forest {
        self
    }
}
