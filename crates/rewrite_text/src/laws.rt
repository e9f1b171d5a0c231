//! The laws of the tree that a plan makes, over the definitions alone. Each is what its function ensures, so the build proves it.

ghost use Rattle.rewrite_text.specs.Laws.{MadeExists, MadeOnce, MadePasses};

/// Where a plan holds it makes a tree.
pub fn made_exists()
    ensures { MadeExists }
{}

/// It makes one tree at most.
pub fn made_once()
    ensures { MadeOnce }
{}

/// The tree that a plan makes passes, and the database has its blocks.
pub fn made_passes()
    ensures { MadePasses }
{}
