//! Laws: in a tree that the tokens of a source spell the names are names, the texts can be printed, and no
//! declaration is a branch or the body of a loop.
#![tactic(auto)]

ghost use Rattle.source_trees.specs.Law.{SpelledTreesAreFromSource, SpelledTreesHavePlainBranches};

/// The names of a tree that is read from a source are spelled as names, and its texts can be printed.
/// It does nothing when it runs.
pub fn spelled_trees_are_from_source()
    ensures { SpelledTreesAreFromSource }
{}

/// No declaration in a tree that is read from a source is a branch or the body of a loop.
/// It does nothing when it runs.
pub fn spelled_trees_have_plain_branches()
    ensures { SpelledTreesHavePlainBranches }
{}
