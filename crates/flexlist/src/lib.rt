//! The FlexList as mathematics: which tree the blocks of a version make by their levels, and which of its nodes another version has too.
//! Each function here carries one theorem about that and costs nothing to call.
#![tactic(auto)]

ghost use Rattle.flexlist.specs.Shape.{ExactlyOne};
ghost use Rattle.flexlist.specs.Nodes.{OwnStretches, PlacesAndPaths, SamePath, PathsHaveNodes};
ghost use Rattle.flexlist.specs.Sharing.{InsertBound, ChangeBound, RemovalBound};
ghost use Rattle.flexlist.specs.Building.{InsertBuilds, ChangeBuilds, RemovalBuilds};
ghost use Rattle.flexlist.specs.Folding.{Folding};
ghost use Rattle.flexlist.specs.Values.{ShapeValues};
ghost use Rattle.flexlist.specs.Shared.{LayingShares};
ghost use Rattle.flexlist.specs.Chains.{ChainsReplayed};
ghost use Rattle.flexlist.specs.Edits.{HistoriesSound};
ghost use Rattle.flexlist.specs.Replay.{EditsBounded};

/// Every stretch has exactly one FlexList, whatever the levels.
pub fn exactly_one()
    ensures { ExactlyOne }
{}

/// Each node has a stretch of its own.
pub fn own_stretches()
    ensures { OwnStretches }
{}

/// Places and paths are one to one.
pub fn places_and_paths()
    ensures { PlacesAndPaths }
{}

/// Looking for a block and counting up to it lead down one path.
pub fn same_path()
    ensures { SamePath }
{}

/// The nodes of a path are those that have its block, the nodes of two paths those that have one or the other.
pub fn paths_have_nodes()
    ensures { PathsHaveNodes }
{}

/// An insert writes at most two nodes more than its path has.
pub fn insert_bound()
    ensures { InsertBound }
{}

/// A change writes as many as its path has.
pub fn change_bound()
    ensures { ChangeBound }
{}

/// A removal writes fewer than its two paths have between them.
pub fn removal_bound()
    ensures { RemovalBound }
{}

/// What a sharing insert builds: the FlexList of the edited list, from exactly the nodes that the sharing rule has it write.
pub fn insert_builds()
    ensures { InsertBuilds }
{}

/// The same of a change.
pub fn change_builds()
    ensures { ChangeBuilds }
{}

/// The same of a removal.
pub fn removal_builds()
    ensures { RemovalBuilds }
{}

/// No grouping changes a summary.
pub fn fold_along<S>()
    ensures { Folding S }
{}

/// Worked values of the rules.
pub fn shape_values()
    ensures { ShapeValues }
{}

/// A plan that keeps pieces of the base and makes only what the base lacks is laid by the sharing rule.
pub fn laying_shares()
    ensures { LayingShares }
{}

/// After any history there is one version more than edits, and in each version every block has an identity of its own that holds its row.
pub fn histories_sound<R>()
    ensures { HistoriesSound R }
{}

/// What an edit writes, against the paths that it takes, after any history.
pub fn edits_bounded<R>()
    ensures { EditsBounded R }
{}

/// Who does the edits of a version's chain anew, on the empty version and one after another, gets the version's list.
pub fn chains_replayed<R>()
    ensures { ChainsReplayed R }
{}
