// What holds of the archive's tables, as the promise of a function that only carries it.
ghost use Rattle.archive.specs.Held.{NodesHold};
ghost use Rattle.archive.specs.Steps.{StepsStand};

use summary::Summary;

/// For every lawful summary: tables that stand for some edits, and of which one accepted edit more made what it owes, stand for these edits and
/// that one.
pub fn steps_stand<Q: Summary>()
    ensures { StepsStand Q.Summary.means }
{}

/// For every lawful summary: in tables that stand for some edits, every node of every version keeps the summary of the readings under it, how many they
/// are, and how many blocks.
pub fn nodes_hold<Q: Summary>()
    ensures { NodesHold Q.Summary.means }
{}
