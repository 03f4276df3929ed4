// The law over runs, as the promise of a function that only carries it.
ghost use Rattle.runs.specs.Runs.{RunsLawful};

use store::BlockStore;
use summary::Summary;

/// For every store, pile, kind and lawful summary: any calls that do what their contracts say, each span with an output of its own, on an
/// archive that stands for a history, are a run from that history.
pub fn runs_lawful<S: BlockStore, Q: Summary<Reading = S::Reading>>()
    ensures { RunsLawful Q.Summary.means S.BlockStore }
{}
