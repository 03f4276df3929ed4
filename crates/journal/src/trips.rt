// The two round trips of journals, as promises of functions that only carry them.
ghost use Rattle.journal.specs.Format.{coding};
ghost use Rattle.journal.specs.Writing.{ComesBack, LoadsBack};

use store::BlockStore;
use summary::Summary;

/// For every store and lawful summary: a journal that loads whole is the journal of the archive that it gives, so that, written, it comes back byte
/// for byte.
pub fn comes_back<S: BlockStore, Q: Summary<Reading = S::Reading>>()
    ensures { ComesBack Q.Summary.means S.BlockStore (coding S.Reading.Reading.own) }
{}

/// For every two stores and lawful summaries of one kind of reading: the journal of any archive in the one, loaded into an archive in the other
/// that has just begun, gives versions with the same rows and levels; that is, unless an edit is refused or the row area is too short.
pub fn loads_back<
    T: BlockStore,
    P: Summary<Reading = T::Reading>,
    S: BlockStore<Reading = T::Reading>,
    Q: Summary<Reading = T::Reading>,
>()
    ensures { LoadsBack (coding T.Reading.Reading.own) P.Summary.means T.BlockStore Q.Summary.means
        S.BlockStore }
{}
