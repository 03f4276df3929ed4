// The calls of an archive. Versions and store come with each call, by the project's rule; the nodes are the table's. An edit takes time in proportion to
// its path, and to its row.
ghost use Rattle.std.specs.Prelude.{◌≡◌, ◌-◌, None, length};
ghost use Rattle.archive.specs.Beginning.{Begin};
ghost use Rattle.archive.specs.Asking.{answer_by, position_refusal, stretch_refusal, output_refusal, ReadingEnds, SummaryEnds, SpanLeft};
ghost use Rattle.archive.specs.Looking.{in_use};
ghost use Rattle.archive.specs.Calling.{archive_of, EditKept, EditLaw, ReadingTold, SpanTold, SummaryTold};
ghost use Rattle.archive.specs.Calling as asked;

use super::{Accepted, NodeTable};
use crate::ask::{reading_in, span_in, summary_in};
use crate::begin::begin_in;
use crate::change::change_in;
use crate::fault::{EditFault, ReadFault};
use crate::insert::insert_in;
use crate::look::version_at;
use crate::removal::removal_in;
use crate::version::Version;
use nodes::Node;
use questions::Answer;
use store::BlockStore;
use summary::Summary;

impl<'a, Q: Summary> NodeTable<'a, Q> {
    /// Begins an archive in the caller's tables: node 0 is the lead's leaf, version 0 the empty list. In tables of which one has no entry, nothing can be
    /// kept: they stay as they are, and the archive has no version. No store is touched; it may hold rows already.
    pub fn begin(nodes: &'a mut [Node<Q>], versions: &mut [Version]) -> NodeTable<'a, Q>
        ensures begun { Begin Q.Summary.means nodes.old versions.old
            (record { used = result.used; count = result.count }) result.nodes.now
            versions.new }
        ensures same_slice { result.nodes.ghost_name ≡ nodes.entry.ghost_name }
    {
        let begun = begin_in(nodes, versions);
        NodeTable {
            nodes,
            used: begun.used,
            count: begun.count,
        }
    }
}

impl<Q: Summary> NodeTable<'_, Q> {
    /// How many nodes are in use.
    pub fn used(&self) -> u32
        ensures { result ≡ self.now.used }
    {
        self.used
    }

    /// How many versions there are.
    pub fn count(&self) -> u32
        ensures { result ≡ self.now.count }
    {
        self.count
    }

    /// Puts a row in at a place of a version, which gives a further version.
    pub fn insert<S: BlockStore<Reading = Q::Reading>>(
        &mut self,
        versions: &mut [Version],
        store: &mut S,
        base: u32,
        place: u32,
        level: u8,
        row: &[S::Reading],
    ) -> Result<Accepted, EditFault>
        ensures kept { EditKept Q.Summary.means S.BlockStore
            (archive_of self.old versions.old store.old)
            (asked.Asked.insert base place level row.now) result
            (archive_of self.new versions.new store.new) }
        ensures law { EditLaw Q.Summary.means S.BlockStore
            (archive_of self.old versions.old store.old)
            (asked.Asked.insert base place level row.now) result
            (archive_of self.new versions.new store.new) }
        ensures same_slice { self.new.nodes.ghost_name ≡ self.old.nodes.ghost_name }
    {
        let used = self.used;
        let count = self.count;
        if count <= base {
            return Err(EditFault::Version);
        }
        let built = insert_in(
            self.nodes, used, versions, count, store, base, place, level, row,
        )?;
        Ok(self.take_in(built))
    }

    /// Puts a row in behind the last block, at level 0.
    pub fn append<S: BlockStore<Reading = Q::Reading>>(
        &mut self,
        versions: &mut [Version],
        store: &mut S,
        base: u32,
        row: &[S::Reading],
    ) -> Result<Accepted, EditFault>
        ensures kept { EditKept Q.Summary.means S.BlockStore
            (archive_of self.old versions.old store.old) (asked.Asked.append base row.now) result
            (archive_of self.new versions.new store.new) }
        ensures law { EditLaw Q.Summary.means S.BlockStore
            (archive_of self.old versions.old store.old) (asked.Asked.append base row.now) result
            (archive_of self.new versions.new store.new) }
        ensures same_slice { self.new.nodes.ghost_name ≡ self.old.nodes.ghost_name }
    {
        let from = version_at(versions, self.count, base).ok_or(EditFault::Version)?;
        self.insert(versions, store, base, from.blocks, 0, row)
    }

    /// Gives the block at a place another row; its level stays.
    pub fn change<S: BlockStore<Reading = Q::Reading>>(
        &mut self,
        versions: &mut [Version],
        store: &mut S,
        base: u32,
        place: u32,
        row: &[S::Reading],
    ) -> Result<Accepted, EditFault>
        ensures kept { EditKept Q.Summary.means S.BlockStore
            (archive_of self.old versions.old store.old) (asked.Asked.change base place row.now)
            result (archive_of self.new versions.new store.new) }
        ensures law { EditLaw Q.Summary.means S.BlockStore
            (archive_of self.old versions.old store.old) (asked.Asked.change base place row.now)
            result (archive_of self.new versions.new store.new) }
        ensures same_slice { self.new.nodes.ghost_name ≡ self.old.nodes.ghost_name }
    {
        let used = self.used;
        let count = self.count;
        if count <= base {
            return Err(EditFault::Version);
        }
        let built = change_in(self.nodes, used, versions, count, store, base, place, row)?;
        Ok(self.take_in(built))
    }

    /// Takes the block at a place out. The store is only read.
    pub fn remove<S: BlockStore<Reading = Q::Reading>>(
        &mut self,
        versions: &mut [Version],
        store: &S,
        base: u32,
        place: u32,
    ) -> Result<Accepted, EditFault>
        ensures kept { EditKept Q.Summary.means S.BlockStore
            (archive_of self.old versions.old store.now) (asked.Asked.removal base place) result
            (archive_of self.new versions.new store.now) }
        ensures law { EditLaw Q.Summary.means S.BlockStore
            (archive_of self.old versions.old store.now) (asked.Asked.removal base place) result
            (archive_of self.new versions.new store.now) }
        ensures same_slice { self.new.nodes.ghost_name ≡ self.old.nodes.ghost_name }
    {
        let used = self.used;
        let count = self.count;
        if count <= base {
            return Err(EditFault::Version);
        }
        let built = removal_in(self.nodes, used, versions, count, store, base, place)?;
        Ok(self.take_in(built))
    }

    /// What was read at a position of a version, and how many nodes lead to the block that has it.
    pub fn reading<S: BlockStore<Reading = Q::Reading>>(
        &self,
        versions: &[Version],
        store: &S,
        version: u32,
        position: u32,
    ) -> Result<Answer<S::Reading>, ReadFault>
        ensures ends { ReadingEnds
            (position_refusal position (in_use versions.now self.now.count version)) result }
        ensures law { ReadingTold Q.Summary.means S.BlockStore
            (archive_of self.now versions.now store.now) version position result }
    {
        reading_in(self.lent(), versions, self.count, store, version, position)
    }

    /// Copies what a version has from position a on, up to b and without it, to the output's start, and answers how many readings that are. Further places
    /// of the output keep what they had.
    pub fn span<S: BlockStore<Reading = Q::Reading>>(
        &self,
        versions: &[Version],
        store: &S,
        version: u32,
        a: u32,
        b: u32,
        out: &mut [S::Reading],
    ) -> Result<u32, ReadFault>
        ensures ends { let short = output_refusal a b (length out.old) in
            result ≡ answer_by
            (stretch_refusal a b (in_use versions.now self.now.count version) short) (b - a) }
        ensures left { SpanLeft a b out.old result out.new }
        ensures law { SpanTold Q.Summary.means S.BlockStore
            (archive_of self.now versions.now store.now) version a b out.old result out.new }
    {
        span_in(self.lent(), versions, self.count, store, version, a, b, out)
    }

    /// The summary of the readings a to b − 1 of a version.
    pub fn summary<S: BlockStore<Reading = Q::Reading>>(
        &self,
        versions: &[Version],
        store: &S,
        version: u32,
        a: u32,
        b: u32,
    ) -> Result<Q, ReadFault>
        ensures ends { SummaryEnds
            (stretch_refusal a b (in_use versions.now self.now.count version) None) result }
        ensures law { SummaryTold Q.Summary.means S.BlockStore
            (archive_of self.now versions.now store.now) version a b result }
    {
        summary_in(self.lent(), versions, self.count, store, version, a, b)
    }
}
