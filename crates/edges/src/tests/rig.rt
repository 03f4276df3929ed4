// What runs a table of calls, and compares the archive with plain lists.
use super::free::{free_node, free_record};
use super::outcome::Outcome;
use super::plain::{Edit, Lists, Part};
use archive::{NodeTable, Version};
use nodes::Node;
use runs::Call;
use std::alloc::{AllocError, Global};
use std::fmt::Debug;
use std::process::Abort;
use std::test::Fail;
use store::BlockStore;
use summary::{Summary, summary_of};

// How many readings the output of a table's spans has; a span goes to its end.
pub const OUTPUT: usize = 1100;

// How long the tables are.
#[derive(Clone, Copy)]
pub struct Size {
    pub nodes: usize,
    pub versions: usize,
}

// How many nodes, versions and blocks are in use.
#[derive(Clone, Copy, PartialEq, Eq, Debug)]
pub struct Ends {
    pub nodes: u32,
    pub versions: u32,
    pub blocks: u32,
}

// The tables that an archive is begun in.
#[derive(Drop)]
pub struct Tables<Q> {
    pub nodes: Vec<Node<Q>>,
    pub versions: Vec<Version>,
}

impl<Q: Summary> Tables<Q> {
    pub(super) fn free(heap: Global, size: Size) -> Result<Tables<Q>, AllocError> {
        let nodes = vec![in heap; free_node(); size.nodes]?;
        let versions = vec![in heap; free_record(); size.versions]?;
        Ok(Tables { nodes, versions })
    }
}

// An archive under test, and the readings that calls name their rows in.
#[derive(Drop)]
pub struct Rig<'a, S: BlockStore, Q> {
    heap: Global,
    table: NodeTable<'a, Q>,
    versions: &'a mut [Version],
    store: &'a mut S,
    readings: &'a [S::Reading],
    // What an output is full of before a span.
    mark: S::Reading,
}

impl<'a, S: BlockStore, Q: Summary<Reading = S::Reading> + PartialEq + Debug> Rig<'a, S, Q> {
    // The two vectors come apart: the check does not lend two fields of a struct behind one reference at once.
    pub(super) fn begin(
        heap: Global,
        nodes: &'a mut [Node<Q>],
        versions: &'a mut [Version],
        store: &'a mut S,
        readings: &'a [S::Reading],
    ) -> Result<Rig<'a, S, Q>, Fail> {
        let mark = *readings.first().ok_or("no readings")?;
        let table = NodeTable::begin(nodes, versions);
        Ok(Rig {
            heap,
            table,
            versions,
            store,
            readings,
            mark,
        })
    }
}

impl<S: BlockStore, Q: Summary<Reading = S::Reading> + PartialEq + Debug> Rig<'_, S, Q> {
    pub(super) fn ends(&self) -> Ends {
        Ends {
            nodes: self.table.used(),
            versions: self.table.count(),
            blocks: self.store.count(),
        }
    }

    // A span: what is answered, with every entry of the output that is not written still a mark.
    fn span(
        &self,
        rt: &impl Abort,
        version: u32,
        a: u32,
        b: u32,
        out: &mut [S::Reading],
    ) -> Outcome {
        let answer = self
            .table
            .span(self.versions, self.store, version, a, b, out);
        for x in out.iter().skip(answer.unwrap_or(0) as usize) {
            assert!(rt; *x == self.mark);
        }
        answer.into()
    }

    fn insert(&mut self, base: u32, place: u32, level: u8, row: Part) -> Outcome {
        let row = row.of(self.readings);
        self.table
            .insert(self.versions, self.store, base, place, level, row)
            .into()
    }

    fn append(&mut self, base: u32, row: Part) -> Outcome {
        let row = row.of(self.readings);
        self.table
            .append(self.versions, self.store, base, row)
            .into()
    }

    fn change(&mut self, base: u32, place: u32, row: Part) -> Outcome {
        let row = row.of(self.readings);
        self.table
            .change(self.versions, self.store, base, place, row)
            .into()
    }

    fn remove(&mut self, base: u32, place: u32) -> Outcome {
        self.table
            .remove(self.versions, self.store, base, place)
            .into()
    }

    fn reading(&self, version: u32, position: u32) -> Outcome {
        self.table
            .reading(self.versions, self.store, version, position)
            .map(|answer| answer.path)
            .into()
    }

    fn summary(&self, version: u32, a: u32, b: u32) -> Outcome {
        self.table
            .summary(self.versions, self.store, version, a, b)
            .map(|_| 0)
            .into()
    }

    fn carry(&mut self, rt: &impl Abort, call: Call) -> Result<Outcome, AllocError> {
        Ok(match call {
            Call::Insert {
                base,
                place,
                level,
                from,
                len,
            } => self.insert(base, place, level, Part { from, len }),
            Call::Append { base, from, len } => self.append(base, Part { from, len }),
            Call::Change {
                base,
                place,
                from,
                len,
            } => self.change(base, place, Part { from, len }),
            Call::Remove { base, place } => self.remove(base, place),
            Call::Reading { version, position } => self.reading(version, position),
            Call::Span { version, a, b, to } => {
                let mut out = vec![in self.heap; self.mark; OUTPUT.saturating_sub(to)]?;
                self.span(rt, version, a, b, &mut out)
            }
            Call::Summary { version, a, b } => self.summary(version, a, b),
        })
    }

    // A call, answered as wanted; a failure tells which call it is.
    pub(super) fn answers(
        &mut self,
        rt: &impl Abort,
        call: Call,
        wanted: Outcome,
        at: usize,
    ) -> Result<Outcome, AllocError> {
        let answer = self.carry(rt, call)?;
        assert_eq!(rt; answer.as_far_as(wanted), wanted, "{at}");
        Ok(answer)
    }

    fn record(&self, version: u32) -> Result<Version, Fail> {
        let record = self.versions.get(version as usize).ok_or("no record")?;
        Ok(*record)
    }

    // The new version's record says what the edit was; its block is the row's, or 0.
    fn noted(
        &self,
        rt: &impl Abort,
        edit: Edit,
        version: u32,
        written: Option<u32>,
        at: usize,
    ) -> Result<(), Fail> {
        let record = self.record(version)?;
        let wanted = Version {
            parent: edit.base,
            edit: edit.kind,
            place: edit.place,
            level: edit.level,
            ..record
        };
        assert_eq!(rt; record, wanted, "{at}");
        assert_eq!(rt; Some(record.written), written, "{at}");
        match edit.row {
            None => assert_eq!(rt; record.block, 0, "{at}"),
            Some(row) => {
                let len = self.store.block_len(record.block).unwrap_or(0);
                assert_eq!(rt; len as usize, row.len, "{at}");
            }
        }
        Ok(())
    }

    // A version's readings, one by one, against its list.
    fn readings_agree(
        &self,
        rt: &impl Abort,
        version: u32,
        n: u32,
        list: &[S::Reading],
    ) -> Result<(), Fail> {
        for (position, x) in (0..n).zip(list) {
            let answer = self
                .table
                .reading(self.versions, self.store, version, position)?;
            assert!(rt; answer.reading == *x, "{version}: {position}");
        }
        Ok(())
    }

    // The span over a whole version against its list; the output is as long.
    fn span_agrees(
        &self,
        rt: &impl Abort,
        version: u32,
        n: u32,
        list: &[S::Reading],
    ) -> Result<(), Fail> {
        let mut out = vec![in self.heap; self.mark; list.len()]?;
        assert_eq!(rt; self.span(rt, version, 0, n, &mut out), Outcome::Told(n));
        assert!(rt; out.as_slice() == list);
        Ok(())
    }

    // The summary of one stretch against its list.
    fn sum_agrees(
        &self,
        rt: &impl Abort,
        version: u32,
        a: u32,
        b: u32,
        list: &[S::Reading],
    ) -> Result<(), Fail> {
        let sum = self
            .table
            .summary(self.versions, self.store, version, a, b)?;
        let stretch = list.get(a as usize..b as usize).ok_or("no such stretch")?;
        assert_eq!(rt; sum, summary_of(stretch));
        Ok(())
    }

    // A version against its list: every reading, the span over all, and the summary of every stretch whose ends are multiples of `step`.
    pub(super) fn agree(
        &self,
        rt: &impl Abort,
        version: u32,
        list: &[S::Reading],
        step: u32,
    ) -> Result<(), Fail> {
        let n = u32::try_from(list.len()).ok().ok_or("a long list")?;
        self.readings_agree(rt, version, n, list)?;
        self.span_agrees(rt, version, n, list)?;
        let ends = n.checked_div(step).ok_or("no step")?;
        for a in 0..=ends {
            for b in a..=ends {
                self.sum_agrees(rt, version, a * step, b * step, list)?;
            }
        }
        Ok(())
    }

    // A version's record and all that it answers, against its list.
    fn holds(&self, rt: &impl Abort, lists: &Lists, version: u32) -> Result<(), Fail> {
        let list = lists.readings(version, self.readings)?;
        let step = if list.len() > 100 { 64 } else { 1 };
        self.agree(rt, version, &list, step)?;
        let record = self.record(version)?;
        assert_eq!(rt; record.blocks, lists.count(version), "{version}");
        assert_eq!(rt; record.readings as usize, list.len(), "{version}");
        Ok(())
    }

    // One call of a table: its answer as wanted, and the new version's record.
    fn step(
        &mut self,
        rt: &impl Abort,
        lists: &mut Lists,
        call: Call,
        wanted: Outcome,
        at: usize,
    ) -> Result<(), Fail> {
        let answer = self.answers(rt, call, wanted, at)?;
        if let (Outcome::Accepted(version, written), Some(edit)) = (answer, lists.edit(call)) {
            self.noted(rt, edit, version, written, at)?;
            lists.follow(edit)?;
        }
        Ok(())
    }

    // Runs the calls, and then holds every version to its list.
    fn play(&mut self, rt: &impl Abort, calls: &[(Call, Outcome)]) -> Result<Ends, Fail> {
        let mut lists = Lists::begin(self.heap)?;
        for (at, (call, wanted)) in calls.iter().enumerate() {
            self.step(rt, &mut lists, *call, *wanted, at)?;
        }
        let ends = self.ends();
        for version in 0..ends.versions {
            self.holds(rt, &lists, version)?;
        }
        Ok(ends)
    }
}

// The same entries, of which those not in use are as they were found.
fn same<T: Copy + PartialEq + Debug>(
    rt: &impl Abort,
    entries: &[T],
    others: &[T],
    used: u32,
    free: T,
) {
    assert_eq!(rt; entries, others);
    for entry in entries.iter().skip(used as usize) {
        assert_eq!(rt; *entry, free);
    }
}

// The calls on one archive, and the accepted ones alone on another: both end alike, and the free entries of the tables are as they were
// found. Answers how many nodes, versions and blocks are in use then.
pub(super) fn trial<S: BlockStore + Drop, Q: Summary<Reading = S::Reading> + PartialEq + Debug>(
    rt: &impl Abort,
    heap: Global,
    mut one: S,
    mut two: S,
    size: Size,
    readings: &[S::Reading],
    calls: &[(Call, Outcome)],
) -> Result<Ends, Fail> {
    let accepted: Vec<(Call, Outcome)> = calls
        .iter()
        .copied()
        .filter(|(_, wanted)| !matches!(wanted, Outcome::Refused(_, _)))
        .collect(heap)?;
    let mut tables = Tables::<Q>::free(heap, size)?;
    let mut others = Tables::<Q>::free(heap, size)?;
    let ends = Rig::begin(
        heap,
        &mut tables.nodes,
        &mut tables.versions,
        &mut one,
        readings,
    )?
    .play(rt, calls)?;
    let second = Rig::begin(
        heap,
        &mut others.nodes,
        &mut others.versions,
        &mut two,
        readings,
    )?
    .play(rt, &accepted)?;
    assert_eq!(rt; ends, second);
    same(rt, &tables.nodes, &others.nodes, ends.nodes, free_node());
    same(
        rt,
        &tables.versions,
        &others.versions,
        ends.versions,
        free_record(),
    );
    Ok(ends)
}
