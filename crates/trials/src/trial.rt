// One trial: the same calls to plain lists, and to the archive by the call that carries out a list of calls from begin on.
use crate::comparing::{agrees, blocks_differ, free_differ, out_differs, records_differ};
use crate::drawing::{Drawing, HALF};
use crate::draws::Draws;
use crate::kinds::Kind;
use crate::line::Line;
use crate::plain::lists::Room;
use crate::plain::rows::Rows;
use crate::plan::Plan;
use crate::played::{Played, play, play_these};
use crate::scale::{Cost, costs, scale_calls};
use crate::scans::Scan;
use archive::{EditFault, Kind as Edit, Version};
use nodes::{Node, Shape};
use reading::Count;
use runs::{Reply, carry_out};
use std::alloc::{AllocError, Global};
use store::{BlockStore, Cause, RowStore};
use summary::{Peak, Summary};

// What free entries hold before an archive begins: nothing that an archive writes.
fn free_node<Q: Summary>() -> Node<Q> {
    Node {
        shape: Shape::Fork {
            level: 99,
            below: 77,
            after: 88,
        },
        readings: 66,
        blocks: 55,
        ..Node::lead()
    }
}

fn free_record() -> Version {
    Version {
        parent: 91,
        edit: Edit::Begun,
        place: 92,
        level: 93,
        block: 94,
        root: 95,
        blocks: 96,
        readings: 97,
        written: 98,
    }
}

// No call of these trials is answered so.
fn free_reply<R, Q>() -> Reply<R, Q> {
    Reply::Edited(Err(EditFault::Store(Cause::Other(77))))
}

// The readings beside the calls: the second half repeats the first, but for one reading in sixty-four.
fn pool<R: Kind>(heap: Global, draws: &mut Draws) -> Result<Vec<R>, AllocError> {
    let mut first = Vec::new(heap);
    for _ in 0..HALF {
        first.push(R::drawn(draws.next()))?;
    }
    let mut all = first.clone()?;
    for reading in first.iter() {
        if draws.once_in(64) {
            all.push(R::drawn(draws.next()))?;
        } else {
            all.push(*reading)?;
        }
    }
    Ok(all)
}

// Carries out the calls that were played on plain lists, and counts what differs.
fn differences<S: BlockStore<Reading = R>, R: Kind, Q: Scan<Reading = R> + PartialEq>(
    heap: Global,
    room: Room,
    readings: &[R],
    played: &Played<R>,
    store: &mut S,
) -> Result<u32, AllocError> {
    let lists = &played.lists;
    let mut nodes = vec![in heap; free_node::<Q>(); room.nodes]?;
    let mut versions = vec![in heap; free_record(); room.versions]?;
    let mut out = vec![in heap; R::drawn(0); played.out.len()]?;
    let mut replies = vec![in heap; free_reply::<R, Q>(); played.calls.len().saturating_add(2)]?;
    let ran = carry_out(
        &mut nodes,
        &mut versions,
        store,
        readings,
        &played.calls,
        &mut out,
        &mut replies,
    );
    let mut so_many = 0u32;
    for (reply, answer) in replies.iter().zip(played.answers.iter()) {
        if !agrees(lists, readings, reply, answer)? {
            so_many = so_many.saturating_add(1);
        }
    }
    let counts = [
        u32::from(ran.done != played.calls.len()),
        u32::from(ran.used as usize != lists.used),
        u32::from(ran.count != lists.count()),
        free_differ(&replies, played.calls.len(), &free_reply()),
        free_differ(&nodes, lists.used, &free_node()),
        free_differ(&versions, lists.versions.len(), &free_record()),
        records_differ(lists, &versions),
        blocks_differ(lists, readings, store),
        out_differs(played, &out),
    ];
    Ok(counts.iter().fold(so_many, |sum, n| sum.saturating_add(*n)))
}

// What a trial is made of.
#[derive(Drop)]
pub struct Trial<R> {
    pub heap: Global,
    pub drawing: Drawing,
    pub readings: Vec<R>,
}

impl<R: Kind> Trial<R> {
    pub(crate) fn new(heap: Global, plan: Plan) -> Result<Trial<R>, AllocError> {
        let mut draws = Draws::from_seed(plan.seed);
        let readings = pool::<R>(heap, &mut draws)?;
        let drawing = Drawing { draws, plan, to: 0 };
        Ok(Trial {
            heap,
            drawing,
            readings,
        })
    }

    // Puts the rows that are to stand there before an archive begins, and answers these lists.
    pub(crate) fn fill<S: BlockStore<Reading = R>>(
        &self,
        mut plain: Rows,
        store: &mut S,
    ) -> Result<Rows, AllocError> {
        for k in 0..self.drawing.plan.before {
            let row = self.drawing.before(k);
            let _ = plain.put(&self.readings, row)?;
            let _ = store.put(row.of(&self.readings));
        }
        Ok(plain)
    }

    // A line with the trial over one store added, whose rows stand in plain lists too.
    pub(crate) fn run<S: BlockStore<Reading = R> + Drop, Q: Scan<Reading = R> + PartialEq>(
        &self,
        mut line: Line,
        plain: Rows,
        mut store: S,
    ) -> Result<Line, AllocError> {
        let readings = self.readings.as_slice();
        let played = play(self.heap, self.drawing, readings, plain)?;
        for (call, answer) in played.calls.iter().zip(played.answers.iter()) {
            line.count(*call, answer);
        }
        let room = self.drawing.plan.room;
        let so_many = differences::<S, R, Q>(self.heap, room, readings, &played, &mut store)?;
        line.differ(so_many);
        Ok(line)
    }
}

// What versions of three sizes cost, over a row store of counts; answers the costs, and how many differences there were.
pub(crate) fn scale(heap: Global, drawn: bool) -> Result<(Vec<Cost>, u32), AllocError> {
    let room = Room {
        nodes: 60_000,
        versions: 600,
    };
    let readings = pool::<Count>(heap, &mut Draws::from_seed(1))?;
    let calls = scale_calls(heap, drawn)?;
    let rows = Rows::begin(heap, 600, 1);
    let played = play_these(heap, room, &readings, rows, calls)?;
    let mut area = vec![in heap; Count { value: 0 }; 600]?;
    let mut store = RowStore::new(&mut area);
    let so_many = differences::<RowStore<Count>, Count, Peak<Count>>(
        heap, room, &readings, &played, &mut store,
    )?;
    Ok((costs(heap, &played)?, so_many))
}
