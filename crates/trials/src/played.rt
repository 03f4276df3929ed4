// Calls drawn on plain lists, and what these answer.
use crate::drawing::Drawing;
use crate::kinds::Kind;
use crate::plain::answer::Answer;
use crate::plain::lists::{Lists, Room};
use crate::plain::rows::Rows;
use crate::plan::Plan;
use runs::Call;
use std::alloc::{AllocError, Global};

#[derive(Drop)]
pub struct Played<R> {
    pub calls: Vec<Call>,
    pub answers: Vec<Answer<R>>,
    pub out: Vec<R>,
    pub lists: Lists,
}

// The calls that look at one version at the end: all its readings as a span and by their summary, a random span or summary, and a reading of each
// position or of one.
fn last_calls(
    heap: Global,
    drawing: &mut Drawing,
    lists: &Lists,
    version: u32,
) -> Result<Vec<Call>, AllocError> {
    let n = lists.list(version).map_or(0, |list| list.len());
    let n = u32::try_from(n).unwrap_or(u32::MAX);
    let mut calls = vec![in heap; drawing.whole(lists, version)]?;
    calls.push(Call::Summary {
        version,
        a: 0,
        b: n,
    })?;
    calls.push(drawing.question(lists, version))?;
    if drawing.plan.whole {
        for position in 0..n {
            calls.push(Call::Reading { version, position })?;
        }
    } else {
        calls.push(Call::Reading {
            version,
            position: drawing.draws.below(n),
        })?;
    }
    Ok(calls)
}

// Draws calls as the plan says, and answers them on plain lists over a store.
pub(crate) fn play<R: Kind>(
    heap: Global,
    mut drawing: Drawing,
    readings: &[R],
    store: Rows,
) -> Result<Played<R>, AllocError> {
    let plan = drawing.plan;
    let mut lists = Lists::begin(heap, plan.room, store)?;
    let mut calls = Vec::new(heap);
    let mut answers = Vec::new(heap);
    let mut out = vec![in heap; R::drawn(0); plan.out]?;
    for _ in 0..plan.calls {
        let call = drawing.call(&lists);
        answers.push(lists.answer(readings, call, &mut out)?)?;
        calls.push(call)?;
    }
    for version in 0..lists.count() {
        for call in last_calls(heap, &mut drawing, &lists, version)? {
            answers.push(lists.answer(readings, call, &mut out)?)?;
            calls.push(call)?;
        }
    }
    Ok(Played {
        calls,
        answers,
        out,
        lists,
    })
}

// Answers these calls on plain lists over a store, with no output.
pub(crate) fn play_these<R: Kind>(
    heap: Global,
    room: Room,
    readings: &[R],
    store: Rows,
    calls: Vec<Call>,
) -> Result<Played<R>, AllocError> {
    let mut lists = Lists::begin(heap, room, store)?;
    let mut answers = Vec::new(heap);
    for call in calls.iter() {
        answers.push(lists.answer(readings, *call, &mut [])?)?;
    }
    Ok(Played {
        calls,
        answers,
        out: Vec::new(heap),
        lists,
    })
}
