// What a version of 10, 100 and 500 blocks costs: with levels all 0, and with levels drawn by trailing zero bits.
use crate::draws::Draws;
use crate::plain::answer::Answer;
use crate::played::Played;
use runs::Call;
use std::alloc::{AllocError, Global};
use std::fmt;

// The counts of blocks that are looked at, and at how many places an edit is tried.
const BLOCKS: [u32; 3] = [10, 100, 500];

const PLACES: u32 = 10;

// The calls that make versions of 1 to 500 blocks, each by an insert before the first block, and then look at three of them: a reading of each block,
// and edits at ten places. The inserts that are tried give the version its count of blocks.
pub(crate) fn scale_calls(heap: Global, drawn: bool) -> Result<Vec<Call>, AllocError> {
    let mut draws = Draws::from_seed(500);
    let mut calls = Vec::new(heap);
    for base in 0..500u32 {
        calls.push(Call::Insert {
            base,
            place: 0,
            level: if drawn { draws.level() } else { 0 },
            from: base as usize,
            len: 1,
        })?;
    }
    for blocks in BLOCKS {
        for position in 0..blocks {
            calls.push(Call::Reading {
                version: blocks,
                position,
            })?;
        }
        for k in 0..PLACES {
            let place = (k * 2 + 1).saturating_mul(blocks) / (PLACES * 2);
            calls.push(Call::Insert {
                base: blocks.saturating_sub(1),
                place,
                level: if drawn { draws.level() } else { 0 },
                from: k as usize,
                len: 1,
            })?;
            calls.push(Call::Change {
                base: blocks,
                place,
                from: k as usize,
                len: 1,
            })?;
            calls.push(Call::Remove {
                base: blocks,
                place,
            })?;
        }
    }
    Ok(calls)
}

// A sum of so many numbers, which prints as their mean to one tenth.
#[derive(Clone, Copy)]
struct Mean {
    sum: usize,
    count: usize,
}

impl Mean {
    fn add(&mut self, n: usize) {
        self.sum = self.sum.saturating_add(n);
        self.count = self.count.saturating_add(1);
    }
}

impl fmt::Display for Mean {
    fn fmt<W: fmt::Write>(&self, f: &mut fmt::Formatter<W>) -> fmt::Result {
        let half = self.count / 2;
        let tenths = self
            .sum
            .saturating_mul(10)
            .saturating_add(half)
            .checked_div(self.count)
            .unwrap_or(0);
        write!(f, "{}.{}", tenths / 10, tenths % 10)
    }
}

// What a version costs.
#[derive(Clone, Copy)]
pub struct Cost {
    blocks: u32,
    // The nodes of its FlexList.
    nodes: usize,
    // Its blocks' paths, and the longest.
    paths: Mean,
    longest: usize,
    // Nodes written by an edit.
    insert: Mean,
    change: Mean,
    removal: Mean,
}

impl Cost {
    fn new(blocks: u32, nodes: usize) -> Cost {
        let none = Mean { sum: 0, count: 0 };
        Cost {
            blocks,
            nodes,
            paths: none,
            longest: 0,
            insert: none,
            change: none,
            removal: none,
        }
    }

    // Counts a call where it is about this version.
    fn count<R>(&mut self, call: Call, answer: &Answer<R>) {
        match (call, answer) {
            (Call::Reading { version, .. }, Answer::Read { path, .. }) if version == self.blocks =>
                {
                    self.paths.add(*path);
                    self.longest = self.longest.max(*path);
                }
            (Call::Insert { base, .. }, Answer::Edited { written, .. })
                if base.saturating_add(1) == self.blocks => {
                self.insert.add(*written);
            }
            (Call::Change { base, .. }, Answer::Edited { written, .. }) if base == self.blocks => {
                self.change.add(*written);
            }
            (Call::Remove { base, .. }, Answer::Edited { written, .. }) if base == self.blocks => {
                self.removal.add(*written);
            }
            _ => {}
        }
    }
}

impl fmt::Display for Cost {
    fn fmt<W: fmt::Write>(&self, f: &mut fmt::Formatter<W>) -> fmt::Result {
        let Cost {
            blocks,
            nodes,
            paths,
            longest,
            insert,
            change,
            removal,
        } = self;
        write!(
            f,
            "{blocks} {nodes} {paths} {longest} {insert} {change} {removal}"
        )
    }
}

// The costs of the three versions, from what was answered.
pub(crate) fn costs<R>(heap: Global, played: &Played<R>) -> Result<Vec<Cost>, AllocError> {
    let mut all = Vec::new(heap);
    for blocks in BLOCKS {
        let nodes = played.lists.list(blocks).map_or(0, |list| list.nodes.len());
        let mut cost = Cost::new(blocks, nodes);
        let later = played.calls.iter().zip(played.answers.iter()).skip(500);
        for (call, answer) in later {
            cost.count(*call, answer);
        }
        all.push(cost)?;
    }
    Ok(all)
}
