// The FlexList of a list of levels, by its definition: nothing is kept of a node but its stretch.
use std::alloc::{AllocError, Global};

// A leader's place, counted from the lead, and the place before which its stretch ends.
#[derive(Clone, Copy, PartialEq, Eq, Debug)]
pub struct Stretch {
    pub from: usize,
    pub to: usize,
}

impl Stretch {
    pub(crate) fn has(self, place: usize) -> bool {
        self.from <= place && place < self.to
    }
}

// Where a fork parts a stretch: before the first of its highest blocks, the leader aside; nowhere, if none of them is above level 0.
fn divide(levels: &[u8], stretch: Stretch) -> Option<usize> {
    let first = stretch.from.saturating_add(1);
    let mut found = None;
    let mut most = 0;
    for (k, level) in levels
        .get(first..stretch.to)
        .unwrap_or(&[])
        .iter()
        .enumerate()
    {
        if most < *level {
            found = Some(first.saturating_add(k));
            most = *level;
        }
    }
    found
}

// The stretches of all nodes; `levels` has the lead's too, which counts for nothing.
pub(crate) fn stretches(heap: Global, levels: &[u8]) -> Result<Vec<Stretch>, AllocError> {
    let mut nodes = Vec::new(heap);
    let mut due = vec![in heap;
        Stretch {
            from: 0,
            to: levels.len()
        },
    ]?;
    // Each block has a leaf, and each but one a fork at most.
    for _ in 0..levels.len().saturating_mul(2) {
        let Some(stretch) = due.pop() else {
            break;
        };
        nodes.push(stretch)?;
        let Stretch { from, to } = stretch;
        let next = from.saturating_add(1);
        match divide(levels, stretch) {
            Some(j) => {
                due.push(Stretch { from: j, to })?;
                due.push(Stretch { from, to: j })?;
            }
            None if next < to => due.push(Stretch { from: next, to })?,
            None => {}
        }
    }
    Ok(nodes)
}

// How many nodes a path has: those whose stretch has the block.
pub(crate) fn path(nodes: &[Stretch], place: usize) -> usize {
    nodes.iter().filter(|node| node.has(place)).count()
}

// How many nodes lie on a block's path, on that of its left neighbour, or on both.
pub(crate) fn paths(nodes: &[Stretch], place: usize) -> usize {
    let before = place.saturating_sub(1);
    nodes
        .iter()
        .filter(|node| node.has(place) || node.has(before))
        .count()
}
