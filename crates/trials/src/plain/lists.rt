// The versions of an archive as lists of blocks.
use super::rows::{Part, Rows};
use super::shape::{Stretch, stretches};
use archive::Version;
use std::alloc::{AllocError, Global};

#[derive(Clone, Copy, PartialEq, Eq, Debug)]
pub struct Block {
    // The number of the version whose edit made it: no other block of a version has the same.
    pub identity: u32,
    pub level: u8,
    pub row: Part,
}

#[derive(Drop)]
pub struct List {
    pub blocks: Vec<Block>,
    // The stretches of the nodes of its FlexList.
    pub nodes: Vec<Stretch>,
    // What is to be recorded of it, with root 0: where a root stands is free.
    pub record: Version,
}

impl List {
    pub(crate) fn new(
        heap: Global,
        blocks: Vec<Block>,
        record: Version,
    ) -> Result<List, AllocError> {
        let mut levels = vec![in heap; 0]?;
        for block in blocks.iter() {
            levels.push(block.level)?;
        }
        let nodes = stretches(heap, levels.as_slice())?;
        Ok(List {
            blocks,
            nodes,
            record,
        })
    }

    pub(crate) fn count(&self) -> usize {
        self.blocks.len()
    }

    // The identities of its blocks, after the lead's.
    fn identities(&self, heap: Global) -> Result<Vec<u32>, AllocError> {
        let mut all = vec![in heap; 0]?;
        for block in self.blocks.iter() {
            all.push(block.identity)?;
        }
        Ok(all)
    }

    // How many readings it has.
    pub(crate) fn len(&self) -> usize {
        self.blocks
            .iter()
            .fold(0usize, |sum, block| sum.saturating_add(block.row.len))
    }

    pub(crate) fn readings<R: Copy>(
        &self,
        heap: Global,
        readings: &[R],
    ) -> Result<Vec<R>, AllocError> {
        let mut all = Vec::new(heap);
        for block in self.blocks.iter() {
            all.extend_from_slice(block.row.of(readings))?;
        }
        Ok(all)
    }

    // The block that has a position, and the reading there.
    pub(crate) fn at<R: Copy>(&self, readings: &[R], position: usize) -> Option<(usize, R)> {
        let mut left = position;
        for (k, block) in self.blocks.iter().enumerate() {
            if left < block.row.len {
                let reading = block.row.of(readings).get(left)?;
                return Some((k, *reading));
            }
            left = left.saturating_sub(block.row.len);
        }
        None
    }
}

// Does a list with these identities have a node over this stretch? Only a node of the same leader can be one.
fn has_node(list: &List, identities: &[u32], stretch: &[u32]) -> bool {
    let leader = stretch.first().copied();
    let place = identities.iter().position(|x| Some(*x) == leader);
    for node in list.nodes.iter() {
        if Some(node.from) == place {
            let old = identities.get(node.from..node.to).unwrap_or(&[]);
            if old == stretch {
                return true;
            }
        }
    }
    false
}

// How many nodes of a list have a stretch that no node of its base has.
pub(crate) fn written(heap: Global, base: &List, list: &List) -> Result<usize, AllocError> {
    let before = base.identities(heap)?;
    let after = list.identities(heap)?;
    let mut new = 0usize;
    for node in list.nodes.iter() {
        let stretch = after.get(node.from..node.to).unwrap_or(&[]);
        if !has_node(base, before.as_slice(), stretch) {
            new = new.saturating_add(1);
        }
    }
    Ok(new)
}

// An archive of plain lists.
#[derive(Drop)]
pub struct Lists {
    pub heap: Global,
    // How many nodes and versions the tables have room for.
    pub room: Room,
    // How many nodes are in use.
    pub used: usize,
    pub versions: Vec<List>,
    pub store: Rows,
}

#[derive(Clone, Copy, PartialEq, Eq, Debug)]
pub struct Room {
    pub nodes: usize,
    pub versions: usize,
}

impl Lists {
    // Version 0 has no block and one node; where a table is empty there is no version.
    pub(crate) fn begin(heap: Global, room: Room, store: Rows) -> Result<Lists, AllocError> {
        let mut versions = Vec::new(heap);
        let mut used = 0;
        if room.nodes > 0 && room.versions > 0 {
            let record = Version {
                written: 1,
                ..Version::default()
            };
            versions.push(List::new(heap, Vec::new(heap), record)?)?;
            used = 1;
        }
        Ok(Lists {
            heap,
            room,
            used,
            versions,
            store,
        })
    }

    pub(crate) fn list(&self, version: u32) -> Option<&List> {
        self.versions.get(version as usize)
    }

    // How many versions there are.
    pub(crate) fn count(&self) -> u32 {
        u32::try_from(self.versions.len()).unwrap_or(u32::MAX)
    }
}
