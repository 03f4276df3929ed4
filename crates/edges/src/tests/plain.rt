// Versions as plain lists of blocks, each a part of the readings beside a table of calls.
use archive::Kind;
use runs::Call;
use std::alloc::{AllocError, Global};
use std::test::Fail;

// So many readings, from a place on.
#[derive(Clone, Copy)]
pub struct Part {
    pub from: usize,
    pub len: usize,
}

impl Part {
    // The readings that it names; none where they pass the end.
    pub(super) fn of<R>(self, readings: &[R]) -> &[R] {
        readings
            .get(self.from..self.from.saturating_add(self.len))
            .unwrap_or(&[])
    }
}

// An edit of a base, by whichever call. An append is kept as an insert, of level 0 and behind the last block.
#[derive(Clone, Copy)]
pub struct Edit {
    pub base: u32,
    pub kind: Kind,
    pub place: u32,
    pub level: u8,
    // The row that it puts; none of a removal.
    pub row: Option<Part>,
}

// The blocks of each version, by its number.
#[derive(Drop)]
pub struct Lists {
    heap: Global,
    lists: Vec<Vec<Part>>,
}

impl Lists {
    // Version 0 has no block.
    pub(super) fn begin(heap: Global) -> Result<Lists, AllocError> {
        let lists = vec![in heap; Vec::new(heap)]?;
        Ok(Lists { heap, lists })
    }

    pub(super) fn blocks(&self, version: u32) -> &[Part] {
        self.lists
            .get(version as usize)
            .map_or(&[], |list| list.as_slice())
    }

    pub(super) fn count(&self, version: u32) -> u32 {
        u32::try_from(self.blocks(version).len()).unwrap_or(u32::MAX)
    }

    // The edit that a call asks for; none where it is a question.
    pub(super) fn edit(&self, call: Call) -> Option<Edit> {
        let (base, kind, place, level, row) = match call {
            Call::Insert {
                base,
                place,
                level,
                from,
                len,
            } => (base, Kind::Insert, place, level, Some(Part { from, len })),
            Call::Append { base, from, len } => {
                let row = Some(Part { from, len });
                (base, Kind::Insert, self.count(base), 0, row)
            }
            Call::Change {
                base,
                place,
                from,
                len,
            } => (base, Kind::Change, place, 0, Some(Part { from, len })),
            Call::Remove { base, place } => (base, Kind::Removal, place, 0, None),
            _ => return None,
        };
        Some(Edit {
            base,
            kind,
            place,
            level,
            row,
        })
    }

    // A further version, by an edit.
    pub(super) fn follow(&mut self, edit: Edit) -> Result<(), Fail> {
        let base = self.blocks(edit.base);
        let (before, at) = base
            .split_at_checked(edit.place as usize)
            .ok_or("no such place")?;
        let after = match edit.kind {
            Kind::Insert => at,
            _ => at.get(1..).ok_or("no such block")?,
        };
        let mut list = before.to_vec(self.heap)?;
        list.extend(edit.row)?;
        list.extend_from_slice(after)?;
        self.lists.push(list)?;
        Ok(())
    }

    // A version's readings.
    pub(super) fn readings<R: Copy>(
        &self,
        version: u32,
        readings: &[R],
    ) -> Result<Vec<R>, AllocError> {
        self.blocks(version)
            .iter()
            .flat_map(|part| part.of(readings))
            .copied()
            .collect(self.heap)
    }
}
