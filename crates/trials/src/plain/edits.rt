// What the plain lists answer to an edit: the refusals from the top, then the edited list.
use super::answer::Answer;
use super::lists::{Block, List, Lists, written};
use super::rows::Part;
use super::shape::{path, paths};
use archive::{Kind, Version};
use reading::Reading;
use std::alloc::AllocError;

// What is tried of an edit after its version and place.
#[derive(Clone, Copy)]
struct Wish {
    level: u8,
    len: usize,
    // How many blocks the base has, where one is to be added.
    blocks: usize,
    // How many nodes have to be free.
    need: usize,
}

// An edit that nothing before the store refuses.
#[derive(Clone, Copy)]
struct Edit {
    base: u32,
    kind: Kind,
    place: u32,
    level: u8,
    row: Option<Part>,
    path: usize,
}

impl Lists {
    // The refusal by level, row, blocks, versions or nodes that comes first, if any.
    fn refusal(&self, wish: Wish) -> Option<u32> {
        let free = self.room.nodes.min(60_000).saturating_sub(self.used);
        if wish.level > 15 {
            Some(3)
        } else if wish.len < 1 || wish.len > 1024 {
            Some(4)
        } else if wish.blocks >= 500 {
            Some(5)
        } else if self.versions.len() >= self.room.versions.min(4096) {
            Some(6)
        } else if free < wish.need {
            Some(7)
        } else {
            None
        }
    }

    // The blocks of the base with the block at the place inserted, changed or removed.
    fn edited(&self, base: &List, edit: Edit) -> Result<Vec<Block>, AllocError> {
        let place = edit.place as usize;
        let gone = match edit.kind {
            Kind::Insert => 0,
            _ => 1,
        };
        let mut blocks = Vec::new(self.heap);
        blocks.extend(base.blocks.iter().take(place).copied())?;
        if let Some(row) = edit.row {
            blocks.push(Block {
                identity: self.count(),
                level: edit.level,
                row,
            })?;
        }
        blocks.extend(base.blocks.iter().skip(place.saturating_add(gone)).copied())?;
        Ok(blocks)
    }

    // The new version: its list, and how many nodes are written for it.
    fn made(&self, edit: Edit, number: u32) -> Result<Option<List>, AllocError> {
        let Some(base) = self.list(edit.base) else {
            return Ok(None);
        };
        let level = match edit.kind {
            Kind::Insert => edit.level,
            _ => 0,
        };
        let record = Version {
            parent: edit.base,
            edit: edit.kind,
            place: edit.place,
            level,
            block: number,
            ..Version::default()
        };
        let mut list = List::new(self.heap, self.edited(base, edit)?, record)?;
        let new = written(self.heap, base, &list)?;
        list.record.blocks = u32::try_from(list.count()).unwrap_or(u32::MAX);
        list.record.readings = u32::try_from(list.len()).unwrap_or(u32::MAX);
        list.record.written = u32::try_from(new).unwrap_or(u32::MAX);
        Ok(Some(list))
    }

    // Puts the row, if there is one, and takes the new version up.
    fn take<R: Reading>(&mut self, readings: &[R], edit: Edit) -> Result<Answer<R>, AllocError> {
        let put = match edit.row {
            Some(row) => self.store.put(readings, row)?,
            None => Ok(0),
        };
        let number = match put {
            Ok(number) => number,
            Err(cause) => return Ok(Answer::Refused(8, cause)),
        };
        let version = self.count();
        let Some(list) = self.made(edit, number)? else {
            return Ok(Answer::Refused(1, 0));
        };
        let written = list.record.written as usize;
        self.used = self.used.saturating_add(written);
        self.versions.push(list)?;
        Ok(Answer::Edited {
            version,
            written,
            path: edit.path,
        })
    }

    pub(crate) fn insert<R: Reading>(
        &mut self,
        readings: &[R],
        base: u32,
        place: u32,
        level: u8,
        row: Part,
    ) -> Result<Answer<R>, AllocError> {
        let Some(list) = self.list(base) else {
            return Ok(Answer::Refused(1, 0));
        };
        if place as usize > list.count() {
            return Ok(Answer::Refused(2, 0));
        }
        let path = path(list.nodes.as_slice(), place as usize);
        let wish = Wish {
            level,
            len: row.of(readings).len(),
            blocks: list.count(),
            need: path.saturating_add(2),
        };
        if let Some(number) = self.refusal(wish) {
            return Ok(Answer::Refused(number, 0));
        }
        let edit = Edit {
            base,
            kind: Kind::Insert,
            place,
            level,
            row: Some(row),
            path,
        };
        self.take(readings, edit)
    }

    // An insert of level 0 behind the last block.
    pub(crate) fn append<R: Reading>(
        &mut self,
        readings: &[R],
        base: u32,
        row: Part,
    ) -> Result<Answer<R>, AllocError> {
        let end = self.list(base).map_or(0, |list| list.count());
        let place = u32::try_from(end).unwrap_or(u32::MAX);
        self.insert(readings, base, place, 0, row)
    }

    pub(crate) fn change<R: Reading>(
        &mut self,
        readings: &[R],
        base: u32,
        place: u32,
        row: Part,
    ) -> Result<Answer<R>, AllocError> {
        let Some(list) = self.list(base) else {
            return Ok(Answer::Refused(1, 0));
        };
        let Some(block) = list.blocks.get(place as usize) else {
            return Ok(Answer::Refused(2, 0));
        };
        let level = block.level;
        let path = path(list.nodes.as_slice(), (place as usize).saturating_add(1));
        let wish = Wish {
            level: 0,
            len: row.of(readings).len(),
            blocks: 0,
            need: path,
        };
        if let Some(number) = self.refusal(wish) {
            return Ok(Answer::Refused(number, 0));
        }
        let edit = Edit {
            base,
            kind: Kind::Change,
            place,
            level,
            row: Some(row),
            path,
        };
        self.take(readings, edit)
    }

    pub(crate) fn remove<R: Reading>(
        &mut self,
        readings: &[R],
        base: u32,
        place: u32,
    ) -> Result<Answer<R>, AllocError> {
        let Some(list) = self.list(base) else {
            return Ok(Answer::Refused(1, 0));
        };
        if place as usize >= list.count() {
            return Ok(Answer::Refused(2, 0));
        }
        let nodes = list.nodes.as_slice();
        let at = (place as usize).saturating_add(1);
        let joint = paths(nodes, at);
        let wish = Wish {
            level: 0,
            len: 1,
            blocks: 0,
            need: joint.saturating_sub(1),
        };
        if let Some(number) = self.refusal(wish) {
            return Ok(Answer::Refused(number, 0));
        }
        let edit = Edit {
            base,
            kind: Kind::Removal,
            place,
            level: 0,
            row: None,
            path: joint,
        };
        self.take(readings, edit)
    }
}
