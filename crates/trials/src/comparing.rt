// What the archive answered and left, held to what the plain lists answered.
use crate::kinds::Kind;
use crate::plain::answer::Answer;
use crate::plain::lists::Lists;
use crate::played::Played;
use crate::scans::Scan;
use archive::Version;
use runs::Reply;
use std::alloc::AllocError;
use store::BlockStore;

// Does a call's reply say what the lists answer?
pub(crate) fn agrees<R: Kind, Q: Scan<Reading = R>>(
    lists: &Lists,
    readings: &[R],
    reply: &Reply<R, Q>,
    answer: &Answer<R>,
) -> Result<bool, AllocError> {
    Ok(match (reply, answer) {
        (
            Reply::Edited(Ok(told)),
            Answer::Edited {
                version,
                written,
                ..
            },
        ) => { told.version == *version && told.written as usize == *written }
        (Reply::Edited(Err(fault)), Answer::Refused(number, cause)) => {
            fault.number() == *number && fault.cause() == *cause
        }
        (Reply::Read(Ok(told)), Answer::Read { reading, path }) => {
            told.reading == *reading && told.path as usize == *path
        }
        (Reply::Read(Err(fault)), Answer::Refused(number, 0)) => fault.number() == *number,
        (Reply::Spanned(Ok(told)), Answer::Spanned(n)) => *told as usize == *n,
        (Reply::Spanned(Err(fault)), Answer::Refused(number, 0)) => fault.number() == *number,
        (Reply::Summed(Ok(sum)), Answer::Summed { version, a, b }) => {
            let stretch = lists.stretch(readings, *version, *a, *b)?;
            sum.sums(stretch.as_slice())
        }
        (Reply::Summed(Err(fault)), Answer::Refused(number, 0)) => fault.number() == *number,
        _ => false,
    })
}

// How many records of versions differ from what the lists say; where a root stands is free.
pub(crate) fn records_differ(lists: &Lists, versions: &[Version]) -> u32 {
    let mut so_many = 0u32;
    for (list, record) in lists.versions.iter().zip(versions) {
        let record = Version { root: 0, ..*record };
        if record != list.record {
            so_many = so_many.saturating_add(1);
        }
    }
    so_many
}

// Is a block of the store the row that the lists say?
fn block_differs<S: BlockStore>(store: &S, block: u32, row: &[S::Reading]) -> bool {
    let mut differs = store.block_len(block) != u32::try_from(row.len()).ok();
    for (place, reading) in (0u32..).zip(row) {
        differs = differs || store.reading(block, place) != Some(*reading);
    }
    differs
}

// How many blocks of the store differ from the rows that the lists put.
pub(crate) fn blocks_differ<S: BlockStore>(
    lists: &Lists,
    readings: &[S::Reading],
    store: &S,
) -> u32 {
    let rows = lists.store.rows();
    let mut so_many = store
        .count()
        .abs_diff(u32::try_from(rows.len()).unwrap_or(u32::MAX));
    for (block, row) in (0u32..).zip(rows) {
        if block_differs(store, block, row.of(readings)) {
            so_many = so_many.saturating_add(1);
        }
    }
    so_many
}

// How many entries past those in use are not as they were found.
pub(crate) fn free_differ<T: PartialEq>(entries: &[T], used: usize, free: &T) -> u32 {
    let mut so_many = 0u32;
    for entry in entries.iter().skip(used) {
        if entry != free {
            so_many = so_many.saturating_add(1);
        }
    }
    so_many
}

// How many places of the output differ.
pub(crate) fn out_differs<R: Kind>(played: &Played<R>, out: &[R]) -> u32 {
    let mut so_many = 0u32;
    for (ours, theirs) in played.out.iter().zip(out) {
        if ours != theirs {
            so_many = so_many.saturating_add(1);
        }
    }
    so_many
}
