// Archives at the limits of 500 blocks, 60,000 nodes and 4,096 versions, and every grouping of six readings.
use super::outcome::Outcome;
use super::plain::Part;
use super::rig::{Rig, Size, Tables};
use Outcome::{Accepted, Refused};
use runs::Call;
use std::alloc::Global;
use std::fmt::Debug;
use std::process::Abort;
use std::test::Fail;
use store::BlockStore;
use summary::Summary;

// A level by the trailing zero bits of a place's successor.
fn level_at(place: u32) -> u8 {
    (place.wrapping_add(1).trailing_zeros() & 15) as u8
}

// 500 blocks of one reading by inserts at the end, the last of level 0: it asks for one node more than it writes.
fn raise<S: BlockStore, Q: Summary<Reading = S::Reading> + PartialEq + Debug>(
    rt: &impl Abort,
    rig: &mut Rig<'_, S, Q>,
) -> Result<(), Fail> {
    for k in 0..500u32 {
        let call = Call::Insert {
            base: k,
            place: k,
            level: if k < 499 { level_at(k) } else { 0 },
            from: k as usize,
            len: 1,
        };
        rig.answers(rt, call, Accepted(k + 1, None), k as usize)?;
    }
    Ok(())
}

// 500 blocks; then calls, held to the table; then the version of 500 blocks against the readings. Answers how many nodes 500 blocks took.
pub(super) fn crowd<S: BlockStore + Drop, Q: Summary<Reading = S::Reading> + PartialEq + Debug>(
    rt: &impl Abort,
    heap: Global,
    mut store: S,
    size: Size,
    readings: &[S::Reading],
    calls: &[(Call, Outcome)],
) -> Result<u32, Fail> {
    let mut tables = Tables::<Q>::free(heap, size)?;
    let mut rig = Rig::begin(
        heap,
        &mut tables.nodes,
        &mut tables.versions,
        &mut store,
        readings,
    )?;
    raise(rt, &mut rig)?;
    let used = rig.ends().nodes;
    for (at, (call, wanted)) in calls.iter().enumerate() {
        rig.answers(rt, *call, *wanted, at)?;
    }
    let list = Part { from: 0, len: 500 }.of(readings);
    rig.agree(rt, 500, list, 25)?;
    Ok(used)
}

// Appends of one reading to the newest version.
fn appends<S: BlockStore, Q: Summary<Reading = S::Reading> + PartialEq + Debug>(
    rt: &impl Abort,
    rig: &mut Rig<'_, S, Q>,
) -> Result<(), Fail> {
    for k in 0..344u32 {
        let call = Call::Append {
            base: k,
            from: k as usize,
            len: 1,
        };
        rig.answers(rt, call, Accepted(k + 1, Some(k + 2)), k as usize)?;
    }
    assert_eq!(rt; rig.ends().nodes, 59_685);
    let call = Call::Append {
        base: 344,
        from: 0,
        len: 1,
    };
    rig.answers(rt, call, Refused(7, 0), 344)?;
    Ok(())
}

// Changes of a version of one block, and a removal that takes the last node.
fn changes<S: BlockStore, Q: Summary<Reading = S::Reading> + PartialEq + Debug>(
    rt: &impl Abort,
    rig: &mut Rig<'_, S, Q>,
) -> Result<(), Fail> {
    let change = Call::Change {
        base: 1,
        place: 0,
        from: 0,
        len: 1,
    };
    let remove = Call::Remove { base: 1, place: 0 };
    for k in 0..157u32 {
        rig.answers(rt, change, Accepted(k + 345, Some(2)), k as usize)?;
    }
    assert_eq!(rt; rig.ends().nodes, 59_999);
    rig.answers(rt, change, Refused(7, 0), 157)?;
    rig.answers(rt, remove, Accepted(502, Some(1)), 158)?;
    assert_eq!(rt; rig.ends().nodes, 60_000);
    rig.answers(rt, remove, Refused(7, 0), 159)?;
    Ok(())
}

// Appends until the nodes that an archive may use run out, though the table has more; then changes and removals to the last node.
pub(super) fn brim<S: BlockStore + Drop, Q: Summary<Reading = S::Reading> + PartialEq + Debug>(
    rt: &impl Abort,
    heap: Global,
    mut store: S,
    readings: &[S::Reading],
) -> Result<(), Fail> {
    let size = Size {
        nodes: 60_400,
        versions: 510,
    };
    let mut tables = Tables::<Q>::free(heap, size)?;
    let mut rig = Rig::begin(
        heap,
        &mut tables.nodes,
        &mut tables.versions,
        &mut store,
        readings,
    )?;
    appends(rt, &mut rig)?;
    changes(rt, &mut rig)?;
    let list = Part { from: 0, len: 344 }.of(readings);
    rig.agree(rt, 344, list, 43)
}

// Removals that write nothing, until the versions that an archive may have run out, though the table has more.
pub(super) fn ages<S: BlockStore + Drop, Q: Summary<Reading = S::Reading> + PartialEq + Debug>(
    rt: &impl Abort,
    heap: Global,
    mut store: S,
    readings: &[S::Reading],
) -> Result<(), Fail> {
    let size = Size {
        nodes: 5,
        versions: 4_100,
    };
    let mut tables = Tables::<Q>::free(heap, size)?;
    let mut rig = Rig::begin(
        heap,
        &mut tables.nodes,
        &mut tables.versions,
        &mut store,
        readings,
    )?;
    let insert = Call::Insert {
        base: 0,
        place: 0,
        level: 3,
        from: 0,
        len: 1,
    };
    rig.answers(rt, insert, Accepted(1, Some(2)), 0)?;
    for k in 0..4_094u32 {
        let remove = Call::Remove { base: 1, place: 0 };
        rig.answers(rt, remove, Accepted(k + 2, Some(0)), k as usize)?;
    }
    assert_eq!(rt; rig.ends().versions, 4_096);
    for (base, number) in [(1, 6), (4_095, 2), (4_096, 1)] {
        let remove = Call::Remove { base, place: 0 };
        rig.answers(rt, remove, Refused(number, 0), base as usize)?;
    }
    assert_eq!(rt; rig.ends().versions, 4_096);
    Ok(())
}

// Six readings in one grouping: bit i of the mask ends a row after the (i + 1)-th reading that is taken, from the front or from the back.
fn grouped<S: BlockStore, Q: Summary<Reading = S::Reading> + PartialEq + Debug>(
    rt: &impl Abort,
    rig: &mut Rig<'_, S, Q>,
    mask: u32,
    levels: [u8; 6],
    back: bool,
) -> Result<u32, Fail> {
    let mut version = 0u32;
    let mut taken = 0usize;
    for end in 1..=6usize {
        if end == 6 || (mask >> (end - 1)) & 1 == 1 {
            let call = Call::Insert {
                base: version,
                place: if back { 0 } else { version },
                level: levels.get(version as usize).copied().unwrap_or(0),
                from: if back { 6 - end } else { taken },
                len: end.saturating_sub(taken),
            };
            version = version.wrapping_add(1);
            rig.answers(rt, call, Accepted(version, None), end)?;
            taken = end;
        }
    }
    assert_eq!(rt; version, (mask & 31).count_ones().wrapping_add(1));
    Ok(version)
}

// The levels of the first six blocks: all 0, all 1, or by the trailing zero bits.
const LEVELS: [[u8; 6]; 3] = [[0; 6], [1; 6], [0, 1, 0, 2, 0, 1]];

// Six readings in every grouping, with three patterns of levels, from both ends.
pub(super) fn groupings<S: BlockStore + Drop, Q: Summary<Reading = S::Reading> + PartialEq + Debug>(
    rt: &impl Abort,
    heap: Global,
    mut store: S,
    readings: &[S::Reading],
) -> Result<(), Fail> {
    assert_eq!(rt; readings.len(), 6);
    let size = Size {
        nodes: 60,
        versions: 7,
    };
    let mut tables = Tables::<Q>::free(heap, size)?;
    for mask in 0..32u32 {
        for levels in LEVELS {
            for back in [false, true] {
                let mut rig = Rig::begin(
                    heap,
                    &mut tables.nodes,
                    &mut tables.versions,
                    &mut store,
                    readings,
                )?;
                let version = grouped(rt, &mut rig, mask, levels, back)?;
                rig.agree(rt, version, readings, 1)?;
            }
        }
    }
    Ok(())
}
