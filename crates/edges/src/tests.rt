// The tests: tables of calls at the edges, and runs against plain lists.
mod free;
mod large;
mod outcome;
mod plain;
mod rig;
mod tables;
mod wander;

use large::{ages, brim, crowd, groupings};
use outcome::Outcome;
use reading::{Count, Single};
use rig::{Ends, Size, trial};
use runs::Call;
use sharing::Sharing;
use std::alloc::Global;
use std::fmt::Debug;
use std::process::Abort;
use std::test::Fail;
use store::{BlockStore, FlashStore, RowStore};
use summary::{Highest, Peak, Summary, Swing, Tally, Wrap, summary_of};
use wander::{next, wander};

// Counts of which about one in eight is missing, most of them small so that peaks are often equal.
fn counts() -> [Count; 1100] {
    let mut row = [Count { value: i16::MIN }; 1100];
    let mut seed = 20_261_117u32;
    for x in row.iter_mut() {
        seed = next(seed);
        if seed >> 29 != 0 {
            *x = Count::from_bytes(0, ((seed >> 16) & 15) as u8);
        }
    }
    row
}

// A table of calls on row stores of counts, in an area of so many readings.
fn counted<Q: Summary<Reading = Count> + PartialEq + Debug>(
    rt: &impl Abort,
    heap: Global,
    area: usize,
    size: Size,
    calls: &[(Call, Outcome)],
) -> Result<Ends, Fail> {
    let zero = Count { value: 0 };
    let mut a = vec![in heap; zero; area]?;
    let mut b = vec![in heap; zero; area]?;
    let readings = counts();
    trial::<RowStore<Count>, Q>(
        rt,
        heap,
        RowStore::new(&mut a),
        RowStore::new(&mut b),
        size,
        &readings,
        calls,
    )
}

// Three nodes are one too few for the first insert, and four are enough. Where a table is empty there is no version.
#[test]
fn first_inserts(rt: HostRuntime) -> Result<(), Fail> {
    let heap = rt.alloc();
    let size = Size {
        nodes: 3,
        versions: 2,
    };
    let ends = counted::<Peak<Count>>(&rt, heap, 10, size, &tables::THREE)?;
    assert_eq!(rt; (ends.nodes, ends.versions, ends.blocks), (1, 1, 0));
    let size = Size {
        nodes: 4,
        versions: 2,
    };
    let ends = counted::<Tally<Count>>(&rt, heap, 10, size, &tables::FOUR)?;
    assert_eq!(rt; (ends.nodes, ends.versions, ends.blocks), (3, 2, 1));
    let size = Size {
        nodes: 0,
        versions: 2,
    };
    let ends = counted::<Peak<Count>>(&rt, heap, 10, size, &tables::NONE)?;
    assert_eq!(rt; (ends.nodes, ends.versions, ends.blocks), (0, 0, 0));
    let size = Size {
        nodes: 4,
        versions: 0,
    };
    let ends = counted::<Peak<Count>>(&rt, heap, 10, size, &tables::NONE)?;
    assert_eq!(rt; (ends.nodes, ends.versions, ends.blocks), (0, 0, 0));
    Ok(())
}

#[test]
fn edges_of_calls(rt: HostRuntime) -> Result<(), Fail> {
    let heap = rt.alloc();
    let size = Size {
        nodes: 60,
        versions: 8,
    };
    let ends = counted::<Peak<Count>>(&rt, heap, 2051, size, &tables::EDGES)?;
    assert_eq!(rt; (ends.versions, ends.blocks), (8, 4));
    let size = Size {
        nodes: 60,
        versions: 19,
    };
    let ends = counted::<Swing>(&rt, heap, 100, size, &tables::SHAPES)?;
    assert_eq!(rt; (ends.nodes, ends.versions, ends.blocks), (42, 19, 12));
    Ok(())
}

// As many nodes as an edit may need, and one less.
#[test]
fn tight_nodes(rt: HostRuntime) -> Result<(), Fail> {
    for (nodes, calls) in [16, 15, 14, 13, 12, 11].into_iter().zip(&tables::TIGHT) {
        let mut all = tables::LIST.to_vec(rt.alloc())?;
        all.extend_from_slice(calls)?;
        let size = Size { nodes, versions: 9 };
        counted::<Tally<Count>>(&rt, rt.alloc(), 50, size, &all)?;
    }
    Ok(())
}

// Edits that look random, against plain lists.
#[test]
fn wanderings(rt: HostRuntime) -> Result<(), Fail> {
    let heap = rt.alloc();
    let size = Size {
        nodes: 3000,
        versions: 61,
    };
    for seed in 0..4u32 {
        let calls = wander(heap, seed, 60)?;
        counted::<Peak<Count>>(&rt, heap, 130, size, &calls)?;
        counted::<Tally<Count>>(&rt, heap, 130, size, &calls)?;
        counted::<Swing>(&rt, heap, 130, size, &calls)?;
    }
    Ok(())
}

// Two layers over a store: a row that was there before takes no place.
fn piled<S: BlockStore<Reading = Count> + Drop>(
    rt: &impl Abort,
    heap: Global,
    one: S,
    two: S,
) -> Result<(), Fail> {
    let size = Size {
        nodes: 60,
        versions: 9,
    };
    let readings = counts();
    let ends = trial::<Sharing<Sharing<S>>, Peak<Count>>(
        rt,
        heap,
        Sharing::new(Sharing::new(one)),
        Sharing::new(Sharing::new(two)),
        size,
        &readings,
        &tables::SHARED,
    )?;
    assert_eq!(rt; (ends.versions, ends.blocks), (7, 2));
    Ok(())
}

// A store that has 999 blocks before the archive begins.
fn packed<S: BlockStore<Reading = Count> + Drop>(
    rt: &impl Abort,
    heap: Global,
    mut one: S,
    mut two: S,
) -> Result<(), Fail> {
    let row = [Count { value: 3 }];
    for _ in 0..999u32 {
        assert!(rt; one.put(&row).is_ok() && two.put(&row).is_ok());
    }
    let size = Size {
        nodes: 60,
        versions: 9,
    };
    let readings = counts();
    let ends = trial::<S, Tally<Count>>(rt, heap, one, two, size, &readings, &tables::PACKED)?;
    assert_eq!(rt; (ends.nodes, ends.versions, ends.blocks), (4, 3, 1000));
    Ok(())
}

#[test]
fn stores(rt: HostRuntime) -> Result<(), Fail> {
    let heap = rt.alloc();
    let mut a = [Count { value: 0 }; 7];
    let mut b = [Count { value: 0 }; 7];
    piled(&rt, heap, RowStore::new(&mut a), RowStore::new(&mut b))?;
    let mut a = [0u8; 15];
    let mut b = [0u8; 15];
    piled(&rt, heap, FlashStore::new(&mut a), FlashStore::new(&mut b))?;
    let mut a = [Count { value: 0 }; 1001];
    let mut b = [Count { value: 0 }; 1001];
    packed(&rt, heap, RowStore::new(&mut a), RowStore::new(&mut b))
}

// 500 blocks, over an area of so many readings.
fn crowded(
    rt: &impl Abort,
    heap: Global,
    area: usize,
    nodes: usize,
    versions: usize,
    calls: &[(Call, Outcome)],
) -> Result<u32, Fail> {
    let mut a = vec![in heap; Count { value: 0 }; area]?;
    let readings = counts();
    let size = Size { nodes, versions };
    crowd::<RowStore<Count>, Peak<Count>>(rt, heap, RowStore::new(&mut a), size, &readings, calls)
}

#[test]
fn five_hundred_blocks(rt: HostRuntime) -> Result<(), Fail> {
    let heap = rt.alloc();
    let used = crowded(&rt, heap, 510, 20_000, 504, &tables::ROOMY)? as usize;
    let tight = used.saturating_add(1);
    crowded(&rt, heap, 500, tight, 501, &tables::ORDER)?;
    crowded(&rt, heap, 500, tight, 502, &tables::NODELESS)?;
    crowded(
        &rt,
        heap,
        500,
        tight.saturating_add(60),
        502,
        &tables::STOREFULL,
    )?;
    Ok(())
}

#[test]
fn full_tables(rt: HostRuntime) -> Result<(), Fail> {
    let heap = rt.alloc();
    let readings = counts();
    let mut a = [Count { value: 0 }; 600];
    brim::<RowStore<Count>, Peak<Count>>(&rt, heap, RowStore::new(&mut a), &readings)?;
    ages::<RowStore<Count>, Peak<Count>>(&rt, heap, RowStore::new(&mut a), &readings)
}

// Six floats in every grouping; the peak of them all is as given, by its place and pattern.
fn floats(
    rt: &impl Abort,
    heap: Global,
    bits: [u32; 6],
    peak: Option<(u32, u32)>,
) -> Result<(), Fail> {
    let readings = bits.map(Single::from_bits);
    let wanted = Peak {
        length: Wrap::from(6),
        highest: peak.map(|(place, pattern)| Highest {
            place: Wrap::from(place),
            reading: Single::from_bits(pattern),
        }),
    };
    assert_eq!(rt; summary_of::<Peak<Single>>(&readings), wanted);
    let mut area = [Single::from_bits(5); 1200];
    groupings::<RowStore<Single>, Peak<Single>>(rt, heap, RowStore::new(&mut area), &readings)
}

// Six patterns, and the place and pattern of their peak, if any is present.
const FLOATS: [([u32; 6], Option<(u32, u32)>); 5] = [
    // some are not a number
    (
        [
            0x7FC0_0000,
            0x3F80_0000,
            0xFFFF_FFFF,
            0x4060_0000,
            0xC000_0000,
            0x7F80_0001,
        ],
        Some((3, 0x4060_0000)),
    ),
    // none is a number
    (
        [
            0x7FC0_0000,
            0xFFC0_0000,
            0x7F80_0001,
            0x7FFF_FFFF,
            0xFF80_0001,
            0x7FC0_0000,
        ],
        None,
    ),
    // zeros of both signs rank alike
    (
        [
            0x8000_0000,
            0x0000_0000,
            0x7FC0_0000,
            0x8000_0000,
            0xFF80_0000,
            0x0000_0000,
        ],
        Some((0, 0x8000_0000)),
    ),
    // below zero, where missing is not 0
    (
        [
            0xFF80_0000,
            0x7FC0_0000,
            0xC000_0000,
            0xC000_0000,
            0x7FC0_0000,
            0xFF80_0000,
        ],
        Some((2, 0xC000_0000)),
    ),
    // infinity is present
    (
        [
            0x7F7F_FFFF,
            0x7F80_0000,
            0x7FC0_0000,
            0x7F80_0000,
            0x7F80_0001,
            0x7F7F_FFFF,
        ],
        Some((1, 0x7F80_0000)),
    ),
];

#[test]
fn every_grouping(rt: HostRuntime) -> Result<(), Fail> {
    for (bits, peak) in FLOATS {
        floats(&rt, rt.alloc(), bits, peak)?;
    }
    Ok(())
}
