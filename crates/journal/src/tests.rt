// Journals at their edges: the worked journal and each of its prefixes, every fault, and both round trips.
use crate::fault::JournalFault;
use crate::loading::load;
use crate::write_journal::write;
use archive::{Kind, Version};
use nodes::{Node, Shape};
use reading::{Count, Reading, Single};
use std::process::Abort;
use store::{BlockStore, FlashStore, RowStore};
use summary::{Peak, Summary, Tally};

// A journal of four edits: two inserts, a change, a removal.
const WORKED: [u8; 43] = [
    1, 1, 1, 2, 0, 0, 0, 0, 1, 0, 2, 5, 0x80, 0, 5, 0, 10, 2, 0, 1, 0, 1, 0, 0, 1, 5, 0, 7, 3, 0,
    1, 0, 0, 0, 1, 5, 0xFF, 0xFD, 4, 0, 2, 0, 0,
];

// For each prefix of it: the versions, or where the record begins that is cut or due.
const PREFIXES: [Result<u32, usize>; 44] = [
    Err(0),
    Err(0),
    Err(0),
    Ok(1),
    Err(3),
    Err(3),
    Err(3),
    Err(3),
    Err(3),
    Err(3),
    Err(3),
    Err(11),
    Err(11),
    Err(11),
    Err(14),
    Err(14),
    Err(14),
    Ok(2),
    Err(17),
    Err(17),
    Err(17),
    Err(17),
    Err(17),
    Err(17),
    Err(17),
    Err(25),
    Err(25),
    Err(25),
    Ok(3),
    Err(28),
    Err(28),
    Err(28),
    Err(28),
    Err(28),
    Err(28),
    Err(35),
    Err(35),
    Err(35),
    Ok(4),
    Err(38),
    Err(38),
    Err(38),
    Err(38),
    Ok(5),
];

// Marks for free entries, which the tests of another crate have too: a library would have to make them public for both.
pub(crate) fn free_node<Q: Summary>() -> Node<Q> {
    Node {
        shape: Shape::Fork {
            level: 99,
            below: 77,
            after: 88,
        },
        readings: 66,
        blocks: 55,
        summary: Q::nothing(),
        row: Q::nothing(),
    }
}

pub(crate) fn free_record() -> Version {
    Version {
        parent: 91,
        edit: Kind::Begun,
        place: 92,
        level: 93,
        block: 94,
        root: 95,
        blocks: 96,
        readings: 97,
        written: 98,
    }
}

// The versions, or 0; the fault's number, the refusal inside it, the cause inside that; the byte place. Numbers, since the three functions are tested too.
fn told<S: BlockStore, Q: Summary<Reading = S::Reading>>(
    bytes: &[u8],
    nodes: &mut [Node<Q>],
    versions: &mut [Version],
    store: &mut S,
    area: &mut [S::Reading],
) -> ([u32; 4], usize) {
    let loaded = load(bytes, nodes, versions, store, area);
    match loaded.answer {
        Ok(count) => ([count, 0, 0, 0], 0),
        Err(stop) => (
            [
                0,
                stop.fault.number(),
                stop.fault.refusal(),
                stop.fault.cause(),
            ],
            stop.place,
        ),
    }
}

// Loads into eight versions, and nodes, a store and a row area that are given.
fn tried<S: BlockStore + Drop>(
    bytes: &[u8],
    nodes: &mut [Node<Peak<S::Reading>>],
    mut store: S,
    area: &mut [S::Reading],
) -> ([u32; 4], usize) {
    let mut versions = [free_record(); 8];
    told(bytes, nodes, &mut versions, &mut store, area)
}

fn counts(bytes: &[u8], room: usize) -> ([u32; 4], usize) {
    let mut nodes = [free_node::<Peak<Count>>(); 16];
    let mut held = [Count { value: 0 }; 6];
    let mut area = [Count { value: 9 }; 4];
    let end = room.min(area.len());
    tried(
        bytes,
        &mut nodes,
        RowStore::new(&mut held),
        &mut area[..end],
    )
}

fn floats(bytes: &[u8]) -> ([u32; 4], usize) {
    let mut nodes = [free_node::<Peak<Single>>(); 16];
    let mut held = [Single::from_bits(0); 6];
    let mut area = [Single::from_bits(0); 4];
    tried(bytes, &mut nodes, RowStore::new(&mut held), &mut area)
}

#[test]
fn prefixes(rt: HostRuntime) {
    for (n, prefix) in PREFIXES.iter().enumerate() {
        let wanted = match *prefix {
            Ok(versions) => ([versions, 0, 0, 0], 0),
            Err(place) => ([0, 10, 0, 0], place),
        };
        assert_eq!(rt; counts(&WORKED[..n.min(43)], 4), wanted);
    }
}

// A journal of counts, how many readings the row area has, and what loading answers.
const FAULTS: [(&[u8], usize, ([u32; 4], usize)); 35] = [
    // the head
    (&[1, 2, 1], 4, ([0, 12, 0, 0], 0)),
    (&[2, 1, 1], 4, ([0, 12, 0, 0], 0)),
    (&[1, 1, 2], 4, ([0, 12, 0, 0], 0)),
    (&[1, 1, 0, 9], 4, ([0, 12, 0, 0], 0)),
    (&[9, 9], 4, ([0, 10, 0, 0], 0)),
    // a kind byte that is no edit, also where its record would be cut
    (&[1, 1, 1, 5], 4, ([0, 11, 0, 0], 3)),
    (&[1, 1, 1, 1, 1, 1], 4, ([0, 11, 0, 0], 3)),
    (&[1, 1, 1, 0], 4, ([0, 11, 0, 0], 3)),
    (&[1, 1, 1, 6, 0, 0, 0, 0], 4, ([0, 11, 0, 0], 3)),
    (&[1, 1, 1, 255], 4, ([0, 11, 0, 0], 3)),
    // a cut record before its length is tried
    (&[1, 1, 1, 2, 0, 0, 0, 0, 0, 0], 4, ([0, 10, 0, 0], 3)),
    (&[1, 1, 1, 2, 0, 0, 0, 0, 0, 5], 4, ([0, 10, 0, 0], 3)),
    (&[1, 1, 1, 3, 0, 0, 0, 0, 5], 4, ([0, 10, 0, 0], 3)),
    (&[1, 1, 1, 4, 0, 9, 0], 4, ([0, 10, 0, 0], 3)),
    // the length of a row, before the row area
    (&[1, 1, 1, 2, 0, 0, 0, 0, 0, 0, 0], 0, ([0, 13, 0, 0], 3)),
    (&[1, 1, 1, 2, 0, 0, 0, 0, 0, 4, 1], 0, ([0, 13, 0, 0], 3)),
    (&[1, 1, 1, 3, 0, 0, 0, 0, 0, 0], 4, ([0, 13, 0, 0], 3)),
    (&[1, 1, 1, 3, 0, 0, 0, 0, 4, 1, 6], 4, ([0, 13, 0, 0], 3)),
    (
        &[1, 1, 1, 2, 0, 9, 0, 0, 16, 255, 255],
        4,
        ([0, 13, 0, 0], 3),
    ),
    // the row area, before the readings
    (&[1, 1, 1, 2, 0, 0, 0, 0, 0, 4, 0], 4, ([0, 9, 0, 0], 3)),
    (&[1, 1, 1, 2, 0, 0, 0, 0, 0, 0, 2], 1, ([0, 9, 0, 0], 3)),
    (&[1, 1, 1, 2, 0, 0, 0, 0, 0, 0, 2], 2, ([0, 10, 0, 0], 11)),
    (&[1, 1, 1, 3, 0, 9, 0, 0, 0, 1, 6], 0, ([0, 9, 0, 0], 3)),
    (&[1, 1, 1, 3, 0, 9, 0, 0, 0, 1, 6], 1, ([0, 11, 0, 0], 10)),
    // a reading of another kind, also where it would be cut
    (
        &[1, 1, 1, 2, 0, 0, 0, 0, 0, 0, 1, 6],
        4,
        ([0, 11, 0, 0], 11),
    ),
    (
        &[1, 1, 1, 2, 0, 0, 0, 0, 0, 0, 2, 5, 0, 1, 2],
        4,
        ([0, 11, 0, 0], 14),
    ),
    // the readings, before the edit is asked of the archive
    (&[1, 1, 1, 3, 0, 9, 0, 0, 0, 1], 1, ([0, 10, 0, 0], 10)),
    (
        &[1, 1, 1, 3, 0, 9, 0, 0, 0, 1, 5, 0],
        1,
        ([0, 10, 0, 0], 10),
    ),
    (
        &[1, 1, 1, 3, 0, 9, 0, 0, 0, 1, 5, 0, 0],
        1,
        ([0, 15, 1, 0], 3),
    ),
    // an edit that the archive refuses: version, place, level, and the store with its cause
    (&[1, 1, 1, 4, 0, 1, 0, 0], 4, ([0, 15, 1, 0], 3)),
    (&[1, 1, 1, 4, 0, 0, 0, 0], 4, ([0, 15, 2, 0], 3)),
    (
        &[1, 1, 1, 2, 0, 0, 0, 0, 16, 0, 1, 5, 0, 1],
        4,
        ([0, 15, 3, 0], 3),
    ),
    (
        &[
            1, 1, 1, 2, 0, 0, 0, 0, 0, 0, 4, 5, 0, 1, 5, 0, 1, 5, 0, 1, 5, 0, 1, 3, 0, 1, 0, 0, 0,
            3, 5, 0, 1, 5, 0, 1, 5, 0, 1,
        ],
        4,
        ([0, 15, 8, 3], 23),
    ),
    (
        &[
            1, 1, 1, 2, 0, 0, 0, 0, 0, 0, 4, 5, 0, 1, 5, 0, 1, 5, 0, 1, 5, 0, 1, 3, 0, 1, 0, 0, 0,
            2, 5, 0, 1, 5, 0, 1,
        ],
        4,
        ([3, 0, 0, 0], 0),
    ),
    (
        &[1, 1, 1, 2, 0, 0, 0, 0, 0, 0, 1, 5, 0, 1],
        4,
        ([2, 0, 0, 0], 0),
    ),
];

#[test]
fn faults(rt: HostRuntime) {
    for (bytes, room, wanted) in &FAULTS {
        assert_eq!(rt; counts(bytes, *room), *wanted);
    }
}

// One insert into version 0, and how many nodes and versions the tables have: the node table has too few at three, that of versions at one, and where either
// is empty there is no version.
#[test]
fn full_tables(rt: HostRuntime) {
    let bytes = [1, 1, 1, 2, 0, 0, 0, 0, 0, 0, 1, 5, 0, 1];
    for (nodes_there, versions_there, wanted) in [
        (4usize, 2usize, ([2u32, 0, 0, 0], 0usize)),
        (3, 2, ([0, 15, 7, 0], 3)),
        (4, 1, ([0, 15, 6, 0], 3)),
        (3, 1, ([0, 15, 6, 0], 3)),
        (0, 2, ([0, 15, 1, 0], 3)),
        (4, 0, ([0, 15, 1, 0], 3)),
    ] {
        let mut nodes = [free_node::<Peak<Count>>(); 4];
        let mut versions = [free_record(); 2];
        let mut held = [Count { value: 0 }; 1];
        let mut area = [Count { value: 9 }; 1];
        let nodes_end = nodes_there.min(4);
        let versions_end = versions_there.min(2);
        let got = told(
            &bytes,
            &mut nodes[..nodes_end],
            &mut versions[..versions_end],
            &mut RowStore::new(&mut held),
            &mut area,
        );
        assert_eq!(rt; got, wanted);
    }
}

// A head loads into tables without a version, and there are none then.
#[test]
fn no_versions(rt: HostRuntime) {
    let mut held = [Count { value: 0 }; 1];
    let got = tried(&[1, 1, 1], &mut [], RowStore::new(&mut held), &mut []);
    assert_eq!(rt; got, ([0, 0, 0, 0], 0));
}

// A journal of inserts of one count at place 0, each into the version before. The 501st is one block too many.
#[test]
fn five_hundred_blocks(rt: HostRuntime) {
    let mut bytes = [0u8; 5514];
    for (k, record) in bytes[3..].chunks_mut(11).enumerate() {
        let [high, low] = (k as u16).to_be_bytes();
        record.copy_from_slice(&[2, high, low, 0, 0, 0, 0, 1, 5, high, low]);
    }
    bytes[..3].copy_from_slice(&[1, 1, 1]);
    let mut nodes = [free_node::<Peak<Count>>(); 1100];
    let mut versions = [free_record(); 510];
    let mut held = [Count { value: 0 }; 510];
    let mut area = [Count { value: 9 }; 1];
    for (end, wanted) in [
        (5503usize, ([501u32, 0, 0, 0], 0usize)),
        (5513, ([0, 10, 0, 0], 5511)),
        (5514, ([0, 15, 5, 0], 5503)),
    ] {
        let got = told(
            &bytes[..end.min(5514)],
            &mut nodes,
            &mut versions,
            &mut RowStore::new(&mut held),
            &mut area,
        );
        assert_eq!(rt; got, wanted);
    }
}

// A store that holds as many blocks as it can, and one fewer.
#[test]
fn full_stores(rt: HostRuntime) {
    let one = [Count { value: 5 }];
    for (blocks, wanted) in [
        (999u32, ([2u32, 0, 0, 0], 0usize)),
        (1000, ([0, 15, 8, 2], 3)),
    ] {
        let mut held = [Count { value: 0 }; 1010];
        let mut store = RowStore::new(&mut held);
        for _ in 0..blocks {
            assert!(rt; store.put(&one).is_ok());
        }
        let mut nodes = [free_node::<Peak<Count>>(); 16];
        let mut area = [Count { value: 9 }; 1];
        let bytes = [1, 1, 1, 2, 0, 0, 0, 0, 0, 0, 1, 5, 0, 1];
        assert_eq!(rt; tried(&bytes, &mut nodes, store, &mut area), wanted);
    }
}

// A journal of one float, by its pattern.
fn one_float(pattern: u32) -> ([u32; 4], usize) {
    let bits = pattern.to_be_bytes();
    floats(&[
        1, 1, 2, 2, 0, 0, 0, 0, 0, 0, 1, 6, bits[0], bits[1], bits[2], bits[3],
    ])
}

#[test]
fn float_journals(rt: HostRuntime) {
    for pattern in [
        0,
        1,
        0x8000_0000,
        0x3F80_0000,
        0x7F7F_FFFF,
        0x7F80_0000,
        0xFF7F_FFFF,
        0xFF80_0000,
        0x7FC0_0000u32,
    ] {
        assert_eq!(rt; one_float(pattern), ([2, 0, 0, 0], 0));
    }
    for pattern in [
        0x7F80_0001,
        0x7FBF_FFFF,
        0x7FC0_0001,
        0x7FFF_FFFF,
        0xFF80_0001,
        0xFFBF_FFFF,
        0xFFC0_0000,
        0xFFC0_0001,
        0xFFFF_FFFFu32,
    ] {
        assert_eq!(rt; one_float(pattern), ([0, 14, 0, 0], 11));
    }
    assert_eq!(rt; floats(&[1, 1, 1]), ([0, 12, 0, 0], 0));
}

// A journal of two floats, and each of its prefixes.
const FLOATS: [u8; 21] = [
    1, 1, 2, 2, 0, 0, 0, 0, 0, 0, 2, 6, 0x7F, 0xC0, 0, 0, 6, 0xBF, 0x80, 0, 0,
];

#[test]
fn float_prefixes(rt: HostRuntime) {
    for n in 0..22usize {
        let wanted = match n {
            3 => ([1, 0, 0, 0], 0),
            21 => ([2, 0, 0, 0], 0),
            0..3 => ([0, 10, 0, 0], 0),
            4..11 => ([0, 10, 0, 0], 3),
            11..16 => ([0, 10, 0, 0], 11),
            _ => ([0, 10, 0, 0], 16),
        };
        assert_eq!(rt; floats(&FLOATS[..n.min(21)]), wanted);
    }
}

// What is tried first of a float: its kind byte, that it is whole, its pattern, and then the edit.
#[test]
fn float_orders(rt: HostRuntime) {
    for (bytes, wanted) in [
        ([0u8, 9, 6, 0x7F, 0xC0, 0, 1], ([0u32, 14, 0, 0], 11usize)),
        ([0, 9, 5, 0x7F, 0xC0, 0, 1], ([0, 11, 0, 0], 11)),
        ([0, 9, 6, 0x7F, 0xC0, 0, 0], ([0, 15, 1, 0], 3)),
    ] {
        let [high, low, kind, a, b, c, d] = bytes;
        let whole = [1, 1, 2, 2, high, low, 0, 0, 0, 0, 1, kind, a, b, c, d];
        assert_eq!(rt; floats(&whole), wanted);
        let cut = if kind == 6 { 10 } else { 11 };
        assert_eq!(rt; floats(&whole[..15]), ([0, cut, 0, 0], 11));
    }
}

// The count that stands first in the row area, and second, after a prefix of the worked journal was loaded; 9 where none was put there.
fn passed(n: usize) -> [i16; 4] {
    let first = match n {
        0..14 => 9,
        14..28 => -32_768,
        28..38 => 7,
        _ => -3,
    };
    [first, if n < 17 { 9 } else { 10 }, 9, 9]
}

// Each prefix of the worked journal: the edits before the fault stay, and are what is written then; the row area has the readings that passed, and free
// nodes and records are as they were.
#[test]
fn stopped_loads(rt: HostRuntime) {
    for n in 3..44usize {
        let mut nodes = [free_node::<Peak<Count>>(); 16];
        let mut versions = [free_record(); 8];
        let mut held = [Count { value: 0 }; 6];
        let mut store = RowStore::new(&mut held);
        let mut area = [Count { value: 9 }; 4];
        let loaded = load(
            &WORKED[..n.min(43)],
            &mut nodes,
            &mut versions,
            &mut store,
            &mut area,
        );
        let whole = match n {
            3..17 => 3,
            17..28 => 17,
            28..38 => 28,
            38..43 => 38,
            _ => 43usize,
        };
        let mut out = [0xAAu8; 50];
        assert_eq!(rt;
            write(&loaded.table, &versions, &store, &mut out),
            Ok(whole)
        );
        assert!(rt; out[..whole] == WORKED[..whole]);
        for byte in &out[whole..] {
            assert_eq!(rt; *byte, 0xAA);
        }
        for (x, wanted) in area.iter().zip(&passed(n)) {
            assert_eq!(rt; x.value, *wanted);
        }
        let used = loaded.table.used() as usize;
        let count = loaded.table.count() as usize;
        drop(loaded);
        for node in nodes.iter().skip(used) {
            assert_eq!(rt; *node, free_node());
        }
        for version in versions.iter().skip(count) {
            assert_eq!(rt; *version, free_record());
        }
    }
}

// The worked journal loaded and written again, into an output that is marked before: its readings in the row area, and the output's bytes, are as they
// should be.
fn rewritten<S: BlockStore<Reading = Count> + Drop>(rt: &impl Abort, mut store: S, out: &mut [u8]) {
    let mut nodes = [free_node::<Peak<Count>>(); 16];
    let mut versions = [free_record(); 8];
    let mut area = [Count { value: 9 }; 4];
    let room = out.len();
    let loaded = load(&WORKED, &mut nodes, &mut versions, &mut store, &mut area);
    let written = write(&loaded.table, &versions, &store, out);
    assert_eq!(rt; area[0].value, -3);
    assert_eq!(rt; area[1].value, 10);
    assert!(rt; area[2].value == 9 && area[3].value == 9);
    let wanted = if room < 43 {
        Err(JournalFault::Area)
    } else {
        Ok(43)
    };
    assert_eq!(rt; written, wanted);
    for (at, byte) in out.iter().enumerate() {
        let wanted = if room < 43 || at >= 43 {
            0xAA
        } else {
            WORKED[at]
        };
        assert_eq!(rt; *byte, wanted);
    }
}

#[test]
fn round_trip(rt: HostRuntime) {
    let mut held = [Count { value: 0 }; 6];
    let mut out = [0xAAu8; 50];
    rewritten(&rt, RowStore::new(&mut held), &mut out);
    let mut out = [0xAAu8; 43];
    rewritten(&rt, RowStore::new(&mut held), &mut out);
    let mut out = [0xAAu8; 42];
    rewritten(&rt, RowStore::new(&mut held), &mut out);
    let mut out = [0u8; 0];
    rewritten(&rt, RowStore::new(&mut held), &mut out);
}

// A journal of floats, loaded and written again: over a store that keeps them encoded, and under another summary.
#[test]
fn float_round_trip(rt: HostRuntime) {
    let mut nodes = [free_node::<Tally<Single>>(); 16];
    let mut versions = [free_record(); 8];
    let mut held = [0u8; 24];
    let mut store = FlashStore::<Single>::new(&mut held);
    let mut area = [Single::from_bits(0); 4];
    let loaded = load(&FLOATS, &mut nodes, &mut versions, &mut store, &mut area);
    assert_eq!(rt; loaded.answer, Ok(2));
    let mut out = [0xAAu8; 22];
    assert_eq!(rt; write(&loaded.table, &versions, &store, &mut out), Ok(21));
    assert!(rt; out.starts_with(&FLOATS) && out[21] == 0xAA);
}
