// A small archive's journal, byte for byte.
use crate::tests::{free_node, free_record};
use crate::{JournalFault, write};
use archive::NodeTable;
use reading::Count;
use store::RowStore;
use summary::Tally;

// An insert of two readings at level 3, an append, a change and a removal.
const SMALL: [u8; 43] = [
    1, 1, 1, // the head
    2, 0, 0, 0, 0, 3, 0, 2, 5, 1, 2, 5, 128, 0, // version 1
    2, 0, 1, 0, 1, 0, 0, 1, 5, 3, 4, // version 2
    3, 0, 2, 0, 0, 0, 1, 5, 3, 4, // version 3
    4, 0, 2, 0, 1, // version 4
];

#[test]
fn small_journal(rt: HostRuntime) {
    let mut nodes = [free_node::<Tally<Count>>(); 40];
    let mut versions = [free_record(); 8];
    let mut area = [Count::from_bytes(0, 0); 16];
    let mut store = RowStore::new(&mut area);
    let mut table = NodeTable::begin(&mut nodes, &mut versions);
    let two = [Count::from_bytes(1, 2), Count::from_bytes(128, 0)];
    let one = [Count::from_bytes(3, 4)];
    assert!(rt;
        table
            .insert(&mut versions, &mut store, 0, 0, 3, &two)
            .is_ok()
    );
    assert!(rt; table.append(&mut versions, &mut store, 1, &one).is_ok());
    assert!(rt; table.change(&mut versions, &mut store, 2, 0, &one).is_ok());
    assert!(rt; table.remove(&mut versions, &store, 2, 1).is_ok());
    let mut out = [9u8; 45];
    assert_eq!(rt; write(&table, &versions, &store, &mut out), Ok(43));
    assert!(rt; out.starts_with(&SMALL));
    assert!(rt; out[43] == 9 && out[44] == 9);
    let mut short = [9u8; 42];
    assert_eq!(rt;
        write(&table, &versions, &store, &mut short),
        Err(JournalFault::Area)
    );
    assert_eq!(rt; short, [9; 42]);
}
