use super::*;

// The journal of two inserts, a change and a removal that the documents go through: after it the row area begins with
// −3, 10 and 0.
const JOURNAL: [u8; 43] = [
    1, 1, 1, 2, 0, 0, 0, 0, 1, 0, 2, 5, 0x80, 0, 5, 0, 10, 2, 0, 1, 0, 1, 0, 0, 1, 5, 0, 7, 3, 0,
    1, 0, 0, 0, 1, 5, 0xFF, 0xFD, 4, 0, 2, 0, 0,
];

// Each export answers where there is memory. The numbers were made by hand: what each reply says, mixed one after another.
#[test]
fn answers(rt: HostRuntime) {
    let heap = rt.alloc();
    // five versions
    let load = bench_calls_load(heap, &JOURNAL);
    assert!(rt; load.done);
    assert_eq!(rt; load.number, 2_914_429_833_546_432_517);
    // versions 5 and 6, two nodes each
    let append = bench_calls_append(heap, &JOURNAL, 0, 2, &[0, 0], 1);
    assert!(rt; append.done);
    assert_eq!(rt; append.number, 14_229_934_076_297_896_998);
    // version 5: a fork, the lead again, and the new block
    let insert = bench_calls_insert(heap, &JOURNAL, 1, 0, 1, &[0], 1);
    assert!(rt; insert.done);
    assert_eq!(rt; insert.number, 13_401_958_609_618_866_983);
    // 10 at the end of a path of two nodes, 7 of three
    let reading = bench_calls_reading(heap, &JOURNAL, 2, &[1, 2], 1);
    assert!(rt; reading.done);
    assert_eq!(rt; reading.number, 12_232_619_643_412_355_689);
    // two readings each time; the output then begins with 10 and 7
    let span = bench_calls_span(heap, &JOURNAL, 2, 2, &[0, 1], 1);
    assert!(rt; span.done);
    assert_eq!(rt; span.number, 12_583_438_837_345_498_178);
    // three readings, with the peak 10 at place 1
    let summary = bench_calls_summary(heap, &JOURNAL, 2, 3, &[0], 1);
    assert!(rt; summary.done);
    assert_eq!(rt; summary.number, 13_933_666_755_440_239_129);
}
