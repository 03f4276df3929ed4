// The calls of each kind, made of numbers, and what is timed of them.
ghost use Rattle.std.specs.Prelude.{◌≡◌, ◌+◌, ◌%◌, ◌^◌, [], map, IfOk};
ghost use Rattle.runs.specs.declared.call.Call.TheVariants as call;
ghost use Rattle.bench_calls.specs.Timed.{Timed};

use crate::tables::timed;
use runs::Call;
use std::alloc::{AllocError, Global};

fn appends(heap: Global, base: u32, len: u32, times: &[u32]) -> Result<Vec<Call>, AllocError>
    ensures { IfOk result (λ calls. calls.items ≡ map (λ n. call.Append base 0 len) times.now) }
{
    times
        .iter()
        .map(|_| Call::Append {
            base,
            from: 0,
            len: len as usize,
        })
        .collect(heap)
}

fn inserts(
    heap: Global,
    base: u32,
    level: u8,
    len: u32,
    places: &[u32],
) -> Result<Vec<Call>, AllocError>
    ensures { IfOk result
        (λ calls. calls.items ≡ map (λ place. call.Insert base place level 0 len) places.now) }
{
    places
        .iter()
        .map(|place| Call::Insert {
            base,
            place: *place,
            level,
            from: 0,
            len: len as usize,
        })
        .collect(heap)
}

fn readings(heap: Global, version: u32, positions: &[u32]) -> Result<Vec<Call>, AllocError>
    ensures { IfOk result
        (λ calls. calls.items ≡ map (λ position. call.Reading version position) positions.now) }
{
    positions
        .iter()
        .map(|position| Call::Reading {
            version,
            position: *position,
        })
        .collect(heap)
}

fn spans(heap: Global, version: u32, len: u32, starts: &[u32]) -> Result<Vec<Call>, AllocError>
    ensures { IfOk result
        (λ calls. calls.items ≡ map (λ a. call.Span version a ((a + len) % 2 ^ 32) 0) starts.now) }
{
    starts
        .iter()
        .map(|a| Call::Span {
            version,
            a: *a,
            b: a.wrapping_add(len),
            to: 0,
        })
        .collect(heap)
}

fn summaries(heap: Global, version: u32, len: u32, starts: &[u32]) -> Result<Vec<Call>, AllocError>
    ensures { IfOk result
        (λ calls. calls.items ≡ map (λ a. call.Summary version a ((a + len) % 2 ^ 32)) starts.now) }
{
    starts
        .iter()
        .map(|a| Call::Summary {
            version,
            a: *a,
            b: a.wrapping_add(len),
        })
        .collect(heap)
}

pub(crate) fn load(heap: Global, journal: &[u8]) -> Result<u64, AllocError>
    ensures { IfOk result (λ told. Timed journal.now [] 0 told) }
{
    timed(heap, journal, &[], 0)
}

pub(crate) fn append(
    heap: Global,
    journal: &[u8],
    base: u32,
    len: u32,
    times: &[u32],
    rounds: u32,
) -> Result<u64, AllocError>
    ensures { IfOk result
        (λ told. Timed journal.now (map (λ n. call.Append base 0 len) times.now) rounds told) }
{
    let calls = appends(heap, base, len, times)?;
    timed(heap, journal, calls.as_slice(), rounds)
}

pub(crate) fn insert(
    heap: Global,
    journal: &[u8],
    base: u32,
    level: u8,
    len: u32,
    places: &[u32],
    rounds: u32,
) -> Result<u64, AllocError>
    ensures { IfOk result (λ told. Timed journal.now
        (map (λ place. call.Insert base place level 0 len) places.now) rounds told) }
{
    let calls = inserts(heap, base, level, len, places)?;
    timed(heap, journal, calls.as_slice(), rounds)
}

pub(crate) fn reading(
    heap: Global,
    journal: &[u8],
    version: u32,
    positions: &[u32],
    rounds: u32,
) -> Result<u64, AllocError>
    ensures { IfOk result (λ told. Timed journal.now
        (map (λ position. call.Reading version position) positions.now) rounds told) }
{
    let calls = readings(heap, version, positions)?;
    timed(heap, journal, calls.as_slice(), rounds)
}

pub(crate) fn span(
    heap: Global,
    journal: &[u8],
    version: u32,
    len: u32,
    starts: &[u32],
    rounds: u32,
) -> Result<u64, AllocError>
    ensures { IfOk result (λ told. Timed journal.now
        (map (λ a. call.Span version a ((a + len) % 2 ^ 32) 0) starts.now) rounds told) }
{
    let calls = spans(heap, version, len, starts)?;
    timed(heap, journal, calls.as_slice(), rounds)
}

pub(crate) fn summary(
    heap: Global,
    journal: &[u8],
    version: u32,
    len: u32,
    starts: &[u32],
    rounds: u32,
) -> Result<u64, AllocError>
    ensures { IfOk result (λ told. Timed journal.now
        (map (λ a. call.Summary version a ((a + len) % 2 ^ 32)) starts.now) rounds told) }
{
    let calls = summaries(heap, version, len, starts)?;
    timed(heap, journal, calls.as_slice(), rounds)
}
