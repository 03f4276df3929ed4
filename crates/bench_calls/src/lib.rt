//! Calls of the library for a program that is not written in Rattle, as the benchmark is. Each loads a journal into tables of its own, carries out rounds of
//! calls on the archive that the journal gives, and tells one number of all replies, by which two implementations can be compared. It takes the time of the
//! load and of the rounds, so that the rounds' time is what it takes longer than with none. A row that is put in is the first readings of the row area, as
//! the load left it. Each is thin over a function of the same name, which can fail for want of memory.
#![tactic(auto)]

ghost use Rattle.std.specs.Prelude.{◌+◌, ◌%◌, ◌^◌, [], map, IsTrue};
ghost use Rattle.runs.specs.declared.call.Call.TheVariants as call;
ghost use Rattle.bench_calls.specs.Timed.{Timed};

use std::alloc::Global;

mod asking;
mod digests;
mod rounds;
mod tables;
mod told;

pub use told::Told;

/// No call: the load alone.
#[unsafe(no_mangle)]
pub extern "C" fn bench_calls_load(heap: Global, journal: &[u8]) -> Told
    ensures { IsTrue result.done → Timed journal.now [] 0 result.number }
{
    Told::of(asking::load(heap, journal))
}

/// As many appends to a version as there are numbers.
#[unsafe(no_mangle)]
pub extern "C" fn bench_calls_append(
    heap: Global,
    journal: &[u8],
    base: u32,
    len: u32,
    times: &[u32],
    rounds: u32,
) -> Told
    ensures { IsTrue result.done → Timed journal.now (map (λ n. call.Append base 0 len) times.now)
        rounds result.number }
{
    Told::of(asking::append(heap, journal, base, len, times, rounds))
}

/// An insert at each place.
#[unsafe(no_mangle)]
pub extern "C" fn bench_calls_insert(
    heap: Global,
    journal: &[u8],
    base: u32,
    level: u8,
    len: u32,
    places: &[u32],
    rounds: u32,
) -> Told
    ensures { IsTrue result.done → Timed journal.now
        (map (λ place. call.Insert base place level 0 len) places.now) rounds result.number }
{
    Told::of(asking::insert(heap, journal, base, level, len, places, rounds))
}

/// The reading at each position.
#[unsafe(no_mangle)]
pub extern "C" fn bench_calls_reading(
    heap: Global,
    journal: &[u8],
    version: u32,
    positions: &[u32],
    rounds: u32,
) -> Told
    ensures { IsTrue result.done → Timed journal.now
        (map (λ position. call.Reading version position) positions.now) rounds result.number }
{
    Told::of(asking::reading(heap, journal, version, positions, rounds))
}

/// So many readings from each start on, written to the output's start.
#[unsafe(no_mangle)]
pub extern "C" fn bench_calls_span(
    heap: Global,
    journal: &[u8],
    version: u32,
    len: u32,
    starts: &[u32],
    rounds: u32,
) -> Told
    ensures { IsTrue result.done → Timed journal.now
        (map (λ a. call.Span version a ((a + len) % 2 ^ 32) 0) starts.now) rounds
        result.number }
{
    Told::of(asking::span(heap, journal, version, len, starts, rounds))
}

/// The summary of so many readings from each start on.
#[unsafe(no_mangle)]
pub extern "C" fn bench_calls_summary(
    heap: Global,
    journal: &[u8],
    version: u32,
    len: u32,
    starts: &[u32],
    rounds: u32,
) -> Told
    ensures { IsTrue result.done → Timed journal.now
        (map (λ a. call.Summary version a ((a + len) % 2 ^ 32)) starts.now) rounds
        result.number }
{
    Told::of(asking::summary(heap, journal, version, len, starts, rounds))
}

#[cfg(test)]
mod tests;
