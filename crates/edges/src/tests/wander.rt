// Tables of calls that look random; every one of them is to be accepted.
use super::outcome::Outcome;
use super::plain::Lists;
use runs::Call;
use std::alloc::Global;
use std::test::Fail;

// The next of a fixed sequence of numbers that looks random. The tests of summaries have the same lines: a library would have to make them public.
pub(super) fn next(seed: u32) -> u32 {
    seed.wrapping_mul(1_664_525).wrapping_add(1_013_904_223)
}

// An edit of a base that has so many blocks.
fn drawn(seed: u32, base: u32, has: u32) -> Call {
    let level = ((seed >> 20) & 3) as u8;
    let from = ((seed >> 12) & 63) as usize;
    let len = 1 + ((seed >> 10) & 1) as usize;
    let kind = seed >> 28;
    if has == 0 || kind > 9 {
        let place = (seed >> 3) % (has.min(1000) + 1);
        return Call::Insert {
            base,
            place,
            level,
            from,
            len,
        };
    }
    let place = (seed >> 3) % has;
    match kind {
        8.. => Call::Append { base, from, len },
        4.. => Call::Change {
            base,
            place,
            from,
            len,
        },
        _ => Call::Remove { base, place },
    }
}

// So many edits, most of them of the newest version, the first twelve all inserts.
pub(super) fn wander(heap: Global, start: u32, n: u32) -> Result<Vec<(Call, Outcome)>, Fail> {
    let mut calls = Vec::new(heap);
    let mut lists = Lists::begin(heap)?;
    let mut seed = start;
    for k in 0..n {
        seed = next(seed);
        let base = if seed >> 28 < 13 { k } else { seed % (k + 1) };
        seed = next(seed);
        let chosen = if k < 12 { seed | 0xF000_0000 } else { seed };
        let call = drawn(chosen, base, lists.count(base));
        let edit = lists.edit(call).ok_or("no edit")?;
        lists.follow(edit)?;
        calls.push((call, Outcome::Accepted(k + 1, None)))?;
    }
    Ok(calls)
}
