// Trials of the archive beside a second implementation, over plain lists: a line for each combination of a kind of reading, a summary, a store and its
// layers; then what versions of three sizes cost.
#![tactic(auto)]

mod combinations;
mod comparing;
mod drawing;
mod draws;
mod kinds;
mod line;
mod plain;
mod plan;
mod played;
mod scale;
mod scans;
mod trial;

use combinations::combine;
use reading::{Count, Single};
use std::io;
use summary::{Peak, Swing, Tally};
use trial::scale;

// The costs with levels all 0 or drawn; answers how many differences there were.
fn print_costs(rt: &(impl AllocGlobal + Print), levels: &str, drawn: bool) -> io::Result<u32> {
    let (costs, so_many) = scale(rt.alloc(), drawn)?;
    for cost in costs {
        println!(rt; "{levels} {cost}")?;
    }
    Ok(so_many)
}

fn main(rt: HostRuntime) -> io::Result<()> {
    println!(rt;
        "reading summary store layers calls accepted 1 2 3 4 5 6 7 8/1 8/2 8/3 9 differences insert change removal"
    )?;
    let so_many = [
        combine::<Count, Peak<Count>>(&rt, "count peak", 1)?,
        combine::<Count, Tally<Count>>(&rt, "count tally", 2)?,
        combine::<Count, Swing>(&rt, "count swing", 3)?,
        combine::<Single, Peak<Single>>(&rt, "float peak", 4)?,
        combine::<Single, Tally<Single>>(&rt, "float tally", 5)?,
    ];
    println!(rt; "levels blocks nodes path longest insert change removal")?;
    let more = [
        print_costs(&rt, "zero", false)?,
        print_costs(&rt, "drawn", true)?,
    ];
    let all = so_many
        .iter()
        .chain(more.iter())
        .fold(0u32, |sum, n| sum.saturating_add(*n));
    println!(rt; "differences {all}")
}
