// The trials of one kind of reading and one summary, over one kind of store under no, one and two layers.
use crate::kinds::Kind;
use crate::line::Line;
use crate::plain::rows::Rows;
use crate::plan::{Plan, plans};
use crate::scans::Scan;
use crate::trial::Trial;
use sharing::Sharing;
use std::alloc::{AllocError, Global};
use std::io;
use store::{BlockStore, FlashStore, RowStore};

// A trial over three stores alike, under no, one and two layers; their rows, whose room is in readings of a width, stand in plain lists too.
fn on_piles<S: BlockStore<Reading = R> + Drop, R: Kind, Q: Scan<Reading = R> + PartialEq>(
    trial: &Trial<R>,
    plain: [Rows; 3],
    mut bare: S,
    mut below: S,
    lowest: S,
    lines: [Line; 3],
) -> Result<[Line; 3], AllocError> {
    let [none, one, two] = lines;
    let [first, second, third] = plain;
    let rows = trial.fill(first, &mut bare)?;
    let none = trial.run::<S, Q>(none, rows, bare)?;
    let rows = trial.fill(second, &mut below)?.covered()?;
    let one = trial.run::<Sharing<S>, Q>(one, rows, Sharing::new(below))?;
    let mut inner = Sharing::new(lowest);
    let rows = trial.fill(third.covered()?, &mut inner)?.covered()?;
    let two = trial.run::<Sharing<Sharing<S>>, Q>(two, rows, Sharing::new(inner))?;
    Ok([none, one, two])
}

// Three stores of no rows, alike.
fn three(heap: Global, room: usize, width: usize) -> [Rows; 3] {
    [
        Rows::begin(heap, room, width),
        Rows::begin(heap, room, width),
        Rows::begin(heap, room, width),
    ]
}

// One plan on row stores.
fn on_rows<R: Kind, Q: Scan<Reading = R> + PartialEq>(
    heap: Global,
    plan: Plan,
    lines: [Line; 3],
) -> Result<[Line; 3], AllocError> {
    let trial = Trial::<R>::new(heap, plan)?;
    let plain = three(heap, plan.area, 1);
    let mut a = vec![in heap; R::drawn(0); plan.area]?;
    let mut b = vec![in heap; R::drawn(0); plan.area]?;
    let mut c = vec![in heap; R::drawn(0); plan.area]?;
    on_piles::<RowStore<R>, R, Q>(
        &trial,
        plain,
        RowStore::new(&mut a),
        RowStore::new(&mut b),
        RowStore::new(&mut c),
        lines,
    )
}

// One plan on flash stores, whose areas have a byte over.
fn on_flash<R: Kind, Q: Scan<Reading = R> + PartialEq>(
    heap: Global,
    plan: Plan,
    lines: [Line; 3],
) -> Result<[Line; 3], AllocError> {
    let trial = Trial::<R>::new(heap, plan)?;
    let room = plan.area.saturating_mul(R::WIDTH).saturating_add(1);
    let plain = three(heap, room, R::WIDTH);
    let mut a = vec![in heap; 0u8; room]?;
    let mut b = vec![in heap; 0u8; room]?;
    let mut c = vec![in heap; 0u8; room]?;
    on_piles::<FlashStore<R>, R, Q>(
        &trial,
        plain,
        FlashStore::new(&mut a),
        FlashStore::new(&mut b),
        FlashStore::new(&mut c),
        lines,
    )
}

// The three lines of one kind of store.
fn print_lines(rt: &impl Print, names: &str, store: &str, lines: &[Line; 3]) -> io::Result<()> {
    for (layers, line) in lines.iter().enumerate() {
        println!(rt; "{names} {store} {layers} {line}")?;
    }
    Ok(())
}

// The six lines of one kind of reading and one summary; answers how many differences there were.
pub(crate) fn combine<R: Kind, Q: Scan<Reading = R> + PartialEq>(
    rt: &(impl AllocGlobal + Print),
    names: &str,
    seed: u32,
) -> io::Result<u32> {
    let heap = rt.alloc();
    let mut rows = [Line::empty(); 3];
    let mut flash = [Line::empty(); 3];
    for plan in plans(heap, seed)? {
        rows = on_rows::<R, Q>(heap, plan, rows)?;
    }
    for plan in plans(heap, seed.rotate_left(16))? {
        flash = on_flash::<R, Q>(heap, plan, flash)?;
    }
    print_lines(rt, names, "row", &rows)?;
    print_lines(rt, names, "flash", &flash)?;
    let so_many = rows
        .iter()
        .chain(flash.iter())
        .fold(0u32, |sum, line| sum.saturating_add(line.differences));
    Ok(so_many)
}
