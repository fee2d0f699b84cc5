// Lists of items of one sheet, in runs of several lengths: the runs from the same items on join, and a store that is no sheet, or a run that
// begins past the total, leaves zero items. The file `stdout` was made by a second program, from docs/SHEET.md and document 01 alone.
#![tactic(auto)]

mod table;

use output::Output;
use place::Item;
use std::io;

// An item's fields, in the order of documents 01 and 02.
fn line(rt: &impl Print, item: &Item) -> io::Result<()> {
    let Item {
        kind,
        aperture,
        angle,
        scale,
        start,
        end,
        centre,
        count,
        place,
        outer,
        ..
    } = *item;
    let clear = u64::from(item.clear);
    let flip = u64::from(item.flip);
    print!(rt; "{kind} {aperture} {clear} {flip} {angle} {scale}")?;
    for point in [start, end, centre] {
        print!(rt; " {} {}", point.x, point.y)?;
    }
    println!(rt; " {count} {place} {outer}")
}

// A list of m slots from item k on: the call's number, then its slots.
fn run(rt: &impl Print, head: &[u64; 8], k: u64, m: usize) -> io::Result<()> {
    let b = lists::run_of(head, &table::ENTRIES, &table::APERTURES, k, m);
    println!(rt; "from {k} number {}", b.number)?;
    for item in b.items.iter().take(m) {
        line(rt, item)?;
    }
    Ok(())
}

// All of them.
fn runs(rt: &impl Print) -> io::Result<()> {
    let head = table::HEAD;
    let mut spoilt = table::HEAD;
    spoilt[1] = 3;
    let asked = [
        (0, 8),
        (8, 8),
        (0, 3),
        (3, 1),
        (4, 0),
        (4, 7),
        (11, 5),
        (13, 2),
    ];
    for (k, m) in asked {
        run(rt, &head, k, m)?;
    }
    run(rt, &spoilt, 0, 2)
}

// What cannot be written is lost, and nobody is told.
fn main() {
    let _ = runs(&Output {});
}
