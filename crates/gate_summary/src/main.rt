// The summary of a sheet of 10^12 items from 41 entries, its coordinates at both ends of their range: ten rows and a spare one; then with
// a row too few, with a word of scratch too few, and of a store that is no sheet. The file `stdout` was made by a second program, which
// writes the items of one copy out and goes over them.
#![tactic(auto)]

ghost use Rattle.std.specs.Prelude.{◌≡◌, length};

use output::Output;
use sheet::Entry;
use std::io;
use summary_by_aperture::SummaryError;

const MARK: u64 = 5716828633109713478;

// 2·10^12, and the same below zero.
const FAR: u64 = 2000000000000;

const BACK: u64 = 18446742073709551616;

// The sheet of `gate_edges`, built here again: a program of the gate stands alone, and a library would say it a second time in its contract.

// A block: its first entry, how many entries it has, and how many items.
#[derive(Clone, Copy)]
struct Block {
    first: u8,
    entries: u8,
    items: u16,
}

fn block_at(first: u8, entries: u8, items: u16) -> Block {
    Block {
        first,
        entries,
        items,
    }
}

// The entries of each block but the lowest are uses of the block before it.
fn blocks() -> [Block; 8] {
    [
        block_at(0, 5, 5),
        block_at(5, 5, 25),
        block_at(10, 5, 125),
        block_at(15, 5, 625),
        block_at(20, 5, 3125),
        block_at(25, 2, 6250),
        block_at(27, 2, 12500),
        block_at(29, 2, 25000),
    ]
}

const BLANK: Entry = Entry {
    kind: 0,
    before: 0,
    who: 0,
    clear: 0,
    flip: 0,
    angle: 0,
    scale: 0,
    sx: 0,
    sy: 0,
    ex: 0,
    ey: 0,
    cx: 0,
    cy: 0,
    count: 0,
    place: 0,
};

// Stores entry i, where there is room for it.
fn put(e: &mut [u64; 615], i: usize, r: Entry) {
    if i < 41 {
        sheet::put_entry(e, i, r);
    }
}

// An item of kind j + 1, j items after the start of its container; points that its kind does not use are 0.
fn item(j: u8) -> Entry {
    let j = u64::from(j);
    let centre = match j {
        1 => BACK,
        2 => FAR,
        _ => 0,
    };
    Entry {
        kind: j + 1,
        before: j,
        who: 10,
        flip: u64::from(j == 3),
        angle: if j == 4 { 0 } else { j * 30000000 },
        scale: 1000000,
        sx: if j == 3 { 0 } else { FAR },
        sy: if j == 3 { 0 } else { BACK },
        ex: if j == 4 { 0 } else { BACK },
        ey: if j == 4 { 0 } else { FAR },
        cx: centre,
        cy: centre,
        count: if j == 4 { 7 } else { 0 },
        place: 100 + j,
        ..BLANK
    }
}

// The j-th use of the block in aperture record `who`, which has so many items: turned by j quarters, every other one flipped and clear.
fn flash(j: u8, who: u64, items: u16) -> Entry {
    let j = u64::from(j);
    let odd = j % 2;
    Entry {
        kind: 9,
        before: j * u64::from(items),
        who,
        clear: odd,
        flip: odd,
        angle: j % 4 * 90000000,
        ex: if odd == 1 { BACK } else { FAR },
        ey: FAR,
        place: 200 + j,
        ..BLANK
    }
}

// The definition of the block in aperture record b.
fn definition(b: u64) -> Entry {
    Entry {
        kind: 11,
        who: b,
        place: 300,
        ..BLANK
    }
}

// 8,000 by 5,000 copies of the body, which is entry 31 and has 25,000 items; 10^12 apart each way.
fn repeat() -> Entry {
    Entry {
        kind: 10,
        who: 31,
        scale: 1,
        sx: 8000,
        sy: 5000,
        cx: 1000000000000,
        cy: 1000000000000,
        count: 25000,
        place: 400,
        ..BLANK
    }
}

// The lowest block has five items, each other uses of the one before it.
fn put_blocks(e: &mut [u64; 615]) {
    for j in 0..5 {
        put(e, usize::from(j), item(j));
    }
    let blocks = blocks();
    for (who, (below, block)) in (0..).zip(blocks.iter().zip(&blocks[1..])) {
        for j in 0..block.entries {
            let i = usize::from(block.first) + usize::from(j);
            put(e, i, flash(j, who, below.items));
        }
    }
}

// The blocks, the body and the top level.
fn entries() -> [u64; 615]
    ensures { 615 ≡ length result }
{
    let mut e = [0; 615];
    put_blocks(&mut e);
    put(&mut e, 31, flash(0, 7, 0));
    for b in 0..8u8 {
        put(&mut e, 32 + usize::from(b), definition(u64::from(b)));
    }
    put(&mut e, 40, repeat());
    e
}

// An aperture record for each block, and one for the aperture that the items have.
fn apertures() -> [u64; 72]
    ensures { 72 ≡ length result }
{
    let mut a = [0; 72];
    let blocks = blocks();
    for (b, record) in a[..64].chunks_exact_mut(sheet::APERTURE_WORDS).enumerate() {
        let block = blocks[b];
        let b = b as u64;
        let first = u64::from(block.first);
        let entries = u64::from(block.entries);
        let items = u64::from(block.items);
        record.copy_from_slice(&[11 + b, 6, first, entries, items, 1 + b, 0, 0]);
    }
    a[64] = 10;
    a[65] = 1;
    a
}

// The number of the call's outcome.
fn outcome(rt: &impl Print, r: Result<(), SummaryError>) -> io::Result<()> {
    match r {
        Ok(()) => println!(rt; "0"),
        Err(SummaryError::Short) => println!(rt; "17"),
        Err(SummaryError::NotSheet) => println!(rt; "21"),
    }
}

// The rows, a line each, of words as the signed numbers that they are.
fn lines(rt: &impl Print, rows: &[u64; 55]) -> io::Result<()> {
    for row in rows.chunks_exact(summary_by_aperture::ROW_WORDS) {
        print!(rt; "{}", row[0].cast_signed())?;
        for word in &row[1..] {
            print!(rt; " {}", word.cast_signed())?;
        }
        println!(rt)?;
    }
    Ok(())
}

// The call with some scratch, of which eight words for each of nine aperture records are enough, and a row to spare.
fn ask(
    rt: &impl Print,
    head: &[u64; 8],
    e: &[u64; 615],
    a: &[u64; 72],
    scratch: &mut [u64],
) -> io::Result<()> {
    let mut rows = [7; 55];
    let r = summary::summary(head, e, a, scratch, &mut rows);
    outcome(rt, r)?;
    lines(rt, &rows)
}

// A word too few for ten rows.
fn few_rows(rt: &impl Print, head: &[u64; 8], e: &[u64; 615], a: &[u64; 72]) -> io::Result<()> {
    let mut scratch = [7; 72];
    let mut rows = [7; 49];
    let r = summary::summary(head, e, a, &mut scratch, &mut rows);
    outcome(rt, r)?;
    println!(rt; "{}", rows[48].cast_signed())
}

fn run(rt: &impl Print) -> io::Result<()> {
    let head = [MARK, 1, 41, 9, 0, 0, 9, 1000000000000];
    let none = [0; 8];
    let e = entries();
    let a = apertures();
    ask(rt, &head, &e, &a, &mut [7; 72])?;
    few_rows(rt, &head, &e, &a)?;
    ask(rt, &head, &e, &a, &mut [7; 71])?;
    ask(rt, &none, &e, &a, &mut [7; 72])
}

// What cannot be written is lost, and nobody is told.
fn main() {
    let _ = run(&Output {});
}
