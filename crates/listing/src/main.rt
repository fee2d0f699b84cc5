// The listing of the file on standard input (01, The listing, whole): how many items it has and a line for each, or the refusal.
#![tactic(auto)]

use output::Output;
use sequence::Refusal;

// Standard input, by its number.
const STDIN_FILENO: i32 = 0;

// There is a byte more.
fn is_more() -> bool {
    io::read_full(STDIN_FILENO, &mut [0]) > 0
}

// The line of item k.
fn print_item(rt: &impl Print, k: u64, words: &[u64]) -> std::io::Result<()> {
    let mut text = [0; 351];
    let n = lines::item_line(&mut text, k, words);
    rt.write_all(&text[..n])
}

// The lines of all items; the store is looked at once for each 1,024 of them.
fn print_items(
    rt: &impl Print,
    head: &[u64; 8],
    entries: &[u64],
    apertures: &[u64],
    total: u64,
) -> std::io::Result<()> {
    let mut words = [0; 15360];
    for first in (0..total).step_by(1024) {
        // The total says that the store is a sheet, and the first item lies below it.
        let _ = descend::sheet_run(head, entries, apertures, first, &mut words);
        for (k, item) in (first..total).zip(words.chunks_exact(place::ITEM_WORDS)) {
            print_item(rt, k, item)?;
        }
    }
    Ok(())
}

fn refuse(rt: &impl Print, refusal: Refusal) -> std::io::Result<()> {
    println!(rt; "refused\t{}\t{}", refusal.number, refusal.place)
}

// Reads and lists a file by the old rule of letters, in the room of decision 266.
fn list(rt: &impl Print, file: &[u8]) -> std::io::Result<()> {
    let mut head = [0; 8];
    let mut entries = [0; 245760];
    let mut apertures = [0; 65536];
    let mut macros = [0; 65536];
    let mut numbers = [0; 131072];
    let read = reader::read_as(
        book::ascii(),
        file,
        &mut head,
        &mut entries,
        &mut apertures,
        &mut macros,
        &mut numbers,
    );
    if let Err(refusal) = read {
        return refuse(rt, refusal);
    }
    let Some(total) = descend::sheet_total(&head, &entries, &apertures) else {
        return refuse(
            rt,
            Refusal {
                number: 21,
                place: 0,
            },
        );
    };
    println!(rt; "items\t{total}")?;
    print_items(rt, &head, &entries, &apertures, total)
}

// Lists the file on standard input; the room for it is made only where it is not too long.
fn run(rt: &impl Print) -> std::io::Result<()> {
    let mut room = io::large_buffer();
    let n = io::read_full(STDIN_FILENO, &mut room);
    if is_more() {
        return refuse(
            rt,
            Refusal {
                number: 1,
                place: 0,
            },
        );
    }
    list(rt, &room[..n])
}

// What cannot be written is lost, and nobody is told.
fn main() {
    let _ = run(&Output {});
}
