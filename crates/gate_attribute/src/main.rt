// Attributes asked of the file on standard input, by the newer edition and the old rule of letters: three names, as TA and as TO, at every
// place. A line for each answer but 22: what was asked, then the answer as the second reader writes it.
#![tactic(auto)]

use attribute_call::Kind;
use output::Output;

// Standard input, by its number.
const STDIN_FILENO: i32 = 0;

// The letters of the command that sets such an attribute.
fn letters(kind: Kind) -> &'static str {
    match kind {
        Kind::Aperture => "TA",
        Kind::Object => "TO",
    }
}

// One question and its answer, the place and length of the value or the number of the refusal, if a command begins at the place.
fn ask(rt: &impl Print, file: &[u8], kind: Kind, place: usize, name: &str) -> std::io::Result<()> {
    let a = attribute_call::attribute(book::ascii(), file, kind, place, name.as_bytes());
    let letters = letters(kind);
    match a.number {
        0 => println!(rt;
            "{letters}\t{place}\t{name}\tattribute\t{}\t{}",
            a.place, a.length
        ),
        22 => Ok(()),
        number => println!(rt; "{letters}\t{place}\t{name}\trefused\t{number}"),
    }
}

// A name at every place.
fn everywhere(rt: &impl Print, file: &[u8], name: &str) -> std::io::Result<()> {
    for place in 0..file.len() {
        ask(rt, file, Kind::Aperture, place, name)?;
        ask(rt, file, Kind::Object, place, name)?;
    }
    Ok(())
}

fn run(rt: &impl Print) -> std::io::Result<()> {
    let mut room = io::large_buffer();
    let n = io::read_full(STDIN_FILENO, &mut room);
    for name in ["a", ".N", "a,b"] {
        everywhere(rt, &room[..n], name)?;
    }
    Ok(())
}

// What cannot be written is lost, and nobody is told.
fn main() {
    let _ = run(&Output {});
}
