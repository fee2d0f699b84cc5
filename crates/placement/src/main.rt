// The placement list of the component layer on standard input (02, [4]), or the refusal.
#![tactic(auto)]

ghost use Rattle.std.specs.Prelude.{◌≡◌, length};

use output::Output;

// Standard input, by its number.
const STDIN_FILENO: i32 = 0;

// There is a byte more.
fn is_more() -> bool {
    io::read_full(STDIN_FILENO, &mut [0]) > 0
}

// 524,288 zeros, the room for the list. The `ensures` gives only the length, which lending the array as a slice needs.
fn out_room() -> [u8; 524288]
    ensures { 524288 ≡ length result }
{
    [0; 524288]
}

fn refuse(rt: &impl Print, number: u64, place: usize) -> std::io::Result<()> {
    println!(rt; "refused\t{number}\t{place}")
}

// Prints the list of a file by the newer edition and the old rule of letters. A file of 65,536 bytes has no more D01, D03, AD and TO of `.C` or
// `.P` than there is room for here.
fn list(rt: &impl Print, file: &[u8]) -> std::io::Result<()> {
    let mut head = [0; 8];
    let mut entries = [0; 245760];
    let mut apertures = [0; 65536];
    let mut macros = [0; 32768];
    let mut numbers = [0; 65536];
    let mut notes = [0; 212992];
    let mut names = [0; 76800];
    let mut roles = [0; 65536];
    let mut pins = [0; 65536];
    let mut out = out_room();
    let a = placement_call::placement(
        book::ascii(),
        file,
        &mut head,
        &mut entries,
        &mut apertures,
        &mut macros,
        &mut numbers,
        &mut notes,
        &mut names,
        &mut roles,
        &mut pins,
        &mut out,
    );
    match a.number {
        0 => rt.write_all(base::up_to(&out, a.bytes)),
        number => refuse(rt, number, a.place),
    }
}

// Lists the file on standard input; the room for it is made only where it is not too long.
fn run(rt: &impl Print) -> std::io::Result<()> {
    let mut room = io::large_buffer();
    let n = io::read_full(STDIN_FILENO, &mut room);
    if is_more() {
        return refuse(rt, 1, 0);
    }
    list(rt, &room[..n])
}

// What cannot be written is lost, and nobody is told.
fn main() {
    let _ = run(&Output {});
}
