// Whether the file on standard input is signed, by the newer edition and the old rule of letters: `signed` and the digest, or `refused`, the
// number and the place, tab-parted.
#![tactic(auto)]

use output::Output;
use signature::Answer;

// Standard input, by its number.
const STDIN_FILENO: i32 = 0;

// Reads the file to its end, in blocks of 4,096 bytes. The 2^52 - 1 blocks that it may read hold nearly 2^64 bytes, where the count of bytes
// would wrap; no file is so long.
fn answer() -> Answer {
    let mut block = io::buffer();
    let mut s = intake::start(book::ascii());
    for _ in 0..4503599627370495u64 {
        let n = io::read_full(STDIN_FILENO, &mut block);
        s = intake::take(s, &block[..n]);
        if n < 4096 {
            break;
        }
    }
    intake::tell(s)
}

fn run(rt: &impl Print) -> std::io::Result<()> {
    let a = answer();
    match a.number {
        0 => {
            print!(rt; "signed\t")?;
            rt.write_all(&hexadecimal::hex(a.digest))?;
            println!(rt)
        }
        number => println!(rt; "refused\t{number}\t{}", a.place),
    }
}

// What cannot be written is lost, and nobody is told.
fn main() {
    let _ = run(&Output {});
}
