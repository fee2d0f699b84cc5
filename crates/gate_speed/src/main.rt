// What bench/digest times: the digest of 16 MB of text, in blocks of 4,096 bytes as the intake program sees them.
#![tactic(auto)]

ghost use Rattle.std.specs.Prelude.{◌≡◌, length, replicate};
ghost use Rattle.digest.specs.Runs.{started, finished, in_runs};
ghost use Rattle.digest.specs.Text.{unbroken};

use output::Output;
use std::io;

// A block of text, an LF after each 19 bytes.
fn lines() -> [u8; 4096]
    ensures { 4096 ≡ length result }
{
    let mut text = [b'X'; 4096];
    for end in text.iter_mut().skip(19).step_by(20) {
        *end = b'\n';
    }
    text
}

// The digest of a text that comes n times.
fn repeated(text: &[u8], n: usize) -> [u8; 16]
    ensures { result ≡ finished (in_runs started (replicate n (unbroken text.now))) }
{
    let mut s = digest::start();
    for _ in 0..n {
        s = digest::feed_text(s, text);
    }
    digest::finish(s)
}

fn run(rt: &impl Print) -> io::Result<()> {
    let text = lines();
    rt.write_all(&hexadecimal::hex(repeated(&text, 4096)))?;
    println!(rt)
}

// What cannot be written is lost, and nobody is told.
fn main() {
    let _ = run(&Output {});
}
