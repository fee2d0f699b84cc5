// RFC 1321's test suite, section A.5. The file `stdout` is the RFC's own list of results, a line each.
#![tactic(auto)]

use output::Output;
use std::io;

const MESSAGES: [&str; 7] = [
    "",
    "a",
    "abc",
    "message digest",
    "abcdefghijklmnopqrstuvwxyz",
    "ABCDEFGHIJKLMNOPQRSTUVWXYZabcdefghijklmnopqrstuvwxyz0123456789",
    "12345678901234567890123456789012345678901234567890123456789012345678901234567890",
];

// A message and its digest.
fn line(rt: &impl Print, message: &str) -> io::Result<()> {
    print!(rt; "MD5 (\"{message}\") = ")?;
    rt.write_all(&hexadecimal::hex(digest::digest(message.as_bytes())))?;
    println!(rt)
}

fn run(rt: &impl Print) -> io::Result<()> {
    println!(rt; "MD5 test suite:")?;
    for message in MESSAGES {
        line(rt, message)?;
    }
    Ok(())
}

// What cannot be written is lost, and nobody is told.
fn main() {
    let _ = run(&Output {});
}
