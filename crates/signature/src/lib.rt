// The signature of a file: the `.MD5` just before M02 compared with the digest of what stands before it.
#![tactic(auto)]

ghost use Rattle.std.specs.Prelude.{◌≡◌};
ghost use Rattle.digest.specs.Md5.{md5};
ghost use Rattle.digest.specs.Runs.{finished};
ghost use Rattle.digest.specs.Text.{unbroken};
ghost use Rattle.signature.specs.Form.{is_end, is_signature};
ghost use Rattle.signature.specs.Held.{nothing, noted, noted_all, text_of};
ghost use Rattle.signature.specs.Signature.{refused, judged, bare, at_end, signature_of};

use book::Book;
use digest::State;
use scan::{Scan, Tail};

// A refusal's number and place, with a digest of zeros; or 0 and 0, with the digest that the file bears.
#[derive(Clone, Copy)]
pub struct Answer {
    pub number: u64,
    pub place: usize,
    pub digest: [u8; 16],
}

// The first bytes of a command, CR and LF left out, and how many there are.
#[derive(Clone, Copy)]
pub struct Held {
    bytes: [u8; 43],
    count: usize,
}

// The bytes are a signature.
#[tactic(auto, using(base::proofs::Or::joins), unfolding(crate::specs::Form::is_signature, crate::specs::Form::digits_of))]
fn is_signature(s: &[u8]) -> bool
    ensures { result ≡ is_signature s.now }
{
    text::begins(s, b"%TF.MD5,")
        && hexadecimal::are_digits(base::part(s, 8, 40))
        && text::is(base::from_on(s, 40), b"*%")
}

// Nothing of a command yet.
#[tactic(auto, unfolding(crate::specs::Held::nothing))]
pub fn none() -> Held
    ensures { result ≡ nothing }
{
    Held {
        bytes: [0; 43],
        count: 0,
    }
}

// A byte more of a command.
#[tactic(auto, unfolding(crate::specs::Held::noted))]
fn note(h: Held, b: u8) -> Held
    ensures { result ≡ noted h b }
{
    let n = h.count;
    if n < 43 {
        let mut bytes = h.bytes;
        bytes[n] = b;
        return Held {
            bytes,
            count: n + 1,
        };
    }
    h
}

// A run more of a command, CR and LF left out.
pub fn hold(h: Held, t: &[u8]) -> Held
    ensures { result ≡ noted_all h (unbroken t.now) }
{
    let mut g = h;
    for &b in t {
        if base::is_break(b) {
            continue;
        }
        g = note(g, b);
    }
    g
}

// What is held is M02, as a book writes it.
#[tactic(auto, using(base::proofs::Or::joins), unfolding(crate::specs::Form::is_end, crate::specs::Held::text_of))]
pub fn holds_end(book: Book, h: Held) -> bool
    ensures { result ≡ is_end book (text_of h) }
{
    let bytes = h.bytes;
    let t = base::up_to(&bytes, h.count);
    let short = book::is_old(book) && text::is(t, b"M2*");
    text::is(t, b"M02*") || short
}

// A refusal.
#[tactic(auto, unfolding(crate::specs::Signature::refused))]
pub fn refuse(number: u64, place: usize) -> Answer
    ensures { result ≡ refused number place }
{
    Answer {
        number,
        place,
        digest: [0; 16],
    }
}

// M02 stands at this place, h is held of the command before it, and s is the digest of what stands before that.
pub fn judge(place: usize, h: Held, s: State) -> Answer
    ensures { result ≡ judged place (text_of h) (finished s) }
{
    let bytes = h.bytes;
    let t = base::up_to(&bytes, h.count);
    if is_signature(t) {
        let d = digest::finish(s);
        if hexadecimal::same_digits(base::part(t, 8, 40), &hexadecimal::hex(d)) {
            return Answer {
                number: 0,
                place: 0,
                digest: d,
            };
        }
        return refuse(24, place);
    }
    refuse(25, place)
}

// The bytes from one place up to another are M02.
fn is_last(book: Book, file: &[u8], place: usize, next: usize) -> bool
    ensures { result ≡ is_end book (bare file.now place next) }
{
    holds_end(book, hold(none(), base::part(file, place, next)))
}

// M02 stands at this place, and the command before it from `from` up to `to`.
fn judge_part(file: &[u8], from: usize, to: usize, place: usize) -> Answer
    ensures { result ≡ judged place (bare file.now from to) (md5 (bare file.now 0 from)) }
{
    let h = hold(none(), base::part(file, from, to));
    let s = digest::feed_text(digest::start(), base::part(file, 0, from));
    judge(place, h, s)
}

// M02 stands from `place` up to `next`, and the command before it from `from` up to `to`.
fn at_end(file: &[u8], from: usize, to: usize, place: usize, next: usize) -> Answer
    ensures { result ≡ at_end file.now from to place next }
{
    let tail = scan::tail_from(file, next);
    match tail {
        Tail::Clean => judge_part(file, from, to, place),
        Tail::More { place: more } => judge_part(file, from, to, place),
        Tail::Unprintable { place: bad } => refuse(2, bad),
    }
}

// Whether a file is signed, by a book: its digest, or the refusal.
pub fn check(book: Book, file: &[u8]) -> Answer
    ensures { result ≡ signature_of book file.now }
{
    let mut from: usize = 0;
    let mut at: usize = 0;
    // The file's next command is known only once this one is cut: no iterator walks so.
    loop {
        let s = scan::next_command(book, file, at);
        match s {
            Scan::Command { place, next, .. } => {
                if is_last(book, file, place, next) {
                    return at_end(file, from, at, place, next);
                }
                from = place;
                at = next;
            }
            Scan::BadByte { place } => {
                return refuse(2, place);
            }
            Scan::Ended { place } => {
                return refuse(3, place);
            }
        }
    }
}
