// MD5 of a message that comes in runs of any length: RFC 1321.
#![tactic(auto)]

mod table;

ghost use Rattle.std.specs.Prelude.{◌≡◌, ◌/◌, ◌%◌, ◌<◌, not, length, if◌then◌else◌};
ghost use Rattle.digest.specs.Word.{word, words_of, rotated};
ghost use Rattle.digest.specs.Table.{table};
ghost use Rattle.digest.specs.Rounds.{words, mixed, place, amounts, amount, operation, row, four_rounds, added, block};
ghost use Rattle.base.specs.And.{◌and◌};
ghost use Rattle.digest.specs.Md5.{blocks, output, md5};
ghost use Rattle.digest.specs.Runs.{started, pushed, fed, finished};
ghost use Rattle.base.specs.Breaks.{is_break};
ghost use Rattle.digest.specs.Text.{unbroken};

use table::T;

// MD5's work on one block of 64 bytes: RFC 1321, section 3.4. Rounds, and the operations of a round, are counted from 0.

// The four words that a digest goes by, from block to block.
#[derive(Clone, Copy)]
pub struct Words {
    pub a: u32,
    pub b: u32,
    pub c: u32,
    pub d: u32,
}

// The four, in their order.
fn four(a: u32, b: u32, c: u32, d: u32) -> Words
    ensures { result ≡ words a b c d }
{
    Words { a, b, c, d }
}

// x with its bits turned s places to the left.
fn rotate(x: u32, s: u32) -> u32
    requires { (0 < s) × (s < 32) }
    ensures { result ≡ rotated x s }
{
    x.rotate_left(s)
}

// Word k of a block.
fn word_at(x: &[u8; 64], k: usize) -> u32
    requires { k < 16 }
    ensures { result ≡ word x.now k }
{
    let at = 4 * k;
    u32::from_le_bytes([x[at], x[at + 1], x[at + 2], x[at + 3]])
}

// The sixteen words of a block.
fn words_of(x: &[u8; 64]) -> [u32; 16]
    ensures { result ≡ words_of x.now 16 }
{
    let mut y = [0; 16];
    for k in 0..16 {
        y[k] = word_at(x, k);
    }
    y
}

// The round's function of three words.
fn mix(r: usize, x: u32, y: u32, z: u32) -> u32
    ensures { result ≡ mixed r x y z }
{
    match r {
        0 => (x & y) | (!x & z),
        1 => (x & z) | (y & !z),
        2 => x ^ y ^ z,
        _ => y ^ (x | !z),
    }
}

// The word of the block that operation j of a round takes.
fn place_of(r: usize, j: usize) -> usize
    requires { j < 16 }
    ensures { (result ≡ place r j) × (result < 16) }
{
    match r {
        0 => j,
        1 => (5 * j + 1) % 16,
        2 => (3 * j + 5) % 16,
        _ => 7 * j % 16,
    }
}

// The places that the operations of a round rotate by, in turn.
fn amounts_of(r: usize) -> [u32; 4]
    ensures { result ≡ amounts r }
{
    match r {
        0 => [7, 12, 17, 22],
        1 => [5, 9, 14, 20],
        2 => [4, 11, 16, 23],
        _ => [6, 10, 15, 21],
    }
}

// The places that operation j of a round rotates by.
#[tactic(auto, unfolding(crate::specs::Rounds::amount))]
fn amount_of(r: usize, j: usize) -> u32
    ensures { result ≡ amount r j }
{
    amounts_of(r)[j % 4]
}

// Operation j of a round, on the words in its order: the new value of the first.
fn operate(w: Words, x: &[u32; 16], t: &[u32; 64], r: usize, j: usize) -> u32
    requires { (r < 4) × (j < 16) }
    ensures { result ≡ operation x.now t.now r j w }
{
    let f = w.a.wrapping_add(mix(r, w.b, w.c, w.d));
    let g = f.wrapping_add(x[place_of(r, j)]);
    let h = g.wrapping_add(t[16 * r + j]);
    w.b.wrapping_add(rotate(h, amount_of(r, j)))
}

// Four operations of a round, from operation j on: each gives one word its new value.
fn operate_row(w: Words, x: &[u32; 16], t: &[u32; 64], r: usize, j: usize) -> Words
    requires { (r < 4) × (j < 13) }
    ensures { result ≡ row x.now t.now r j w }
{
    let a = operate(w, x, t, r, j);
    let d = operate(four(w.d, a, w.b, w.c), x, t, r, j + 1);
    let c = operate(four(w.c, d, a, w.b), x, t, r, j + 2);
    let b = operate(four(w.b, c, d, a), x, t, r, j + 3);
    four(a, b, c, d)
}

// Each word added to the other's.
#[tactic(auto, unfolding(crate::specs::Rounds::added))]
fn add(v: Words, w: Words) -> Words
    ensures { result ≡ added v w }
{
    four(
        v.a.wrapping_add(w.a),
        v.b.wrapping_add(w.b),
        v.c.wrapping_add(w.c),
        v.d.wrapping_add(w.d),
    )
}

// The four rounds, in four rows each. Round and row are literals, so that the compiler knows each operation's word, amount and constant.
fn rounds(w: Words, x: &[u32; 16], t: &[u32; 64]) -> Words
    ensures { result ≡ four_rounds x.now t.now w }
{
    let mut v = w;
    v = operate_row(v, x, t, 0, 0);
    v = operate_row(v, x, t, 0, 4);
    v = operate_row(v, x, t, 0, 8);
    v = operate_row(v, x, t, 0, 12);
    v = operate_row(v, x, t, 1, 0);
    v = operate_row(v, x, t, 1, 4);
    v = operate_row(v, x, t, 1, 8);
    v = operate_row(v, x, t, 1, 12);
    v = operate_row(v, x, t, 2, 0);
    v = operate_row(v, x, t, 2, 4);
    v = operate_row(v, x, t, 2, 8);
    v = operate_row(v, x, t, 2, 12);
    v = operate_row(v, x, t, 3, 0);
    v = operate_row(v, x, t, 3, 4);
    v = operate_row(v, x, t, 3, 8);
    v = operate_row(v, x, t, 3, 12);
    v
}

// The words after a block of 64 bytes.
fn block(w: Words, x: &[u8; 64]) -> Words
    ensures { result ≡ block x.now w }
{
    add(rounds(w, &words_of(x), &T), w)
}

// Runs of any length, and their end.

// Where a digest stands between two runs: the words after the whole blocks, the bytes of the block that is not full yet with zeros
// after them, and how many bytes there were, modulo 2^64.
#[derive(Clone, Copy)]
pub struct State {
    words: Words,
    rest: [u8; 64],
    length: u64,
}

// No byte yet.
pub fn start() -> State
    ensures { result ≡ started }
{
    State {
        words: four(0x6745_2301, 0xefcd_ab89, 0x98ba_dcfe, 0x1032_5476),
        rest: [0; 64],
        length: 0,
    }
}

// The byte counts: any, but of a text neither CR nor LF.
#[tactic(auto, using(base::proofs::Or::joins))]
fn counts(text: bool, b: u8) -> bool
    ensures { result ≡ not (text and is_break b) }
{
    !(text && base::is_break(b))
}

// A byte more, in its place in the block; with the 64th the block is full.
fn push(s: &mut State, b: u8)
    ensures { s.new ≡ pushed s.old b }
{
    let at = (s.length % 64) as usize;
    s.rest[at] = b;
    s.length = s.length.wrapping_add(1);
    if at == 63 {
        s.words = block(s.words, &s.rest);
        s.rest = [0; 64];
    }
}

// A run, byte by byte; of a text the bytes that count.
fn feed_bytes(s: State, t: &[u8], text: bool) -> State
    ensures { result ≡ fed s (if text then unbroken t.now else t.now) }
{
    let mut now = s;
    for &b in t {
        if counts(text, b) {
            push(&mut now, b);
        }
    }
    now
}

// A run of a text more, CR and LF left out.
pub fn feed_text(s: State, t: &[u8]) -> State
    ensures { result ≡ fed s (unbroken t.now) }
{
    feed_bytes(s, t, true)
}

// The words after the whole blocks of a run.
fn feed_blocks(w: Words, t: &[u8]) -> Words
    ensures { result ≡ blocks (length t.now / 64) t.now w }
{
    let mut v = w;
    let mut left = t;
    while let Some((x, behind)) = left.split_first_chunk::<64>() {
        v = block(v, x);
        left = behind;
    }
    v
}

// A run more, of any length: the bytes that fill the block, then whole blocks where they lie, then what is left.
pub fn feed(s: State, t: &[u8]) -> State
    ensures { result ≡ fed s t.now }
{
    let lead = (64 - (s.length % 64) as usize) % 64;
    if t.len() < lead + 64 {
        return feed_bytes(s, t, false);
    }
    let a = feed_bytes(s, &t[..lead], false);
    let end = t.len() - (t.len() - lead) % 64;
    let b = State {
        words: feed_blocks(a.words, &t[lead..end]),
        rest: [0; 64],
        length: a.length.wrapping_add((end - lead) as u64),
    };
    feed_bytes(b, &t[end..], false)
}

// The words as bytes.
fn output_of(w: Words) -> [u8; 16]
    ensures { result ≡ output w }
{
    let mut out = [0; 16];
    out[..4].copy_from_slice(&w.a.to_le_bytes());
    out[4..8].copy_from_slice(&w.b.to_le_bytes());
    out[8..12].copy_from_slice(&w.c.to_le_bytes());
    out[12..].copy_from_slice(&w.d.to_le_bytes());
    out
}

// The digest of all that was fed.
pub fn finish(s: State) -> [u8; 16]
    ensures { result ≡ finished s }
{
    let mut padding = [0; 64];
    padding[0] = 128;
    let n = 1 + (119 - (s.length % 64) as usize) % 64;
    let p = feed(s, &padding[..n]);
    let q = feed(p, &(s.length << 3).to_le_bytes());
    output_of(q.words)
}

// The digest of a message that lies in one piece.
pub fn digest(m: &[u8]) -> [u8; 16]
    ensures { result ≡ md5 m.now }
{
    finish(feed(start(), m))
}
