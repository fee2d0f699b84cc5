// What an aperture exposes, found by its number in the words that a reading leaves, or in any words; the primitives of a macro in runs.
#![tactic(auto)]

ghost use Rattle.std.specs.Prelude.{◌≡◌, ◌+◌, ◌*◌, ◌^◌, ◌≤◌, ◌<◌, ltb, nat_abs, length, drop, replicate, []};
ghost use Rattle.ints.specs.Ints.{is_neg};
ghost use Rattle.index.specs.Tree.{record_width, next};
ghost use Rattle.sheet.specs.Records.{aperture_room, stored};
ghost use Rattle.shapes.specs.Links.{led};
ghost use Rattle.shapes.specs.Primitives.{number_at, primitive_at, count_fits, stands, counted_as, primitives_in};
ghost use Rattle.shapes.specs.Shapes.{template_fits, ok_store, judged_macro, judged_template, judged, lookup_of, record_of};
ghost use Rattle.shapes.specs.Runs.{Whole, primitive_words, slots, fetch_of, fetched};

use sheet::{APERTURE_WORDS, Aperture};

const MARK: u64 = 5716828633109713478;

// An aperture: its number and kind; where its numbers begin among those kept, and how many they are, 0 and 0 of a block; how many
// primitives they are, of a macro's.
#[derive(Clone, Copy)]
pub struct Shape {
    pub number: u64,
    pub kind: u64,
    pub first: usize,
    pub count: usize,
    pub primitives: usize,
}

// A primitive: its code; where its parameters begin among the numbers kept, and how many they are.
#[derive(Clone, Copy)]
pub struct Primitive {
    pub code: u64,
    pub first: usize,
    pub count: usize,
}

// Why there is no aperture: none has the number, 8; or the store is not a sheet, 21, for its links are none that a reading leaves.
#[derive(Clone, Copy)]
pub enum LookupError {
    Unknown,
    NotSheet,
}

// The record that record i leads to for a key.
fn link_of(a: &[u64], i: usize, key: u64) -> usize
    requires { i * record_width + record_width ≤ 18446744073709551615 }
    ensures { result ≡ next a.now i key }
{
    if key % 2 == 1 {
        return sheet::index(base::word_at(a, i * APERTURE_WORDS + 7));
    }
    sheet::index(base::word_at(a, i * APERTURE_WORDS + 6))
}

// The record, of the first `used`, that the links lead to for a number: a number has 31 bits, so that a search looks at 32 records at most.
fn search(a: &[u64], used: usize, number: u64) -> Result<usize, LookupError>
    requires { used ≤ aperture_room a.now }
    ensures { result ≡ led a.now used number }
{
    if used == 0 {
        return Err(LookupError::Unknown);
    }
    let mut at: usize = 0;
    let mut key = number;
    for step in 0..32u64 {
        if at >= used {
            return Err(LookupError::NotSheet);
        }
        if base::word_at(a, at * APERTURE_WORDS) == number {
            return Ok(at);
        }
        let to = link_of(a, at, key);
        if to == 0 {
            return Err(LookupError::Unknown);
        }
        at = to;
        key /= 2;
    }
    Err(LookupError::NotSheet)
}

// The size of number i, 0 past the last.
pub fn size_at(numbers: &[i64], i: usize) -> u64
    ensures { result ≡ nat_abs (number_at numbers.now i) }
{
    if i < numbers.len() {
        numbers[i].unsigned_abs()
    } else {
        0
    }
}

// Whether number i is below 0.
#[tactic(auto, unfolding(ints::specs::Ints::is_neg))]
fn negative_at(numbers: &[i64], i: usize) -> bool
    ensures { result ≡ is_neg (number_at numbers.now i) }
{
    if i < numbers.len() {
        numbers[i] < 0
    } else {
        false
    }
}

// The primitive that stands at a place of the numbers.
fn primitive_at(numbers: &[i64], at: usize) -> Primitive
    requires { at < length numbers.now }
    ensures { (result ≡ primitive_at numbers.now at) × (result.count < 2 ^ 58) }
{
    let n = size_at(numbers, at);
    Primitive {
        code: n % 100,
        first: at + 1,
        count: sheet::index(n / 100),
    }
}

// Whether a code has so many parameters; n is the second of them, in millionths.
#[tactic(auto, using(base::proofs::Or::ors), unfolding(crate::specs::Primitives::count_fits, base::specs::Choose::pick))]
fn count_fits(code: u64, count: usize, n: u64) -> bool
    ensures { result ≡ count_fits code count n }
{
    match code {
        1 => count == 4 || count == 5,
        4 => count as u64 == 5 + 2 * (n / 1000000),
        5 | 7 | 21 => count == 6,
        20 => count == 7,
        _ => false,
    }
}

// Whether a whole primitive stands at a place, before the end.
#[tactic(auto, using(base::proofs::And::ands), unfolding(crate::specs::Primitives::stands, crate::specs::Primitives::primitive_at))]
fn stands(numbers: &[i64], at: usize, end: usize) -> bool
    requires { (at < end) × (end ≤ length numbers.now) }
    ensures { result ≡ stands numbers.now at end }
{
    let p = primitive_at(numbers, at);
    let behind = p.first + p.count;
    !negative_at(numbers, at)
        && behind <= end
        && count_fits(p.code, p.count, size_at(numbers, at + 2))
}

// How many primitives the numbers from `first` up to `end` are; nothing where they are not whole primitives.
fn count_of(numbers: &[i64], first: usize, end: usize) -> Option<usize>
    requires { (first ≤ end) × (end ≤ length numbers.now) }
    ensures { result ≡ counted_as (primitives_in numbers.now first end) }
{
    let mut at = first;
    let mut k: usize = 0;
    // Each primitive says by its count where the next one stands: no iterator steps so.
    while at < end {
        if !stands(numbers, at, end) {
            return None;
        }
        let p = primitive_at(numbers, at);
        at = p.first + p.count;
        k += 1;
    }
    Some(k)
}

// Whether a standard template has so many parameters.
#[tactic(auto, using(base::proofs::And::ands), unfolding(crate::specs::Shapes::template_fits, base::specs::Choose::pick))]
fn template_fits(kind: u64, len: u64) -> bool
    ensures { result ≡ template_fits kind len }
{
    match kind {
        1 => matches!(len, 1..=2),
        2 | 3 => matches!(len, 2..=3),
        4 => matches!(len, 2..=4),
        _ => false,
    }
}

// The head's words, and that the apertures and numbers used are there.
#[tactic(auto, using(base::proofs::And::ands), unfolding(crate::specs::Shapes::ok_store))]
fn store_ok(head: &[u64; 8], a: &[u64], numbers: &[i64]) -> bool
    ensures { result ≡ ok_store head.now a.now numbers.now }
{
    let apertures = sheet::index(head[3]);
    let used = sheet::index(head[5]);
    head[0] == MARK
        && matches!(head[1], 1..=2)
        && apertures <= a.len() / APERTURE_WORDS
        && used <= numbers.len()
}

// A macro's aperture: what its numbers are.
fn judged_macro(numbers: &[i64], r: Aperture) -> Result<Shape, LookupError>
    requires { r.first + r.len ≤ length numbers.now }
    ensures { result ≡ judged_macro r (counted_as (primitives_in numbers.now r.first (r.first + r.len))) }
{
    let first = sheet::index(r.first);
    let count = sheet::index(r.len);
    match count_of(numbers, first, first + count) {
        Some(primitives) => Ok(Shape {
            number: r.number,
            kind: r.kind,
            first,
            count,
            primitives,
        }),
        None => Err(LookupError::NotSheet),
    }
}

// A standard template's aperture.
fn judged_template(r: Aperture) -> Result<Shape, LookupError>
    ensures { result ≡ judged_template r }
{
    if template_fits(r.kind, r.len) {
        return Ok(Shape {
            number: r.number,
            kind: r.kind,
            first: sheet::index(r.first),
            count: sheet::index(r.len),
            primitives: 0,
        });
    }
    Err(LookupError::NotSheet)
}

// Whether so many numbers from a place on are more than those used.
fn over(used: u64, first: u64, len: u64) -> bool
    ensures { result ≡ ltb used (first + len) }
{
    first > used || len > used - first
}

// An aperture by its record, where so many numbers are used.
#[tactic(auto, unfolding(crate::specs::Shapes::judged, base::specs::Choose::pick))]
fn judged(used: u64, numbers: &[i64], r: Aperture) -> Result<Shape, LookupError>
    requires { used ≤ length numbers.now }
    ensures { result ≡ judged used numbers.now r }
{
    match r.kind {
        6 => Ok(Shape {
            number: r.number,
            kind: r.kind,
            first: 0,
            count: 0,
            primitives: 0,
        }),
        0 => Err(LookupError::Unknown),
        _ if over(used, r.first, r.len) => Err(LookupError::NotSheet),
        5 => judged_macro(numbers, r),
        _ => judged_template(r),
    }
}

// The aperture with a number.
pub fn shape_of(
    head: &[u64; 8],
    a: &[u64],
    numbers: &[i64],
    number: u64,
) -> Result<Shape, LookupError>
    ensures { result ≡ lookup_of head.now a.now numbers.now number }
{
    if !store_ok(head, a, numbers) {
        return Err(LookupError::NotSheet);
    }
    let i = search(a, sheet::index(head[3]), number)?;
    judged(head[5], numbers, sheet::aperture_at(a, i))
}

// The aperture of record b, in the order in which the file defines them.
pub fn shape_at(head: &[u64; 8], a: &[u64], numbers: &[i64], b: u64) -> Result<Shape, LookupError>
    ensures { result ≡ record_of head.now a.now numbers.now b }
{
    if !store_ok(head, a, numbers) {
        return Err(LookupError::NotSheet);
    }
    if b >= head[3] {
        return Err(LookupError::Unknown);
    }
    judged(head[5], numbers, sheet::aperture_at(a, sheet::index(b)))
}

// The primitives of a macro's aperture, in runs.

// The words of a primitive in a run.
pub const PRIMITIVE_WORDS: usize = 3;

// Why there is no run: 20, past the last primitive; 8, no aperture with the number; 21, not a sheet.
#[derive(Clone, Copy)]
pub enum FetchError {
    Past,
    Unknown,
    NotSheet,
}

// The place after the first i primitives of the numbers from `from` up to `end`.
fn skip(numbers: &[i64], from: usize, end: usize, i: usize) -> usize
    requires { Whole numbers.now from end }
    ensures { Whole numbers.now result end × ((primitives_in numbers.now result end).list ≡ drop i (primitives_in numbers.now from end).list) }
{
    let mut at = from;
    for j in 0..i {
        if at >= end {
            break;
        }
        let p = primitive_at(numbers, at);
        at = p.first + p.count;
    }
    at
}

// Stores the words of a primitive.
#[tactic(auto, unfolding(crate::specs::Runs::primitive_words))]
fn put(out: &mut [u64], at: usize, p: Primitive)
    requires { at + 3 ≤ length out.old }
    ensures { out.new ≡ stored out.old at (primitive_words p) }
{
    let w = [p.code, p.first as u64, p.count as u64];
    sheet::put_words(out, at, &w);
}

// The primitives of the numbers from `from` up to `end`, into words that are all 0, as many as there is room for.
fn fill(numbers: &[i64], from: usize, end: usize, out: &mut [u64])
    requires { Whole numbers.now from end × (out.old ≡ replicate (length out.old) 0) }
    ensures { out.new ≡ slots (primitives_in numbers.now from end).list 0 (length out.old) }
{
    let room = out.len() / PRIMITIVE_WORDS;
    let mut at = from;
    for j in 0..room {
        if at >= end {
            return;
        }
        let p = primitive_at(numbers, at);
        put(out, j * PRIMITIVE_WORDS, p);
        at = p.first + p.count;
    }
}

// Primitives i, i + 1, .. of the aperture with a number, in as many slots of three words as there are; zeros after the last.
pub fn primitives_of(
    head: &[u64; 8],
    a: &[u64],
    numbers: &[i64],
    number: u64,
    i: usize,
    out: &mut [u64],
) -> Result<(), FetchError>
    ensures { (result ≡ fetch_of head.now a.now numbers.now number i)
        × (out.new ≡ fetched head.now a.now numbers.now number i (length out.old)) }
{
    base::clear(out);
    let l = shape_of(head, a, numbers, number);
    match l {
        Ok(s) => {
            if i < s.primitives {
                let first = s.first;
                let end = s.first + s.count;
                let from = skip(numbers, first, end, i);
                fill(numbers, from, end, out);
                return Ok(());
            }
            Err(FetchError::Past)
        }
        Err(LookupError::Unknown) => Err(FetchError::Unknown),
        Err(LookupError::NotSheet) => Err(FetchError::NotSheet),
    }
}
