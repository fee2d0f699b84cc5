// The summary of a sheet, worked out from the store: for each aperture record, and for the regions, how many items of the expansion
// there are and where their points lie. No copy is written out.
#![tactic(auto)]

ghost use Rattle.std.specs.Prelude.{◌≡◌, true, ◌+◌, ◌*◌, ◌/◌, ◌≤◌, ◌<◌, length, replicate};
ghost use Rattle.std.specs.Int.{w64};
ghost use Rattle.std.proofs.Common.{of_z};
ghost use Rattle.sheet.specs.Records.{entry_room, entry_of, aperture_room, stored};
ghost use Rattle.sheet.specs.Containers.{apertures_used, block_of};
ghost use Rattle.sheet.specs.Meaning.{flag_word, sheet_items};
ghost use Rattle.summary_rows.specs.Summed.{row_of};
ghost use Rattle.summary_rows.specs.declared.Asked.TheVariants.{Regions};
ghost use Rattle.summary_by_aperture.specs.Kept.{has_points, corners, row_words, kept_words, span_of, extent_if, row_at};
ghost use Rattle.summary_by_aperture.specs.Walk.{entry_row, is_idle, run_row, top_entry_row, top_row, EntryReady, RunReady, TopEntryReady, TopReady};
ghost use Rattle.summary_by_aperture.specs.Listed.{is_at, with_listed, Listed};
ghost use Rattle.summary_by_aperture.specs.Blocks.{with_block, Fits, Ready, Done};
ghost use Rattle.summary_by_aperture.specs.Answers.{summary_words};

use sheet::{Container, Entry, Role};
use spans::{Rect, Span};
use summary_rows::{Asked, Row};

// The words of a row, of a row that is kept meanwhile, and of scratch for each aperture record: a row, and a word in the list of the
// blocks.
pub const ROW_WORDS: usize = 5;

const KEPT_WORDS: usize = 6;

pub const SCRATCH_WORDS: usize = 8;

// Why there are no rows: the lent rows are too few; or the store is not a sheet.
#[derive(Clone, Copy)]
pub enum SummaryError {
    Short,
    NotSheet,
}

// An end of a span as a word.
fn low_word(s: Span) -> u64
    ensures { result ≡ of_z w64 s.low }
{
    ints::word(s.low)
}

fn high_word(s: Span) -> u64
    ensures { result ≡ of_z w64 s.high }
{
    ints::word(s.high)
}

// The span that two words hold.
fn span_of(low: u64, high: u64) -> Span
    ensures { result ≡ span_of low high }
{
    Span {
        low: ints::from_word(low),
        high: ints::from_word(high),
    }
}

#[tactic(auto, unfolding(crate::specs::Kept::has_points))]
fn has_points(x: Option<Rect>) -> bool
    ensures { result ≡ has_points x }
{
    x.is_some()
}

// The rectangle of an extent, zeros where there is none.
#[tactic(auto, unfolding(crate::specs::Kept::corners))]
fn corners_of(x: Option<Rect>) -> Rect
    ensures { result ≡ corners x }
{
    let none = Span { low: 0, high: 0 };
    x.unwrap_or(Rect {
        across: none,
        up: none,
    })
}

#[tactic(auto, unfolding(crate::specs::Kept::extent_if))]
fn extent_if(some: bool, b: Rect) -> Option<Rect>
    ensures { result ≡ extent_if some b }
{
    some.then_some(b)
}

// A row's five words.
#[tactic(auto, unfolding(crate::specs::Kept::row_words))]
fn row_words(r: Row) -> [u64; 5]
    ensures { result ≡ row_words r }
{
    let Rect { across, up } = corners_of(r.extent);
    [
        r.count,
        low_word(across),
        low_word(up),
        high_word(across),
        high_word(up),
    ]
}

// Stores a row's five words from a place on.
pub fn put_row(out: &mut [u64], at: usize, r: Row)
    requires { at + 5 ≤ length out.old }
    ensures { out.new ≡ stored out.old at (row_words r) }
{
    sheet::put_words(out, at, &row_words(r));
}

// Keeps the row of aperture record b, in six words.
pub fn keep_row(s: &mut [u64], b: usize, r: Row)
    requires { b < length s.old / 6 }
    ensures { s.new ≡ stored s.old (b * 6) (kept_words r) }
{
    let [count, left, low, right, high] = row_words(r);
    let some = sheet::flag_word(has_points(r.extent));
    sheet::put_words(s, b * KEPT_WORDS, &[some, count, left, low, right, high]);
}

// The row kept of aperture record b.
pub fn kept_row(s: &[u64], b: usize) -> Row
    requires { b < length s.now / 6 }
    ensures { result ≡ row_at s.now b }
{
    let at = b * KEPT_WORDS;
    let across = span_of(base::word_at(s, at + 2), base::word_at(s, at + 4));
    let up = span_of(base::word_at(s, at + 3), base::word_at(s, at + 5));
    let some = base::word_at(s, at) == 1;
    let b = Rect { across, up };
    Row {
        count: base::word_at(s, at + 1),
        extent: extent_if(some, b),
    }
}

// The row of an entry of a block or a body.
#[tactic(auto, unfolding(crate::specs::Walk::entry_row, crate::specs::Walk::row_as))]
fn entry_row(s: &[u64], q: Asked, r: Entry) -> Row
    requires { EntryReady s.now r }
    ensures { result ≡ entry_row s.now q r }
{
    match sheet::role_of(r.kind) {
        Role::Draws => summary_rows::item_row(q, sheet::draw(r)),
        Role::Uses => summary_rows::move_row(sheet::pose_of(r), kept_row(s, sheet::index(r.who))),
        Role::Repeats | Role::Defines | Role::Unknown => summary_rows::no_row(),
    }
}

// Whether entry i draws an item that is not asked for, told by two of its words.
fn is_idle(e: &[u64], i: usize, q: Asked) -> bool
    requires { i < entry_room e.now }
    ensures { result ≡ is_idle q (entry_of e.now i) }
{
    let kind = base::word_at(e, i * sheet::ENTRY_WORDS);
    match q {
        Asked::Aperture(n) => {
            let who = base::word_at(e, i * sheet::ENTRY_WORDS + 2);
            let draws = kind <= 8;
            draws && !(kind <= 4 && who == n)
        }
        Asked::Regions => kind <= 4,
    }
}

// The row of a block or a body: its entries' rows, merged.
fn run_row(e: &[u64], s: &[u64], q: Asked, k: Container) -> Row
    requires { RunReady e.now s.now q k }
    ensures { result ≡ run_row e.now s.now q k }
{
    let mut so_far = summary_rows::no_row();
    for i in 0..k.len {
        if is_idle(e, k.first + i, q) {
            continue;
        }
        let r = sheet::entry_at(e, k.first + i);
        so_far = summary_rows::merge(so_far, entry_row(s, q, r));
    }
    so_far
}

// The row of an entry of the top level: a repeat's is its body's, copied.
fn top_entry_row(e: &[u64], s: &[u64], q: Asked, r: Entry) -> Row
    requires { TopEntryReady e.now s.now q r }
    ensures { result ≡ top_entry_row e.now s.now q r }
{
    if r.kind == 10 {
        return summary_rows::copy_row(sheet::repeat_of(r), run_row(e, s, q, sheet::body_of(r)));
    }
    entry_row(s, q, r)
}

// The row of the top level. It goes over the entries as `run_row` does: with the row of an entry passed in, a contract would have to say
// of that function where it may be called, what it answers and that the counts fit, which is longer than the loop.
fn top_row(e: &[u64], s: &[u64], q: Asked, k: Container) -> Row
    requires { TopReady e.now s.now q k }
    ensures { result ≡ top_row e.now s.now q k }
{
    let mut so_far = summary_rows::no_row();
    for i in 0..k.len {
        if is_idle(e, k.first + i, q) {
            continue;
        }
        let r = sheet::entry_at(e, k.first + i);
        so_far = summary_rows::merge(so_far, top_entry_row(e, s, q, r));
    }
    so_far
}

// Lists record b after m others, where it is a block of height h; how many are listed then.
#[tactic(auto, using(base::proofs::And::ands), unfolding(crate::specs::Listed::with_listed, crate::specs::Listed::is_at, sheet::specs::Meaning::flag_word))]
fn list_block(a: &[u64], n: usize, h: u64, b: usize, m: usize, s: &mut [u64]) -> usize
    requires { (b < aperture_room a.now) × (n ≤ length s.old / 8) × (m ≤ n) }
    ensures { (result ≡ m + flag_word (is_at a.now h b)) × (s.new ≡ with_listed a.now n h b m s.old) }
{
    let k = sheet::block_at(a, b);
    if inspect::is_block(a, b) && k.height == h {
        base::put(s, n * KEPT_WORDS + m, b as u64);
        return m + 1;
    }
    m
}

// Lists the blocks of height h, where the lower ones are listed.
fn list_height(a: &[u64], n: usize, h: u64, m: usize, s: &mut [u64]) -> usize
    requires { (n ≤ aperture_room a.now) × (n ≤ length s.old / 8) × Listed a.now s.old n h 0 m }
    ensures { Listed a.now s.new n (h + 1) 0 result }
{
    let mut r = m;
    for b in 0..n {
        r = list_block(a, n, h, b, r, s);
    }
    r
}

// Lists the blocks of n records, heights from 0 to 8; how many there are.
fn list_blocks(a: &[u64], n: usize, s: &mut [u64]) -> usize
    requires { (n ≤ aperture_room a.now) × (n ≤ length s.old / 8) }
    ensures { Listed a.now s.new n 9 0 result }
{
    let mut r: usize = 0;
    for h in 0..9 {
        r = list_height(a, n, h, r, s);
    }
    r
}

// Keeps the row of record b, a block whose lower blocks' rows are kept.
fn keep_block(e: &[u64], a: &[u64], q: Asked, b: usize, s: &mut [u64])
    requires { (b < aperture_room a.now) × (b < length s.old / 6) × RunReady e.now s.old q (block_of a.now b) }
    ensures { s.new ≡ with_block e.now a.now q b s.old }
{
    let r = run_row(e, s, q, sheet::block_at(a, b));
    keep_row(s, b, r);
}

// Keeps the rows of the m blocks that are listed.
fn keep_blocks(head: &[u64; 8], e: &[u64], a: &[u64], q: Asked, m: usize, s: &mut [u64])
    requires { Ready head.now e.now a.now s.old m }
    ensures { Done head.now e.now a.now q m m s.new }
{
    let n = sheet::index(head[3]);
    for i in 0..m {
        let b = sheet::index(base::word_at(s, n * KEPT_WORDS + i));
        keep_block(e, a, q, b, s);
    }
}

// The row of what is asked for, of all items of a sheet whose m blocks are listed.
fn row_of(head: &[u64; 8], e: &[u64], a: &[u64], q: Asked, m: usize, s: &mut [u64]) -> Row
    requires { Ready head.now e.now a.now s.old m }
    ensures { (result ≡ row_of q (sheet_items head.now e.now a.now)) × Ready head.now e.now a.now s.new m }
{
    keep_blocks(head, e, a, q, m, s);
    top_row(e, s, q, sheet::top_of(head))
}

// The row of a sheet's regions.
pub fn regions_row(head: &[u64; 8], e: &[u64], a: &[u64], s: &mut [u64]) -> Row
    requires { Fits head.now e.now a.now s.old }
    ensures { result ≡ row_of Regions (sheet_items head.now e.now a.now) }
{
    let m = list_blocks(a, sheet::index(head[3]), s);
    row_of(head, e, a, Asked::Regions, m, s)
}

// The rows of a sheet, into words that are all 0.
pub fn fill(head: &[u64; 8], e: &[u64], a: &[u64], s: &mut [u64], out: &mut [u64])
    requires { Fits head.now e.now a.now s.old × (apertures_used head.now < length out.old / 5) × (out.old ≡ replicate (length out.old) 0) }
    ensures { out.new ≡ summary_words (sheet_items head.now e.now a.now) a.now (apertures_used head.now) (length out.old) }
{
    let n = sheet::index(head[3]);
    let m = list_blocks(a, n, s);
    for b in 0..n {
        let number = sheet::aperture_at(a, b).number;
        let r = row_of(head, e, a, Asked::Aperture(number), m, s);
        put_row(out, b * ROW_WORDS, r);
    }
    let r = row_of(head, e, a, Asked::Regions, m, s);
    put_row(out, n * ROW_WORDS, r);
}
