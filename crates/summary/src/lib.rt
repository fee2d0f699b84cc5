// The summary of a sheet: in one pass over its entries where no block is flashed, else aperture by aperture.
#![tactic(auto)]

ghost use Rattle.std.specs.Prelude.{◌≡◌, true, false, [], ℕ, ◌+◌, ◌*◌, ◌/◌, ◌≤◌, ◌<◌, length, replicate};
ghost use Rattle.sheet.specs.Records.{aperture_room};
ghost use Rattle.sheet.specs.Containers.{apertures_used};
ghost use Rattle.sheet.specs.Meaning.{sheet_items};
ghost use Rattle.summary_rows.specs.Rows.{copied_row};
ghost use Rattle.summary_by_aperture.specs.Kept.{row_width, kept_width};
ghost use Rattle.summary_by_aperture.specs.Walk.{entry_row, run_row, top_entry_row};
ghost use Rattle.summary_by_aperture.specs.Blocks.{Fits};
ghost use Rattle.summary_by_aperture.specs.Answers.{summary_words, outcome_of, summed};
ghost use Rattle.summary.specs.Links.{record_of, is_led, is_linked};
ghost use Rattle.summary.specs.Adds.{single, Adds, Room, Copies, Near, NoFlash, RunNear, RunFree, EntryNear, EntryFree, TopReady, TopFree, Gathered, put_rows};

use place::Repeat;
use sheet::{Container, Entry};
use summary_by_aperture::SummaryError;
use summary_rows::Asked;

// The aperture record with a number, of the first n, that the links lead to; n where they lead to none.
fn record_of(a: &[u64], n: usize, number: u64) -> usize
    requires { n ≤ aperture_room a.now }
    ensures { result ≡ record_of a.now n number }
{
    let mut at: usize = 0;
    let mut key = number;
    for step in 0..65u64 {
        if at >= n {
            return n;
        }
        if base::word_at(a, at * 8) == number {
            return at;
        }
        at = sheet::index(base::word_at(a, at * 8 + 6 + sheet::index(key % 2)));
        key /= 2;
    }
    n
}

// Whether the links lead to record b.
fn is_led(a: &[u64], n: usize, b: usize) -> bool
    requires { (n ≤ aperture_room a.now) × (b < n) }
    ensures { result ≡ is_led a.now n b }
{
    record_of(a, n, base::word_at(a, b * 8)) == b
}

// Whether the links lead to every record, as a reading leaves them.
fn is_linked(a: &[u64], n: usize) -> bool
    requires { n ≤ aperture_room a.now }
    ensures { result ≡ is_linked a.now n }
{
    (0..n).all(|b| is_led(a, n, b))
}

// One copy, where it stands.
fn once() -> Repeat
    ensures { result ≡ single }
{
    Repeat {
        nx: 1,
        ny: 1,
        dx: 0,
        dy: 0,
    }
}

// Adds the copies of what an entry draws to the row of its aperture; false, and nothing, where it flashes a block.
fn add_row(a: &[u64], n: usize, m: Repeat, r: Entry, s: &mut [u64]) -> bool
    requires { Room a.now n (λ q. copied_row m (entry_row [] q r)) s.old × Copies m × Near r }
    ensures { result ≡ true → NoFlash r × Adds a.now n (λ q. copied_row m (entry_row [] q r)) s.old s.new }
{
    if r.kind == 9 {
        return false;
    }
    if r.kind == 0 || r.kind >= 5 {
        return true;
    }
    let b = record_of(a, n, r.who);
    if b >= n {
        return true;
    }
    let one = summary_rows::copy_row(
        m,
        summary_rows::item_row(Asked::Aperture(r.who), sheet::draw(r)),
    );
    let sum = summary_rows::merge(summary_by_aperture::kept_row(s, b), one);
    summary_by_aperture::keep_row(s, b, sum);
    true
}

// Adds the copies of what the entries of a container draw; false where one flashes a block.
fn add_run(e: &[u64], a: &[u64], n: usize, m: Repeat, k: Container, s: &mut [u64]) -> bool
    requires { Room a.now n (λ q. copied_row m (run_row e.now [] q k)) s.old × Copies m × RunNear e.now k }
    ensures { result ≡ true → RunFree e.now k × Adds a.now n (λ q. copied_row m (run_row e.now [] q k)) s.old s.new }
{
    for i in 0..k.len {
        if !add_row(a, n, m, sheet::entry_at(e, k.first + i), s) {
            return false;
        }
    }
    true
}

// Adds what an entry of the top level puts out; false where a block is flashed.
fn add_entry(e: &[u64], a: &[u64], n: usize, r: Entry, s: &mut [u64]) -> bool
    requires { Room a.now n (λ q. top_entry_row e.now [] q r) s.old × EntryNear e.now r }
    ensures { result ≡ true → EntryFree e.now r × Adds a.now n (λ q. top_entry_row e.now [] q r) s.old s.new }
{
    if r.kind == 10 {
        return add_run(e, a, n, sheet::repeat_of(r), sheet::body_of(r), s);
    }
    add_row(a, n, once(), r, s)
}

// Gathers the rows of all aperture records from the top level; false where a block is flashed. It goes over the entries as `add_run` does:
// with what adds an entry passed in, a contract would have to say what that function leaves in the words that it changes, entry by entry.
fn add_top(e: &[u64], a: &[u64], n: usize, k: Container, s: &mut [u64]) -> bool
    requires { TopReady e.now a.now n k s.old }
    ensures { result ≡ true → TopFree e.now k × Gathered e.now a.now n k s.new }
{
    for i in 0..k.len {
        if !add_entry(e, a, n, sheet::entry_at(e, k.first + i), s) {
            return false;
        }
    }
    true
}

// Puts the rows kept of the first n records, into words that are all 0.
fn put_rows(s: &[u64], n: usize, out: &mut [u64])
    requires { (n ≤ length s.now / kept_width) × (n < length out.old / row_width) × (out.old ≡ replicate (length out.old) 0) }
    ensures { out.new ≡ put_rows s.now n (length out.old) }
{
    for b in 0..n {
        summary_by_aperture::put_row(
            out,
            b * summary_by_aperture::ROW_WORDS,
            summary_by_aperture::kept_row(s, b),
        );
    }
}

// The rows of a sheet in one pass, into words that are all 0; false, and these as they were, where a block is flashed.
fn fill_at_once(head: &[u64; 8], e: &[u64], a: &[u64], s: &mut [u64], out: &mut [u64]) -> bool
    requires { Fits head.now e.now a.now s.old × (is_linked a.now (apertures_used head.now) ≡ true) × (apertures_used head.now < length out.old / row_width) × (out.old ≡ replicate (length out.old) 0) }
    ensures { ((result ≡ true → out.new ≡ summary_words (sheet_items head.now e.now a.now) a.now (apertures_used head.now) (length out.old)))
        × ((result ≡ false → out.new ≡ out.old)) }
{
    let n = sheet::index(head[3]);
    let last = summary_by_aperture::regions_row(head, e, a, s);
    base::clear(s);
    if add_top(e, a, n, sheet::top_of(head), s) {
        put_rows(s, n, out);
        summary_by_aperture::put_row(out, n * summary_by_aperture::ROW_WORDS, last);
        return true;
    }
    false
}

// The same, where the links lead to every record; false, and the words as they were, elsewhere too.
fn fill_linked(head: &[u64; 8], e: &[u64], a: &[u64], s: &mut [u64], out: &mut [u64]) -> bool
    requires { Fits head.now e.now a.now s.old × (apertures_used head.now < length out.old / row_width) × (out.old ≡ replicate (length out.old) 0) }
    ensures { ((result ≡ true → out.new ≡ summary_words (sheet_items head.now e.now a.now) a.now (apertures_used head.now) (length out.old)))
        × ((result ≡ false → out.new ≡ out.old)) }
{
    let n = sheet::index(head[3]);
    if is_linked(a, n) {
        return fill_at_once(head, e, a, s, out);
    }
    false
}

// The rows of a sheet, into words that are all 0.
fn fill(head: &[u64; 8], e: &[u64], a: &[u64], s: &mut [u64], out: &mut [u64])
    requires { Fits head.now e.now a.now s.old × (apertures_used head.now < length out.old / row_width) × (out.old ≡ replicate (length out.old) 0) }
    ensures { out.new ≡ summary_words (sheet_items head.now e.now a.now) a.now (apertures_used head.now) (length out.old) }
{
    if fill_linked(head, e, a, s, out) {
        return;
    }
    summary_by_aperture::fill(head, e, a, s, out);
}

// The summary of a sheet: five words for each aperture record, in store order, and for the regions; what is after them is 0. `scratch`
// has eight words for each aperture record.
pub fn summary(
    head: &[u64; 8],
    e: &[u64],
    a: &[u64],
    scratch: &mut [u64],
    rows: &mut [u64],
) -> Result<(), SummaryError>
    ensures { (result ≡ outcome_of head.now e.now a.now (length rows.old) (length scratch.old))
        × (rows.new ≡ summed head.now e.now a.now (length rows.old) (length scratch.old)) }
{
    base::clear(rows);
    if !inspect::is_sheet(head, e, a) {
        return Err(SummaryError::NotSheet);
    }
    let n = sheet::index(head[3]);
    if n < rows.len() / summary_by_aperture::ROW_WORDS
        && n <= scratch.len() / summary_by_aperture::SCRATCH_WORDS
    {
        fill(head, e, a, scratch, rows);
        return Ok(());
    }
    Err(SummaryError::Short)
}
