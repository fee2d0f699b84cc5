// The call that mends a file: its changes are made, the mended file is read into the lent stores, and both are there, or zeros everywhere.
#![tactic(auto)]

ghost use Rattle.std.specs.Prelude.{◌≡◌, pos, length, replicate, take};
ghost use Rattle.sequence.specs.Rounded.{rounded_in};
ghost use Rattle.law_reading.specs.Reading.{reading};
ghost use Rattle.progress.specs.Lent.{lent_of, room_of};
ghost use Rattle.reader.specs.Reads.{Reads};
ghost use Rattle.mend_call.specs.Outcome.{still_refused, mending_of};
ghost use Rattle.mend_call.specs.Mends.{Mends};
ghost use Rattle.mend_call.specs.Steps.{has_file, has_report, bytes_written, changes_written, answer_from, is_mended, Comes};

use book::Book;
use mending::Written;

// So many bytes of the mended file, so many changes, the unit of its sheet, 1 mm or 2 inch, and how many decimals were rounded.
#[derive(Clone, Copy)]
pub struct Mended {
    pub bytes: usize,
    pub changes: usize,
    pub unit: u64,
    pub rounded: usize,
}

// The number of mending where the mended file is refused with this one.
#[tactic(auto, unfolding(crate::specs::Outcome::still_refused))]
fn still_refused(number: u64) -> u64
    ensures { result ≡ still_refused number }
{
    if number == 17 {
        return 17;
    }
    33
}

// The answer, by that of the reader on the mended file, and by whether the report fits.
#[tactic(auto, unfolding(crate::specs::Steps::answer_from))]
fn answer_from(
    reported: bool,
    bytes: usize,
    changes: usize,
    r: Result<reader::Accepted, sequence::Refusal>,
) -> Result<Mended, u64>
    ensures { result ≡ answer_from reported bytes changes r }
{
    match r {
        Ok(reader::Accepted { unit, rounded }) => {
            if reported {
                return Ok(Mended {
                    bytes,
                    changes,
                    unit,
                    rounded,
                });
            }
            Err(17)
        }
        Err(sequence::Refusal { number, place: _ }) => { Err(still_refused(number)) }
    }
}

// The answer is no refusal.
#[tactic(auto, unfolding(crate::specs::Steps::is_mended))]
fn is_mended(r: Result<Mended, u64>) -> bool
    ensures { result ≡ is_mended r }
{
    match r {
        Ok(
            Mended {
                bytes: _,
                changes: _,
                unit: _,
                rounded: _,
            },
        ) => true,
        Err(_) => false,
    }
}

// Zeros in the room for the mended file and for the report.
fn clear_report(out: &mut [u8], report: &mut [u64])
    ensures { (out.new ≡ replicate (length out.old) 0) × (report.new ≡ replicate (length report.old) 0) }
{
    mending::clear_bytes(out);
    base::clear(report);
}

// Reads so many bytes.
fn read_bytes(
    book: Book,
    out: &[u8],
    bytes: usize,
    head: &mut [u64; 8],
    e: &mut [u64],
    a: &mut [u64],
    m: &mut [u64],
    numbers: &mut [i64],
) -> Result<reader::Accepted, sequence::Refusal>
    ensures { Reads (rounded_in book (take bytes out.now)) (reading book (room_of (lent_of (take bytes out.now) e.old a.old m.old numbers.old)) (take bytes out.now))
        (lent_of (take bytes out.now) e.old a.old m.old numbers.old)
        (lent_of (take bytes out.now) e.new a.new m.new numbers.new) head.new result }
{
    reader::read_as(book, base::up_to(out, bytes), head, e, a, m, numbers)
}

// Whether the mended file has room.
#[tactic(auto, unfolding(crate::specs::Steps::has_file))]
fn has_file(w: Written) -> bool
    ensures { result ≡ has_file w }
{
    matches!(w, Written::Both { .. } | Written::File { .. })
}

// Whether the report has room too.
#[tactic(auto, unfolding(crate::specs::Steps::has_report))]
fn has_report(w: Written) -> bool
    ensures { result ≡ has_report w }
{
    matches!(w, Written::Both { .. })
}

// How many bytes the mended file has.
#[tactic(auto, unfolding(crate::specs::Steps::bytes_written))]
fn bytes_of(w: Written) -> usize
    ensures { result ≡ bytes_written w }
{
    match w {
        Written::Both { bytes, .. } | Written::File { bytes } => bytes,
        Written::Nothing => 0,
    }
}

// How many changes the report has.
#[tactic(auto, unfolding(crate::specs::Steps::changes_written))]
fn changes_of(w: Written) -> usize
    ensures { result ≡ changes_written w }
{
    match w {
        Written::Both { changes, .. } => changes,
        _ => 0,
    }
}

// Mends a file over zeros and reads the mended one; what a refusal leaves is not cleared.
fn mend_over(
    book: Book,
    file: &[u8],
    out: &mut [u8],
    report: &mut [u64],
    head: &mut [u64; 8],
    e: &mut [u64],
    a: &mut [u64],
    m: &mut [u64],
    numbers: &mut [i64],
) -> Result<Mended, u64>
    requires { (out.old ≡ replicate (length out.old) 0) × (report.old ≡ replicate (length report.old) 0) }
    ensures { Comes book (mending_of book (room_of (lent_of file.now e.old a.old m.old numbers.old)) (length out.old) (length report.old) file.now)
        (lent_of file.now e.old a.old m.old numbers.old)
        (lent_of file.now e.new a.new m.new numbers.new)
        (length out.old) out.new (length report.old) report.new head.new result }
{
    if scan::file_fits(file) {
        let w = mending::mend_into(book, file, out, report);
        if has_file(w) {
            let bytes = bytes_of(w);
            let r = read_bytes(book, out, bytes, head, e, a, m, numbers);
            return answer_from(has_report(w), bytes, changes_of(w), r);
        }
        return Err(17);
    }
    Err(1)
}

// Zeros in everything that is lent.
pub fn clear(
    out: &mut [u8],
    report: &mut [u64],
    head: &mut [u64; 8],
    e: &mut [u64],
    a: &mut [u64],
    m: &mut [u64],
    numbers: &mut [i64],
)
    ensures { (out.new ≡ replicate (length out.old) 0)
        × (report.new ≡ replicate (length report.old) 0)
        × (head.new ≡ replicate 8 0)
        × (e.new ≡ replicate (length e.old) 0)
        × (a.new ≡ replicate (length a.old) 0)
        × (m.new ≡ replicate (length m.old) 0)
        × (numbers.new ≡ replicate (length numbers.old) (pos 0)) }
{
    clear_report(out, report);
    *head = [0u64; 8];
    reader::clear(e, a, m, numbers);
}

// Mends a file by a book: the mended file in out, its changes in report, two words each, kind and place, its sheet in the stores, and
// zeros after each; or 1, 33 or 17, and zeros in everything that is lent.
pub fn mend(
    book: Book,
    file: &[u8],
    out: &mut [u8],
    report: &mut [u64],
    head: &mut [u64; 8],
    e: &mut [u64],
    a: &mut [u64],
    m: &mut [u64],
    numbers: &mut [i64],
) -> Result<Mended, u64>
    ensures { Mends book (mending_of book (room_of (lent_of file.now e.old a.old m.old numbers.old)) (length out.old) (length report.old) file.now)
        (lent_of file.now e.old a.old m.old numbers.old)
        (lent_of file.now e.new a.new m.new numbers.new)
        (length out.old) out.new (length report.old) report.new head.new result }
{
    clear_report(out, report);
    let r = mend_over(book, file, out, report, head, e, a, m, numbers);
    if is_mended(r) {
        return r;
    }
    clear(out, report, head, e, a, m, numbers);
    r
}
