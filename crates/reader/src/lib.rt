// The call for a reading: every string of bytes is read into a sheet in the lent words, or refused, and then they are all zero.
#![tactic(auto)]

ghost use Rattle.std.specs.Prelude.{true, ◌≡◌, ◌+◌, ◌≤◌, pos, length, replicate};
ghost use Rattle.running.specs.Units.{unit_in};
ghost use Rattle.scan.specs.Permitted.{fits};
ghost use Rattle.sheet.specs.Records.{entry_room};
ghost use Rattle.build.specs.Closed.{head_of, Ended};
ghost use Rattle.sequence.specs.Rounded.{rounded_in};
ghost use Rattle.law_reading.specs.Reading.{reading};
ghost use Rattle.progress.specs.Lent.{lent_of, room_of};
ghost use Rattle.running.specs.Ends.{AsLong, answer_of, Ends};
ghost use Rattle.reader.specs.Reads.{Reads};
ghost use Rattle.reader.specs.Short.{short_of};

use book::{Book, Edition, Letters};
use progress::Progress;
use running::Finished;
use sequence::Refusal;

// What an accepted reading tells: the unit of the sheet, 1 mm or 2 inch, and how many decimals were rounded.
#[derive(Clone, Copy)]
pub struct Accepted {
    pub unit: u64,
    pub rounded: usize,
}

// Zeros in every room.
pub fn clear(e: &mut [u64], a: &mut [u64], m: &mut [u64], numbers: &mut [i64])
    ensures { (e.new ≡ replicate (length e.old) 0)
        × (a.new ≡ replicate (length a.old) 0)
        × (m.new ≡ replicate (length m.old) 0)
        × (numbers.new ≡ replicate (length numbers.old) (pos 0)) }
{
    e.fill(0);
    a.fill(0);
    m.fill(0);
    numbers.fill(0);
}

// The commands of a file in order, over rooms that are cleared first. A reading that asks where a name is set twice is begun anew with
// the answer.
fn run_over(
    book: Book,
    file: &[u8],
    e: &mut [u64],
    a: &mut [u64],
    m: &mut [u64],
    numbers: &mut [i64],
) -> Result<Finished, Refusal>
    requires { fits file.now ≡ true }
    ensures { AsLong (lent_of file.now e.old a.old m.old numbers.old)
        (lent_of file.now e.new a.new m.new numbers.new)
        × Ends book (answer_of book (lent_of file.now e.old a.old m.old numbers.old))
        (lent_of file.now e.new a.new m.new numbers.new) result }
{
    let mut repeat = None;
    loop {
        clear(e, a, m, numbers);
        let r = running::run(book, file, e, a, m, numbers, repeat);
        match r {
            Some(x) => {
                return x;
            }
            None => {
                repeat = Some(names::first_repeat(book, file, e));
            }
        }
    }
}

// Finishes the sheet: the top level is put after what is closed. Its head.
fn finish(e: &mut [u64], p: Progress) -> [u64; 8]
    requires { p.builder.closed + p.builder.high ≤ entry_room e.old }
    ensures { (result ≡ head_of (unit_in p.graphics.header) p.builder p.apertures p.macros p.numbers)
        × Ended e.old e.new p.builder }
{
    let b = p.builder;
    let h = p.graphics.header;
    build::finish(e, b);
    build::head_words(
        running::unit_in(h),
        b,
        p.apertures as u64,
        p.macros as u64,
        p.numbers as u64,
    )
}

// A file that is not too long, over a head of zeros.
fn read_file(
    book: Book,
    file: &[u8],
    head: &mut [u64; 8],
    e: &mut [u64],
    a: &mut [u64],
    m: &mut [u64],
    numbers: &mut [i64],
) -> Result<Accepted, Refusal>
    requires head_value { head.old ≡ replicate 8 0 }
    requires file_value { fits file.now ≡ true }
    ensures { Reads (rounded_in book file.now) (reading book (room_of (lent_of file.now e.old a.old m.old numbers.old)) file.now)
        (lent_of file.now e.old a.old m.old numbers.old)
        (lent_of file.now e.new a.new m.new numbers.new) head.new result }
{
    let r = run_over(book, file, e, a, m, numbers);
    match r {
        Err(f) => {
            clear(e, a, m, numbers);
            Err(f)
        }
        Ok(Finished { progress, rounded }) => {
            *head = finish(e, progress);
            let h = progress.graphics.header;
            Ok(Accepted {
                unit: running::unit_in(h),
                rounded,
            })
        }
    }
}

// Reads a file by a book into the lent words: a sheet with its unit and how many decimals were rounded, or the number and the place of the
// first rule broken and zeros in every word.
pub fn read_as(
    book: Book,
    file: &[u8],
    head: &mut [u64; 8],
    e: &mut [u64],
    a: &mut [u64],
    m: &mut [u64],
    numbers: &mut [i64],
) -> Result<Accepted, Refusal>
    ensures { Reads (rounded_in book file.now) (reading book (room_of (lent_of file.now e.old a.old m.old numbers.old)) file.now)
        (lent_of file.now e.old a.old m.old numbers.old)
        (lent_of file.now e.new a.new m.new numbers.new) head.new result }
{
    *head = [0u64; 8];
    if scan::file_fits(file) {
        return read_file(book, file, head, e, a, m, numbers);
    }
    clear(e, a, m, numbers);
    Err(Refusal {
        number: 1,
        place: 0,
    })
}

// The book of a reading that names no edition: the old one's.
pub fn short_of(letters: Letters) -> Book
    ensures { result ≡ short_of letters }
{
    Book {
        edition: Edition::Old,
        letters,
    }
}

// The short call: a reading that names its rule of letters and no edition, which is the old one.
pub fn read(
    letters: Letters,
    file: &[u8],
    head: &mut [u64; 8],
    e: &mut [u64],
    a: &mut [u64],
    m: &mut [u64],
    numbers: &mut [i64],
) -> Result<Accepted, Refusal>
    ensures { Reads (rounded_in (short_of letters) file.now) (reading (short_of letters) (room_of (lent_of file.now e.old a.old m.old numbers.old)) file.now)
        (lent_of file.now e.old a.old m.old numbers.old)
        (lent_of file.now e.new a.new m.new numbers.new) head.new result }
{
    let book = short_of(letters);
    read_as(book, file, head, e, a, m, numbers)
}
