// The calls on a file whose book is named by two numbers, as a host in C names it: a number that names nothing is answered and not trusted.
#![tactic(auto)]

ghost use Rattle.std.specs.Prelude.{◌≡◌, length};
ghost use Rattle.progress.specs.Lent.{lent_of, room_of};
ghost use Rattle.reader.specs.Reads.{Reads};
ghost use Rattle.numbered.specs.Choice.{with_letters, choice_of, short_choice};
ghost use Rattle.numbered.specs.Mending.{MendsBy};
ghost use Rattle.numbered.specs.Placing.{PlacesBy};
ghost use Rattle.placement_call.specs.Placement.{work_of};
ghost use Rattle.numbered.specs.Calls.{attribute_by, signature_by, reading_by, rounded_by, label_named_by, label_at_by};

use attribute_call::{Answer, Kind};
use book::{Book, Edition, Letters};

// The book of an edition with the rule of letters of a number: 1 is the old one, 2 the new one.
#[tactic(auto, unfolding(crate::specs::Choice::with_letters))]
fn with_letters(edition: Edition, letters: u64) -> Option<Book>
    ensures { result ≡ with_letters edition letters }
{
    match letters {
        1 => Some(Book {
            edition,
            letters: Letters::Old,
        }),
        2 => Some(Book {
            edition,
            letters: Letters::New,
        }),
        _ => None,
    }
}

// The book of two numbers: 1 is the newer edition, 2 the old one.
#[tactic(auto, unfolding(crate::specs::Choice::choice_of))]
fn choice_of(edition: u64, letters: u64) -> Option<Book>
    ensures { result ≡ choice_of edition letters }
{
    match edition {
        1 => with_letters(Edition::New, letters),
        2 => with_letters(Edition::Old, letters),
        _ => None,
    }
}

// The attribute call by the book of two numbers; 101 where one of them names nothing.
pub fn attribute(
    edition: u64,
    letters: u64,
    file: &[u8],
    kind: Kind,
    place: usize,
    name: &[u8],
) -> Answer
    ensures { result ≡ attribute_by (choice_of edition letters) file.now kind place name.now }
{
    match choice_of(edition, letters) {
        Some(book) => attribute_call::attribute(book, file, kind, place, name),
        None => Answer {
            number: 101,
            place: 0,
            length: 0,
        },
    }
}

// Whether a file is signed, likewise.
pub fn signature(edition: u64, letters: u64, file: &[u8]) -> signature::Answer
    ensures { result ≡ signature_by (choice_of edition letters) file.now }
{
    match choice_of(edition, letters) {
        Some(book) => signature::check(book, file),
        None => signature::refuse(101, 0),
    }
}

// The book of a reading that names its letters by a number, and no edition: the old one's.
#[tactic(auto, unfolding(crate::specs::Choice::short_choice, crate::specs::Choice::with_letters, reader::specs::Short::short_of))]
fn short_choice(letters: u64) -> Option<Book>
    ensures { result ≡ short_choice letters }
{
    with_letters(Edition::Old, letters)
}

// Reads a file into the lent words by the book that is named; where none is, every word is zero.
fn read_chosen(
    c: Option<Book>,
    file: &[u8],
    head: &mut [u64; 8],
    e: &mut [u64],
    a: &mut [u64],
    m: &mut [u64],
    numbers: &mut [i64],
) -> Result<reader::Accepted, sequence::Refusal>
    ensures { Reads (rounded_by c file.now)
        (reading_by c (room_of (lent_of file.now e.old a.old m.old numbers.old)) file.now)
        (lent_of file.now e.old a.old m.old numbers.old)
        (lent_of file.now e.new a.new m.new numbers.new) head.new result }
{
    match c {
        Some(book) => reader::read_as(book, file, head, e, a, m, numbers),
        None => {
            *head = [0u64; 8];
            reader::clear(e, a, m, numbers);
            Err(sequence::Refusal {
                number: 101,
                place: 0,
            })
        }
    }
}

// Reads a file by the book of two numbers; 101, and zeros in every word, where one of them names nothing.
pub fn read_as(
    edition: u64,
    letters: u64,
    file: &[u8],
    head: &mut [u64; 8],
    e: &mut [u64],
    a: &mut [u64],
    m: &mut [u64],
    numbers: &mut [i64],
) -> Result<reader::Accepted, sequence::Refusal>
    ensures { Reads (rounded_by (choice_of edition letters) file.now)
        (reading_by (choice_of edition letters) (room_of (lent_of file.now e.old a.old m.old numbers.old)) file.now)
        (lent_of file.now e.old a.old m.old numbers.old)
        (lent_of file.now e.new a.new m.new numbers.new) head.new result }
{
    read_chosen(choice_of(edition, letters), file, head, e, a, m, numbers)
}

// The short call, which names no edition, likewise.
pub fn read(
    letters: u64,
    file: &[u8],
    head: &mut [u64; 8],
    e: &mut [u64],
    a: &mut [u64],
    m: &mut [u64],
    numbers: &mut [i64],
) -> Result<reader::Accepted, sequence::Refusal>
    ensures { Reads (rounded_by (short_choice letters) file.now)
        (reading_by (short_choice letters) (room_of (lent_of file.now e.old a.old m.old numbers.old)) file.now)
        (lent_of file.now e.old a.old m.old numbers.old)
        (lent_of file.now e.new a.new m.new numbers.new) head.new result }
{
    read_chosen(short_choice(letters), file, head, e, a, m, numbers)
}

// Mends a file into what is lent, likewise; numbers that name no book leave zeros in all of it.
pub fn mend(
    edition: u64,
    letters: u64,
    file: &[u8],
    out: &mut [u8],
    report: &mut [u64],
    head: &mut [u64; 8],
    e: &mut [u64],
    a: &mut [u64],
    m: &mut [u64],
    numbers: &mut [i64],
) -> Result<mend_call::Mended, u64>
    ensures { MendsBy (choice_of edition letters)
        (lent_of file.now e.old a.old m.old numbers.old)
        (lent_of file.now e.new a.new m.new numbers.new)
        (length out.old) out.new (length report.old) report.new head.new result }
{
    match choice_of(edition, letters) {
        Some(book) => mend_call::mend(book, file, out, report, head, e, a, m, numbers),
        None => {
            mend_call::clear(out, report, head, e, a, m, numbers);
            Err(101)
        }
    }
}

// The placement list of a component layer, likewise; numbers that name no book leave zeros in the output and in the stores.
pub fn placement(
    edition: u64,
    letters: u64,
    file: &[u8],
    head: &mut [u64; 8],
    e: &mut [u64],
    a: &mut [u64],
    m: &mut [u64],
    numbers: &mut [i64],
    notes: &mut [u64],
    names: &mut [u64],
    roles: &mut [u64],
    pins: &mut [u64],
    out: &mut [u8],
) -> placement_list::Answer
    ensures { PlacesBy (choice_of edition letters)
        (lent_of file.now e.old a.old m.old numbers.old)
        (lent_of file.now e.new a.new m.new numbers.new) head.new
        (work_of notes.old names.old roles.old pins.old) (length out.old) out.new result }
{
    match choice_of(edition, letters) {
        Some(book) => placement_call::placement(
            book, file, head, e, a, m, numbers, notes, names, roles, pins, out,
        ),
        None => {
            mending::clear_bytes(out);
            *head = [0u64; 8];
            reader::clear(e, a, m, numbers);
            placement_list::refused(101, 0)
        }
    }
}

// The file attribute of this name, likewise.
pub fn label_named(edition: u64, letters: u64, file: &[u8], name: &[u8]) -> labels::Answer
    ensures { result ≡ label_named_by (choice_of edition letters) file.now name.now }
{
    match choice_of(edition, letters) {
        Some(book) => labels::label_named(book, file, name),
        None => labels::refused(101),
    }
}

// File attribute i, likewise.
pub fn label_at(edition: u64, letters: u64, file: &[u8], i: usize) -> labels::Answer
    ensures { result ≡ label_at_by (choice_of edition letters) file.now i }
{
    match choice_of(edition, letters) {
        Some(book) => labels::label_at(book, file, i),
        None => labels::refused(101),
    }
}
