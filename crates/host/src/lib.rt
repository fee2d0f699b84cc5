// The calls for a host program in C (host/sheet.h): numbers and slices alone. Each is one call of the crate that answers, with the
// answer turned into document 01's number and its values stored where they are asked for.
#![tactic(auto)]

ghost use Rattle.std.specs.Prelude.{◌≡◌, length};
ghost use Rattle.attribute_call.specs.declared.Kind.TheVariants.{Aperture, Object};
ghost use Rattle.progress.specs.Lent.{lent_of, room_of};
ghost use Rattle.reader.specs.Reads.{number_of, place_of, unit_of, rounded_of};
ghost use Rattle.numbered.specs.Choice.{choice_of, short_choice};
ghost use Rattle.numbered.specs.Calls.{attribute_by, signature_by, reading_by, rounded_by, label_named_by, label_at_by};
ghost use Rattle.descend.specs.Answers.{total_of, total_number, total_value, answer_of, answer_number, answer_item};
ghost use Rattle.descend.specs.Slots.{item_words, fetch_of, fetch_number, fetched};
ghost use Rattle.address.specs.Answers.{reply_of};
ghost use Rattle.address.specs.Addressed.{address_number, address_words};
ghost use Rattle.summary_by_aperture.specs.Answers.{outcome_of, outcome_number, summed};
ghost use Rattle.digest.specs.Md5.{md5};
ghost use Rattle.numbered.specs.Placing.{PlacesBy};
ghost use Rattle.placement_list.specs.Lists.{answered};
ghost use Rattle.placement_call.specs.Placement.{work_of};
ghost use Rattle.host.specs.Mends.{MendsInto};
ghost use Rattle.shapes.specs.Shapes.{lookup_of, record_of, lookup_number, lookup_shape};
ghost use Rattle.shapes.specs.Runs.{fetch_of as primitive_fetch, fetch_number as primitive_number, fetched as primitives_fetched};
ghost use Rattle.host.specs.Reads.{ReadsInto};
ghost use Rattle.host.specs.Shapes.{shape_words, size_of};
ghost use Rattle.host.specs.Widths.{ItemsAre, EntriesAre, AperturesAre, MacrosAre, RowsAre, ScratchIs, ShapesAre, PrimitivesAre};

use attribute_call::Kind;
use command::Span;
use descend::Unanswered;
use labels::Label;
use reader::Accepted;
use sequence::Refusal;
use shapes::{LookupError, Shape};
use summary_by_aperture::SummaryError;

// The number of a reading's answer, and its place, unit and rounded decimals.
fn answered(a: Result<Accepted, Refusal>, place: &mut u64, unit: &mut u64, rounded: &mut u64) -> u64
    ensures { (result ≡ number_of a) × (place.new ≡ place_of a) × (unit.new ≡ unit_of a) × (rounded.new ≡ rounded_of a) }
{
    match a {
        Ok(
            Accepted {
                unit: u,
                rounded: n,
            },
        ) => {
            *place = 0;
            *unit = u;
            *rounded = n as u64;
            0
        }
        Err(Refusal { number, place: at }) => {
            *place = at as u64;
            *unit = 0;
            *rounded = 0;
            number
        }
    }
}

// Reads a file by the edition and the rule of letters that the numbers name into the lent words: a sheet, with its unit and how many
// decimals were rounded; or document 01's number and the place, or 101, and zeros in every word.
#[unsafe(no_mangle)]
pub extern "C" fn sheet_read_as(
    edition: u64,
    letters: u64,
    file: &[u8],
    head: &mut [u64; 8],
    entries: &mut [u64],
    apertures: &mut [u64],
    macros: &mut [u64],
    numbers: &mut [i64],
    place: &mut u64,
    unit: &mut u64,
    rounded: &mut u64,
) -> u64
    ensures { ReadsInto (rounded_by (choice_of edition letters) file.now)
        (reading_by (choice_of edition letters) (room_of (lent_of file.now entries.old apertures.old macros.old numbers.old)) file.now)
        (lent_of file.now entries.old apertures.old macros.old numbers.old)
        (lent_of file.now entries.new apertures.new macros.new numbers.new) head.new result place.new unit.new rounded.new }
{
    let a = numbered::read_as(
        edition, letters, file, head, entries, apertures, macros, numbers,
    );
    answered(a, place, unit, rounded)
}

// The short call, which names no edition, likewise.
#[unsafe(no_mangle)]
pub extern "C" fn sheet_read(
    letters: u64,
    file: &[u8],
    head: &mut [u64; 8],
    entries: &mut [u64],
    apertures: &mut [u64],
    macros: &mut [u64],
    numbers: &mut [i64],
    place: &mut u64,
    unit: &mut u64,
    rounded: &mut u64,
) -> u64
    ensures { ReadsInto (rounded_by (short_choice letters) file.now)
        (reading_by (short_choice letters) (room_of (lent_of file.now entries.old apertures.old macros.old numbers.old)) file.now)
        (lent_of file.now entries.old apertures.old macros.old numbers.old)
        (lent_of file.now entries.new apertures.new macros.new numbers.new) head.new result place.new unit.new rounded.new }
{
    let a = numbered::read(letters, file, head, entries, apertures, macros, numbers);
    answered(a, place, unit, rounded)
}

// The number of items of a sheet, 0 where the store is none.
#[unsafe(no_mangle)]
pub extern "C" fn sheet_total(
    head: &[u64; 8],
    entries: &[u64],
    apertures: &[u64],
    total: &mut u64,
) -> u64
    ensures { (result ≡ total_number (total_of head.now entries.now apertures.now))
        × (total.new ≡ total_value (total_of head.now entries.now apertures.now)) }
{
    let t = descend::sheet_total(head, entries, apertures);
    match t {
        Some(n) => {
            *total = n;
            0
        }
        None => {
            *total = 0;
            21
        }
    }
}

// The address of item k, zeros where there is none.
#[unsafe(no_mangle)]
pub extern "C" fn sheet_address(
    head: &[u64; 8],
    entries: &[u64],
    apertures: &[u64],
    k: u64,
    address: &mut [u64; 10],
) -> u64
    ensures { (result ≡ address_number head.now entries.now apertures.now k)
        × (address.new ≡ address_words head.now entries.now apertures.now k) }
{
    address::address_of(head, entries, apertures, k, address)
}

// The number of the item that an address names, 0 where it names nothing.
#[unsafe(no_mangle)]
pub extern "C" fn sheet_item_number(
    head: &[u64; 8],
    entries: &[u64],
    apertures: &[u64],
    address: &[u64; 10],
    k: &mut u64,
) -> u64
    ensures { (result ≡ (reply_of head.now entries.now apertures.now address.now).number)
        × (k.new ≡ (reply_of head.now entries.now apertures.now address.now).item) }
{
    let r = address::item_of(head, entries, apertures, address);
    *k = r.item;
    r.number
}

// Document 01's number of a call for a summary.
#[tactic(auto, unfolding(summary_by_aperture::specs::Answers::outcome_number))]
fn summary_number(r: Result<(), SummaryError>) -> u64
    ensures { result ≡ outcome_number r }
{
    match r {
        Ok(()) => 0,
        Err(SummaryError::Short) => 17,
        Err(SummaryError::NotSheet) => 21,
    }
}

// The rows of a sheet's summary, zeros where there is no answer.
#[unsafe(no_mangle)]
pub extern "C" fn sheet_summary(
    head: &[u64; 8],
    entries: &[u64],
    apertures: &[u64],
    scratch: &mut [u64],
    rows: &mut [u64],
) -> u64
    ensures { (result ≡ outcome_number (outcome_of head.now entries.now apertures.now (length rows.old) (length scratch.old)))
        × (rows.new ≡ summed head.now entries.now apertures.now (length rows.old) (length scratch.old)) }
{
    let r = summary::summary(head, entries, apertures, scratch, rows);
    summary_number(r)
}

// Document 01's number of a call for a run.
#[tactic(auto, unfolding(descend::specs::Slots::fetch_number))]
fn fetch_number(f: Result<(), Unanswered>) -> u64
    ensures { result ≡ fetch_number f }
{
    match f {
        Ok(()) => 0,
        Err(Unanswered::Past) => 20,
        Err(Unanswered::NotSheet) => 21,
    }
}

// Items k, k + 1, .. of a sheet, in as many slots as there is room for.
#[unsafe(no_mangle)]
pub extern "C" fn sheet_items(
    head: &[u64; 8],
    entries: &[u64],
    apertures: &[u64],
    k: u64,
    items: &mut [u64],
) -> u64
    ensures { (result ≡ fetch_number (fetch_of head.now entries.now apertures.now k))
        × (items.new ≡ fetched head.now entries.now apertures.now k (length items.old)) }
{
    let f = descend::sheet_run(head, entries, apertures, k, items);
    fetch_number(f)
}

// Item k of a sheet, a zero item where there is none.
#[unsafe(no_mangle)]
pub extern "C" fn sheet_item(
    head: &[u64; 8],
    entries: &[u64],
    apertures: &[u64],
    k: u64,
    item: &mut [u64; 15],
) -> u64
    ensures { (result ≡ answer_number (answer_of head.now entries.now apertures.now k))
        × (item.new ≡ item_words (answer_item (answer_of head.now entries.now apertures.now k))) }
{
    let f = descend::sheet_run(head, entries, apertures, k, item);
    fetch_number(f)
}

// The aperture attribute of this name at the command that begins at the place: where its value stands in the file, and its length.
#[unsafe(no_mangle)]
pub extern "C" fn sheet_aperture_attribute(
    edition: u64,
    letters: u64,
    file: &[u8],
    place: usize,
    name: &[u8],
    at: &mut u64,
    size: &mut u64,
) -> u64
    ensures { (result ≡ (attribute_by (choice_of edition letters) file.now Aperture place name.now).number)
        × (at.new ≡ (attribute_by (choice_of edition letters) file.now Aperture place name.now).place)
        × (size.new ≡ (attribute_by (choice_of edition letters) file.now Aperture place name.now).length) }
{
    let a = numbered::attribute(edition, letters, file, Kind::Aperture, place, name);
    *at = a.place as u64;
    *size = a.length as u64;
    a.number
}

// The object attribute of this name there.
#[unsafe(no_mangle)]
pub extern "C" fn sheet_object_attribute(
    edition: u64,
    letters: u64,
    file: &[u8],
    place: usize,
    name: &[u8],
    at: &mut u64,
    size: &mut u64,
) -> u64
    ensures { (result ≡ (attribute_by (choice_of edition letters) file.now Object place name.now).number)
        × (at.new ≡ (attribute_by (choice_of edition letters) file.now Object place name.now).place)
        × (size.new ≡ (attribute_by (choice_of edition letters) file.now Object place name.now).length) }
{
    let a = numbered::attribute(edition, letters, file, Kind::Object, place, name);
    *at = a.place as u64;
    *size = a.length as u64;
    a.number
}

// Whether a file is signed: its digest, or document 01's number with the place, or 101, and a digest of zeros.
#[unsafe(no_mangle)]
pub extern "C" fn sheet_signature(
    edition: u64,
    letters: u64,
    file: &[u8],
    place: &mut u64,
    digest: &mut [u8; 16],
) -> u64
    ensures { (result ≡ (signature_by (choice_of edition letters) file.now).number)
        × (place.new ≡ (signature_by (choice_of edition letters) file.now).place)
        × (digest.new ≡ (signature_by (choice_of edition letters) file.now).digest) }
{
    let s = numbered::signature(edition, letters, file);
    let d = s.digest;
    *place = s.place as u64;
    *digest = d;
    s.number
}

// The words of an item in a run.
#[unsafe(no_mangle)]
pub extern "C" fn sheet_item_words() -> usize
    ensures { ItemsAre result }
{
    place::ITEM_WORDS
}

// The words of an entry.
#[unsafe(no_mangle)]
pub extern "C" fn sheet_entry_words() -> usize
    ensures { EntriesAre result }
{
    sheet::ENTRY_WORDS
}

// The words of an aperture.
#[unsafe(no_mangle)]
pub extern "C" fn sheet_aperture_words() -> usize
    ensures { AperturesAre result }
{
    sheet::APERTURE_WORDS
}

// The words of a macro.
#[unsafe(no_mangle)]
pub extern "C" fn sheet_macro_words() -> usize
    ensures { MacrosAre result }
{
    tables::MACRO_WORDS
}

// The words of a row of the summary.
#[unsafe(no_mangle)]
pub extern "C" fn sheet_row_words() -> usize
    ensures { RowsAre result }
{
    summary_by_aperture::ROW_WORDS
}

// The words of scratch that a summary asks for each aperture.
#[unsafe(no_mangle)]
pub extern "C" fn sheet_scratch_words() -> usize
    ensures { ScratchIs result }
{
    summary_by_aperture::SCRATCH_WORDS
}

// Lists the parts of a component layer by the edition and the rule of letters that the numbers name: the bytes of the list in out, and how
// many; or the number with its place, or 101, and zeros in out. The stores are left as a reading leaves them.
#[unsafe(no_mangle)]
pub extern "C" fn sheet_placement(
    edition: u64,
    letters: u64,
    file: &[u8],
    head: &mut [u64; 8],
    entries: &mut [u64],
    apertures: &mut [u64],
    macros: &mut [u64],
    numbers: &mut [i64],
    notes: &mut [u64],
    names: &mut [u64],
    roles: &mut [u64],
    pins: &mut [u64],
    out: &mut [u8],
    place: &mut u64,
    bytes: &mut u64,
) -> u64
    ensures { PlacesBy (choice_of edition letters)
        (lent_of file.now entries.old apertures.old macros.old numbers.old)
        (lent_of file.now entries.new apertures.new macros.new numbers.new) head.new
        (work_of notes.old names.old roles.old pins.old) (length out.old) out.new
        (answered result place.new bytes.new) }
{
    let a = numbered::placement(
        edition, letters, file, head, entries, apertures, macros, numbers, notes, names, roles,
        pins, out,
    );
    *place = a.place as u64;
    *bytes = a.bytes as u64;
    a.number
}

// Mends a file by the edition and the rule of letters that the numbers name: the mended file in out, its changes in report, two words each, kind and
// place, and its sheet in the stores, with the bytes and changes, the unit and how many decimals were rounded; or 1, 17, 33 or 101, and
// zeros in everything that is lent.
#[unsafe(no_mangle)]
pub extern "C" fn sheet_mend(
    edition: u64,
    letters: u64,
    file: &[u8],
    out: &mut [u8],
    report: &mut [u64],
    head: &mut [u64; 8],
    entries: &mut [u64],
    apertures: &mut [u64],
    macros: &mut [u64],
    numbers: &mut [i64],
    bytes: &mut u64,
    changes: &mut u64,
    unit: &mut u64,
    rounded: &mut u64,
) -> u64
    ensures { MendsInto (choice_of edition letters)
        (lent_of file.now entries.old apertures.old macros.old numbers.old)
        (lent_of file.now entries.new apertures.new macros.new numbers.new)
        (length out.old) out.new (length report.old) report.new head.new result bytes.new changes.new unit.new rounded.new }
{
    let a = numbered::mend(
        edition, letters, file, out, report, head, entries, apertures, macros, numbers,
    );
    match a {
        Ok(
            mend_call::Mended {
                bytes: b,
                changes: n,
                unit: u,
                rounded: d,
            },
        ) => {
            *bytes = b as u64;
            *changes = n as u64;
            *unit = u;
            *rounded = d as u64;
            0
        }
        Err(number) => {
            *bytes = 0;
            *changes = 0;
            *unit = 0;
            *rounded = 0;
            number
        }
    }
}

// The MD5 of some bytes, by which a file is told from another.
#[unsafe(no_mangle)]
pub extern "C" fn sheet_digest(bytes: &[u8], digest: &mut [u8; 16])
    ensures { digest.new ≡ md5 bytes.now }
{
    *digest = digest::digest(bytes);
}

// Document 01's number of a lookup.
#[tactic(auto, unfolding(shapes::specs::Shapes::lookup_number))]
fn lookup_number(l: Result<Shape, LookupError>) -> u64
    ensures { result ≡ lookup_number l }
{
    match l {
        Ok(_) => 0,
        Err(LookupError::Unknown) => 8,
        Err(LookupError::NotSheet) => 21,
    }
}

// The words of the aperture that is found, zeros without one.
#[tactic(auto, unfolding(crate::specs::Shapes::shape_words, shapes::specs::Shapes::lookup_shape, shapes::specs::Shapes::zero_shape))]
fn shape_words(l: Result<Shape, LookupError>) -> [u64; 5]
    ensures { result ≡ shape_words (lookup_shape l) }
{
    match l {
        Ok(s) => [
            s.number,
            s.kind,
            s.first as u64,
            s.count as u64,
            s.primitives as u64,
        ],
        Err(_) => [0; 5],
    }
}

// What the aperture with a number exposes, zeros where there is none.
#[unsafe(no_mangle)]
pub extern "C" fn sheet_shape(
    head: &[u64; 8],
    apertures: &[u64],
    numbers: &[i64],
    number: u64,
    shape: &mut [u64; 5],
) -> u64
    ensures { (result ≡ lookup_number (lookup_of head.now apertures.now numbers.now number))
        × (shape.new ≡ shape_words (lookup_shape (lookup_of head.now apertures.now numbers.now number))) }
{
    let l = shapes::shape_of(head, apertures, numbers, number);
    *shape = shape_words(l);
    lookup_number(l)
}

// The same of aperture record b, in the order in which the file defines them.
#[unsafe(no_mangle)]
pub extern "C" fn sheet_shape_record(
    head: &[u64; 8],
    apertures: &[u64],
    numbers: &[i64],
    b: u64,
    shape: &mut [u64; 5],
) -> u64
    ensures { (result ≡ lookup_number (record_of head.now apertures.now numbers.now b))
        × (shape.new ≡ shape_words (lookup_shape (record_of head.now apertures.now numbers.now b))) }
{
    let l = shapes::shape_at(head, apertures, numbers, b);
    *shape = shape_words(l);
    lookup_number(l)
}

// Document 01's number of a call for a run of primitives.
#[tactic(auto, unfolding(shapes::specs::Runs::fetch_number))]
fn primitives_number(f: Result<(), shapes::FetchError>) -> u64
    ensures { result ≡ primitive_number f }
{
    match f {
        Ok(()) => 0,
        Err(shapes::FetchError::Past) => 20,
        Err(shapes::FetchError::Unknown) => 8,
        Err(shapes::FetchError::NotSheet) => 21,
    }
}

// Primitives i, i + 1, .. of the aperture with a number, in as many slots as there is room for.
#[unsafe(no_mangle)]
pub extern "C" fn sheet_primitives(
    head: &[u64; 8],
    apertures: &[u64],
    numbers: &[i64],
    number: u64,
    i: usize,
    primitives: &mut [u64],
) -> u64
    ensures { (result ≡ primitive_number (primitive_fetch head.now apertures.now numbers.now number i))
        × (primitives.new ≡ primitives_fetched head.now apertures.now numbers.now number i (length primitives.old)) }
{
    let f = shapes::primitives_of(head, apertures, numbers, number, i, primitives);
    primitives_number(f)
}

// How many bytes a part of the file has.
#[tactic(auto, unfolding(crate::specs::Shapes::size_of))]
fn size_of(s: Span) -> u64
    ensures { result ≡ size_of s }
{
    s.to.saturating_sub(s.from) as u64
}

// The file attribute of this name: where its value stands in the file, and its length.
#[unsafe(no_mangle)]
pub extern "C" fn sheet_file_attribute(
    edition: u64,
    letters: u64,
    file: &[u8],
    name: &[u8],
    at: &mut u64,
    size: &mut u64,
) -> u64
    ensures { (result ≡ (label_named_by (choice_of edition letters) file.now name.now).number)
        × (at.new ≡ (label_named_by (choice_of edition letters) file.now name.now).label.value.from)
        × (size.new ≡ size_of (label_named_by (choice_of edition letters) file.now name.now).label.value) }
{
    let a = numbered::label_named(edition, letters, file, name);
    let value = a.label.value;
    *at = value.from as u64;
    *size = size_of(value);
    a.number
}

// File attribute i, in file order: where its name and its value stand in the file, and their lengths.
#[unsafe(no_mangle)]
pub extern "C" fn sheet_label(
    edition: u64,
    letters: u64,
    file: &[u8],
    i: usize,
    name_at: &mut u64,
    name_size: &mut u64,
    at: &mut u64,
    size: &mut u64,
) -> u64
    ensures { (result ≡ (label_at_by (choice_of edition letters) file.now i).number)
        × (name_at.new ≡ (label_at_by (choice_of edition letters) file.now i).label.name.from)
        × (name_size.new ≡ size_of (label_at_by (choice_of edition letters) file.now i).label.name)
        × (at.new ≡ (label_at_by (choice_of edition letters) file.now i).label.value.from)
        × (size.new ≡ size_of (label_at_by (choice_of edition letters) file.now i).label.value) }
{
    let a = numbered::label_at(edition, letters, file, i);
    let Label { name, value } = a.label;
    *name_at = name.from as u64;
    *name_size = size_of(name);
    *at = value.from as u64;
    *size = size_of(value);
    a.number
}

// The words of an aperture that is looked up.
#[unsafe(no_mangle)]
pub extern "C" fn sheet_shape_words() -> usize
    ensures { ShapesAre result }
{
    5
}

// The words of a primitive in a run.
#[unsafe(no_mangle)]
pub extern "C" fn sheet_primitive_words() -> usize
    ensures { PrimitivesAre result }
{
    shapes::PRIMITIVE_WORDS
}
