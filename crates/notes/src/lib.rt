// What is noted of each D01 and D03: its place, and where its object attributes lie in the file. Notes stand in the order of their places.
#![tactic(auto)]

ghost use Rattle.std.specs.Prelude.{◌≡◌, ◌+◌, ◌*◌, ◌≤◌, ◌<◌, get_or, length, take, drop, []};
ghost use Rattle.command.specs.Span.{span};
ghost use Rattle.sheet.specs.Records.{stored};
ghost use Rattle.notes.specs.Notes.{note_width, note_room, note_in, note_of, note_words, with_note, Sought, Found};
ghost use Rattle.std.proofs.Math.Seq.{slice};
ghost use Rattle.law_components.specs.Values.{held, field};
ghost use Rattle.layer.specs.Work.{set_by};
ghost use Rattle.notes.specs.Spans.{SpanIs, Follows};
ghost use Rattle.notes.specs.Designators.{Designators, Kept, Hears};
ghost use Rattle.notes.specs.Functions.{function_is, FunctionFollows};

use attribute_call::Saying;
use command::Span;
use tables::Macro;

// The words of a note.
pub const NOTE_WORDS: usize = 13;

// The place of the command; its designators by `.C` and by `.P`, each one more than the number of its record, and 0 where the name is not
// held; where the pin's number and the other texts lie in the file.
#[derive(Clone, Copy)]
pub struct Note {
    pub place: u64,
    pub component: u64,
    pub pin: u64,
    pub number: Span,
    pub rotation: Span,
    pub value: Span,
    pub footprint: Span,
    pub mount: Span,
}

// The words i and i + 1 as a part of the file.
fn span_at(w: &[u64], i: usize) -> Span
    requires { i < note_width }
    ensures { result ≡ span (get_or w.now i 0) (get_or w.now (i + 1) 0) }
{
    Span {
        from: base::word_at(w, i) as usize,
        to: base::word_at(w, i + 1) as usize,
    }
}

fn note_in(w: &[u64]) -> Note
    ensures { result ≡ note_in w.now }
{
    Note {
        place: base::word_at(w, 0),
        component: base::word_at(w, 1),
        pin: base::word_at(w, 2),
        number: span_at(w, 3),
        rotation: span_at(w, 5),
        value: span_at(w, 7),
        footprint: span_at(w, 9),
        mount: span_at(w, 11),
    }
}

// Note i.
pub fn note_at(s: &[u64], i: usize) -> Note
    requires { i ≤ note_room s.now }
    ensures { result ≡ note_of s.now i }
{
    let p = i * NOTE_WORDS;
    note_in(&s[p..])
}

// Stores a note's words.
fn put_words(s: &mut [u64], i: usize, n: Note)
    requires { i < note_room s.old }
    ensures { s.new ≡ stored s.old (i * note_width) (note_words n) }
{
    let w = [
        n.place,
        n.component,
        n.pin,
        n.number.from as u64,
        n.number.to as u64,
        n.rotation.from as u64,
        n.rotation.to as u64,
        n.value.from as u64,
        n.value.to as u64,
        n.footprint.from as u64,
        n.footprint.to as u64,
        n.mount.from as u64,
        n.mount.to as u64,
    ];
    sheet::put_words(s, i * NOTE_WORDS, &w);
}

// Stores note i; without room for it nothing changes.
pub fn put_note(s: &mut [u64], i: usize, n: Note)
    ensures { s.new ≡ with_note s.old i n }
{
    if i < s.len() / NOTE_WORDS {
        put_words(s, i, n);
    }
}

// The place of note i.
fn place_at(s: &[u64], i: usize) -> u64
    requires { i < note_room s.now }
    ensures { result ≡ (note_of s.now i).place }
{
    base::word_at(s, i * NOTE_WORDS)
}

// The note, of the first `used`, of the command at a place.
pub fn find(s: &[u64], used: usize, place: u64) -> usize
    requires { Sought s.now used place }
    ensures { Found s.now used place result }
{
    // A search that halves what is left: the places stand among the other words of the notes, so that no slice holds them alone.
    let mut low: usize = 0;
    let mut high = used;
    while low + 1 < high {
        let middle = low + (high - low) / 2;
        if place_at(s, middle) <= place {
            low = middle;
        } else {
            high = middle;
        }
    }
    low
}

// What the commands of a file say of the attributes that a placement list asks for, as it is noted.

// No text.
pub fn nowhere() -> Span
    ensures { result ≡ record { from = 0; to = 0 } }
{
    Span { from: 0, to: 0 }
}

// The first field of the value of a length at a place.
fn first_field(file: &[u8], place: usize, length: usize) -> Span
    ensures { SpanIs file.now result (field 0 (held (take length (drop place file.now)))) }
{
    let from = place.min(file.len());
    let value = base::up_to(base::from_on(file, place), length);
    Span {
        from,
        to: from + text::find(value, 0, b','),
    }
}

// Its second field.
fn second_field(file: &[u8], place: usize, length: usize) -> Span
    ensures { SpanIs file.now result (field 1 (held (take length (drop place file.now)))) }
{
    let value = base::up_to(base::from_on(file, place), length);
    let comma = text::find(value, 0, b',');
    if comma < value.len() {
        return first_field(file, place + comma + 1, value.len() - (comma + 1));
    }
    nowhere()
}

// Where a text lies after a command that says this of it.
pub fn text_after(file: &[u8], old: Span, s: Saying) -> Span
    ensures { Follows file.now 0 old result s }
{
    match s {
        Saying::Silent => old,
        Saying::Deletes => nowhere(),
        Saying::Sets { place, length } => first_field(file, place, length),
    }
}

// Where the number of a pin lies.
pub fn number_after(file: &[u8], old: Span, s: Saying) -> Span
    ensures { Follows file.now 1 old result s }
{
    match s {
        Saying::Silent => old,
        Saying::Deletes => nowhere(),
        Saying::Sets { place, length } => second_field(file, place, length),
    }
}

// A designator as it is noted, and how many are kept.
#[derive(Clone, Copy)]
pub struct Designated {
    pub word: u64,
    pub used: usize,
}

// The designator at p among those that are kept, put there where it is new and there is room.
fn designate(file: &[u8], names: &mut [u64], used: usize, p: Span) -> Designated
    requires { Designators file.now names.old used × (p.from ≤ p.to) × (p.to ≤ length file.now) }
    ensures { Kept file.now names.old names.new used (slice p.from p.to file.now) result }
{
    let from = p.from;
    let to = p.to;
    let found = index::search_name(file, names, used, from, to);
    match found {
        Ok(i) => Designated {
            word: i as u64 + 1,
            used,
        },
        Err(link) => {
            let name = Macro {
                from,
                to,
                first: 0,
                end: 0,
            };
            if tables::put_macro(names, used, link, name) {
                return Designated {
                    word: used as u64 + 1,
                    used: used + 1,
                };
            }
            Designated { word: 0, used }
        }
    }
}

// The designator after a command that says this of it.
pub fn designator_after(
    file: &[u8],
    names: &mut [u64],
    used: usize,
    old: u64,
    s: Saying,
) -> Designated
    requires { Designators file.now names.old used }
    ensures { Hears file.now names.old names.new used old s result }
{
    match s {
        Saying::Silent => Designated { word: old, used },
        Saying::Deletes => Designated { word: 0, used },
        Saying::Sets { place, length } => {
            let p = first_field(file, place, length);
            designate(file, names, used, p)
        }
    }
}

// 1 where a value is set.
#[tactic(auto, unfolding(layer::specs::Work::set_by))]
pub fn set_by(s: Saying) -> usize
    ensures { result ≡ set_by s }
{
    match s {
        Saying::Sets { .. } => 1,
        Saying::Silent | Saying::Deletes => 0,
    }
}

// What an aperture with this function is for.
#[tactic(auto, unfolding(crate::specs::Functions::function_is))]
fn function_is(s: &[u8]) -> u64
    ensures { result ≡ function_is s.now }
{
    if text::is(s, b"ComponentMain") {
        1
    } else if text::is(s, b"ComponentPin") {
        2
    } else if text::is(s, b"ComponentOutline") {
        3
    } else {
        0
    }
}

// What apertures are for after a command that says this of `.AperFunction`.
pub fn function_after(file: &[u8], old: u64, s: Saying) -> u64
    ensures { FunctionFollows file.now old result s }
{
    match s {
        Saying::Silent => old,
        Saying::Deletes => 0,
        Saying::Sets { place, length } => {
            let p = first_field(file, place, length);
            function_is(base::part(file, p.from, p.to))
        }
    }
}
