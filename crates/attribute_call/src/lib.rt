// The attribute call: the value of an attribute at a command of a file.
#![tactic(auto)]

ghost use Rattle.std.specs.Prelude.{◌≡◌, take, length, suc};
ghost use Rattle.std.proofs.Math.Seq.{slice};
ghost use Rattle.attribute_call.specs.Sayings.{value_in, named, asks_ta, saying, saying_of, taken_at};
ghost use Rattle.sequence.specs.Commands.{commands_from};
ghost use Rattle.formats.specs.Format.{no_format};
ghost use Rattle.attribute_call.specs.Attribute.{refused, later, kept, nothing, heard_with, held, answer_at, answer_in, attribute_of};
ghost use Rattle.attribute_call.specs.Pass.{met, judged};

use book::Book;
use command::{Command, Deed, Span};
use outlines::Region;
use sequence::{Placed, Turn};

// What a command says of an attribute that is asked, and where the attribute is taken.

// The kind that is asked: TA or TO.
#[derive(Clone, Copy)]
pub enum Kind {
    Aperture,
    Object,
}

// What a command says of the name that is asked.
#[derive(Clone, Copy)]
pub enum Saying {
    Silent,
    Deletes,
    Sets { place: usize, length: usize },
}

// The value after the first comma from `from` on, up to the first `*`.
#[tactic(auto, unfolding(base::specs::Choose::pick, crate::specs::Sayings::value_in))]
fn value_in(s: &[u8], from: usize) -> Saying
    ensures { result ≡ value_in s.now from }
{
    let comma = text::find(s, from, b',');
    let star = text::find(s, from, b'*');
    if comma < star {
        return Saying::Sets {
            place: comma + 1,
            length: star - (comma + 1),
        };
    }
    Saying::Sets {
        place: 0,
        length: 0,
    }
}

// A part of the text is the name asked.
fn is_named(t: &[u8], n: Span, name: &[u8]) -> bool
    ensures { result ≡ named t.now n name.now }
{
    text::is(base::part(t, n.from, n.to), name)
}

// TA is asked, not TO.
#[tactic(auto, unfolding(crate::specs::Sayings::asks_ta))]
fn asks_ta(kind: Kind) -> bool
    ensures { result ≡ asks_ta kind }
{
    matches!(kind, Kind::Aperture)
}

// What a deed says of the attribute, its command being from `from` up to `end`.
#[tactic(auto, using(base::proofs::Or::joins), unfolding(base::specs::Choose::pick, crate::specs::Sayings::saying))]
fn deed_says(file: &[u8], kind: Kind, name: &[u8], from: usize, end: usize, d: Deed) -> Saying
    ensures { result ≡ saying kind name.now (slice from end file.now) (value_in (take end file.now) from) d }
{
    let t = base::part(file, from, end);
    let ta = asks_ta(kind);
    match d {
        Deed::SetFile { .. } => Saying::Silent,
        Deed::SetAperture { name: n, .. } => {
            let value = value_in(base::up_to(file, end), from);
            command::pick(ta && is_named(t, n, name), value, Saying::Silent)
        }
        Deed::SetObject { name: n, .. } => {
            let value = value_in(base::up_to(file, end), from);
            command::pick(!ta && is_named(t, n, name), value, Saying::Silent)
        }
        Deed::Delete { name: n } => command::pick(
            is_named(t, n, name),
            Saying::Deletes,
            Saying::Silent,
        ),
        Deed::DeleteAll => Saying::Deletes,
    }
}

// What a command says of the attribute.
#[tactic(auto, unfolding(crate::specs::Sayings::saying_of, crate::specs::Sayings::spoken))]
pub fn saying_of(file: &[u8], kind: Kind, name: &[u8], c: Placed) -> Saying
    ensures { result ≡ saying_of file.now kind name.now c }
{
    match c.command {
        Command::Attribute(d) => deed_says(file, kind, name, c.from, c.end, d),
        _ => Saying::Silent,
    }
}

// An attribute of this kind is taken at a command with this text.
#[tactic(auto, using(base::proofs::Or::joins), unfolding(base::specs::Choose::pick, crate::specs::Sayings::taken_at))]
fn taken_at(kind: Kind, t: &[u8]) -> bool
    ensures { result ≡ taken_at kind t.now }
{
    match kind {
        Kind::Aperture => text::begins(t, b"AD") || text::begins(t, b"ABD"),
        Kind::Object => true,
    }
}

// The commands in file order, and what holds at the one that is asked for.

// Document 01's number, 0 where the name is held, and the place and length of its value in the file.
#[derive(Clone, Copy)]
pub struct Answer {
    pub number: u64,
    pub place: usize,
    pub length: usize,
}

// What the commands so far say of the name; what a region that is open carries of it; where the next command stands.
#[derive(Clone, Copy)]
pub struct Heard {
    pub said: Saying,
    pub carried: Saying,
    pub region: Region,
}

// Of two sayings the later, if it is one.
#[tactic(auto, unfolding(crate::specs::Attribute::later))]
fn later(s: Saying, t: Saying) -> Saying
    ensures { result ≡ later s t }
{
    match t {
        Saying::Silent => s,
        Saying::Deletes | Saying::Sets { .. } => t,
    }
}

// What a region carries on: a TD deletes it, a TA sets nothing anew.
#[tactic(auto, unfolding(crate::specs::Attribute::kept))]
fn kept(s: Saying, t: Saying) -> Saying
    ensures { result ≡ kept s t }
{
    match t {
        Saying::Deletes => t,
        Saying::Silent | Saying::Sets { .. } => s,
    }
}

// What is heard before any command.
fn nothing() -> Heard
    ensures { result ≡ nothing }
{
    Heard {
        said: Saying::Silent,
        carried: Saying::Silent,
        region: Region {
            inside: false,
            drawn: false,
        },
    }
}

// What is heard with a command more.
#[tactic(auto, unfolding(base::specs::Choose::pick, crate::specs::Attribute::heard_with))]
fn heard_with(book: Book, file: &[u8], kind: Kind, name: &[u8], h: Heard, c: Placed) -> Heard
    ensures { result ≡ heard_with book file.now kind name.now h c }
{
    let o = outlines::outline_of(book, base::part(file, c.from, c.end));
    let s = saying_of(file, kind, name, c);
    Heard {
        said: later(h.said, s),
        carried: command::pick(o.opens, h.said, kept(h.carried, s)),
        region: outlines::region_after(h.region, o),
    }
}

// A refusal, with place and length 0.
fn refused(number: u64) -> Answer
    ensures { result ≡ refused number }
{
    Answer {
        number,
        place: 0,
        length: 0,
    }
}

// The value that is held, or 23.
#[tactic(auto, unfolding(crate::specs::Attribute::held))]
fn held(s: Saying) -> Answer
    ensures { result ≡ held s }
{
    match s {
        Saying::Silent | Saying::Deletes => refused(23),
        Saying::Sets { place, length } => Answer {
            number: 0,
            place,
            length,
        },
    }
}

// The answer at a command, h being what is heard before it.
#[tactic(auto, unfolding(base::specs::Choose::pick, crate::specs::Attribute::answer_at))]
fn answer_at(book: Book, file: &[u8], kind: Kind, c: Placed, h: Heard) -> Answer
    ensures { result ≡ answer_at book file.now kind c h }
{
    let t = base::part(file, c.from, c.end);
    if taken_at(kind, t) {
        return held(h.said);
    }
    let o = outlines::outline_of(book, t);
    if outlines::begins_contour(h.region, o) {
        return held(command::pick(o.opens, h.said, h.carried));
    }
    refused(23)
}

// What is found with a command more, h being what is heard before it.
#[tactic(auto, unfolding(base::specs::Choose::pick, crate::specs::Pass::met))]
fn met(
    book: Book,
    file: &[u8],
    kind: Kind,
    place: usize,
    h: Heard,
    c: Placed,
    found: Option<Answer>,
) -> Option<Answer>
    ensures { result ≡ met book file.now kind place h c found }
{
    match found {
        None if c.place == place => Some(answer_at(book, file, kind, c, h)),
        _ => found,
    }
}

// The answer at the end: a fault, else what is found, else 22.
#[tactic(auto, unfolding(base::specs::Choose::pick, crate::specs::Pass::judged, crate::specs::Pass::closing))]
fn judged(number: u64, found: Option<Answer>) -> Answer
    ensures { result ≡ judged number found }
{
    if number == 0 {
        return found.unwrap_or(refused(22));
    }
    refused(number)
}

// The answer, in one pass over the file's commands.
fn pass(book: Book, file: &[u8], kind: Kind, place: usize, name: &[u8]) -> Answer
    ensures { result ≡ answer_in book file.now kind place name.now (commands_from book (suc (length file.now)) no_format file.now 0) }
{
    let mut format = formats::no_format();
    let mut at: usize = 0;
    let mut heard = nothing();
    let mut found = None;
    // The file's next command is known only once this one is cut: no iterator walks so.
    loop {
        let t = sequence::turn_at(book, format, file, at);
        match t {
            Turn::Fault(f) => {
                return judged(f.number, found);
            }
            Turn::Last { command, next } => {
                let f = sequence::tail_fault(file, next);
                return judged(
                    f.number,
                    met(book, file, kind, place, heard, command, found),
                );
            }
            Turn::More {
                command,
                format: f,
                next,
            } => {
                found = met(book, file, kind, place, heard, command, found);
                heard = heard_with(book, file, kind, name, heard, command);
                format = f;
                at = next;
            }
        }
    }
}

// The attribute of this kind and name at the command that begins at the place, by a book.
#[tactic(auto, unfolding(crate::specs::Attribute::attribute_of, sequence::specs::Commands::commands_of, crate::specs::Attribute::answer_in, base::specs::Choose::pick))]
pub fn attribute(book: Book, file: &[u8], kind: Kind, place: usize, name: &[u8]) -> Answer
    ensures { result ≡ attribute_of book file.now kind place name.now }
{
    if scan::file_fits(file) {
        return pass(book, file, kind, place, name);
    }
    refused(1)
}
