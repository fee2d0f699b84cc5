// The file attributes of a file: the one of a name, and the one of a number in file order.
#![tactic(auto)]

ghost use Rattle.std.specs.Prelude.{◌≡◌, length, suc};
ghost use Rattle.formats.specs.Format.{no_format};
ghost use Rattle.sequence.specs.Commands.{commands_from};
ghost use Rattle.labels.specs.Labels.{none, refused, value_in, label_of, label_by, label_set_by, is_named, closing, judged, answer_in, label_named, label_at};
ghost use Rattle.labels.specs.Pass.{Lies, NameLies, wants, met, left_after, first_wanted};

use book::Book;
use command::Span;
use sequence::{Placed, Turn};

// Where the name and the value of a file attribute stand in the file; a value that is not there is at 0 to 0.
#[derive(Clone, Copy)]
pub struct Label {
    pub name: Span,
    pub value: Span,
}

// Document 01's number, 0 where there is such an attribute, and where it stands; places 0 where there is none.
#[derive(Clone, Copy)]
pub struct Answer {
    pub number: u64,
    pub label: Label,
}

// Without a place.
#[tactic(auto, unfolding(crate::specs::Labels::none))]
fn none() -> Label
    ensures { result ≡ none }
{
    Label {
        name: Span { from: 0, to: 0 },
        value: Span { from: 0, to: 0 },
    }
}

// A refusal, with all places 0.
#[tactic(auto, unfolding(crate::specs::Labels::refused))]
pub fn refused(number: u64) -> Answer
    ensures { result ≡ refused number }
{
    Answer {
        number,
        label: none(),
    }
}

// What stands after the first comma from `from` on, up to the first `*`; at 0 to 0 without a comma before it.
#[tactic(auto, unfolding(base::specs::Choose::pick, crate::specs::Labels::value_in))]
fn value_in(s: &[u8], from: usize) -> Span
    ensures { result ≡ value_in s.now from }
{
    let comma = text::find(s, from, b',');
    let star = text::find(s, from, b'*');
    if comma < star {
        return Span {
            from: comma + 1,
            to: star,
        };
    }
    Span { from: 0, to: 0 }
}

// The file attribute of a command whose name stands at n of its text.
#[tactic(auto, unfolding(crate::specs::Labels::label_of))]
fn label_of(file: &[u8], c: Placed, n: Span) -> Label
    requires { Lies (length file.now) c.from n }
    ensures { result ≡ label_of file.now c n }
{
    Label {
        name: Span {
            from: c.from + n.from,
            to: c.from + n.to,
        },
        value: value_in(base::up_to(file, c.end), c.from),
    }
}

// The file attribute that a command sets, if it is a TF.
#[tactic(auto, unfolding(crate::specs::Labels::label_by, crate::specs::Labels::label_set_by))]
fn label_set_by(file: &[u8], c: Placed) -> Option<Label>
    requires { NameLies (length file.now) c }
    ensures { result ≡ label_set_by file.now c }
{
    let name = names::sets_of(c.command)?;
    Some(label_of(file, c, name))
}

// Whether it has the name.
#[tactic(auto, unfolding(crate::specs::Labels::is_named))]
fn is_named(file: &[u8], name: &[u8], l: Label) -> bool
    ensures { result ≡ is_named file.now name.now l }
{
    let n = l.name;
    text::is(base::part(file, n.from, n.to), name)
}

// Whether it is the one that is asked for: by its name, or as the one after so many others.
#[tactic(auto, unfolding(crate::specs::Pass::wants))]
fn wants(file: &[u8], named: bool, name: &[u8], left: usize, l: Label) -> bool
    ensures { result ≡ wants file.now named name.now left l }
{
    if named {
        is_named(file, name, l)
    } else {
        left == 0
    }
}

// What is found with a command more.
#[tactic(auto, unfolding(base::specs::Choose::pick, crate::specs::Pass::met))]
fn met(
    file: &[u8],
    named: bool,
    name: &[u8],
    left: usize,
    label: Option<Label>,
    found: Option<Label>,
) -> Option<Label>
    ensures { result ≡ met file.now named name.now left label found }
{
    match (found, label) {
        (None, Some(l)) if wants(file, named, name, left, l) => Some(l),
        _ => found,
    }
}

// How many file attributes are to be passed yet.
#[tactic(auto, unfolding(base::specs::Choose::pick, crate::specs::Pass::left_after))]
fn left_after(left: usize, label: Option<Label>) -> usize
    ensures { result ≡ left_after left label }
{
    match label {
        None => left,
        Some(_) => left.saturating_sub(1),
    }
}

// What is found, or 23.
#[tactic(auto, unfolding(crate::specs::Labels::closing))]
fn closing(found: Option<Label>) -> Answer
    ensures { result ≡ closing found }
{
    match found {
        None => refused(23),
        Some(label) => Answer { number: 0, label },
    }
}

// The answer at the end: a fault of the file, else what is found, else 23.
#[tactic(auto, unfolding(base::specs::Choose::pick, crate::specs::Labels::judged))]
fn judged(number: u64, found: Option<Label>) -> Answer
    ensures { result ≡ judged number found }
{
    if number == 0 {
        return closing(found);
    }
    refused(number)
}

// The answer, in one pass over the file's commands.
fn pass(book: Book, file: &[u8], named: bool, name: &[u8], i: usize) -> Answer
    ensures { result ≡ answer_in file.now (first_wanted file.now named name.now i) (commands_from book (suc (length file.now)) no_format file.now 0) }
{
    let mut format = formats::no_format();
    let mut at: usize = 0;
    let mut left = i;
    let mut found = None;
    // The file's next command is known only once this one is cut: no iterator walks so.
    loop {
        let t = sequence::turn_at(book, format, file, at);
        match t {
            Turn::Fault(f) => {
                return judged(f.number, found);
            }
            Turn::Last { command, next } => {
                let f = sequence::tail_fault(file, next);
                let label = label_set_by(file, command);
                return judged(f.number, met(file, named, name, left, label, found));
            }
            Turn::More {
                command,
                format: f,
                next,
            } => {
                let label = label_set_by(file, command);
                found = met(file, named, name, left, label, found);
                left = left_after(left, label);
                format = f;
                at = next;
            }
        }
    }
}

// The file attribute of this name, by a book.
pub fn label_named(book: Book, file: &[u8], name: &[u8]) -> Answer
    ensures { result ≡ label_named book file.now name.now }
{
    if scan::file_fits(file) {
        return pass(book, file, true, name, 0);
    }
    refused(1)
}

// File attribute i, counted from 0 in file order, by a book.
pub fn label_at(book: Book, file: &[u8], i: usize) -> Answer
    ensures { result ≡ label_at book file.now i }
{
    if scan::file_fits(file) {
        return pass(book, file, false, b"", i);
    }
    refused(1)
}
