// Where a name of a file attribute is set twice, and where a name is first set, found by walks over a file's commands.
#![tactic(auto)]

ghost use Rattle.std.specs.Prelude.{◌≡◌, ◌≤◌, ◌<◌, min, length, replicate};
ghost use Rattle.std.proofs.Math.Seq.{slice};
ghost use Rattle.index.specs.Names.{Named};
ghost use Rattle.formats.specs.Format.{no_format};
ghost use Rattle.recognise.specs.Commands.{command_of};
ghost use Rattle.names.specs.Sets.{sets_by, sets_of};
ghost use Rattle.names.specs.Twice.{look_at, first_at, twice_at};
ghost use Rattle.names.specs.Kept.{noted_of, kept_of, Narrow, Passed};
ghost use Rattle.register.specs.Wide.{half, wide};

use book::Book;
use command::{Command, Deed, Span};
use scan::{Kind, Scan};

// What stands next: no command; one that sets no name; a TF, its name from..to in the file.
#[derive(Clone, Copy)]
pub enum Look {
    End,
    Other {
        next: usize,
    },
    Naming {
        place: usize,
        from: usize,
        to: usize,
        next: usize,
    },
}

// A name was set before; or is new and kept, which makes so many that are; or is new and finds no room.
#[derive(Clone, Copy)]
pub enum Noted {
    Again,
    New(usize),
    Full,
}

// What a walk finds: the place of the first TF that sets a name which the walk has kept, the length of the file where none does; and from
// where on the names were not kept, the length of the file where all were.
#[derive(Clone, Copy)]
pub struct Pass {
    pub found: usize,
    pub rest: usize,
}

// What is set of the file's attributes by what is done to one.
#[tactic(auto, unfolding(crate::specs::Sets::sets_by))]
fn sets_by(deed: Deed) -> Option<Span>
    ensures { result ≡ sets_by deed }
{
    match deed {
        Deed::SetFile { name, .. } => Some(name),
        _ => None,
    }
}

// What a command sets of the file's attributes.
#[tactic(auto, unfolding(crate::specs::Sets::sets_of))]
pub fn sets_of(c: Command) -> Option<Span>
    ensures { result ≡ sets_of c }
{
    match c {
        Command::Attribute(deed) => sets_by(deed),
        _ => None,
    }
}

// The same of a command's kind and text. Only one that begins with `TF` is recognised: that costs more than to cut it out.
fn sets_in(book: Book, kind: Kind, s: &[u8]) -> Option<Span>
    ensures { result ≡ sets_of (command_of book no_format kind s.now) }
{
    match kind {
        Kind::Word => None,
        Kind::Macro => None,
        Kind::Extended => {
            if text::begins(s, b"TF") {
                let none = formats::no_format();
                return sets_of(recognise::command_of(book, none, Kind::Extended, s));
            }
            None
        }
    }
}

// What stands next from a place on, by a book.
fn look_at(book: Book, file: &[u8], at: usize) -> Look
    requires { at ≤ length file.now }
    ensures { result ≡ look_at book file.now at }
{
    match scan::next_command(book, file, at) {
        Scan::Command {
            kind,
            place,
            from,
            end,
            next,
        } => {
            match sets_in(book, kind, base::part(file, from, end)) {
                None => Look::Other { next },
                Some(n) => Look::Naming {
                    place,
                    from: from + n.from,
                    to: from + n.to,
                    next,
                },
            }
        }
        Scan::BadByte { .. } => Look::End,
        Scan::Ended { .. } => Look::End,
    }
}

// The place of the first TF that sets a name, found by a walk from the file's first byte on; the length of the file where none does.
pub fn first_at(book: Book, file: &[u8], name: &[u8]) -> usize
    ensures { result ≡ first_at book file.now name.now }
{
    let mut at: usize = 0;
    // The file's next command is known only once this one is cut: no iterator walks so.
    loop {
        let l = look_at(book, file, at);
        match l {
            Look::End => {
                return file.len();
            }
            Look::Other { next } => {
                at = next;
            }
            Look::Naming {
                place,
                from,
                to,
                next,
            } => {
                if text::is(base::part(file, from, to), name) {
                    return place;
                }
                at = next;
            }
        }
    }
}

// Looks for the name file[from..to] among the `used` names that are kept, and keeps it where it is new and there is room.
fn note(file: &[u8], s: &mut [u64], used: usize, from: usize, to: usize) -> Noted
    requires { Named file.now (wide s.old) used × (from ≤ to) × (to ≤ length file.now) × Narrow file.now s.old }
    ensures { (result ≡ noted_of file.now (wide s.old) used from to) × (wide s.new ≡ kept_of file.now (wide s.old) used from to) }
{
    let found = register::find(file, s, used, from, to);
    let Err(free) = found else {
        return Noted::Again;
    };
    if register::put(s, used, free.at, free.high, from, to) {
        return Noted::New(used + 1);
    }
    Noted::Full
}

// A walk from a place on: keeps the names while there is room, and finds the first TF that sets one of those kept.
fn walk_from(book: Book, file: &[u8], s: &mut [u64], from: usize) -> Pass
    requires { (from < length file.now) × (2 ≤ length s.old) × Narrow file.now s.old }
    ensures { Passed book file.now from result × (length s.new ≡ length s.old) }
{
    let mut used: usize = 0;
    let mut at: usize = from;
    let mut rest: usize = file.len();
    // The file's next command is known only once this one is cut: no iterator walks so.
    loop {
        let l = look_at(book, file, at);
        match l {
            Look::End => {
                return Pass {
                    found: file.len(),
                    rest,
                };
            }
            Look::Other { next } => {
                at = next;
            }
            Look::Naming {
                place,
                from: begins,
                to,
                next,
            } => {
                let n = note(file, s, used, begins, to);
                match n {
                    Noted::Again => {
                        return Pass { found: place, rest };
                    }
                    Noted::New(more) => {
                        used = more;
                        at = next;
                    }
                    Noted::Full => {
                        rest = rest.min(at);
                        at = next;
                    }
                }
            }
        }
    }
}

// The place of the first TF whose name was set before, the length of the file where there is none: a walk for as many names as there is
// room for.
fn repeat_in(book: Book, file: &[u8], s: &mut [u64]) -> usize
    requires { (2 ≤ length s.old) × Narrow file.now s.old }
    ensures { (result ≡ twice_at book file.now) × (length s.new ≡ length s.old) }
{
    let mut at: usize = 0;
    let mut found: usize = file.len();
    // Each walk says where the next begins: no iterator walks so.
    while at < found {
        let p = walk_from(book, file, s, at);
        found = found.min(p.found);
        at = p.rest;
    }
    found
}

// The same over room of its own, for 65,536 names.
fn own_repeat_in(book: Book, file: &[u8]) -> usize
    requires { length file.now < half }
    ensures { result ≡ twice_at book file.now }
{
    let mut own = [0u64; 131072];
    repeat_in(book, file, &mut own)
}

// The same for those who lend room for the names, which holds zeros afterwards; where it is smaller than the own room, or too large for
// links of half a word, it is not used for the names.
#[tactic(auto, using(base::proofs::Or::joins))]
pub fn first_repeat(book: Book, file: &[u8], scratch: &mut [u64]) -> usize
    requires { length file.now < half }
    ensures { (result ≡ twice_at book file.now) × (scratch.new ≡ replicate (length scratch.old) 0) }
{
    if scratch.len() < 131072 || scratch.len() >= 8589934592 {
        base::clear(scratch);
        return own_repeat_in(book, file);
    }
    let place = repeat_in(book, file, scratch);
    base::clear(scratch);
    place
}
