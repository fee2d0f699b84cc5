// One pass over a file's commands: of each D01 and D03 its attributes are noted, of each AD what its aperture is for.
#![tactic(auto)]

ghost use Rattle.std.specs.Prelude.{◌≡◌, true, ◌+◌, ◌≤◌};
ghost use Rattle.scan.specs.Permitted.{fits};
ghost use Rattle.sequence.specs.Commands.{commands_of};
ghost use Rattle.index.specs.Numbers.{Numbered};
ghost use Rattle.layer.specs.Attributes.{declares_as};
ghost use Rattle.layer.specs.Work.{items_by, apertures_by};
ghost use Rattle.notes.specs.Designators.{Designators};
ghost use Rattle.noting.specs.Steps.{placed_at, noted_as, Put, Puts, HearsBoth, TextFollows, HearsAll, Small, Notes, begun};
ghost use Rattle.noting.specs.Holds.{Noted};

use attribute_call::Kind;
use book::Book;
use command::Span;
use layer::Made;
use notes::Note;
use sequence::{Placed, Turn};
use sheet::Aperture;

// What is known between two commands: the object attributes that are held, as they would be noted; what `.AperFunction` says; whether the layer
// is a component layer; how many D01 and D03, TO of `.C` or `.P`, and AD came; how many records the two tables have.
#[derive(Clone, Copy)]
pub struct Noting {
    pub said: Note,
    pub function: u64,
    pub component: bool,
    pub operations: usize,
    pub settings: usize,
    pub apertures: usize,
    pub names: usize,
    pub roles: usize,
}

// Both designators as they are noted, how many are kept, and how many of the two were set.
#[derive(Clone, Copy)]
pub struct Both {
    pub component: u64,
    pub pin: u64,
    pub used: usize,
    pub settings: usize,
}

// All texts as they are noted, likewise.
#[derive(Clone, Copy)]
pub struct Heard {
    pub note: Note,
    pub used: usize,
    pub settings: usize,
}

// Both designators after a command.
fn designators(file: &[u8], names: &mut [u64], used: usize, n: Note, c: Placed) -> Both
    requires { Designators file.now names.old used }
    ensures { HearsBoth file.now names.old names.new used n c result }
{
    let of_c = attribute_call::saying_of(file, Kind::Object, b".C", c);
    let of_p = attribute_call::saying_of(file, Kind::Object, b".P", c);
    let component = notes::designator_after(file, names, used, n.component, of_c);
    let pin = notes::designator_after(file, names, component.used, n.pin, of_p);
    Both {
        component: component.word,
        pin: pin.word,
        used: pin.used,
        settings: notes::set_by(of_c) + notes::set_by(of_p),
    }
}

// Where the first field of an object attribute lies after a command.
fn text_of(file: &[u8], name: &[u8], old: Span, c: Placed) -> Span
    ensures { TextFollows file.now 0 name.now old result c }
{
    let s = attribute_call::saying_of(file, Kind::Object, name, c);
    notes::text_after(file, old, s)
}

// Where its second field lies.
fn number_of(file: &[u8], name: &[u8], old: Span, c: Placed) -> Span
    ensures { TextFollows file.now 1 name.now old result c }
{
    let s = attribute_call::saying_of(file, Kind::Object, name, c);
    notes::number_after(file, old, s)
}

// All texts after a command.
fn hear(file: &[u8], names: &mut [u64], used: usize, n: Note, c: Placed) -> Heard
    requires { Designators file.now names.old used }
    ensures { HearsAll file.now names.old names.new used n c result }
{
    let both = designators(file, names, used, n, c);
    let number = number_of(file, b".P", n.number, c);
    let rotation = text_of(file, b".CRot", n.rotation, c);
    let value = text_of(file, b".CVal", n.value, c);
    let footprint = text_of(file, b".CFtp", n.footprint, c);
    let mount = text_of(file, b".CMnt", n.mount, c);
    Heard {
        note: Note {
            place: 0,
            component: both.component,
            pin: both.pin,
            number,
            rotation,
            value,
            footprint,
            mount,
        },
        used: both.used,
        settings: both.settings,
    }
}

// What is held, noted at a place.
#[tactic(auto, unfolding(crate::specs::Steps::placed_at))]
fn placed_at(n: Note, place: usize) -> Note
    ensures { result ≡ placed_at n place }
{
    Note {
        place: place as u64,
        ..n
    }
}

// Notes a D01 or D03; how many are noted.
#[tactic(auto, unfolding(layer::specs::Work::items_by, crate::specs::Steps::noted_as))]
fn note_operation(notes: &mut [u64], made: Made, operations: usize, n: Note) -> usize
    requires { operations ≤ 16777216 }
    ensures { (result ≡ operations + items_by made) × (notes.new ≡ noted_as made notes.old operations n) }
{
    match made {
        Made::Item => {
            notes::put_note(notes, operations, n);
            operations + 1
        }
        _ => operations,
    }
}

// Notes what the aperture with a number is for, where the number is new and there is room; how many are noted.
fn put_role(roles: &mut [u64], used: usize, number: u64, function: u64) -> usize
    requires { Numbered roles.old used }
    ensures { Put roles.old roles.new used result number function }
{
    let found = index::search_number(roles, used, number);
    let Err(link) = found else {
        return used;
    };
    let a = Aperture {
        number,
        kind: function,
        first: 0,
        len: 0,
        items: 0,
        height: 0,
    };
    if tables::put_aperture(roles, used, link, a) {
        return used + 1;
    }
    used
}

// Notes an AD.
#[tactic(auto, unfolding(crate::specs::Steps::Puts))]
fn note_aperture(roles: &mut [u64], made: Made, used: usize, function: u64) -> usize
    requires { Numbered roles.old used }
    ensures { Puts made roles.old roles.new used result function }
{
    match made {
        Made::Aperture(number) => put_role(roles, used, number, function),
        _ => used,
    }
}

// 1 of an AD.
#[tactic(auto, unfolding(layer::specs::Work::apertures_by))]
fn apertures_by(made: Made) -> usize
    ensures { result ≡ apertures_by made }
{
    match made {
        Made::Aperture(_) => 1,
        _ => 0,
    }
}

// Whether a command with this text says that the layer is a component layer.
#[tactic(auto, using(base::proofs::And::ands), unfolding(layer::specs::Attributes::declares_as))]
fn declares(t: &[u8], made: Made) -> bool
    ensures { result ≡ declares_as t.now made }
{
    match made {
        Made::File { name, value } => {
            text::is(base::part(t, name.from, name.to), b".FileFunction")
                && text::is(
                    text::before(base::part(t, value.from, value.to), b','),
                    b"Component",
                )
        }
        _ => false,
    }
}

// What is known after a command.
fn note_command(
    file: &[u8],
    notes: &mut [u64],
    names: &mut [u64],
    roles: &mut [u64],
    n: Noting,
    c: Placed,
) -> Noting
    requires { Small n × Designators file.now names.old n.names × Numbered roles.old n.roles }
    ensures { Notes file.now notes.old notes.new names.old names.new roles.old roles.new n c result }
{
    let said = n.said;
    let command = c.command;
    let made = layer::made_of(command);
    let operations = note_operation(notes, made, n.operations, placed_at(said, c.place));
    let used = note_aperture(roles, made, n.roles, n.function);
    let declared = declares(base::part(file, c.from, c.end), made);
    let heard = hear(file, names, n.names, said, c);
    let s = attribute_call::saying_of(file, Kind::Aperture, b".AperFunction", c);
    let function = notes::function_after(file, n.function, s);
    let note = heard.note;
    Noting {
        said: note,
        function,
        component: n.component || declared,
        operations,
        settings: n.settings + heard.settings,
        apertures: n.apertures + apertures_by(made),
        names: heard.used,
        roles: used,
    }
}

// Before any command.
#[tactic(auto, unfolding(crate::specs::Steps::begun))]
fn nothing() -> Noting
    ensures { result ≡ begun }
{
    Noting {
        said: Note {
            place: 0,
            component: 0,
            pin: 0,
            number: Span { from: 0, to: 0 },
            rotation: Span { from: 0, to: 0 },
            value: Span { from: 0, to: 0 },
            footprint: Span { from: 0, to: 0 },
            mount: Span { from: 0, to: 0 },
        },
        function: 0,
        component: false,
        operations: 0,
        settings: 0,
        apertures: 0,
        names: 0,
        roles: 0,
    }
}

// The pass.
pub fn note_all(
    book: Book,
    file: &[u8],
    notes: &mut [u64],
    names: &mut [u64],
    roles: &mut [u64],
) -> Noting
    requires { (fits file.now ≡ true) × ((commands_of book file.now).fault.number ≡ 0) }
    ensures { Noted book file.now notes.new names.new roles.new result }
{
    let mut format = formats::no_format();
    let mut at: usize = 0;
    let mut known = nothing();
    loop {
        let t = sequence::turn_at(book, format, file, at);
        match t {
            Turn::Fault(_) => {
                return known;
            }
            Turn::Last { command, .. } => {
                return note_command(file, notes, names, roles, known, command);
            }
            Turn::More {
                command,
                format: f,
                next,
            } => {
                known = note_command(file, notes, names, roles, known, command);
                format = f;
                at = next;
            }
        }
    }
}
