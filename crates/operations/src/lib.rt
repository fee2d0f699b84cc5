// Operations: D01, D02 and D03 with their coordinates.
#![tactic(auto)]

ghost use Rattle.std.specs.Prelude.{◌≡◌, ◌≤◌, get_or};
ghost use Rattle.digits.specs.Sign.{is_sign};
ghost use Rattle.formats.specs.Format.{exact_places};
ghost use Rattle.formats.specs.declared.Format.{Format};
ghost use Rattle.operations.specs.Coordinates.{missing, given, field_at, fields_in};
ghost use Rattle.operations.specs.Operations.{alone, broken, too_long, axis_of, offset_of, draw, move, flash, without_offset, operation_code, operation_in, operates, coded, operation_of};

use command::{Command, Offset, Operation, Setting};
use digits::NumberError;
use formats::Format;
use points::Point;

// One coordinate of an operation as it is written: whether it is there, whether it is none, whether it has too many digits, whether it
// has a sign, and its value, which is 0 without one.
#[derive(Clone, Copy)]
pub struct Field {
    pub given: bool,
    pub formless: bool,
    pub long: bool,
    pub signed: bool,
    pub value: i64,
}

// A field, and the place after it.
#[derive(Clone, Copy)]
pub struct TakenField {
    pub field: Field,
    pub next: usize,
}

// The coordinates of an operation, and whether bytes are left after them.
#[derive(Clone, Copy)]
pub struct Fields {
    pub x: Field,
    pub y: Field,
    pub i: Field,
    pub j: Field,
    pub left: bool,
}

// An operation as it is written: whether it is not of its form (4), whether a coordinate of it has too many digits (5), and what it says.
#[derive(Clone, Copy)]
pub struct Written {
    pub formless: bool,
    pub long: bool,
    pub operation: Operation,
}

// A sign stands at a place.
#[tactic(auto, using(base::proofs::Or::joins))]
fn sign_at(s: &[u8], at: usize) -> bool
    ensures { result ≡ is_sign (get_or s.now at 0) }
{
    let b = base::byte_at(s, at);
    b == b'+' || b == b'-'
}

// No coordinate.
#[tactic(auto, unfolding(crate::specs::Coordinates::missing))]
fn missing() -> Field
    ensures { result ≡ missing }
{
    Field {
        given: false,
        formless: false,
        long: false,
        signed: false,
        value: 0,
    }
}

// A coordinate that is there, and whether it has a sign.
#[tactic(auto, unfolding(crate::specs::Coordinates::given, crate::specs::Coordinates::missing))]
fn as_given(signed: bool, c: Result<i64, NumberError>) -> Field
    ensures { result ≡ given signed c }
{
    let there = Field {
        given: true,
        signed,
        ..missing()
    };
    match c {
        Err(NumberError::NotForm) => Field {
            formless: true,
            ..there
        },
        Err(NumberError::TooLong) => Field {
            long: true,
            ..there
        },
        Ok(value) => Field { value, ..there },
    }
}

// The field of a letter at a place, if the letter stands there.
fn field_at(format: Format, letter: u8, s: &[u8], at: usize) -> TakenField
    requires { 1 ≤ letter }
    ensures { result ≡ field_at format letter s.now at }
{
    if base::byte_at(s, at) == letter {
        let taken = formats::coordinate_in(format, s, at + 1);
        return TakenField {
            field: as_given(sign_at(s, at + 1), taken.coordinate),
            next: taken.next,
        };
    }
    TakenField {
        field: missing(),
        next: at,
    }
}

// The same in a format whose coordinates have so many digits and are worth them as they are written.
fn exact_at(limit: usize, letter: u8, s: &[u8], at: usize) -> TakenField
    requires { (1 ≤ letter) × (1 ≤ limit) × (limit ≤ 12) }
    ensures { (f : Format) → limit ≡ exact_places f → result ≡ field_at f letter s.now at }
{
    if base::byte_at(s, at) == letter {
        let taken = digits::coordinate_at(s, at + 1, limit);
        return TakenField {
            field: as_given(sign_at(s, at + 1), taken.coordinate),
            next: taken.next,
        };
    }
    TakenField {
        field: missing(),
        next: at,
    }
}

// X, Y, I and J, in that order, in such a format.
fn exact_fields(limit: usize, s: &[u8]) -> Fields
    requires { (1 ≤ limit) × (limit ≤ 12) }
    ensures { (f : Format) → limit ≡ exact_places f → result ≡ fields_in f s.now }
{
    let x = exact_at(limit, b'X', s, 0);
    let y = exact_at(limit, b'Y', s, x.next);
    let i = exact_at(limit, b'I', s, y.next);
    let j = exact_at(limit, b'J', s, i.next);
    Fields {
        x: x.field,
        y: y.field,
        i: i.field,
        j: j.field,
        left: j.next < s.len(),
    }
}

// X, Y, I and J, in that order, in any format.
fn raised_fields(format: Format, s: &[u8]) -> Fields
    ensures { result ≡ fields_in format s.now }
{
    let x = field_at(format, b'X', s, 0);
    let y = field_at(format, b'Y', s, x.next);
    let i = field_at(format, b'I', s, y.next);
    let j = field_at(format, b'J', s, i.next);
    Fields {
        x: x.field,
        y: y.field,
        i: i.field,
        j: j.field,
        left: j.next < s.len(),
    }
}

// X, Y, I and J, in that order; the format is that of FS. Most formats have nothing to raise, and are asked once.
fn fields_in(format: Format, s: &[u8]) -> Fields
    ensures { result ≡ fields_in format s.now }
{
    let n = formats::exact_places(format);
    if n == 0 {
        return raised_fields(format, s);
    }
    exact_fields(n, s)
}

// A coordinate that is none, or bytes left after them.
#[tactic(auto, using(base::proofs::Or::joins), unfolding(crate::specs::Operations::broken))]
fn is_broken(f: Fields) -> bool
    ensures { result ≡ broken f }
{
    let xy = f.left || f.x.formless || f.y.formless;
    xy || f.i.formless || f.j.formless
}

// A coordinate with too many digits.
#[tactic(auto, using(base::proofs::Or::joins), unfolding(crate::specs::Operations::too_long))]
fn is_too_long(f: Fields) -> bool
    ensures { result ≡ too_long f }
{
    f.x.long || f.y.long || f.i.long || f.j.long
}

// One of I and J without the other.
#[tactic(auto, unfolding(crate::specs::Operations::alone))]
fn is_alone(f: Fields) -> bool
    ensures { result ≡ alone f }
{
    if f.i.given { !f.j.given } else { f.j.given }
}

// X or Y as the command has it.
#[tactic(auto, unfolding(crate::specs::Operations::axis_of))]
fn axis_of(f: Field) -> Option<i64>
    ensures { result ≡ axis_of f }
{
    if f.given { Some(f.value) } else { None }
}

// I and J as the command has them.
#[tactic(auto, using(base::proofs::Or::joins), unfolding(crate::specs::Operations::offset_of))]
fn offset_of(f: Fields) -> Option<Offset>
    ensures { result ≡ offset_of f }
{
    if f.i.given {
        return Some(Offset {
            offset: Point {
                x: f.i.value,
                y: f.j.value,
            },
            signed: f.i.signed || f.j.signed,
        });
    }
    None
}

// D01 with these coordinates.
#[tactic(auto, using(base::proofs::Or::joins), unfolding(crate::specs::Operations::draw))]
fn drawn(f: Fields) -> Written
    ensures { result ≡ draw f }
{
    Written {
        formless: is_broken(f) || is_alone(f),
        long: is_too_long(f),
        operation: Operation::Draw {
            x: axis_of(f.x),
            y: axis_of(f.y),
            centre: offset_of(f),
        },
    }
}

// An operation that has no I and J.
#[tactic(auto, using(base::proofs::Or::joins), unfolding(crate::specs::Operations::without_offset))]
fn without_offset(f: Fields, operation: Operation) -> Written
    ensures { result ≡ without_offset f operation }
{
    Written {
        formless: is_broken(f) || f.i.given || f.j.given,
        long: is_too_long(f),
        operation,
    }
}

// D02 with these coordinates.

fn moved(f: Fields) -> Written
    ensures { result ≡ move f }
{
    let x = axis_of(f.x);
    let y = axis_of(f.y);
    without_offset(f, Operation::Move { x, y })
}

// D03 with these coordinates.
#[tactic(auto, unfolding(crate::specs::Operations::flash))]
fn flashed(f: Fields) -> Written
    ensures { result ≡ flash f }
{
    let x = axis_of(f.x);
    let y = axis_of(f.y);
    without_offset(f, Operation::Flash { x, y })
}

// The operation of a number with the coordinates of this text, in which nothing else stands. Any number but 1 and 2 is 3.
pub fn operation_in(number: u64, format: Format, s: &[u8]) -> Written
    ensures { result ≡ operation_in number format s.now }
{
    let f = fields_in(format, s);
    if number == 1 {
        return drawn(f);
    }
    if number == 2 {
        return moved(f);
    }
    flashed(f)
}

// An operation with no code before it.
#[tactic(auto, unfolding(crate::specs::Operations::operates))]
pub fn operates(w: Written) -> Command
    ensures { result ≡ operates w }
{
    command::judged(w.formless, w.long, Command::Operate(w.operation))
}

// An operation after a G code.
#[tactic(auto, unfolding(crate::specs::Operations::coded))]
pub fn coded(code: Setting, w: Written) -> Command
    ensures { result ≡ coded code w }
{
    command::judged(
        w.formless,
        w.long,
        Command::Coded {
            code,
            operation: w.operation,
        },
    )
}

// The number of the operation that a text ends in: 1 for D01, 2 for D02, 3 for D03, and 0 where it ends in none.
pub fn operation_code(s: &[u8]) -> u64
    ensures { result ≡ operation_code s.now }
{
    if s.len() < 3 {
        return 0;
    }
    let at = s.len() - 3;
    let coded = base::both(s[at] == b'D', s[at + 1] == b'0');
    let b = s[at + 2];
    if base::both(coded, b == b'1') {
        return 1;
    }
    if base::both(coded, b == b'2') {
        return 2;
    }
    if base::both(coded, b == b'3') {
        return 3;
    }
    0
}

// The operation of a number, of a text that ends in its code of three bytes.
pub fn operation_of(number: u64, format: Format, s: &[u8]) -> Command
    ensures { result ≡ operation_of number format s.now }
{
    let f = fields_in(format, base::up_to(s, text::before_last(s, 3)));
    if number == 1 {
        return operates(drawn(f));
    }
    if number == 2 {
        return operates(moved(f));
    }
    operates(flashed(f))
}
