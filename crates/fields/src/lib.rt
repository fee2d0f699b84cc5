// Where the field of a command is, told byte by byte, no byte ahead being known.
#![tactic(auto)]

ghost use Rattle.std.specs.Prelude.{◌≡◌};
ghost use Rattle.fields.specs.Parts.{begins_text, is_field, is_over, part_after, opens_macro};

use book::Book;

// How much of a command's text is known: nothing yet; `G`; `G0`; the `G4` of the old book; nothing after `%`; `%A`; `%T`; `%TF`, `%TA` or
// `%TO` before the comma; inside a field; that no field comes any more.
#[derive(Clone, Copy)]
pub enum Part {
    Start,
    CodeG,
    CodeG0,
    CodeG4,
    Mark,
    MarkA,
    MarkT,
    Named,
    Field,
    Over,
}

// After `G4` G04's text begins with this byte.
fn does_begin_text(b: u8) -> bool
    ensures { result ≡ begins_text b }
{
    !base::either(digits::is_digit(b), b == b'*')
}

// The next byte, b, is in the field.
#[tactic(auto, unfolding(crate::specs::Parts::is_field))]
pub fn in_field(part: Part, b: u8) -> bool
    ensures { result ≡ is_field part b }
{
    match part {
        Part::CodeG4 => does_begin_text(b),
        Part::Field => b != b'*',
        _ => false,
    }
}

// No field comes any more: the part stays as it is.
#[tactic(auto, unfolding(crate::specs::Parts::is_over))]
pub fn is_over(part: Part) -> bool
    ensures { result ≡ is_over part }
{
    matches!(part, Part::Over)
}

// The part after a byte.
#[tactic(auto, unfolding(crate::specs::Parts::part_after))]
pub fn part_after(book: Book, part: Part, b: u8) -> Part
    ensures { result ≡ part_after book part b }
{
    match (part, b) {
        (Part::Start, b'G') => Part::CodeG,
        (Part::CodeG, b'0') => Part::CodeG0,
        (Part::CodeG, b'4') if book::is_old(book) => Part::CodeG4,
        (Part::CodeG0, b'4') => Part::Field,
        (Part::CodeG4, _) if does_begin_text(b) => Part::Field,
        (Part::Mark, b'A') => Part::MarkA,
        (Part::Mark, b'T') => Part::MarkT,
        (Part::MarkT, b'F' | b'A' | b'O') => Part::Named,
        (Part::Named, b'*') => Part::Over,
        (Part::Named, b',') => Part::Field,
        (Part::Named, _) => Part::Named,
        (Part::Field, b'*') => Part::Over,
        (Part::Field, _) => Part::Field,
        _ => Part::Over,
    }
}

// This byte makes the command a macro's: it is the M of `%AM`.
#[tactic(auto, unfolding(crate::specs::Parts::opens_macro))]
pub fn opens_macro(part: Part, b: u8) -> bool
    ensures { result ≡ opens_macro part b }
{
    matches!((part, b), (Part::MarkA, b'M'))
}
