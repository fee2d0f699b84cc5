// What the commands of a file are to a placement list; specs/ has the attributes that it asks for, and the parts of a layer.
#![tactic(auto)]

ghost use Rattle.std.specs.Prelude.{◌≡◌};
ghost use Rattle.layer.specs.Made.{made_by_operation, made_by_definition, made_by_deed, made_of};

use command::{Command, Deed, Definition, Operation, Span};

// An item, by D01 or D03; an aperture with its number, by AD; a file attribute, its name and its value in the text, by TF; or none of these.
#[derive(Clone, Copy)]
pub enum Made {
    Item,
    Aperture(u64),
    File { name: Span, value: Span },
    Nothing,
}

#[tactic(auto, unfolding(crate::specs::Made::made_by_operation))]
fn made_by_operation(o: Operation) -> Made
    ensures { result ≡ made_by_operation o }
{
    match o {
        Operation::Move { .. } => Made::Nothing,
        Operation::Draw { .. } | Operation::Flash { .. } => Made::Item,
    }
}

#[tactic(auto, unfolding(crate::specs::Made::made_by_definition))]
fn made_by_definition(d: Definition) -> Made
    ensures { result ≡ made_by_definition d }
{
    match d {
        Definition::Aperture { number, .. } => Made::Aperture(number),
        Definition::Macro { .. } => Made::Nothing,
    }
}

#[tactic(auto, unfolding(crate::specs::Made::made_by_deed))]
fn made_by_deed(d: Deed) -> Made
    ensures { result ≡ made_by_deed d }
{
    match d {
        Deed::SetFile { name, value } => Made::File { name, value },
        _ => Made::Nothing,
    }
}

// What a command makes.
#[tactic(auto, unfolding(crate::specs::Made::made_of))]
pub fn made_of(c: Command) -> Made
    ensures { result ≡ made_of c }
{
    match c {
        Command::Operate(o) => made_by_operation(o),
        Command::Coded { operation, .. } => made_by_operation(operation),
        Command::Define(d) => made_by_definition(d),
        Command::Attribute(d) => made_by_deed(d),
        _ => Made::Nothing,
    }
}
