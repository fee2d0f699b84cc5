// One command over one graphics state: by value, and over a state that the caller lends. The rules that ask the state, what stands
// open and the command are judged here; what only the stores know is handed in.
#![tactic(auto)]

ghost use Rattle.std.specs.Prelude.{◌≡◌};
ghost use Rattle.changes.specs.After.{Reached};
ghost use Rattle.faults.specs.Rule.{number_told};
ghost use Rattle.state_call.specs.Stepped.{worked_number, operation_fault, coded_fault, definition_fault, bracket_fault, deed_fault, fault_of, behind, stepped_of};

use command::{Bracket, Command, Deed, Definition, Operation, Setting};
use faults::Rule;
use graphics::{Graphics, Level, Selected};

// Why the parameters of an AD are refused.
#[derive(Clone, Copy)]
pub enum ParameterError {
    // 9: an expression of its macro has no value, or one too large
    Undefined,
    // 10: a parameter is outside its rule
    Unruly,
}

// What only the stores know of a command.
#[derive(Clone, Copy)]
pub struct Known {
    // so many entries are left
    pub entries: u64,
    // Dn: the aperture of this number as it is selected, not set where there is none or its block is open
    pub aperture: Selected,
    // the number of an AD or an AB, or the name of an AM or a TF, came before; the name of an AM also where it is C, R, O or P
    pub taken: bool,
    // AD: it names a macro that did not come before
    pub unknown: bool,
    // AD
    pub worked: Result<(), ParameterError>,
    // AD, AM and AB: there is no room for the aperture and its numbers, or for the macro
    pub full: bool,
}

// The number of the rule that the command breaks, 0 for none, and the state after the command.
#[derive(Clone, Copy)]
pub struct Stepped {
    pub number: u64,
    pub graphics: Graphics,
}

// The rule that the parameters of an AD break, if one is.
#[tactic(auto, unfolding(crate::specs::Stepped::worked_number, faults::specs::Rule::number_told, faults::specs::Rule::number_of_rule))]
fn rule_of(w: Result<(), ParameterError>) -> Result<(), Rule>
    ensures { number_told result ≡ worked_number w }
{
    match w {
        Ok(()) => Ok(()),
        Err(ParameterError::Undefined) => Err(Rule::Undefined),
        Err(ParameterError::Unruly) => Err(Rule::Parameter),
    }
}

// D01, D02 and D03: the first rule that is broken, if one is.
fn operation_fault(g: Graphics, l: Level, o: Operation, k: Known) -> Result<(), Rule>
    ensures { number_told result ≡ operation_fault g l o k }
{
    match o {
        Operation::Draw { x, y, centre } => operation_rules::draw_fault(
            g, l, k.entries, x, y, centre,
        ),
        Operation::Move { x, y } => operation_rules::move_fault(g, x, y),
        Operation::Flash { x, y } => operation_rules::flash_fault(g, l, k.entries, x, y),
    }
}

// An operation after a G code, which takes effect first: of the rules that the two break, the one tested first.
fn coded_fault(g: Graphics, l: Level, code: Setting, o: Operation, k: Known) -> Result<(), Rule>
    ensures { number_told result ≡ coded_fault g l code o k }
{
    let first = command_rules::setting_fault(g, code);
    match operation_fault(changes::after_setting(code, g), l, o, k) {
        Ok(()) => first,
        Err(rule) => Err(faults::first_of(first, rule)),
    }
}

// AD and AM, likewise.
fn definition_fault(g: Graphics, d: Definition, k: Known) -> Result<(), Rule>
    ensures { number_told result ≡ definition_fault g d k }
{
    match d {
        Definition::Aperture { .. } => {
            let w = k.worked;
            command_rules::aperture_fault(g, base::either(k.taken, k.unknown), rule_of(w), k.full)
        }
        Definition::Macro { deep, .. } => command_rules::macro_fault(g, k.taken, deep, k.full),
    }
}

// AB and SR.
fn bracket_fault(g: Graphics, l: Level, b: Bracket, k: Known) -> Result<(), Rule>
    ensures { number_told result ≡ bracket_fault g l b k }
{
    match b {
        Bracket::BlockStart(_) => command_rules::block_start_fault(
            g,
            l,
            k.taken,
            base::either(k.entries == 0, k.full),
        ),
        Bracket::BlockEnd => command_rules::closing_fault(g, l, 1),
        Bracket::RepeatStart { nx, ny, dx, dy, .. } => {
            command_rules::repeat_start_fault(
                g,
                l,
                command_rules::is_repeat(nx, ny, dx, dy),
                k.entries == 0,
            )
        }
        Bracket::RepeatEnd => command_rules::closing_fault(g, l, 2),
    }
}

// TF, TA, TO and TD.
fn deed_fault(g: Graphics, d: Deed, k: Known) -> Result<(), Rule>
    ensures { number_told result ≡ deed_fault g d k }
{
    match d {
        Deed::SetFile { .. } => command_rules::file_attribute_fault(g, k.taken),
        Deed::SetAperture { .. } => command_rules::region_fault(g),
        Deed::SetObject { .. } => command_rules::region_fault(g),
        Deed::Delete { .. } => command_rules::region_fault(g),
        Deed::DeleteAll => command_rules::region_fault(g),
    }
}

// Any command.
#[tactic(auto, unfolding(crate::specs::Stepped::fault_of, faults::specs::Rule::number_told))]
fn fault_of(g: Graphics, l: Level, c: Command, k: Known) -> Result<(), Rule>
    ensures { number_told result ≡ fault_of g l c k }
{
    match c {
        Command::Broken(flaw) => Err(command::rule_of(flaw)),
        Command::Note => Ok(()),
        Command::End => command_rules::end_fault(g, l),
        Command::Set(s) => command_rules::setting_fault(g, s),
        Command::Operate(o) => operation_fault(g, l, o, k),
        Command::Coded { code, operation } => coded_fault(g, l, code, operation, k),
        Command::Select(_) => command_rules::select_fault(g, k.aperture.set),
        Command::Define(d) => definition_fault(g, d, k),
        Command::Contain(b) => bracket_fault(g, l, b, k),
        Command::Attribute(d) => deed_fault(g, d, k),
    }
}

// The state after a command that is accepted.
fn behind(g: Graphics, c: Command, k: Known) -> Graphics
    requires { Reached c g }
    ensures { result ≡ behind g c k }
{
    match c {
        Command::Select(_) => {
            let chosen = k.aperture;
            graphics::with_aperture(chosen, g)
        }
        Command::Set(_) => changes::after(c, g),
        Command::Operate(_) => changes::after(c, g),
        Command::Coded { .. } => changes::after(c, g),
        Command::Contain(_) => changes::after(c, g),
        Command::Broken(_) => g,
        Command::Note => g,
        Command::End => g,
        Command::Define(_) => g,
        Command::Attribute(_) => g,
    }
}

// The command by value. A refused one leaves the state as it was.
pub fn next(g: Graphics, l: Level, c: Command, k: Known) -> Stepped
    ensures { result ≡ stepped_of g l c k }
{
    if let Err(rule) = fault_of(g, l, c, k) {
        return Stepped {
            number: u64::from(rule),
            graphics: g,
        };
    }
    let after = behind(g, c, k);
    Stepped {
        number: 0,
        graphics: after,
    }
}

// The same over a state that is lent.
pub fn step(g: &mut Graphics, l: Level, c: Command, k: Known) -> u64
    ensures { (result ≡ (stepped_of g.entry.now l c k).number) × (g.new ≡ (stepped_of g.entry.now l c k).graphics) }
{
    let t = next(*g, l, c, k);
    *g = t.graphics;
    t.number
}

// A state is lent to `step` and handed back by value: whoever calls this lends nothing.
pub fn once(g: Graphics, l: Level, c: Command, k: Known) -> Stepped
    ensures { result ≡ stepped_of g l c k }
{
    let mut t = g;
    let n = step(&mut t, l, c, k);
    Stepped {
        number: n,
        graphics: t,
    }
}
