// One command of the file, whatever it is: its rules, what it changes, and what it leaves in the lent rooms.
#![tactic(auto)]

ghost use Rattle.std.specs.Prelude.{ℕ, ◌≤◌, ◌≡◌, List, length};
ghost use Rattle.std.proofs.Math.Seq.{slice};
ghost use Rattle.faults.specs.Rule.{number_told};
ghost use Rattle.law_bounds.specs.Bounded.{DefinitionBounded, BracketBounded};
ghost use Rattle.law_reading.specs.State.{State};
ghost use Rattle.law_reading.specs.Steps.{operation_step, definition_step, bracket_step, deed_step};
ghost use Rattle.progress.specs.Knows.{Knows, Known, Follows, StepsTo, StrikesTo};
ghost use Rattle.progress.specs.Lent.{Lent, lent_of, with_entries, with_apertures, with_macros, with_numbers};
ghost use Rattle.definition_steps.specs.Lends.{Lends};
ghost use Rattle.steps.specs.Steps.{Sound, AgainBy, Reads, Operates};
ghost use Rattle.changes.specs.After.{after_setting};
ghost use Rattle.progress.specs.Parts.{with_graphics};
ghost use Rattle.steps.specs.Coded.{held_in, code_fault, behind_code, joined};

use command::{Bracket, Command, Deed, Definition, Operation, Setting};
use faults::Rule;
use graphics::Graphics;
use progress::{Progress, Struck};
use sequence::Placed;

// D01, D02 and D03.
fn operate(e: &mut [u64], p: Progress, place: u64, o: Operation) -> Struck
    requires { Known (λ w. w.entries ≡ e.old) p }
    ensures { (length e.new ≡ length e.old)
        × StrikesTo (λ room s. operation_step room place o s) (λ w. w.entries ≡ e.old) (with_entries e.new) p result }
{
    match o {
        Operation::Draw { x, y, centre } => stroke_steps::draw(e, p, place, x, y, centre),
        Operation::Move { x, y } => state_steps::go(p, x, y),
        Operation::Flash { x, y } => stroke_steps::flash(e, p, place, x, y),
    }
}

// The outcome of a code with this fault, if it has one, and of the operation after it: the fault tested first, or what is after both.
#[tactic(auto, unfolding(crate::specs::Coded::joined, crate::specs::Coded::stroke_after))]
fn joined(fault: Result<(), Rule>, r: Struck) -> Struck
    ensures { result ≡ joined fault r }
{
    match r {
        Struck::Fault(rule) => Struck::Fault(faults::first_of(fault, rule)),
        Struck::Next(stroke) => match fault {
            Ok(()) => Struck::Next(stroke),
            Err(rule) => Struck::Fault(rule),
        },
        Struck::Other => Struck::Other,
    }
}

// AD and AM, whose text is file[from..end].
fn define(
    file: &[u8],
    a: &mut [u64],
    m: &mut [u64],
    numbers: &mut [i64],
    p: Progress,
    from: usize,
    end: usize,
    d: Definition,
) -> Result<Progress, Rule>
    requires { Known (Lends file.now a.old m.old numbers.old) p × (from ≤ end) × (end ≤ length file.now) × DefinitionBounded (slice from end file.now) d }
    ensures { (length a.new ≡ length a.old)
        × (length m.new ≡ length m.old)
        × (length numbers.new ≡ length numbers.old)
        × StepsTo (λ room s. definition_step room (slice from end file.now) d s) (Lends file.now a.old m.old numbers.old)
        (λ w. with_apertures a.new (with_macros m.new (with_numbers numbers.new w))) p result }
{
    match d {
        Definition::Aperture {
            number,
            name,
            parameters,
            ..
        } => definition_steps::define(file, a, m, numbers, p, from, end, number, name, parameters),
        Definition::Macro {
            name,
            blocks,
            deep,
            ..
        } => definition_steps::add_macro(file, m, p, from, end, name, blocks, deep),
    }
}

// AB and SR.
fn contain(
    e: &mut [u64],
    a: &mut [u64],
    p: Progress,
    place: u64,
    b: Bracket,
) -> Result<Progress, Rule>
    requires known { Known (λ w. (w.entries ≡ e.old) × (w.apertures ≡ a.old)) p }
    requires bracket_bounded { BracketBounded b }
    ensures { (length e.new ≡ length e.old)
        × (length a.new ≡ length a.old)
        × StepsTo (λ room s. bracket_step room place b s) (λ w. (w.entries ≡ e.old) × (w.apertures ≡ a.old))
        (λ w. with_apertures a.new (with_entries e.new w)) p result }
{
    match b {
        Bracket::BlockStart(n) => container_steps::block_start(e, a, p, place, n),
        Bracket::BlockEnd => container_steps::block_end(e, a, p),
        Bracket::RepeatStart { nx, ny, dx, dy, .. } => {
            container_steps::repeat_start(e, p, place, nx, ny, dx, dy)
        }
        Bracket::RepeatEnd => container_steps::repeat_end(e, p),
    }
}

// TF, TA, TO and TD; `again` says of a TF whether its name was set before.
fn attribute(p: Progress, d: Deed, again: bool) -> Result<Progress, Rule>
    ensures { (text : List ℕ) (w : Lent) (s : State) → AgainBy text d again s → Knows w p s → Follows (Knows w) (deed_step text d s) result }
{
    match d {
        Deed::SetFile { .. } => state_steps::set_name(p, again),
        Deed::SetAperture { .. } => state_steps::set(p, Command::Attribute(d)),
        Deed::SetObject { .. } => state_steps::set(p, Command::Attribute(d)),
        Deed::Delete { .. } => state_steps::set(p, Command::Attribute(d)),
        Deed::DeleteAll => state_steps::set(p, Command::Attribute(d)),
    }
}

// The first rule that the G code before an operation breaks, if one is.
#[tactic(auto, unfolding(crate::specs::Coded::code_fault, faults::specs::Rule::number_told))]
pub fn code_fault(g: Graphics, c: Command) -> Result<(), Rule>
    ensures { number_told result ≡ code_fault g c }
{
    match c {
        Command::Coded { code, .. } => command_rules::setting_fault(g, code),
        Command::Broken(_) => Ok(()),
        Command::Note => Ok(()),
        Command::End => Ok(()),
        Command::Set(_) => Ok(()),
        Command::Operate(_) => Ok(()),
        Command::Select(_) => Ok(()),
        Command::Define(_) => Ok(()),
        Command::Contain(_) => Ok(()),
        Command::Attribute(_) => Ok(()),
    }
}

// How far reading has come after a code. The codes that set the mode alone, which films have before every coordinate, leave the rest where
// it is.
fn after_code(code: Setting, p: Progress) -> Progress
    ensures { result ≡ with_graphics (after_setting code p.graphics) p }
{
    let g = p.graphics;
    let mode = changes::mode_of(code);
    if mode == 0 {
        return progress::with_graphics(changes::after_setting(code, g), p);
    }
    progress::with_graphics(graphics::with_mode(mode, g), p)
}

// How far reading has come after that code, and before its operation.
pub fn behind_code(c: Command, p: Progress) -> Progress
    ensures { result ≡ behind_code c p }
{
    match c {
        Command::Coded { code, .. } => after_code(code, p),
        Command::Broken(_) => p,
        Command::Note => p,
        Command::End => p,
        Command::Set(_) => p,
        Command::Operate(_) => p,
        Command::Select(_) => p,
        Command::Define(_) => p,
        Command::Contain(_) => p,
        Command::Attribute(_) => p,
    }
}

// The operation of a command, if it has one.
fn held_in(c: Command) -> Option<Operation>
    ensures { result ≡ held_in c }
{
    match c {
        Command::Operate(o) => Some(o),
        Command::Coded { operation, .. } => Some(operation),
        Command::Broken(_) => None,
        Command::Note => None,
        Command::End => None,
        Command::Set(_) => None,
        Command::Select(_) => None,
        Command::Define(_) => None,
        Command::Contain(_) => None,
        Command::Attribute(_) => None,
    }
}

// The operation of a command, after a code with this fault, if it has one.
pub fn operation(
    e: &mut [u64],
    p: Progress,
    fault: Result<(), Rule>,
    place: u64,
    c: Command,
) -> Struck
    requires { Known (λ w. w.entries ≡ e.old) p }
    ensures { (length e.new ≡ length e.old)
        × Operates (number_told fault) place (held_in c) e.old e.new p result }
{
    let held = held_in(c);
    match held {
        Some(o) => joined(fault, operate(e, p, place, o)),
        None => Struck::Other,
    }
}

// The command c, which is no operation; `again` says of a TF whether its name was set before.
pub fn step(
    file: &[u8],
    e: &mut [u64],
    a: &mut [u64],
    m: &mut [u64],
    numbers: &mut [i64],
    p: Progress,
    c: Placed,
    again: bool,
) -> Result<Progress, Rule>
    requires known { Known (λ w. w ≡ lent_of file.now e.old a.old m.old numbers.old) p }
    requires sound { Sound file.now c }
    requires command_value { held_in c.command ≡ None }
    ensures { (length e.new ≡ length e.old)
        × (length a.new ≡ length a.old)
        × (length m.new ≡ length m.old)
        × (length numbers.new ≡ length numbers.old)
        × Reads (lent_of file.now e.old a.old m.old numbers.old)
        (lent_of file.now e.new a.new m.new numbers.new) p c again result }
{
    let place = c.place as u64;
    let from = c.from;
    let end = c.end;
    let command = c.command;
    match command {
        Command::Select(n) => definition_steps::select(a, p, n),
        Command::Define(d) => define(file, a, m, numbers, p, from, end, d),
        Command::Contain(b) => contain(e, a, p, place, b),
        Command::Attribute(d) => attribute(p, d, again),
        Command::Broken(_) => state_steps::set(p, command),
        Command::Note => state_steps::set(p, command),
        Command::End => state_steps::set(p, command),
        Command::Set(_) => state_steps::set(p, command),
        Command::Operate(_) => Ok(p),
        Command::Coded { .. } => Ok(p),
    }
}
