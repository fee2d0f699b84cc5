// The commands that read and write none of the lent rooms: each by its rules, and what is known after it.
#![tactic(auto)]

ghost use Rattle.std.specs.Prelude.{ℕ, ◌≡◌, true, List};
ghost use Rattle.faults.specs.Rule.{number_told};
ghost use Rattle.law_reading.specs.State.{State};
ghost use Rattle.law_reading.specs.Apertures.{is_among};
ghost use Rattle.law_reading.specs.Steps.{file_attribute_step, move_step, step_of};
ghost use Rattle.progress.specs.Lent.{Lent};
ghost use Rattle.progress.specs.Knows.{Knows, Follows, StepsTo, StrikesTo};
ghost use Rattle.state_steps.specs.KeepsRooms.{keeps_rooms, deed_fault, fault_of};

use command::{Command, Deed};
use faults::Rule;
use graphics::{Graphics, Level};
use progress::{Progress, Stroke, Struck};

// The first rule that a TA, TO or TD breaks, if one is.
#[tactic(auto, unfolding(crate::specs::KeepsRooms::deed_fault, faults::specs::Rule::number_told))]
fn deed_fault(g: Graphics, d: Deed) -> Result<(), Rule>
    ensures { number_told result ≡ deed_fault g d }
{
    match d {
        Deed::SetFile { .. } => Ok(()),
        Deed::SetAperture { .. } => command_rules::region_fault(g),
        Deed::SetObject { .. } => command_rules::region_fault(g),
        Deed::Delete { .. } => command_rules::region_fault(g),
        Deed::DeleteAll => command_rules::region_fault(g),
    }
}

// The first rule that a command that keeps the rooms breaks, if one is.
#[tactic(auto, unfolding(crate::specs::KeepsRooms::fault_of, faults::specs::Rule::number_told))]
pub fn fault_of(g: Graphics, l: Level, c: Command) -> Result<(), Rule>
    ensures { number_told result ≡ fault_of g l c }
{
    match c {
        Command::Broken(flaw) => Err(command::rule_of(flaw)),
        Command::Note => Ok(()),
        Command::End => command_rules::end_fault(g, l),
        Command::Set(s) => command_rules::setting_fault(g, s),
        Command::Operate(_) => Ok(()),
        Command::Coded { .. } => Ok(()),
        Command::Attribute(d) => deed_fault(g, d),
        Command::Select(_) => Ok(()),
        Command::Define(_) => Ok(()),
        Command::Contain(_) => Ok(()),
    }
}

// A command that keeps the rooms: its fault, or the graphics state after it.
pub fn set(p: Progress, c: Command) -> Result<Progress, Rule>
    requires { keeps_rooms c ≡ true }
    ensures { (text : List ℕ) (place : ℕ) → StepsTo (λ room s. step_of room text place c s) (λ w. Unit) (λ w. w) p result }
{
    let g = p.graphics;
    fault_of(g, progress::level_of(p), c)?;
    Ok(progress::with_graphics(changes::after(c, g), p))
}

// TF, whose name is set already or not.
pub fn set_name(p: Progress, again: bool) -> Result<Progress, Rule>
    ensures { (name : List ℕ) (w : Lent) (s : State) → again ≡ is_among name s.names → Knows w p s → Follows (Knows w) (file_attribute_step name s) result }
{
    let g = p.graphics;
    command_rules::file_attribute_fault(g, again)?;
    Ok(p)
}

// D02.
pub fn go(p: Progress, x: Option<i64>, y: Option<i64>) -> Struck
    ensures { StrikesTo (λ room s. move_step x y s) (λ w. Unit) (λ w. w) p result }
{
    let g = p.graphics;
    if let Err(rule) = operation_rules::move_fault(g, x, y) {
        return Struck::Fault(rule);
    }
    let region = g.region;
    let builder = p.builder;
    Struck::Next(Stroke {
        at: changes::target(g, x, y),
        region: changes::ended(region),
        builder,
        contour: p.contour,
    })
}
