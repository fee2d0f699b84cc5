// The rules of every command but D01, D02 and D03: the first that is broken, if one is.
#![tactic(auto)]

ghost use Rattle.std.specs.Prelude.{◌≡◌};
ghost use Rattle.faults.specs.Rule.{number_told};
ghost use Rattle.command_rules.specs.Bounds.{is_count, is_repeat};
ghost use Rattle.command_rules.specs.Settings.{setting_fault};
ghost use Rattle.command_rules.specs.Rules.{region_fault, format_fault, unit_fault, scale_fault, select_fault, aperture_fault, macro_fault, block_start_fault, closing_fault, repeat_start_fault, file_attribute_fault, end_fault};

use command::Setting;
use decimal::Amount;
use faults::Rule;
use graphics::{Graphics, Level};

// A number of copies of SR.
#[tactic(auto, using(base::proofs::Or::joins), unfolding(crate::specs::Bounds::is_count))]
fn is_count(n: u64) -> bool
    ensures { result ≡ is_count n }
{
    (1..=9999).contains(&n)
}

// SR keeps its bounds.
#[tactic(auto, using(base::proofs::Or::joins), unfolding(crate::specs::Bounds::is_repeat))]
pub fn is_repeat(nx: u64, ny: u64, dx: Amount, dy: Amount) -> bool
    ensures { result ≡ is_repeat nx ny dx dy }
{
    is_count(nx) && is_count(ny) && (decimal::at_least_zero(dx) && decimal::at_least_zero(dy))
}

// G36, G70, G71, G90, G91, M00, M01, LP, LM, LR, TA, TO and TD.
#[tactic(auto, unfolding(faults::specs::Rule::number_told, faults::specs::Rule::number_of_rule, crate::specs::Rules::region_fault, base::specs::Choose::pick))]
pub fn region_fault(g: Graphics) -> Result<(), Rule>
    ensures { number_told result ≡ region_fault g }
{
    if g.region.on {
        return Err(Rule::Misplaced);
    }
    Ok(())
}

// FS.
#[tactic(auto, unfolding(faults::specs::Rule::number_told, faults::specs::Rule::number_of_rule, crate::specs::Rules::format_fault, base::specs::Choose::pick))]
pub fn format_fault(g: Graphics) -> Result<(), Rule>
    ensures { number_told result ≡ format_fault g }
{
    if operation_tests::is_formatted(g) {
        return Err(Rule::Header);
    }
    if g.region.on {
        return Err(Rule::Misplaced);
    }
    Ok(())
}

// MO.
#[tactic(auto, unfolding(faults::specs::Rule::number_told, faults::specs::Rule::number_of_rule, crate::specs::Rules::unit_fault, base::specs::Choose::pick))]
pub fn unit_fault(g: Graphics) -> Result<(), Rule>
    ensures { number_told result ≡ unit_fault g }
{
    if g.header.unit != 0 {
        return Err(Rule::Header);
    }
    if g.region.on {
        return Err(Rule::Misplaced);
    }
    Ok(())
}

// LS.
#[tactic(auto, unfolding(faults::specs::Rule::number_told, faults::specs::Rule::number_of_rule, crate::specs::Rules::scale_fault, base::specs::Choose::pick))]
pub fn scale_fault(g: Graphics, a: Amount) -> Result<(), Rule>
    ensures { number_told result ≡ scale_fault g a }
{
    if g.region.on {
        return Err(Rule::Misplaced);
    }
    if !decimal::above_zero(a) {
        return Err(Rule::Parameter);
    }
    Ok(())
}

// A setting.
#[tactic(auto, unfolding(faults::specs::Rule::number_told, faults::specs::Rule::number_of_rule, crate::specs::Settings::setting_fault, crate::specs::Settings::setting_rules, crate::specs::Rules::region_fault, crate::specs::Rules::format_fault, crate::specs::Rules::unit_fault, crate::specs::Rules::scale_fault, operation_rules::specs::Faults::region_end_fault))]
pub fn setting_fault(g: Graphics, s: Setting) -> Result<(), Rule>
    ensures { number_told result ≡ setting_fault g s }
{
    match s {
        Setting::Linear
        | Setting::Clockwise
        | Setting::Counterclockwise
        | Setting::SingleQuadrant
        | Setting::MultiQuadrant => Ok(()),
        Setting::RegionEnd => operation_rules::region_end_fault(g),
        Setting::Format(_) => format_fault(g),
        Setting::Millimetres | Setting::Inches => unit_fault(g),
        Setting::Scale { factor, .. } => scale_fault(g, factor),
        _ => region_fault(g),
    }
}

// Dn, whose aperture is known and closed or not.
#[tactic(auto, unfolding(faults::specs::Rule::number_told, faults::specs::Rule::number_of_rule, crate::specs::Rules::select_fault, base::specs::Choose::pick))]
pub fn select_fault(g: Graphics, known: bool) -> Result<(), Rule>
    ensures { number_told result ≡ select_fault g known }
{
    if g.region.on {
        return Err(Rule::Misplaced);
    }
    if !known {
        return Err(Rule::UnknownOrTaken);
    }
    Ok(())
}

// AD.
#[tactic(auto, unfolding(faults::specs::Rule::number_told, faults::specs::Rule::number_of_rule, crate::specs::Rules::aperture_fault, base::specs::Choose::pick))]
pub fn aperture_fault(
    g: Graphics,
    taken: bool,
    worked: Result<(), Rule>,
    full: bool,
) -> Result<(), Rule>
    ensures { number_told result ≡ aperture_fault g taken (number_told worked) full }
{
    if g.region.on {
        return Err(Rule::Misplaced);
    }
    if taken {
        return Err(Rule::UnknownOrTaken);
    }
    worked?;
    if full {
        return Err(Rule::NoRoom);
    }
    Ok(())
}

// AM.
#[tactic(auto, unfolding(faults::specs::Rule::number_told, faults::specs::Rule::number_of_rule, crate::specs::Rules::macro_fault, base::specs::Choose::pick))]
pub fn macro_fault(g: Graphics, taken: bool, deep: bool, full: bool) -> Result<(), Rule>
    ensures { number_told result ≡ macro_fault g taken deep full }
{
    if g.region.on {
        return Err(Rule::Misplaced);
    }
    if taken {
        return Err(Rule::UnknownOrTaken);
    }
    if deep {
        return Err(Rule::TooDeep);
    }
    if full {
        return Err(Rule::NoRoom);
    }
    Ok(())
}

// AB, opening.
#[tactic(auto, unfolding(faults::specs::Rule::number_told, faults::specs::Rule::number_of_rule, crate::specs::Rules::block_start_fault, base::specs::Choose::pick))]
pub fn block_start_fault(g: Graphics, l: Level, taken: bool, full: bool) -> Result<(), Rule>
    ensures { number_told result ≡ block_start_fault g l taken full }
{
    if g.region.on {
        return Err(Rule::Misplaced);
    }
    if taken {
        return Err(Rule::UnknownOrTaken);
    }
    if l.depth >= 8 {
        return Err(Rule::TooDeep);
    }
    if full {
        return Err(Rule::NoRoom);
    }
    Ok(())
}

// AB or SR, closing what was opened.
#[tactic(auto, using(base::proofs::Or::joins), unfolding(faults::specs::Rule::number_told, faults::specs::Rule::number_of_rule, crate::specs::Rules::closing_fault, base::specs::Choose::pick))]
pub fn closing_fault(g: Graphics, l: Level, opened: u64) -> Result<(), Rule>
    ensures { number_told result ≡ closing_fault g l opened }
{
    if g.region.on || l.inside != opened {
        return Err(Rule::Misplaced);
    }
    Ok(())
}

// SR, opening.
#[tactic(auto, using(base::proofs::Or::joins), unfolding(faults::specs::Rule::number_told, faults::specs::Rule::number_of_rule, crate::specs::Rules::repeat_start_fault, base::specs::Choose::pick))]
pub fn repeat_start_fault(g: Graphics, l: Level, in_bounds: bool, full: bool) -> Result<(), Rule>
    ensures { number_told result ≡ repeat_start_fault g l in_bounds full }
{
    if g.region.on || l.inside != 0 {
        return Err(Rule::Misplaced);
    }
    if !in_bounds {
        return Err(Rule::Parameter);
    }
    if full {
        return Err(Rule::NoRoom);
    }
    Ok(())
}

// TF.
#[tactic(auto, unfolding(faults::specs::Rule::number_told, faults::specs::Rule::number_of_rule, crate::specs::Rules::file_attribute_fault, base::specs::Choose::pick))]
pub fn file_attribute_fault(g: Graphics, twice: bool) -> Result<(), Rule>
    ensures { number_told result ≡ file_attribute_fault g twice }
{
    if g.region.on {
        return Err(Rule::Misplaced);
    }
    if twice {
        return Err(Rule::NameTwice);
    }
    Ok(())
}

// M02.
#[tactic(auto, using(base::proofs::Or::joins), unfolding(faults::specs::Rule::number_told, faults::specs::Rule::number_of_rule, crate::specs::Rules::end_fault, base::specs::Choose::pick))]
pub fn end_fault(g: Graphics, l: Level) -> Result<(), Rule>
    ensures { number_told result ≡ end_fault g l }
{
    if operation_tests::is_unready(g) {
        return Err(Rule::Header);
    }
    let unclosed = g.region.on || l.inside != 0;
    if unclosed {
        return Err(Rule::Misplaced);
    }
    Ok(())
}
