// The rules of D01, D02, D03 and G37: the first that is broken, if one is.
#![tactic(auto)]

ghost use Rattle.std.specs.Prelude.{◌≡◌, not, ◌+◌, ◌*◌, leb};
ghost use Rattle.operation_rules.specs.Counts.{most, too_many};
ghost use Rattle.base.specs.Faults.{first_fault};
ghost use Rattle.arcs.specs.Near.{Near};
ghost use Rattle.faults.specs.Rule.{number_told};
ghost use Rattle.operation_rules.specs.Faults.{draw_items, near_draw_rules, draw_fault, move_fault, flash_items, flash_fault, region_end_fault};

use command::Offset;
use faults::Rule;
use graphics::{Graphics, Level};
use points::Point;

// With n items more there are more than so many.
#[tactic(auto, using(crate::proofs::Counts::already, crate::proofs::Counts::by_what_is_left))]
fn past(items: u64, n: u64, most: u64) -> bool
    ensures { result ≡ not (leb (items + n) most) }
{
    items > most || n > most - items
}

// In a repeat: with n items more its copies and the sheet before it have too many. Division keeps their product in a word.
#[tactic(auto, using(crate::proofs::Counts::already, crate::proofs::Counts::none, crate::proofs::Counts::shared))]
fn copies_past(l: Level, n: u64) -> bool
    ensures { result ≡ not (leb (l.sheet + l.copies * (l.items + n)) most) }
{
    if l.sheet >= 1000000000001 {
        true
    } else if l.copies == 0 {
        false
    } else {
        past(l.items, n, (1000000000000 - l.sheet) / l.copies)
    }
}

// 16: with n items more the open block, or the sheet, has too many.
#[tactic(auto, unfolding(crate::specs::Counts::too_many, crate::specs::Counts::counted))]
pub fn too_many(l: Level, n: u64) -> bool
    ensures { result ≡ too_many l n }
{
    if l.inside == 2 {
        copies_past(l, n)
    } else {
        past(l.items, n, 1000000000000)
    }
}

// The items that a D01 draws, and the entries that it uses.
#[tactic(auto, unfolding(crate::specs::Faults::draw_items))]
pub fn draw_items(g: Graphics) -> u64
    ensures { result ≡ draw_items g }
{
    if changes::starts_contour(g.region) {
        2
    } else {
        1
    }
}

// The items that a D03 draws.
#[tactic(auto, unfolding(crate::specs::Faults::flash_items))]
pub fn flash_items(g: Graphics) -> u64
    ensures { result ≡ flash_items g }
{
    if g.aperture.block {
        g.aperture.items
    } else {
        1
    }
}

// D01 to end after FS, whose points are near, with room for so many entries.
#[tactic(auto, unfolding(faults::specs::Rule::number_told, faults::specs::Rule::number_of_rule, base::specs::Choose::pick))]
fn near_draw_fault(
    g: Graphics,
    l: Level,
    room: u64,
    end: Point,
    o: Option<Offset>,
) -> Result<(), Rule>
    requires { Near g end o }
    ensures { number_told result ≡ first_fault (near_draw_rules g l room end o) }
{
    let n = draw_items(g);
    if operation_tests::is_unready(g) {
        return Err(Rule::Header);
    }
    if operation_tests::draw_misfits(g, o) {
        return Err(Rule::Misfit);
    }
    if operation_tests::is_moveless(g) {
        return Err(Rule::Moveless);
    }
    if arcs::bad_centre(g, end, o) {
        return Err(Rule::BadCentre);
    }
    if arcs::is_centreless(g, end, o) {
        return Err(Rule::Centreless);
    }
    if too_many(l, n) {
        return Err(Rule::TooMany);
    }
    if room < n {
        return Err(Rule::NoRoom);
    }
    Ok(())
}

// D01, with room for so many entries. Before FS it is 6, whatever else is broken.
#[tactic(auto, using(base::proofs::Or::joins, arcs::proofs::Draws::draws_near), unfolding(faults::specs::Rule::number_told, faults::specs::Rule::number_of_rule, crate::specs::Faults::draw_fault, base::specs::Choose::pick, operation_tests::specs::Fits::draws_far, operation_tests::specs::Far::goes_far, operation_tests::specs::Fits::unready))]
pub fn draw_fault(
    g: Graphics,
    l: Level,
    room: u64,
    x: Option<i64>,
    y: Option<i64>,
    o: Option<Offset>,
) -> Result<(), Rule>
    ensures { number_told result ≡ draw_fault g l room x y o }
{
    if !operation_tests::is_formatted(g) {
        return Err(Rule::Header);
    }
    if operation_tests::draws_far(g, x, y, o) {
        return Err(Rule::OutOfRange);
    }
    near_draw_fault(g, l, room, changes::target(g, x, y), o)
}

// D02.
#[tactic(auto, unfolding(faults::specs::Rule::number_told, faults::specs::Rule::number_of_rule, crate::specs::Faults::move_fault, base::specs::Choose::pick))]
pub fn move_fault(g: Graphics, x: Option<i64>, y: Option<i64>) -> Result<(), Rule>
    ensures { number_told result ≡ move_fault g x y }
{
    if operation_tests::goes_far(g, x, y) {
        return Err(Rule::OutOfRange);
    }
    if operation_tests::is_unready(g) {
        return Err(Rule::Header);
    }
    if operation_tests::is_placeless(g, x, y) {
        return Err(Rule::Misfit);
    }
    if operation_tests::is_unclosed(g) {
        return Err(Rule::Unclosed);
    }
    Ok(())
}

// D03, with room for so many entries.
#[tactic(auto, unfolding(faults::specs::Rule::number_told, faults::specs::Rule::number_of_rule, crate::specs::Faults::flash_fault, base::specs::Choose::pick))]
pub fn flash_fault(
    g: Graphics,
    l: Level,
    room: u64,
    x: Option<i64>,
    y: Option<i64>,
) -> Result<(), Rule>
    ensures { number_told result ≡ flash_fault g l room x y }
{
    if operation_tests::goes_far(g, x, y) {
        return Err(Rule::OutOfRange);
    }
    if operation_tests::is_unready(g) {
        return Err(Rule::Header);
    }
    if g.region.on {
        return Err(Rule::Misplaced);
    }
    if operation_tests::flash_misfits(g, x, y) {
        return Err(Rule::Misfit);
    }
    if operation_tests::is_askew(g) {
        return Err(Rule::Askew);
    }
    if operation_tests::is_too_tall(g, l) {
        return Err(Rule::TooDeep);
    }
    if too_many(l, flash_items(g)) {
        return Err(Rule::TooMany);
    }
    if room < 1 {
        return Err(Rule::NoRoom);
    }
    Ok(())
}

// G37.
#[tactic(auto, unfolding(faults::specs::Rule::number_told, faults::specs::Rule::number_of_rule, crate::specs::Faults::region_end_fault, base::specs::Choose::pick))]
pub fn region_end_fault(g: Graphics) -> Result<(), Rule>
    ensures { number_told result ≡ region_end_fault g }
{
    if !g.region.on {
        return Err(Rule::Misplaced);
    }
    if operation_tests::is_unclosed(g) {
        return Err(Rule::Unclosed);
    }
    Ok(())
}
