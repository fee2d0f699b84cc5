// AB and SR, opening and closing: each is tested by its rules, then the entries, the table of apertures and the progress follow.
#![tactic(auto)]

ghost use Rattle.std.specs.Prelude.{◌≡◌, ℕ, length};
ghost use Rattle.law_reading.specs.Steps.{block_start_step, block_end_step, repeat_start_step, repeat_end_step};
ghost use Rattle.law_bounds.specs.Bounded.{Repeats};
ghost use Rattle.progress.specs.Lent.{with_entries, with_apertures};
ghost use Rattle.progress.specs.Knows.{Known, StepsTo};

use command::{Bracket, Command};
use decimal::Amount;
use faults::Rule;
use progress::Progress;
use sheet::Aperture;

// AB, opening: the block's record stands open from here on, and its number is taken.
pub fn block_start(
    e: &mut [u64],
    a: &mut [u64],
    p: Progress,
    place: u64,
    n: u64,
) -> Result<Progress, Rule>
    requires { Known (λ w. (w.entries ≡ e.old) × (w.apertures ≡ a.old)) p }
    ensures { (length e.new ≡ length e.old) × (length a.new ≡ length a.old)
        × StepsTo (λ room s. block_start_step room place n s) (λ w. (w.entries ≡ e.old) × (w.apertures ≡ a.old))
        (λ w. with_apertures a.new (with_entries e.new w)) p result }
{
    let g = p.graphics;
    let b = p.builder;
    let used = p.apertures;
    let room = build::has_room(e, b.closed, b.high);
    let full = base::either(!room, used >= a.len() / sheet::APERTURE_WORDS);
    let level = progress::level_of(p);
    let found = index::search_number(a, used, n);
    let Err(link) = found else {
        command_rules::region_fault(g)?;
        return Err(Rule::UnknownOrTaken);
    };
    command_rules::block_start_fault(g, level, false, full)?;
    let opening = Aperture {
        number: n,
        kind: 0,
        first: 0,
        len: 0,
        items: 0,
        height: 0,
    };
    tables::put_aperture(a, used, link, opening);
    let builder = build::open_block(e, b, used as u64, place);
    let c = Command::Contain(Bracket::BlockStart(n));
    let built = progress::with_builder(builder, progress::with_graphics(changes::after(c, g), p));
    Ok(progress::with_apertures(used + 1, progress::with_depth(p.depth + 1, built)))
}

// AB, closing: the record of its number is a block from here on.
pub fn block_end(e: &mut [u64], a: &mut [u64], p: Progress) -> Result<Progress, Rule>
    requires { Known (λ w. (w.entries ≡ e.old) × (w.apertures ≡ a.old)) p }
    ensures { (length e.new ≡ length e.old) × (length a.new ≡ length a.old)
        × ((place : ℕ) → StepsTo (λ room s. block_end_step place s) (λ w. (w.entries ≡ e.old) × (w.apertures ≡ a.old))
        (λ w. with_apertures a.new (with_entries e.new w)) p result) }
{
    let g = p.graphics;
    let b = p.builder;
    command_rules::closing_fault(g, progress::level_of(p), 1)?;
    let builder = build::close_block(e, a, b);
    let c = Command::Contain(Bracket::BlockEnd);
    let built = progress::with_builder(builder, progress::with_graphics(changes::after(c, g), p));
    Ok(progress::with_depth(p.depth - 1, built))
}

// SR, opening.
pub fn repeat_start(
    e: &mut [u64],
    p: Progress,
    place: u64,
    nx: u64,
    ny: u64,
    dx: Amount,
    dy: Amount,
) -> Result<Progress, Rule>
    requires known { Known (λ w. w.entries ≡ e.old) p }
    requires repeats { Repeats nx ny dx dy }
    ensures { (length e.new ≡ length e.old)
        × StepsTo (λ room s. repeat_start_step room place nx ny dx dy s) (λ w. w.entries ≡ e.old) (λ w. with_entries e.new w) p result }
{
    let g = p.graphics;
    let b = p.builder;
    let full = !build::has_room(e, b.closed, b.high);
    command_rules::repeat_start_fault(
        g,
        progress::level_of(p),
        command_rules::is_repeat(nx, ny, dx, dy),
        full,
    )?;
    let builder = build::open_repeat(e, b, marks::repeat_of(nx, ny, dx, dy), place);
    let c = Command::Contain(Bracket::RepeatStart {
        nx,
        ny,
        dx,
        dy,
        rounded: 0,
    });
    let built = progress::with_builder(builder, progress::with_graphics(changes::after(c, g), p));
    Ok(progress::with_repeat(nx * ny, b.items, built))
}

// SR, closing: the sheet goes on with the copies.
pub fn repeat_end(e: &mut [u64], p: Progress) -> Result<Progress, Rule>
    requires { Known (λ w. w.entries ≡ e.old) p }
    ensures { (length e.new ≡ length e.old)
        × ((place : ℕ) → StepsTo (λ room s. repeat_end_step place s) (λ w. w.entries ≡ e.old) (λ w. with_entries e.new w) p result) }
{
    let g = p.graphics;
    let b = p.builder;
    command_rules::closing_fault(g, progress::level_of(p), 2)?;
    let builder = build::close_repeat(e, b, p.copies);
    let c = Command::Contain(Bracket::RepeatEnd);
    let built = progress::with_builder(builder, progress::with_graphics(changes::after(c, g), p));
    Ok(progress::with_repeat(1, 0, built))
}
