// The strokes of D01 and D03: what each draws is put into the lent entries, after what lies there.
#![tactic(auto)]

ghost use Rattle.std.specs.Prelude.{◌≡◌, true, false, ◌+◌, ◌≤◌, length};
ghost use Rattle.sheet.specs.Records.{entry_room};
ghost use Rattle.changes.specs.After.{starts_contour};
ghost use Rattle.law_reading.specs.Steps.{draw_step, flash_step};
ghost use Rattle.progress.specs.Lent.{with_entries};
ghost use Rattle.progress.specs.Strokes.{with_stroke};
ghost use Rattle.progress.specs.Knows.{Known, StrikesTo};
ghost use Rattle.stroke_steps.specs.Draws.{left_of, Leads, MayDraw, MayFlash};

use build::Builder;
use command::Offset;
use progress::{Progress, Stroke, Struck};
use sheet::Container;

// So many entries are left.
fn entries_left(e: &[u64], b: Builder) -> u64
    requires { b.closed + b.high ≤ entry_room e.now }
    ensures { result ≡ left_of e.now b }
{
    (e.len() / sheet::ENTRY_WORDS - b.closed - b.high) as u64
}

// A D01 outside a region.
fn draw_item(
    e: &mut [u64],
    p: Progress,
    place: u64,
    x: Option<i64>,
    y: Option<i64>,
    o: Option<Offset>,
) -> Stroke
    requires may_draw { MayDraw e.old p x y o }
    requires on_value { p.graphics.region.on ≡ false }
    ensures { Leads (λ room s. draw_step room place x y o s) (λ w. w.entries ≡ e.old) (with_entries e.new) p (with_stroke result p) }
{
    let g = p.graphics;
    let b = p.builder;
    let region = g.region;
    let from = g.point.at;
    let at = changes::target(g, x, y);
    let t = marks::drawn(g, at, o, place);
    Stroke {
        at,
        region: changes::drawing(region, from),
        builder: build::add_item(e, b, t),
        contour: p.contour,
    }
}

// A D01 in a region where a contour is open.
fn draw_edge(
    e: &mut [u64],
    p: Progress,
    place: u64,
    x: Option<i64>,
    y: Option<i64>,
    o: Option<Offset>,
) -> Stroke
    requires may_draw { MayDraw e.old p x y o }
    requires on_value { (p.graphics.region.on ≡ true) × (starts_contour p.graphics.region ≡ false) }
    ensures { Leads (λ room s. draw_step room place x y o s) (λ w. w.entries ≡ e.old) (with_entries e.new) p (with_stroke result p) }
{
    let g = p.graphics;
    let b = p.builder;
    let region = g.region;
    let from = g.point.at;
    let at = changes::target(g, x, y);
    let t = marks::edge(g, at, o, place);
    Stroke {
        at,
        region: changes::drawing(region, from),
        builder: build::add_edge(e, b, p.contour, t),
        contour: p.contour,
    }
}

// A D01 in a region where none is: the contour, and its first edge.
fn draw_contour(
    e: &mut [u64],
    p: Progress,
    place: u64,
    x: Option<i64>,
    y: Option<i64>,
    o: Option<Offset>,
) -> Stroke
    requires may_draw { MayDraw e.old p x y o }
    requires region_value { starts_contour p.graphics.region ≡ true }
    ensures { Leads (λ room s. draw_step room place x y o s) (λ w. w.entries ≡ e.old) (with_entries e.new) p (with_stroke result p) }
{
    let g = p.graphics;
    let b = p.builder;
    let region = g.region;
    let from = g.point.at;
    let at = changes::target(g, x, y);
    let begun = build::add_item(e, b, marks::contour(g, place));
    let t = marks::edge(g, at, o, place);
    Stroke {
        at,
        region: changes::drawing(region, from),
        builder: build::add_edge(e, begun, b.high, t),
        contour: b.high,
    }
}

// D01.
pub fn draw(
    e: &mut [u64],
    p: Progress,
    place: u64,
    x: Option<i64>,
    y: Option<i64>,
    o: Option<Offset>,
) -> Struck
    requires { Known (λ w. w.entries ≡ e.old) p }
    ensures { (length e.new ≡ length e.old)
        × StrikesTo (λ room s. draw_step room place x y o s) (λ w. w.entries ≡ e.old) (with_entries e.new) p result }
{
    let g = p.graphics;
    let b = p.builder;
    let left = entries_left(e, b);
    if let Err(rule) = operation_rules::draw_fault(g, progress::level_of(p), left, x, y, o) {
        return Struck::Fault(rule);
    }
    let region = g.region;
    if changes::starts_contour(region) {
        return Struck::Next(draw_contour(e, p, place, x, y, o));
    }
    if g.region.on {
        return Struck::Next(draw_edge(e, p, place, x, y, o));
    }
    Struck::Next(draw_item(e, p, place, x, y, o))
}

// A D03 with an aperture that is no block.
fn flash_item(e: &mut [u64], p: Progress, place: u64, x: Option<i64>, y: Option<i64>) -> Stroke
    requires may_flash { MayFlash e.old p x y }
    requires block_value { p.graphics.aperture.block ≡ false }
    ensures { Leads (λ room s. flash_step room place x y s) (λ w. w.entries ≡ e.old) (with_entries e.new) p (with_stroke result p) }
{
    let g = p.graphics;
    let b = p.builder;
    let region = g.region;
    let at = changes::target(g, x, y);
    let t = marks::flashed(g, at, place);
    Stroke {
        at,
        region,
        builder: build::add_item(e, b, t),
        contour: p.contour,
    }
}

// A D03 with a block. Where its entries lie is its record's matter.
fn flash_block(e: &mut [u64], p: Progress, place: u64, x: Option<i64>, y: Option<i64>) -> Stroke
    requires may_flash { MayFlash e.old p x y }
    requires block_value { p.graphics.aperture.block ≡ true }
    ensures { Leads (λ room s. flash_step room place x y s) (λ w. w.entries ≡ e.old) (with_entries e.new) p (with_stroke result p) }
{
    let g = p.graphics;
    let b = p.builder;
    let region = g.region;
    let at = changes::target(g, x, y);
    let m = marks::pose(g, at);
    let k = Container {
        first: 0,
        len: 0,
        items: g.aperture.items,
        height: g.aperture.height,
    };
    Stroke {
        at,
        region,
        builder: build::add_use(e, b, g.aperture.slot as u64, k, m, place),
        contour: p.contour,
    }
}

// D03.
pub fn flash(e: &mut [u64], p: Progress, place: u64, x: Option<i64>, y: Option<i64>) -> Struck
    requires { Known (λ w. w.entries ≡ e.old) p }
    ensures { (length e.new ≡ length e.old)
        × StrikesTo (λ room s. flash_step room place x y s) (λ w. w.entries ≡ e.old) (with_entries e.new) p result }
{
    let g = p.graphics;
    let b = p.builder;
    let left = entries_left(e, b);
    if let Err(rule) = operation_rules::flash_fault(g, progress::level_of(p), left, x, y) {
        return Struck::Fault(rule);
    }
    if g.aperture.block {
        return Struck::Next(flash_block(e, p, place, x, y));
    }
    Struck::Next(flash_item(e, p, place, x, y))
}
