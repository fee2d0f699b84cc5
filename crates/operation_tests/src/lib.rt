// Whether an operation fits the state: each test is one of document 01's sentences about 6, 11 and 13 to 15, or document 02's about 5 and 29.
#![tactic(auto)]

ghost use Rattle.std.specs.Prelude.{◌≡◌, ◌<◌, ◌^◌, leb, nat_abs, ◌+ℤ◌};
ghost use Rattle.base.specs.Or.{◌or◌};
ghost use Rattle.points.specs.Points.{pt};
ghost use Rattle.changes.specs.After.{along};
ghost use Rattle.operation_tests.specs.Far.{is_formatted, is_far, goes_far};
ghost use Rattle.operation_tests.specs.Fits.{is_missing, draws_far, unready, placeless, circular, has_brush, brushless, has_offset, is_signed, quadrantless, arcless, draw_misfits, flash_misfits, moveless, offset_of, unclosed, askew, too_tall};

use command::Offset;
use graphics::{Graphics, Level};
use points::Point;

// How far operations may go: whether their points are less than 10^12 millionths in size, told without a sum that could wrap.

// FS is given.
#[tactic(auto, using(base::proofs::Or::joins), unfolding(crate::specs::Far::is_formatted))]
pub fn is_formatted(g: Graphics) -> bool
    ensures { result ≡ is_formatted g }
{
    !(g.header.format.integers == 0 && g.header.format.decimals == 0)
}

// A number is 10^12 or more in size.
fn is_long(v: i64) -> bool
    ensures { result ≡ leb 1_000_000_000_000 (nat_abs v) }
{
    v.unsigned_abs() >= 1000000000000
}

// A point is 10^12 or more in size.
#[tactic(auto, using(base::proofs::Or::joins), unfolding(crate::specs::Far::is_far))]
fn is_far(p: Point) -> bool
    ensures { result ≡ is_far p }
{
    is_long(p.x) || is_long(p.y)
}

// A sum is 10^12 or more in size.
#[tactic(auto, using(base::proofs::Or::joins, crate::proofs::Laws::long_sum))]
fn is_long_sum(a: i64, b: i64) -> bool
    requires { nat_abs a < 10 ^ 12 }
    ensures { result ≡ leb 1_000_000_000_000 (nat_abs (a +ℤ b)) }
{
    b.unsigned_abs() >= 2000000000000 || is_long(a + b)
}

// A coordinate, given or kept, is 10^12 or more in size.
#[tactic(auto, unfolding(changes::specs::After::along))]
fn is_long_along(incremental: bool, a: Option<i64>, old: i64) -> bool
    requires { nat_abs old < 10 ^ 12 }
    ensures { result ≡ leb 1_000_000_000_000 (nat_abs (along incremental a old)) }
{
    match a {
        None => false,
        Some(v) if incremental => is_long_sum(old, v),
        Some(v) => is_long(v),
    }
}

// A point, or the one to which an operation goes from there, is 10^12 or more in size.
#[tactic(auto, using(base::proofs::Or::joins, crate::proofs::Laws::less, crate::proofs::Laws::neither_left, crate::proofs::Laws::neither_right), unfolding(crate::specs::Far::is_far))]
fn is_far_from(incremental: bool, p: Point, x: Option<i64>, y: Option<i64>) -> bool
    ensures { result ≡ (is_far p or is_far (pt (along incremental x p.x) (along incremental y p.y))) }
{
    is_far(p) || (is_long_along(incremental, x, p.x) || is_long_along(incremental, y, p.y))
}

// 5: an operation goes from a point or to one that is 10^12 millionths or more in size.
#[tactic(auto, using(base::proofs::Or::joins), unfolding(crate::specs::Far::goes_far, changes::specs::After::target))]
pub fn goes_far(g: Graphics, x: Option<i64>, y: Option<i64>) -> bool
    ensures { result ≡ goes_far g x y }
{
    is_formatted(g) && is_far_from(g.incremental, g.point.at, x, y)
}

// The tests of document 01's and 02's sentences.

// The coordinate is not given.
#[tactic(auto, unfolding(crate::specs::Fits::is_missing))]
fn is_missing(a: Option<i64>) -> bool
    ensures { result ≡ is_missing a }
{
    a.is_none()
}

// I and J are given.
#[tactic(auto, unfolding(crate::specs::Fits::has_offset))]
fn has_offset(o: Option<Offset>) -> bool
    ensures { result ≡ has_offset o }
{
    o.is_some()
}

// I or J is given with a sign.
#[tactic(auto, unfolding(crate::specs::Fits::is_signed))]
fn is_signed(o: Option<Offset>) -> bool
    ensures { result ≡ is_signed o }
{
    matches!(o, Some(Offset { signed: true, .. }))
}

// I and J, 0 where they are not given.
#[tactic(auto, unfolding(crate::specs::Fits::offset_of, graphics::specs::Graphics::origin))]
pub fn offset_of(o: Option<Offset>) -> Point
    ensures { result ≡ offset_of o }
{
    match o {
        None => Point { x: 0, y: 0 },
        Some(Offset { offset, .. }) => offset,
    }
}

// 5 at D01.
#[tactic(auto, using(base::proofs::Or::joins), unfolding(crate::specs::Fits::draws_far))]
pub fn draws_far(g: Graphics, x: Option<i64>, y: Option<i64>, o: Option<Offset>) -> bool
    ensures { result ≡ draws_far g x y o }
{
    goes_far(g, x, y) || (is_formatted(g) && is_far(offset_of(o)))
}

// 6: FS is missing, or the unit is.
#[tactic(auto, using(base::proofs::Or::joins), unfolding(crate::specs::Fits::unready))]
pub fn is_unready(g: Graphics) -> bool
    ensures { result ≡ unready g }
{
    !is_formatted(g) || (g.header.unit == 0 && g.header.coded == 0)
}

// 11: a coordinate is missing, and there is no current point.
#[tactic(auto, using(base::proofs::Or::joins), unfolding(crate::specs::Fits::placeless))]
pub fn is_placeless(g: Graphics, x: Option<i64>, y: Option<i64>) -> bool
    ensures { result ≡ placeless g x y }
{
    !g.point.set && (is_missing(x) || is_missing(y))
}

// A D01 draws an arc.
#[tactic(auto, unfolding(crate::specs::Fits::circular))]
pub fn is_circular(g: Graphics) -> bool
    ensures { result ≡ circular g }
{
    g.mode >= 2
}

// The current aperture draws here: a C without hole, or a line of the old edition with an R without one.
#[tactic(auto, using(base::proofs::Or::joins), unfolding(crate::specs::Fits::has_brush))]
fn has_brush(g: Graphics) -> bool
    ensures { result ≡ has_brush g }
{
    let strip = g.aperture.rectangle && !is_circular(g);
    g.aperture.set && (g.aperture.circle || (g.old && strip))
}

// 11: outside a region a D01 needs an aperture that draws.
#[tactic(auto, using(base::proofs::Or::joins), unfolding(crate::specs::Fits::brushless))]
fn is_brushless(g: Graphics) -> bool
    ensures { result ≡ brushless g }
{
    !g.region.on && !has_brush(g)
}

// 11: an arc before any G75; in the old edition, an arc under G74 with a sign.
#[tactic(auto, using(base::proofs::Or::joins), unfolding(crate::specs::Fits::quadrantless))]
fn is_quadrantless(g: Graphics, o: Option<Offset>) -> bool
    ensures { result ≡ quadrantless g o }
{
    !g.quadrants && (!g.old || is_signed(o))
}

// 11: I and J without an arc, an arc without them, or one that the quadrant mode does not take.
#[tactic(auto, using(base::proofs::Or::joins, place::proofs::Laws::not_beq), unfolding(crate::specs::Fits::arcless))]
fn is_arcless(g: Graphics, o: Option<Offset>) -> bool
    ensures { result ≡ arcless g o }
{
    let arc = is_circular(g);
    arc != has_offset(o) || (arc && is_quadrantless(g, o))
}

// 11 at D01.
#[tactic(auto, using(base::proofs::Or::joins), unfolding(crate::specs::Fits::draw_misfits))]
pub fn draw_misfits(g: Graphics, o: Option<Offset>) -> bool
    ensures { result ≡ draw_misfits g o }
{
    !g.point.set || g.mode == 0 || is_brushless(g) || is_arcless(g, o)
}

// 11 at D03.
#[tactic(auto, using(base::proofs::Or::joins), unfolding(crate::specs::Fits::flash_misfits))]
pub fn flash_misfits(g: Graphics, x: Option<i64>, y: Option<i64>) -> bool
    ensures { result ≡ flash_misfits g x y }
{
    is_placeless(g, x, y) || !g.aperture.set
}

// 29: a contour begins here, and no D02 stood since G36; not in the old edition.
#[tactic(auto, using(base::proofs::Or::joins), unfolding(crate::specs::Fits::moveless))]
pub fn is_moveless(g: Graphics) -> bool
    ensures { result ≡ moveless g }
{
    !g.old && changes::starts_contour(g.region) && !g.region.moved
}

// 13: a contour is open, and its last point is not its first.
#[tactic(auto, using(base::proofs::Or::joins), unfolding(crate::specs::Fits::unclosed))]
pub fn is_unclosed(g: Graphics) -> bool
    ensures { result ≡ unclosed g }
{
    g.region.contour && !points::same_point(g.point.at, g.region.first)
}

// 14: a block at a scale or an angle that it cannot be flashed at.
#[tactic(auto, using(base::proofs::Or::joins), unfolding(crate::specs::Fits::askew))]
pub fn is_askew(g: Graphics) -> bool
    ensures { result ≡ askew g }
{
    let turned = graphics::oriented(g.transform).angle % 90000000 != 0;
    g.aperture.block && (g.transform.scale != 1000000 || turned)
}

// 15: the flash of a block makes the block it stands in too tall.
#[tactic(auto, using(base::proofs::Or::joins), unfolding(crate::specs::Fits::too_tall))]
pub fn is_too_tall(g: Graphics, l: Level) -> bool
    ensures { result ≡ too_tall g l }
{
    g.aperture.block && l.inside == 1 && g.aperture.height >= 8
}
