// The arc of a D01: its centre, in multi quadrant mode given, in single quadrant mode chosen; when it has none; and the kind of item drawn.
#![tactic(auto)]

ghost use Rattle.std.specs.Prelude.{◌≡◌, cond};
ghost use Rattle.points.specs.Points.{same_point};
ghost use Rattle.graphics.specs.Graphics.{origin};
ghost use Rattle.arcs.specs.Arcs.{single, rests, choice_for, bad_centre, centreless, chosen_at, kind_drawn, arc_centre};
ghost use Rattle.arcs.specs.Near.{Near};

use command::Offset;
use graphics::Graphics;
use points::Point;

// Single quadrant mode is in force.
#[tactic(auto, using(base::proofs::Or::joins), unfolding(crate::specs::Arcs::single))]
fn is_single(g: Graphics) -> bool
    ensures { result ≡ single g }
{
    g.old && !g.quadrants
}

// A D01 to end starts there.
fn stays(g: Graphics, end: Point) -> bool
    ensures { result ≡ same_point g.point.at end }
{
    points::same_point(g.point.at, end)
}

// In single quadrant mode an arc to where it starts is a line.
#[tactic(auto, using(base::proofs::Or::joins), unfolding(crate::specs::Arcs::rests))]
fn is_resting(g: Graphics, end: Point) -> bool
    ensures { result ≡ rests g end }
{
    operation_tests::is_circular(g) && (is_single(g) && stays(g, end))
}

// The centre that is chosen in single quadrant mode.
#[tactic(auto, unfolding(crate::specs::Arcs::choice_for))]
fn choice_for(g: Graphics, end: Point, o: Option<Offset>) -> Option<Point>
    requires { Near g end o }
    ensures { result ≡ choice_for g end o }
{
    let offset = operation_tests::offset_of(o);
    quadrant::choose(
        g.point.at,
        end,
        offset.x.unsigned_abs(),
        offset.y.unsigned_abs(),
        g.mode == 2,
    )
}

// 12: the centre of the arc to end is nonsensical.
#[tactic(auto, using(base::proofs::Or::joins), unfolding(crate::specs::Arcs::bad_centre, crate::specs::Arcs::centre_of))]
pub fn bad_centre(g: Graphics, end: Point, o: Option<Offset>) -> bool
    ensures { result ≡ bad_centre g end o }
{
    operation_tests::is_circular(g)
        && !is_single(g)
        && reckon::bad_centre(g.point.at, end, operation_tests::offset_of(o))
}

// 31: in single quadrant mode no centre remains, or two tie.
#[tactic(auto, using(base::proofs::Or::joins), unfolding(crate::specs::Arcs::centreless, crate::specs::Arcs::is_none))]
pub fn is_centreless(g: Graphics, end: Point, o: Option<Offset>) -> bool
    requires { Near g end o }
    ensures { result ≡ centreless g end o }
{
    operation_tests::is_circular(g)
        && (is_single(g) && !stays(g, end))
        && choice_for(g, end, o).is_none()
}

// The point that was chosen.
#[tactic(auto, unfolding(crate::specs::Arcs::chosen_at, graphics::specs::Graphics::origin))]
fn chosen_at(c: Option<Point>) -> Point
    ensures { result ≡ chosen_at c }
{
    c.unwrap_or(Point { x: 0, y: 0 })
}

// The kind of the item that a D01 to end draws.
#[tactic(auto, unfolding(crate::specs::Arcs::kind_drawn))]
pub fn kind_drawn(g: Graphics, end: Point) -> u64
    ensures { result ≡ kind_drawn g end }
{
    if is_resting(g, end) { 1 } else { g.mode }
}

// The centre of an arc of which start plus I and J is not the centre; none where it goes nowhere.
#[tactic(auto, unfolding(graphics::specs::Graphics::origin))]
fn single_centre(g: Graphics, end: Point, o: Option<Offset>) -> Point
    requires { Near g end o }
    ensures { result ≡ cond (same_point g.point.at end) origin (chosen_at (choice_for g end o)) }
{
    if stays(g, end) {
        Point { x: 0, y: 0 }
    } else {
        chosen_at(choice_for(g, end, o))
    }
}

// The centre of an arc to end; a line has none.
#[tactic(auto, unfolding(crate::specs::Arcs::arc_centre, crate::specs::Arcs::centre_of, graphics::specs::Graphics::origin))]
pub fn arc_centre(g: Graphics, end: Point, o: Option<Offset>) -> Point
    requires { Near g end o }
    ensures { result ≡ arc_centre g end o }
{
    if !operation_tests::is_circular(g) {
        Point { x: 0, y: 0 }
    } else if is_single(g) {
        single_centre(g, end, o)
    } else {
        points::shifted(g.point.at, operation_tests::offset_of(o))
    }
}
