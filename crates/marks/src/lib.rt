// The items that D01 and D03 draw, and how a block is flashed.
#![tactic(auto)]

ghost use Rattle.std.specs.Prelude.{◌≡◌, ◌≤◌};
ghost use Rattle.arcs.specs.Near.{Near};
ghost use Rattle.marks.specs.Items.{drawn, edge, contour, flashed, pose};
ghost use Rattle.marks.specs.Marks.{repeat_of};

use command::Offset;
use decimal::Amount;
use graphics::Graphics;
use place::{Item, Pose, Repeat};
use points::Point;

// The item of a D01 to end, outside a region.
#[tactic(auto, unfolding(crate::specs::Items::drawn))]
pub fn drawn(g: Graphics, end: Point, o: Option<Offset>, place: u64) -> Item
    requires { Near g end o }
    ensures { result ≡ drawn g end o place }
{
    let turn = graphics::oriented(g.transform);
    Item {
        kind: arcs::kind_drawn(g, end),
        aperture: g.aperture.number,
        clear: g.transform.clear,
        flip: turn.flip,
        angle: turn.angle,
        scale: g.transform.scale,
        start: g.point.at,
        end,
        centre: arcs::arc_centre(g, end, o),
        count: 0,
        place,
        outer: place,
    }
}

// The edge of a D01 to end, in a region.
#[tactic(auto, using(arcs::proofs::Draws::kind_most), unfolding(crate::specs::Items::edge, graphics::specs::Graphics::origin, place::specs::Item::zero_item))]
pub fn edge(g: Graphics, end: Point, o: Option<Offset>, place: u64) -> Item
    requires mode_bound { g.mode ≤ 3 }
    requires near { Near g end o }
    ensures { result ≡ edge g end o place }
{
    Item {
        kind: 5 + arcs::kind_drawn(g, end),
        clear: g.transform.clear,
        scale: 1000000,
        start: g.point.at,
        end,
        centre: arcs::arc_centre(g, end, o),
        place,
        outer: place,
        ..place::zero_item()
    }
}

// The contour that a D01 begins, without its edges.
#[tactic(auto, unfolding(crate::specs::Items::contour, graphics::specs::Graphics::origin, place::specs::Item::zero_item))]
pub fn contour(g: Graphics, place: u64) -> Item
    ensures { result ≡ contour g place }
{
    Item {
        kind: 5,
        clear: g.transform.clear,
        scale: 1000000,
        start: g.point.at,
        place,
        outer: place,
        ..place::zero_item()
    }
}

// The flash of an aperture that is no block.
#[tactic(auto, unfolding(crate::specs::Items::flashed, graphics::specs::Graphics::origin, place::specs::Item::zero_item))]
pub fn flashed(g: Graphics, at: Point, place: u64) -> Item
    ensures { result ≡ flashed g at place }
{
    let turn = graphics::oriented(g.transform);
    Item {
        kind: 4,
        aperture: g.aperture.number,
        clear: g.transform.clear,
        flip: turn.flip,
        angle: turn.angle,
        scale: g.transform.scale,
        end: at,
        place,
        outer: place,
        ..place::zero_item()
    }
}

// How a block is flashed.
#[tactic(auto, unfolding(crate::specs::Items::pose))]
pub fn pose(g: Graphics, at: Point) -> Pose
    ensures { result ≡ pose g at }
{
    let turn = graphics::oriented(g.transform);
    Pose {
        flip: turn.flip,
        angle: turn.angle,
        clear: g.transform.clear,
        at,
    }
}

// What SR repeats.
#[tactic(auto, unfolding(crate::specs::Marks::repeat_of))]
pub fn repeat_of(nx: u64, ny: u64, dx: Amount, dy: Amount) -> Repeat
    ensures { result ≡ repeat_of nx ny dx dy }
{
    Repeat {
        nx,
        ny,
        dx: dx.millionths.unsigned_abs(),
        dy: dy.millionths.unsigned_abs(),
    }
}
