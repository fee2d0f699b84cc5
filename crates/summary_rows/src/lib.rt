// Rows of the summary: how many items, and the least and greatest x and y of their points; put together, moved and copied.
#![tactic(auto)]

ghost use Rattle.std.specs.Prelude.{◌≡◌, ◌*◌, ◌≤◌, ◌^◌};
ghost use Rattle.place.specs.Placing.{PoseWithin};
ghost use Rattle.spans.specs.Spans.{RectWithin};
ghost use Rattle.summary_rows.specs.Rows.{no_row, joined, merged, moved_rect, moved_extent, moved_row, copied_extent, copied_row, ExtentWithin, Steps};
ghost use Rattle.summary_rows.specs.Summed.{asks, points_of, extent_of, item_row};

use place::{Item, Pose, Repeat};
use spans::Rect;

// How many items, and where their points lie.
#[derive(Clone, Copy)]
pub struct Row {
    pub count: u64,
    pub extent: Option<Rect>,
}

// Which items a row is for: those of the aperture with a number, or the regions' contours and edges.
#[derive(Clone, Copy)]
pub enum Asked {
    Aperture(u64),
    Regions,
}

#[tactic(auto, unfolding(crate::specs::Rows::moved_rect))]
fn move_rect(m: Pose, b: Rect) -> Rect
    requires { PoseWithin (10 ^ 16) m × RectWithin (10 ^ 17) b }
    ensures { result ≡ moved_rect m b }
{
    spans::shift_rect(
        spans::turn_rect(m.angle / 90000000, spans::flip_rect(m.flip, b)),
        m.at,
    )
}

fn join_extent(x: Option<Rect>, y: Option<Rect>) -> Option<Rect>
    ensures { result ≡ joined x y }
{
    match x {
        None => y,
        Some(b) => match y {
            None => Some(b),
            Some(c) => Some(spans::join_rect(b, c)),
        },
    }
}

fn move_extent(m: Pose, x: Option<Rect>) -> Option<Rect>
    requires { PoseWithin (10 ^ 16) m × ExtentWithin (10 ^ 17) x }
    ensures { result ≡ moved_extent m x }
{
    match x {
        None => None,
        Some(b) => Some(move_rect(m, b)),
    }
}

fn copy_extent(s: Repeat, x: Option<Rect>) -> Option<Rect>
    requires { ExtentWithin (10 ^ 17) x × Steps s }
    ensures { result ≡ copied_extent s x }
{
    let w = (s.nx - 1) * s.dx;
    let h = (s.ny - 1) * s.dy;
    match x {
        None => None,
        Some(b) => Some(spans::stretch_rect(b, w, h)),
    }
}

// The row of no items.
#[tactic(auto, unfolding(crate::specs::Rows::no_row))]
pub fn no_row() -> Row
    ensures { result ≡ no_row }
{
    Row {
        count: 0,
        extent: None,
    }
}

// The row of the items of both.
#[tactic(auto, unfolding(crate::specs::Rows::merged))]
pub fn merge(r: Row, s: Row) -> Row
    requires { (r.count ≤ 10 ^ 12) × (s.count ≤ 10 ^ 12) }
    ensures { result ≡ merged r s }
{
    Row {
        count: r.count + s.count,
        extent: join_extent(r.extent, s.extent),
    }
}

// The row of items that a pose places.
#[tactic(auto, unfolding(crate::specs::Rows::moved_row))]
pub fn move_row(m: Pose, r: Row) -> Row
    requires { PoseWithin (10 ^ 16) m × ExtentWithin (10 ^ 17) r.extent }
    ensures { result ≡ moved_row m r }
{
    Row {
        extent: move_extent(m, r.extent),
        ..r
    }
}

// The row of the copies of items.
#[tactic(auto, unfolding(crate::specs::Rows::copied_row))]
pub fn copy_row(s: Repeat, r: Row) -> Row
    requires { ExtentWithin (10 ^ 17) r.extent × Steps s × (s.ny * r.count ≤ 10 ^ 12) × (s.nx * (s.ny * r.count) ≤ 10 ^ 12) }
    ensures { result ≡ copied_row s r }
{
    Row {
        count: s.nx * (s.ny * r.count),
        extent: copy_extent(s, r.extent),
    }
}

// Whether an item is one of those asked for.
#[tactic(auto, using(base::proofs::And::ands), unfolding(crate::specs::Summed::asks, place::specs::Item::is_oriented))]
fn is_asked(q: Asked, t: Item) -> bool
    ensures { result ≡ asks q t }
{
    match q {
        Asked::Aperture(n) => t.kind <= 4 && t.aperture == n,
        Asked::Regions => t.kind > 4,
    }
}

// Where an item's points lie: of a flash its end, of a contour none.
fn item_extent(t: Item) -> Option<Rect>
    ensures { result ≡ extent_of (points_of t) }
{
    let k = t.kind;
    let start = t.start;
    let end = t.end;
    if k == 5 {
        return None;
    }
    if k == 4 {
        return Some(spans::rect_at(end));
    }
    Some(spans::join_rect(spans::rect_at(start), spans::rect_at(end)))
}

// The row of one item.
#[tactic(auto, unfolding(crate::specs::Summed::item_row))]
pub fn item_row(q: Asked, t: Item) -> Row
    ensures { result ≡ item_row q t }
{
    if is_asked(q, t) {
        return Row {
            count: 1,
            extent: item_extent(t),
        };
    }
    no_row()
}
