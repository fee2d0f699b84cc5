// What each command changes of the graphics state.
#![tactic(auto)]

ghost use Rattle.std.specs.Prelude.{◌≡◌, nat_abs, ◌+ℤ◌, ◌≤◌, ◌^◌};
ghost use Rattle.points.specs.Points.{pt, Within};
ghost use Rattle.graphics.specs.Orientation.{angle_of};
ghost use Rattle.graphics.specs.Graphics.{unset, no_region, with_header, with_notation, with_point, with_transform, with_region};
ghost use Rattle.changes.specs.After.{along, target, goal, going_to, empty_region, starts_contour, drawing, ended, with_format, with_unit, with_coded, with_clear, with_mirror, with_rotation, with_scale, after_setting, mode_of, after_operation, after, Reached};

use command::{Command, Operation, Setting};
use decimal::Amount;
use formats::Format;
use graphics::{Current, Graphics, Header, Mirror, Region, Transform};
use points::Point;

// A coordinate as it is given, counted from the old one in incremental notation; else the old one.
#[tactic(auto, unfolding(crate::specs::After::along))]
fn along(incremental: bool, a: Option<i64>, old: i64) -> i64
    requires { nat_abs (along incremental a old) ≤ 10 ^ 12 }
    ensures { result ≡ along incremental a old }
{
    match a {
        None => old,
        Some(v) => {
            if incremental {
                return old + v;
            }
            v
        }
    }
}

// The point that an operation goes to.
#[tactic(auto, unfolding(crate::specs::After::target))]
pub fn target(g: Graphics, x: Option<i64>, y: Option<i64>) -> Point
    requires { Within (10 ^ 12) (target g x y) }
    ensures { result ≡ target g x y }
{
    let p = g.point.at;
    Point {
        x: along(g.incremental, x, p.x),
        y: along(g.incremental, y, p.y),
    }
}

// A D01 here is the first of a contour.
#[tactic(auto, using(base::proofs::And::ands), unfolding(crate::specs::After::starts_contour))]
pub fn starts_contour(r: Region) -> bool
    ensures { result ≡ starts_contour r }
{
    r.on && !r.contour
}

// The region after a D01 from p on.
#[tactic(auto, unfolding(crate::specs::After::drawing))]
pub fn drawing(r: Region, p: Point) -> Region
    ensures { result ≡ drawing r p }
{
    let first = if starts_contour(r) { p } else { r.first };
    Region {
        contour: r.on,
        first,
        ..r
    }
}

// The region after a D02.
#[tactic(auto, unfolding(crate::specs::After::ended, graphics::specs::Graphics::origin))]
pub fn ended(r: Region) -> Region
    ensures { result ≡ ended r }
{
    Region {
        moved: r.on,
        contour: false,
        first: Point { x: 0, y: 0 },
        ..r
    }
}

// FS: its notation counts from here on.
#[tactic(auto, unfolding(crate::specs::After::with_format))]
fn set_format(f: Format, g: Graphics) -> Graphics
    ensures { result ≡ with_notation f.incremental (with_header (with_format f g.header) g) }
{
    let h = Header {
        format: f,
        ..g.header
    };
    graphics::with_notation(f.incremental, graphics::with_header(h, g))
}

// MO.
#[tactic(auto, unfolding(crate::specs::After::with_unit))]
fn set_unit(u: u64, g: Graphics) -> Graphics
    ensures { result ≡ with_header (with_unit u g.header) g }
{
    let h = Header {
        unit: u,
        ..g.header
    };
    graphics::with_header(h, g)
}

// G70 and G71: the first of them counts.
#[tactic(auto, unfolding(base::specs::Choose::pick, crate::specs::After::with_coded))]
fn set_coded(u: u64, g: Graphics) -> Graphics
    ensures { result ≡ with_header (with_coded u g.header) g }
{
    let h = Header {
        coded: if g.header.coded == 0 {
            u
        } else {
            g.header.coded
        },
        ..g.header
    };
    graphics::with_header(h, g)
}

// LP.
#[tactic(auto, unfolding(crate::specs::After::with_clear))]
fn set_clear(clear: bool, g: Graphics) -> Graphics
    ensures { result ≡ with_transform (with_clear clear g.transform) g }
{
    let t = Transform {
        clear,
        ..g.transform
    };
    graphics::with_transform(t, g)
}

// LM.
#[tactic(auto, unfolding(crate::specs::After::with_mirror))]
fn set_mirror(mirror: Mirror, g: Graphics) -> Graphics
    ensures { result ≡ with_transform (with_mirror mirror g.transform) g }
{
    let t = Transform {
        mirror,
        ..g.transform
    };
    graphics::with_transform(t, g)
}

// LR.
#[tactic(auto, unfolding(crate::specs::After::with_rotation))]
fn set_rotation(a: Amount, g: Graphics) -> Graphics
    ensures { result ≡ with_transform (with_rotation (angle_of a.millionths) g.transform) g }
{
    let t = Transform {
        rotation: graphics::angle_of(a.millionths),
        ..g.transform
    };
    graphics::with_transform(t, g)
}

// LS.
#[tactic(auto, unfolding(crate::specs::After::with_scale))]
fn set_scale(a: Amount, g: Graphics) -> Graphics
    ensures { result ≡ with_transform (with_scale (nat_abs a.millionths) g.transform) g }
{
    let t = Transform {
        scale: a.millionths.unsigned_abs(),
        ..g.transform
    };
    graphics::with_transform(t, g)
}

// G36.
#[tactic(auto, unfolding(crate::specs::After::empty_region, graphics::specs::Graphics::origin))]
fn begin_region(g: Graphics) -> Graphics
    ensures { result ≡ with_region empty_region g }
{
    let r = Region {
        on: true,
        moved: false,
        contour: false,
        first: Point { x: 0, y: 0 },
    };
    graphics::with_region(r, g)
}

// G37.
#[tactic(auto, unfolding(graphics::specs::Graphics::no_region, graphics::specs::Graphics::origin))]
fn end_region(g: Graphics) -> Graphics
    ensures { result ≡ with_region no_region g }
{
    let r = Region {
        on: false,
        moved: false,
        contour: false,
        first: Point { x: 0, y: 0 },
    };
    graphics::with_region(r, g)
}

// AB and SR, opening and closing.
#[tactic(auto, unfolding(graphics::specs::Graphics::unset, graphics::specs::Graphics::origin))]
pub fn unplaced(g: Graphics) -> Graphics
    ensures { result ≡ with_point unset g }
{
    let p = Current {
        set: false,
        at: Point { x: 0, y: 0 },
    };
    graphics::with_point(p, g)
}

// The current point is p.
#[tactic(auto, unfolding(crate::specs::After::going_to))]
fn going_to(p: Point, g: Graphics) -> Graphics
    ensures { result ≡ going_to p g }
{
    graphics::with_point(Current { set: true, at: p }, g)
}

// D01.
fn drawn(x: Option<i64>, y: Option<i64>, g: Graphics) -> Graphics
    requires { Within (10 ^ 12) (target g x y) }
    ensures { result ≡ going_to (target g x y) (with_region (drawing g.region g.point.at) g) }
{
    let region = drawing(g.region, g.point.at);
    going_to(target(g, x, y), graphics::with_region(region, g))
}

// D02.
fn moved(x: Option<i64>, y: Option<i64>, g: Graphics) -> Graphics
    requires { Within (10 ^ 12) (target g x y) }
    ensures { result ≡ going_to (target g x y) (with_region (ended g.region) g) }
{
    going_to(target(g, x, y), graphics::with_region(ended(g.region), g))
}

// D03.
fn flashed(x: Option<i64>, y: Option<i64>, g: Graphics) -> Graphics
    requires { Within (10 ^ 12) (target g x y) }
    ensures { result ≡ going_to (target g x y) g }
{
    going_to(target(g, x, y), g)
}

// The state after a setting that is accepted.
#[tactic(auto, unfolding(crate::specs::After::after_setting))]
pub fn after_setting(s: Setting, g: Graphics) -> Graphics
    ensures { result ≡ after_setting s g }
{
    match s {
        Setting::Format(f) => set_format(f, g),
        Setting::Absolute => graphics::with_notation(false, g),
        Setting::Incremental => graphics::with_notation(true, g),
        Setting::Millimetres => set_unit(1, g),
        Setting::Inches => set_unit(2, g),
        Setting::CodedMillimetres => set_coded(1, g),
        Setting::CodedInches => set_coded(2, g),
        Setting::Linear => graphics::with_mode(1, g),
        Setting::Clockwise => graphics::with_mode(2, g),
        Setting::Counterclockwise => graphics::with_mode(3, g),
        Setting::SingleQuadrant => graphics::with_quadrants(false, g),
        Setting::MultiQuadrant => graphics::with_quadrants(true, g),
        Setting::Dark => set_clear(false, g),
        Setting::Clear => set_clear(true, g),
        Setting::Mirror { x, y } => set_mirror(Mirror { x, y }, g),
        Setting::Rotation { angle, .. } => set_rotation(angle, g),
        Setting::Scale { factor, .. } => set_scale(factor, g),
        Setting::RegionStart => begin_region(g),
        Setting::RegionEnd => end_region(g),
        Setting::Halt => g,
    }
}

// The mode of a setting that changes the mode alone: 1 for G01, 2 for G02, 3 for G03, and 0 for any other.
#[tactic(auto, unfolding(crate::specs::After::mode_of))]
pub fn mode_of(s: Setting) -> u64
    ensures { result ≡ mode_of s }
{
    match s {
        Setting::Linear => 1,
        Setting::Clockwise => 2,
        Setting::Counterclockwise => 3,
        _ => 0,
    }
}

// The state after a D01, D02 or D03 that is accepted.
#[tactic(auto, unfolding(crate::specs::After::after_operation, crate::specs::After::goal))]
pub fn after_operation(o: Operation, g: Graphics) -> Graphics
    requires { Within (10 ^ 12) (goal o g) }
    ensures { result ≡ after_operation o g }
{
    match o {
        Operation::Draw { x, y, .. } => drawn(x, y, g),
        Operation::Move { x, y } => moved(x, y, g),
        Operation::Flash { x, y } => flashed(x, y, g),
    }
}

// The state after a command that is accepted.
#[tactic(auto, unfolding(crate::specs::After::after, crate::specs::After::Reached))]
pub fn after(c: Command, g: Graphics) -> Graphics
    requires { Reached c g }
    ensures { result ≡ after c g }
{
    match c {
        Command::Set(s) => after_setting(s, g),
        Command::Operate(o) => after_operation(o, g),
        Command::Coded { code, operation } => after_operation(operation, after_setting(code, g)),
        Command::Contain(_) => unplaced(g),
        _ => g,
    }
}
