// The state, by value: the graphics state, which is what the commands so far have set, and what stands open.
#![tactic(auto)]

ghost use Rattle.std.specs.Prelude.{◌≡◌};
ghost use Rattle.graphics.specs.Graphics.{start, with_header, with_notation, with_point, with_aperture, with_mode, with_quadrants, with_transform, with_region};
ghost use Rattle.graphics.specs.Orientation.{angle_of, angle_after, orientation};

use formats::Format;
use points::Point;

// What FS says, without places before it; MO's unit, and that of the first G70 or G71, 1 mm or 2 inch, 0 before each.
#[derive(Clone, Copy)]
pub struct Header {
    pub format: Format,
    pub unit: u64,
    pub coded: u64,
}

// The current point.
#[derive(Clone, Copy)]
pub struct Current {
    pub set: bool,
    pub at: Point,
}

// The current aperture: its number, its record, whether it is a C without hole, or an R without one, whether it is a block, and a
// block's items and height.
#[derive(Clone, Copy)]
pub struct Selected {
    pub set: bool,
    pub number: u64,
    pub slot: usize,
    pub circle: bool,
    pub rectangle: bool,
    pub block: bool,
    pub items: u64,
    pub height: u64,
}

// LM: whether it mirrors x, and y.
#[derive(Clone, Copy)]
pub struct Mirror {
    pub x: bool,
    pub y: bool,
}

// LP, LM, LR and LS; the rotation is from 0 up to a full turn.
#[derive(Clone, Copy)]
pub struct Transform {
    pub clear: bool,
    pub mirror: Mirror,
    pub rotation: u64,
    pub scale: u64,
}

// A region, whether a D02 stood since its G36, and the first point of the contour that is open in it.
#[derive(Clone, Copy)]
pub struct Region {
    pub on: bool,
    pub moved: bool,
    pub contour: bool,
    pub first: Point,
}

// Whether the edition is the old book's, which nothing changes; whether coordinates count from the current point. The mode is 0 before it
// is set, else the kind of item that a D01 draws: 1 line, 2 clockwise, 3 counterclockwise; G75 is in force where `quadrants` is.
#[derive(Clone, Copy)]
pub struct Graphics {
    pub old: bool,
    pub header: Header,
    pub incremental: bool,
    pub point: Current,
    pub aperture: Selected,
    pub mode: u64,
    pub quadrants: bool,
    pub transform: Transform,
    pub region: Region,
}

// What stands open: innermost the top level (0), a block (1) or a repeat (2), its items and its height so far, how many blocks
// are open, and of the open repeat its copies and the sheet's items before it.
#[derive(Clone, Copy)]
pub struct Level {
    pub inside: u64,
    pub items: u64,
    pub height: u64,
    pub depth: u64,
    pub copies: u64,
    pub sheet: u64,
}

// Flip and angle, as LM and LR give them.
#[derive(Clone, Copy)]
pub struct Orientation {
    pub flip: bool,
    pub angle: u64,
}

// The state at the start of a file of the old edition, or of the newer one.
#[tactic(auto, unfolding(crate::specs::Graphics::start, crate::specs::Graphics::unset, crate::specs::Graphics::origin, crate::specs::Graphics::no_aperture, crate::specs::Graphics::no_region, formats::specs::Format::no_format))]
pub fn start(old: bool) -> Graphics
    ensures { result ≡ start old }
{
    let origin = Point { x: 0, y: 0 };
    Graphics {
        old,
        header: Header {
            format: Format {
                integers: 0,
                decimals: 0,
                trailing: false,
                incremental: false,
            },
            unit: 0,
            coded: 0,
        },
        incremental: false,
        point: Current {
            set: false,
            at: origin,
        },
        aperture: Selected {
            set: false,
            number: 0,
            slot: 0,
            circle: false,
            rectangle: false,
            block: false,
            items: 0,
            height: 0,
        },
        mode: 0,
        quadrants: false,
        transform: Transform {
            clear: false,
            mirror: Mirror { x: false, y: false },
            rotation: 0,
            scale: 1000000,
        },
        region: Region {
            on: false,
            moved: false,
            contour: false,
            first: origin,
        },
    }
}

// The state with FS, MO and the unit's code set anew.
#[tactic(auto, unfolding(crate::specs::Graphics::with_header))]
pub fn with_header(v: Header, g: Graphics) -> Graphics
    ensures { result ≡ with_header v g }
{
    Graphics { header: v, ..g }
}

// The state with the notation set anew: incremental, or absolute.
#[tactic(auto, unfolding(crate::specs::Graphics::with_notation))]
pub fn with_notation(v: bool, g: Graphics) -> Graphics
    ensures { result ≡ with_notation v g }
{
    Graphics {
        incremental: v,
        ..g
    }
}

// The state with the current point set anew.
#[tactic(auto, unfolding(crate::specs::Graphics::with_point))]
pub fn with_point(v: Current, g: Graphics) -> Graphics
    ensures { result ≡ with_point v g }
{
    Graphics { point: v, ..g }
}

// The state with the current aperture set anew.
#[tactic(auto, unfolding(crate::specs::Graphics::with_aperture))]
pub fn with_aperture(v: Selected, g: Graphics) -> Graphics
    ensures { result ≡ with_aperture v g }
{
    Graphics { aperture: v, ..g }
}

// The state with the mode set anew.
#[tactic(auto, unfolding(crate::specs::Graphics::with_mode))]
pub fn with_mode(v: u64, g: Graphics) -> Graphics
    ensures { result ≡ with_mode v g }
{
    Graphics { mode: v, ..g }
}

// The state with G74 or G75 set anew.
#[tactic(auto, unfolding(crate::specs::Graphics::with_quadrants))]
pub fn with_quadrants(v: bool, g: Graphics) -> Graphics
    ensures { result ≡ with_quadrants v g }
{
    Graphics { quadrants: v, ..g }
}

// The state with LP, LM, LR and LS set anew.
#[tactic(auto, unfolding(crate::specs::Graphics::with_transform))]
pub fn with_transform(v: Transform, g: Graphics) -> Graphics
    ensures { result ≡ with_transform v g }
{
    Graphics { transform: v, ..g }
}

// The state with the region set anew.
#[tactic(auto, unfolding(crate::specs::Graphics::with_region))]
pub fn with_region(v: Region, g: Graphics) -> Graphics
    ensures { result ≡ with_region v g }
{
    Graphics { region: v, ..g }
}

// The angle from 0 up to a full turn.
pub fn angle_of(a: i64) -> u64
    ensures { result ≡ angle_of a }
{
    let n = a.unsigned_abs();
    if a < 0 {
        return (360000000 - n % 360000000) % 360000000;
    }
    n % 360000000
}

// The angle of LR after a mirror of y, or without one.
fn angle_after(y: bool, rotation: u64) -> u64
    ensures { result ≡ angle_after y rotation }
{
    if y {
        return (180000000 + rotation % 360000000) % 360000000;
    }
    rotation % 360000000
}

// Flip and angle, as LM and LR give them.
#[tactic(auto, using(place::proofs::Laws::not_beq), unfolding(crate::specs::Orientation::orientation))]
pub fn oriented(t: Transform) -> Orientation
    ensures { result ≡ orientation t }
{
    Orientation {
        flip: t.mirror.x != t.mirror.y,
        angle: angle_after(t.mirror.y, t.rotation),
    }
}
