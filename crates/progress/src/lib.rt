// How far reading has come, beside the words of the lent rooms. No reference stands in it, and it goes by value from step to step.
#![tactic(auto)]

ghost use Rattle.std.specs.Prelude.{◌≡◌};
ghost use Rattle.progress.specs.Levels.{level_of};
ghost use Rattle.progress.specs.Parts.{with_graphics, with_builder, with_contour, with_depth, with_repeat, with_apertures, with_macros, with_numbers};
ghost use Rattle.progress.specs.Strokes.{with_stroke};

use build::Builder;
use faults::Rule;
use graphics::{Current, Graphics, Level, Region};
use points::Point;

// How far the entries are built, and where on their stack the open contour stands; how many blocks are open; of the open repeat its
// copies and the sheet's items before it; how many apertures, macros and numbers are used.
#[derive(Clone, Copy)]
pub struct Progress {
    pub graphics: Graphics,
    pub builder: Builder,
    pub contour: usize,
    pub depth: u64,
    pub copies: u64,
    pub sheet: u64,
    pub apertures: usize,
    pub macros: usize,
    pub numbers: usize,
}

// What an operation changes: the current point, the region, how far the entries are built, and where on their stack the open contour
// stands.
#[derive(Clone, Copy)]
pub struct Stroke {
    pub at: Point,
    pub region: Region,
    pub builder: Builder,
    pub contour: usize,
}

// The outcome of an operation: what it changes, or the first rule that it breaks. `Other`: the command is no operation.
#[derive(Clone, Copy)]
pub enum Struck {
    Next(Stroke),
    Fault(Rule),
    Other,
}

// What stands open innermost, told by the height of the container that is built.
#[tactic(auto, unfolding(crate::specs::Levels::level_of, crate::specs::Levels::level_at))]
pub fn level_of(p: Progress) -> Level
    ensures { result ≡ level_of p }
{
    let h = p.builder.height;
    if h <= 8 {
        Level {
            inside: 1,
            items: p.builder.items,
            height: h,
            depth: p.depth,
            copies: 1,
            sheet: 0,
        }
    } else if h == 9 {
        Level {
            inside: 2,
            items: p.builder.items,
            height: 0,
            depth: p.depth,
            copies: p.copies,
            sheet: p.sheet,
        }
    } else {
        Level {
            inside: 0,
            items: p.builder.items,
            height: 0,
            depth: p.depth,
            copies: 1,
            sheet: 0,
        }
    }
}

// With the graphics state set anew.
pub fn with_graphics(g: Graphics, p: Progress) -> Progress
    ensures { result ≡ with_graphics g p }
{
    Progress { graphics: g, ..p }
}

// With the entries built further.
pub fn with_builder(b: Builder, p: Progress) -> Progress
    ensures { result ≡ with_builder b p }
{
    Progress { builder: b, ..p }
}

// With a contour that stands there on the stack.
pub fn with_contour(contour: usize, p: Progress) -> Progress
    ensures { result ≡ with_contour contour p }
{
    Progress { contour, ..p }
}

// With so many blocks open.
pub fn with_depth(depth: u64, p: Progress) -> Progress
    ensures { result ≡ with_depth depth p }
{
    Progress { depth, ..p }
}

// With the copies of an open repeat, and the sheet's items before it.
pub fn with_repeat(copies: u64, sheet: u64, p: Progress) -> Progress
    ensures { result ≡ with_repeat copies sheet p }
{
    Progress { copies, sheet, ..p }
}

// With so many apertures used.
pub fn with_apertures(apertures: usize, p: Progress) -> Progress
    ensures { result ≡ with_apertures apertures p }
{
    Progress { apertures, ..p }
}

// With so many macros used.
pub fn with_macros(macros: usize, p: Progress) -> Progress
    ensures { result ≡ with_macros macros p }
{
    Progress { macros, ..p }
}

// With so many numbers used.
pub fn with_numbers(numbers: usize, p: Progress) -> Progress
    ensures { result ≡ with_numbers numbers p }
{
    Progress { numbers, ..p }
}

// After a stroke.
#[tactic(auto, unfolding(graphics::specs::Graphics::with_point, graphics::specs::Graphics::with_region))]
pub fn with_stroke(s: Stroke, p: Progress) -> Progress
    ensures { result ≡ with_stroke s p }
{
    let point = Current {
        set: true,
        at: s.at,
    };
    Progress {
        graphics: Graphics {
            point,
            region: s.region,
            ..p.graphics
        },
        builder: s.builder,
        contour: s.contour,
        ..p
    }
}
