// From the least to the greatest: spans of whole numbers, rectangles of points; joined, flipped, turned, shifted and stretched.
#![tactic(auto)]

ghost use Rattle.std.specs.Prelude.{◌≡◌, ◌≤◌, ◌<◌, ◌^◌, nat_abs};
ghost use Rattle.points.specs.Points.{Within};
ghost use Rattle.spans.specs.Spans.{least, greatest, join_span, neg_span, shift_span, stretch_span, rect_at, join_rect, flip_rect, turn_rect, shift_rect, stretch_rect, SpanWithin, RectWithin};

use points::Point;

// From the least to the greatest of whole numbers.
#[derive(Clone, Copy)]
pub struct Span {
    pub low: i64,
    pub high: i64,
}

// From the least to the greatest x and y of points.
#[derive(Clone, Copy)]
pub struct Rect {
    pub across: Span,
    pub up: Span,
}

pub fn lesser(a: i64, b: i64) -> i64
    ensures { result ≡ least a b }
{
    a.min(b)
}

pub fn greater(a: i64, b: i64) -> i64
    ensures { result ≡ greatest a b }
{
    a.max(b)
}

pub fn join_span(s: Span, t: Span) -> Span
    ensures { result ≡ join_span s t }
{
    Span {
        low: lesser(s.low, t.low),
        high: greater(s.high, t.high),
    }
}

pub fn neg_span(s: Span) -> Span
    requires { SpanWithin (10 ^ 17) s }
    ensures { result ≡ neg_span s }
{
    Span {
        low: -s.high,
        high: -s.low,
    }
}

pub fn shift_span(s: Span, d: i64) -> Span
    requires { SpanWithin (10 ^ 17) s × (nat_abs d ≤ 10 ^ 16) }
    ensures { result ≡ shift_span s d }
{
    Span {
        low: s.low + d,
        high: s.high + d,
    }
}

pub fn stretch_span(s: Span, n: u64) -> Span
    requires { SpanWithin (10 ^ 17) s × (n ≤ 10 ^ 16) }
    ensures { result ≡ stretch_span s n }
{
    Span {
        high: s.high + n as i64,
        ..s
    }
}

pub fn rect_at(p: Point) -> Rect
    ensures { result ≡ rect_at p }
{
    Rect {
        across: Span {
            low: p.x,
            high: p.x,
        },
        up: Span {
            low: p.y,
            high: p.y,
        },
    }
}

#[tactic(auto, unfolding(crate::specs::Spans::join_rect))]
pub fn join_rect(b: Rect, c: Rect) -> Rect
    ensures { result ≡ join_rect b c }
{
    Rect {
        across: join_span(b.across, c.across),
        up: join_span(b.up, c.up),
    }
}

// The rectangle with its x flipped, if f.
#[tactic(auto, unfolding(crate::specs::Spans::flip_rect))]
pub fn flip_rect(f: bool, b: Rect) -> Rect
    requires { RectWithin (10 ^ 17) b }
    ensures { result ≡ flip_rect f b }
{
    if f {
        Rect {
            across: neg_span(b.across),
            ..b
        }
    } else {
        b
    }
}

// The rectangle turned n quarters counterclockwise about (0, 0).
pub fn turn_rect(n: u64, b: Rect) -> Rect
    requires { RectWithin (10 ^ 17) b × (n < 4) }
    ensures { result ≡ turn_rect n b }
{
    match n {
        0 => b,
        1 => Rect {
            across: neg_span(b.up),
            up: b.across,
        },
        2 => Rect {
            across: neg_span(b.across),
            up: neg_span(b.up),
        },
        _ => Rect {
            across: b.up,
            up: neg_span(b.across),
        },
    }
}

pub fn shift_rect(b: Rect, p: Point) -> Rect
    requires { RectWithin (10 ^ 17) b × Within (10 ^ 16) p }
    ensures { result ≡ shift_rect b p }
{
    Rect {
        across: shift_span(b.across, p.x),
        up: shift_span(b.up, p.y),
    }
}

#[tactic(auto, unfolding(crate::specs::Spans::stretch_rect))]
pub fn stretch_rect(b: Rect, w: u64, h: u64) -> Rect
    requires { RectWithin (10 ^ 17) b × (w ≤ 10 ^ 16) × (h ≤ 10 ^ 16) }
    ensures { result ≡ stretch_rect b w h }
{
    Rect {
        across: stretch_span(b.across, w),
        up: stretch_span(b.up, h),
    }
}
