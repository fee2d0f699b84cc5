// AD's standard templates: C, R, O and P, and the rules of their parameters.
#![tactic(auto)]

ghost use Rattle.std.specs.Prelude.{◌≡◌, ◌<◌};
ghost use Rattle.templates.specs.Templates.{with_hole, circle, rectangle, polygon, kind_of, keeps, plain_circle};

use decimal::Amount;
use primitives::Asked;

// So many parameters, and perhaps a hole after them.
fn with_hole(n: u64, q: Asked, hole: Amount) -> bool
    requires { n < 100 }
    ensures { result ≡ with_hole n q hole }
{
    base::either(
        q.count == n,
        base::both(q.count == n + 1, decimal::above_zero(hole)),
    )
}

fn is_circle(q: Asked) -> bool
    ensures { result ≡ circle q }
{
    let diameter = q.first;
    let hole = q.second;
    base::both(decimal::at_least_zero(diameter), with_hole(1, q, hole))
}

fn is_rectangle(q: Asked) -> bool
    ensures { result ≡ rectangle q }
{
    let width = q.first;
    let height = q.second;
    let hole = q.third;
    let sizes = base::both(decimal::above_zero(width), decimal::above_zero(height));
    base::both(sizes, with_hole(2, q, hole))
}

fn is_polygon(q: Asked) -> bool
    ensures { result ≡ polygon q }
{
    let diameter = q.first;
    let vertices = q.second;
    let hole = q.fourth;
    let shape = base::both(
        decimal::above_zero(diameter),
        primitives::whole_between(vertices, 3000000, 12000000),
    );
    base::both(shape, base::either(q.count == 2, with_hole(3, q, hole)))
}

// The kind of an aperture by the name of its template.
pub fn kind_of(name: &[u8]) -> u64
    ensures { result ≡ kind_of name.now }
{
    let p = base::row(text::is(name, b"P"), 4, 5);
    let o = base::row(text::is(name, b"O"), 3, p);
    let r = base::row(text::is(name, b"R"), 2, o);
    base::row(text::is(name, b"C"), 1, r)
}

// The parameters keep the rule of their template.
pub fn keeps_rule(kind: u64, q: Asked) -> bool
    ensures { result ≡ keeps kind q }
{
    if kind == 1 {
        return is_circle(q);
    }
    if kind == 2 {
        return is_rectangle(q);
    }
    if kind == 3 {
        return is_rectangle(q);
    }
    if kind == 4 {
        return is_polygon(q);
    }
    false
}

// A C without hole.
pub fn is_plain_circle(kind: u64, q: Asked) -> bool
    ensures { result ≡ plain_circle kind q }
{
    base::both(kind == 1, q.count == 1)
}
