// The rules of a macro's primitives (10), on the outcome of their parameters.
#![tactic(auto)]

ghost use Rattle.std.specs.Prelude.{◌≡◌, cond, [], ◌+◌, ◌<◌, ◌^◌, nat_abs};
ghost use Rattle.ints.specs.Ints.{eq_z};
ghost use Rattle.reckon.specs.Thermal.{thermal_fits};
ghost use Rattle.primitives.specs.Asked.{none, asked, added};
ghost use Rattle.primitives.specs.Heading.{heading};
ghost use Rattle.primitives.specs.Rules.{exposure, whole_between, circle, vector_line, center_line, outline, polygon, thermal, code_of, keeps};

use decimal::Amount;

// What the rules ask of a primitive's parameters: how many there are, the first five and the last three, each 0 where there is none.
#[derive(Clone, Copy)]
pub struct Asked {
    pub count: u64,
    pub first: Amount,
    pub second: Amount,
    pub third: Amount,
    pub fourth: Amount,
    pub fifth: Amount,
    pub antepenult: Amount,
    pub penult: Amount,
    pub last: Amount,
}

// No parameter.
pub fn nothing() -> Asked
    ensures { result ≡ asked none [] }
{
    let zero = Amount { millionths: 0 };
    Asked {
        count: 0,
        first: zero,
        second: zero,
        third: zero,
        fourth: zero,
        fifth: zero,
        antepenult: zero,
        penult: zero,
        last: zero,
    }
}

// The first where the test holds, else the second.
fn either_of(test: bool, a: Amount, b: Amount) -> Amount
    ensures { result ≡ cond test a b }
{
    if test {
        return a;
    }
    b
}

// With one parameter more.
pub fn one_more(q: Asked, a: Amount) -> Asked
    requires { q.count + 1 < 2 ^ 64 }
    ensures { result ≡ added q a }
{
    let first = q.first;
    let second = q.second;
    let third = q.third;
    let fourth = q.fourth;
    let fifth = q.fifth;
    let penult = q.penult;
    let last = q.last;
    Asked {
        count: q.count + 1,
        first: either_of(q.count == 0, a, first),
        second: either_of(q.count == 1, a, second),
        third: either_of(q.count == 2, a, third),
        fourth: either_of(q.count == 3, a, fourth),
        fifth: either_of(q.count == 4, a, fifth),
        antepenult: penult,
        penult: last,
        last: a,
    }
}

// Without its sign.
fn size(a: Amount) -> u64
    ensures { result ≡ nat_abs a.millionths }
{
    ints::size(a.millionths)
}

// The same amount.
fn same(a: Amount, b: Amount) -> bool
    ensures { result ≡ eq_z a.millionths b.millionths }
{
    ints::same(a.millionths, b.millionths)
}

// 0 or 1.
fn is_exposure(a: Amount) -> bool
    ensures { result ≡ exposure a }
{
    let n = size(a);
    base::both(
        decimal::at_least_zero(a),
        base::either(n == 0, n == 1000000),
    )
}

// Whole, and from low to high, in millionths.
pub fn whole_between(a: Amount, low: u64, high: u64) -> bool
    ensures { result ≡ whole_between low high a }
{
    let n = size(a);
    base::both(
        base::both(decimal::at_least_zero(a), n % 1000000 == 0),
        base::both(low <= n, n <= high),
    )
}

// Code 1.
fn is_circle(q: Asked) -> bool
    ensures { result ≡ circle q }
{
    let visible = q.first;
    let diameter = q.second;
    base::both(
        base::either(q.count == 4, q.count == 5),
        base::both(is_exposure(visible), decimal::at_least_zero(diameter)),
    )
}

// Code 20.
fn is_vector_line(q: Asked) -> bool
    ensures { result ≡ vector_line q }
{
    let visible = q.first;
    let width = q.second;
    base::both(
        q.count == 7,
        base::both(is_exposure(visible), decimal::at_least_zero(width)),
    )
}

// Code 21.
fn is_center_line(q: Asked) -> bool
    ensures { result ≡ center_line q }
{
    let visible = q.first;
    let width = q.second;
    let height = q.third;
    base::both(
        base::both(q.count == 6, is_exposure(visible)),
        base::both(
            decimal::at_least_zero(width),
            decimal::at_least_zero(height),
        ),
    )
}

// Code 4.
fn is_outline(q: Asked) -> bool
    ensures { result ≡ outline q }
{
    let visible = q.first;
    let n = q.second;
    let x = q.third;
    let y = q.fourth;
    let last_x = q.antepenult;
    let last_y = q.penult;
    let counted = base::both(
        whole_between(n, 1000000, 5000000000),
        q.count == 5 + 2 * (size(n) / 1000000),
    );
    base::both(
        base::both(is_exposure(visible), counted),
        base::both(same(x, last_x), same(y, last_y)),
    )
}

// Code 5.
fn is_polygon(q: Asked) -> bool
    ensures { result ≡ polygon q }
{
    let visible = q.first;
    let vertices = q.second;
    let diameter = q.fifth;
    base::both(
        base::both(q.count == 6, is_exposure(visible)),
        base::both(
            whole_between(vertices, 3000000, 12000000),
            decimal::at_least_zero(diameter),
        ),
    )
}

// A thermal's outer and inner diameter and its gap keep their rule.
fn fits(outer: Amount, inner: Amount, gap: Amount) -> bool
    ensures { result ≡ thermal_fits outer.millionths inner.millionths gap.millionths }
{
    if decimal::at_least_zero(gap) {
        return reckon::thermal_fits(outer.millionths, inner.millionths, gap.millionths);
    }
    false
}

// Code 7.
fn is_thermal(q: Asked) -> bool
    ensures { result ≡ thermal q }
{
    let outer = q.third;
    let inner = q.fourth;
    let gap = q.fifth;
    base::both(q.count == 6, fits(outer, inner, gap))
}

// The code that these digits write, 0 where it is none of those that draw.
pub fn code_of(t: &[u8]) -> u64
    ensures { result ≡ code_of t.now }
{
    if text::is(t, b"1") {
        return 1;
    }
    if text::is(t, b"4") {
        return 4;
    }
    if text::is(t, b"5") {
        return 5;
    }
    if text::is(t, b"7") {
        return 7;
    }
    if text::is(t, b"20") {
        return 20;
    }
    if text::is(t, b"21") {
        return 21;
    }
    0
}

// Whether a primitive keeps the rule of its code.
pub fn keeps_rule(code: u64, q: Asked) -> bool
    ensures { result ≡ keeps code q }
{
    if code == 1 {
        return is_circle(q);
    }
    if code == 4 {
        return is_outline(q);
    }
    if code == 5 {
        return is_polygon(q);
    }
    if code == 7 {
        return is_thermal(q);
    }
    if code == 20 {
        return is_vector_line(q);
    }
    if code == 21 {
        return is_center_line(q);
    }
    false
}

// The number that stands before a primitive's parameters: its code, and a hundred for each of them.
pub fn heading(code: u64, count: u64) -> u64
    requires { code < 100 }
    ensures { result ≡ heading code count }
{
    if count <= 10005 {
        return count * 100 + code;
    }
    code
}
