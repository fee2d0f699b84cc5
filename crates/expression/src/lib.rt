// The value of a macro's expression: an expression may hold a term, a term a factor, a factor an expression in parentheses.
#![tactic(auto)]

ghost use Rattle.std.specs.Prelude.{◌≡◌, ◌-◌, ◌<◌, ◌^◌, pos, nat_abs, length, drop, get_or};
ghost use Rattle.macro_tokens.specs.Tokens.{tokens};
ghost use Rattle.expression.specs.Grammar.{leaf_of, is_close, plus_minus, times_over, sum_by, product_by, closed, factor_at, term_at, expression_at};
ghost use Rattle.expression.specs.Reading.{Fits, Reads, Follows, After, Joins, Negates, as_read, operator_of, worked_of};
ghost use Rattle.expression.specs.Value.{Comes};

use decimal::Amount;
use macro_tokens::Token;

// The variables $1 to $64, in millionths.
#[derive(Clone, Copy)]
pub struct Variables {
    pub values: [i64; 64],
}

// What a factor begins with.
#[derive(Clone, Copy)]
pub enum Leaf {
    Nothing,
    Value(Amount),
    Open,
}

// Which of the two operators of a rank a token is.
#[derive(Clone, Copy)]
pub enum Sign {
    Nothing,
    First,
    Second,
}

// What was read up to `next` has a value, or is refused.
#[derive(Clone, Copy)]
pub struct Worked {
    pub fine: bool,
    pub value: Amount,
    pub next: usize,
}

// An operator, and where its operand stands; or none, and where it would.
#[derive(Clone, Copy)]
pub struct Operator {
    pub any: bool,
    pub second: bool,
    pub next: usize,
}

// The value of $n.
fn variable(v: Variables, n: u64) -> Amount
    ensures { result.millionths ≡ get_or v.values (n - 1) (pos 0) }
{
    if n == 0 {
        return Amount {
            millionths: v.values[0],
        };
    }
    if n <= 64 {
        return Amount {
            millionths: v.values[(n - 1) as usize],
        };
    }
    Amount { millionths: 0 }
}

// What a factor begins with where it begins with this token.
#[tactic(auto, unfolding(crate::specs::Grammar::leaf_of))]
fn leaf_of(token: Token, v: Variables) -> Leaf
    ensures { result ≡ leaf_of v.values token }
{
    match token {
        Token::Number(n) => Leaf::Value(n.value),
        Token::Variable(n) => Leaf::Value(variable(v, n.value)),
        Token::Open => Leaf::Open,
        _ => Leaf::Nothing,
    }
}

// + or -.
#[tactic(auto, unfolding(crate::specs::Grammar::plus_minus))]
fn plus_minus(token: Token) -> Sign
    ensures { result ≡ plus_minus token }
{
    match token {
        Token::Plus => Sign::First,
        Token::Minus => Sign::Second,
        _ => Sign::Nothing,
    }
}

// x or /.
#[tactic(auto, unfolding(crate::specs::Grammar::times_over))]
fn times_over(token: Token) -> Sign
    ensures { result ≡ times_over token }
{
    match token {
        Token::Times => Sign::First,
        Token::Over => Sign::Second,
        _ => Sign::Nothing,
    }
}

// The operator at a place, with the token after it at `next`.
#[tactic(auto, unfolding(crate::specs::Reading::operator_of))]
fn operator_of(sign: Sign, at: usize, next: usize) -> Operator
    ensures { result ≡ operator_of sign at next }
{
    match sign {
        Sign::Nothing => Operator {
            any: false,
            second: false,
            next: at,
        },
        Sign::First => Operator {
            any: true,
            second: false,
            next,
        },
        Sign::Second => Operator {
            any: true,
            second: true,
            next,
        },
    }
}

// The + or - at a place.
fn sign_at(s: &[u8], at: usize) -> Operator
    ensures { Follows plus_minus s.now at result }
{
    let l = macro_tokens::token_at(s, at);
    let token = l.token;
    operator_of(plus_minus(token), at, l.next)
}

// The x or / at a place.
fn times_at(s: &[u8], at: usize) -> Operator
    ensures { Follows times_over s.now at result }
{
    let l = macro_tokens::token_at(s, at);
    let token = l.token;
    operator_of(times_over(token), at, l.next)
}

// A sum, or a difference.
#[tactic(auto, unfolding(crate::specs::Grammar::sum_by))]
fn sum_by(second: bool, a: Amount, b: Amount) -> Option<i64>
    requires { (nat_abs a.millionths < 10 ^ 12) × (nat_abs b.millionths < 10 ^ 12) }
    ensures { result ≡ sum_by second a.millionths b.millionths }
{
    if second {
        return reckon::difference(a.millionths, b.millionths);
    }
    reckon::sum(a.millionths, b.millionths)
}

// A product, or a quotient.
#[tactic(auto, unfolding(crate::specs::Grammar::product_by))]
fn product_by(second: bool, a: Amount, b: Amount) -> Option<i64>
    requires { (nat_abs a.millionths < 10 ^ 12) × (nat_abs b.millionths < 10 ^ 12) }
    ensures { result ≡ product_by second a.millionths b.millionths }
{
    if second {
        return reckon::quotient(a.millionths, b.millionths);
    }
    reckon::product(a.millionths, b.millionths)
}

// The result of an operation whose second operand ends at `next`.
#[tactic(auto, unfolding(crate::specs::Reading::worked_of))]
fn kept(r: Option<i64>, next: usize) -> Worked
    ensures { result ≡ worked_of r next }
{
    match r {
        None => Worked {
            fine: false,
            value: Amount { millionths: 0 },
            next,
        },
        Some(a) => Worked {
            fine: true,
            value: Amount { millionths: a },
            next,
        },
    }
}

// a and b added, or b taken from a.
fn summed(second: bool, a: Worked, b: Worked) -> Worked
    requires { (nat_abs a.value.millionths < 10 ^ 12) × (nat_abs b.value.millionths < 10 ^ 12) }
    ensures { Joins (sum_by second) a b result }
{
    if base::both(a.fine, b.fine) {
        let x = a.value;
        let y = b.value;
        return kept(sum_by(second, x, y), b.next);
    }
    Worked {
        fine: false,
        value: Amount { millionths: 0 },
        next: b.next,
    }
}

// a multiplied by b, or divided by it.
fn multiplied(second: bool, a: Worked, b: Worked) -> Worked
    requires { (nat_abs a.value.millionths < 10 ^ 12) × (nat_abs b.value.millionths < 10 ^ 12) }
    ensures { Joins (product_by second) a b result }
{
    if base::both(a.fine, b.fine) {
        let x = a.value;
        let y = b.value;
        return kept(product_by(second, x, y), b.next);
    }
    Worked {
        fine: false,
        value: Amount { millionths: 0 },
        next: b.next,
    }
}

// A term after its sign.
fn negate(minus: bool, w: Worked) -> Worked
    requires { nat_abs w.value.millionths < 10 ^ 12 }
    ensures { Negates minus w result }
{
    if minus {
        let a = w.value;
        return Worked {
            fine: w.fine,
            value: Amount {
                millionths: ints::neg(a.millionths),
            },
            next: w.next,
        };
    }
    w
}

// The + or - after what was read.
fn sign_after(s: &[u8], w: Worked) -> Operator
    ensures { After plus_minus s.now w result }
{
    if w.fine {
        return sign_at(s, w.next);
    }
    Operator {
        any: false,
        second: false,
        next: w.next,
    }
}

// The x or / after what was read.
fn times_after(s: &[u8], w: Worked) -> Operator
    ensures { After times_over s.now w result }
{
    if w.fine {
        return times_at(s, w.next);
    }
    Operator {
        any: false,
        second: false,
        next: w.next,
    }
}

// ).
#[tactic(auto, unfolding(crate::specs::Grammar::is_close))]
fn is_close(token: Token) -> bool
    ensures { result ≡ is_close token }
{
    matches!(token, Token::Close)
}

// What was read, with the parenthesis that closes it.
fn close(s: &[u8], w: Worked) -> Worked
    requires { nat_abs w.value.millionths < 10 ^ 12 }
    ensures { Reads s.now w.next result (closed (as_read s.now w)) }
{
    let l = macro_tokens::token_at(s, w.next);
    let token = l.token;
    let a = w.value;
    Worked {
        fine: base::both(w.fine, is_close(token)),
        value: a,
        next: l.next,
    }
}

// A factor: a number, a variable, or an expression in parentheses, of which `depth` are left to open.
#[cycle(expression_factor_term)]
fn factor(s: &[u8], at: usize, depth: usize, v: Variables) -> Worked
    requires { Fits v.values }
    ensures { Reads s.now at result (factor_at (length s.now) v.values depth (tokens (drop at s.now))) }
{
    let l = macro_tokens::token_at(s, at);
    let token = l.token;
    let f = leaf_of(token, v);
    match f {
        Leaf::Nothing => Worked {
            fine: false,
            value: Amount { millionths: 0 },
            next: l.next,
        },
        Leaf::Value(a) => Worked {
            fine: true,
            value: a,
            next: l.next,
        },
        Leaf::Open => close(s, expression(s, l.next, depth, v)),
    }
}

// A term: factors, multiplied and divided from the left.
#[cycle(expression_factor_term)]
fn term(s: &[u8], at: usize, depth: usize, v: Variables) -> Worked
    requires { Fits v.values }
    ensures { Reads s.now at result (term_at (length s.now) v.values depth (tokens (drop at s.now))) }
{
    let mut w = factor(s, at, depth, v);
    let mut o = times_after(s, w);
    while o.any {
        let f = factor(s, o.next, depth, v);
        w = multiplied(o.second, w, f);
        o = times_after(s, w);
    }
    w
}

// An expression: a sign or none, then terms, added and taken away from the left.
#[cycle(expression_factor_term)]
fn expression(s: &[u8], at: usize, depth: usize, v: Variables) -> Worked
    requires { Fits v.values }
    ensures { Reads s.now at result (expression_at (length s.now) v.values depth (tokens (drop at s.now))) }
{
    if depth == 0 {
        return Worked {
            fine: false,
            value: Amount { millionths: 0 },
            next: at,
        };
    }
    let sign = sign_at(s, at);
    let mut w = negate(sign.second, term(s, sign.next, depth - 1, v));
    let mut o = sign_after(s, w);
    while o.any {
        let t = term(s, o.next, depth - 1, v);
        w = summed(o.second, w, t);
        o = sign_after(s, w);
    }
    w
}

// The value of the whole text of an expression.
pub fn value_of(t: &[u8], v: Variables) -> Option<i64>
    requires { Fits v.values }
    ensures { Comes v.values t.now result }
{
    let w = expression(t, 0, 17, v);
    if base::both(w.fine, t.len() <= w.next) {
        let a = w.value;
        return Some(a.millionths);
    }
    None
}
