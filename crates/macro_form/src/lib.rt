// AM's form (4), the range of its numbers (5) and its depth (15), the lowest of the whole command, and how many of its decimals were
// rounded.
#![tactic(auto)]

ghost use Rattle.std.specs.Prelude.{◌≡◌, ◌+◌, ◌-◌, ◌<◌, ◌^◌, drop};
ghost use Rattle.macro_form.specs.Blocks.{joined, numbered, primitive_form, assignment_form, block_form, blocks_form};
ghost use Rattle.macro_form.specs.Expression.{after_operand, after_operator, opened, closed, unknown, step, finished, expression_form};
ghost use Rattle.macro_form.specs.Macro.{headed, macro_of};

use command::{Command, Definition, Flaw, Number, Span};
use macro_tokens::Token;

// What is wrong with a text: not of its form (4), a number out of its range (5), parentheses too deep (15); and how many of its decimals
// were rounded.
#[derive(Clone, Copy)]
pub struct Form {
    pub formless: bool,
    pub long: bool,
    pub deep: bool,
    pub rounded: usize,
}

// How far an expression was walked through: what is wrong so far, the parentheses that are open, whether an operand stands just
// before, whether a sign may stand here, and how many decimals were rounded.
#[derive(Clone, Copy)]
pub struct Walk {
    pub formless: bool,
    pub long: bool,
    pub deep: bool,
    pub depth: usize,
    pub operand: bool,
    pub sign: bool,
    pub rounded: usize,
}

// A number or a variable, what is wrong with it, and whether it was rounded.
#[tactic(auto, using(base::proofs::Or::joins), unfolding(crate::specs::Expression::after_operand))]
fn after_operand(w: Walk, formless: bool, long: bool, rounded: bool) -> Walk
    requires { w.rounded + 1 < 2 ^ 64 }
    ensures { result ≡ after_operand w formless long rounded }
{
    let count = w.rounded + command::counted(rounded);
    Walk {
        formless: w.formless || w.operand || formless,
        long: w.long || long,
        operand: true,
        sign: false,
        rounded: count,
        ..w
    }
}

// An operator or a sign, where it may stand.
#[tactic(auto, using(base::proofs::Or::joins), unfolding(crate::specs::Expression::after_operator))]
fn after_operator(w: Walk, may: bool) -> Walk
    ensures { result ≡ after_operator w may }
{
    Walk {
        formless: w.formless || !may,
        operand: false,
        sign: false,
        ..w
    }
}

// An opening parenthesis.
#[tactic(auto, using(base::proofs::Or::joins), unfolding(crate::specs::Expression::opened))]
fn after_open(w: Walk) -> Walk
    requires { w.depth + 1 < 2 ^ 64 }
    ensures { result ≡ opened w }
{
    Walk {
        formless: w.formless || w.operand,
        deep: w.deep || 17 <= w.depth + 1,
        depth: w.depth + 1,
        operand: false,
        sign: true,
        ..w
    }
}

// A closing parenthesis.
#[tactic(auto, using(base::proofs::Or::joins), unfolding(crate::specs::Expression::closed))]
fn after_close(w: Walk) -> Walk
    ensures { result ≡ closed w }
{
    Walk {
        formless: w.formless || !w.operand || w.depth == 0,
        depth: w.depth.saturating_sub(1),
        operand: true,
        sign: false,
        ..w
    }
}

// A byte that no expression holds.
#[tactic(auto, unfolding(crate::specs::Expression::unknown))]
fn after_unknown(w: Walk) -> Walk
    ensures { result ≡ unknown w }
{
    Walk {
        formless: true,
        ..w
    }
}

// One token further.
#[tactic(auto, using(base::proofs::Or::joins), unfolding(crate::specs::Expression::step))]
fn step(w: Walk, token: Token) -> Walk
    requires { (w.depth + 1 < 2 ^ 64) × (w.rounded + 1 < 2 ^ 64) }
    ensures { result ≡ step w token }
{
    match token {
        Token::Number(n) => after_operand(w, n.formless, n.long, n.rounded),
        Token::Variable(n) => after_operand(w, n.formless, n.long, false),
        Token::Plus | Token::Minus => after_operator(w, w.operand || w.sign),
        Token::Times | Token::Over => after_operator(w, w.operand),
        Token::Open => after_open(w),
        Token::Close => after_close(w),
        Token::End | Token::Unknown => after_unknown(w),
    }
}

// The end of the text: an operand stands before it, and no parenthesis is open.
#[tactic(auto, using(base::proofs::Or::joins), unfolding(crate::specs::Expression::finished))]
fn finish(w: Walk) -> Form
    ensures { result ≡ finished w }
{
    Form {
        formless: w.formless || !w.operand || 1 <= w.depth,
        long: w.long,
        deep: w.deep,
        rounded: w.rounded,
    }
}

// An expression.
pub fn expression(t: &[u8]) -> Form
    ensures { result ≡ expression_form t.now }
{
    let mut w = Walk {
        formless: false,
        long: false,
        deep: false,
        depth: 0,
        operand: false,
        sign: true,
        rounded: 0,
    };
    let mut at: usize = 0;
    // A place that jumps to the next token: no iterator walks so.
    while at < t.len() {
        let l = macro_tokens::token_at(t, at);
        w = step(w, l.token);
        at = l.next;
    }
    finish(w)
}

// What is wrong with either of two texts, and the decimals of both that were rounded.
#[tactic(auto, using(base::proofs::Or::joins), unfolding(crate::specs::Blocks::joined))]
fn both(f: Form, g: Form) -> Form
    requires { f.rounded + g.rounded < 2 ^ 64 }
    ensures { result ≡ joined f g }
{
    Form {
        formless: f.formless || g.formless,
        long: f.long || g.long,
        deep: f.deep || g.deep,
        rounded: f.rounded + g.rounded,
    }
}

// A primitive: a code of digits, then expressions, each after a comma.
fn primitive(t: &[u8]) -> Form
    ensures { result ≡ primitive_form t.now }
{
    let mut at = text::find(t, 0, b',');
    let mut f = Form {
        formless: !digits::is_number(base::up_to(t, at)),
        long: false,
        deep: false,
        rounded: 0,
    };
    // A place that jumps to the next comma: no iterator walks so.
    while at < t.len() {
        let next = text::find(t, at + 1, b',');
        f = both(
            f,
            expression(macro_tokens::without_leading(base::part(t, at + 1, next))),
        );
        at = next;
    }
    f
}

// The number of an assigned variable.
#[tactic(auto, unfolding(crate::specs::Blocks::numbered))]
fn numbered(n: Number) -> Form
    ensures { result ≡ numbered n }
{
    Form {
        formless: n.formless,
        long: n.long,
        deep: false,
        rounded: 0,
    }
}

// An assignment: `$n=` and an expression.
#[tactic(auto, unfolding(crate::specs::Blocks::numbered, crate::specs::Blocks::assignment_form))]
fn assignment(t: &[u8]) -> Form
    ensures { result ≡ assignment_form t.now }
{
    let n = macro_tokens::variable_number(base::from_on(text::before(t, b'='), 1));
    both(numbered(n), expression(text::after(t, b'=')))
}

// A block without its `*`, told by its first byte.
#[tactic(auto, unfolding(base::specs::Choose::pick, crate::specs::Blocks::block_form, crate::specs::Blocks::good))]
fn block(s: &[u8]) -> Form
    ensures { result ≡ block_form s.now }
{
    let t = macro_tokens::without_leading(s);
    let b = base::byte_at(t, 0);
    if b == b'0' {
        return Form {
            formless: false,
            long: false,
            deep: false,
            rounded: 0,
        };
    }
    if b == b'$' {
        return assignment(t);
    }
    primitive(t)
}

// The blocks, from the `*` before the first of them on.
fn blocks(s: &[u8], from: usize) -> Form
    ensures { result ≡ blocks_form (drop from s.now) }
{
    let mut f = Form {
        formless: false,
        long: false,
        deep: false,
        rounded: 0,
    };
    let mut at = from;
    // A place that jumps to the next `*`: no iterator walks so.
    while at < s.len() {
        let next = text::find(s, at + 1, b'*');
        f = both(f, block(base::part(s, at + 1, next)));
        at = next;
    }
    f
}

// AM with its name up to q, the `*` before its first block. What stands in u is t without its last byte.
#[tactic(auto, using(base::proofs::Or::joins), unfolding(crate::specs::Macro::headed))]
fn headed(t: &[u8], u: &[u8], q: usize) -> Command
    requires { q + 1 < 2 ^ 64 }
    ensures { result ≡ headed t.now u.now q }
{
    let named = text::begins(u, b"AM") && text::is_name(base::part(u, 2, q));
    let whole = text::ends(t, b"*") && named;
    let f = blocks(u, q);
    let name = Span { from: 2, to: q };
    let blocks = Span {
        from: q + 1,
        to: u.len(),
    };
    command::judged(
        !whole || f.formless,
        f.long,
        Command::Define(Definition::Macro {
            name,
            blocks,
            deep: f.deep,
            rounded: f.rounded,
        }),
    )
}

// AM: its text between the two `%`.
#[tactic(auto, unfolding(base::specs::Choose::pick, crate::specs::Macro::macro_of))]
pub fn macro_of(s: &[u8]) -> Command
    ensures { result ≡ macro_of s.now }
{
    let t = macro_tokens::without_trailing(s);
    let u = base::up_to(t, text::before_last(t, 1));
    let q = text::find(u, 2, b'*');
    if q < u.len() {
        return headed(t, u, q);
    }
    Command::Broken(Flaw::NotForm)
}
