// The text of a macro: its line ends, and the tokens of an expression.
#![tactic(auto)]

ghost use Rattle.std.specs.Prelude.{◌≡◌, not};
ghost use Rattle.text.specs.First.{first};
ghost use Rattle.macro_tokens.specs.LineEnds.{without_leading, without_trailing};
ghost use Rattle.macro_tokens.specs.Tokens.{variable_of, variable_number, token_of, lexed};
ghost use Rattle.macro_tokens.specs.Words.{numeral, joins};

use command::{Number, Size};
use digits::NumberError;

// What a word of an expression is. A number and a variable say whether they have their form and keep their range.
#[derive(Clone, Copy)]
pub enum Token {
    End,
    Number(Size),
    Variable(Number),
    Plus,
    Minus,
    Times,
    Over,
    Open,
    Close,
    Unknown,
}

// The token at a place, and where the next one stands.
#[derive(Clone, Copy)]
pub struct Lexeme {
    pub token: Token,
    pub next: usize,
}

// The text from its first byte on that is no line end.
pub fn without_leading(t: &[u8]) -> &[u8]
    ensures { result.now ≡ without_leading t.now }
{
    base::from_on(t, text::past_breaks(t, 0))
}

// The text up to its last byte that is no line end.
pub fn without_trailing(t: &[u8]) -> &[u8]
    ensures { result.now ≡ without_trailing t.now }
{
    let mut rest = t;
    while let [others @ .., b] = rest {
        if !base::is_break(*b) {
            return rest;
        }
        rest = others;
    }
    rest
}

// A digit or a point.
#[tactic(auto, using(base::proofs::Or::joins), unfolding(crate::specs::Words::numeral))]
fn is_numeral(b: u8) -> bool
    ensures { result ≡ numeral b }
{
    digits::is_digit(b) || b == b'.'
}

// A byte that a digit or a point after it belongs to.
#[tactic(auto, using(base::proofs::Or::joins), unfolding(crate::specs::Words::joins))]
fn is_joined(b: u8) -> bool
    ensures { result ≡ joins b }
{
    is_numeral(b) || b == b'$'
}

// The first place from `from` on that holds neither a digit nor a point.
fn numeral_end(s: &[u8], from: usize) -> usize
    ensures { result ≡ first (λ b. not (numeral b)) s.now from }
{
    let rest = base::from_on(s, from);
    from + rest
        .iter()
        .position(|b| !is_numeral(*b))
        .unwrap_or(rest.len())
}

// The number of a variable, of its digits.
#[tactic(auto, using(base::proofs::Or::joins), unfolding(crate::specs::Tokens::variable_of))]
fn in_variables(n: Result<u64, NumberError>) -> Number
    ensures { result ≡ variable_of n }
{
    match n {
        Err(NumberError::NotForm) => Number {
            formless: true,
            long: false,
            value: 0,
        },
        Err(NumberError::TooLong) => Number {
            formless: false,
            long: true,
            value: 0,
        },
        Ok(v) => Number {
            formless: false,
            long: v == 0 || 65 <= v,
            value: v,
        },
    }
}

// The number of the variable that these bytes after a `$` write.
pub fn variable_number(t: &[u8]) -> Number
    ensures { result ≡ variable_number t.now }
{
    in_variables(digits::natural(t, 0, t.len()))
}

// What a word is, by its first byte.
#[tactic(auto, using(base::proofs::Or::joins), unfolding(base::specs::Choose::pick, crate::specs::Tokens::token_of))]
fn token_of(w: &[u8]) -> Token
    ensures { result ≡ token_of w.now }
{
    match base::byte_at(w, 0) {
        b if is_numeral(b) => Token::Number(command::size_of(w)),
        b'$' => Token::Variable(variable_number(base::from_on(w, 1))),
        b'+' => Token::Plus,
        b'-' => Token::Minus,
        b'x' => Token::Times,
        b'/' => Token::Over,
        b'(' => Token::Open,
        b')' => Token::Close,
        _ => Token::Unknown,
    }
}

// The token at a place; at the end of the text, and past it, there is no more.
#[tactic(auto, unfolding(crate::specs::Tokens::lexed, crate::specs::Tokens::word_end))]
pub fn token_at(s: &[u8], at: usize) -> Lexeme
    ensures { result ≡ lexed s.now at }
{
    if at < s.len() {
        if is_joined(s[at]) {
            let end = numeral_end(s, at + 1);
            return Lexeme {
                token: token_of(base::part(s, at, end)),
                next: end,
            };
        }
        return Lexeme {
            token: token_of(base::part(s, at, at + 1)),
            next: at + 1,
        };
    }
    Lexeme {
        token: Token::End,
        next: at,
    }
}
