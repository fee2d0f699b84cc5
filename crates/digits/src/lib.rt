// Strings of digits, and the whole numbers that they write: coordinates, and numbers of digits alone.
#![tactic(auto)]

ghost use Rattle.std.specs.Prelude.{◌≡◌, ◌+◌, ◌≤◌, true, length};
ghost use Rattle.std.proofs.Math.Seq.{slice};
ghost use Rattle.digits.specs.Digits.{is_digit, Writes, past_digits, all_digits, is_number, value_of, digits_in};
ghost use Rattle.digits.specs.Sign.{has_minus, after_sign, past_sign};
ghost use Rattle.digits.specs.Zeros.{drop_leading_zeros, drop_trailing_zeros};
ghost use Rattle.digits.specs.Coordinate.{coordinate_at};
ghost use Rattle.digits.specs.Natural.{natural_of};

mod answers;

pub use answers::{Digits, NumberError, Taken};

// '0' to '9'.
pub fn is_digit(b: u8) -> bool
    ensures { result ≡ is_digit b }
{
    b.is_ascii_digit()
}

// The digit that a byte writes, 10 or more where it writes none.
fn digit(b: u8) -> u64
    ensures { Writes b result }
{
    u64::from(b).wrapping_sub(48)
}

// The first place from `from` on that holds no digit.
pub fn past_digits(s: &[u8], from: usize) -> usize
    ensures { result ≡ past_digits s.now from }
{
    let rest = base::from_on(s, from);
    from + rest
        .iter()
        .position(|b| !is_digit(*b))
        .unwrap_or(rest.len())
}

// The digits from one place on, but none from `to` on.
fn digits_in(s: &[u8], from: usize, to: usize) -> Digits
    requires { (from ≤ to) × (to ≤ from + 12) × (to ≤ length s.now) }
    ensures { result ≡ digits_in s.now from to }
{
    let mut value: u64 = 0;
    for next in from..to {
        let d = digit(s[next]);
        if 10 <= d {
            return Digits { value, next };
        }
        value = value * 10 + d;
    }
    Digits { value, next: to }
}

// Every byte is a digit.
pub fn all_digits(t: &[u8]) -> bool
    ensures { result ≡ all_digits t.now }
{
    t.iter().all(|b| is_digit(*b))
}

// Digits alone, one at least.
#[tactic(auto, using(crate::proofs::Strings::numbers))]
pub fn is_number(t: &[u8]) -> bool
    ensures { result ≡ is_number t.now }
{
    !t.is_empty() && all_digits(t)
}

// The value of at most 12 digits.
pub fn value(t: &[u8]) -> u64
    requires { (all_digits t.now ≡ true) × (length t.now ≤ 12) }
    ensures { result ≡ value_of t.now }
{
    digits_in(t, 0, t.len()).value
}

// The text begins with a minus.
#[tactic(auto, using(crate::proofs::Sign::signs))]
pub fn has_minus(t: &[u8]) -> bool
    ensures { result ≡ has_minus t.now }
{
    matches!(t, [b'-', ..])
}

// What stands after the sign, if there is one.
#[tactic(auto, using(crate::proofs::Sign::signs))]
pub fn after_sign(t: &[u8]) -> &[u8]
    ensures { result.now ≡ after_sign t.now }
{
    match t {
        [b'+' | b'-', rest @ ..] => rest,
        _ => t,
    }
}

// The text from its first byte on that is no zero.
#[tactic(auto, using(crate::proofs::Zeros::trimmed))]
pub fn without_leading_zeros(t: &[u8]) -> &[u8]
    ensures { result.now ≡ drop_leading_zeros t.now }
{
    let mut rest = t;
    while let [b'0', others @ ..] = rest {
        rest = others;
    }
    rest
}

// The text up to its last byte that is no zero.
#[tactic(auto, using(crate::proofs::Zeros::trimmed))]
pub fn without_trailing_zeros(t: &[u8]) -> &[u8]
    ensures { result.now ≡ drop_trailing_zeros t.now }
{
    let mut rest = t;
    while let [others @ .., b'0'] = rest {
        rest = others;
    }
    rest
}

// The place after the sign at a place, or that place where there is none.
#[tactic(auto, using(crate::proofs::Sign::places))]
fn past_sign(s: &[u8], at: usize) -> usize
    requires { at ≤ length s.now }
    ensures { result ≡ past_sign s.now at }
{
    match s.get(at) {
        Some(b'+' | b'-') => at + 1,
        _ => at,
    }
}

// The coordinate of at most limit digits that stands at a place, and the place after it.
pub fn coordinate_at(s: &[u8], at: usize, limit: usize) -> Taken
    requires { (at ≤ length s.now) × (limit ≤ 12) }
    ensures { result ≡ coordinate_at s.now at limit }
{
    let minus = base::byte_at(s, at) == b'-';
    let from = past_sign(s, at);
    let digits = digits_in(s, from, s.len().min(from + limit));
    let next = past_digits(s, digits.next);
    if next == from {
        return Taken {
            coordinate: Err(NumberError::NotForm),
            next,
        };
    }
    if digits.next < next {
        return Taken {
            coordinate: Err(NumberError::TooLong),
            next,
        };
    }
    Taken {
        coordinate: Ok(ints::with_sign(minus, digits.value)),
        next,
    }
}

// s[from..to] as a number of digits alone.
pub fn natural(s: &[u8], from: usize, to: usize) -> Result<u64, NumberError>
    ensures { result ≡ natural_of (slice from to s.now) }
{
    let text = base::part(s, from, to);
    if !is_number(text) {
        return Err(NumberError::NotForm);
    }
    let digits = without_leading_zeros(text);
    if 12 < digits.len() {
        return Err(NumberError::TooLong);
    }
    Ok(value(digits))
}
