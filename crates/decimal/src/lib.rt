// Decimals: digits with an optional point, to the nearest millionth.
#![tactic(auto)]

ghost use Rattle.std.specs.Prelude.{◌≡◌, true, ◌≤◌, ◌^◌, length};
ghost use Rattle.std.proofs.Math.Seq.{slice};
ghost use Rattle.digits.specs.Digits.{all_digits};
ghost use Rattle.decimal.specs.Amounts.{at_least_zero, above_zero};
ghost use Rattle.decimal.specs.Decimal.{is_decimal, in_millionths, amount_of, numeral_of, decimal_of};
ghost use Rattle.decimal.specs.Kept.{in_six, carry_of};

mod answers;

pub use answers::{Amount, Decimal};
use digits::NumberError;

// At most six digits before the point and at most six after it, in millionths.
fn in_six(whole: &[u8], fraction: &[u8]) -> u64
    requires whole_value { (all_digits whole.now ≡ true) × (length whole.now ≤ 6) }
    requires fraction_value { (all_digits fraction.now ≡ true) × (length fraction.now ≤ 6) }
    ensures { result ≡ in_six whole.now fraction.now }
{
    digits::value(whole) * 1000000 + digits::value(fraction) * 10u64.pow(6 - fraction.len() as u32)
}

// One more where the seventh digit after the point says so: it alone decides, a five upwards.
fn carry(fraction: &[u8]) -> u64
    ensures { result ≡ carry_of fraction.now }
{
    u64::from(base::byte_at(fraction, 6) >= b'5')
}

// At most six digits before the point and any after it, in millionths.
fn in_millionths(whole: &[u8], fraction: &[u8]) -> u64
    requires whole_value { (all_digits whole.now ≡ true) × (length whole.now ≤ 6) }
    requires fraction_value { all_digits fraction.now ≡ true }
    ensures { result ≡ in_millionths whole.now fraction.now }
{
    in_six(whole, base::up_to(fraction, 6)) + carry(fraction)
}

// Digits before and after a point, one at least.
#[tactic(auto, using(base::proofs::Or::joins), unfolding(crate::specs::Decimal::is_decimal))]
fn is_decimal(whole: &[u8], fraction: &[u8]) -> bool
    ensures { result ≡ is_decimal whole.now fraction.now }
{
    digits::all_digits(whole) && digits::all_digits(fraction) && 1 <= whole.len() + fraction.len()
}

// What the digits that count are worth: those before the point and those after it.
fn amount(minus: bool, whole: &[u8], fraction: &[u8]) -> Result<Decimal, NumberError>
    requires { (all_digits whole.now ≡ true) × (all_digits fraction.now ≡ true) }
    ensures { result ≡ amount_of minus whole.now fraction.now }
{
    if 6 < whole.len() {
        return Err(NumberError::TooLong);
    }
    if 18 < fraction.len() {
        return Err(NumberError::TooLong);
    }
    let size = in_millionths(whole, fraction);
    if size >= 1000000000000 {
        return Err(NumberError::TooLong);
    }
    let amount = Amount {
        millionths: ints::with_sign(minus, size),
    };
    Ok(Decimal {
        amount,
        rounded: 7 <= fraction.len(),
    })
}

// What stands before the point and what stands after it, as a decimal.
fn numeral(minus: bool, whole: &[u8], fraction: &[u8]) -> Result<Decimal, NumberError>
    ensures { result ≡ numeral_of minus whole.now fraction.now }
{
    if is_decimal(whole, fraction) {
        return amount(
            minus,
            digits::without_leading_zeros(whole),
            digits::without_trailing_zeros(fraction),
        );
    }
    Err(NumberError::NotForm)
}

// s[from..to] as a decimal.
pub fn decimal(s: &[u8], from: usize, to: usize) -> Result<Decimal, NumberError>
    ensures { result ≡ decimal_of (slice from to s.now) }
{
    let text = base::part(s, from, to);
    let rest = digits::after_sign(text);
    numeral(
        digits::has_minus(text),
        text::before(rest, b'.'),
        text::after(rest, b'.'),
    )
}

// At least 0.
pub fn at_least_zero(a: Amount) -> bool
    ensures { result ≡ at_least_zero a }
{
    a.millionths >= 0
}

// Above 0.
pub fn above_zero(a: Amount) -> bool
    ensures { result ≡ above_zero a }
{
    a.millionths > 0
}
