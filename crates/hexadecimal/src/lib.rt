// Bytes in hexadecimal digits, and digits compared.
#![tactic(auto)]

ghost use Rattle.std.specs.Prelude.{◌≡◌, ◌<◌};
ghost use Rattle.hexadecimal.specs.Digits.{hex_digits, small, same_digits};
ghost use Rattle.hexadecimal.specs.Hex.{digit, hex_of};

// A number below 16 as a digit.
#[tactic(auto, unfolding(crate::specs::Hex::digit))]
fn digit_of(n: u8) -> u8
    requires { n < 16 }
    ensures { result ≡ digit n }
{
    if n < 10 { b'0' + n } else { b'a' - 10 + n }
}

// Sixteen bytes, as a digest has, in hexadecimal digits.
pub fn hex(d: [u8; 16]) -> [u8; 32]
    ensures { result ≡ hex_of d }
{
    let mut h = [0; 32];
    for (i, b) in d.iter().enumerate() {
        h[2 * i] = digit_of(b / 16);
        h[2 * i + 1] = digit_of(b % 16);
    }
    h
}

// All bytes are hexadecimal digits, either case.
pub fn are_digits(s: &[u8]) -> bool
    ensures { result ≡ hex_digits s.now }
{
    s.iter().all(|b| b.is_ascii_hexdigit())
}

// A capital digit as the small letter.
#[tactic(auto, using(base::proofs::Or::joins), unfolding(crate::specs::Digits::small))]
fn small_of(b: u8) -> u8
    ensures { result ≡ small b }
{
    match b {
        b'A'..=b'F' => b + 32,
        _ => b,
    }
}

// The digits are those of w, which has small letters: a capital counts as its small letter.
pub fn same_digits(s: &[u8], w: &[u8]) -> bool
    ensures { result ≡ same_digits s.now w.now }
{
    s.len() == w.len() && s.iter().zip(w).all(|(a, b)| small_of(*a) == *b)
}
