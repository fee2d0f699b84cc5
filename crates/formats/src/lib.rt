// The format of a file's coordinates: how FS writes it in each edition, and what the digits of a coordinate are worth in it.
#![tactic(auto)]

ghost use Rattle.std.specs.Prelude.{◌≡◌, ◌*◌, ◌-◌, ◌^◌, ◌<◌, ◌≤◌, ℤ, nat_abs, length};
ghost use Rattle.formats.specs.Format.{is_format, no_format, in_force, places_of, exact_places};
ghost use Rattle.formats.specs.Texts.{of_form, newer_format, old_format};
ghost use Rattle.formats.specs.Values.{taken_in};
ghost use Rattle.formats.specs.Raised.{Few, zeros_behind, raised};

use digits::{NumberError, Taken};

// How many digits of a coordinate stand before the point and how many after it, whether zeros are left out at its end and not at its
// front, and whether it counts from the point before. Both numbers are 0 before FS.
#[derive(Clone, Copy)]
pub struct Format {
    pub integers: usize,
    pub decimals: usize,
    pub trailing: bool,
    pub incremental: bool,
}

// Why FS gives no format.
#[derive(Clone, Copy)]
pub enum FormatError {
    // 4: not of its form
    NotForm,
    // 30: seven places, which are in the old book and are not read
    SevenPlaces,
}

// None, as it is before FS.
#[tactic(auto, unfolding(crate::specs::Format::no_format))]
pub fn no_format() -> Format
    ensures { result ≡ no_format }
{
    Format {
        integers: 0,
        decimals: 0,
        trailing: false,
        incremental: false,
    }
}

// The digit that a byte writes, 0 below '0'.
fn digit(b: u8) -> usize
    ensures { result ≡ b - 48 }
{
    usize::from(b.saturating_sub(b'0'))
}

// FS of the newer edition, of its data block without the `*`.
#[tactic(auto, using(base::proofs::Or::joins), unfolding(base::specs::Choose::pick, crate::specs::Format::newer, crate::specs::Texts::newer_format))]
pub fn newer_format(s: &[u8]) -> Result<Format, FormatError>
    ensures { result ≡ newer_format s.now }
{
    let n = base::byte_at(s, 5);
    let form = [b'F', b'S', b'L', b'A', b'X', n, b'6', b'Y', n, b'6'];
    if base::between(b'1', n, b'6') && text::is(s, &form) {
        Ok(Format {
            integers: digit(n),
            decimals: 6,
            trailing: false,
            incremental: false,
        })
    } else {
        Err(FormatError::NotForm)
    }
}

// FS of the old book with these letters and places is of its form; seven places are.
#[tactic(auto, using(base::proofs::Or::joins), unfolding(crate::specs::Texts::of_form))]
fn of_form(s: &[u8], zeros: u8, notation: u8, n: u8, m: u8) -> bool
    ensures { result ≡ of_form s.now zeros notation n m }
{
    let form = [b'F', b'S', zeros, notation, b'X', n, m, b'Y', n, m];
    text::one_of(b"LT", zeros)
        && text::one_of(b"AI", notation)
        && base::between(b'0', n, b'7')
        && base::between(b'0', m, b'7')
        && !(n == b'0' && m == b'0')
        && text::is(s, &form)
}

// FS of the old book, of its data block without the `*`.
#[tactic(auto, using(base::proofs::Or::joins), unfolding(base::specs::Choose::pick, crate::specs::Texts::old_format))]
pub fn old_format(s: &[u8]) -> Result<Format, FormatError>
    ensures { result ≡ old_format s.now }
{
    let zeros = base::byte_at(s, 2);
    let notation = base::byte_at(s, 3);
    let n = base::byte_at(s, 5);
    let m = base::byte_at(s, 6);
    if !of_form(s, zeros, notation, n, m) {
        return Err(FormatError::NotForm);
    }
    if n == b'7' || m == b'7' {
        return Err(FormatError::SevenPlaces);
    }
    Ok(Format {
        integers: digit(n),
        decimals: digit(m),
        trailing: zeros == b'T',
        incremental: notation == b'I',
    })
}

// The format is one that FS can write.
#[tactic(auto, using(base::proofs::Or::joins), unfolding(crate::specs::Format::is_format))]
fn is_format(f: Format) -> bool
    ensures { result ≡ is_format f }
{
    f.integers <= 6 && f.decimals <= 6 && !(f.integers == 0 && f.decimals == 0)
}

// The format by which coordinates are read: before FS twelve digits, as they are written.
#[tactic(auto, unfolding(crate::specs::Format::in_force, crate::specs::Format::newer, crate::specs::Format::no_format))]
fn in_force(f: Format) -> Format
    ensures { result ≡ in_force f }
{
    if is_format(f) {
        return f;
    }
    Format {
        integers: 6,
        decimals: 6,
        ..no_format()
    }
}

// How many digits a coordinate may have.
#[tactic(auto, unfolding(crate::specs::Format::places_of))]
fn places(f: Format) -> usize
    requires { Few f }
    ensures { result ≡ places_of f }
{
    f.integers + f.decimals
}

// How many digits a coordinate may have whose value is that of its digits as they are written; 0 where zeros stand after them.
#[tactic(auto, using(base::proofs::Or::joins), unfolding(crate::specs::Format::exact_places))]
pub fn exact_places(f: Format) -> usize
    ensures { result ≡ exact_places f }
{
    let g = in_force(f);
    if !g.trailing && g.decimals == 6 {
        places(g)
    } else {
        0
    }
}

// How many zeros stand in the value after the digits as they are written.
fn zeros_behind(f: Format, written: usize) -> usize
    requires { Few f }
    ensures { result ≡ zeros_behind f written }
{
    let left_out = places(f).saturating_sub(written);
    let millionths = 6 - f.decimals;
    if f.trailing {
        left_out + millionths
    } else {
        millionths
    }
}

// A coordinate as it was read, with so many zeros after it.
#[tactic(auto, unfolding(crate::specs::Raised::raised))]
fn raise(minus: bool, zeros: usize, c: Result<i64, NumberError>) -> Result<i64, NumberError>
    requires zeros_bound { zeros ≤ 12 }
    requires zeros_bound_2 { (z : ℤ) → c ≡ Ok z → nat_abs z * 10 ^ zeros < 10 ^ 12 }
    ensures { result ≡ raised minus zeros c }
{
    let z = c?;
    Ok(ints::with_sign(minus, ints::size(z) * 10u64.pow(zeros as u32)))
}

// The coordinate that stands at a place, by its format, and the place after it.
pub fn coordinate_in(f: Format, s: &[u8], at: usize) -> Taken
    requires { at ≤ length s.now }
    ensures { result ≡ taken_in f s.now at }
{
    let g = in_force(f);
    let taken = digits::coordinate_at(s, at, places(g));
    if !g.trailing && g.decimals == 6 {
        return taken;
    }
    let next = taken.next;
    let read = taken.coordinate;
    let text = base::part(s, at, next);
    let minus = digits::has_minus(text);
    let zeros = zeros_behind(g, digits::after_sign(text).len());
    Taken {
        coordinate: raise(minus, zeros, read),
        next,
    }
}
