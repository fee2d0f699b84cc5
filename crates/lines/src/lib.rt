// The listing's lines, as bytes in a lent room.
#![tactic(auto)]

ghost use Rattle.std.specs.Prelude.{◌≡◌, ◌+◌, ◌≤◌, ◌++◌, length, drop};
ghost use Rattle.io.specs.Counts.{IsPrefixLen};
ghost use Rattle.lines.specs.Line.{Added, decimal_of, signed_of, kind_of, field_of, line_of};

// Puts bytes after those before a place, and answers the place after them.
pub fn add(out: &mut [u8], at: usize, s: &[u8]) -> usize
    requires { at + length s.now ≤ length out.old }
    ensures { Added out.old out.new at result s.now }
{
    let end = at + s.len();
    out[at..end].copy_from_slice(s);
    end
}

// A number of digits alone.
fn add_number(out: &mut [u8], at: usize, n: u64) -> usize
    requires { at + 20 ≤ length out.old }
    ensures { Added out.old out.new at result (decimal_of n) }
{
    let mut digits = [0u8; 20];
    let n = io::decimal(n, &mut digits);
    add(out, at, &digits[..n])
}

// A word as the signed number that it is.
pub fn add_signed(out: &mut [u8], at: usize, w: u64) -> usize
    requires { at + 21 ≤ length out.old }
    ensures { Added out.old out.new at result (signed_of w) }
{
    if w >= 9223372036854775808 {
        let from = add(out, at, b"-");
        return add_number(out, from, w.wrapping_neg());
    }
    add_number(out, at, w)
}

// The name of a kind, by its word.
#[tactic(auto, unfolding(crate::specs::Line::kind_of, text::specs::Text::text))]
fn kind_name(w: u64) -> &'static [u8]
    ensures name { result.now ≡ kind_of w }
    ensures short { length result.now ≤ 21 }
{
    match w {
        1 => b"line",
        2 => b"cw",
        3 => b"ccw",
        4 => b"flash",
        5 => b"contour",
        6 => b"edge-line",
        7 => b"edge-cw",
        8 => b"edge-ccw",
        _ => b"",
    }
}

// A kind by its word.
fn add_kind(out: &mut [u8], at: usize, w: u64) -> usize
    requires { at + 21 ≤ length out.old }
    ensures { Added out.old out.new at result (kind_of w) }
{
    add(out, at, kind_name(w))
}

// Word i of an item, after a tab.
fn add_field(out: &mut [u8], at: usize, i: usize, w: u64) -> usize
    requires { at + 22 ≤ length out.old }
    ensures { Added out.old out.new at result (field_of i w) }
{
    let from = add(out, at, b"\t");
    match i {
        0 => add_kind(out, from, w),
        2 if w == 0 => add(out, from, b"dark"),
        2 => add(out, from, b"clear"),
        _ => add_signed(out, from, w),
    }
}

// The line of item k, whose words these are, in a room for the longest line: how many bytes it takes. Those after it stay.
pub fn item_line(out: &mut [u8; 351], k: u64, words: &[u64]) -> usize
    ensures prefix_len { IsPrefixLen result out.new }
    ensures out_after { out.new ≡ line_of k words.now ++ drop result out.old }
{
    let mut at = add_number(out, 0, k);
    for i in 0..place::ITEM_WORDS {
        at = add_field(out, at, i, base::word_at(words, i));
    }
    add(out, at, b"\n")
}
