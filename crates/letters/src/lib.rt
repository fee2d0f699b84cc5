// Letters beyond ASCII: well-formed UTF-8 from U+0080 up, byte by byte, a lead and the bytes that follow it.
#![tactic(auto)]

ghost use Rattle.std.specs.Prelude.{◌≡◌};
ghost use Rattle.letters.specs.Table.{follow, nothing, lead_of, is_whole, takes, fed};

// What must follow: `left` bytes, the first of them from low to high, the others from 80 to BF. Nothing where left is 0.
#[derive(Clone, Copy)]
pub struct Follow {
    low: u8,
    high: u8,
    left: usize,
}

// Made of its three numbers.
fn to_follow(low: u8, high: u8, left: usize) -> Follow
    ensures { result ≡ follow low high left }
{
    Follow { low, high, left }
}

// Nothing follows.
pub fn none() -> Follow
    ensures { result ≡ nothing }
{
    to_follow(0, 0, 0)
}

// What must follow this byte; nothing where it begins no sequence.
#[tactic(auto, using(base::proofs::Or::joins), unfolding(crate::specs::Table::lead_of, crate::specs::Table::lead_in, crate::specs::Table::table, crate::specs::Table::within))]
pub fn lead(b: u8) -> Follow
    ensures { result ≡ lead_of b }
{
    match b {
        0xC2..=0xDF => to_follow(0x80, 0xBF, 1),
        0xE0 => to_follow(0xA0, 0xBF, 2),
        0xE1..=0xEC => to_follow(0x80, 0xBF, 2),
        0xED => to_follow(0x80, 0x9F, 2),
        0xEE..=0xEF => to_follow(0x80, 0xBF, 2),
        0xF0 => to_follow(0x90, 0xBF, 3),
        0xF1..=0xF3 => to_follow(0x80, 0xBF, 3),
        0xF4 => to_follow(0x80, 0x8F, 3),
        _ => none(),
    }
}

// Nothing must follow.
pub fn is_whole(f: Follow) -> bool
    ensures { result ≡ is_whole f }
{
    f.left == 0
}

// This byte may come next.
#[tactic(auto, unfolding(crate::specs::Table::takes, crate::specs::Table::within))]
pub fn does_take(f: Follow, b: u8) -> bool
    ensures { result ≡ takes f b }
{
    base::between(f.low, b, f.high)
}

// What must follow once a byte has come.
#[tactic(auto, unfolding(crate::specs::Table::fed))]
pub fn feed(f: Follow) -> Follow
    ensures { result ≡ fed f }
{
    to_follow(0x80, 0xBF, f.left.saturating_sub(1))
}
