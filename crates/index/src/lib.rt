// Finding a record by its number or its name without a pass over the records: a search tree in two words of each.
#![tactic(auto)]

ghost use Rattle.std.specs.Prelude.{◌≡◌, ◌+◌, ◌*◌, ◌/◌, ◌^◌, ◌≤◌, ◌<◌, length};
ghost use Rattle.std.proofs.Math.Seq.{slice};
ghost use Rattle.base.specs.Bytes.{same_bytes};
ghost use Rattle.index.specs.Tree.{record_width, link_word, is_high};
ghost use Rattle.index.specs.Numbers.{numbered, Numbered};
ghost use Rattle.index.specs.Names.{name_of, key_of, named, Named};

// The words of a record.
pub const RECORD_WORDS: usize = 8;

// The word of record i that leads on high, or low.
#[tactic(auto, unfolding(crate::specs::Tree::link_word))]
fn link_word(i: usize, high: bool) -> usize
    requires { i * record_width + record_width ≤ 18446744073709551615 }
    ensures { result ≡ link_word i high }
{
    if high {
        i * RECORD_WORDS + 7
    } else {
        i * RECORD_WORDS + 6
    }
}

// The record, of the first `used`, that has the number.
pub fn search_number(s: &[u64], used: usize, number: u64) -> Result<usize, usize>
    requires { Numbered s.now used }
    ensures { result ≡ numbered s.now used number }
{
    let mut key = number;
    let mut link = link_word(0, key % 2 == 1);
    if used == 0 {
        return Err(link);
    }
    let mut at: usize = 0;
    // From record to record by the links in them: no iterator walks so. The search for a name is a loop of its own, since there each
    // turn takes its bit from the file's bytes.
    while base::word_at(s, at * RECORD_WORDS) != number {
        let to = base::word_at(s, link) as usize;
        if to == 0 {
            return Err(link);
        }
        key /= 2;
        at = to;
        link = link_word(at, key % 2 == 1);
    }
    Ok(at)
}

// Bit r of a byte, counted from its lowest.
fn bit_of(b: u8, r: usize) -> bool
    requires { r < 8 }
    ensures { result ≡ is_high (b / 2 ^ r) }
{
    (b >> r) % 2 == 1
}

// Bit d of the key of the name file[from..to].
pub fn name_bit(file: &[u8], from: usize, to: usize, d: usize) -> bool
    requires { (from ≤ to) × (to ≤ length file.now) }
    ensures { result ≡ is_high (key_of (slice from to file.now) / 2 ^ d) }
{
    let q = d / 8;
    if to - from <= q {
        return false;
    }
    bit_of(base::byte_at(file, to - 1 - q), d % 8)
}

// Whether record i has the name file[from..to].
fn has_name(file: &[u8], s: &[u64], i: usize, from: usize, to: usize) -> bool
    requires { i * record_width + record_width ≤ 18446744073709551615 }
    ensures { result ≡ same_bytes (name_of file.now s.now i) (slice from to file.now) }
{
    let begins = base::word_at(s, i * RECORD_WORDS) as usize;
    let ends = base::word_at(s, i * RECORD_WORDS + 1) as usize;
    base::part(file, begins, ends) == base::part(file, from, to)
}

// The record, of the first `used`, that has the name file[from..to].
pub fn search_name(
    file: &[u8],
    s: &[u64],
    used: usize,
    from: usize,
    to: usize,
) -> Result<usize, usize>
    requires { Named file.now s.now used × (from ≤ to) × (to ≤ length file.now) }
    ensures { result ≡ named file.now s.now used (slice from to file.now) }
{
    let mut d: usize = 0;
    let mut link = link_word(0, name_bit(file, from, to, d));
    if used == 0 {
        return Err(link);
    }
    let mut at: usize = 0;
    // From record to record by the links in them, as for a number.
    while !has_name(file, s, at, from, to) {
        let next = base::word_at(s, link) as usize;
        if next == 0 {
            return Err(link);
        }
        d += 1;
        at = next;
        link = link_word(at, name_bit(file, from, to, d));
    }
    Ok(at)
}
