// Names of a file, kept in two words each and found by a search tree: four times as many as in records of eight words.
#![tactic(auto)]

ghost use Rattle.std.specs.Prelude.{◌≡◌, ◌+◌, ◌*◌, ◌/◌, ◌%◌, ◌≤◌, ◌<◌, length, get_or, set};
ghost use Rattle.std.proofs.Math.Seq.{slice};
ghost use Rattle.base.specs.Bytes.{same_bytes};
ghost use Rattle.index.specs.Tree.{link_word};
ghost use Rattle.index.specs.Names.{name_of, named, Named};
ghost use Rattle.tables.specs.Added.{has_room, added};
ghost use Rattle.register.specs.Wide.{wide, name_words, relinked, search_of, record_of};

// The words of a name.
const NAME_WORDS: usize = 2;

// The record whose link, high or low, is to lead to a new one.
#[derive(Clone, Copy)]
pub struct Free {
    pub at: usize,
    pub high: bool,
}

// The halves of a word.
fn upper(w: u64) -> usize
    ensures { result ≡ w / 4294967296 }
{
    (w / 4294967296) as usize
}

fn lower(w: u64) -> usize
    ensures { result ≡ w % 4294967296 }
{
    (w % 4294967296) as usize
}

// A word of two halves.
fn halves(a: usize, b: usize) -> u64
    requires { (a < 4294967296) × (b < 4294967296) }
    ensures { result ≡ a * 4294967296 + b }
{
    (a * 4294967296 + b) as u64
}

// The record that record i leads on to, high or low.
fn led(s: &[u64], i: usize, high: bool) -> usize
    requires { i < length s.now / 2 }
    ensures { result ≡ get_or (wide s.now) (link_word i high) 0 }
{
    let links = base::word_at(s, i * NAME_WORDS + 1);
    if high {
        return lower(links);
    }
    upper(links)
}

// Whether record i has the name file[from..to].
fn has_name(file: &[u8], s: &[u64], i: usize, from: usize, to: usize) -> bool
    requires { i < length s.now / 2 }
    ensures { result ≡ same_bytes (name_of file.now (wide s.now) i) (slice from to file.now) }
{
    let name = base::word_at(s, i * NAME_WORDS);
    base::part(file, upper(name), lower(name)) == base::part(file, from, to)
}

// The record, of the first `used`, that has the name file[from..to].
pub fn find(file: &[u8], s: &[u64], used: usize, from: usize, to: usize) -> Result<usize, Free>
    requires { Named file.now (wide s.now) used × (from ≤ to) × (to ≤ length file.now) }
    ensures { (search_of result ≡ named file.now (wide s.now) used (slice from to file.now)) × (record_of result ≤ used) }
{
    let mut d: usize = 0;
    let mut high = index::name_bit(file, from, to, d);
    if used == 0 {
        return Err(Free { at: 0, high });
    }
    let mut at: usize = 0;
    // Each record says by a link which comes next: no iterator walks so.
    while !has_name(file, s, at, from, to) {
        let next = led(s, at, high);
        if next == 0 {
            return Err(Free { at, high });
        }
        d += 1;
        at = next;
        high = index::name_bit(file, from, to, d);
    }
    Ok(at)
}

// Has a link of record i lead to record `new`.
fn relink(s: &mut [u64], i: usize, high: bool, new: usize)
    requires { (i < length s.old / 2) × (new < 4294967296) }
    ensures { s.new ≡ set s.old (i * 2 + 1) (relinked high (get_or s.old (i * 2 + 1) 0) new) }
{
    let at = i * NAME_WORDS + 1;
    let links = base::word_at(s, at);
    if high {
        base::put(s, at, halves(upper(links), new));
        return;
    }
    base::put(s, at, halves(new, lower(links)));
}

// The name file[from..to] as a record more, at the link that `find` found free for it; without room nothing changes.
pub fn put(s: &mut [u64], used: usize, at: usize, high: bool, from: usize, to: usize) -> bool
    requires { (length s.old / 2 ≤ 4294967296) × (at ≤ used) × (from < 4294967296) × (to < 4294967296) }
    ensures { (result ≡ has_room (wide s.old) used)
        × (wide s.new ≡ added (wide s.old) used (link_word at high) (name_words from to)) }
{
    if used < s.len() / NAME_WORDS {
        base::put(s, used * NAME_WORDS, halves(from, to));
        base::put(s, used * NAME_WORDS + 1, 0);
        relink(s, at, high, used);
        return true;
    }
    false
}
