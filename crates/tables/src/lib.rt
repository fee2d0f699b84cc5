// The tables of apertures and macros while a file is read: records that are found by number or by name (docs/SHEET.md, decision 209).
#![tactic(auto)]

ghost use Rattle.std.specs.Prelude.{◌≡◌, ◌≤◌, length};
ghost use Rattle.index.specs.Tree.{record_width};
ghost use Rattle.tables.specs.Added.{has_room, added};
ghost use Rattle.tables.specs.Apertures.{aperture_words};
ghost use Rattle.tables.specs.Macros.{macro_room, macro_of, macro_words};

use sheet::Aperture;

// The words of a macro.
pub const MACRO_WORDS: usize = 8;

// Where a macro's name and its blocks begin and end in the file.
#[derive(Clone, Copy)]
pub struct Macro {
    pub from: usize,
    pub to: usize,
    pub first: usize,
    pub end: usize,
}

// Stores the words w of a record after the records in use, and lets a link lead there; without room for them nothing changes.
fn put_record(s: &mut [u64], used: usize, link: usize, w: &[u64]) -> bool
    requires { length w.now ≡ record_width }
    ensures { (result ≡ has_room s.old used) × (s.new ≡ added s.old used link w.now) }
{
    if used < s.len() / index::RECORD_WORDS {
        sheet::put_words(s, used * index::RECORD_WORDS, w);
        base::put(s, link, used as u64);
        return true;
    }
    false
}

// An aperture more, at the link that `index::search_number` found free for its number.
#[tactic(auto, unfolding(crate::specs::Apertures::aperture_words))]
pub fn put_aperture(a: &mut [u64], used: usize, link: usize, r: Aperture) -> bool
    ensures { (result ≡ has_room a.old used) × (a.new ≡ added a.old used link (aperture_words r)) }
{
    let w = [r.number, r.kind, r.first, r.len, r.items, r.height, 0, 0];
    put_record(a, used, link, &w)
}

// Macro record i.
#[tactic(auto, unfolding(crate::specs::Macros::macro_of))]
pub fn macro_at(m: &[u64], i: usize) -> Macro
    requires { i ≤ macro_room m.now }
    ensures { result ≡ macro_of m.now i }
{
    let p = i * MACRO_WORDS;
    Macro {
        from: base::word_at(m, p) as usize,
        to: base::word_at(m, p + 1) as usize,
        first: base::word_at(m, p + 2) as usize,
        end: base::word_at(m, p + 3) as usize,
    }
}

// A macro more, at the link that `index::search_name` found free for its name.
#[tactic(auto, unfolding(crate::specs::Macros::macro_words))]
pub fn put_macro(m: &mut [u64], used: usize, link: usize, r: Macro) -> bool
    ensures { (result ≡ has_room m.old used) × (m.new ≡ added m.old used link (macro_words r)) }
{
    let w = [
        r.from as u64,
        r.to as u64,
        r.first as u64,
        r.end as u64,
        0,
        0,
        0,
        0,
    ];
    put_record(m, used, link, &w)
}
