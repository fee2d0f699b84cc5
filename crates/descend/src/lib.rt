// The total, one item, and a run of items of a sheet, by descent: no copy is written out.
#![tactic(auto)]

ghost use Rattle.std.specs.Prelude.{◌≡◌, ◌≤◌, ◌<◌, ◌+◌, length, replicate};
ghost use Rattle.place.specs.Item.{item_width};
ghost use Rattle.sheet.specs.Records.{entry_of, entry_room, stored};
ghost use Rattle.sheet.specs.Meaning.{items};
ghost use Rattle.descend.specs.Search.{Searched, Found, Held, Split, copy_of, Descends, Asked, Answered, Whole};
ghost use Rattle.descend.specs.Answers.{total_of, answer_of};
ghost use Rattle.descend.specs.Slots.{item_words, slots, fetch_of, fetched};

use place::{Item, Pose};
use sheet::{Container, Entry, Role};

// How many items stand before entry i in its container.
fn before_at(e: &[u64], i: usize) -> u64
    requires { i < entry_room e.now }
    ensures { result ≡ (entry_of e.now i).before }
{
    e[i * sheet::ENTRY_WORDS + 1]
}

// The last entry of a container that has at most n items before it; there is one such (`found_once`).
pub fn find(e: &[u64], k: Container, n: u64) -> usize
    requires { Searched e.now k n }
    ensures { Found e.now k n result }
{
    let mut low = k.first;
    let mut high = k.first + k.len;
    // The library's search goes over a slice of entries, and here are their words.
    while low + 1 < high {
        let middle = low + (high - low) / 2;
        if before_at(e, middle) <= n {
            low = middle;
        } else {
            high = middle;
        }
    }
    low
}

// One step of the descent: the item itself, or which item of which lower container it is, and how that is put out: by a copy of a
// repeat, or by the flash of a block at a place.
#[derive(Clone, Copy)]
pub enum Step {
    Here(Item),
    Copied(Container, u64, Pose),
    Flashed(Container, u64, Pose, u64),
}

// Item j of the copies of a repeat: which item of the body, in which copy.
#[tactic(auto, unfolding(crate::specs::Search::copy_of))]
fn copy_of(r: Entry, j: u64) -> Step
    requires { Split r j }
    ensures { result ≡ copy_of r j }
{
    let m = r.count;
    let column = r.sy * m;
    let q = j % column;
    let pose = place::step_to(sheet::repeat_of(r), j / column, q / m);
    Step::Copied(sheet::body_of(r), q % m, pose)
}

// Where item n of a container lies.
fn descend(e: &[u64], a: &[u64], k: Container, n: u64) -> Step
    requires { Held e.now a.now k n }
    ensures { Descends e.now a.now k n result }
{
    let r = sheet::whole_entry(e, find(e, k, n));
    let j = n - r.before;
    match sheet::role_of(r.kind) {
        Role::Uses => Step::Flashed(
            sheet::block_at(a, sheet::index(r.who)),
            j,
            sheet::pose_of(r),
            r.place,
        ),
        Role::Repeats => copy_of(r, j),
        Role::Draws | Role::Defines | Role::Unknown => Step::Here(sheet::draw(r)),
    }
}

// Item n of a container, which is no higher than `left`.
pub fn item_at(e: &[u64], a: &[u64], left: u64, k: Container, n: u64) -> Item
    requires { Asked e.now a.now left k n }
    ensures { Answered e.now a.now left k n result }
{
    match descend(e, a, k, n) {
        Step::Here(t) => t,
        Step::Copied(under, j, m) => place::place_item(m, item_at(e, a, left - 1, under, j)),
        Step::Flashed(under, j, m, place) => place::flash_item(
            place,
            m,
            item_at(e, a, left - 1, under, j),
        ),
    }
}

// Why no item is answered: 20, past the last; 21, not a sheet.
#[derive(Clone, Copy)]
pub enum Unanswered {
    Past,
    NotSheet,
}

// The number of items of a sheet.
pub fn sheet_total(head: &[u64; 8], e: &[u64], a: &[u64]) -> Option<u64>
    ensures { result ≡ total_of head.now e.now a.now }
{
    if inspect::is_sheet(head, e, a) {
        Some(head[7])
    } else {
        None
    }
}

// Item n of a sheet.
pub fn sheet_item(head: &[u64; 8], e: &[u64], a: &[u64], n: u64) -> Result<Item, Unanswered>
    ensures { result ≡ answer_of head.now e.now a.now n }
{
    if !inspect::is_sheet(head, e, a) {
        return Err(Unanswered::NotSheet);
    }
    let top = sheet::top_of(head);
    if n >= top.items {
        return Err(Unanswered::Past);
    }
    Ok(item_at(e, a, 10, top, n))
}

// Stores an item's words from a place on.
#[tactic(auto, unfolding(crate::specs::Slots::item_words))]
fn put_item(out: &mut [u64], at: usize, t: Item)
    requires { at + item_width ≤ length out.old }
    ensures { out.new ≡ stored out.old at (item_words t) }
{
    let w = [
        t.kind,
        t.aperture,
        sheet::flag_word(t.clear),
        sheet::flag_word(t.flip),
        t.angle,
        t.scale,
        sheet::x_word(t.start),
        sheet::y_word(t.start),
        sheet::x_word(t.end),
        sheet::y_word(t.end),
        sheet::x_word(t.centre),
        sheet::y_word(t.centre),
        t.count,
        t.place,
        t.outer,
    ];
    sheet::put_words(out, at, &w);
}

// Items n, n + 1, .. of a container, into words that are all 0.
fn fill(e: &[u64], a: &[u64], k: Container, n: u64, out: &mut [u64])
    requires { Whole e.now a.now k n × (out.old ≡ replicate (length out.old) 0) }
    ensures { out.new ≡ slots (items e.now a.now 10 k) n (length out.old) }
{
    let room = out.len() / place::ITEM_WORDS;
    for j in 0..room {
        let i = n + j as u64;
        if i >= k.items {
            return;
        }
        put_item(out, j * place::ITEM_WORDS, item_at(e, a, 10, k, i));
    }
}

// Items n, n + 1, .. of a sheet, in as many slots as there is room for; the store is looked at once.
pub fn sheet_run(
    head: &[u64; 8],
    e: &[u64],
    a: &[u64],
    n: u64,
    out: &mut [u64],
) -> Result<(), Unanswered>
    ensures { (result ≡ fetch_of head.now e.now a.now n)
        × (out.new ≡ fetched head.now e.now a.now n (length out.old)) }
{
    base::clear(out);
    if !inspect::is_sheet(head, e, a) {
        return Err(Unanswered::NotSheet);
    }
    let top = sheet::top_of(head);
    if n >= top.items {
        return Err(Unanswered::Past);
    }
    fill(e, a, top, n, out);
    Ok(())
}
