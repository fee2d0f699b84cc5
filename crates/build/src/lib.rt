// Marks into the store as they come: items, flashes and openings, a contour's edges, closings and the end. docs/SHEET.md has the layout,
// decisions 231 and 232 what lies where meanwhile.
#![tactic(auto)]

ghost use Rattle.std.specs.Prelude.{◌≡◌, ◌+◌, ◌≤◌, ◌<◌, suc, ◌-◌, ◌*◌, ◌∷◌, [], ◌++◌, length, take, replicate};
ghost use Rattle.sheet.specs.Records.{entry_room, entry_of, aperture_width, aperture_room, stored};
ghost use Rattle.build.specs.Stack.{has_room, pushed, Turned};
ghost use Rattle.build.specs.Entries.{item_entry, use_entry, block_entry, repeat_entry};
ghost use Rattle.build.specs.Builder.{raised, grown, inner};
ghost use Rattle.build.specs.Counted.{counted, counted_at, edged};
ghost use Rattle.law_open_store.specs.Open.{opener};
ghost use Rattle.law_open_store.specs.Closing.{defines, repeats};
ghost use Rattle.build.specs.Closed.{Closes, Left, BlockClosed, RepeatClosed, Ended, head_of};

use place::{Item, Pose, Repeat};
use sheet::{Container, Entry};

// The room for entries while a file is read: closed containers from record 0 on, open ones on a stack that grows down from the last record (decision 231).

// Whether an entry more fits between what is closed and the stack.
pub fn has_room(e: &[u64], closed: usize, high: usize) -> bool
    ensures { result ≡ has_room e.now closed high }
{
    let room = e.len() / sheet::ENTRY_WORDS;
    high < room && closed < room - high
}

// Stores the next entry of the stack.
fn push(e: &mut [u64], high: usize, r: Entry)
    requires { high < entry_room e.old }
    ensures { e.new ≡ pushed e.old high r }
{
    sheet::put_entry(e, e.len() / sheet::ENTRY_WORDS - 1 - high, r);
}

// Turns the last n entries before record hi over to record lo: the last of them becomes the first.
fn turn_over(e: &mut [u64], lo: usize, hi: usize, n: usize)
    requires { (hi ≤ entry_room e.old) × (lo + n ≤ hi) }
    ensures { Turned e.old e.new lo hi n }
{
    for i in 0..n {
        let j = hi - 1 - i;
        if lo + i >= j {
            return;
        }
        let x = sheet::whole_entry(e, lo + i);
        let y = sheet::whole_entry(e, j);
        sheet::put_entry(e, lo + i, y);
        sheet::put_entry(e, j, x);
    }
}

// Items, flashes and openings.

// How far the store is built: entries closed and on the stack; where the innermost container starts, its height and its items so far.
// The top level has height 10, the body of a repeat 9, a block 1 to 8.
#[derive(Clone, Copy)]
pub struct Builder {
    pub closed: usize,
    pub high: usize,
    pub start: usize,
    pub height: u64,
    pub items: u64,
}

// The entry of an item.
#[tactic(auto, unfolding(crate::specs::Entries::item_entry))]
fn item_entry(before: u64, t: Item) -> Entry
    ensures { result ≡ item_entry before t }
{
    Entry {
        kind: t.kind,
        before,
        who: t.aperture,
        clear: sheet::flag_word(t.clear),
        flip: sheet::flag_word(t.flip),
        angle: t.angle,
        scale: t.scale,
        sx: sheet::x_word(t.start),
        sy: sheet::y_word(t.start),
        ex: sheet::x_word(t.end),
        ey: sheet::y_word(t.end),
        cx: sheet::x_word(t.centre),
        cy: sheet::y_word(t.centre),
        count: t.count,
        place: t.place,
    }
}

// The entry of a flash of the block in aperture record `who`.
#[tactic(auto, unfolding(crate::specs::Entries::use_entry))]
fn use_entry(before: u64, who: u64, m: Pose, place: u64) -> Entry
    ensures { result ≡ use_entry before who m place }
{
    Entry {
        kind: 9,
        before,
        who,
        clear: sheet::flag_word(m.clear),
        flip: sheet::flag_word(m.flip),
        angle: m.angle,
        ex: sheet::x_word(m.at),
        ey: sheet::y_word(m.at),
        place,
        ..Entry::default()
    }
}

// The entry that opens a block; the start and the height of the container around it are kept there meanwhile.
#[tactic(auto, unfolding(crate::specs::Entries::block_entry))]
fn block_entry(before: u64, who: u64, start: u64, height: u64, place: u64) -> Entry
    ensures { result ≡ block_entry before who start height place }
{
    Entry {
        kind: 11,
        before,
        who,
        sx: start,
        sy: height,
        place,
        ..Entry::default()
    }
}

// The entry that opens a repeat; the start of the top level is kept there meanwhile.
#[tactic(auto, unfolding(crate::specs::Entries::repeat_entry))]
fn repeat_entry(before: u64, start: u64, s: Repeat, place: u64) -> Entry
    ensures { result ≡ repeat_entry before start s place }
{
    Entry {
        kind: 10,
        before,
        who: start,
        sx: s.nx,
        sy: s.ny,
        cx: s.dx,
        cy: s.dy,
        place,
        ..Entry::default()
    }
}

// The height of a container in which a block of height k is flashed.
#[tactic(auto, unfolding(crate::specs::Builder::raised))]
fn raise(h: u64, k: u64) -> u64
    requires { k ≤ 8 }
    ensures { result ≡ raised h k }
{
    h.max(k + 1)
}

// An entry more in the innermost container, which puts out k items; there is room for it.
#[tactic(auto, unfolding(crate::specs::Builder::grown))]
fn add(e: &mut [u64], b: Builder, r: Entry, k: u64, h: u64) -> Builder
    requires high_bound { b.closed + b.high < entry_room e.old }
    requires k_bound { b.items + k ≤ 18446744073709551615 }
    ensures { (result ≡ grown b k h) × (e.new ≡ pushed e.old b.high r) }
{
    push(e, b.high, r);
    Builder {
        high: b.high + 1,
        height: h,
        items: b.items + k,
        ..b
    }
}

// An entry more, after which a container of height h opens; there is room for it.
#[tactic(auto, unfolding(crate::specs::Builder::inner))]
fn begin(e: &mut [u64], b: Builder, r: Entry, h: u64) -> Builder
    requires { b.closed + b.high < entry_room e.old }
    ensures { (result ≡ inner b h) × (e.new ≡ pushed e.old b.high r) }
{
    push(e, b.high, r);
    Builder {
        high: b.high + 1,
        start: b.high + 1,
        height: h,
        items: 0,
        ..b
    }
}

// Puts an item.
pub fn add_item(e: &mut [u64], b: Builder, t: Item) -> Builder
    requires high_bound { b.closed + b.high < entry_room e.old }
    requires b_bound { b.items ≤ 1000000000000 }
    ensures { (result ≡ grown b 1 b.height) × (e.new ≡ pushed e.old b.high (item_entry b.items t)) }
{
    add(e, b, item_entry(b.items, t), 1, b.height)
}

// Puts a flash of the block k, which aperture record `who` defines.
pub fn add_use(e: &mut [u64], b: Builder, who: u64, k: Container, m: Pose, place: u64) -> Builder
    requires high_bound { b.closed + b.high < entry_room e.old }
    requires b_bound { (b.items ≤ 1000000000000) × (k.items ≤ 1000000000000) × (k.height ≤ 8) }
    ensures { (result ≡ grown b k.items (raised b.height k.height))
        × (e.new ≡ pushed e.old b.high (use_entry b.items who m place)) }
{
    let h = raise(b.height, k.height);
    add(e, b, use_entry(b.items, who, m, place), k.items, h)
}

// Opens a block, in aperture record `who`.
pub fn open_block(e: &mut [u64], b: Builder, who: u64, place: u64) -> Builder
    requires { b.closed + b.high < entry_room e.old }
    ensures { (result ≡ inner b 1)
        × (e.new ≡ pushed e.old b.high (block_entry b.items who b.start b.height place)) }
{
    let r = block_entry(b.items, who, b.start as u64, b.height, place);
    begin(e, b, r, 1)
}

// Opens a repeat.
pub fn open_repeat(e: &mut [u64], b: Builder, s: Repeat, place: u64) -> Builder
    requires { b.closed + b.high < entry_room e.old }
    ensures { (result ≡ inner b 9)
        × (e.new ≡ pushed e.old b.high (repeat_entry b.items b.start s place)) }
{
    let r = repeat_entry(b.items, b.start as u64, s, place);
    begin(e, b, r, 9)
}

// A contour's edges: each is counted in the contour's entry and put after the others. The contour itself is put as an item without edges.

// The entry with one edge more.
#[tactic(auto, unfolding(crate::specs::Counted::counted))]
fn one_more(r: Entry) -> Entry
    requires { r.count ≤ 1000000000000 }
    ensures { result ≡ counted r }
{
    Entry {
        count: r.count + 1,
        ..r
    }
}

// Counts an edge more in the contour at place c of the stack.
fn count_edge(e: &mut [u64], c: usize)
    requires { (c < entry_room e.old) × ((entry_of e.old (entry_room e.old - suc c)).count ≤ 1000000000000) }
    ensures { e.new ≡ counted_at e.old c }
{
    let i = e.len() / sheet::ENTRY_WORDS - 1 - c;
    let r = one_more(sheet::entry_at(e, i));
    sheet::put_entry(e, i, r);
}

// Puts an edge of the contour at place c of the stack.
pub fn add_edge(e: &mut [u64], b: Builder, c: usize, t: Item) -> Builder
    requires high_bound { b.closed + b.high < entry_room e.old }
    requires b_bound { (b.items ≤ 1000000000000) × (c < b.high) × ((entry_of e.old (entry_room e.old - suc c)).count ≤ 1000000000000) }
    ensures { (result ≡ grown b 1 b.height) × (e.new ≡ edged e.old b c t) }
{
    count_edge(e, c);
    add_item(e, b, t)
}

// Blocks and repeats closed, and the sheet finished: the innermost container's entries are put after the closed ones.

const MARK: u64 = 5716828633109713478;

// The entry that a closed block leaves.
#[tactic(auto, unfolding(law_open_store::specs::Closing::defines))]
fn block_left(o: Entry) -> Entry
    ensures { result ≡ defines o }
{
    Entry {
        kind: 11,
        before: o.before,
        who: o.who,
        place: o.place,
        ..Entry::default()
    }
}

// The entry that a closed repeat leaves: its body is len entries from `first` on, with t items.
#[tactic(auto, unfolding(law_open_store::specs::Closing::repeats))]
fn repeat_left(o: Entry, first: u64, len: u64, t: u64) -> Entry
    ensures { result ≡ repeats o first len t }
{
    Entry {
        kind: 10,
        before: o.before,
        who: first,
        scale: len,
        sx: o.sx,
        sy: o.sy,
        cx: o.cx,
        cy: o.cy,
        count: t,
        place: o.place,
        ..Entry::default()
    }
}

// Puts the innermost container, turned over, after the closed ones, and leaves r for its opening entry.
fn settle(e: &mut [u64], b: Builder, r: Entry)
    requires { Closes e.old b }
    ensures { Left e.old e.new b r }
{
    let hi = e.len() / sheet::ENTRY_WORDS - b.start;
    turn_over(e, b.closed, hi, b.high - b.start);
    sheet::put_entry(e, hi, r);
}

// The entry that opened the innermost container.
fn opener_of(e: &[u64], b: Builder) -> Entry
    requires { Closes e.now b }
    ensures { result ≡ opener e.now (entry_room e.now) b.start }
{
    sheet::entry_at(e, e.len() / sheet::ENTRY_WORDS - b.start)
}

// Says of aperture record i that it is a block: len entries from `first` on, with t items, of height h.
fn put_block(a: &mut [u64], i: usize, first: u64, len: u64, t: u64, h: u64)
    requires { i < aperture_room a.old }
    ensures { a.new ≡ stored a.old (i * aperture_width + 1) (6 ∷ first ∷ len ∷ t ∷ h ∷ []) }
{
    let w = [6, first, len, t, h];
    sheet::put_words(a, i * sheet::APERTURE_WORDS + 1, &w);
}

// Closes the innermost block; the container around it goes on.
pub fn close_block(e: &mut [u64], a: &mut [u64], b: Builder) -> Builder
    requires { Closes e.old b × ((opener e.old (entry_room e.old) b.start).who < aperture_room a.old) }
    ensures { BlockClosed e.old e.new a.old a.new b result }
{
    let o = opener_of(e, b);
    let len = b.high - b.start;
    settle(e, b, block_left(o));
    put_block(
        a,
        sheet::index(o.who),
        b.closed as u64,
        len as u64,
        b.items,
        b.height,
    );
    Builder {
        closed: b.closed + len,
        high: b.start,
        start: sheet::index(o.sx),
        height: o.sy,
        items: o.before,
    }
}

// Closes the innermost repeat; the top level goes on, with the copies of its body.
pub fn close_repeat(e: &mut [u64], b: Builder, copies: u64) -> Builder
    requires { Closes e.old b × ((opener e.old (entry_room e.old) b.start).before + copies * b.items ≤ 1000000000000) }
    ensures { RepeatClosed e.old e.new b copies result }
{
    let o = opener_of(e, b);
    let len = b.high - b.start;
    settle(e, b, repeat_left(o, b.closed as u64, len as u64, b.items));
    Builder {
        closed: b.closed + len,
        high: b.start,
        start: sheet::index(o.who),
        height: 10,
        items: o.before + copies * b.items,
    }
}

// Zeros from a place on.
fn clear_from(e: &mut [u64], p: usize)
    requires { p ≤ length e.old }
    ensures { e.new ≡ take p e.old ++ replicate (length e.old - p) 0 }
{
    e[p..].fill(0);
}

// The end of the marks: the top level is put after all that is closed, and 0 after it.
pub fn finish(e: &mut [u64], b: Builder)
    requires { b.closed + b.high ≤ entry_room e.old }
    ensures { Ended e.old e.new b }
{
    let room = e.len() / sheet::ENTRY_WORDS;
    turn_over(e, b.closed, room, b.high);
    clear_from(e, (b.closed + b.high) * sheet::ENTRY_WORDS);
}

// The head of a sheet: what was used, and the top level.
#[tactic(auto, unfolding(crate::specs::Closed::head_of))]
pub fn head_words(unit: u64, b: Builder, apertures: u64, macros: u64, numbers: u64) -> [u64; 8]
    requires { b.closed + b.high ≤ 18446744073709551615 }
    ensures { result ≡ head_of unit b apertures macros numbers }
{
    let used = (b.closed + b.high) as u64;
    let len = b.high as u64;
    [MARK, unit, used, apertures, macros, numbers, len, b.items]
}
