// The address of an item, and the item that an address names, by descent: no copy is written out. Each undoes the other.
#![tactic(auto)]

ghost use Rattle.std.specs.Prelude.{◌≡◌, ◌≤◌, ◌+◌, suc, ◌/◌, ◌%◌, ◌<◌, cond, true, length, get_or, drop, replicate, []};
ghost use Rattle.base.specs.Run.{sums};
ghost use Rattle.sheet.specs.Records.{entry_room, role_of};
ghost use Rattle.law_addresses.specs.Positions.{stands, stands_at, span_of, span_at, spot, Reaches, Spans};
ghost use Rattle.sheet.specs.Containers.{top_of, body_of};
ghost use Rattle.sheet.specs.Valid.{valid, most};
ghost use Rattle.sheet.specs.declared.Role.TheVariants.{Repeats};
ghost use Rattle.law_addresses.specs.Sought.{further, all_zero, sought, sought_top_as, sought_top};
ghost use Rattle.address.specs.Looking.{look_as, look_of, Lower, Fits, UsesKnown, Seeks, Down, Copied, AtTop};
ghost use Rattle.address.specs.Answers.{reply_of};
ghost use Rattle.descend.specs.Search.{Held};
ghost use Rattle.law_addresses.specs.Chains.{chains};
ghost use Rattle.address.specs.Writing.{Steps, Writes};
ghost use Rattle.law_addresses.specs.Addresses.{sheet_addresses};
ghost use Rattle.address.specs.declared.Start.TheVariants.{Copy};
ghost use Rattle.address.specs.Starting.{Starts, Asked};
ghost use Rattle.address.specs.Addressed.{address_number, address_words};
ghost use Rattle.address.specs.Again.{item_again, address_again};

use law_addresses::Spot;
use sheet::{Container, Entry, Role};

// Positions in a container: what an entry takes of them, what stands before an entry, and which entry holds one.

#[tactic(auto, unfolding(law_addresses::specs::Positions::stands))]
fn stands_as(role: Role) -> u64
    ensures { result ≡ stands role }
{
    match role {
        Role::Draws | Role::Uses => 1,
        Role::Repeats | Role::Defines | Role::Unknown => 0,
    }
}

// The positions of n entries from p on, repeats left out.
fn standing(e: &[u64], p: usize, n: usize) -> u64
    requires { p + n ≤ entry_room e.now }
    ensures { result ≡ sums (stands_at e.now) p n }
{
    let mut so_far = 0;
    for i in 0..n {
        let r = sheet::entry_at(e, p + i);
        so_far += stands_as(sheet::role_of(r.kind));
    }
    so_far
}

// How many positions an entry takes.
#[tactic(auto, unfolding(law_addresses::specs::Positions::span_of, law_addresses::specs::Positions::span_as))]
fn span_of(e: &[u64], r: Entry) -> u64
    requires { Reaches e.now r }
    ensures { result ≡ span_of e.now r }
{
    match sheet::role_of(r.kind) {
        Role::Draws | Role::Uses => 1,
        Role::Repeats => standing(e, sheet::index(r.who), sheet::index(r.scale)),
        Role::Defines | Role::Unknown => 0,
    }
}

// The positions of n entries from p on. It adds as `standing` does: with what an entry takes passed in, a contract would have to say of
// that function where it may be called, what it answers and that the sum fits, which is longer than the loop.
fn spans(e: &[u64], p: usize, n: usize) -> u64
    requires { Spans e.now p n }
    ensures { result ≡ sums (span_at e.now) p n }
{
    let mut so_far = 0;
    for i in 0..n {
        so_far += span_of(e, sheet::entry_at(e, p + i));
    }
    so_far
}

// The first of n entries from p on that holds position m; the place after them where none does.
fn holder(e: &[u64], p: usize, n: usize, m: u64) -> Spot
    requires { Spans e.now p n }
    ensures { result ≡ spot (span_at e.now) p n m }
{
    let mut left = m;
    for i in 0..n {
        let span = span_of(e, sheet::entry_at(e, p + i));
        if left <= span {
            return Spot { entry: p + i, left };
        }
        left -= span;
    }
    Spot { entry: p + n, left }
}

// From an address to its item.

// Whether all words are 0.
fn all_zero(w: &[u64]) -> bool
    ensures { result ≡ all_zero w.now }
{
    w.iter().all(|&x| x == 0)
}

// An item of what lies below, counted from the start of what lies around it.
#[tactic(auto, unfolding(law_addresses::specs::Sought::further))]
fn further_on(b: u64, t: Option<u64>) -> Option<u64>
    requires { Fits b t }
    ensures { result ≡ further b t }
{
    t.map(|j| b + j)
}

// One step of a search: what is named, or the container to go down into and the items before it.
#[derive(Clone, Copy)]
pub enum Look {
    Is(Option<u64>),
    Below(u64, Container),
}

// An item that is drawn has nothing after its position.
fn drawn_at(before: u64, rest: &[u64]) -> Option<u64>
    ensures { result ≡ cond (all_zero rest.now) (Some before) None }
{
    all_zero(rest).then_some(before)
}

#[tactic(auto, unfolding(crate::specs::Looking::look_as))]
fn look_in(a: &[u64], r: Entry, rest: &[u64]) -> Look
    requires { UsesKnown a.now r }
    ensures { result ≡ look_as (role_of r.kind) a.now r rest.now }
{
    match sheet::role_of(r.kind) {
        Role::Draws => Look::Is(drawn_at(r.before, rest)),
        Role::Uses => Look::Below(r.before, sheet::block_at(a, sheet::index(r.who))),
        Role::Repeats | Role::Defines | Role::Unknown => Look::Is(None),
    }
}

fn look_at(e: &[u64], a: &[u64], k: Container, q: u64, rest: &[u64]) -> Look
    requires { Lower e.now a.now k }
    ensures { result ≡ look_of e.now a.now k q rest.now }
{
    let s = holder(e, k.first, k.len, q);
    if q == 0 || s.entry == k.first + k.len {
        return Look::Is(None);
    }
    look_in(a, sheet::entry_at(e, s.entry), rest)
}

// The item of a container at a position and the words after it.
fn seek(e: &[u64], a: &[u64], k: Container, q: u64, rest: &[u64]) -> Option<u64>
    requires { Seeks e.now a.now k (length rest.now) }
    ensures { result ≡ sought e.now a.now (suc (length rest.now)) k q rest.now }
{
    match look_at(e, a, k, q, rest) {
        Look::Is(t) => t,
        Look::Below(start, under) => further_on(
            start,
            seek(e, a, under, base::word_at(rest, 0), &rest[1..]),
        ),
    }
}

// An item of the block that an entry of the top level uses.
fn seek_use(e: &[u64], a: &[u64], before: u64, under: Container, rest: &[u64]) -> Option<u64>
    requires { Down e.now a.now before under (length rest.now) }
    ensures { result ≡ further before (sought e.now a.now (length rest.now) under (get_or rest.now 0 0) (drop 1 rest.now)) }
{
    further_on(
        before,
        seek(e, a, under, base::word_at(rest, 0), &rest[1..]),
    )
}

// An item of a copy of the body that one repeats.
fn seek_copy(e: &[u64], a: &[u64], copy: u64, left: u64, r: Entry, rest: &[u64]) -> Option<u64>
    requires { Copied e.now a.now r (length rest.now) }
    ensures { result ≡ sought_top_as Repeats e.now a.now copy left r rest.now }
{
    if copy == 0 || copy > r.sx * r.sy {
        return None;
    }
    let before = r.before + (copy - 1) * r.count;
    further_on(before, seek(e, a, sheet::body_of(r), left, rest))
}

// In the entry of the top level that holds the position.
fn seek_in(e: &[u64], a: &[u64], copy: u64, left: u64, r: Entry, rest: &[u64]) -> Option<u64>
    requires { AtTop e.now a.now r × (length rest.now ≡ 8) }
    ensures { result ≡ sought_top_as (role_of r.kind) e.now a.now copy left r rest.now }
{
    match sheet::role_of(r.kind) {
        Role::Draws => {
            if copy == 0 {
                return drawn_at(r.before, rest);
            }
            None
        }
        Role::Uses => {
            if copy == 0 {
                return seek_use(
                    e,
                    a,
                    r.before,
                    sheet::block_at(a, sheet::index(r.who)),
                    rest,
                );
            }
            None
        }
        Role::Repeats => seek_copy(e, a, copy, left, r, rest),
        Role::Defines => None,
        Role::Unknown => None,
    }
}

// The item that an address of ten words names.
fn seek_top(head: &[u64; 8], e: &[u64], a: &[u64], w: &[u64]) -> Option<u64>
    requires { (valid head.now e.now a.now ≡ true) × (length w.now ≡ 10) }
    ensures { result ≡ sought_top e.now a.now (top_of head.now) w.now }
{
    let top = sheet::top_of(head);
    let q = base::word_at(w, 1);
    let s = holder(e, top.first, top.len, q);
    if q == 0 || s.entry == top.first + top.len {
        return None;
    }
    let r = sheet::entry_at(e, s.entry);
    seek_in(e, a, base::word_at(w, 0), s.left, r, &w[2..])
}

// What a call for the item of an address answers: document 02's number, and the item.
#[derive(Clone, Copy)]
pub struct Reply {
    pub number: u64,
    pub item: u64,
}

// The item that an address names; 21 where the store is no sheet, 32 where the address names nothing, both with item 0.
pub fn item_of(head: &[u64; 8], e: &[u64], a: &[u64], address: &[u64; 10]) -> Reply
    ensures { result ≡ reply_of head.now e.now a.now address.now }
{
    if !inspect::is_sheet(head, e, a) {
        return Reply {
            number: 21,
            item: 0,
        };
    }
    match seek_top(head, e, a, address) {
        Some(item) => Reply { number: 0, item },
        None => Reply {
            number: 32,
            item: 0,
        },
    }
}

// From an item of a sheet to its address, by descent: no copy is written out.

// One step down to an item: it is drawn at a position, or is an item of the block that is flashed there.
#[derive(Clone, Copy)]
pub enum Stand {
    Here(u64),
    Below(u64, Container, u64),
}

fn stand_of(e: &[u64], a: &[u64], k: Container, n: u64) -> Stand
    requires { Held e.now a.now k n × (k.height ≤ 9) }
    ensures { Steps e.now a.now k n result }
{
    let q = descend::find(e, k, n);
    let r = sheet::entry_at(e, q);
    let p = spans(e, k.first, q - k.first) + 1;
    match sheet::role_of(r.kind) {
        Role::Uses => Stand::Below(p, sheet::block_at(a, sheet::index(r.who)), n - r.before),
        Role::Draws => Stand::Here(p),
        Role::Repeats => Stand::Here(p),
        Role::Defines => Stand::Here(p),
        Role::Unknown => Stand::Here(p),
    }
}

// Writes the positions of item n of a container, into as many words as it may be high.
fn write(e: &[u64], a: &[u64], k: Container, n: u64, out: &mut [u64])
    requires { Writes e.now a.now k n out.old }
    ensures { out.new ≡ get_or (chains e.now a.now (length out.old) k) n [] }
{
    match stand_of(e, a, k, n) {
        Stand::Here(p) => {
            out[0] = p;
        }
        Stand::Below(p, under, j) => {
            out[0] = p;
            write(e, a, under, j, &mut out[1..]);
        }
    }
}

// The address of an item of a sheet, by descent: no copy is written out.

// Where an item's address begins: it is drawn at a position of the top level, or lies in the block that is flashed there,
// or in a copy of a body whose positions go on from those before it.
#[derive(Clone, Copy)]
pub enum Start {
    Alone(u64),
    Flash(u64, Container, u64),
    Copy(u64, u64, Container, u64),
}

// Item j of the copies of a repeat, after b positions.
fn copy_in(r: Entry, b: u64, j: u64) -> Start
    requires { (0 < r.count) × (j ≤ most) }
    ensures { result ≡ Copy (j / r.count + 1) b (body_of r) (j % r.count) }
{
    let copy = j / r.count + 1;
    Start::Copy(copy, b, sheet::body_of(r), j % r.count)
}

// How the address of item n begins.
fn start_of(head: &[u64; 8], e: &[u64], a: &[u64], n: u64) -> Start
    requires { Asked head.now e.now a.now n }
    ensures { Starts head.now e.now a.now n result }
{
    let top = sheet::top_of(head);
    let q = descend::find(e, top, n);
    let r = sheet::entry_at(e, q);
    let b = spans(e, top.first, q - top.first);
    match sheet::role_of(r.kind) {
        Role::Uses => Start::Flash(b + 1, sheet::block_at(a, sheet::index(r.who)), n - r.before),
        Role::Repeats => copy_in(r, b, n - r.before),
        Role::Draws => Start::Alone(b + 1),
        Role::Defines => Start::Alone(b + 1),
        Role::Unknown => Start::Alone(b + 1),
    }
}

// Writes the address of item n into ten words that are all 0.
fn write_top(head: &[u64; 8], e: &[u64], a: &[u64], n: u64, out: &mut [u64])
    requires { Asked head.now e.now a.now n × (out.old ≡ replicate 10 0) }
    ensures { out.new ≡ get_or (sheet_addresses head.now e.now a.now) n [] }
{
    match start_of(head, e, a, n) {
        Start::Alone(p) => {
            out[1] = p;
        }
        Start::Flash(p, under, j) => {
            out[1] = p;
            write(e, a, under, j, &mut out[2..]);
        }
        Start::Copy(copy, b, under, j) => {
            out[0] = copy;
            write(e, a, under, j, &mut out[1..]);
            let first = base::word_at(out, 1);
            base::put(out, 1, b + first);
        }
    }
}

// The address of item k in ten words; 20 where k is the total or more and 21, before that, where the store is no sheet, both with zeros.
pub fn address_of(head: &[u64; 8], e: &[u64], a: &[u64], k: u64, out: &mut [u64; 10]) -> u64
    ensures { (result ≡ address_number head.now e.now a.now k)
        × (out.new ≡ address_words head.now e.now a.now k) }
{
    *out = [0; 10];
    if !inspect::is_sheet(head, e, a) {
        return 21;
    }
    if k >= sheet::top_of(head).items {
        return 20;
    }
    write_top(head, e, a, k, out);
    0
}

// From an item to its address and back, and from an address to its item and back: the two calls undo each other (document 02, request [12]).

// The item that the address of item k names: k itself; 20 where k is the total or more and 21, before that, where the store is no sheet, both with item 0.
pub fn item_again(head: &[u64; 8], e: &[u64], a: &[u64], k: u64) -> Reply
    ensures { result ≡ item_again head.now e.now a.now k }
{
    let mut words = [0; 10];
    let number = address_of(head, e, a, k, &mut words);
    if number == 0 {
        return item_of(head, e, a, &words);
    }
    Reply { number, item: 0 }
}

// The address of the item that an address names: the address itself; zeros where it names none, with the number of that.
pub fn address_again(
    head: &[u64; 8],
    e: &[u64],
    a: &[u64],
    address: &[u64; 10],
    out: &mut [u64; 10],
) -> u64
    ensures { (result ≡ (reply_of head.now e.now a.now address.now).number)
        × (out.new ≡ address_again head.now e.now a.now address.now) }
{
    let named = item_of(head, e, a, address);
    if named.number == 0 {
        return address_of(head, e, a, named.item, out);
    }
    *out = [0; 10];
    named.number
}
