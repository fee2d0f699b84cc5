// Items of a sheet in a list that the caller lends. The functions that take the list are thin: what a slot holds is `slot`'s matter.
#![tactic(auto)]

ghost use Rattle.std.specs.Prelude.{◌≡◌, ◌+◌, ◌≤◌, min, length, replicate};
ghost use Rattle.place.specs.Item.{zero_item};
ghost use Rattle.lists.specs.Lists.{number_of, held, slot_of, filled, batch_of};

use place::Item;

// Whether items can be answered from item k on: 0, or the refusal's number. The one look at the whole store.
fn number(head: &[u64; 8], e: &[u64], a: &[u64], k: u64) -> u64
    ensures { result ≡ number_of head.now e.now a.now k }
{
    if !inspect::is_sheet(head, e, a) {
        21
    } else if k >= head[7] {
        20
    } else {
        0
    }
}

// What slot i holds, where the store was looked at and n answered; k + i need not fit a word.
fn slot(head: &[u64; 8], e: &[u64], a: &[u64], n: u64, k: u64, i: usize) -> Item
    requires { n ≡ number_of head.now e.now a.now k }
    ensures { result ≡ slot_of (held head.now e.now a.now) (k + i) }
{
    if n != 0 {
        return place::zero_item();
    }
    let top = sheet::top_of(head);
    if (i as u64) >= top.items - k {
        return place::zero_item();
    }
    descend::item_at(e, a, 10, top, k + (i as u64))
}

// The list lent is filled from item k on.
pub fn fill(list: &mut [Item], head: &[u64; 8], e: &[u64], a: &[u64], k: u64) -> u64
    ensures { (result ≡ number_of head.now e.now a.now k)
        × (list.new ≡ filled head.now e.now a.now k (length list.old)) }
{
    let n = number(head, e, a, k);
    for (i, item) in list.iter_mut().enumerate() {
        *item = slot(head, e, a, n, k, i);
    }
    n
}

// Eight slots, and the number of the call that filled them.
#[derive(Clone, Copy)]
pub struct Batch {
    pub number: u64,
    pub items: [Item; 8],
}

// An array to lend.
fn blank() -> [Item; 8]
    ensures { result ≡ replicate 8 zero_item }
{
    [place::zero_item(); 8]
}

// The first m slots of an array are lent, and the array is handed back by value.
fn eight(head: &[u64; 8], e: &[u64], a: &[u64], k: u64, m: usize) -> Batch
    requires { m ≤ 8 }
    ensures { result ≡ batch_of head.now e.now a.now k m }
{
    let mut items = blank();
    let number = fill(&mut items[..m], head, e, a, k);
    Batch { number, items }
}

// Eight slots by value, of which the first m are filled from item k on, all eight where m is more: whoever calls this lends no list.
pub fn run_of(head: &[u64; 8], e: &[u64], a: &[u64], k: u64, m: usize) -> Batch
    ensures { result ≡ batch_of head.now e.now a.now k (min m 8) }
{
    eight(head, e, a, k, m.min(8))
}
