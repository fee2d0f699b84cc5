// The passes over the items of a component layer: the first at fault, and the pins of each main.
#![tactic(auto)]

ghost use Rattle.std.specs.Prelude.{◌≡◌, cond, ◌+◌, ◌/◌, ◌<◌, length};
ghost use Rattle.law_components.specs.Parts.{is_outline};
ghost use Rattle.law_components.specs.Pass.{goes_on, is_open, outline_after, step_fault, end_fault, no_outline};
ghost use Rattle.index.specs.Tree.{record_width};
ghost use Rattle.law_components.specs.Chain.{link_width};
ghost use Rattle.seeing.specs.Layer.{Layer, parts};
ghost use Rattle.passes.specs.Words.{word_of, with_word, pin_word, main_as, pin_as, lacks_by, met_by, with_link};
ghost use Rattle.passes.specs.Marks.{Marked, Judged};
ghost use Rattle.passes.specs.Links.{Sound, Links};

use law_components::{Fault, Met, Outline, Role};
use notes::Note;
use points::Point;
use seeing::Seen;
use sheet::Container;

// One step of the pass that finds the first item at fault of a component layer.

// Whether an item of this role is an outline's.
#[tactic(auto, unfolding(law_components::specs::Parts::is_outline))]
fn is_outline(role: Role) -> bool
    ensures { result ≡ is_outline role }
{
    matches!(role, Role::Outline)
}

// Whether the item goes on with the outline.
#[tactic(auto, using(base::proofs::Or::joins), unfolding(law_components::specs::Pass::goes_on))]
fn goes_on(o: Outline, m: Met) -> bool
    ensures { result ≡ goes_on o m }
{
    o.under && (is_outline(m.role) && points::same_point(o.end, m.start))
}

// Whether the outline has not come back to where it began.
#[tactic(auto, using(base::proofs::Or::joins), unfolding(law_components::specs::Pass::is_open))]
fn is_open(o: Outline) -> bool
    ensures { result ≡ is_open o }
{
    o.under && !points::same_point(o.end, o.start)
}

// The outline after the item.
#[tactic(auto, unfolding(law_components::specs::Pass::outline_after))]
fn outline_after(o: Outline, m: Met) -> Outline
    ensures { result ≡ outline_after o m }
{
    let start = if goes_on(o, m) { o.start } else { m.start };
    Outline {
        under: is_outline(m.role),
        start,
        end: m.end,
        place: m.place,
    }
}

// What the pass finds with an item more: an open outline before it, or a fault of its own; number 0 where there is none.
#[tactic(auto, using(base::proofs::Or::joins), unfolding(law_components::specs::Pass::step_fault))]
fn step_fault(o: Outline, m: Met, again: bool) -> Fault
    ensures { result ≡ step_fault o m again }
{
    if is_open(o) && !goes_on(o, m) {
        Fault {
            number: 28,
            place: o.place,
        }
    } else if m.lacks {
        Fault {
            number: 26,
            place: m.place,
        }
    } else if again {
        Fault {
            number: 27,
            place: m.place,
        }
    } else {
        Fault {
            number: 0,
            place: 0,
        }
    }
}

// What it finds after the last item.
#[tactic(auto, unfolding(law_components::specs::Pass::end_fault))]
fn end_fault(o: Outline) -> Fault
    ensures { result ≡ end_fault o }
{
    if is_open(o) {
        Fault {
            number: 28,
            place: o.place,
        }
    } else {
        Fault {
            number: 0,
            place: 0,
        }
    }
}

// The passes, each over all items.

// Whether an item of a role lacks the attribute that it must have.
#[tactic(auto, unfolding(crate::specs::Words::lacks_by))]
fn lacks(role: Role, note: Note) -> bool
    ensures { result ≡ lacks_by role note }
{
    match role {
        Role::Main | Role::Outline => note.component == 0,
        Role::Pin => note.pin == 0,
        Role::Other => false,
    }
}

// What the pass asks of an item.
#[tactic(auto, unfolding(crate::specs::Words::met_by))]
fn met(s: Seen) -> Met
    ensures { result ≡ met_by s }
{
    Met {
        role: s.role,
        start: s.start,
        end: s.end,
        place: s.place,
        lacks: lacks(s.role, s.note),
    }
}

// The designator of a main, as it is noted; 0 of anything else.
#[tactic(auto, unfolding(crate::specs::Words::main_as))]
pub fn main_of(role: Role, note: Note) -> u64
    ensures { result ≡ main_as role note }
{
    match role {
        Role::Main => note.component,
        _ => 0,
    }
}

// The designator of a pin, likewise.
#[tactic(auto, unfolding(crate::specs::Words::pin_as))]
fn pin_of(role: Role, note: Note) -> u64
    ensures { result ≡ pin_as role note }
{
    match role {
        Role::Pin => note.pin,
        _ => 0,
    }
}

// Word i of a designator's record.
pub fn word_of(names: &[u64], d: u64, i: usize) -> u64
    requires { i < record_width }
    ensures { result ≡ word_of names.now d i }
{
    if d == 0 {
        return 0;
    }
    let j = sheet::index(d - 1);
    if j > names.len() {
        return 0;
    }
    base::word_at(names, j * index::RECORD_WORDS + i)
}

// Sets it.
fn set_word(names: &mut [u64], d: u64, i: usize, v: u64)
    requires { i < record_width }
    ensures { names.new ≡ with_word names.old d i v }
{
    if d == 0 {
        return;
    }
    let j = sheet::index(d - 1);
    if j > names.len() {
        return;
    }
    base::put(names, j * index::RECORD_WORDS + i, v);
}

// No outline is under way.
fn no_outline() -> Outline
    ensures { result ≡ no_outline }
{
    Outline {
        under: false,
        start: Point { x: 0, y: 0 },
        end: Point { x: 0, y: 0 },
        place: 0,
    }
}

// The first item at fault. After it, where there is none, each designator says whether it has a main.
pub fn faults(
    e: &[u64],
    a: &[u64],
    top: Container,
    notes: &[u64],
    operations: usize,
    roles: &[u64],
    roled: usize,
    names: &mut [u64],
) -> Fault
    requires { Layer e.now a.now top notes.now operations roles.now roled }
    ensures { (l : Layer e.now a.now top notes.now operations roles.now roled) →
        Marked l names.old 0 → Judged l names.new result }
{
    let mut o = no_outline();
    for k in 0..top.items {
        let s = seeing::see(e, a, top, notes, operations, roles, roled, k);
        let m = met(s);
        let d = main_of(s.role, s.note);
        let f = step_fault(o, m, word_of(names, d, 2) == 1);
        if f.number != 0 {
            return f;
        }
        set_word(names, d, 2, 1);
        o = outline_after(o, m);
    }
    end_fault(o)
}

// Puts a pin's number before the others of its designator.
fn put_link(names: &mut [u64], pins: &mut [u64], links: usize, d: u64, k: u64)
    requires { links < length pins.old / link_width }
    ensures { (pins.new ≡ with_link pins.old links k (word_of names.old d pin_word))
        × (names.new ≡ with_word names.old d pin_word (links + 1)) }
{
    base::put(pins, links * 2, k);
    base::put(pins, links * 2 + 1, word_of(names, d, 3));
    set_word(names, d, 3, links as u64 + 1);
}

// Links the pins of each main, from the last item to the first; false where there is no room for all.
pub fn link_pins(
    e: &[u64],
    a: &[u64],
    top: Container,
    notes: &[u64],
    operations: usize,
    roles: &[u64],
    roled: usize,
    names: &mut [u64],
    pins: &mut [u64],
) -> bool
    requires { Layer e.now a.now top notes.now operations roles.now roled }
    ensures { (l : Layer e.now a.now top notes.now operations roles.now roled) →
        Sound l → Marked l names.old (length (parts l)) → Links l names.new pins.new result }
{
    let mut links: usize = 0;
    for k in (0..top.items).rev() {
        let s = seeing::see(e, a, top, notes, operations, roles, roled, k);
        let d = pin_of(s.role, s.note);
        if word_of(names, d, 2) == 1 {
            if links >= pins.len() / 2 {
                return false;
            }
            put_link(names, pins, links, d, k);
            links += 1;
        }
    }
    true
}
