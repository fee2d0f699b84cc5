// An item of a sheet as a part of a component layer: what it is to the bench, and what is noted of it.
#![tactic(auto)]

ghost use Rattle.std.specs.Prelude.{◌≡◌, ◌<◌};
ghost use Rattle.index.specs.Numbers.{Numbered};
ghost use Rattle.law_components.specs.Parts.{is_drawn};
ghost use Rattle.noting.specs.Holds.{role_number};
ghost use Rattle.seeing.specs.Roles.{role_by};
ghost use Rattle.seeing.specs.Layer.{Layer, SeenIs};

use law_components::Role;
use notes::Note;
use points::Point;
use sheet::Container;

// What an item is to the bench, its points, its place, and what is noted of the command that made it.
#[derive(Clone, Copy)]
pub struct Seen {
    pub role: Role,
    pub start: Point,
    pub end: Point,
    pub place: u64,
    pub note: Note,
}

// What the aperture with a number is for.
fn function_of(roles: &[u64], used: usize, number: u64) -> u64
    requires { Numbered roles.now used }
    ensures { result ≡ role_number roles.now used number }
{
    let found = index::search_number(roles, used, number);
    match found {
        Ok(i) => base::word_at(roles, i * index::RECORD_WORDS + 1),
        Err(_) => 0,
    }
}

// A line or an arc.
#[tactic(auto, using(base::proofs::Or::joins), unfolding(law_components::specs::Parts::is_drawn))]
fn is_drawn(kind: u64) -> bool
    ensures { result ≡ is_drawn kind }
{
    matches!(kind, 1..=3)
}

// The role of an item of a kind, whose aperture is for this.
#[tactic(auto, using(base::proofs::Or::joins), unfolding(crate::specs::Roles::role_by))]
fn role_by(kind: u64, function: u64) -> Role
    ensures { result ≡ role_by kind function }
{
    match (kind, function) {
        (4, 1) => Role::Main,
        (4, 2) => Role::Pin,
        (_, 3) if is_drawn(kind) => Role::Outline,
        _ => Role::Other,
    }
}

// Item k.
pub fn see(
    e: &[u64],
    a: &[u64],
    top: Container,
    notes: &[u64],
    operations: usize,
    roles: &[u64],
    roled: usize,
    k: u64,
) -> Seen
    requires { Layer e.now a.now top notes.now operations roles.now roled × (k < top.items) }
    ensures { (l : Layer e.now a.now top notes.now operations roles.now roled) → SeenIs l k result }
{
    let t = descend::item_at(e, a, 10, top, k);
    let role = role_by(t.kind, function_of(roles, roled, t.aperture));
    let note = notes::note_at(notes, notes::find(notes, operations, t.place));
    Seen {
        role,
        start: t.start,
        end: t.end,
        place: t.place,
        note,
    }
}
