// The call for a placement list: reads the file, and lists the parts of a component layer, or refuses; nothing is trusted.
#![tactic(auto)]

ghost use Rattle.std.specs.Prelude.{◌≡◌, ◌/◌, ltb, length, replicate};
ghost use Rattle.base.specs.Or.{◌or◌};
ghost use Rattle.progress.specs.Lent.{lent_of};
ghost use Rattle.placement_call.specs.Placement.{work_of, is_tight_for, parts_in, refusal_in, Places};
ghost use Rattle.placement_call.specs.Sheeted.{Sheeted};
ghost use Rattle.placement_list.specs.Lists.{Lists};

use book::Book;
use noting::Noting;
use placement_list::Answer;

// Whether the room for the notes is short of what the file's commands need.
#[tactic(auto, using(base::proofs::Or::joins), unfolding(crate::specs::Placement::is_tight_for))]
fn is_tight(n: Noting, notes: &[u64], names: &[u64], roles: &[u64]) -> bool
    ensures { result ≡ is_tight_for (length notes.now) (length names.now) (length roles.now) n.operations n.settings n.apertures }
{
    n.operations > notes.len() / notes::NOTE_WORDS
        || (n.settings > names.len() / index::RECORD_WORDS
            || n.apertures > roles.len() / index::RECORD_WORDS)
}

// The list of a file that is read, in a room of zeros.
fn assemble(
    book: Book,
    file: &[u8],
    head: &[u64; 8],
    e: &[u64],
    a: &[u64],
    notes: &mut [u64],
    names: &mut [u64],
    roles: &mut [u64],
    pins: &mut [u64],
    out: &mut [u8],
) -> Answer
    requires { Sheeted book file.now head.now e.now a.now × (out.old ≡ replicate (length out.old) 0) }
    ensures { (w : Sheeted book file.now head.now e.now a.now) →
        Lists (refusal_in book file.now (work_of notes.old names.old roles.old pins.old) (length out.old) w.state)
        (parts_in book file.now w.state) (length out.old) out.new result }
{
    let n = noting::note_all(book, file, notes, names, roles);
    if n.component {
        if is_tight(n, notes, names, roles) {
            return placement_list::refused(17, 0);
        }
        let top = sheet::top_of(head);
        return placement_list::list(file, e, a, top, n, notes, names, roles, pins, out);
    }
    placement_list::refused(34, 0)
}

// Lists the parts of the component layer that the file is, by a book: the bytes of the list, and zeros after them in the output; or the
// reading's own number and place, 34 where it is no component layer, 17 where the room for the notes or for the links of the pins is short, the
// first item at fault by 26, 27 or 28 and its place, 17 where the list does not fit. A refusal leaves zeros in the output. The other lent words
// are left as a reading leaves them, and the work room as it may be.
pub fn placement(
    book: Book,
    file: &[u8],
    head: &mut [u64; 8],
    e: &mut [u64],
    a: &mut [u64],
    m: &mut [u64],
    numbers: &mut [i64],
    notes: &mut [u64],
    names: &mut [u64],
    roles: &mut [u64],
    pins: &mut [u64],
    out: &mut [u8],
) -> Answer
    ensures { Places book (lent_of file.now e.old a.old m.old numbers.old)
        (lent_of file.now e.new a.new m.new numbers.new) head.new
        (work_of notes.old names.old roles.old pins.old) (length out.old) out.new result }
{
    mending::clear_bytes(out);
    let r = reader::read_as(book, file, head, e, a, m, numbers);
    match r {
        Err(sequence::Refusal { number, place }) => placement_list::refused(number, place),
        Ok(_) => assemble(book, file, head, e, a, notes, names, roles, pins, out),
    }
}
