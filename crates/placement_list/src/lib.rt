// The placement list of a component layer whose sheet is read and whose commands are noted, or its refusal.
#![tactic(auto)]

ghost use Rattle.std.specs.Prelude.{◌≡◌, true, false, ◌/◌, length, replicate};
ghost use Rattle.law_components.specs.Chain.{link_width};
ghost use Rattle.seeing.specs.Layer.{parts};
ghost use Rattle.placement_list.specs.Lists.{answered, judged_of, Lists, Layered};

use law_components::Pen;
use noting::Noting;
use sheet::Container;

// Document 01's number, 0 for a list, with the place; and how many bytes the list has.
#[derive(Clone, Copy)]
pub struct Answer {
    pub number: u64,
    pub place: usize,
    pub bytes: usize,
}

// A refusal.
pub fn refused(number: u64, place: usize) -> Answer
    ensures { result ≡ answered number place 0 }
{
    Answer {
        number,
        place,
        bytes: 0,
    }
}

// The answer after the last record; the room is cleared where the list does not fit.
fn finished(out: &mut [u8], pen: Pen) -> Answer
    ensures { (pen.full ≡ true → (result ≡ answered 17 0 0) × (out.new ≡ replicate (length out.old) 0))
        × (pen.full ≡ false → (result ≡ answered 0 0 pen.at) × (out.new ≡ out.old)) }
{
    if pen.full {
        mending::clear_bytes(out);
        return refused(17, 0);
    }
    Answer {
        number: 0,
        place: 0,
        bytes: pen.at,
    }
}

// The list, in a room of zeros: the first item at fault, then the pins of each main, then the records.
pub fn list(
    file: &[u8],
    e: &[u64],
    a: &[u64],
    top: Container,
    n: Noting,
    notes: &[u64],
    names: &mut [u64],
    roles: &[u64],
    pins: &mut [u64],
    out: &mut [u8],
) -> Answer
    requires { Layered file.now e.now a.now top n notes.now names.old roles.now out.old }
    ensures { (w : Layered file.now e.now a.now top n notes.now names.old roles.now out.old) →
        Lists (judged_of (length pins.old / link_width) (length out.old) (parts w.layer)) (parts w.layer) (length out.old) out.new result }
{
    let operations = n.operations;
    let roled = n.roles;
    let f = passes::faults(e, a, top, notes, operations, roles, roled, names);
    if f.number != 0 {
        return refused(f.number, sheet::index(f.place));
    }
    if passes::link_pins(e, a, top, notes, operations, roles, roled, names, pins) {
        let pen = list_writing::put_list(
            file, e, a, top, notes, operations, roles, roled, names, pins, out,
        );
        return finished(out, pen);
    }
    refused(17, 0)
}
