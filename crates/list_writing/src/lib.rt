// The placement list written into a lent room. Where it does not fit the pen is full, and stays so.
#![tactic(auto)]

ghost use Rattle.std.specs.Prelude.{◌++◌, List, ◌≡◌, false, ℕ, ◌≤◌, ◌<◌, length};
ghost use Rattle.text.specs.Text.{text};
ghost use Rattle.law_components.specs.Records.{numeral, point_text, main_row, pin_row};
ghost use Rattle.law_components.specs.Written.{Wrote};
ghost use Rattle.law_components.specs.Placements.{list_of};
ghost use Rattle.seeing.specs.Layer.{Layer, SeenIs, parts};
ghost use Rattle.passes.specs.Words.{word_of};
ghost use Rattle.list_writing.specs.Rows.{pin_by, main_by, pins_at};
ghost use Rattle.list_writing.specs.Walks.{Walks, Walking};
ghost use Rattle.list_writing.specs.Ready.{Ready};

use law_components::Pen;
use points::Point;
use seeing::Seen;
use sheet::Container;

// The records of the placement list, as bytes in a lent room. Where one does not fit the pen is full, and stays so.

// Puts bytes after what is written.
pub fn write(out: &mut [u8], pen: Pen, s: &[u8]) -> Pen
    ensures { Wrote out.old out.new pen result s.now }
{
    if pen.full || pen.at > out.len() || s.len() > out.len() - pen.at {
        return Pen { full: true, ..pen };
    }
    Pen {
        at: lines::add(out, pen.at, s),
        full: false,
    }
}

// Puts a number in decimal.
fn write_number(out: &mut [u8], pen: Pen, z: i64) -> Pen
    ensures { Wrote out.old out.new pen result (numeral z) }
{
    let mut digits = [0u8; 21];
    let n = lines::add_signed(&mut digits, 0, ints::word(z));
    write(out, pen, &digits[..n])
}

// Puts a tab and a text.
fn write_field(out: &mut [u8], pen: Pen, s: &[u8]) -> Pen
    ensures { Wrote out.old out.new pen result (text "\t" ++ s.now) }
{
    let next = write(out, pen, b"\t");
    write(out, next, s)
}

// Puts x and y, each after a tab.
fn write_point(out: &mut [u8], pen: Pen, p: Point) -> Pen
    ensures { Wrote out.old out.new pen result (point_text p) }
{
    let a = write(out, pen, b"\t");
    let b = write_number(out, a, p.x);
    let c = write(out, b, b"\t");
    write_number(out, c, p.y)
}

// Puts a main's record.
fn main_row(
    out: &mut [u8],
    pen: Pen,
    name: &[u8],
    p: Point,
    rotation: &[u8],
    value: &[u8],
    footprint: &[u8],
    mount: &[u8],
) -> Pen
    ensures { Wrote out.old out.new pen result (main_row name.now p rotation.now value.now footprint.now mount.now) }
{
    let a = write(out, pen, name);
    let b = write_point(out, a, p);
    let c = write_field(out, b, rotation);
    let d = write_field(out, c, value);
    let e = write_field(out, d, footprint);
    let f = write_field(out, e, mount);
    write(out, f, b"\n")
}

// Puts a pin's record.
fn pin_row(out: &mut [u8], pen: Pen, number: &[u8], p: Point) -> Pen
    ensures { Wrote out.old out.new pen result (pin_row number.now p) }
{
    let a = write_field(out, pen, number);
    let b = write_point(out, a, p);
    write(out, b, b"\n")
}

// The records in their order.

// Puts a pin's record.
fn put_pin(file: &[u8], out: &mut [u8], pen: Pen, s: Seen) -> Pen
    ensures { Wrote out.old out.new pen result (pin_by file.now s) }
{
    let p = s.note.number;
    pin_row(out, pen, base::part(file, p.from, p.to), s.end)
}

// Puts the record of a main, which is noted by the designator d.
fn put_main(file: &[u8], names: &[u64], out: &mut [u8], pen: Pen, s: Seen, d: u64) -> Pen
    ensures { Wrote out.old out.new pen result (main_by file.now names.now d s) }
{
    let r = s.note.rotation;
    let v = s.note.value;
    let f = s.note.footprint;
    let m = s.note.mount;
    let from = sheet::index(passes::word_of(names, d, 0));
    let to = sheet::index(passes::word_of(names, d, 1));
    main_row(
        out,
        pen,
        base::part(file, from, to),
        s.end,
        base::part(file, r.from, r.to),
        base::part(file, v.from, v.to),
        base::part(file, f.from, f.to),
        base::part(file, m.from, m.to),
    )
}

// What a list is written from: the file, its sheet, what is noted of its items, and how their pins are linked.
#[derive(Clone, Copy)]
struct Sources<'a> {
    file: &'a [u8],
    e: &'a [u64],
    a: &'a [u64],
    top: Container,
    notes: &'a [u64],
    operations: usize,
    roles: &'a [u64],
    roled: usize,
    names: &'a [u64],
    pins: &'a [u64],
}

impl Sources<'_> {
    // Item k.
    fn see(self, k: u64) -> Seen
        requires { Layer self.e.now self.a.now self.top self.notes.now self.operations self.roles.now self.roled × (k < self.top.items) }
        ensures { (l : Layer self.entry.e.now self.entry.a.now self.entry.top self.entry.notes.now self.entry.operations self.entry.roles.now self.entry.roled) → SeenIs l k result }
    {
        seeing::see(
            self.e,
            self.a,
            self.top,
            self.notes,
            self.operations,
            self.roles,
            self.roled,
            k,
        )
    }
}

// Puts the records of the pins that a link leads to.
fn put_pins(w: Sources, first: u64, out: &mut [u8], pen: Pen) -> Pen
    requires { Layer w.e.now w.a.now w.top w.notes.now w.operations w.roles.now w.roled × Walking w.pins.now w.top.items first × (pen.full ≡ false → pen.at ≤ length out.old) }
    ensures { (l : Layer w.entry.e.now w.entry.a.now w.entry.top w.entry.notes.now w.entry.operations w.entry.roles.now w.entry.roled) → l.file ≡ w.entry.file.now →
        (ks : List ℕ) → Walks w.entry.pins.now w.entry.top.items first ks → Wrote out.old out.new pen result (pins_at (parts l) ks) }
{
    // A chain of links, each found in the record before it: no iterator walks so.
    let mut link = first;
    let mut q = pen;
    while link > 0 {
        let j = sheet::index(link - 1);
        let k = base::word_at(w.pins, j * 2);
        link = base::word_at(w.pins, j * 2 + 1);
        let s = w.see(k);
        q = put_pin(w.file, out, q, s);
    }
    q
}

// Puts a main's record and those of its pins.
fn put_entry(w: Sources, out: &mut [u8], pen: Pen, s: Seen, d: u64) -> Pen
    requires { Layer w.e.now w.a.now w.top w.notes.now w.operations w.roles.now w.roled × Walking w.pins.now w.top.items (word_of w.names.now d 3) }
    ensures { (l : Layer w.entry.e.now w.entry.a.now w.entry.top w.entry.notes.now w.entry.operations w.entry.roles.now w.entry.roled) → l.file ≡ w.entry.file.now →
        (ks : List ℕ) → Walks w.entry.pins.now w.entry.top.items (word_of w.entry.names.now d 3) ks →
        Wrote out.old out.new pen result (main_by w.entry.file.now w.entry.names.now d s ++ pins_at (parts l) ks) }
{
    let next = put_main(w.file, w.names, out, pen, s, d);
    let first = passes::word_of(w.names, d, 3);
    put_pins(w, first, out, next)
}

// Puts the whole list.
pub fn put_list(
    file: &[u8],
    e: &[u64],
    a: &[u64],
    top: Container,
    notes: &[u64],
    operations: usize,
    roles: &[u64],
    roled: usize,
    names: &[u64],
    pins: &[u64],
    out: &mut [u8],
) -> Pen
    requires { Ready file.now e.now a.now top notes.now operations roles.now roled names.now pins.now }
    ensures { (w : Ready file.now e.now a.now top notes.now operations roles.now roled names.now pins.now) →
        Wrote out.old out.new (record { at = 0; full = false }) result (list_of (parts w.layer)) }
{
    let mut q = Pen { at: 0, full: false };
    let w = Sources {
        file,
        e,
        a,
        top,
        notes,
        operations,
        roles,
        roled,
        names,
        pins,
    };
    for k in 0..top.items {
        let s = w.see(k);
        let d = passes::main_of(s.role, s.note);
        if d == 0 {
            continue;
        }
        q = put_entry(w, out, q, s, d);
    }
    q
}
