// Dn, AD and AM: an aperture selected, and apertures and macros defined in their lent words.
#![tactic(auto)]

ghost use Rattle.std.specs.Prelude.{◌≡◌, ◌≤◌, length};
ghost use Rattle.std.proofs.Math.Seq.{slice};
ghost use Rattle.templates.specs.Templates.{kind_of};
ghost use Rattle.index.specs.Names.{Named};
ghost use Rattle.index.specs.Numbers.{numbered, Numbered};
ghost use Rattle.law_bounds.specs.Bounded.{Defines, Models};
ghost use Rattle.law_reading.specs.Steps.{part, select_step, aperture_step, macro_step};
ghost use Rattle.progress.specs.Lent.{with_apertures, with_macros, with_numbers};
ghost use Rattle.progress.specs.Knows.{Known, StepsTo};
ghost use Rattle.definition_steps.specs.Chosen.{chosen_by};
ghost use Rattle.definition_steps.specs.Lends.{Lends};
ghost use Rattle.definition_steps.specs.Worked.{standard_of, Comes, WorksOut};

use command::Span;
use faults::Rule;
use graphics::Selected;
use macros::{Outcome, Pen};
use progress::Progress;
use sheet::Aperture;
use tables::Macro;

// The aperture with a number as Dn selects it, not set where it is an open block, or where there is none.
fn aperture_with(a: &[u64], used: usize, n: u64) -> Selected
    requires { Numbered a.now used }
    ensures { result ≡ chosen_by a.now (numbered a.now used n) }
{
    let found = index::search_number(a, used, n);
    let Ok(i) = found else {
        return Selected {
            set: false,
            number: 0,
            slot: 0,
            circle: false,
            rectangle: false,
            block: false,
            items: 0,
            height: 0,
        };
    };
    let r = sheet::aperture_at(a, i);
    Selected {
        set: r.kind != 0,
        number: r.number,
        slot: i,
        circle: base::both(r.kind == 1, r.len == 1),
        rectangle: base::both(r.kind == 2, r.len == 2),
        block: r.kind == 6,
        items: r.items,
        height: r.height,
    }
}

// Dn.
pub fn select(a: &[u64], p: Progress, n: u64) -> Result<Progress, Rule>
    requires { Known (λ w. w.apertures ≡ a.now) p }
    ensures { StepsTo (λ room s. select_step n s) (λ w. w.apertures ≡ a.now) (λ w. w) p result }
{
    let chosen = aperture_with(a, p.apertures, n);
    let g = p.graphics;
    command_rules::select_fault(g, chosen.set)?;
    Ok(progress::with_graphics(graphics::with_aperture(chosen, g), p))
}

// The outcome of the parameters of a standard template, from their comma on; they are written as far as there is room.
fn standard(kind: u64, t: &[u8], numbers: &mut [i64], used: usize) -> Outcome
    ensures { Comes (standard_of kind t.now) numbers.old numbers.new used result }
{
    let mut q = primitives::nothing();
    let mut pen = Pen {
        at: used,
        over: false,
    };
    let mut at: usize = 0;
    while at < t.len() {
        let next = text::find(t, at + 1, b'X');
        let d = command::size_of(base::part(t, at + 1, next));
        let a = d.value;
        pen = macros::write(numbers, pen, a);
        q = primitives::one_more(q, a);
        at = next;
    }
    let verdict = macros::verdict(true, templates::keeps_rule(kind, q));
    macros::answered(verdict, pen)
}

// The outcome of an AD whose template has that name in the file, by its parameters t from their comma on.
fn worked(
    kind: u64,
    file: &[u8],
    m: &[u64],
    known: usize,
    name: Span,
    t: &[u8],
    numbers: &mut [i64],
    used: usize,
) -> Outcome
    requires { (kind ≡ kind_of (part file.now name)) × Named file.now m.now known × (name.from ≤ name.to) × (name.to ≤ length file.now) }
    ensures { WorksOut file.now m.now known (part file.now name) t.now numbers.old numbers.new used result }
{
    if kind <= 4 {
        return standard(kind, t, numbers, used);
    }
    let found = index::search_name(file, m, known, name.from, name.to);
    let Ok(i) = found else {
        return Outcome {
            worked: Err(Rule::UnknownOrTaken),
            used,
        };
    };
    let r = tables::macro_at(m, i);
    macros::work_out(base::part(file, r.first, r.end), 0, t, 0, numbers, used)
}

// AD, whose text is file[from..end]; the name of its template and its parameters, from their comma on, lie in the text.
pub fn define(
    file: &[u8],
    a: &mut [u64],
    m: &[u64],
    numbers: &mut [i64],
    p: Progress,
    from: usize,
    end: usize,
    n: u64,
    name: Span,
    parameters: Span,
) -> Result<Progress, Rule>
    requires { Known (Lends file.now a.old m.now numbers.old) p × (from ≤ end) × (end ≤ length file.now) × Defines (slice from end file.now) n name parameters }
    ensures { (length a.new ≡ length a.old) × (length numbers.new ≡ length numbers.old) × StepsTo (λ room s. aperture_step room n (part (slice from end file.now) name) (part (slice from end file.now) parameters) s) (Lends file.now a.old m.now numbers.old) (λ w. with_apertures a.new (with_numbers numbers.new w)) p result }
{
    let g = p.graphics;
    let found = index::search_number(a, p.apertures, n);
    let Err(link) = found else {
        command_rules::region_fault(g)?;
        return Err(Rule::UnknownOrTaken);
    };
    let template = Span {
        from: from + name.from,
        to: from + name.to,
    };
    let kind = templates::kind_of(base::part(file, template.from, template.to));
    let given = base::part(file, from + parameters.from, from + parameters.to);
    let o = worked(kind, file, m, p.macros, template, given, numbers, p.numbers);
    let r = Aperture {
        number: n,
        kind,
        first: p.numbers as u64,
        len: (o.used - p.numbers) as u64,
        items: 0,
        height: 0,
    };
    let room = tables::put_aperture(a, p.apertures, link, r);
    command_rules::aperture_fault(g, false, o.worked, !room)?;
    Ok(progress::with_apertures(p.apertures + 1, progress::with_numbers(o.used, p)))
}

// AM, whose text is file[from..end]; its name and its blocks lie in the text.
pub fn add_macro(
    file: &[u8],
    m: &mut [u64],
    p: Progress,
    from: usize,
    end: usize,
    name: Span,
    blocks: Span,
    deep: bool,
) -> Result<Progress, Rule>
    requires { Known (λ w. (w.file ≡ file.now) × (w.macros ≡ m.old)) p × (from ≤ end) × (end ≤ length file.now) × Models (slice from end file.now) name blocks }
    ensures { (length m.new ≡ length m.old) × StepsTo (λ room s. macro_step room (part (slice from end file.now) name) (slice name.to blocks.to (slice from end file.now)) deep s) (λ w. (w.file ≡ file.now) × (w.macros ≡ m.old)) (with_macros m.new) p result }
{
    let g = p.graphics;
    let first = from + name.from;
    let last = from + name.to;
    let found = index::search_name(file, m, p.macros, first, last);
    let Err(link) = found else {
        command_rules::region_fault(g)?;
        return Err(Rule::UnknownOrTaken);
    };
    let r = Macro {
        from: first,
        to: last,
        first: last,
        end: from + blocks.to,
    };
    let room = tables::put_macro(m, p.macros, link, r);
    let kind = templates::kind_of(base::part(file, first, last));
    command_rules::macro_fault(g, kind <= 4, deep, !room)?;
    Ok(progress::with_macros(p.macros + 1, p))
}
