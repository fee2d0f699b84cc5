// AD's working out of a macro: its blocks in order, and the numbers that its primitives leave.
#![tactic(auto)]

ghost use Rattle.std.specs.Prelude.{◌≡◌, ◌-◌, length, drop, set};
ghost use Rattle.expression.specs.Reading.{Fits};
ghost use Rattle.macros.specs.Given.{variables_of};
ghost use Rattle.macros.specs.Pen.{penned};
ghost use Rattle.macros.specs.Work.{parameters_in, blocks_in, verdict, primitive_done, assignment_done, block_done, worked_out};
ghost use Rattle.faults.specs.Rule.{number_told};
ghost use Rattle.macros.specs.Says.{Comes, Gathers, Does, Answers, Told};

use decimal::Amount;
use expression::Variables;
use faults::Rule;
use primitives::Asked;

// Where the next number is written, and whether there was no room for one.
#[derive(Clone, Copy)]
pub struct Pen {
    pub at: usize,
    pub over: bool,
}

// A primitive's parameters: whether each has a value, what the rules ask of them, and the pen after them.
#[derive(Clone, Copy)]
pub struct Gathered {
    pub fine: bool,
    pub asked: Asked,
    pub pen: Pen,
}

// A block, or all of them: the rule that is broken, if one is (9 or 10), the variables and the pen after it.
#[derive(Clone, Copy)]
pub struct Done {
    pub fault: Result<(), Rule>,
    pub variables: Variables,
    pub pen: Pen,
}

// What an AD answers: the rule that is broken, if one is (8, 9, 10 or 17), and the numbers that are used.
#[derive(Clone, Copy)]
pub struct Outcome {
    pub worked: Result<(), Rule>,
    pub used: usize,
}

// Writes a number, where there is room.
pub fn write(numbers: &mut [i64], p: Pen, a: Amount) -> Pen
    ensures { (numbers.new ≡ set numbers.old p.at a.millionths) × (result ≡ penned (length numbers.old) p) }
{
    let at = p.at;
    if at < numbers.len() {
        let z = a.millionths;
        numbers[at] = z;
        return Pen {
            at: at + 1,
            over: p.over,
        };
    }
    Pen { at, over: true }
}

// The value of the text of an expression.
fn worth_of(t: &[u8], v: Variables) -> Option<Amount>
    requires { Fits v.values }
    ensures { Comes v.values t.now result }
{
    match expression::value_of(t, v) {
        None => None,
        Some(millionths) => Some(Amount { millionths }),
    }
}

// The parameters of a primitive, from a comma on, worked out and written in order up to the first without a value.
fn values(t: &[u8], comma: usize, v: Variables, numbers: &mut [i64], p: Pen) -> Gathered
    requires { Fits v.values }
    ensures { Gathers v.values (parameters_in (drop comma t.now)) numbers.old numbers.new p result }
{
    let mut q = primitives::nothing();
    let mut pen = p;
    let mut at = comma;
    // A place that jumps to the next comma: no iterator walks so.
    while at < t.len() {
        let next = text::find(t, at + 1, b',');
        let text = macro_tokens::without_leading(base::part(t, at + 1, next));
        let Some(a) = worth_of(text, v) else {
            return Gathered {
                fine: false,
                asked: q,
                pen,
            };
        };
        pen = write(numbers, pen, a);
        q = primitives::one_more(q, a);
        at = next;
    }
    Gathered {
        fine: true,
        asked: q,
        pen,
    }
}

// 9 where a parameter has no value, else 10 where a rule is broken.
#[tactic(auto, unfolding(crate::specs::Work::verdict, faults::specs::Rule::number_told, faults::specs::Rule::number_of_rule))]
pub fn verdict(fine: bool, kept: bool) -> Result<(), Rule>
    ensures { number_told result ≡ verdict fine kept }
{
    if !fine {
        return Err(Rule::Undefined);
    }
    if !kept {
        return Err(Rule::Parameter);
    }
    Ok(())
}

// A primitive: its parameters, and before them its code and how many they are.
fn primitive(t: &[u8], v: Variables, numbers: &mut [i64], p: Pen) -> Done
    requires { Fits v.values }
    ensures { Does (primitive_done v.values t.now) numbers.old numbers.new p result }
{
    let comma = text::find(t, 0, b',');
    let code = primitives::code_of(base::up_to(t, comma));
    let pen = write(numbers, p, Amount { millionths: 0 });
    let g = values(t, comma, v, numbers, pen);
    let q = g.asked;
    let last = g.pen;
    let n = primitives::heading(code, q.count);
    write(
        numbers,
        p,
        Amount {
            millionths: ints::with_sign(false, n),
        },
    );
    Done {
        fault: verdict(g.fine, primitives::keeps_rule(code, q)),
        variables: v,
        pen: last,
    }
}

// The variables with $n set anew.
fn assigned(v: Variables, n: u64, a: Amount) -> Variables
    ensures { result.values ≡ set v.values (n - 1) a.millionths }
{
    let mut w = v;
    let z = a.millionths;
    if n == 0 {
        w.values[0] = z;
        return w;
    }
    if n <= 64 {
        w.values[(n - 1) as usize] = z;
        return w;
    }
    w
}

// An assignment: `$n=` and an expression.
fn assignment(t: &[u8], v: Variables, numbers: &mut [i64], p: Pen) -> Done
    requires { Fits v.values }
    ensures { Does (assignment_done v.values t.now) numbers.old numbers.new p result }
{
    let n = macro_tokens::variable_number(base::from_on(text::before(t, b'='), 1));
    let Some(a) = worth_of(text::after(t, b'='), v) else {
        return Done {
            fault: Err(Rule::Undefined),
            variables: v,
            pen: p,
        };
    };
    Done {
        fault: Ok(()),
        variables: assigned(v, n.value, a),
        pen: p,
    }
}

// A block without its `*`, told by its first byte.
fn block(s: &[u8], v: Variables, numbers: &mut [i64], p: Pen) -> Done
    requires { Fits v.values }
    ensures { Does (block_done v.values s.now) numbers.old numbers.new p result }
{
    let t = macro_tokens::without_leading(s);
    let b = base::byte_at(t, 0);
    if b == b'0' {
        return Done {
            fault: Ok(()),
            variables: v,
            pen: p,
        };
    }
    if b == b'$' {
        return assignment(t, v, numbers, p);
    }
    primitive(t, v, numbers, p)
}

// The blocks in order, from a `*` on, up to the first at fault.
fn blocks(s: &[u8], from: usize, v: Variables, numbers: &mut [i64], p: Pen) -> Done
    requires { Fits v.values }
    ensures { Does (worked_out v.values (blocks_in (drop from s.now))) numbers.old numbers.new p result }
{
    let mut d = Done {
        fault: Ok(()),
        variables: v,
        pen: p,
    };
    let mut at = from;
    // A place that jumps to the next `*`: no iterator walks so.
    while at < s.len() {
        let next = text::find(s, at + 1, b'*');
        let w = d.variables;
        let pen = d.pen;
        d = block(base::part(s, at + 1, next), w, numbers, pen);
        if d.fault.is_err() {
            return d;
        }
        at = next;
    }
    d
}

// The variables that an AD's parameters set, from their comma on.
fn given(s: &[u8], comma: usize) -> Variables
    ensures { (result.values ≡ variables_of (drop comma s.now)) × Fits result.values }
{
    let mut v = Variables { values: [0i64; 64] };
    let mut i: u64 = 0;
    let mut at = comma;
    // A place that jumps to the next `X`: no iterator walks so.
    while at < s.len() {
        let next = text::find(s, at + 1, b'X');
        let d = command::size_of(base::part(s, at + 1, next));
        let a = d.value;
        v = assigned(v, i + 1, a);
        i += 1;
        at = next;
    }
    v
}

// What an AD that names a macro answers, and the numbers that it leaves from `used` on: the macro's blocks stand in s from the `*` before
// the first of them on, the parameters in t from their comma on. A refusal leaves what was written up to it.
pub fn work_out(
    s: &[u8],
    from: usize,
    t: &[u8],
    comma: usize,
    numbers: &mut [i64],
    used: usize,
) -> Outcome
    ensures { Answers (drop from s.now) (drop comma t.now) numbers.old numbers.new used result }
{
    let v = given(t, comma);
    let d = blocks(
        s,
        from,
        v,
        numbers,
        Pen {
            at: used,
            over: false,
        },
    );
    let p = d.pen;
    answered(d.fault, p)
}

// 17 where there was no room, if nothing is at fault.
pub fn answered(fault: Result<(), Rule>, p: Pen) -> Outcome
    ensures { Told (number_told fault) p result }
{
    if let Err(rule) = fault {
        return Outcome {
            worked: Err(rule),
            used: p.at,
        };
    }
    if p.over {
        return Outcome {
            worked: Err(Rule::NoRoom),
            used: p.at,
        };
    }
    Outcome {
        worked: Ok(()),
        used: p.at,
    }
}
