// Macros of document 002, KiCad's rounded rectangle and document 01's roundings, each with the numbers that were worked out by hand: before the
// parameters of a primitive a hundred for each of them, and the code.
// The blocks stand after the `*` of the macro's name, the parameters after the comma of the AD.
#![tactic(auto)]

use command::{Command, Definition};
use output::Output;
use std::io;

// A macro, an AD's parameters, and the numbers that they leave.
#[derive(Clone, Copy)]
struct Shape {
    name: &'static str,
    blocks: &'static str,
    parameters: &'static str,
    expected: &'static [i64],
}

// A macro at fault without parameters, and the number of the rule that it breaks.
#[derive(Clone, Copy)]
struct Fault {
    name: &'static str,
    blocks: &'static str,
    number: u64,
}

// An AM, and whether it is too deep.
#[derive(Clone, Copy)]
struct Depth {
    name: &'static str,
    text: &'static str,
    deep: bool,
}

const SHAPES: [Shape; 7] = [
    Shape {
        name: "Box",
        blocks: "*0 Rectangle*\r\n21,1,$1,$2-$3-$3,0,0,$4*\r\n21,1,$1-$3-$3,$2,0,0,$4*$5=$1/2*$6=$2/2*$7=2x$3*1,1,$7,$5-$3,$6-$3,$4*1,1,$7,-$5+$3,$6-$3,$4*1,1,$7,-$5+$3,-$6+$3,$4*1,1,$7,$5-$3,-$6+$3,$4",
        parameters: ",4X3X0.5",
        expected: &[
            621, 1000000, 4000000, 2000000, 0, 0, 0, 621, 1000000, 3000000, 3000000, 0, 0, 0, 501,
            1000000, 1000000, 1500000, 1000000, 0, 501, 1000000, 1000000, -1500000, 1000000, 0,
            501, 1000000, 1000000, -1500000, -1000000, 0, 501, 1000000, 1000000, 1500000, -1000000,
            0,
        ],
    },
    Shape {
        name: "DONUTVAR",
        blocks: "*1,1,$1,$2,$3*1,0,$4,$2,$3",
        parameters: ",0.100X0X0X0.080",
        expected: &[401, 1000000, 100000, 0, 0, 401, 0, 80000, 0, 0],
    },
    Shape {
        name: "Triangle_30",
        blocks: "*\n4,1,3,\n1,-1,\n1,1,\n2,1,\n1,-1,\n30",
        parameters: "",
        expected: &[
            1104, 1000000, 3000000, 1000000, -1000000, 1000000, 1000000, 2000000, 1000000, 1000000,
            -1000000, 30000000,
        ],
    },
    Shape {
        name: "Thermal",
        blocks: "*7,0,0,0.95,0.75,0.175,0.0",
        parameters: "",
        expected: &[607, 0, 0, 950000, 750000, 175000, 0],
    },
    Shape {
        name: "RoundRect",
        blocks: "*4,1,4,$2,$3,$4,$5,$6,$7,$8,$9,$2,$3,0*1,1,$1+$1,$2,$3",
        parameters: ",0.25X-0.5X0.4X-0.5X-0.4X0.5X-0.4X0.5X0.4",
        expected: &[
            1304, 1000000, 4000000, -500000, 400000, -500000, -400000, 500000, -400000, 500000,
            400000, -500000, 400000, 0, 401, 1000000, 500000, -500000, 400000,
        ],
    },
    Shape {
        name: "1/3, 2/3, -2/3, 0.0005x0.001",
        blocks: "*1,1,1/3,2/3,-2/3,0.0005x0.001",
        parameters: "",
        expected: &[501, 1000000, 333333, 666667, -666667, 1],
    },
    Shape {
        name: "0.0005x0.000998, 1-2-3, 8/4x2, -1+2",
        blocks: "*1,1,0.0005x0.000998,1-2-3,8/4x2,-1+2",
        parameters: "",
        expected: &[501, 1000000, 0, -4000000, 4000000, 1000000],
    },
];

const FAULTS: [Fault; 6] = [
    Fault {
        name: "zero divisor",
        blocks: "*1,1,1/0,0,0",
        number: 9,
    },
    Fault {
        name: "zero divisor before an unknown code",
        blocks: "*99,1/0",
        number: 9,
    },
    Fault {
        name: "exposure 2",
        blocks: "*1,2,1,0,0",
        number: 10,
    },
    Fault {
        name: "the first block at fault",
        blocks: "*1,2,1,0,0*1,1/0",
        number: 10,
    },
    Fault {
        name: "no room",
        blocks: "*1,1,1,0,0",
        number: 17,
    },
    Fault {
        name: "a fault before no room",
        blocks: "*1,1,1,0,0*5,1",
        number: 10,
    },
];

const DEPTHS: [Depth; 2] = [
    Depth {
        name: "sixteen parentheses",
        text: "AMD*1,1,((((((((((((((((1)))))))))))))))),0,0*",
        deep: false,
    },
    Depth {
        name: "seventeen parentheses",
        text: "AMD*1,1,(((((((((((((((((1))))))))))))))))),0,0*",
        deep: true,
    },
];

// A name, and whether what was found is what was worked out by hand.
fn say(rt: &impl Print, name: &str, good: bool) -> io::Result<()> {
    let verdict = if good { "as by hand" } else { "WRONG" };
    println!(rt; "{name}\t{verdict}")
}

// The macro is worked out without a fault, and leaves these numbers and no more.
fn leaves(shape: Shape) -> bool {
    let mut numbers = [0; 64];
    let blocks = shape.blocks.as_bytes();
    let parameters = shape.parameters.as_bytes();
    let o = macros::work_out(blocks, 0, parameters, 0, &mut numbers, 0);
    o.worked.is_ok() && o.used == shape.expected.len() && numbers.starts_with(shape.expected)
}

// The macro is refused for the fault, in room for four numbers.
fn is_refused(fault: Fault) -> bool {
    let mut numbers = [0; 4];
    let o = macros::work_out(fault.blocks.as_bytes(), 0, b"", 0, &mut numbers, 0);
    matches!(o.worked, Err(rule) if u64::from(rule) == fault.number)
}

// The AM is recognised, and as too deep or not.
fn is_as_deep(depth: Depth) -> bool {
    let c = macro_form::macro_of(depth.text.as_bytes());
    matches!(c, Command::Define(Definition::Macro { deep, .. }) if deep == depth.deep)
}

fn run(rt: &impl Print) -> io::Result<()> {
    for shape in SHAPES {
        say(rt, shape.name, leaves(shape))?;
    }
    for fault in FAULTS {
        say(rt, fault.name, is_refused(fault))?;
    }
    for depth in DEPTHS {
        say(rt, depth.name, is_as_deep(depth))?;
    }
    Ok(())
}

// What cannot be written is lost, and nobody is told.
fn main() {
    let _ = run(&Output {});
}
