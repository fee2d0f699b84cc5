// One graphics state stepped through the commands of two texts, accepted and refused, each by a state that is lent and handed back. A line
// is the command without `%` and its last `*`, its number, and the state after it. The file `stdout` was worked out by hand, from documents
// 01 and, for a film of the old edition, 02.
#![tactic(auto)]

use book::{Book, Edition, Letters};
use formats::Format;
use graphics::{Graphics, Level, Selected};
use output::Output;
use points::Point;
use scan::{Kind, Scan};
use state_call::{Known, ParameterError};
use std::{fmt, io};

// A state in a line: whether the point is set, the point, the aperture (0 where none is set), the mode, whether LP is clear, LS, and
// whether a region and a contour are open.
#[derive(Clone, Copy)]
struct State(Graphics);

impl fmt::Display for State {
    fn fmt<W: fmt::Write>(&self, f: &mut fmt::Formatter<W>) -> fmt::Result {
        let g = self.0;
        let Point { x, y } = g.point.at;
        let set = u64::from(g.point.set);
        let clear = u64::from(g.transform.clear);
        let region = u64::from(g.region.on);
        let contour = u64::from(g.region.contour);
        write!(
            f,
            "{set} {x} {y} {} {} {clear} {} {region} {contour}",
            g.aperture.number, g.mode, g.transform.scale
        )
    }
}

// What stands open: the top level (0), a block (1) or a repeat (2), with so many items.
fn level(inside: u64, items: u64) -> Level {
    Level {
        inside,
        items,
        height: 0,
        depth: inside,
        copies: 1,
        sheet: 0,
    }
}

// By the letter that goes with a command: inside a block, over a repeat, the most items at the top; else the top level without items.
fn level_by(letter: u8) -> Level {
    match letter {
        b'i' => level(1, 0),
        b'o' => level(2, 0),
        b'm' => level(0, 1000000000000),
        _ => level(0, 0),
    }
}

// An aperture: a round one, a solid rectangle, or a block of one item.
fn aperture(number: u64, slot: usize, circle: bool, block: bool) -> Selected {
    let items = u64::from(block);
    Selected {
        set: true,
        number,
        slot,
        circle,
        rectangle: !circle && !block,
        block,
        items,
        height: items,
    }
}

fn no_aperture() -> Selected {
    Selected {
        set: false,
        number: 0,
        slot: 0,
        circle: false,
        rectangle: false,
        block: false,
        items: 0,
        height: 0,
    }
}

// The aperture that a Dn names: round, a block, solid; else none.
fn aperture_by(letter: u8) -> Selected {
    match letter {
        b'r' => aperture(10, 0, true, false),
        b'b' => aperture(11, 1, false, true),
        b's' => aperture(12, 2, false, false),
        _ => no_aperture(),
    }
}

// How many entries are left: none, two; else one.
fn entries_by(letter: u8) -> u64 {
    match letter {
        b'e' => 0,
        b'w' => 2,
        _ => 1,
    }
}

// The outcome of an AD's parameters: 9, 10; else fine.
fn worked_by(letter: u8) -> Result<(), ParameterError> {
    match letter {
        b'9' => Err(ParameterError::Undefined),
        b'x' => Err(ParameterError::Unruly),
        _ => Ok(()),
    }
}

// What the stores know: besides, that a number or a name came before (t), that the macro is not known (u), that the room is full (f).
fn known_by(letter: u8) -> Known {
    let aperture = aperture_by(letter);
    let entries = entries_by(letter);
    let worked = worked_by(letter);
    Known {
        entries,
        aperture,
        taken: letter == b't',
        unknown: letter == b'u',
        worked,
        full: letter == b'f',
    }
}

// What is shown of a command's text: all but the last `*` of an extended command.
fn shown(kind: Kind, text: &[u8]) -> &[u8] {
    match (kind, text) {
        (Kind::Extended | Kind::Macro, [shown @ .., _]) => shown,
        _ => text,
    }
}

// One command, of this kind and with this text, and the state after it.
fn take(
    rt: &impl Print,
    book: Book,
    g: Graphics,
    kind: Kind,
    text: &[u8],
    letter: u8,
) -> io::Result<Graphics> {
    let format = Format {
        integers: 6,
        decimals: 6,
        trailing: false,
        incremental: false,
    };
    let c = recognise::command_of(book, format, kind, text);
    let t = state_call::once(g, level_by(letter), c, known_by(letter));
    let after = t.graphics;
    rt.write_all(shown(kind, text))?;
    println!(rt; " {} {}", t.number, State(after))?;
    Ok(after)
}

// The commands of a text in order, a letter with each, and the state after them.
fn steps(
    rt: &impl Print,
    book: Book,
    first: Graphics,
    text: &[u8],
    letters: &[u8],
) -> io::Result<Graphics> {
    let mut g = first;
    let mut at = 0;
    for &letter in letters {
        let Scan::Command {
            kind,
            from,
            end,
            next,
            ..
        } = scan::next_command(book, text, at)
        else {
            break;
        };
        g = take(rt, book, g, kind, base::part(text, from, end), letter)?;
        at = next;
    }
    Ok(g)
}

// The commands of texts, one after the other.
fn texts(rt: &impl Print, book: Book, old: bool, texts: &[(&str, &str)]) -> io::Result<()> {
    let mut g = graphics::start(old);
    for (text, letters) in texts {
        g = steps(rt, book, g, text.as_bytes(), letters.as_bytes())?;
    }
    Ok(())
}

// Settings; apertures and macros, of which the stores know; places; what stands open; a region; the end.
const SHEET: [(&str, &str); 6] = [
    (
        "X1000000Y1000000D02*G01*X1000000Y1000000D01*%FSLAX46Y46*%%FSLAX56Y56*%%MOMM*%%LS0.5*%%LS0*%%LPC*%",
        ".........",
    ),
    (
        "D10*%ADD10C,0.5*%%ADD10C,0.7*%%ADD12C,-1*%%ADD12M,0*%%AMM*1,1,1/$1,0,0*%%AMM*1,1,1/$1,0,0*%%ADD12M,0*%%TF.Part,Single*%D10*",
        "..txuf.9tr",
    ),
    (
        "X5000000D02*X5000000Y-2500000D02*X0D03*X0D03*X5D03*X5000000D01*G02*X0I1J0D01*G75*X0I0J0D01*X0I-2500000J0D01*",
        "..e.m......",
    ),
    (
        "%AB*%%ABD11*%%SRX2Y1I0J0*%M02*%AB*%%SRX0Y1I0J0*%%SRX2Y1I0J0*%%SR*%D11*X0Y0D03*",
        "..iii..ob.",
    ),
    (
        "X0Y0D02*G36*G01*%LPD*%D10*Y-7D01*X0Y-7D02*Y0D01*Y0D01*G37*Y-7D01*G37*",
        "....r...w...",
    ),
    ("G05*M02*", ".."),
];

// A film of the old edition: coordinates count from the point, and a code stands before an operation; G74 as the default; G90 and G91
// before an operation, a point of 10^12 and, in a region, a contour without a D02 before it; the end.
const FILM: [(&str, &str); 4] = [
    (
        "%FSLIX66Y66*%G1X1Y1D1*G71*G54D12*G1X1Y1D1*X1Y1D2*G1X1Y1D1*M0*",
        "...s....",
    ),
    (
        "G2X-1Y-1I1J0D1*G54D10*G2X-1Y-1I1J0D1*X1Y1I-1J0D1*X1Y1I0J0D1*G37X1Y1D1*",
        ".r....",
    ),
    (
        "G90X999999999999D2*G91X1D2*G36*G1Y0D1*G91Y1D1*G37Y1D1*G1Y1D1*G37X1D2*",
        "...w....",
    ),
    ("%MIA1B0*%M2*", ".."),
];

fn run(rt: &impl Print) -> io::Result<()> {
    let film = Book {
        edition: Edition::Old,
        letters: Letters::Old,
    };
    texts(rt, book::ascii(), false, &SHEET)?;
    texts(rt, film, true, &FILM)
}

// What cannot be written is lost, and nobody is told.
fn main() {
    let _ = run(&Output {});
}
