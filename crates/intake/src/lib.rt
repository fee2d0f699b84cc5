// The signature of a file that comes in runs of any length, such as blocks of standard input: the file is not held.
#![tactic(auto)]

ghost use Rattle.std.specs.Prelude.{◌≡◌, if◌then◌else◌};
ghost use Rattle.digest.specs.Runs.{finished};
ghost use Rattle.signature.specs.Held.{nothing, text_of};
ghost use Rattle.signature.specs.Signature.{judged};
ghost use Rattle.intake.specs.Stages.{over, settled, stage_after, opens, begins, stopped};
ghost use Rattle.intake.specs.Runs.{piece, empty, grown, pushed, taken, answered};

use book::Book;
use digest::State;
use scan::{Scan, Way};
use signature::{Answer, Held};

// Between two bytes of the file: on the way to M02, as the scanner cuts it; after M02, with CR and LF only or with other bytes. A byte
// that is not permitted stops the way on either side of M02.
#[derive(Clone, Copy)]
pub enum Stage {
    Cut(Way),
    Over,
    Past,
}

// A command: its place, the digest of what stands before it, and what is held of it.
#[derive(Clone, Copy)]
pub struct Piece {
    place: usize,
    before: State,
    text: Held,
}

// What is kept between two runs: the book, the stage, the length and the digest so far, the last command begun, and the one before it.
#[derive(Clone, Copy)]
pub struct Intake {
    book: Book,
    stage: Stage,
    at: usize,
    digest: State,
    this: Piece,
    last: Piece,
}

// A byte after M02.
#[tactic(auto, unfolding(crate::specs::Stages::over))]
fn stage_over(b: u8, at: usize) -> Stage
    ensures { result ≡ over b at }
{
    if base::is_break(b) {
        return Stage::Over;
    }
    if scan::is_printable(b) {
        return Stage::Past;
    }
    Stage::Cut(Way::Bad { place: at })
}

// A command that is complete was M02, or another may follow.
#[tactic(auto, unfolding(crate::specs::Stages::settled))]
fn settle(way: Way, end: bool) -> Stage
    ensures { result ≡ settled way end }
{
    match way {
        Way::Complete { .. } if end => Stage::Over,
        Way::Complete { .. } => Stage::Cut(Way::Between),
        Way::Between | Way::Inside(_) | Way::Bad { .. } => Stage::Cut(way),
    }
}

// A byte more, with which the command at hand is M02 or not.
#[tactic(auto, unfolding(crate::specs::Stages::stage_after))]
fn stage_after(book: Book, stage: Stage, b: u8, at: usize, end: bool) -> Stage
    ensures { result ≡ stage_after book stage b at end }
{
    match stage {
        Stage::Cut(way) => settle(scan::way_after(book, way, b, at), end),
        Stage::Over => stage_over(b, at),
        Stage::Past => Stage::Past,
    }
}

// A command begins with this byte, on this way.
#[tactic(auto, unfolding(crate::specs::Stages::opens))]
fn does_open(way: Way, b: u8) -> bool
    ensures { result ≡ opens way b }
{
    match way {
        Way::Between => !base::is_break(b),
        _ => false,
    }
}

// A command begins with this byte.
#[tactic(auto, unfolding(crate::specs::Stages::begins))]
fn does_begin(stage: Stage, b: u8) -> bool
    ensures { result ≡ begins stage b }
{
    match stage {
        Stage::Cut(way) => does_open(way, b),
        Stage::Over | Stage::Past => false,
    }
}

// One of two commands.
fn pick(first: bool, p: Piece, q: Piece) -> Piece
    ensures { result ≡ (if first then p else q) }
{
    if first { p } else { q }
}

// A run more of a command.
#[tactic(auto, unfolding(crate::specs::Runs::grown))]
fn grow(p: Piece, t: &[u8]) -> Piece
    ensures { result ≡ grown p t.now }
{
    Piece {
        text: signature::hold(p.text, t),
        ..p
    }
}

// No command yet.
fn fresh(place: usize, before: State) -> Piece
    ensures { result ≡ piece place before nothing }
{
    Piece {
        place,
        before,
        text: signature::none(),
    }
}

// No byte yet, of a file that is read by a book.
#[tactic(auto, unfolding(crate::specs::Runs::empty))]
pub fn start(book: Book) -> Intake
    ensures { result ≡ empty book }
{
    let digest = digest::start();
    let none = fresh(0, digest);
    Intake {
        book,
        stage: Stage::Cut(Way::Between),
        at: 0,
        digest,
        this: none,
        last: none,
    }
}

// A byte more.
#[tactic(auto, unfolding(crate::specs::Runs::pushed))]
fn push(s: Intake, b: u8) -> Intake
    ensures { result ≡ pushed s b }
{
    let run = [b];
    let new = does_begin(s.stage, b);
    let this = grow(pick(new, fresh(s.at, s.digest), s.this), &run);
    let end = signature::holds_end(s.book, this.text);
    Intake {
        book: s.book,
        stage: stage_after(s.book, s.stage, b, s.at, end),
        at: s.at.wrapping_add(1),
        digest: digest::feed_text(s.digest, &run),
        this,
        last: pick(new, s.this, s.last),
    }
}

// A run more, of any length.
pub fn take(s: Intake, t: &[u8]) -> Intake
    ensures { result ≡ taken s t.now }
{
    let mut v = s;
    for &b in t {
        v = push(v, b);
    }
    v
}

// M02 is there: the command before it judged.
fn judge(this: Piece, last: Piece) -> Answer
    ensures { result ≡ judged this.place (text_of last.text) (finished last.before) }
{
    signature::judge(this.place, last.text, last.before)
}

// The file ends before M02: the number and the place of what the scanner answers.
#[tactic(auto, unfolding(crate::specs::Stages::stopped, scan::specs::Scan::number_of, scan::specs::Scan::place_of))]
fn stop(r: Scan) -> Answer
    ensures { result ≡ stopped r }
{
    match r {
        Scan::Command { place, .. } => signature::refuse(0, place),
        Scan::BadByte { place } => signature::refuse(2, place),
        Scan::Ended { place } => signature::refuse(3, place),
    }
}

// The answer, once there are no more runs.
#[tactic(auto, unfolding(crate::specs::Runs::answered))]
pub fn tell(s: Intake) -> Answer
    ensures { result ≡ answered s }
{
    match s.stage {
        Stage::Cut(way) => stop(scan::way_ended(way, s.at)),
        Stage::Over | Stage::Past => judge(s.this, s.last),
    }
}
