// What commands do about regions, and which of them begins a contour, by their texts alone.
#![tactic(auto)]

ghost use Rattle.std.specs.Prelude.{◌≡◌};
ghost use Rattle.outlines.specs.Outlines.{outline, still, newer_outline, word_outline, outline_of};
ghost use Rattle.outlines.specs.Regions.{region_after, begins_contour};

use book::Book;
use films::Word;

// Where a command stands: in a region or not, and whether a D01 came since the last G36 or D02.
#[derive(Clone, Copy)]
pub struct Region {
    pub inside: bool,
    pub drawn: bool,
}

// What a command does: opens or closes a region, moves, draws. By the old book a code and an operation in one command do both.
#[derive(Clone, Copy)]
pub struct Outline {
    pub opens: bool,
    pub closes: bool,
    pub moves: bool,
    pub draws: bool,
}

// Made of the four.
fn to_outline(opens: bool, closes: bool, moves: bool, draws: bool) -> Outline
    ensures { result ≡ outline opens closes moves draws }
{
    Outline {
        opens,
        closes,
        moves,
        draws,
    }
}

// Nothing of the four.
fn to_still() -> Outline
    ensures { result ≡ still }
{
    to_outline(false, false, false, false)
}

// What a command of the newer edition does, by its text.
#[tactic(auto, using(base::proofs::Or::joins), unfolding(crate::specs::Outlines::newer_outline))]
fn newer_outline(t: &[u8]) -> Outline
    ensures { result ≡ newer_outline t.now }
{
    let said = !text::begins(t, b"G04");
    let moves = said && text::ends(t, b"D02");
    let draws = said && text::ends(t, b"D01");
    to_outline(text::is(t, b"G36"), text::is(t, b"G37"), moves, draws)
}

// What a command of the old book does, of what it is cut into.
#[tactic(auto, unfolding(crate::specs::Outlines::word_outline))]
fn word_outline(w: Word) -> Outline
    ensures { result ≡ word_outline w }
{
    match w {
        Word::Code(g) => to_outline(g == 36, g == 37, false, false),
        Word::Operate {
            code: g,
            operation,
            ..
        } => to_outline(g == 36, g == 37, operation == 2, operation == 1),
        _ => to_still(),
    }
}

// What a command with this text does, by a book.
#[tactic(auto, unfolding(crate::specs::Outlines::outline_of, base::specs::Choose::pick))]
pub fn outline_of(book: Book, t: &[u8]) -> Outline
    ensures { result ≡ outline_of book t.now }
{
    if book::is_old(book) {
        return word_outline(films::word_of(t));
    }
    newer_outline(t)
}

// Where the next command stands, after one that does this.
#[tactic(auto, using(base::proofs::Or::joins), unfolding(crate::specs::Regions::region_after))]
pub fn region_after(region: Region, o: Outline) -> Region
    ensures { result ≡ region_after region o }
{
    Region {
        inside: o.opens || (!o.closes && region.inside),
        drawn: o.draws || (!(o.opens || o.moves) && region.drawn),
    }
}

// A command that stands there, and does this, is a contour's first D01.
#[tactic(auto, using(base::proofs::Or::joins), unfolding(crate::specs::Regions::begins_contour))]
pub fn begins_contour(region: Region, o: Outline) -> bool
    ensures { result ≡ begins_contour region o }
{
    let first = region.inside && !region.drawn;
    o.draws && (o.opens || (!o.closes && first))
}
