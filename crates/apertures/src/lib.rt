// Commands that make apertures: AD and AB. Their text is that of one data block, without its `*`.
#![tactic(auto)]

ghost use Rattle.std.specs.Prelude.{◌≡◌, drop};
ghost use Rattle.apertures.specs.Blocks.{block_start, block_of};
ghost use Rattle.apertures.specs.Definitions.{definition, aperture_of};
ghost use Rattle.apertures.specs.Parameters.{parameters_of};

use command::{Bracket, Command, Definition, Flaw, Size, Span};

// The parameters of an AD: whether one is no decimal, whether one is too long, how many there are, and how many were rounded.
#[derive(Clone, Copy)]
pub struct Parameters {
    pub formless: bool,
    pub long: bool,
    pub count: usize,
    pub rounded: usize,
}

// `ABD` and what follows it.
#[tactic(auto, unfolding(crate::specs::Blocks::block_start))]
fn block_start(t: &[u8]) -> Command
    ensures { result ≡ block_start t.now }
{
    let n = command::aperture_number(t);
    command::judged(
        n.formless,
        n.long,
        Command::Contain(Bracket::BlockStart(n.value)),
    )
}

// AB.
#[tactic(auto, unfolding(base::specs::Choose::pick, crate::specs::Blocks::block_of))]
pub fn block_of(s: &[u8]) -> Command
    ensures { result ≡ block_of s.now }
{
    if text::is(s, b"AB") {
        return Command::Contain(Bracket::BlockEnd);
    }
    if text::begins(s, b"ABD") {
        return block_start(base::from_on(s, 3));
    }
    Command::Broken(Flaw::NotForm)
}

// The parameters of an AD, from the comma on.
fn parameters_of(s: &[u8], comma: usize) -> Parameters
    ensures { result ≡ parameters_of (drop comma s.now) }
{
    let mut formless = false;
    let mut long = false;
    let mut count: usize = 0;
    let mut rounded: usize = 0;
    let mut at = comma;
    // A place that jumps to the next `X`: no iterator walks so.
    while at < s.len() {
        let next = text::find(s, at + 1, b'X');
        let d = command::size_of(base::part(s, at + 1, next));
        formless = base::either(formless, d.formless);
        long = base::either(long, d.long);
        count += 1;
        rounded += command::counted(d.rounded);
        at = next;
    }
    Parameters {
        formless,
        long,
        count,
        rounded,
    }
}

// An AD with its number up to p and its name up to q.
fn defined(s: &[u8], p: usize, q: usize) -> Command
    ensures { result ≡ definition s.now p q }
{
    let n = command::aperture_number(base::part(s, 3, p));
    let named = text::is_name(base::part(s, p, q));
    let ps = parameters_of(s, q);
    let formless = base::either(base::either(n.formless, !named), ps.formless);
    let long = base::either(base::either(n.long, ps.long), 65 <= ps.count);
    let name = Span { from: p, to: q };
    let parameters = Span {
        from: q,
        to: s.len(),
    };
    command::judged(
        formless,
        long,
        Command::Define(Definition::Aperture {
            number: n.value,
            name,
            parameters,
            rounded: ps.rounded,
        }),
    )
}

// AD.
pub fn aperture_of(s: &[u8]) -> Command
    ensures { result ≡ aperture_of s.now }
{
    if text::begins(s, b"ADD") {
        let p = digits::past_digits(s, 3);
        let q = text::find(s, p, b',');
        return defined(s, p, q);
    }
    Command::Broken(Flaw::NotForm)
}
