// The rules that a command can break, and of two faults of one command the one whose rule is tested first.
#![tactic(auto)]

ghost use Rattle.std.specs.Prelude.{◌≡◌};
ghost use Rattle.faults.specs.Order.{rank_of, tested_before, sooner};
ghost use Rattle.faults.specs.Rule.{number_of_rule, first_of};

// A rule that a command breaks.
#[derive(Clone, Copy, PartialEq, Eq)]
pub enum Rule {
    // 4: the command is unknown, or not of its form
    NotOfForm,
    // 5: a number is too long, or outside its range
    OutOfRange,
    // 6: FS or MO is given twice, or missing at an operation or at M02
    Header,
    // 7: the command is not allowed here, or something is open at M02
    Misplaced,
    // 8: the aperture or the macro is unknown, or its number or name taken
    UnknownOrTaken,
    // 9: an expression of a macro has no value, or one too large
    Undefined,
    // 10: a parameter is outside its rule
    Parameter,
    // 11: the operation does not fit the state
    Misfit,
    // 12: the arc's centre makes no sense
    BadCentre,
    // 13: the contour is not closed
    Unclosed,
    // 14: the block is flashed at a scale other than 1, or at an angle that is no multiple of 90 degrees
    Askew,
    // 15: too deep
    TooDeep,
    // 16: too many items
    TooMany,
    // 17: the room is used up
    NoRoom,
    // 19: a file attribute's name is set twice
    NameTwice,
    // 29: the contour has no move of its own before it
    Moveless,
    // 30: a command of the old book, or a format of it, that is not read
    Unread,
    // 31: no centre of the arc remains, or two tie
    Centreless,
}

impl From<Rule> for u64 {
    ghost from_gives = { λ rule n. n ≡ number_of_rule rule };

    #[tactic(auto, unfolding(crate::specs::Rule::number_of_rule))]
    fn from(rule: Rule) -> u64 {
        match rule {
            Rule::NotOfForm => 4,
            Rule::OutOfRange => 5,
            Rule::Header => 6,
            Rule::Misplaced => 7,
            Rule::UnknownOrTaken => 8,
            Rule::Undefined => 9,
            Rule::Parameter => 10,
            Rule::Misfit => 11,
            Rule::BadCentre => 12,
            Rule::Unclosed => 13,
            Rule::Askew => 14,
            Rule::TooDeep => 15,
            Rule::TooMany => 16,
            Rule::NoRoom => 17,
            Rule::NameTwice => 19,
            Rule::Moveless => 29,
            Rule::Unread => 30,
            Rule::Centreless => 31,
        }
    }
}

// The rule after which this one is tested, or itself where it is tested by its number.
#[tactic(auto, unfolding(crate::specs::Order::rank_of, base::specs::Choose::pick))]
fn rank_of(n: u64) -> u64
    ensures { result ≡ rank_of n }
{
    match n {
        30 => 4,
        29 => 11,
        31 => 12,
        _ => n,
    }
}

// The rule a is tested before the rule b.
#[tactic(auto, using(base::proofs::Or::joins), unfolding(crate::specs::Order::tested_before))]
fn tested_before(a: u64, b: u64) -> bool
    ensures { result ≡ tested_before a b }
{
    let rank = rank_of(b);
    rank_of(a) < rank || (a == rank && b != rank)
}

// Of two faults, 0 for none, the one tested first; 0 where there is none.
#[tactic(auto, unfolding(crate::specs::Order::sooner, base::specs::Choose::pick))]
pub fn sooner(a: u64, b: u64) -> u64
    ensures { result ≡ sooner a b }
{
    match (a, b) {
        (0, _) => b,
        (_, 0) => a,
        _ if tested_before(b, a) => b,
        _ => a,
    }
}

// Of the faults of a code, if there is one, and of the operation after it, the one tested first.
#[tactic(auto, unfolding(crate::specs::Rule::first_of))]
pub fn first_of(a: Result<(), Rule>, b: Rule) -> Rule
    ensures { result ≡ first_of a b }
{
    match a {
        Err(rule) if !tested_before(b.into(), rule.into()) => rule,
        _ => b,
    }
}
