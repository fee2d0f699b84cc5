// What a command says: the answer of every recogniser.
#![tactic(auto)]

ghost use Rattle.std.specs.Prelude.{◌≡◌};
ghost use Rattle.base.specs.Bytes.{same_bytes};
ghost use Rattle.base.specs.Choose.{pick};
ghost use Rattle.command.specs.Flaws.{flaw_number};
ghost use Rattle.faults.specs.Rule.{number_of_rule};
ghost use Rattle.command.specs.Rounded.{counted, rounded_in_setting, rounded_in_definition, rounded_in_bracket, rounded_of};
ghost use Rattle.command.specs.Numbers.{judged, in_range, aperture_number, any_size, copies_of, sized_as, size_of};

use decimal::{Amount, Decimal};
use digits::NumberError;
use faults::Rule;
use formats::Format;
use points::Point;

// A part of the command's text.
#[derive(Clone, Copy)]
pub struct Span {
    pub from: usize,
    pub to: usize,
}

// I and J of a D01, together, and whether one of them has a sign.
#[derive(Clone, Copy)]
pub struct Offset {
    pub offset: Point,
    pub signed: bool,
}

// A number of a command as it is written: whether it is none (4), whether it is too long or outside its range (5), and its value,
// which is 0 without one.
#[derive(Clone, Copy)]
pub struct Number {
    pub formless: bool,
    pub long: bool,
    pub value: u64,
}

// A decimal of a command, likewise, and whether it was rounded.
#[derive(Clone, Copy)]
pub struct Size {
    pub formless: bool,
    pub long: bool,
    pub rounded: bool,
    pub value: Amount,
}

// Why a command cannot be read.
#[derive(Clone, Copy)]
pub enum Flaw {
    // 4: unknown, or not of its form
    NotForm,
    // 30: a command of the old book, or a format of it, that is not read
    Unread,
    // 5: a number too long, or outside its range
    TooLong,
}

// What sets a part of the graphics state. LR and LS say how many of their decimals were rounded.
#[derive(Clone, Copy)]
pub enum Setting {
    // G01, G02, G03
    Linear,
    Clockwise,
    Counterclockwise,
    // G74, G75
    SingleQuadrant,
    MultiQuadrant,
    // G36, G37
    RegionStart,
    RegionEnd,
    // FS
    Format(Format),
    // G90, G91
    Absolute,
    Incremental,
    // MO
    Millimetres,
    Inches,
    // G71, G70
    CodedMillimetres,
    CodedInches,
    // M00, M01
    Halt,
    // LP
    Dark,
    Clear,
    // LM
    Mirror { x: bool, y: bool },
    // LR, LS
    Rotation { angle: Amount, rounded: usize },
    Scale { factor: Amount, rounded: usize },
}

// D01, D02 and D03.
#[derive(Clone, Copy)]
pub enum Operation {
    Draw {
        x: Option<i64>,
        y: Option<i64>,
        centre: Option<Offset>,
    },
    Move {
        x: Option<i64>,
        y: Option<i64>,
    },
    Flash {
        x: Option<i64>,
        y: Option<i64>,
    },
}

// What defines an aperture or a macro, and how many of its decimals were rounded.
#[derive(Clone, Copy)]
pub enum Definition {
    // AD
    Aperture {
        number: u64,
        name: Span,
        parameters: Span,
        rounded: usize,
    },
    // AM, its blocks without the last `*`, and whether its parentheses are too deep
    Macro {
        name: Span,
        blocks: Span,
        deep: bool,
        rounded: usize,
    },
}

// What opens and closes a block or a repeat.
#[derive(Clone, Copy)]
pub enum Bracket {
    // AB
    BlockStart(u64),
    BlockEnd,
    // SR; a number of 10^12 or more counts as 10^12; and how many of its decimals were rounded
    RepeatStart {
        nx: u64,
        ny: u64,
        dx: Amount,
        dy: Amount,
        rounded: usize,
    },
    RepeatEnd,
}

// What is done to an attribute. One without a comma has its value at 0 to 0.
#[derive(Clone, Copy)]
pub enum Deed {
    // TF, TA, TO
    SetFile { name: Span, value: Span },
    SetAperture { name: Span, value: Span },
    SetObject { name: Span, value: Span },
    // TD
    Delete { name: Span },
    DeleteAll,
}

// A command by its role. Spans are in the command's text: a word command's without its `*`, an extended one's between its two `%`.
#[derive(Clone, Copy)]
pub enum Command {
    // 4, 30 or 5
    Broken(Flaw),
    // G04
    Note,
    // M02
    End,
    Set(Setting),
    Operate(Operation),
    // an operation after a G code of the old book
    Coded { code: Setting, operation: Operation },
    // Dn
    Select(u64),
    Define(Definition),
    Contain(Bracket),
    Attribute(Deed),
}

// The first where the test holds, else the second.
#[tactic(auto, unfolding(base::specs::Choose::pick))]
pub fn pick<T: Copy>(test: bool, yes: T, no: T) -> T
    ensures { result ≡ pick test yes no }
{
    if test { yes } else { no }
}

// A row of a table: the command where s is w, else what the rows after it say.
pub fn row(s: &[u8], w: &[u8], c: Command, other: Command) -> Command
    ensures { result ≡ pick (same_bytes s.now w.now) c other }
{
    pick(text::is(s, w), c, other)
}

// 4 where the form is broken, else 5 where a number is too long, else the command.
#[tactic(auto, unfolding(crate::specs::Numbers::judged))]
pub fn judged(formless: bool, long: bool, c: Command) -> Command
    ensures { result ≡ judged formless long c }
{
    pick(
        formless,
        Command::Broken(Flaw::NotForm),
        pick(long, Command::Broken(Flaw::TooLong), c),
    )
}

// The number of an aperture, of its digits.
#[tactic(auto, unfolding(crate::specs::Numbers::in_range))]
fn in_range(n: Result<u64, NumberError>) -> Number
    ensures { result ≡ in_range n }
{
    match n {
        Err(NumberError::NotForm) => Number {
            formless: true,
            long: false,
            value: 0,
        },
        Err(NumberError::TooLong) => Number {
            formless: false,
            long: true,
            value: 0,
        },
        Ok(v) => Number {
            formless: v < 10,
            long: 2147483648 <= v,
            value: v,
        },
    }
}

// The number of an aperture that these bytes write.
pub fn aperture_number(t: &[u8]) -> Number
    ensures { result ≡ aperture_number t.now }
{
    in_range(digits::natural(t, 0, t.len()))
}

// A repeat's number of copies, of its digits.
#[tactic(auto, unfolding(crate::specs::Numbers::any_size))]
fn any_size(n: Result<u64, NumberError>) -> Number
    ensures { result ≡ any_size n }
{
    match n {
        Err(NumberError::NotForm) => Number {
            formless: true,
            long: false,
            value: 0,
        },
        Err(NumberError::TooLong) => Number {
            formless: false,
            long: false,
            value: 1000000000000,
        },
        Ok(v) => Number {
            formless: false,
            long: false,
            value: v,
        },
    }
}

// The number of copies that these bytes write.
pub fn copies(t: &[u8]) -> Number
    ensures { result ≡ copies_of t.now }
{
    any_size(digits::natural(t, 0, t.len()))
}

// A decimal with its faults.
#[tactic(auto, unfolding(crate::specs::Numbers::sized_as))]
fn sized(d: Result<Decimal, NumberError>) -> Size
    ensures { result ≡ sized_as d }
{
    match d {
        Err(NumberError::NotForm) => Size {
            formless: true,
            long: false,
            rounded: false,
            value: Amount { millionths: 0 },
        },
        Err(NumberError::TooLong) => Size {
            formless: false,
            long: true,
            rounded: false,
            value: Amount { millionths: 0 },
        },
        Ok(Decimal { amount, rounded }) => Size {
            formless: false,
            long: false,
            rounded,
            value: amount,
        },
    }
}

// The decimal that these bytes write.
pub fn size_of(t: &[u8]) -> Size
    ensures { result ≡ size_of t.now }
{
    sized(decimal::decimal(t, 0, t.len()))
}

// The rule that a flaw breaks.
#[tactic(auto, unfolding(crate::specs::Flaws::flaw_number, faults::specs::Rule::number_of_rule))]
pub fn rule_of(f: Flaw) -> Rule
    ensures { number_of_rule result ≡ flaw_number f }
{
    match f {
        Flaw::NotForm => Rule::NotOfForm,
        Flaw::Unread => Rule::Unread,
        Flaw::TooLong => Rule::OutOfRange,
    }
}

// 1 where a decimal was rounded.
#[tactic(auto, unfolding(crate::specs::Rounded::counted))]
pub fn counted(rounded: bool) -> usize
    ensures { result ≡ counted rounded }
{
    usize::from(rounded)
}

// How many decimals of a setting were rounded.
#[tactic(auto, unfolding(crate::specs::Rounded::rounded_in_setting))]
fn rounded_in_setting(s: Setting) -> usize
    ensures { result ≡ rounded_in_setting s }
{
    match s {
        Setting::Rotation { rounded, .. } | Setting::Scale { rounded, .. } => rounded,
        _ => 0,
    }
}

// How many decimals of a definition were rounded.
#[tactic(auto, unfolding(crate::specs::Rounded::rounded_in_definition))]
fn rounded_in_definition(d: Definition) -> usize
    ensures { result ≡ rounded_in_definition d }
{
    match d {
        Definition::Aperture { rounded, .. } | Definition::Macro { rounded, .. } => rounded,
    }
}

// How many decimals of AB or SR were rounded.
#[tactic(auto, unfolding(crate::specs::Rounded::rounded_in_bracket))]
fn rounded_in_bracket(b: Bracket) -> usize
    ensures { result ≡ rounded_in_bracket b }
{
    match b {
        Bracket::RepeatStart { rounded, .. } => rounded,
        _ => 0,
    }
}

// How many decimals of a command were rounded.
#[tactic(auto, unfolding(crate::specs::Rounded::rounded_of))]
pub fn rounded_of(c: Command) -> usize
    ensures { result ≡ rounded_of c }
{
    match c {
        Command::Set(s) => rounded_in_setting(s),
        Command::Define(d) => rounded_in_definition(d),
        Command::Contain(b) => rounded_in_bracket(b),
        _ => 0,
    }
}
