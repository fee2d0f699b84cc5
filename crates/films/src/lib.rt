// Word commands of the old book: which code stands in front, and what is left after it; and the extended commands that it has and that
// are not read.
#![tactic(auto)]

ghost use Rattle.std.specs.Prelude.{◌≡◌, length, take};
ghost use Rattle.base.specs.Bytes.{same_bytes};
ghost use Rattle.base.specs.Choose.{pick};
ghost use Rattle.base.specs.Or.{◌or◌};
ghost use Rattle.films.specs.Codes.{later_codes, code_of, ends_in_one, operation_in, operation_length, is_end};
ghost use Rattle.films.specs.Parameters.{is_refused};
ghost use Rattle.films.specs.Words.{comment_of, operate_of, coded_of, general_of, miscellaneous_of, other_of, word_of};

// What a word command says. Codes are their numbers: 1 for G01, 3 for D03; places are in the command's text, which has no `*`.
#[derive(Clone, Copy)]
pub enum Word {
    // 4: unknown, or not of its form
    NotForm,
    // G04
    Note,
    // M00, M01
    Halt,
    // M02
    End,
    // a G code alone
    Code(u64),
    // Dn, alone or after G54: its number stands from this place on
    Select(usize),
    // D01, D02 or D03 after a G code, 0 for none: its coordinates stand between the two places
    Operate {
        code: u64,
        operation: u64,
        from: usize,
        to: usize,
    },
}

// A row of a table: the number where t is w, else what the rows after it say.
fn row(t: &[u8], w: &[u8], number: u64, other: u64) -> u64
    ensures { result ≡ pick (same_bytes t.now w.now) number other }
{
    base::row(text::is(t, w), number, other)
}

// The number of a G code from G36 on, 0 where it is none of the list.
#[tactic(auto, unfolding(crate::specs::Codes::later_codes))]
fn later_codes(t: &[u8]) -> u64
    ensures { result ≡ later_codes t.now }
{
    let g91 = row(t, b"G91", 91, 0);
    let g90 = row(t, b"G90", 90, g91);
    let g75 = row(t, b"G75", 75, g90);
    let g74 = row(t, b"G74", 74, g75);
    let g71 = row(t, b"G71", 71, g74);
    let g70 = row(t, b"G70", 70, g71);
    let g54 = row(t, b"G54", 54, g70);
    let g37 = row(t, b"G37", 37, g54);
    row(t, b"G36", 36, g37)
}

// The number of a G code, 0 where it is none of the list.
#[tactic(auto, using(base::proofs::Or::joins), unfolding(base::specs::Choose::pick, crate::specs::Codes::code_of))]
fn code_of(t: &[u8]) -> u64
    ensures { result ≡ code_of t.now }
{
    if text::is(t, b"G01") || text::is(t, b"G1") {
        return 1;
    }
    if text::is(t, b"G02") || text::is(t, b"G2") {
        return 2;
    }
    if text::is(t, b"G03") || text::is(t, b"G3") {
        return 3;
    }
    later_codes(t)
}

// The text ends in one of two.
#[tactic(auto, using(base::proofs::Or::joins), unfolding(crate::specs::Codes::ends_in_one))]
fn ends(s: &[u8], v: &[u8], w: &[u8]) -> bool
    ensures { result ≡ ends_in_one s.now v.now w.now }
{
    text::ends(s, v) || text::ends(s, w)
}

// The number of the operation that a text ends in, 0 where it ends in none.
#[tactic(auto, unfolding(base::specs::Choose::pick, crate::specs::Codes::operation_in))]
fn operation_in(s: &[u8]) -> u64
    ensures { result ≡ operation_in s.now }
{
    if ends(s, b"D01", b"D1") {
        return 1;
    }
    if ends(s, b"D02", b"D2") {
        return 2;
    }
    if ends(s, b"D03", b"D3") {
        return 3;
    }
    0
}

// How many bytes the operation's code has at the end of a text: 2 or 3.
#[tactic(auto, unfolding(base::specs::Choose::pick, crate::specs::Codes::operation_length))]
fn operation_length(s: &[u8]) -> usize
    ensures { result ≡ operation_length s.now }
{
    if base::byte_at(s, text::before_last(s, 2)) == b'D' {
        return 2;
    }
    3
}

// M02.
#[tactic(auto, using(base::proofs::Or::joins), unfolding(crate::specs::Codes::is_end))]
pub fn is_end(s: &[u8]) -> bool
    ensures { result ≡ is_end s.now }
{
    text::is(s, b"M02") || text::is(s, b"M2")
}

// One test more: the text begins with w.
#[tactic(auto, using(base::proofs::Or::joins))]
fn or_begins(other: bool, s: &[u8], w: &[u8]) -> bool
    ensures { result ≡ (other or same_bytes (take (length w.now) s.now) w.now) }
{
    other || text::begins(s, w)
}

// A data block of the old book that is not read (30).
#[tactic(auto, unfolding(crate::specs::Parameters::is_refused))]
pub fn is_refused(s: &[u8]) -> bool
    ensures { result ≡ is_refused s.now }
{
    let axes = text::begins(s, b"AS");
    let mirror = or_begins(axes, s, b"MI");
    let offset = or_begins(mirror, s, b"OF");
    let scale = or_begins(offset, s, b"SF");
    let polarity = or_begins(scale, s, b"IP");
    let rotation = or_begins(polarity, s, b"IR");
    let knockout = or_begins(rotation, s, b"KO");
    let name = or_begins(knockout, s, b"LN");
    or_begins(name, s, b"SM")
}

// A comment, in which no `%` stands.
#[tactic(auto, unfolding(base::specs::Choose::pick, crate::specs::Words::comment_of))]
fn comment_of(s: &[u8]) -> Word
    ensures { result ≡ comment_of s.now }
{
    if text::one_of(s, b'%') {
        return Word::NotForm;
    }
    Word::Note
}

// An operation, of what stands from a place on after a code, or what is said where it is none.
#[tactic(auto, unfolding(base::specs::Choose::pick, crate::specs::Words::operate_of))]
fn operate_of(code: u64, from: usize, s: &[u8], other: Word) -> Word
    ensures { result ≡ operate_of code from s.now other }
{
    let operation = operation_in(base::from_on(s, from));
    if operation == 0 {
        return other;
    }
    Word::Operate {
        code,
        operation,
        from,
        to: text::before_last(s, operation_length(s)),
    }
}

// A G code whose digits end at a place: alone, before Dn or before an operation.
#[tactic(auto, unfolding(base::specs::Choose::pick, crate::specs::Words::coded_of))]
fn coded_of(code: u64, end: usize, s: &[u8]) -> Word
    ensures { result ≡ coded_of code end s.now }
{
    if code == 0 {
        return Word::NotForm;
    }
    if code == 54 {
        if base::byte_at(s, end) == b'D' {
            return Word::Select(end + 1);
        }
        return Word::NotForm;
    }
    if end == s.len() {
        return Word::Code(code);
    }
    operate_of(code, end, s, Word::NotForm)
}

// A word command that begins with G.
fn general_of(s: &[u8]) -> Word
    ensures { result ≡ general_of s.now }
{
    if text::begins(s, b"G04") {
        return comment_of(s);
    }
    let short = text::begins(s, b"G4");
    if base::both(short, !digits::is_digit(base::byte_at(s, 2))) {
        return comment_of(s);
    }
    let end = digits::past_digits(s, 1);
    coded_of(code_of(base::up_to(s, end)), end, s)
}

// A word command that begins with M.
#[tactic(auto, using(base::proofs::Or::joins), unfolding(base::specs::Choose::pick, crate::specs::Words::miscellaneous_of))]
fn miscellaneous_of(s: &[u8]) -> Word
    ensures { result ≡ miscellaneous_of s.now }
{
    if is_end(s) {
        return Word::End;
    }
    let stop = text::is(s, b"M00") || text::is(s, b"M0");
    let optional = text::is(s, b"M01") || text::is(s, b"M1");
    if stop || optional {
        return Word::Halt;
    }
    Word::NotForm
}

// A word command that begins with neither: an operation, or Dn.
#[tactic(auto, unfolding(base::specs::Choose::pick, crate::specs::Words::other_of))]
fn other_of(s: &[u8]) -> Word
    ensures { result ≡ other_of s.now }
{
    if base::byte_at(s, 0) == b'D' {
        return operate_of(0, 0, s, Word::Select(1));
    }
    operate_of(0, 0, s, Word::NotForm)
}

// A word command, of its text without the `*`.
#[tactic(auto, unfolding(base::specs::Choose::pick, crate::specs::Words::word_of))]
pub fn word_of(s: &[u8]) -> Word
    ensures { result ≡ word_of s.now }
{
    let letter = base::byte_at(s, 0);
    if letter == b'G' {
        return general_of(s);
    }
    if letter == b'M' {
        return miscellaneous_of(s);
    }
    other_of(s)
}
