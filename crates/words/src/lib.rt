// Word commands: what the text up to `*` says, in each edition.
#![tactic(auto)]

ghost use Rattle.std.specs.Prelude.{◌≡◌, eqb, drop};
ghost use Rattle.text.specs.Text.{◌begins◌};
ghost use Rattle.base.specs.Choose.{pick};
ghost use Rattle.command.specs.declared.Setting.TheVariants.{Linear, Clockwise, Counterclockwise};
ghost use Rattle.words.specs.Newer.{comment_of, select_of, code_of, newer_word};
ghost use Rattle.words.specs.Old.{setting_of, operated, said};
ghost use Rattle.words.specs.Words.{word_of};

use book::Book;
use command::{Command, Flaw, Setting};
use films::Word;
use formats::Format;
use operations::Written;

// G04 and its string.
#[tactic(auto, unfolding(crate::specs::Newer::comment_of))]
fn comment_of(s: &[u8]) -> Command
    ensures { result ≡ comment_of s.now }
{
    command::pick(
        text::one_of(s, b'%'),
        Command::Broken(Flaw::NotForm),
        Command::Note,
    )
}

// Dn, of what stands after its D.
#[tactic(auto, unfolding(crate::specs::Newer::select_of))]
fn select_of(t: &[u8]) -> Command
    ensures { result ≡ select_of t.now }
{
    let n = command::aperture_number(t);
    command::judged(n.formless, n.long, Command::Select(n.value))
}

// The codes that stand alone.
#[tactic(auto, unfolding(crate::specs::Newer::code_of))]
fn code_of(s: &[u8]) -> Command
    ensures { result ≡ code_of s.now }
{
    let m02 = command::row(s, b"M02", Command::End, Command::Broken(Flaw::NotForm));
    let g37 = command::row(s, b"G37", Command::Set(Setting::RegionEnd), m02);
    let g36 = command::row(s, b"G36", Command::Set(Setting::RegionStart), g37);
    let g75 = command::row(s, b"G75", Command::Set(Setting::MultiQuadrant), g36);
    let g03 = command::row(s, b"G03", Command::Set(Setting::Counterclockwise), g75);
    let g02 = command::row(s, b"G02", Command::Set(Setting::Clockwise), g03);
    command::row(s, b"G01", Command::Set(Setting::Linear), g02)
}

// A word command that is no comment and no operation.
#[tactic(auto, unfolding(base::specs::Choose::pick))]
fn other_of(s: &[u8]) -> Command
    ensures { result ≡ pick (s.now begins "D") (select_of (drop 1 s.now)) (code_of s.now) }
{
    if text::begins(s, b"D") {
        return select_of(base::from_on(s, 1));
    }
    code_of(s)
}

// A word command of the newer edition; the format is that of FS.
fn newer_word(format: Format, s: &[u8]) -> Command
    ensures { result ≡ newer_word format s.now }
{
    if text::begins(s, b"G04") {
        return comment_of(s);
    }
    let number = operations::operation_code(s);
    if number == 0 {
        return other_of(s);
    }
    operations::operation_of(number, format, s)
}

// What a G code from G36 on sets: what is left of the table after the rows of G01, G02 and G03. Any but those of the list is 91.
#[tactic(auto, unfolding(crate::specs::Old::setting_of))]
fn later_setting_of(code: u64) -> Setting
    ensures { setting_of code ≡ pick (eqb code 1) Linear (pick (eqb code 2) Clockwise (pick (eqb code 3) Counterclockwise result)) }
{
    let g90 = command::pick(code == 90, Setting::Absolute, Setting::Incremental);
    let g75 = command::pick(code == 75, Setting::MultiQuadrant, g90);
    let g74 = command::pick(code == 74, Setting::SingleQuadrant, g75);
    let g71 = command::pick(code == 71, Setting::CodedMillimetres, g74);
    let g70 = command::pick(code == 70, Setting::CodedInches, g71);
    let g37 = command::pick(code == 37, Setting::RegionEnd, g70);
    command::pick(code == 36, Setting::RegionStart, g37)
}

// What a G code of the old book sets, by its number. Any but those of the list is 91.
#[tactic(auto, unfolding(base::specs::Choose::pick, crate::specs::Old::setting_of))]
fn setting_of(code: u64) -> Setting
    ensures { result ≡ setting_of code }
{
    if code == 1 {
        return Setting::Linear;
    }
    if code == 2 {
        return Setting::Clockwise;
    }
    if code == 3 {
        return Setting::Counterclockwise;
    }
    later_setting_of(code)
}

// An operation, alone where the code is 0, else after that G code.
#[tactic(auto, unfolding(base::specs::Choose::pick, crate::specs::Old::operated))]
fn operated(code: u64, w: Written) -> Command
    ensures { result ≡ operated code w }
{
    if code == 0 {
        return operations::operates(w);
    }
    operations::coded(setting_of(code), w)
}

// What a word command of the old book says, of what it is cut into.
fn said(format: Format, s: &[u8], word: Word) -> Command
    ensures { result ≡ said format s.now word }
{
    match word {
        Word::NotForm => Command::Broken(Flaw::NotForm),
        Word::Note => Command::Note,
        Word::Halt => Command::Set(Setting::Halt),
        Word::End => Command::End,
        Word::Code(code) => Command::Set(setting_of(code)),
        Word::Select(at) => select_of(base::from_on(s, at)),
        Word::Operate {
            code,
            operation,
            from,
            to,
        } => operated(
            code,
            operations::operation_in(operation, format, base::part(s, from, to)),
        ),
    }
}

// A word command, by the edition of the book; the format is that of FS.
pub fn word_of(book: Book, format: Format, s: &[u8]) -> Command
    ensures { result ≡ word_of book format s.now }
{
    if book::is_old(book) {
        return said(format, s, films::word_of(s));
    }
    newer_word(format, s)
}
