// Commands that set something or repeat it: FS, MO, LP, LM, LR, LS and SR. A text is that of one data block, without its `*`.
#![tactic(auto)]

ghost use Rattle.std.specs.Prelude.{◌≡◌};
ghost use Rattle.settings.specs.Header.{formatted, format_of, unit_of};
ghost use Rattle.settings.specs.Transformations.{rotation_of, scale_of, mirror_of, transformation_of};
ghost use Rattle.settings.specs.Repeats.{repeats, repeat_start, repeat_of};

use book::Book;
use command::{Bracket, Command, Flaw, Number, Setting, Size};
use formats::{Format, FormatError};

// What FS says, as a command.
#[tactic(auto, unfolding(crate::specs::Header::formatted))]
fn formatted(said: Result<Format, FormatError>) -> Command
    ensures { result ≡ formatted said }
{
    match said {
        Err(FormatError::NotForm) => Command::Broken(Flaw::NotForm),
        Err(FormatError::SevenPlaces) => Command::Broken(Flaw::Unread),
        Ok(format) => Command::Set(Setting::Format(format)),
    }
}

// FS, by the edition of the book.
#[tactic(auto, unfolding(base::specs::Choose::pick, crate::specs::Header::format_of))]
pub fn format_of(book: Book, s: &[u8]) -> Command
    ensures { result ≡ format_of book s.now }
{
    if book::is_old(book) {
        return formatted(formats::old_format(s));
    }
    formatted(formats::newer_format(s))
}

// MO.
#[tactic(auto, unfolding(base::specs::Choose::pick, crate::specs::Header::unit_of))]
pub fn unit_of(s: &[u8]) -> Command
    ensures { result ≡ unit_of s.now }
{
    let inches = command::row(
        s,
        b"MOIN",
        Command::Set(Setting::Inches),
        Command::Broken(Flaw::NotForm),
    );
    command::row(s, b"MOMM", Command::Set(Setting::Millimetres), inches)
}

// LR.
#[tactic(auto, unfolding(crate::specs::Transformations::rotation_of))]
fn rotation_of(s: &[u8]) -> Command
    ensures { result ≡ rotation_of s.now }
{
    let d = command::size_of(base::from_on(s, 2));
    let angle = d.value;
    let rounded = command::counted(d.rounded);
    command::judged(
        d.formless,
        d.long,
        Command::Set(Setting::Rotation { angle, rounded }),
    )
}

// LS.
#[tactic(auto, unfolding(crate::specs::Transformations::scale_of))]
fn scale_of(s: &[u8]) -> Command
    ensures { result ≡ scale_of s.now }
{
    let d = command::size_of(base::from_on(s, 2));
    let factor = d.value;
    let rounded = command::counted(d.rounded);
    command::judged(
        d.formless,
        d.long,
        Command::Set(Setting::Scale { factor, rounded }),
    )
}

// LM.
#[tactic(auto, unfolding(base::specs::Choose::pick, crate::specs::Transformations::mirror_of))]
fn mirror_of(s: &[u8]) -> Command
    ensures { result ≡ mirror_of s.now }
{
    let xy = command::row(
        s,
        b"LMXY",
        Command::Set(Setting::Mirror { x: true, y: true }),
        Command::Broken(Flaw::NotForm),
    );
    let y = command::row(
        s,
        b"LMY",
        Command::Set(Setting::Mirror { x: false, y: true }),
        xy,
    );
    let x = command::row(
        s,
        b"LMX",
        Command::Set(Setting::Mirror { x: true, y: false }),
        y,
    );
    command::row(
        s,
        b"LMN",
        Command::Set(Setting::Mirror { x: false, y: false }),
        x,
    )
}

// LP, LM, LR and LS.
#[tactic(auto, unfolding(base::specs::Choose::pick, crate::specs::Transformations::transformation_of))]
pub fn transformation_of(s: &[u8]) -> Command
    ensures { result ≡ transformation_of s.now }
{
    if text::is(s, b"LPD") {
        return Command::Set(Setting::Dark);
    }
    if text::is(s, b"LPC") {
        return Command::Set(Setting::Clear);
    }
    if text::begins(s, b"LM") {
        return mirror_of(s);
    }
    if text::begins(s, b"LR") {
        return rotation_of(s);
    }
    if text::begins(s, b"LS") {
        return scale_of(s);
    }
    Command::Broken(Flaw::NotForm)
}

// A repeat of these numbers.
fn repeated(nx: Number, ny: Number, dx: Size, dy: Size) -> Command
    ensures { result ≡ repeats nx ny dx dy }
{
    let formless = base::either(
        base::either(base::either(nx.formless, ny.formless), dx.formless),
        dy.formless,
    );
    let x = dx.value;
    let y = dy.value;
    let rounded = command::counted(dx.rounded) + command::counted(dy.rounded);
    command::judged(
        formless,
        base::either(dx.long, dy.long),
        Command::Contain(Bracket::RepeatStart {
            nx: nx.value,
            ny: ny.value,
            dx: x,
            dy: y,
            rounded,
        }),
    )
}

// What follows `SRX`.
#[tactic(auto, unfolding(crate::specs::Repeats::repeat_start))]
fn repeat_start(x: &[u8]) -> Command
    ensures { result ≡ repeat_start x.now }
{
    let y = text::after(x, b'Y');
    let i = text::after(y, b'I');
    let j = text::after(i, b'J');
    let nx = command::copies(text::before(x, b'Y'));
    let ny = command::copies(text::before(y, b'I'));
    let dx = command::size_of(text::before(i, b'J'));
    let dy = command::size_of(j);
    repeated(nx, ny, dx, dy)
}

// SR.
#[tactic(auto, unfolding(base::specs::Choose::pick, crate::specs::Repeats::repeat_of))]
pub fn repeat_of(s: &[u8]) -> Command
    ensures { result ≡ repeat_of s.now }
{
    if text::is(s, b"SR") {
        return Command::Contain(Bracket::RepeatEnd);
    }
    if text::begins(s, b"SRX") {
        return repeat_start(base::from_on(s, 3));
    }
    Command::Broken(Flaw::NotForm)
}
