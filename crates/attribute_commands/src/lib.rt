// Commands that set and delete attributes: TF, TA, TO and TD. A text is that of one data block, without its `*`.
#![tactic(auto)]

ghost use Rattle.std.specs.Prelude.{◌≡◌, length};
ghost use Rattle.attribute_commands.specs.Attributes.{value_of, attribute_of, deletion_of};

use command::{Command, Deed, Flaw, Span};

// What follows the comma, at 0 to 0 where there is none.
fn value_of(s: &[u8], comma: usize) -> Span
    ensures { result ≡ value_of comma (length s.now) }
{
    if comma < s.len() {
        return Span {
            from: comma + 1,
            to: s.len(),
        };
    }
    Span { from: 0, to: 0 }
}

// TF, TA and TO.
pub fn attribute_of(s: &[u8]) -> Command
    ensures { result ≡ attribute_of s.now }
{
    let comma = text::find(s, 2, b',');
    let name = Span { from: 2, to: comma };
    let value = value_of(s, comma);
    let object = Command::Attribute(Deed::SetObject { name, value });
    let to = command::pick(
        text::begins(s, b"TO"),
        object,
        Command::Broken(Flaw::NotForm),
    );
    let aperture = Command::Attribute(Deed::SetAperture { name, value });
    let ta = command::pick(text::begins(s, b"TA"), aperture, to);
    let file = Command::Attribute(Deed::SetFile { name, value });
    let tf = command::pick(text::begins(s, b"TF"), file, ta);
    command::pick(
        text::is_name(base::part(s, 2, comma)),
        tf,
        Command::Broken(Flaw::NotForm),
    )
}

// TD.
pub fn deletion_of(s: &[u8]) -> Command
    ensures { result ≡ deletion_of s.now }
{
    if text::is(s, b"TD") {
        return Command::Attribute(Deed::DeleteAll);
    }
    let named = base::both(text::begins(s, b"TD"), text::is_name(base::from_on(s, 2)));
    let name = Span {
        from: 2,
        to: s.len(),
    };
    command::pick(
        named,
        Command::Attribute(Deed::Delete { name }),
        Command::Broken(Flaw::NotForm),
    )
}
