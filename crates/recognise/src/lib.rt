// What a command says, by one call for every kind of command and for both editions.
#![tactic(auto)]

ghost use Rattle.std.specs.Prelude.{◌≡◌};
ghost use Rattle.recognise.specs.Commands.{one_block, is_unread, data_of, data_in, extended_of, command_of};

use book::Book;
use command::{Command, Flaw};
use formats::Format;
use scan::Kind;

// The text up to its first `*` is its only data block.
#[tactic(auto, using(base::proofs::Or::joins), unfolding(crate::specs::Commands::one_block))]
fn is_one_block(s: &[u8], star: usize) -> bool
    ensures { result ≡ one_block s.now star }
{
    star < s.len() && s.len() <= text::past_breaks(s, star + 1)
}

// A data block that the old edition has, and that is not read (30).
#[tactic(auto, using(base::proofs::Or::joins), unfolding(crate::specs::Commands::is_unread))]
fn is_unread(book: Book, s: &[u8]) -> bool
    ensures { result ≡ is_unread book s.now }
{
    book::is_old(book) && films::is_refused(s)
}

// A data block that is read, without its `*`.
#[tactic(auto, unfolding(base::specs::Choose::pick, crate::specs::Commands::data_of))]
fn data_of(book: Book, s: &[u8]) -> Command
    ensures { result ≡ data_of book s.now }
{
    if text::begins(s, b"FS") {
        return settings::format_of(book, s);
    }
    if text::begins(s, b"MO") {
        return settings::unit_of(s);
    }
    if text::begins(s, b"AD") {
        return apertures::aperture_of(s);
    }
    if text::begins(s, b"AB") {
        return apertures::block_of(s);
    }
    if text::begins(s, b"SR") {
        return settings::repeat_of(s);
    }
    if text::begins(s, b"L") {
        return settings::transformation_of(s);
    }
    if text::begins(s, b"TD") {
        return attribute_commands::deletion_of(s);
    }
    attribute_commands::attribute_of(s)
}

// A data block, without its `*`.
#[tactic(auto, unfolding(base::specs::Choose::pick, crate::specs::Commands::data_in))]
fn data_in(book: Book, s: &[u8]) -> Command
    ensures { result ≡ data_in book s.now }
{
    if is_unread(book, s) {
        return Command::Broken(Flaw::Unread);
    }
    data_of(book, s)
}

// An extended command but AM.
#[tactic(auto, unfolding(base::specs::Choose::pick, crate::specs::Commands::extended_of))]
fn extended_of(book: Book, s: &[u8]) -> Command
    ensures { result ≡ extended_of book s.now }
{
    let star = text::find(s, 0, b'*');
    if is_one_block(s, star) {
        return data_in(book, base::up_to(s, star));
    }
    Command::Broken(Flaw::NotForm)
}

// The command of this kind with this text, as scan gives them, by the edition of the book; the format is that of FS.
#[tactic(auto, unfolding(crate::specs::Commands::command_of))]
pub fn command_of(book: Book, format: Format, kind: Kind, s: &[u8]) -> Command
    ensures { result ≡ command_of book format kind s.now }
{
    match kind {
        Kind::Word => words::word_of(book, format, s),
        Kind::Extended => extended_of(book, s),
        Kind::Macro => macro_form::macro_of(s),
    }
}
