// By which book a file is read: what every call that is given a file's bytes is told, handed on whole by everyone who does not ask it
// something.
#![tactic(auto)]

ghost use Rattle.std.specs.Prelude.{◌≡◌};
ghost use Rattle.book.specs.Books.{ascii, is_old};

// Which edition of the format: the newer one of document 01, or the old book's, RS-274X.
#[derive(Clone, Copy)]
pub enum Edition {
    New,
    Old,
}

// Which letters may stand in fields and in G04's text: of ASCII alone, or UTF-8 too.
#[derive(Clone, Copy)]
pub enum Letters {
    Old,
    New,
}

// The edition, and the rule of letters.
#[derive(Clone, Copy)]
pub struct Book {
    pub edition: Edition,
    pub letters: Letters,
}

// Document 01's: the newer edition, no letter beyond ASCII.
pub fn ascii() -> Book
    ensures { result ≡ ascii }
{
    Book {
        edition: Edition::New,
        letters: Letters::Old,
    }
}

// The edition is the old book's.
#[tactic(auto, unfolding(crate::specs::Books::is_old, crate::specs::Books::is_old_edition))]
pub fn is_old(b: Book) -> bool
    ensures { result ≡ is_old b }
{
    matches!(b.edition, Edition::Old)
}
