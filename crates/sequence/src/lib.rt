// The commands of a file, one after the other, with the faults 2, 3, 4, 30 and 18.
#![tactic(auto)]

ghost use Rattle.std.specs.Prelude.{◌≡◌};
ghost use Rattle.scan.specs.Tail.{tail_of};
ghost use Rattle.sequence.specs.Leads.{lead_of_flaw, lead_of_setting, lead_of};
ghost use Rattle.sequence.specs.Turns.{led, turn_of, tail_fault};

use book::Book;
use command::{Command, Flaw, Setting};
use formats::Format;
use scan::{Scan, Tail};

// A refusal of the reading: document 01's number, and the place; 0 at 0 is none.
#[derive(Clone, Copy)]
pub struct Refusal {
    pub number: u64,
    pub place: usize,
}

// A command of the file: where it begins, its text from..end, and what it says.
#[derive(Clone, Copy)]
pub struct Placed {
    pub place: usize,
    pub from: usize,
    pub end: usize,
    pub command: Command,
}

// How a command leads on.
#[derive(Clone, Copy)]
pub enum Lead {
    // to 4 or 30
    Broken(u64),
    Last,
    Format(Format),
    Other,
}

// What stands next: a fault; M02, with the place past it; another command, with the format from there on and the place past it.
#[derive(Clone, Copy)]
pub enum Turn {
    Fault(Refusal),
    Last {
        command: Placed,
        next: usize,
    },
    More {
        command: Placed,
        format: Format,
        next: usize,
    },
}

// How a command that cannot be read leads on.
#[tactic(auto, unfolding(crate::specs::Leads::lead_of_flaw, command::specs::Flaws::flaw_number))]
fn lead_of_flaw(f: Flaw) -> Lead
    ensures { result ≡ lead_of_flaw f }
{
    match f {
        Flaw::NotForm => Lead::Broken(4),
        Flaw::Unread => Lead::Broken(30),
        Flaw::TooLong => Lead::Other,
    }
}

// How a setting leads on.
#[tactic(auto, unfolding(crate::specs::Leads::lead_of_setting))]
fn lead_of_setting(s: Setting) -> Lead
    ensures { result ≡ lead_of_setting s }
{
    match s {
        Setting::Format(format) => Lead::Format(format),
        _ => Lead::Other,
    }
}

// How a command leads on.
#[tactic(auto, unfolding(crate::specs::Leads::lead_of))]
fn lead_of(c: Command) -> Lead
    ensures { result ≡ lead_of c }
{
    match c {
        Command::Broken(f) => lead_of_flaw(f),
        Command::End => Lead::Last,
        Command::Set(s) => lead_of_setting(s),
        _ => Lead::Other,
    }
}

// A command that leads on so, the format being that before it.
#[tactic(auto, unfolding(crate::specs::Turns::led))]
fn led(format: Format, c: Placed, lead: Lead, next: usize) -> Turn
    ensures { result ≡ led format c lead next }
{
    match lead {
        Lead::Broken(number) => Turn::Fault(Refusal {
            number,
            place: c.place,
        }),
        Lead::Last => Turn::Last { command: c, next },
        Lead::Format(f) => Turn::More {
            command: c,
            format: f,
            next,
        },
        Lead::Other => Turn::More {
            command: c,
            format,
            next,
        },
    }
}

// What stands next from a place on, by a book; the format is that of FS, none before it. LLVM does not inline it by itself, and then hands
// its answer over in memory (docs/DESIGN-PASS.md, Speed).
#[inline(always)]
#[tactic(auto, unfolding(crate::specs::Turns::turn_of, crate::specs::Turns::turned))]
pub fn turn_at(book: Book, format: Format, file: &[u8], at: usize) -> Turn
    ensures { result ≡ turn_of book format file.now at }
{
    match scan::next_command(book, file, at) {
        Scan::Command {
            kind,
            place,
            from,
            end,
            next,
        } => {
            let text = base::part(file, from, end);
            let command = recognise::command_of(book, format, kind, text);
            led(
                format,
                Placed {
                    place,
                    from,
                    end,
                    command,
                },
                lead_of(command),
                next,
            )
        }
        Scan::BadByte { place } => Turn::Fault(Refusal { number: 2, place }),
        Scan::Ended { place } => Turn::Fault(Refusal { number: 3, place }),
    }
}

// The fault of what follows M02, from the place past it on.
#[tactic(auto, unfolding(crate::specs::Turns::tail_fault))]
pub fn tail_fault(file: &[u8], next: usize) -> Refusal
    ensures { result ≡ tail_fault (tail_of file.now next) }
{
    match scan::tail_from(file, next) {
        Tail::Clean => Refusal {
            number: 0,
            place: 0,
        },
        Tail::Unprintable { place } => Refusal { number: 2, place },
        Tail::More { place } => Refusal { number: 18, place },
    }
}
