// The commands of a file in order, each read with what is known before it: up to M02, to a fault, or to a name of which the reading cannot tell
// whether it was set before.
#![tactic(auto)]

ghost use Rattle.std.specs.Prelude.{◌≡◌, ◌<◌, length};
ghost use Rattle.progress.specs.Lent.{lent_of};
ghost use Rattle.running.specs.Units.{unit_in};
ghost use Rattle.running.specs.Ends.{start, Empty, AsLong, answer_of, settled, Looked, Comes};
ghost use Rattle.running.specs.Judged.{judged_name, judged_of};

use book::Book;
use build::Builder;
use faults::Rule;
use graphics::Header;
use progress::{Progress, Struck};
use sequence::{Placed, Refusal, Turn};

// Whether a command sets a name again, and how many names are set with it.
#[derive(Clone, Copy)]
pub struct Told {
    pub again: bool,
    pub set: usize,
}

// How the commands of a file end where all rules are kept: at M02, and so many decimals were rounded.
#[derive(Clone, Copy)]
pub struct Finished {
    pub progress: Progress,
    pub rounded: usize,
}

// Nothing is read yet, by a book.
fn start(book: Book) -> Progress
    ensures { result ≡ start book }
{
    Progress {
        graphics: graphics::start(book::is_old(book)),
        builder: Builder {
            closed: 0,
            high: 0,
            start: 0,
            height: 10,
            items: 0,
        },
        contour: 0,
        depth: 0,
        copies: 1,
        sheet: 0,
        apertures: 0,
        macros: 0,
        numbers: 0,
    }
}

// Whether the TF at a place sets its name again, so many being set before it. The first of a file is new; of the next few, and near the
// file's start, a walk tells which TF sets the name first.
fn judge_name(
    book: Book,
    file: &[u8],
    place: usize,
    name: &[u8],
    set: usize,
    repeat: Option<usize>,
) -> Option<Told>
    requires { set < length file.now }
    ensures { result ≡ judged_name book file.now place name.now set repeat }
{
    if set == 0 {
        return Some(Told {
            again: false,
            set: 1,
        });
    }
    if base::either(set < 16, place < 4096) {
        return Some(Told {
            again: names::first_at(book, file, name) != place,
            set: set + 1,
        });
    }
    match repeat {
        None => None,
        Some(twice) => Some(Told {
            again: place == twice,
            set: set + 1,
        }),
    }
}

// The same of any command: one that is no TF sets no name.
fn judge(book: Book, file: &[u8], c: Placed, set: usize, repeat: Option<usize>) -> Option<Told>
    requires { set < length file.now }
    ensures { result ≡ judged_of book file.now c set repeat }
{
    let command = c.command;
    let sets = names::sets_of(command);
    match sets {
        None => Some(Told { again: false, set }),
        Some(n) => {
            let text = base::part(file, c.from, c.end);
            judge_name(
                book,
                file,
                c.place,
                base::part(text, n.from, n.to),
                set,
                repeat,
            )
        }
    }
}

// How the commands end at M02, its outcome being r and the fault of what follows it f.
fn settled(
    r: Result<Progress, Rule>,
    place: usize,
    f: Refusal,
    rounded: usize,
) -> Result<Finished, Refusal>
    ensures { result ≡ settled r place f rounded }
{
    match r {
        Err(rule) => Err(Refusal {
            number: u64::from(rule),
            place,
        }),
        Ok(p) => {
            if f.number == 0 {
                return Ok(Finished {
                    progress: p,
                    rounded,
                });
            }
            Err(f)
        }
    }
}

// The commands of a file in order by a book, over rooms of zeros.
pub fn run(
    book: Book,
    file: &[u8],
    e: &mut [u64],
    a: &mut [u64],
    m: &mut [u64],
    numbers: &mut [i64],
    repeat: Option<usize>,
) -> Option<Result<Finished, Refusal>>
    requires empty { Empty (lent_of file.now e.old a.old m.old numbers.old) }
    requires looked { Looked book file.now repeat }
    ensures { AsLong (lent_of file.now e.old a.old m.old numbers.old)
        (lent_of file.now e.new a.new m.new numbers.new)
        × Comes book (answer_of book (lent_of file.now e.old a.old m.old numbers.old))
        (lent_of file.now e.new a.new m.new numbers.new) repeat result }
{
    let mut p = start(book);
    let mut format = formats::no_format();
    let mut at: usize = 0;
    let mut set: usize = 0;
    let mut rounded: usize = 0;
    loop {
        let t = sequence::turn_at(book, format, file, at);
        match t {
            Turn::Fault(f) => {
                return Some(Err(f));
            }
            Turn::Last { command, next } => {
                let place = command.place;
                let r = steps::step(file, e, a, m, numbers, p, command, false);
                return Some(settled(r, place, sequence::tail_fault(file, next), rounded));
            }
            Turn::More {
                command,
                format: carried,
                next,
            } => {
                let said = command.command;
                let place = command.place;
                let g = p.graphics;
                let fault = steps::code_fault(g, said);
                p = steps::behind_code(said, p);
                let struck = steps::operation(e, p, fault, place as u64, said);
                match struck {
                    Struck::Fault(rule) => {
                        return Some(Err(Refusal {
                            number: u64::from(rule),
                            place,
                        }));
                    }
                    Struck::Next(stroke) => {
                        p = progress::with_stroke(stroke, p);
                        format = carried;
                        at = next;
                    }
                    Struck::Other => {
                        let counted = rounded + command::rounded_of(said);
                        let j = judge(book, file, command, set, repeat);
                        let Some(Told { again, set: more }) = j else {
                            return None;
                        };
                        let r = steps::step(file, e, a, m, numbers, p, command, again);
                        match r {
                            Err(rule) => {
                                return Some(Err(Refusal {
                                    number: u64::from(rule),
                                    place,
                                }));
                            }
                            Ok(q) => {
                                p = q;
                                format = carried;
                                at = next;
                                set = more;
                                rounded = counted;
                            }
                        }
                    }
                }
            }
        }
    }
}

// The unit of a file: MO's, else that of the first G70 or G71.
pub fn unit_in(h: Header) -> u64
    ensures { result ≡ unit_in h }
{
    base::row(h.unit == 0, h.coded, h.unit)
}
