// Every word of two small sheets is set to nine values, one at a time: each store is refused with 21, or answers its own total and items.
// The file `stdout` was made by a second program, which tests the conditions of docs/SHEET.md as that page has them.
#![tactic(auto)]

mod table;

ghost use Rattle.std.specs.Prelude.{◌<◌};

use descend::Unanswered;
use output::Output;
use std::io;

// What is answered of a store.
#[derive(Clone, Copy)]
enum Outcome {
    Refused,
    Answered,
    Wrong,
}

// How many damaged stores had which outcome.
#[derive(Clone, Copy, Default)]
struct Tally {
    refused: u64,
    answered: u64,
    wrong: u64,
}

impl Tally {
    fn count(&mut self, outcome: Outcome) {
        let counter = match outcome {
            Outcome::Refused => &mut self.refused,
            Outcome::Answered => &mut self.answered,
            Outcome::Wrong => &mut self.wrong,
        };
        *counter = counter.wrapping_add(1);
    }
}

// The values for a word that was w.
fn values(w: u64) -> [u64; 9] {
    [
        0,
        1,
        9,
        10,
        11,
        w.wrapping_add(1),
        w.wrapping_sub(1),
        9223372036854775808,
        18446744073709551615,
    ]
}

// What asking for item n answers.
fn asked(head: &[u64; 8], e: &[u64], a: &[u64], n: u64) -> Result<(), Unanswered> {
    let mut out = [0; place::ITEM_WORDS];
    descend::sheet_run(head, e, a, n, &mut out)
}

// The first and the last item are there, and the one after is not.
fn items_are(head: &[u64; 8], e: &[u64], a: &[u64], total: u64) -> bool {
    let past = matches!(asked(head, e, a, total), Err(Unanswered::Past));
    if total == 0 {
        return past;
    }
    past && asked(head, e, a, 0).is_ok() && asked(head, e, a, total - 1).is_ok()
}

fn judge(head: &[u64; 8], e: &[u64], a: &[u64]) -> Outcome {
    match descend::sheet_total(head, e, a) {
        None => Outcome::Refused,
        Some(total) if items_are(head, e, a, total) => Outcome::Answered,
        Some(_) => Outcome::Wrong,
    }
}

// The sheet with word w, counted on through head, entries and apertures, set to its v-th value.
fn damaged(head: &[u64; 8], e: &[u64; 75], a: &[u64; 16], w: usize, v: usize) -> Outcome
    requires { v < 9 }
{
    let mut head = *head;
    let mut e = *e;
    let mut a = *a;
    if let Some(word) = head.iter_mut().chain(&mut e).chain(&mut a).nth(w) {
        *word = values(*word)[v];
    }
    judge(&head, &e, &a)
}

// Every word, with each of the nine values.
fn all(head: &[u64; 8], e: &[u64; 75], a: &[u64; 16]) -> Tally {
    let mut tally = Tally::default();
    for w in 0..99 {
        for v in 0..9 {
            tally.count(damaged(head, e, a, w, v));
        }
    }
    tally
}

fn line(rt: &impl Print, name: &str, tally: &Tally) -> io::Result<()> {
    let Tally {
        refused,
        answered,
        wrong,
    } = tally;
    println!(rt; "{name} refused {refused} answered {answered} wrong {wrong}")
}

fn run(rt: &impl Print) -> io::Result<()> {
    let first = all(&table::HEAD_1, &table::ENTRIES_1, &table::APERTURES_1);
    line(rt, "first", &first)?;
    let second = all(&table::HEAD_2, &table::ENTRIES_2, &table::APERTURES_2);
    line(rt, "second", &second)
}

// What cannot be written is lost, and nobody is told.
fn main() {
    let _ = run(&Output {});
}
