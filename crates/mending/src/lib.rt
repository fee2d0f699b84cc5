// Mending a broken file: its changes, and what they make of it, in one pass over its complete commands.
#![tactic(auto)]

ghost use Rattle.std.specs.Prelude.{◌≡◌, drop, length, take, replicate, ◌++◌, ◌≤◌};
ghost use Rattle.mending.specs.Extents.{pieces, extent_of, closing};
ghost use Rattle.std.proofs.Math.Seq.{slice};
ghost use Rattle.base.specs.Breaks.{is_break};
ghost use Rattle.base.specs.Trimmed.{drop_trailing};
ghost use Rattle.text.specs.Text.{text};
ghost use Rattle.mending.specs.Changes.{opens, text_of, first_of, matches, repeats, follows};
ghost use Rattle.mending.specs.Mended.{Fills};
ghost use Rattle.mending.specs.Steps.{holds, laid, Noted, Finished, TextEnd, Stands};

use book::Book;

// A file cut into its complete commands by extent alone, whatever their bytes: from a place in the file, the next one.

// The next complete command is place..next, with its `*` or its two `%`; or what is left holds none.
#[derive(Clone, Copy)]
pub struct Extent {
    pub place: usize,
    pub next: usize,
}

// The next complete command from a place on.
fn extent_at(file: &[u8], from: usize) -> Option<Extent>
    ensures { result ≡ extent_of from (pieces (drop from file.now)) }
{
    let place = text::past_breaks(file, from);
    if place >= file.len() {
        return None;
    }
    if file[place] == b'%' {
        let close = text::find(file, place + 1, b'%');
        if close >= file.len() {
            return None;
        }
        return Some(Extent {
            place,
            next: close + 1,
        });
    }
    let close = text::find(file, place, b'*');
    if close >= file.len() {
        return None;
    }
    Some(Extent {
        place,
        next: close + 1,
    })
}

// These bytes are M02, or M2 in the old edition.
fn is_closing(book: Book, c: &[u8]) -> bool
    ensures { result ≡ closing book c.now }
{
    base::either(
        text::is(c, b"M02*"),
        base::both(book::is_old(book), text::is(c, b"M2*")),
    )
}

// The changes, and the mended file.

// So many bytes of the mended file and so many changes; the report does not fit into what is lent, or the mended file does not.
#[derive(Clone, Copy)]
pub enum Written {
    Both { bytes: usize, changes: usize },
    File { bytes: usize },
    Nothing,
}

// So many words are noted; or some did not fit.
#[derive(Clone, Copy)]
pub struct Tally {
    pub k: usize,
    pub reported: bool,
}

// A part of the file.
#[derive(Clone, Copy)]
pub struct Span {
    pub from: usize,
    pub to: usize,
}

// How many bytes are left without the CR and LF at the end.
fn trimmed(s: &[u8]) -> usize
    ensures { (take result s.now ≡ drop_trailing is_break s.now) × (result ≤ length s.now) }
{
    let mut rest = s;
    while let [others @ .., b] = rest {
        if !base::is_break(*b) {
            return rest.len();
        }
        rest = others;
    }
    rest.len()
}

// Where the text of an extended command ends; it begins at 1.
fn text_end(c: &[u8]) -> usize
    ensures { TextEnd c.now result }
{
    let body = base::part(c, 1, text::before_last(c, 1));
    trimmed(body) + 1
}

// The command opens with w and has the text that stands there.
fn is_match(w: &[u8], file: &[u8], t: Span, c: &[u8]) -> bool
    ensures { result ≡ matches w.now (slice t.from t.to file.now) c.now }
{
    if text::begins(c, w) {
        return text::is(
            base::part(c, 1, text_end(c)),
            base::part(file, t.from, t.to),
        );
    }
    false
}

// The command repeats the first FS or the first MO, whose texts stand there.
fn is_repeat(file: &[u8], fs: Span, mo: Span, c: &[u8]) -> bool
    ensures { result ≡ repeats (slice fs.from fs.to file.now) (slice mo.from mo.to file.now) c.now }
{
    base::either(is_match(b"%FS", file, fs, c), is_match(b"%MO", file, mo, c))
}

// Where the text of the first command that opens with w stands, t being where it stood before this command.
fn first_of(w: &[u8], file: &[u8], t: Span, place: usize, next: usize) -> Span
    requires { Stands file.now place next }
    ensures { slice result.from result.to file.now ≡ first_of w.now (slice t.from t.to file.now) (slice place next file.now) }
{
    let before = base::part(file, t.from, t.to);
    let c = base::part(file, place, next);
    if base::both(before.len() == 0, text::begins(c, w)) {
        return Span {
            from: place + 1,
            to: place + text_end(c),
        };
    }
    t
}

// The first byte from there on that is no CR or LF is from 32 to 126.
fn is_followed(file: &[u8], from: usize) -> bool
    ensures { result ≡ follows (drop from file.now) }
{
    scan::is_printable(base::byte_at(file, text::past_breaks(file, from)))
}

// Zeros in every byte.
pub fn clear_bytes(s: &mut [u8])
    ensures { s.new ≡ replicate (length s.old) 0 }
{
    s.fill(0);
}

// Lays s into out from n on, where it fits.
fn lay(out: &mut [u8], n: usize, s: &[u8]) -> bool
    ensures { (result ≡ holds out.old n s.now) × (out.new ≡ laid out.old n s.now) }
{
    if out.len() < n || out.len() - n < s.len() {
        return false;
    }
    out[n..n + s.len()].copy_from_slice(s);
    true
}

// The same of words.
fn note(out: &mut [u64], n: usize, s: &[u64]) -> bool
    ensures { (result ≡ holds out.old n s.now) × (out.new ≡ laid out.old n s.now) }
{
    if out.len() < n || out.len() - n < s.len() {
        return false;
    }
    out[n..n + s.len()].copy_from_slice(s);
    true
}

// Notes w after the words before, where all of them fit.
fn note_on(noted: &mut [u64], t: Tally, w: &[u64]) -> Tally
    ensures { Noted noted.old t w.now result noted.new }
{
    let k = t.k;
    if t.reported {
        if note(noted, k, w) {
            return Tally {
                k: k + w.len(),
                reported: true,
            };
        }
        return Tally { k, reported: false };
    }
    Tally { k, reported: false }
}

// Lays the last bytes and notes the last words.
fn finish(out: &mut [u8], n: usize, s: &[u8], noted: &mut [u64], t: Tally, w: &[u64]) -> Written
    ensures { Finished out.old n s.now noted.old t w.now result out.new noted.new }
{
    if lay(out, n, s) {
        let r = note_on(noted, t, w);
        if r.reported {
            return Written::Both {
                bytes: n + s.len(),
                changes: r.k / 2,
            };
        }
        return Written::File { bytes: n + s.len() };
    }
    Written::Nothing
}

// Fills what is lent, which is zeros, command by command: out with the mended file where it fits, and then noted with the
// changes, two words each, kind and place, where those fit too.
pub fn mend_into(book: Book, file: &[u8], out: &mut [u8], noted: &mut [u64]) -> Written
    requires { (out.old ≡ replicate (length out.old) 0) × (noted.old ≡ replicate (length noted.old) 0) }
    ensures { Fills book file.now (length out.old) (length noted.old) result out.new noted.new }
{
    let mut at: usize = 0;
    let mut n: usize = 0;
    let mut t = Tally {
        k: 0,
        reported: true,
    };
    let mut fs = Span { from: 0, to: 0 };
    let mut mo = Span { from: 0, to: 0 };
    // The file's next command is known only once this one is cut: no iterator walks so.
    loop {
        let e = extent_at(file, at);
        match e {
            Some(found) => {
                let c = base::part(file, found.place, found.next);
                if is_closing(book, c) {
                    if is_followed(file, found.next) {
                        return finish(
                            out,
                            n,
                            base::part(file, at, found.next),
                            noted,
                            t,
                            &[4, found.next as u64],
                        );
                    }
                    return finish(out, n, base::from_on(file, at), noted, t, &[]);
                }
                if is_repeat(file, fs, mo, c) {
                    if lay(out, n, base::part(file, at, found.place)) {
                        n += found.place - at;
                        t = note_on(noted, t, &[1, found.place as u64]);
                        at = found.next;
                    } else {
                        return Written::Nothing;
                    }
                } else {
                    if lay(out, n, base::part(file, at, found.next)) {
                        n += found.next - at;
                        fs = first_of(b"%FS", file, fs, found.place, found.next);
                        mo = first_of(b"%MO", file, mo, found.place, found.next);
                        at = found.next;
                    } else {
                        return Written::Nothing;
                    }
                }
            }
            None => {
                if at < file.len() {
                    return finish(out, n, b"M02*", noted, t, &[2, at as u64, 3, at as u64]);
                }
                return finish(out, n, b"M02*", noted, t, &[2, at as u64]);
            }
        }
    }
}
