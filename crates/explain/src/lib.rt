// Explaining: why a line of the digest ends where it does. The walk goes over the pieces of the notes as measuring does. The paragraph
// that has the line is broken once more, and this time what ended the line is kept: so formatting has nothing to carry for it.
#![tactic(auto)]

ghost use Rattle.std.specs.Prelude.{◌≡◌, List, [], ◌∷◌, ℕ, ◌^◌, ◌≤◌, ◌<◌, length};
ghost use Rattle.lists.specs.Coded.{numbered};
ghost use Rattle.options.specs.Opts.{meant};
ghost use Rattle.records.specs.Cited.Table.{words_in};
ghost use Rattle.endings.specs.Endings.{endings};
ghost use Rattle.knuth_plass.specs.Cited.Round.{Limits, AllNarrow};
ghost use Rattle.paragraphs.specs.Cited.Steps.{room_for, Roomy, Placed};
ghost use Rattle.walk.specs.Digest.{most_words};
ghost use Rattle.explain.specs.Reasons.{lines_by};
ghost use Rattle.formatter.specs.Format.{own_room};
ghost use Rattle.formatter.specs.Work.{lending};
ghost use Rattle.formatter.specs.declared.Refusal.TheVariants.{Words};
ghost use Rattle.explain.specs.Explain.{explaining};
ghost use Rattle.explain.specs.declared.Asked.TheVariants.{Behind};
ghost use Rattle.explain.specs.declared.Unexplained.TheVariants.{Refused};
ghost use Rattle.explain.specs.Cited.Asking.{EndsSo, passed};
ghost use Rattle.explain.specs.Cited.Seeking.{TextPassed, PiecePassed, Coursed, SoughtIs, begin, lines_ahead, asking, told, explained_coded, unexplained_coded, told_reason, left_of};

use endings::{Ending, Spot};
use formatter::Refusal;
use lists::Refusing;
use options::Options;
use pieces::{Paragraph, Piece};
use spacing::Setting;
use walk::Stopped;
use walk::notes::Notes;
use words::TooMany;

// Why the call tells no reason: the notes are refused; or there is no such line, but so many.
#[derive(Clone, Copy, Debug, PartialEq, Eq)]
pub enum Unexplained {
    Refused(Refusal),
    NoLine(usize),
}

impl From<Refusal> for Unexplained {
    ghost from_gives = { λ r e. e ≡ Refused r };

    fn from(r: Refusal) -> Unexplained {
        Unexplained::Refused(r)
    }
}

impl From<Stopped> for Unexplained {
    ghost from_gives = { λ s e. e ≡ Refused (Words s.at) };

    fn from(s: Stopped) -> Unexplained {
        Unexplained::Refused(Refusal::Words(s.at))
    }
}

impl Refusing for Unexplained {
    ghost coded = { unexplained_coded };

    fn number(self) -> u64 {
        match self {
            Unexplained::Refused(r) => r.number(),
            Unexplained::NoLine(lines) => lists::number(8, lines),
        }
    }
}

// The line asked for: it is known why it ends, or it stands so many lines after those that were passed. (No Result: neither is a failure,
// and the search goes on with both.)
#[derive(Clone, Copy, Debug, PartialEq, Eq)]
pub enum Asked {
    Told(Ending),
    Behind(usize),
}

// Where the search stands: the place in the notes, next-mail, and the line.
#[derive(Clone, Copy, Debug, PartialEq, Eq)]
pub struct Seek {
    pub at: usize,
    pub mail: bool,
    pub asked: Asked,
}

// The tables do not reach to the end of the notes: the search stands before a paragraph of more words than they have room for.
#[derive(Clone, Copy, Debug, PartialEq, Eq)]
struct Short {
    seek: Seek,
}

// Of that paragraph its first line's place is told.
impl From<Short> for Stopped {
    ghost from_gives = { λ short stopped. stopped.at ≡ short.seek.at };

    fn from(short: Short) -> Stopped {
        Stopped { at: short.seek.at }
    }
}

// Why an output line ends, counted from 0: 1 to 4 are refused as measuring does, then 8.
pub fn explain(block: &[u8], notes: &[u8], line: u64) -> Result<Ending, Unexplained>
    ensures { result ≡ told (explaining own_room block.now notes.now line) }
{
    let admitted = formatter::admit(block, notes)?;
    explain_line(admitted, line as usize)
}

// The same in working room that is lent: 12 in the place of 4.
pub fn explain_large(
    block: &[u8],
    notes: &[u8],
    line: u64,
    work: &mut [u32],
) -> Result<Ending, Unexplained>
    ensures { result ≡ told (explaining (lending (length work.old)) block.now notes.now line) }
{
    let admitted = formatter::admit_within(block, notes, formatter::MOST_LARGE)?;
    explain_lent(admitted, line as usize, work)
}

// The reply's number, and the kind and its numbers; on a refusal they are left as they are.
pub fn tell(x: Result<Ending, Unexplained>, reason: &mut [u64; 6]) -> u64
    requires { numbered (explained_coded x) < 2 ^ 64 }
    ensures { (result ≡ numbered (explained_coded x)) × (reason.new ≡ told_reason x reason.old) }
{
    match x {
        Ok(e) => {
            endings::put(e, reason);
            0
        }
        Err(e) => e.number(),
    }
}

// The line sought from the start of the notes on.
fn explain_line(notes: Notes, line: usize) -> Result<Ending, Unexplained>
    ensures { result ≡ told (left_of own_room (meant notes.entry.block.now notes.entry.options) notes.entry.bytes.now line) }
{
    let a = seek_line(notes, begin(line))?;
    found(line, a)
}

// The line sought in the room that is lent. Nothing is written before it is found: only where the room does not reach is counted what would.
fn explain_lent(notes: Notes, line: usize, work: &mut [u32]) -> Result<Ending, Unexplained>
    ensures { result ≡ told (left_of (lending (length work.old)) (meant notes.entry.block.now notes.entry.options) notes.entry.bytes.now line) }
{
    let Ok(a) = seek_with(notes, begin(line), work) else {
        let needed = walk::work_over(notes, work.len());
        return Err(Unexplained::Refused(Refusal::Work(needed)));
    };
    found(line, a)
}

// Where the search for a line begins.
fn begin(line: usize) -> Seek
    ensures { result ≡ begin line }
{
    Seek {
        at: 0,
        mail: true,
        asked: Asked::Behind(line),
    }
}

// What is told of the line at the end of the notes: lines that were passed are all there are.
fn found(line: usize, a: Asked) -> Result<Ending, Unexplained>
    requires { lines_ahead a ≤ line }
    ensures { result ≡ told (asking line a) }
{
    match a {
        Asked::Told(e) => Ok(e),
        Asked::Behind(left) => Err(Unexplained::NoLine(line - left)),
    }
}

// The rooms, in numbers: as in measuring seven a word with quick and fifteen with Knuth-Plass. For 48 words and 1,024, and for 40 and 1,024.
const QUICK_FEW: usize = 336;

const QUICK_MOST: usize = 7168;

const BEST_FEW: usize = 600;

const BEST_MOST: usize = 15360;

// All pieces from a place on.
fn seek_line(notes: Notes, from: Seek) -> Result<Asked, Stopped>
    requires { from.at ≤ length notes.bytes.now }
    ensures { SoughtIs most_words (meant notes.entry.block.now notes.entry.options) notes.entry.bytes.now from result }
{
    if notes.options.quick {
        seek_in_two::<QUICK_FEW, QUICK_MOST>(notes, from)
    } else {
        seek_in_two::<BEST_FEW, BEST_MOST>(notes, from)
    }
}

// First in room for the words of a few lines, and from a paragraph on for which it is too small in room for the most words that a paragraph
// may have.
fn seek_in_two<const FEW: usize, const MOST: usize>(
    notes: Notes,
    from: Seek,
) -> Result<Asked, Stopped>
    requires { (from.at ≤ length notes.bytes.now) × (room_for notes.options.quick FEW ≤ most_words) × (room_for notes.options.quick MOST ≡ most_words) }
    ensures { SoughtIs most_words (meant notes.entry.block.now notes.entry.options) notes.entry.bytes.now from result }
{
    match seek_in::<FEW>(notes, from) {
        Ok(a) => Ok(a),
        Err(short) => Ok(seek_in::<MOST>(notes, short.seek)?),
    }
}

// In room of N numbers. As in measuring, each room is declared in a function of its own, so that the larger one is no part of the frame in
// which notes of small paragraphs are sought through.
fn seek_in<const N: usize>(notes: Notes, from: Seek) -> Result<Asked, Short>
    requires { (from.at ≤ length notes.bytes.now) × (room_for notes.options.quick N ≤ most_words) }
    ensures { Coursed (room_for notes.entry.options.quick N) (meant notes.entry.block.now notes.entry.options) notes.entry.bytes.now from result }
{
    let mut work = [0u32; N];
    seek_with(notes, from, &mut work)
}

// Piece by piece, as far as the tables reach.
fn seek_with(notes: Notes, from: Seek, work: &mut [u32]) -> Result<Asked, Short>
    requires { from.at ≤ length notes.bytes.now }
    ensures { Coursed (room_for notes.entry.options.quick (length work.old)) (meant notes.entry.block.now notes.entry.options) notes.entry.bytes.now from result }
{
    let mut s = from;
    while s.at < notes.bytes.len() {
        let Ok(t) = pass_piece(notes, s, work) else {
            return Err(Short { seek: s });
        };
        s = t;
    }
    Ok(s.asked)
}

// After the piece at a place.
fn pass_piece(notes: Notes, s: Seek, work: &mut [u32]) -> Result<Seek, TooMany>
    requires { s.at < length notes.bytes.now }
    ensures { PiecePassed (room_for notes.entry.options.quick (length work.old)) (meant notes.entry.block.now notes.entry.options) notes.entry.bytes.now s result }
{
    match pieces::next_piece(notes.bytes, s.at, notes.options, notes.block, s.mail, false) {
        Piece::Blank { next } => Ok(Seek {
            at: next,
            mail: true,
            asked: pass_line(s.asked, Ending::Blank),
        }),
        Piece::Plain { end: _, next } => Ok(Seek {
            at: next,
            mail: false,
            asked: pass_line(s.asked, Ending::Plain),
        }),
        Piece::Text(p) => pass_paragraph(notes.bytes, s.at, notes.options, p, s.asked, work),
    }
}

// After one line that ends so.
#[tactic(auto, using(crate::proofs::Seeking::passed_told, crate::proofs::Seeking::passed_one, crate::proofs::Seeking::passed_past))]
fn pass_line(a: Asked, e: Ending) -> Asked
    ensures { result ≡ passed (e ∷ []) a }
{
    match a {
        Asked::Told(x) => Asked::Told(x),
        Asked::Behind(left) => {
            if left == 0 {
                Asked::Told(e)
            } else {
                Asked::Behind(left - 1)
            }
        }
    }
}

// After a paragraph, unless it has more words than the tables have room for. Once it is known why the line ends, words are only counted.
fn pass_paragraph(
    notes: &[u8],
    at: usize,
    o: Options,
    p: Paragraph,
    asked: Asked,
    work: &mut [u32],
) -> Result<Seek, TooMany>
    requires { Placed notes.now at o p }
    ensures { (block : List ℕ) → TextPassed (room_for o.quick (length work.old)) notes.now at o p asked result block }
{
    let most = paragraphs::room_for(o.quick, work.len());
    let n = words::split_words(notes, at, p.next, p.mail, p.start, p.later, o, most, work)?;
    let asked = match asked {
        Asked::Told(e) => Asked::Told(e),
        Asked::Behind(line) => ask_lines(
            o.quick | p.mail,
            paragraphs::setting_of(o, p),
            work,
            n,
            line,
        ),
    };
    Ok(Seek {
        at: p.next,
        mail: p.mail,
        asked,
    })
}

// Asks a paragraph of n words for a line, counted from its first.
fn ask_lines(fast: bool, g: Setting, work: &mut [u32], n: usize, line: usize) -> Asked
    requires { Limits g × (1 ≤ n) × (n ≤ 2 ^ 20) × Roomy fast n work.old × AllNarrow n work.old }
    ensures { (notes : List ℕ) → result ≡ passed (endings (lines_by fast g (words_in notes n work.old))) (Behind line) }
{
    paragraphs::mark_breaks(fast, g, work, n);
    match endings::find_line(work, n, line) {
        Spot::Last => Asked::Told(Ending::Paragraph),
        Spot::Behind(rest) => Asked::Behind(rest),
        Spot::Before(e) => Asked::Told(ending_before(fast, g, work, n, line, e)),
    }
}

// Why a line ends that ends before word e: the paragraph is broken again, and what ended the line is kept.
fn ending_before(
    fast: bool,
    g: Setting,
    work: &mut [u32],
    n: usize,
    line: usize,
    e: usize,
) -> Ending
    requires { Limits g × (1 ≤ n) × (n ≤ 2 ^ 20) × Roomy fast n work.old × AllNarrow n work.old × (1 ≤ e) × (e < n) }
    ensures { (notes : List ℕ) → EndsSo fast g line e (words_in notes n work.old) result }
{
    if fast {
        quick::quick_ending(work, n, g, line)
    } else {
        knuth_plass::best_ending(work, n, g, e)
    }
}
