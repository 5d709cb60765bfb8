// Checking the digest that another site sent with its notes. The notes are walked once, and the digest is matched against them on the way.
#![tactic(auto)]

ghost use Rattle.std.specs.Prelude.{◌≡◌, ◌^◌, ◌<◌, length};
ghost use Rattle.options.specs.Opts.{meant};
ghost use Rattle.records.specs.Cited.Table.{Holds, words_in};
ghost use Rattle.output.specs.Cited.Writers.{margin_of};
ghost use Rattle.walk.specs.Cited.Course.{SoundFrom};
ghost use Rattle.checker.specs.Matching.{and_then, match_line, match_words};
ghost use Rattle.checker.specs.Cited.Places.{matched, MatchedIn, Matches, MarginFits, Matchable};
ghost use Rattle.formatter.specs.Format.{own_room};
ghost use Rattle.formatter.specs.Work.{lending};
ghost use Rattle.formatter.specs.declared.Refusal.TheVariants.{Words};
ghost use Rattle.lists.specs.Coded.{numbered};
ghost use Rattle.judge.specs.Answers.{unaccepted_coded, check_coded};
ghost use Rattle.judge.specs.Checking.{checking};
ghost use Rattle.judge.specs.Cited.Judging.{begun, judged_by, left_of, Stepped, Walked};
ghost use Rattle.judge.specs.declared.Unaccepted.TheVariants.{Refused, Line};

use checker::{Fault, Spot};
use formatter::Refusal;
use lists::Refusing;
use pieces::{Margin, Piece};
use walk::Stopped;
use walk::notes::Notes;
use words::TooMany;

// Why a digest is not accepted: the notes are refused; or the digest is, with the line that is named.
#[derive(Clone, Copy, Debug, PartialEq, Eq)]
pub enum Unaccepted {
    Refused(Refusal),
    LongDigest,
    Line(usize),
}

impl From<Refusal> for Unaccepted {
    ghost from_gives = { λ r e. e ≡ Refused r };

    fn from(r: Refusal) -> Unaccepted {
        Unaccepted::Refused(r)
    }
}

impl From<Stopped> for Unaccepted {
    ghost from_gives = { λ s e. e ≡ Refused (Words s.at) };

    fn from(s: Stopped) -> Unaccepted {
        Unaccepted::Refused(Refusal::Words(s.at))
    }
}

impl From<Fault> for Unaccepted {
    ghost from_gives = { λ f e. e ≡ Line f.line };

    fn from(f: Fault) -> Unaccepted {
        Unaccepted::Line(f.line)
    }
}

impl Refusing for Unaccepted {
    ghost coded = { unaccepted_coded };

    fn number(self) -> u64 {
        match self {
            Unaccepted::Refused(r) => r.number(),
            Unaccepted::LongDigest => lists::number(9, 0),
            Unaccepted::Line(line) => lists::number(10, line),
        }
    }
}

// Where the work stands: the place in the notes and next-mail, and what the digest has come to.
#[derive(Clone, Copy, Debug, PartialEq, Eq)]
struct Stand {
    at: usize,
    mail: bool,
    matched: Result<Spot, Fault>,
}

// Notes and digests are refused if they are longer.
const MOST_BYTES: usize = 65536;

// A paragraph of more words is refused. They take seven numbers each.
const MOST_WORDS: usize = 1024;

const MOST_NUMBERS: usize = 7168;

// Checks a digest: 1, 2, 3, 4, 9 and 10 are the refusals, in this order.
pub fn check(block: &[u8], notes: &[u8], digest: &[u8]) -> Result<(), Unaccepted>
    ensures { result ≡ checking own_room block.now notes.now digest.now }
{
    let admitted = formatter::admit(block, notes)?;
    check_notes(admitted, digest)
}

// The same in working room that is lent: 12 in the place of 4.
pub fn check_large(
    block: &[u8],
    notes: &[u8],
    digest: &[u8],
    work: &mut [u32],
) -> Result<(), Unaccepted>
    ensures { result ≡ checking (lending (length work.old)) block.now notes.now digest.now }
{
    let admitted = formatter::admit_within(block, notes, formatter::MOST_LARGE)?;
    check_lent(admitted, digest, work)
}

// 4, 9 and 10, with the options of an accepted block. The table of a paragraph's words is lent from here on.
fn check_notes(notes: Notes, digest: &[u8]) -> Result<(), Unaccepted>
    ensures { result ≡ left_of own_room (meant notes.entry.block.now notes.entry.options) notes.entry.bytes.now digest.now }
{
    let mut table = [0u32; MOST_NUMBERS];
    let first = begin(MOST_BYTES, digest.len());
    let m = match_pieces(notes, digest, first, MOST_WORDS, &mut table)?;
    judge(MOST_BYTES, digest.len(), m)
}

// In the room that is lent. Only where it does not reach is counted what would.
fn check_lent(notes: Notes, digest: &[u8], work: &mut [u32]) -> Result<(), Unaccepted>
    ensures { result ≡ left_of (lending (length work.old)) (meant notes.entry.block.now notes.entry.options) notes.entry.bytes.now digest.now }
{
    let most = paragraphs::room_for(notes.options.quick, work.len());
    let first = begin(formatter::MOST_LARGE, digest.len());
    let Ok(m) = match_pieces(notes, digest, first, most, work) else {
        let needed = walk::work_over(notes, work.len());
        return Err(Unaccepted::Refused(Refusal::Work(needed)));
    };
    judge(formatter::MOST_LARGE, digest.len(), m)
}

// A digest that is too long is not matched at all. 4 comes before 9, so the words of the notes are counted all the same.
fn begin(bytes: usize, size: usize) -> Result<Spot, Fault>
    ensures { result ≡ begun bytes size }
{
    if bytes < size {
        Err(Fault { line: 0 })
    } else {
        Ok(Spot { at: 0, line: 0 })
    }
}

// What is told of a digest of so many bytes that has come to m after the last piece: nothing may be left of it.
fn judge(bytes: usize, size: usize, m: Result<Spot, Fault>) -> Result<(), Unaccepted>
    ensures { result ≡ judged_by bytes size m }
{
    if bytes < size {
        return Err(Unaccepted::LongDigest);
    }
    let p = m?;
    if p.at < size {
        return Err(Unaccepted::Line(p.line));
    }
    Ok(())
}

// Piece by piece. The walk goes on where the digest is no longer matched: too many words, found later, take precedence.
fn match_pieces(
    notes: Notes,
    digest: &[u8],
    first: Result<Spot, Fault>,
    most: usize,
    table: &mut [u32],
) -> Result<Result<Spot, Fault>, Stopped>
    requires { MatchedIn digest.now first × Holds most table.old }
    ensures { Walked most (meant notes.entry.block.now notes.entry.options) notes.entry.bytes.now digest.now first result }
{
    let mut c = Stand {
        at: 0,
        mail: true,
        matched: first,
    };
    while c.at < notes.bytes.len() {
        let Ok(d) = match_piece(notes, digest, c, most, table) else {
            return Err(Stopped { at: c.at });
        };
        c = d;
    }
    Ok(c.matched)
}

// The piece at a place, unless it is a paragraph of too many words.
fn match_piece(
    notes: Notes,
    digest: &[u8],
    c: Stand,
    most: usize,
    table: &mut [u32],
) -> Result<Stand, TooMany>
    requires { MatchedIn digest.now c.matched × Holds most table.old × (c.at < length notes.bytes.now) × SoundFrom notes.bytes.now c.at }
    ensures { Stepped most (meant notes.entry.block.now notes.entry.options) notes.entry.bytes.now digest.now c result }
{
    let at = c.at;
    match pieces::next_piece(
        notes.bytes,
        at,
        notes.options,
        notes.block,
        c.mail,
        !notes.options.keep,
    ) {
        Piece::Blank { next } => Ok(Stand {
            at: next,
            mail: true,
            matched: line_behind(&notes.bytes[at..at], digest, c.matched),
        }),
        Piece::Plain { end, next } => Ok(Stand {
            at: next,
            mail: false,
            matched: line_behind(&notes.bytes[at..end], digest, c.matched),
        }),
        Piece::Text(p) => {
            let n = words::split_words(
                notes.bytes,
                at,
                p.next,
                p.mail,
                p.start,
                p.later,
                notes.options,
                most,
                table,
            )?;
            Ok(Stand {
                at: p.next,
                mail: p.mail,
                matched: words_behind(
                    notes.bytes,
                    table,
                    n,
                    p.first,
                    p.indent,
                    notes.options.glue,
                    digest,
                    c.matched,
                ),
            })
        }
    }
}

// A line after what is matched, if all before it is.
fn line_behind(text: &[u8], digest: &[u8], m: Result<Spot, Fault>) -> Result<Spot, Fault>
    requires { MatchedIn digest.now m }
    ensures { Matches digest.now (and_then (matched digest.now m) (match_line text.now)) result }
{
    checker::match_line(text, digest, m?)
}

// A paragraph's words after what is matched, if all before them is.
fn words_behind(
    notes: &[u8],
    table: &[u32],
    n: usize,
    first: Margin,
    indent: Margin,
    glue: bool,
    digest: &[u8],
    m: Result<Spot, Fault>,
) -> Result<Spot, Fault>
    requires { Matchable notes.now table.now n indent × MarginFits notes.now first × MatchedIn digest.now m }
    ensures { Matches digest.now (and_then (matched digest.now m) (match_words glue (margin_of notes.now first) (margin_of notes.now indent) (words_in notes.now n table.now))) result }
{
    checker::match_words(notes, table, n, first, indent, glue, digest, m?)
}

// The answer's number.
pub fn number_of(a: Result<(), Unaccepted>) -> u64
    requires { numbered (check_coded a) < 2 ^ 64 }
    ensures { result ≡ numbered (check_coded a) }
{
    match a {
        Ok(()) => 0,
        Err(e) => e.number(),
    }
}
