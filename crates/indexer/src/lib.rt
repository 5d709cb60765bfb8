// The digest written with an index beside it: a record for each piece of the notes. What the records tell is noted as the digest is
// written: each piece's length in the notes and its count of output lines, spelled as two gaps between marks. Of the records nothing is
// stored here: whoever is lent their list reads them from the marks, once it is known that all of them and all of the digest fit.
#![tactic(auto)]

ghost use Rattle.std.specs.Prelude.{◌≡◌, ◌-◌, ◌^◌, ◌≤◌, ◌<◌, length};
ghost use Rattle.lists.specs.Coded.{numbered};
ghost use Rattle.options.specs.Opts.{meant};
ghost use Rattle.lines.specs.Lines.{lines_of};
ghost use Rattle.lines.specs.Cited.Places.{most_large};
ghost use Rattle.paragraphs.specs.Cited.Steps.{room_for};
ghost use Rattle.walk.specs.Cited.Course.{CursorIn};
ghost use Rattle.formatter.specs.Format.{most_bytes, own_room};
ghost use Rattle.formatter.specs.declared.Refusal.TheVariants.{Words};
ghost use Rattle.indexer.specs.Indexing.{marks_for, index_lending, indexing};
ghost use Rattle.indexer.specs.Cited.Noting.{PieceStepped, Parted, Spells, Spelt, Noted, Indexes, Marked, left_of, found_of, unfilled_coded, filled_coded, told_filled, fitted};
ghost use Rattle.indexer.specs.declared.Unfilled.TheVariants.{Refused};

use formatter::Refusal;
use lists::Refusing;
use paragraphs::Cursor;
use pieces::Piece;
use walk::Stopped;
use walk::notes::Notes;
use words::TooMany;

// What the call tells: its answer's number, and how many records the marks tell (none where it is refused).
#[derive(Clone, Copy, Debug, PartialEq, Eq)]
pub struct Told {
    pub answer: u64,
    pub records: usize,
}

// What the work comes to: the digest's length and the number of records.
#[derive(Clone, Copy, Debug, PartialEq, Eq)]
struct Filled {
    written: usize,
    records: usize,
}

// Why it comes to nothing: there is no digest, or there are more records or bytes than there is room for, which are told.
#[derive(Clone, Copy, Debug, PartialEq, Eq)]
enum Unfilled {
    Refused(Refusal),
    Full(usize),
    Room(usize),
}

impl From<Refusal> for Unfilled {
    ghost from_gives = { λ r e. e ≡ Refused r };

    fn from(r: Refusal) -> Unfilled {
        Unfilled::Refused(r)
    }
}

impl From<Stopped> for Unfilled {
    ghost from_gives = { λ s e. e ≡ Refused (Words s.at) };

    fn from(s: Stopped) -> Unfilled {
        Unfilled::Refused(Refusal::Words(s.at))
    }
}

impl Refusing for Unfilled {
    ghost coded = { unfilled_coded };

    fn number(self) -> u64 {
        match self {
            Unfilled::Refused(r) => r.number(),
            Unfilled::Full(pieces) => lists::number(6, pieces),
            Unfilled::Room(needed) => lists::number(5, needed),
        }
    }
}

// What the pieces come to: the digest's length and their number.
#[derive(Clone, Copy, Debug, PartialEq, Eq)]
struct Pieces {
    written: usize,
    pieces: usize,
}

// Writes the digest, for which there are so many records, and marks what they tell.
pub fn write_marked(
    block: &[u8],
    notes: &[u8],
    out: &mut [u8],
    records: usize,
    filled: &mut u64,
    work: &mut [u32],
) -> Told
    requires { length work.old ≡ 19456 }
    ensures { Marked (indexing own_room block.now notes.now (length out.old) records) records out.old out.new filled.new work.new result }
{
    tell(write_pieces(block, notes, out, records, work), filled)
}

// The same in working room that is lent, of any size.
pub fn write_marked_large(
    block: &[u8],
    notes: &[u8],
    out: &mut [u8],
    records: usize,
    filled: &mut u64,
    work: &mut [u32],
) -> Told
    ensures { Marked (indexing (index_lending (length work.old)) block.now notes.now (length out.old) records) records out.old out.new filled.new work.new result }
{
    tell(write_lent(block, notes, out, records, work), filled)
}

// What is told, and the count of records as the host gets it.
fn tell(r: Result<Filled, Unfilled>, filled: &mut u64) -> Told
    requires { numbered (filled_coded r) < 2 ^ 64 }
    ensures { (result.answer ≡ numbered (filled_coded r)) × (result.records ≡ told_filled r) × (filled.new ≡ told_filled r) }
{
    let t = match r {
        Ok(f) => Told {
            answer: f.written as u64,
            records: f.records,
        },
        Err(e) => Told {
            answer: e.number(),
            records: 0,
        },
    };
    *filled = t.records as u64;
    t
}

// 1, 2, 3, 4, 6 and 5 are the refusals, in this order.
fn write_pieces(
    block: &[u8],
    notes: &[u8],
    out: &mut [u8],
    records: usize,
    work: &mut [u32],
) -> Result<Filled, Unfilled>
    requires { length work.old ≡ 19456 }
    ensures { Indexes (indexing own_room block.now notes.now (length out.old) records) out.old result out.new work.new }
{
    let admitted = formatter::admit(block, notes)?;
    index_notes(admitted, out, records, work)
}

// With lent room 12 is in the place of 4.
fn write_lent(
    block: &[u8],
    notes: &[u8],
    out: &mut [u8],
    records: usize,
    work: &mut [u32],
) -> Result<Filled, Unfilled>
    ensures { Indexes (indexing (index_lending (length work.old)) block.now notes.now (length out.old) records) out.old result out.new work.new }
{
    let admitted = formatter::admit_within(block, notes, formatter::MOST_LARGE)?;
    index_lent(admitted, out, records, work)
}

// A paragraph may have so many words.
const MOST_WORDS: usize = 1024;

// A number has room for 32 marks, and two are made for each byte of the notes: the numbers for notes of so many bytes.
fn marks_for(size: usize) -> usize
    requires { size ≤ most_large }
    ensures { result ≡ marks_for size }
{
    (size + 15) / 16
}

// In room for the marks of the longest notes and for the most words that a paragraph may have.
fn index_notes(
    notes: Notes,
    out: &mut [u8],
    records: usize,
    work: &mut [u32],
) -> Result<Filled, Unfilled>
    requires { (length notes.bytes.now ≤ most_bytes) × (length work.old ≡ 19456) }
    ensures { Indexes (left_of own_room (meant notes.entry.block.now notes.entry.options) notes.entry.bytes.now (length out.old) records) out.old result out.new work.new }
{
    let marks = marks_for(notes.bytes.len());
    let end = marks + paragraphs::numbers_for(notes.options.quick, MOST_WORDS);
    index_with(notes, out, records, work, marks, end)
}

// In the room that is lent, if it is enough. The room is told before anything is written, since the output stays as it was.
fn index_lent(
    notes: Notes,
    out: &mut [u8],
    records: usize,
    work: &mut [u32],
) -> Result<Filled, Unfilled>
    ensures { Indexes (left_of (index_lending (length work.old)) (meant notes.entry.block.now notes.entry.options) notes.entry.bytes.now (length out.old) records) out.old result out.new work.new }
{
    let marks = marks_for(notes.bytes.len());
    let Some(rest) = work.len().checked_sub(marks) else {
        return Err(Unfilled::Refused(Refusal::Work(marks + walk::work_over(notes, 0))));
    };
    let needed = walk::work_over(notes, rest);
    if rest < needed {
        return Err(Unfilled::Refused(Refusal::Work(marks + needed)));
    }
    let end = work.len();
    index_with(notes, out, records, work, marks, end)
}

// N has room for no more.
const MOST_TOLD: usize = 4294967295;

// Writes the digest, and tells whether there is room for its records and for itself. The first numbers of the room are for marks, those
// after them for words.
fn index_with(
    notes: Notes,
    out: &mut [u8],
    records: usize,
    work: &mut [u32],
    marks: usize,
    end: usize,
) -> Result<Filled, Unfilled>
    requires { Parted notes.bytes.now marks end work.old }
    ensures { Indexes (found_of (room_for notes.entry.options.quick (end - marks)) (meant notes.entry.block.now notes.entry.options) notes.entry.bytes.now (length out.old) records) out.old result out.new work.new }
{
    let noted = note_pieces(notes, out, work, marks, end);
    let r = in_room(noted, records, out.len());
    if r.is_err() {
        out.fill(0);
    }
    r
}

// What the pieces come to where there is room for so many records and bytes.
fn in_room(noted: Result<Pieces, Stopped>, records: usize, space: usize) -> Result<Filled, Unfilled>
    ensures { result ≡ fitted noted records space }
{
    let p = noted?;
    if records < p.pieces {
        return Err(Unfilled::Full(p.pieces));
    }
    if MOST_TOLD < p.written {
        return Err(Unfilled::Room(MOST_TOLD));
    }
    if space < p.written {
        return Err(Unfilled::Room(p.written));
    }
    Ok(Filled {
        written: p.written,
        records: p.pieces,
    })
}

// Piece by piece: written, and its gaps spelled.
fn note_pieces(
    notes: Notes,
    out: &mut [u8],
    work: &mut [u32],
    marks: usize,
    end: usize,
) -> Result<Pieces, Stopped>
    requires { Parted notes.bytes.now marks end work.old }
    ensures { Noted (room_for notes.entry.options.quick (end - marks)) (meant notes.entry.block.now notes.entry.options) notes.entry.bytes.now out.old out.new work.new result }
{
    work[..marks].fill(0);
    let mut c = Cursor {
        at: 0,
        written: 0,
        mail: true,
    };
    let mut pieces = 0;
    let mut line = 0;
    while c.at < notes.bytes.len() {
        let Ok(d) = put_piece(notes, c, out, &mut work[marks..end]) else {
            return Err(Stopped { at: c.at });
        };
        line = spell(&mut work[..marks], out, c, d, line);
        pieces += 1;
        c = d;
    }
    Ok(Pieces {
        written: c.written,
        pieces,
    })
}

// The gaps of the piece between two cursors, whose first output line is given: its length and its count of output lines. It tells the line
// after it. Of a digest that does not fit nothing need be spelled, since the call is refused.
fn spell(gaps: &mut [u32], out: &[u8], c: Cursor, d: Cursor, line: usize) -> usize
    requires { Spells gaps.old out.now c d line }
    ensures { Spelt gaps.old out.now c d line gaps.new result }
{
    if out.len() < d.written {
        return line;
    }
    let count = count_lines(&out[c.written..d.written]);
    let behind = d.at + line;
    marks::mark(gaps, behind - 1);
    marks::mark(gaps, behind + count - 1);
    line + count
}

// Writes the piece at a place, unless it is a paragraph of too many words.
fn put_piece(notes: Notes, c: Cursor, out: &mut [u8], work: &mut [u32]) -> Result<Cursor, TooMany>
    requires { CursorIn notes.bytes.now c × (c.at < length notes.bytes.now) }
    ensures { PieceStepped (room_for notes.entry.options.quick (length work.old)) (meant notes.entry.block.now notes.entry.options) notes.entry.bytes.now out.old c out.new result }
{
    let at = c.at;
    match pieces::next_piece(
        notes.bytes,
        at,
        notes.options,
        notes.block,
        c.mail,
        !notes.options.keep,
    ) {
        Piece::Blank { next } => Ok(Cursor {
            at: next,
            written: output::emit_line(notes.bytes, at, at, out, c.written),
            mail: true,
        }),
        Piece::Plain { end, next } => Ok(Cursor {
            at: next,
            written: output::emit_line(notes.bytes, at, end, out, c.written),
            mail: false,
        }),
        Piece::Text(p) => {
            let most = paragraphs::room_for(notes.options.quick, work.len());
            paragraphs::put_paragraph(
                notes.bytes,
                at,
                notes.options,
                p,
                out,
                c.written,
                most,
                work,
            )
        }
    }
}

// How many lines a text has.
fn count_lines(s: &[u8]) -> usize
    ensures { (result ≡ length (lines_of s.now)) × (result ≤ length s.now) }
{
    let mut at = 0;
    let mut n = 0;
    while at < s.len() {
        let line = lines::first_line(&s[at..]);
        at += line.whole;
        n += 1;
    }
    n
}
