// Digests by mail: the notes' pieces written as format=flowed (RFC 3676, DelSp=no), and the lines `--` counted that this makes.
#![tactic(auto)]

ghost use Rattle.std.specs.Prelude.{◌≡◌, true, cond, List, ◌++◌, ℕ, ◌+◌, ◌-◌, ◌^◌, ◌≤◌, ◌<◌, length, take, replicate, None};
ghost use Rattle.std.proofs.Math.Seq.{slice};
ghost use Rattle.options.specs.Opts.{meant};
ghost use Rattle.options.specs.OptionBlock.{fields, first_fault};
ghost use Rattle.records.specs.Cited.Table.{Within};
ghost use Rattle.output.specs.Cited.Sink.{Wrote};
ghost use Rattle.output.specs.Cited.Writers.{margin_of, MarginIn, Laid};
ghost use Rattle.paragraphs.specs.Cited.Steps.{room_for, Placed};
ghost use Rattle.unflow.specs.Flowed.{stuffing, is_dashes};
ghost use Rattle.walk.specs.Work.{work_for};
ghost use Rattle.formatter.specs.Format.{own_room};
ghost use Rattle.formatter.specs.Work.{lending};
ghost use Rattle.flow.specs.Flow.{plain_sent, trimmed, sent};
ghost use Rattle.flow.specs.Answers.{flags_of};
ghost use Rattle.flow.specs.Cited.Words.{line_end};
ghost use Rattle.flow.specs.Cited.Sending.{switched, Ready, refused_for, shaped, Opens, Turned, RestSent, ParagraphSent, TextStepped, CursorIn, PieceStepped, Finished, Flows, FlowsLeft, FlowsAll};

use formatter::{Refusal, Unwritten};
use options::{Options, Part};
use output::Layout;
use pieces::{Margin, Paragraph, Piece};
use records::Word;
use walk::Stopped;
use words::TooMany;

// What was sent: its length, and the count of lines `--`.
#[derive(Clone, Copy, Debug, PartialEq, Eq)]
pub struct Sent {
    pub written: usize,
    pub dashes: usize,
}

// Where the work stands: the place in the notes, the length of what is sent up to there, next-mail, and the lines `--` made.
#[derive(Clone, Copy, Debug, PartialEq, Eq)]
struct Cursor {
    at: usize,
    written: usize,
    mail: bool,
    dashes: usize,
}

// How a line begins: the spaces that it is stuffed with, and whether it is `--` so far.
#[derive(Clone, Copy, Debug, PartialEq, Eq)]
struct Opening {
    spaces: usize,
    dashed: bool,
}

// Where a paragraph stands: the written end, whether the line is `--` so far, and how many such lines were ended.
#[derive(Clone, Copy, Debug, PartialEq, Eq)]
struct Turn {
    at: usize,
    dashed: bool,
    dashes: usize,
}

// Writes the notes as mail. A block that the writer does not take is refused before the notes are looked at.
pub fn flow(block: &[u8], notes: &[u8], out: &mut [u8]) -> Result<Sent, Unwritten>
    ensures { Flows own_room block.now notes.now out.old result out.new }
{
    if is_unfit(block) {
        return Err(Unwritten::Refused(Refusal::Options(block.len())));
    }
    let admitted = formatter::admit(block, notes)?;
    send_notes(mailed(admitted.options), block, notes, out)
}

// The same with working room that is lent.
pub fn flow_lent(
    block: &[u8],
    notes: &[u8],
    out: &mut [u8],
    work: &mut [u32],
) -> Result<Sent, Unwritten>
    ensures { Flows (lending (length work.old)) block.now notes.now out.old result out.new }
{
    if is_unfit(block) {
        return Err(Unwritten::Refused(Refusal::Options(block.len())));
    }
    let admitted = formatter::admit_within(block, notes, formatter::MOST_LARGE)?;
    send_large(mailed(admitted.options), block, notes, out, work)
}

// Whether a block is well formed, and asks for what mail cannot have.
fn is_unfit(block: &[u8]) -> bool
    ensures { result ≡ refused_for block.now }
{
    let Ok(o) = options::read_block(block) else {
        return false;
    };
    has_shape(o.prefix, flags_of(block))
}

// A prefix, or one of the bits crown, tagged and mail.
fn has_shape(prefix: Option<Part>, flags: usize) -> bool
    ensures { result ≡ shaped flags prefix }
{
    (flags % 2 == 1) | (flags / 2 % 2 == 1) | (flags / 4 % 2 == 1) | prefix.is_some()
}

// The flags of a well-formed block as they stand there, before one clears another: tags ascend, so that theirs is the first field.
fn flags_of(block: &[u8]) -> usize
    requires { first_fault (fields block.now) ≡ None }
    ensures { result ≡ flags_of block.now }
{
    if options::byte_at(block, 0) == 1 {
        options::byte_at(block, 3) * 256 + options::byte_at(block, 4)
    } else {
        0
    }
}

// Quick and uniform are turned on.
fn mailed(o: Options) -> Options
    ensures { result ≡ switched o }
{
    Options {
        uniform: true,
        quick: true,
        ..o
    }
}

// The room, in numbers, for the most words that a paragraph may have: seven a word.
const QUICK_MOST: usize = 7168;

// Writes what fits of the notes, and counts what is needed.
fn send_notes(o: Options, block: &[u8], notes: &[u8], out: &mut [u8]) -> Result<Sent, Unwritten>
    requires { Ready block.now notes.now o }
    ensures { FlowsLeft own_room (meant block.now o) notes.now out.old result out.new }
{
    let mut work = [0u32; QUICK_MOST];
    let sent = match send_pieces(o, block, notes, out, &mut work) {
        Ok(done) => done,
        Err(stopped) => {
            out.fill(0);
            return Err(stopped.into());
        }
    };
    if sent.written <= out.len() {
        Ok(sent)
    } else {
        out.fill(0);
        Err(Unwritten::Room(sent.written))
    }
}

// The same with lent room. The need is counted before a byte is written.
fn send_large(
    o: Options,
    block: &[u8],
    notes: &[u8],
    out: &mut [u8],
    work: &mut [u32],
) -> Result<Sent, Unwritten>
    requires { Ready block.now notes.now o }
    ensures { FlowsLeft (lending (length work.old)) (meant block.now o) notes.now out.old result out.new }
{
    let lends = work.len();
    let needed = walk::work_with(o, block, notes, lends);
    if lends < needed {
        return Err(Unwritten::Refused(Refusal::Work(needed)));
    }
    send_enough(o, block, notes, out, work)
}

// N has 32 bits: what is longer is refused for want of room.
const MOST_TOLD: usize = 4294967295;

// With room for every paragraph.
fn send_enough(
    o: Options,
    block: &[u8],
    notes: &[u8],
    out: &mut [u8],
    work: &mut [u32],
) -> Result<Sent, Unwritten>
    requires { Ready block.now notes.now o × (work_for (meant block.now o) notes.now ≤ length work.old) }
    ensures { FlowsAll (lending (length work.old)) (meant block.now o) notes.now out.old result out.new }
{
    // There is room for every paragraph, so the work does not stop.
    let sent = send_pieces(o, block, notes, out, work)?;
    if sent.written <= out.len().min(MOST_TOLD) {
        Ok(sent)
    } else {
        out.fill(0);
        Err(Unwritten::Room(sent.written.min(MOST_TOLD)))
    }
}

// Piece by piece. The work goes on when no room is left: too many words, found later, take precedence.
fn send_pieces(
    o: Options,
    block: &[u8],
    notes: &[u8],
    out: &mut [u8],
    work: &mut [u32],
) -> Result<Sent, Stopped>
    requires { Ready block.now notes.now o }
    ensures { Finished (room_for true (length work.old)) (meant block.now o) notes.now out.old out.new result }
{
    let mut c = Cursor {
        at: 0,
        written: 0,
        mail: true,
        dashes: 0,
    };
    while c.at < notes.len() {
        let Ok(d) = send_piece(o, block, notes, c, out, work) else {
            return Err(Stopped { at: c.at });
        };
        c = d;
    }
    Ok(Sent {
        written: c.written,
        dashes: c.dashes,
    })
}

// Writes the piece at a place, unless it is a paragraph of too many words.
fn send_piece(
    o: Options,
    block: &[u8],
    notes: &[u8],
    c: Cursor,
    out: &mut [u8],
    work: &mut [u32],
) -> Result<Cursor, TooMany>
    requires { Ready block.now notes.now o × CursorIn notes.now c × (c.at < length notes.now) }
    ensures { PieceStepped (room_for true (length work.old)) (meant block.now o) notes.now out.old c out.new result }
{
    let at = c.at;
    match pieces::next_piece(notes, at, o, block, c.mail, !o.keep) {
        Piece::Blank { next } => Ok(Cursor {
            at: next,
            written: send_line(notes, at, at, out, c.written),
            mail: true,
            ..c
        }),
        Piece::Plain { end, next } => Ok(Cursor {
            at: next,
            written: send_line(notes, at, end, out, c.written),
            mail: false,
            ..c
        }),
        Piece::Text(p) => send_text(notes, c, o, p, out, work),
    }
}

// Writes a paragraph, unless it has more words than the tables have room for.
fn send_text(
    notes: &[u8],
    c: Cursor,
    o: Options,
    p: Paragraph,
    out: &mut [u8],
    work: &mut [u32],
) -> Result<Cursor, TooMany>
    requires { Placed notes.now c.at o p × (c.written < 2 ^ 62) × (c.dashes < 2 ^ 62) × (o.uniform ≡ true) }
    ensures { (block : List ℕ) → TextStepped (room_for true (length work.old)) notes.now c o p out.old out.new result block }
{
    let most = paragraphs::room_for(true, work.len());
    let n = words::split_words(notes, c.at, p.next, p.mail, p.start, p.later, o, most, work)?;
    quick::quick_breaks(work, n, paragraphs::setting_of(o, p));
    let l = Layout {
        uniform: true,
        first: p.first,
        indent: p.indent,
    };
    let t = emit(notes, work, n, l, out, c.written);
    Ok(Cursor {
        at: p.next,
        written: t.at,
        mail: p.mail,
        dashes: c.dashes + t.dashes,
    })
}

// A paragraph of n words, broken where the marks say, written after at bytes.
fn emit(notes: &[u8], table: &[u32], n: usize, l: Layout, out: &mut [u8], at: usize) -> Turn
    requires { Laid notes.now table.now n l × (at < 2 ^ 62) }
    ensures { ParagraphSent notes.now table.now n l out.old at out.new result }
{
    let w = records::get(table, 0);
    let first = l.first;
    let o = opening_of(notes, first, w.start, w.end, 1 < n);
    let place = at.min(out.len());
    let k = at + put_opened(notes, first, w.start, w.end, o.spaces, &mut out[place..]);
    let t = Turn {
        at: k,
        dashed: o.dashed,
        dashes: 0,
    };
    emit_rest(notes, table, n, l, t, out)
}

// The words after the first, and the end of the last line.
fn emit_rest(notes: &[u8], table: &[u32], n: usize, l: Layout, head: Turn, out: &mut [u8]) -> Turn
    requires { Laid notes.now table.now n l × (head.at < 2 ^ 63) × (head.dashes ≡ 0) }
    ensures { RestSent notes.now table.now n l.indent out.old head out.new result }
{
    let indent = l.indent;
    // The first word's own punctuation does not count.
    let mut punct = false;
    let mut t = head;
    for i in 1..n {
        let w = records::get(table, i);
        let added = spacing::added_space(true, w.first, w.sentence, punct);
        let fresh = records::starts_line(table, i);
        t = put_next(notes, w, fresh, added, indent, i + 1 < n, t, out);
        punct = w.punct;
    }
    let place = t.at.min(out.len());
    Turn {
        at: t.at + unflow::put_end(true, &mut out[place..]),
        dashed: false,
        dashes: t.dashes,
    }
}

// A word with what is before it; more tells whether there are words after it.
fn put_next(
    notes: &[u8],
    w: Word,
    fresh: bool,
    added: usize,
    indent: Margin,
    more: bool,
    t: Turn,
    out: &mut [u8],
) -> Turn
    requires { Within (length notes.now) w × MarginIn (length notes.now) indent × (length notes.now < 2 ^ 32) × (added ≤ 2) × (t.at < 2 ^ 63 + 2 ^ 62) × (t.dashes < 2 ^ 32) }
    ensures { Turned notes.now w fresh added indent more t out.old out.new result }
{
    let place = t.at.min(out.len());
    if !fresh {
        return Turn {
            at: t.at + output::put_word(notes, w, w.end, false, added, indent, &mut out[place..]),
            dashed: false,
            dashes: t.dashes,
        };
    }
    let o = opening_of(notes, indent, w.start, w.end, more);
    Turn {
        at: t.at + put_break(notes, w, t.dashed, o.spaces, indent, &mut out[place..]),
        dashed: o.dashed,
        dashes: t.dashes + usize::from(t.dashed),
    }
}

// The end of a line, and the next one's beginning: a line `--` is fixed, any other soft.
fn put_break(
    notes: &[u8],
    w: Word,
    dashed: bool,
    spaces: usize,
    indent: Margin,
    rest: &mut [u8],
) -> usize
    requires { Within (length notes.now) w × MarginIn (length notes.now) indent × (length notes.now < 2 ^ 32) × (spaces ≤ 1) }
    ensures { Wrote rest.old 0 (line_end dashed ++ (replicate spaces 32 ++ (margin_of notes.now indent ++ slice w.start w.end notes.now))) rest.new result × (result ≤ 2 ^ 34) }
{
    let k = put_line_end(dashed, rest);
    let place = k.min(rest.len());
    k + put_opened(notes, indent, w.start, w.end, spaces, &mut rest[place..])
}

fn put_line_end(dashed: bool, rest: &mut [u8]) -> usize
    ensures { Wrote rest.old 0 (line_end dashed) rest.new result × (result ≤ 3) }
{
    let k = output::put_added(usize::from(!dashed), rest);
    let place = k.min(rest.len());
    k + unflow::put_end(true, &mut rest[place..])
}

// A line's beginning: spaces before an indent, and the notes from a place on up to another.
fn put_opened(
    notes: &[u8],
    m: Margin,
    from: usize,
    to: usize,
    spaces: usize,
    rest: &mut [u8],
) -> usize
    requires { (from ≤ to) × (to ≤ length notes.now) × MarginIn (length notes.now) m × (length notes.now < 2 ^ 32) × (spaces ≤ 1) }
    ensures { Wrote rest.old 0 (replicate spaces 32 ++ (margin_of notes.now m ++ slice from to notes.now)) rest.new result × (result ≤ 2 ^ 33 + 2 ^ 32) }
{
    let k = output::put_added(spaces, rest);
    let place = k.min(rest.len());
    k + output::put_first(notes, from, to, m, &mut rest[place..])
}

// How a line begins with an indent and a word: all that counts are its first five bytes, and a space after them if there is more.
fn opening_of(notes: &[u8], m: Margin, from: usize, to: usize, more: bool) -> Opening
    requires { (from ≤ to) × (to ≤ length notes.now) × MarginIn (length notes.now) m × (length notes.now < 2 ^ 32) }
    ensures { Opens more (margin_of notes.now m ++ slice from to notes.now) result }
{
    let mut front = [0u8; 6];
    let n = output::put_first(notes, from, to, m, &mut front).min(5);
    front[n] = b' ';
    judged(&front, n, more)
}

// The same of a line whose first bytes stand at the front of an array, with a space after them.
fn judged(front: &[u8], n: usize, more: bool) -> Opening
    requires { n < length front.now }
    ensures { (replicate result.spaces 32 ≡ stuffing (take (n + cond more 1 0) front.now)) × (result.spaces ≤ 1) × (result.dashed ≡ is_dashes (take (n + 1) front.now)) }
{
    let end = n + usize::from(more);
    let behind = n + 1;
    Opening {
        spaces: unflow::stuffing_of(&front[..end]),
        dashed: unflow::is_dashes(&front[..behind]),
    }
}

// Writes a plain line, or a blank one, which has no bytes of its own, after at bytes.
fn send_line(notes: &[u8], from: usize, to: usize, out: &mut [u8], at: usize) -> usize
    requires { (from ≤ to) × (to ≤ length notes.now) × (length notes.now < 2 ^ 32) × (at < 2 ^ 62) }
    ensures { Wrote out.old at (sent (plain_sent (slice from to notes.now))) out.new result × (result ≤ at + (to - from) + 3) }
{
    let end = sent_end(notes, from, to);
    let spaces = unflow::stuffing_of(&notes[from..end]);
    let none = Margin {
        start: from,
        end: from,
        more: 0,
        columns: 0,
    };
    let place = at.min(out.len());
    let k = at + put_opened(notes, none, from, end, spaces, &mut out[place..]);
    let behind = k.min(out.len());
    k + unflow::put_end(true, &mut out[behind..])
}

// Where a plain line ends that loses the spaces at its end, unless it is `-- `.
fn sent_end(notes: &[u8], from: usize, to: usize) -> usize
    requires { (from ≤ to) × (to ≤ length notes.now) }
    ensures { (slice from result notes.now ≡ plain_sent (slice from to notes.now)) × (from ≤ result) × (result ≤ to) }
{
    if unflow::is_dashes(&notes[from..to]) {
        to
    } else {
        trimmed_end(notes, from, to)
    }
}

fn trimmed_end(notes: &[u8], from: usize, to: usize) -> usize
    requires { (from ≤ to) × (to ≤ length notes.now) }
    ensures { (slice from result notes.now ≡ trimmed (slice from to notes.now)) × (from ≤ result) × (result ≤ to) }
{
    let mut end = to;
    while from < end {
        let last = end - 1;
        if notes[last] != b' ' {
            return end;
        }
        end = last;
    }
    end
}
