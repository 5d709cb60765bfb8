// Reading mail: lines of format=flowed (RFC 3676, DelSp=no) are joined to paragraphs, and each paragraph is written as one line.
#![tactic(auto)]

ghost use Rattle.std.specs.Prelude.{◌≡◌, ◌*◌, ◌≤◌, length, drop, replicate};
ghost use Rattle.output.specs.Cited.Sink.{Wrote};
ghost use Rattle.unflow.specs.Flowed.{quote_depth, stuffing, content_of, is_dashes, is_separator, ends_in_space};
ghost use Rattle.unflow.specs.Unflow.{unflow as unflowOf, unflowed};
ghost use Rattle.unflow.specs.Cited.Steps.{Reads, unread_coded, Parted, end_of, start_of, placed};

use lists::Refusing;

// Why a text is not read: it is too long, or there is no room for so many bytes.
#[derive(Clone, Copy, Debug, PartialEq, Eq)]
pub enum Unread {
    Long,
    Room(usize),
}

impl Refusing for Unread {
    ghost coded = { unread_coded };

    fn number(self) -> u64 {
        match self {
            Unread::Long => lists::number(2, 0),
            Unread::Room(needed) => lists::number(5, needed),
        }
    }
}

// A line of mail: its quote depth, the place where its content begins, whether it is soft, and whether it is a signature separator.
#[derive(Clone, Copy, Debug, PartialEq, Eq)]
struct Line {
    depth: usize,
    start: usize,
    soft: bool,
    separator: bool,
}

// A text of mail read into `out`, a paragraph a line: the length of what was read. One pass writes what fits and counts what is needed.
pub fn unflow(text: &[u8], out: &mut [u8]) -> Result<usize, Unread>
    ensures { Reads (unflowOf text.now (length out.old)) out.old result out.new }
{
    if 65536 < text.len() {
        return Err(Unread::Long);
    }
    let needed = put_paragraphs(text, out);
    if needed <= out.len() {
        Ok(needed)
    } else {
        // No byte stays where there is no room for all.
        out.fill(0);
        Err(Unread::Room(needed))
    }
}

// Line by line: a soft line leaves its paragraph open, and the next line goes on in it or ends it.
fn put_paragraphs(text: &[u8], out: &mut [u8]) -> usize
    requires { length text.now ≤ 65536 }
    ensures { Wrote out.old 0 (unflowed text.now) out.new result × (result ≤ 4 * length text.now) }
{
    let mut at = 0;
    let mut k: usize = 0;
    let mut going = false;
    let mut depth = 0;
    while at < text.len() {
        let extent = lines::first_line(&text[at..]);
        let end = at + extent.text;
        let l = take_apart(&text[at..end]);
        let place = k.min(out.len());
        k += put_line(&text[at..end], l, going, depth, &mut out[place..]);
        at += extent.whole;
        going = l.soft;
        depth = l.depth;
    }
    let place = k.min(out.len());
    k + put_end(going, &mut out[place..])
}

// A line taken apart: quote marks, stuffing, content.
fn take_apart(line: &[u8]) -> Line
    ensures { Parted line.now result }
{
    let depth = marks_end(line);
    let start = content_start(line, depth);
    let separator = is_separator(line, depth, start);
    let soft = ends_in_space(&line[start..]) & !separator;
    Line {
        depth,
        start,
        soft,
        separator,
    }
}

// The place after the quote marks at a line's front.
fn marks_end(line: &[u8]) -> usize
    ensures { (result ≡ quote_depth line.now) × (result ≤ length line.now) }
{
    for i in 0..line.len() {
        if line[i] != b'>' {
            return i;
        }
    }
    line.len()
}

// The place after a space that stands there.
fn content_start(line: &[u8], depth: usize) -> usize
    requires { (depth ≡ quote_depth line.now) × (depth ≤ length line.now) }
    ensures { (content_of line.now ≡ drop result line.now) × (depth ≤ result) × (result ≤ length line.now) }
{
    depth + usize::from(line.get(depth).copied().unwrap_or(0) == b' ')
}

// The signature separator: without quote marks only as the whole line, after them with stuffing too.
fn is_separator(line: &[u8], depth: usize, start: usize) -> bool
    requires { (depth ≡ quote_depth line.now) × (content_of line.now ≡ drop start line.now) × (start ≤ length line.now) }
    ensures { result ≡ is_separator line.now }
{
    is_dashes(if depth == 0 { line } else { &line[start..] })
}

pub fn is_dashes(s: &[u8]) -> bool
    ensures { result ≡ is_dashes s.now }
{
    s == b"-- ".as_slice()
}

fn ends_in_space(s: &[u8]) -> bool
    ensures { result ≡ ends_in_space s.now }
{
    s.last().copied().unwrap_or(0) == b' '
}

// Writes a line after those before it; `going` tells whether they left a paragraph open, which has a depth.
fn put_line(line: &[u8], l: Line, going: bool, depth: usize, rest: &mut [u8]) -> usize
    requires { Parted line.now l × (length line.now ≤ 65536) }
    ensures { Wrote rest.old 0 (placed going depth line.now) rest.new result }
{
    let k = put_start(line, l, going, depth, rest);
    let place = k.min(rest.len());
    let m = k + output::put_text(line, l.start, line.len(), &mut rest[place..]);
    let behind = m.min(rest.len());
    m + put_end(!l.soft, &mut rest[behind..])
}

// What is before a line's content: nothing if it goes on in the open paragraph; else that one's end, quote marks and stuffing.
fn put_start(line: &[u8], l: Line, going: bool, depth: usize, rest: &mut [u8]) -> usize
    requires { Parted line.now l × (length line.now ≤ 65536) }
    ensures { Wrote rest.old 0 (start_of going depth line.now) rest.new result }
{
    if going & (depth == l.depth) & !l.separator {
        return 0;
    }
    let start = l.start;
    let k = put_end(going, rest);
    let place = k.min(rest.len());
    let m = k + output::put_text(line, 0, l.depth, &mut rest[place..]);
    let behind = m.min(rest.len());
    m + output::put_added(stuffing_of(&line[start..]), &mut rest[behind..])
}

// How many spaces are put before a content: one if it starts with a space, `>` or `From `.
pub fn stuffing_of(content: &[u8]) -> usize
    ensures { (replicate result 32 ≡ stuffing content.now) × (result ≤ 1) }
{
    let first = content.first().copied().unwrap_or(0);
    usize::from((first == b' ') | (first == b'>') | lines::begins(b"From ", content))
}

// The end of a paragraph, if there is one to end: carriage return and line feed.
pub fn put_end(ends: bool, rest: &mut [u8]) -> usize
    ensures { Wrote rest.old 0 (end_of ends) rest.new result }
{
    if ends {
        output::put_text(b"\r\n", 0, 2, rest)
    } else {
        0
    }
}
