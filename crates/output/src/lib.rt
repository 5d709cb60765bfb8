// Output: writers of words, spaces and indents. Each is handed the output from its written end onwards, writes what fits at the front
// of it, and answers how many bytes there were to write.
#![tactic(auto)]

ghost use Rattle.std.specs.Prelude.{◌≡◌, true, false, cond, ◌++◌, ◌+◌, ◌-◌, ◌≤◌, ◌<◌, ◌^◌, length, replicate};
ghost use Rattle.std.proofs.Math.Seq.{slice};
ghost use Rattle.records.specs.Word.{meaning};
ghost use Rattle.records.specs.Cited.Table.{Within};
ghost use Rattle.output.specs.Cited.Bound.{most_emitted};
ghost use Rattle.output.specs.Emission.{line_feed};
ghost use Rattle.output.specs.Cited.Sink.{Wrote};
ghost use Rattle.output.specs.Cited.Writers.{margin_of, MarginIn, placed, Laid, emitted, emitted_from};
ghost use Rattle.output.specs.Cited.Runs.{Joins, Runs};

use pieces::Margin;
use records::Word;

// How a paragraph is laid out: uniform spacing, and its two indents.
#[derive(Clone, Copy, Debug, PartialEq, Eq)]
pub struct Layout {
    pub uniform: bool,
    pub first: Margin,
    pub indent: Margin,
}

// So many bytes of a text from a place on, to the same place. Their number is known to the compiler, and they go by way of an array, so that
// it moves them as one: without the array it would ask first whether the two places overlap.
fn copy_block<const N: usize>(text: &[u8], at: usize, rest: &mut [u8])
    requires { (at + N ≤ length text.now) × (at + N ≤ length rest.old) }
    ensures { Wrote rest.old at (slice at (at + N) text.now) rest.new (at + N) }
{
    let mut block = [0u8; N];
    block.copy_from_slice(&text[at..at + N]);
    rest[at..at + N].copy_from_slice(&block);
}

// A text of at most three bytes: its first, middle and last byte, which of a shorter one are partly the same.
fn copy_few(text: &[u8], rest: &mut [u8])
    requires { (length text.now ≤ 3) × (length text.now ≤ length rest.old) }
    ensures { Wrote rest.old 0 text.now rest.new (length text.now) }
{
    if text.is_empty() {
        return;
    }
    let middle = text.len() / 2;
    let last = text.len() - 1;
    rest[0] = text[0];
    rest[middle] = text[middle];
    rest[last] = text[last];
}

// A text of four to fifteen bytes: four blocks, the last of which ends with it. Where they overlap, they have the same bytes, so that no
// branch asks how long a word is.
fn copy_short(text: &[u8], rest: &mut [u8])
    requires { (4 ≤ length text.now) × (length text.now < 16) × (length text.now ≤ length rest.old) }
    ensures { Wrote rest.old 0 text.now rest.new (length text.now) }
{
    let last = text.len() - 4;
    copy_block::<4>(text, 0, rest);
    copy_block::<4>(text, last.min(4), rest);
    copy_block::<4>(text, last.min(8), rest);
    copy_block::<4>(text, last, rest);
}

// A text of sixteen bytes or more: 64 a turn as long as more than that is left; then three blocks of sixteen, and one that ends with the
// text, which of a shorter rest are partly the same.
fn copy_long(text: &[u8], rest: &mut [u8])
    requires { (16 ≤ length text.now) × (length text.now ≤ length rest.old) }
    ensures { Wrote rest.old 0 text.now rest.new (length text.now) }
{
    let last = text.len() - 16;
    let mut k = 0;
    while k + 48 < last {
        copy_block::<64>(text, k, rest);
        k += 64;
    }
    copy_block::<16>(text, last.min(k), rest);
    copy_block::<16>(text, last.min(k + 16), rest);
    copy_block::<16>(text, last.min(k + 32), rest);
    copy_block::<16>(text, last, rest);
}

// A text, to where there is room for it.
fn copy(text: &[u8], rest: &mut [u8])
    requires { length text.now ≤ length rest.old }
    ensures { Wrote rest.old 0 text.now rest.new (length text.now) }
{
    if text.len() < 4 {
        copy_few(text, rest);
    } else if text.len() < 16 {
        copy_short(text, rest);
    } else {
        copy_long(text, rest);
    }
}

// Bytes of the notes: words, with the blanks before them or bare, or the bytes of an indent.
// In the original: `write_with_spaces`.
pub fn put_text(notes: &[u8], from: usize, to: usize, rest: &mut [u8]) -> usize
    requires { (from ≤ to) × (to ≤ length notes.now) }
    ensures { Wrote rest.old 0 (slice from to notes.now) rest.new result }
{
    let size = to - from;
    let end = from + size.min(rest.len());
    copy(&notes[from..end], rest);
    size
}

pub fn put_spaces(count: usize, rest: &mut [u8]) -> usize
    ensures { Wrote rest.old 0 (replicate count 32) rest.new result }
{
    let fits = count.min(rest.len());
    rest[..fits].fill(32);
    count
}

// The spaces that are added before a word, two at most: without a loop, which would become a call.
// In the original: `write_with_spaces`.
pub fn put_added(count: usize, rest: &mut [u8]) -> usize
    requires { count ≤ 2 }
    ensures { Wrote rest.old 0 (replicate count 32) rest.new result }
{
    let room = count.min(rest.len());
    if 0 < room {
        rest[0] = 32;
    }
    if 1 < room {
        rest[1] = 32;
    }
    count
}

pub fn put_feed(rest: &mut [u8]) -> usize
    ensures { Wrote rest.old 0 line_feed rest.new result }
{
    if !rest.is_empty() {
        rest[0] = 10;
    }
    1
}

// An indent: its bytes, and further spaces after them.
pub fn put_margin(notes: &[u8], m: Margin, rest: &mut [u8]) -> usize
    requires { MarginIn (length notes.now) m }
    ensures { Wrote rest.old 0 (margin_of notes.now m) rest.new result }
{
    let k = put_text(notes, m.start, m.end, rest);
    let place = k.min(rest.len());
    k + put_spaces(m.more, &mut rest[place..])
}

// A new line: a line feed, and the indent after it.
// In the original: `write_newline`.
pub fn put_break(notes: &[u8], indent: Margin, rest: &mut [u8]) -> usize
    requires { MarginIn (length notes.now) indent }
    ensures { Wrote rest.old 0 (line_feed ++ margin_of notes.now indent) rest.new result }
{
    let k = put_feed(rest);
    let place = k.min(rest.len());
    k + put_margin(notes, indent, &mut rest[place..])
}

// A word with what is before it, and the notes after it up to end: on a fresh line the line feed and the indent, else added spaces
// and its blanks.
// In the original: `slice_if_fresh`.
pub fn put_word(
    notes: &[u8],
    w: Word,
    end: usize,
    fresh: bool,
    added: usize,
    indent: Margin,
    rest: &mut [u8],
) -> usize
    requires { Within (length notes.now) w × MarginIn (length notes.now) indent × (length notes.now < 2 ^ 32) × (added ≤ 2) × (w.end ≤ end) × (end ≤ length notes.now) }
    ensures { Wrote rest.old 0 (placed fresh added (margin_of notes.now indent) (meaning notes.now w) ++ slice w.end end notes.now) rest.new result }
{
    if fresh {
        let k = put_break(notes, indent, rest);
        let place = k.min(rest.len());
        k + put_text(notes, w.start, end, &mut rest[place..])
    } else {
        let k = put_added(added, rest);
        let place = k.min(rest.len());
        k + put_text(notes, w.from, end, &mut rest[place..])
    }
}

// The first word and the notes after it, bare after the first indent.
// In the original: `break_lines`.
pub fn put_first(notes: &[u8], from: usize, to: usize, first: Margin, rest: &mut [u8]) -> usize
    requires { (from ≤ to) × (to ≤ length notes.now) × MarginIn (length notes.now) first × (length notes.now < 2 ^ 32) }
    ensures { Wrote rest.old 0 (margin_of notes.now first ++ slice from to notes.now) rest.new result }
{
    let k = put_margin(notes, first, rest);
    let place = k.min(rest.len());
    k + put_text(notes, from, to, &mut rest[place..])
}

// Words that are in the notes just as they are to be written, so that they are written as one piece: the number of the word after
// them, where they end in the notes, and the mark of the last of them.
#[derive(Clone, Copy, Debug, PartialEq, Eq)]
struct Run {
    next: usize,
    end: usize,
    punct: bool,
}

// Whether so many bytes of the notes are spaces, two at most.
fn all_spaces(notes: &[u8], at: usize, count: usize) -> bool
    requires { (count ≤ 2) × (at + count ≤ length notes.now) }
    ensures { result ≡ true → slice at (at + count) notes.now ≡ replicate count 32 }
{
    count == 0 || notes[at] == 32 && (count == 1 || notes[at + 1] == 32)
}

// Whether the bytes of a word that stays on its line, with what goes before it, do not stand in the notes from end on.
fn apart(notes: &[u8], w: Word, added: usize, end: usize) -> bool
    requires { Within (length notes.now) w × (end ≤ length notes.now) × (length notes.now < 2 ^ 32) × (added ≤ 2) }
    ensures { result ≡ false → Joins notes.now w false added end }
{
    end + added != w.from || !all_spaces(notes, end, added)
}

// The run that word i continues, which reaches up to end so far: punct is the mark of its last word.
fn run_from(
    notes: &[u8],
    table: &[u32],
    n: usize,
    l: Layout,
    end: usize,
    punct: bool,
    i: usize,
) -> Run
    requires { Laid notes.now table.now n l × (end ≤ length notes.now) × (i ≤ n) }
    ensures { Runs notes.now table.now n l end punct i result }
{
    let mut r = Run {
        next: i,
        end,
        punct,
    };
    for j in i..n {
        if records::starts_line(table, j) {
            return r;
        }
        let w = records::get(table, j);
        let added = spacing::added_space(l.uniform, w.first, w.sentence, r.punct);
        if apart(notes, w, added, r.end) {
            return r;
        }
        r = Run {
            next: j + 1,
            end: w.end,
            punct: w.punct,
        };
    }
    r
}

// The words after the first run, and the line feed at the end.
// In the original: `break_knuth_plass`.
fn emit_rest(
    notes: &[u8],
    table: &[u32],
    n: usize,
    l: Layout,
    first: Run,
    out: &mut [u8],
    at: usize,
) -> usize
    requires { Laid notes.now table.now n l × (first.next ≤ n) × (at < 2 ^ 63) }
    ensures { Wrote out.old at (emitted_from notes.now table.now n l first.punct first.next) out.new result }
{
    let mut k = at;
    let mut r = first;
    while r.next < n {
        let i = r.next;
        let w = records::get(table, i);
        let added = spacing::added_space(l.uniform, w.first, w.sentence, r.punct);
        let fresh = records::starts_line(table, i);
        r = run_from(notes, table, n, l, w.end, w.punct, i + 1);
        let place = k.min(out.len());
        k += put_word(notes, w, r.end, fresh, added, l.indent, &mut out[place..]);
    }
    let place = k.min(out.len());
    k + put_feed(&mut out[place..])
}

// The bytes of an indent.
fn margin_size(m: Margin) -> usize
    requires { (m.start ≤ m.end) × (m.end < 2 ^ 32) × (m.more < 2 ^ 32) }
    ensures { (result ≡ m.end - m.start + m.more) × (result < 2 ^ 33) }
{
    m.end - m.start + m.more
}

// The bytes of a word with what is before it: on a fresh line a line feed and the indent, of so many bytes.
fn placed_size(w: Word, fresh: bool, added: usize, indent: usize) -> usize
    requires { Within (2 ^ 32) w × (added ≤ 2) × (indent < 2 ^ 33) }
    ensures { (result ≡ cond fresh (1 + indent + (w.end - w.start)) (added + (w.end - w.from))) × (result < 2 ^ 34) }
{
    if fresh {
        1 + indent + (w.end - w.start)
    } else {
        added + (w.end - w.from)
    }
}

// The bytes of a paragraph, where none of them is to be written: counted from the table, without a look at the notes.
fn emitted_size(notes: &[u8], table: &[u32], n: usize, l: Layout) -> usize
    requires { Laid notes.now table.now n l }
    ensures { (result ≡ length (emitted notes.now table.now n l)) × (result < 2 ^ 62) }
{
    let head = records::get(table, 0);
    let indent = margin_size(l.indent);
    let mut k = margin_size(l.first) + (head.end - head.start);
    // The first word's own punctuation does not count.
    let mut punct = false;
    for i in 1..n {
        let w = records::get(table, i);
        let added = spacing::added_space(l.uniform, w.first, w.sentence, punct);
        k += placed_size(w, records::starts_line(table, i), added, indent);
        punct = w.punct;
    }
    k + 1
}

// A paragraph of n words, broken where the marks say, written after at bytes. Answers the written end, whether or not all of it fitted.
// In the original: `break_knuth_plass`.
pub fn emit(notes: &[u8], table: &[u32], n: usize, l: Layout, out: &mut [u8], at: usize) -> usize
    requires { Laid notes.now table.now n l × (at < 2 ^ 62) }
    ensures { Wrote out.old at (emitted notes.now table.now n l) out.new result × (result ≤ at + most_emitted notes.now table.now n l) }
{
    if out.len() <= at {
        return at + emitted_size(notes, table, n, l);
    }
    let w = records::get(table, 0);
    // The first word's own punctuation does not count.
    let run = run_from(notes, table, n, l, w.end, false, 1);
    let place = at.min(out.len());
    let k = at + put_first(notes, w.start, run.end, l.first, &mut out[place..]);
    emit_rest(notes, table, n, l, run, out, k)
}

// A line of the notes as it is, and a line feed, written after at bytes; a blank line has no bytes of its own.
// In the original: `uumain`.
pub fn emit_line(notes: &[u8], from: usize, to: usize, out: &mut [u8], at: usize) -> usize
    requires { (from ≤ to) × (to ≤ length notes.now) × (length notes.now < 2 ^ 32) × (at < 2 ^ 62) }
    ensures { Wrote out.old at (slice from to notes.now ++ line_feed) out.new result × (result ≤ at + (to - from) + 1) }
{
    let place = at.min(out.len());
    let k = at + put_text(notes, from, to, &mut out[place..]);
    let behind = k.min(out.len());
    k + put_feed(&mut out[behind..])
}
