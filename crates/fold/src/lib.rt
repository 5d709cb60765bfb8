// Folding, for the wall: a line feed is put before each character that would end past the columns, so that all of a text can be shown.
#![tactic(auto)]

ghost use Rattle.std.specs.Prelude.{◌≡◌, true, ◌∷◌, ◌++◌, ◌+◌, ◌-◌, ◌*◌, ◌≤◌, ◌<◌, length, take, drop};
ghost use Rattle.std.proofs.Math.Seq.{slice};
ghost use Rattle.text.specs.Characters.{characters};
ghost use Rattle.output.specs.Cited.Sink.{Wrote};
ghost use Rattle.fold.specs.Fold.{fold as fold_of, rows_of, feed, in_rows, folded};
ghost use Rattle.fold.specs.Cited.Steps.{Folds, unfolded_coded, Plain, plain_byte, Behind, stay_end, row_end};

use lines::Spot;
use lists::Refusing;

// Why a text is not folded: the tab width or the columns are refused, it is too long, or there is no room for so many bytes.
#[derive(Clone, Copy, Debug, PartialEq, Eq)]
pub enum Unfolded {
    Options,
    Long,
    Room(usize),
}

impl Refusing for Unfolded {
    ghost coded = { unfolded_coded };

    fn number(self) -> u64 {
        match self {
            Unfolded::Options => lists::number(1, 0),
            Unfolded::Long => lists::number(2, 0),
            Unfolded::Room(needed) => lists::number(5, needed),
        }
    }
}

// A text folded into `out`: the length of what was written. One pass writes what fits and counts what is needed.
pub fn fold(text: &[u8], tab: u64, columns: u64, out: &mut [u8]) -> Result<usize, Unfolded>
    ensures { Folds (fold_of text.now tab columns (length out.old)) out.old result out.new }
{
    if (100 < tab) | (columns == 0) | (1000 < columns) {
        return Err(Unfolded::Options);
    }
    if 1073741824 < text.len() {
        return Err(Unfolded::Long);
    }
    let needed = put_lines(text, panel::stop_width(tab), columns as usize, out);
    if needed <= out.len() {
        Ok(needed)
    } else {
        // No byte stays where there is no room for all.
        out.fill(0);
        Err(Unfolded::Room(needed))
    }
}

// Line by line, each with its line end.
fn put_lines(text: &[u8], tab: usize, columns: usize, out: &mut [u8]) -> usize
    requires { (length text.now ≤ 1073741824) × (1 ≤ tab) × (tab ≤ 100) × (columns ≤ 1000) }
    ensures { Wrote out.old 0 (folded tab columns text.now) out.new result × (result ≤ 2 * length text.now) }
{
    let mut at = 0;
    let mut k: usize = 0;
    while at < text.len() {
        let extent = lines::first_line(&text[at..]);
        let end = at + extent.whole;
        let place = k.min(out.len());
        k += put_line(&text[at..end], extent.text, tab, columns, &mut out[place..]);
        at = end;
    }
    k
}

// A line in rows, and its line end as it is, which is after `size` bytes.
fn put_line(raw: &[u8], size: usize, tab: usize, columns: usize, rest: &mut [u8]) -> usize
    requires { (size ≤ length raw.now) × (length raw.now ≤ 1073741824) × (1 ≤ tab) × (tab ≤ 100) × (columns ≤ 1000) }
    ensures { Wrote rest.old 0 (in_rows (rows_of tab columns (characters (take size raw.now))) ++ drop size raw.now) rest.new result × (result ≤ 2 * length raw.now) }
{
    let k = put_rows(&raw[..size], tab, columns, rest);
    let place = k.min(rest.len());
    k + output::put_text(raw, size, raw.len(), &mut rest[place..])
}

// A line's text in rows, a line feed before each but the first.
fn put_rows(line: &[u8], tab: usize, columns: usize, rest: &mut [u8]) -> usize
    requires { (length line.now ≤ 1073741824) × (1 ≤ tab) × (tab ≤ 100) × (columns ≤ 1000) }
    ensures { Wrote rest.old 0 (in_rows (rows_of tab columns (characters line.now))) rest.new result × (result ≤ 2 * length line.now) }
{
    let mut at = row_end(line, 0, tab, columns);
    let mut k = output::put_text(line, 0, at, rest);
    while at < line.len() {
        let end = row_end(line, at, tab, columns);
        let place = k.min(rest.len());
        k += put_fed(line, at, end, &mut rest[place..]);
        at = end;
    }
    k
}

// A row, with a line feed before it.
fn put_fed(line: &[u8], at: usize, end: usize, rest: &mut [u8]) -> usize
    requires { (at ≤ end) × (end ≤ length line.now) × (length line.now ≤ 1073741824) }
    ensures { Wrote rest.old 0 (feed ∷ slice at end line.now) rest.new result }
{
    let k = output::put_feed(rest);
    let place = k.min(rest.len());
    k + output::put_text(line, at, end, &mut rest[place..])
}

// Where the row ends that begins at a place: its first character is there whatever it takes.
fn row_end(line: &[u8], at: usize, tab: usize, columns: usize) -> usize
    requires { (at ≤ length line.now) × (1 ≤ tab) × (tab ≤ 100) × (columns ≤ 1000) }
    ensures { (result ≡ row_end tab columns line.now at) × (result ≤ length line.now) × (at < length line.now → at < result) }
{
    if at == line.len() {
        return at;
    }
    let first = behind(line, at, 0, tab);
    stay_end(line, first.at, first.column, tab, columns)
}

// Where the row ends that has come to a place and a column: before the first character that would end past the columns and has a width.
fn stay_end(line: &[u8], from: usize, start: usize, tab: usize, columns: usize) -> usize
    requires { (from ≤ length line.now) × (start ≤ 1000) × (1 ≤ tab) × (tab ≤ 100) × (columns ≤ 1000) }
    ensures { (result ≡ stay_end tab columns line.now from start) × (from ≤ result) × (result ≤ length line.now) }
{
    let mut at = from;
    let mut column = start;
    while at < line.len() {
        let plain = plain_end(line, at, columns.saturating_sub(column));
        let reached = column + (plain - at);
        if plain == line.len() {
            return plain;
        }
        let next = behind(line, plain, reached, tab);
        if (columns < next.column) & (reached < next.column) {
            return plain;
        }
        at = next.at;
        column = next.column;
    }
    at
}

// The end of the bytes from 0x20 to 0x7E at a place, but at most so many on: each is a character of one column.
fn plain_end(line: &[u8], from: usize, most: usize) -> usize
    requires { from ≤ length line.now }
    ensures { Plain line.now from result × (result ≤ from + most) }
{
    let end = from + most.min(line.len() - from);
    for i in plain_eights(line, from, end)..end {
        if !is_plain(line[i]) {
            return i;
        }
    }
    end
}

// Passes such bytes eight at a time, up to an end: eight tests without a branch between them are as quick as one.
fn plain_eights(line: &[u8], from: usize, end: usize) -> usize
    requires { (from ≤ end) × (end ≤ length line.now) }
    ensures { Plain line.now from result × (result ≤ end) }
{
    let mut i = from;
    while 8 <= end - i {
        if are_plain(line, i) {
            i += 8;
        } else {
            return i;
        }
    }
    i
}

fn are_plain(s: &[u8], i: usize) -> bool
    requires { (i ≤ length s.now) × (8 ≤ length s.now - i) }
    ensures { result ≡ true → Plain s.now i (i + 8) }
{
    let b = i + 1;
    let c = i + 2;
    let d = i + 3;
    let e = i + 4;
    let f = i + 5;
    let g = i + 6;
    let h = i + 7;
    ((0x20 <= s[i]) & (s[i] < 0x7F))
        & ((0x20 <= s[b]) & (s[b] < 0x7F))
        & ((0x20 <= s[c]) & (s[c] < 0x7F))
        & ((0x20 <= s[d]) & (s[d] < 0x7F))
        & ((0x20 <= s[e]) & (s[e] < 0x7F))
        & ((0x20 <= s[f]) & (s[f] < 0x7F))
        & ((0x20 <= s[g]) & (s[g] < 0x7F))
        & ((0x20 <= s[h]) & (s[h] < 0x7F))
}

fn is_plain(b: u8) -> bool
    ensures { result ≡ plain_byte b }
{
    (0x20 <= b) & (b < 0x7F)
}

// The spot after the character at a place, which begins at a column. A damaged byte is one by itself.
fn behind(line: &[u8], at: usize, column: usize, tab: usize) -> Spot
    requires { (at < length line.now) × (column ≤ 1000) × (1 ≤ tab) × (tab ≤ 100) }
    ensures { Behind tab line.now at column result }
{
    match text::decode_at(line, at) {
        Some(c) => Spot {
            at: c.next,
            column: lines::column_behind(column, c.code, tab),
        },
        None => Spot {
            at: at + 1,
            column: column + 1,
        },
    }
}
