// The wall panel: the last 24 lines of a digest as 24 rows of 80 cells.
#![tactic(auto)]

ghost use Rattle.std.specs.Prelude.{◌≡◌, ◌+◌, ◌≤◌, ◌<◌, min, length, drop, replicate};
ghost use Rattle.lists.specs.Runs.{joined};
ghost use Rattle.lines.specs.Lines.{lines_of};
ghost use Rattle.lines.specs.Classes.{next_stop};
ghost use Rattle.lists.specs.Coded.{numbered};
ghost use Rattle.panel.specs.Panel.{blank, control, sign_of, drawn, marked, row_cells, stop_width, shown, panel_answer, cells_after, panel_coded};
ghost use Rattle.panel.specs.Cited.Places.{seen_at, row_at, step_of, Newest};

// The tab width is refused.
#[derive(Clone, Copy, Debug, PartialEq, Eq)]
pub struct Refused;

// What a character asks of its row: a tab, nothing, a cell, or its cell and a filler cell.
#[derive(Clone, Copy, Debug, PartialEq, Eq)]
pub enum Sign {
    Tab,
    Dropped,
    One(u32),
    Two(u32),
}

// A sign of a line, and the place after it.
#[derive(Clone, Copy, Debug, PartialEq, Eq)]
struct Seen {
    sign: Sign,
    next: usize,
}

// The end of a text: where it begins, and how many lines it has.
#[derive(Clone, Copy, Debug, PartialEq, Eq)]
struct Tail {
    at: usize,
    count: usize,
}

// Draws the panel of a digest. What the cells held before is gone.
pub fn draw(digest: &[u8], tab: u64, cells: &mut [u32; 1920]) -> Result<(), Refused>
    ensures { (result ≡ panel_answer tab) × (cells.new ≡ cells_after tab digest.now) }
{
    // All cells are made as blanks before any line is drawn.
    *cells = [0x20; 1920];
    if 100 < tab {
        return Err(Refused);
    }
    draw_newest(digest, stop_width(tab), cells);
    Ok(())
}

// The answer's number.
pub fn number_of(a: Result<(), Refused>) -> u64
    ensures { result ≡ numbered (panel_coded a) }
{
    match a {
        Ok(()) => lists::number(0, 0),
        Err(Refused) => lists::number(1, 0),
    }
}

// Tab width 0 acts as 1.
pub fn stop_width(tab: u64) -> usize
    ensures { result ≡ stop_width tab }
{
    tab.max(1) as usize
}

// Draws the newest lines into rows of blanks, the last at the bottom.
fn draw_newest(digest: &[u8], tab: usize, cells: &mut [u32])
    requires { (1 ≤ tab) × (tab ≤ 100) × (cells.old ≡ replicate 1920 blank) }
    ensures { cells.new ≡ joined (row_cells tab) (shown digest.now) }
{
    let t = newest_lines(digest);
    let mut at = t.at;
    let mut from = (24 - t.count) * 80;
    while at < digest.len() {
        let line = lines::first_line(&digest[at..]);
        let end = at + line.text;
        let to = from + 80;
        draw_row(&digest[at..end], tab, &mut cells[from..to]);
        at += line.whole;
        from = to;
    }
}

// The last 24 lines of a text, or all: where they begin, looking from the end.
fn newest_lines(s: &[u8]) -> Tail
    ensures { Newest s.now result }
{
    let mut count = 0;
    for last in (0..s.len()).rev() {
        let more = line_ends(s, last);
        if 24 < count + more {
            return Tail {
                at: last + 1,
                count,
            };
        }
        count += more;
    }
    Tail { at: 0, count }
}

// How many more lines a text has from a byte on than from the one after it: 1 if that byte is a line feed or the text's last, else 0.
fn line_ends(s: &[u8], last: usize) -> usize
    requires { last < length s.now }
    ensures { (result ≤ 1) × (result + length (lines_of (drop (last + 1) s.now)) ≡ length (lines_of (drop last s.now))) }
{
    // Not by one sum of both tests: most bytes end none, and a branch that is foreseen costs them nothing.
    if last + 1 == s.len() {
        return 1;
    }
    if s[last] == 10 { 1 } else { 0 }
}

// Draws a line's text into its row of blanks.
fn draw_row(line: &[u8], tab: usize, row: &mut [u32])
    requires { (1 ≤ tab) × (tab ≤ 100) × (row.old ≡ replicate 80 blank) }
    ensures { row.new ≡ row_cells tab line.now }
{
    let mut at = 0;
    let mut column = 0;
    while at < line.len() {
        let seen = sign_at(line, at);
        let Some(behind) = draw_sign(seen.sign, tab, column, row) else {
            mark_over(row);
            return;
        };
        at = seen.next;
        column = behind;
    }
}

// What is at a place of a line. A byte that begins no well-formed character shows as U+FFFD.
fn sign_at(line: &[u8], at: usize) -> Seen
    requires { at < length line.now }
    ensures { result ≡ seen_at at line.now }
{
    match text::decode_at(line, at) {
        Some(c) => Seen {
            sign: sign_of(c.code),
            next: c.next,
        },
        None => Seen {
            sign: Sign::One(0xFFFD),
            next: at + 1,
        },
    }
}

// What a character shows.
fn sign_of(c: u32) -> Sign
    ensures { result ≡ sign_of c }
{
    if c == 9 {
        Sign::Tab
    } else if is_control(c) {
        Sign::One(0x20)
    } else {
        match widths::width(c) {
            0 => Sign::Dropped,
            2 => Sign::Two(c),
            _ => Sign::One(c),
        }
    }
}

// U+0000 to U+001F and U+007F to U+009F.
fn is_control(c: u32) -> bool
    ensures { result ≡ control c }
{
    (c < 0x20) | (0x7F <= c) & (c <= 0x9F)
}

// Draws a sign at a column, and answers where drawing goes on, if it does. What does not fit is dropped.
fn draw_sign(sign: Sign, tab: usize, column: usize, row: &mut [u32]) -> Option<usize>
    requires { (1 ≤ tab) × (tab ≤ 100) × (column ≤ 80) × (length row.old ≡ 80) }
    ensures { (result ≡ step_of (drawn tab (row_at column row.old) sign)) × (row.new ≡ (drawn tab (row_at column row.old) sign).cells) }
{
    match sign {
        Sign::Tab => Some(next_stop(tab, column)),
        Sign::Dropped => Some(column),
        Sign::One(c) => {
            if 80 <= column {
                return None;
            }
            row[column] = c;
            Some(column + 1)
        }
        Sign::Two(c) => {
            if 79 <= column {
                return None;
            }
            row[column] = c;
            row[column + 1] = 0;
            Some(column + 2)
        }
    }
}

// The next tab stop after a column, or the row's end before it.
fn next_stop(tab: usize, column: usize) -> usize
    requires { (1 ≤ tab) × (tab ≤ 100) × (column ≤ 80) }
    ensures { result ≡ min 80 (next_stop tab column) }
{
    lines::next_stop(tab, column).min(80)
}

// The last cell of a line that runs over shows `+`; no filler is left without its character.
fn mark_over(row: &mut [u32])
    requires { length row.old ≡ 80 }
    ensures { row.new ≡ marked row.old }
{
    if row[79] == 0 {
        row[78] = 0x20;
    }
    row[79] = 0x2B;
}
