// Checking a digest: it is matched against the words of the notes, from its front.
#![tactic(auto)]

ghost use Rattle.std.specs.Prelude.{◌≡◌, cond, ◌++◌, ◌≤◌, length, drop, replicate};
ghost use Rattle.output.specs.Cited.Writers.{margin_of};
ghost use Rattle.records.specs.Cited.Table.{words_in};
ghost use Rattle.checker.specs.Matching.{soft, lead, match_text, match_feed, match_line, match_spaced, match_next, match_rest, match_words};
ghost use Rattle.checker.specs.Cited.Places.{SpotIn, Matches, GapAt, MarginFits, Matchable};

use pieces::Margin;
use text::Glyph;

// A place in the digest, and the number of its line.
#[derive(Clone, Copy, Debug, PartialEq, Eq)]
pub struct Spot {
    pub at: usize,
    pub line: usize,
}

// Matching does not go on: no acceptable digest can go on with this line.
#[derive(Clone, Copy, Debug, PartialEq, Eq)]
pub struct Fault {
    pub line: usize,
}

// Blanks at a place of the digest: where those end that part words by themselves, and where all end.
#[derive(Clone, Copy, Debug, PartialEq, Eq)]
struct Gap {
    hard: usize,
    end: usize,
}

// A line of the notes as it is, and a line feed.
pub fn match_line(text: &[u8], digest: &[u8], p: Spot) -> Result<Spot, Fault>
    requires { SpotIn digest.now p }
    ensures { Matches digest.now (match_line text.now (drop p.at digest.now) p.line) result }
{
    let q = match_text(text, digest, p)?;
    match_feed(digest, q)
}

// A paragraph of n words, cut into lines in whatever way.
pub fn match_words(
    notes: &[u8],
    table: &[u32],
    n: usize,
    first: Margin,
    indent: Margin,
    glue: bool,
    digest: &[u8],
    p: Spot,
) -> Result<Spot, Fault>
    requires { Matchable notes.now table.now n indent × MarginFits notes.now first × SpotIn digest.now p }
    ensures { Matches digest.now (match_words glue (margin_of notes.now first) (margin_of notes.now indent) (words_in notes.now n table.now) (drop p.at digest.now) p.line) result }
{
    let w = records::get(table, 0);
    let q = match_behind(&notes[w.start..w.end], notes, first, digest, p)?;
    match_rest(notes, table, n, indent, glue, digest, q)
}

// The words after the first, and the line feed at the end.
fn match_rest(
    notes: &[u8],
    table: &[u32],
    n: usize,
    indent: Margin,
    glue: bool,
    digest: &[u8],
    from: Spot,
) -> Result<Spot, Fault>
    requires { Matchable notes.now table.now n indent × SpotIn digest.now from }
    ensures { Matches digest.now (match_rest glue (margin_of notes.now indent) (drop 1 (words_in notes.now n table.now)) (drop from.at digest.now) from.line) result }
{
    let mut p = from;
    for i in 1..n {
        let w = records::get(table, i);
        p = match_next(&notes[w.start..w.end], notes, indent, glue, digest, p)?;
    }
    match_feed(digest, p)
}

// The next word: on a line of its own after the indent, or after a gap.
fn match_next(
    word: &[u8],
    notes: &[u8],
    indent: Margin,
    glue: bool,
    digest: &[u8],
    p: Spot,
) -> Result<Spot, Fault>
    requires { MarginFits notes.now indent × SpotIn digest.now p }
    ensures { Matches digest.now (match_next glue (margin_of notes.now indent) word.now (drop p.at digest.now) p.line) result }
{
    match match_feed(digest, p) {
        Ok(q) => match_behind(word, notes, indent, digest, q),
        Err(_) => match_spaced(word, glue, digest, p),
    }
}

// A word after an indent.
fn match_behind(word: &[u8], notes: &[u8], m: Margin, digest: &[u8], p: Spot) -> Result<Spot, Fault>
    requires { MarginFits notes.now m × SpotIn digest.now p }
    ensures { Matches digest.now (match_text (margin_of notes.now m ++ word.now) (drop p.at digest.now) p.line) result }
{
    let q = match_margin(notes, m, digest, p)?;
    match_text(word, digest, q)
}

// An indent: its bytes, and up to four spaces after them.
fn match_margin(notes: &[u8], m: Margin, digest: &[u8], p: Spot) -> Result<Spot, Fault>
    requires { MarginFits notes.now m × SpotIn digest.now p }
    ensures { Matches digest.now (match_text (margin_of notes.now m) (drop p.at digest.now) p.line) result }
{
    let q = match_text(&notes[m.start..m.end], digest, p)?;
    match_spaces(m.more, digest, q)
}

// So many spaces, four at most.
fn match_spaces(count: usize, digest: &[u8], p: Spot) -> Result<Spot, Fault>
    requires { (count ≤ 4) × SpotIn digest.now p }
    ensures { Matches digest.now (match_text (replicate count 32) (drop p.at digest.now) p.line) result }
{
    let spaces = [32u8; 4];
    match_text(&spaces[..count], digest, p)
}

// A word after a gap. Where it begins with U+00A0 of its own, it begins so much before the blanks end.
fn match_spaced(word: &[u8], glue: bool, digest: &[u8], p: Spot) -> Result<Spot, Fault>
    requires { SpotIn digest.now p }
    ensures { Matches digest.now (match_spaced glue word.now (drop p.at digest.now) p.line) result }
{
    let g = over_gap(digest, p.at, glue);
    if g.hard <= p.at {
        return Err(Fault { line: p.line });
    }
    let own = own_no_breaks(word);
    if g.end - g.hard < own {
        return Err(Fault { line: p.line });
    }
    let q = Spot {
        at: g.end - own,
        ..p
    };
    match_text(word, digest, q)
}

// The blanks at a place, up to a line feed.
fn over_gap(s: &[u8], at: usize, glue: bool) -> Gap
    requires { at ≤ length s.now }
    ensures { GapAt glue s.now at result }
{
    let mut g = Gap { hard: at, end: at };
    while let Glyph::Blank { code, next } = text::glyph_at(s, g.end) {
        if code == 10 {
            break;
        }
        g = behind_blank(g, is_soft(glue, code), next);
    }
    g
}

// Blanks with one more, which ends at next.
fn behind_blank(g: Gap, is_soft: bool, next: usize) -> Gap
    ensures { (result.end ≡ next) × (result.hard ≡ cond is_soft g.hard next) }
{
    Gap {
        hard: if is_soft { g.hard } else { next },
        end: next,
    }
}

// With glue on, U+00A0 parts words only beside another blank.
fn is_soft(glue: bool, code: u32) -> bool
    ensures { result ≡ soft glue code }
{
    glue && code == 0xA0
}

// The bytes of U+00A0 that a word begins with.
fn own_no_breaks(word: &[u8]) -> usize
    ensures { (result ≡ lead word.now) × (result ≤ length word.now) }
{
    let mut i = 0;
    while let Glyph::Blank { code, next } = text::glyph_at(word, i) {
        if code != 0xA0 {
            break;
        }
        i = next;
    }
    i
}

// A line feed, after which the next line begins.
fn match_feed(digest: &[u8], p: Spot) -> Result<Spot, Fault>
    requires { SpotIn digest.now p }
    ensures { Matches digest.now (match_feed (drop p.at digest.now) p.line) result }
{
    if digest.get(p.at) == Some(&10) {
        Ok(Spot {
            at: p.at + 1,
            line: p.line + 1,
        })
    } else {
        Err(Fault { line: p.line })
    }
}

// Bytes that have to stand there.
fn match_text(text: &[u8], digest: &[u8], p: Spot) -> Result<Spot, Fault>
    requires { SpotIn digest.now p }
    ensures { Matches digest.now (match_text text.now (drop p.at digest.now) p.line) result }
{
    if digest[p.at..].starts_with(text) {
        Ok(Spot {
            at: p.at + text.len(),
            ..p
        })
    } else {
        Err(Fault { line: p.line })
    }
}
