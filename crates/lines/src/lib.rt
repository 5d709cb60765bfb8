// Lines: where one ends, where its text ends, and its class.
#![tactic(auto)]

ghost use Rattle.std.specs.Prelude.{◌≡◌, Bool, true, false, cond, not, ◌+◌, ◌-◌, ◌^◌, ◌≤◌, ◌<◌, eqb, length, get_or, drop};
ghost use Rattle.lists.specs.Runs.{while, every, begins};
ghost use Rattle.widths.specs.Widths.{width_of};
ghost use Rattle.text.specs.Characters.{glyphs, is_blank, is_good, damage};
ghost use Rattle.options.specs.Opts.{text_of, meant};
ghost use Rattle.lines.specs.Lines.{body, without_return, first_line};
ghost use Rattle.lines.specs.Classes.{next_stop, search, skip_found, somewhere, classify};
ghost use Rattle.lines.specs.Cited.Places.{lengths_of, classed_of, most_large, most_columns, body_end, AsciiBody, Repeats, BehindTabs, Lies, Usable, Inside, line_start, behind_all, class_at, Behind, BehindBlanks, BehindPlace, ink_before, glyphs_behind, glued_at};

use options::{Options, Part};
use text::{Char, Glyph};

// How long a line is: its text, and the whole with its line end.
#[derive(Clone, Copy, Debug, PartialEq, Eq)]
pub struct Extent {
    pub text: usize,
    pub whole: usize,
}

// Of a formatted line: the place of its prefix, the end of its indent (both in bytes), the indent's columns, and the columns up to
// the prefix's end.
#[derive(Clone, Copy, Debug, PartialEq, Eq)]
pub struct Shape {
    pub prefix_place: usize,
    pub indent_end: usize,
    pub indent_length: usize,
    pub prefix_length: usize,
}

#[derive(Clone, Copy, Debug, PartialEq, Eq)]
pub enum Class {
    Blank,
    Plain,
    Formatted(Shape),
}

// A line by its lengths, with its class.
#[derive(Clone, Copy, Debug, PartialEq, Eq)]
pub struct ClassedExtent {
    pub extent: Extent,
    pub class: Class,
}

// A place of a line, and the column that it is at.
#[derive(Clone, Copy, Debug, PartialEq, Eq)]
pub struct Spot {
    pub at: usize,
    pub column: usize,
}

// The first line of what is left of the notes.
// In the original: `FileLines::next`.
pub fn first_line(s: &[u8]) -> Extent
    ensures { result ≡ lengths_of (first_line s.now) }
{
    ended_at(s, body_end(s, 0))
}

// The same, with the class of its text. The text may be known to be sound, that is without a damaged character. The pass for the line feed
// sees as well whether the line is ASCII, as most are, and then it is so too.
// In the original: `FileLines::next`.
pub fn first_classed(s: &[u8], o: Options, block: &[u8], sound: bool) -> ClassedExtent
    requires { Usable block.now o × (length s.now ≤ most_large) × (sound ≡ true → damage (first_line s.now).text ≡ None) }
    ensures { result ≡ classed_of (meant block.now o) (first_line s.now) }
{
    // Nothing need be looked at in an empty line, as stands between most paragraphs.
    if is_empty(s) {
        return ClassedExtent {
            extent: Extent { text: 0, whole: 1 },
            class: Class::Blank,
        };
    }
    let reached = ascii_body(s);
    let end = body_end(s, reached);
    let extent = ended_at(s, end);
    let text = extent.text;
    ClassedExtent {
        extent,
        class: classify(&s[..text], sound | (reached == end), o, block),
    }
}

// Whether the first line is empty: its line feed comes first.
fn is_empty(s: &[u8]) -> bool
    ensures { result ≡ true → (0 < length s.now) × (get_or s.now 0 0 ≡ 10) }
{
    s.first() == Some(&10)
}

// The first line, from the end of its body.
fn ended_at(s: &[u8], end: usize) -> Extent
    requires { (end ≡ length (body s.now)) × (end ≤ length s.now) }
    ensures { result ≡ lengths_of (first_line s.now) }
{
    let text = without_return(&s[..end]);
    // Without a line feed it is the last, and keeps its carriage return.
    if end == s.len() {
        return Extent {
            text: end,
            whole: end,
        };
    }
    Extent {
        text,
        whole: end + 1,
    }
}

// The place of the first line feed from a place on, or the length.
fn body_end(s: &[u8], from: usize) -> usize
    requires { from ≤ length s.now }
    ensures { (result ≡ body_end s.now from) × (result ≤ length s.now) }
{
    // After a line's ASCII it is most often here.
    if ends_body(s, from) {
        return from;
    }
    let mut i = feedless_eights(s, from);
    while !ends_body(s, i) {
        i += 1;
    }
    i
}

// Whether a line's body ends at a place: a line feed stands there, or nothing does.
fn ends_body(s: &[u8], at: usize) -> bool
    requires { at ≤ length s.now }
    ensures { (result ≡ true → body_end s.now at ≡ at) × (result ≡ false → (at < length s.now) × (body_end s.now at ≡ body_end s.now (at + 1))) }
{
    at == s.len() || s[at] == 10
}

// On over bytes that are no line feed, as long as the next eight are none: eight tests without a branch between them are as quick as
// one.
fn feedless_eights(s: &[u8], from: usize) -> usize
    requires { from ≤ length s.now }
    ensures { (result ≤ length s.now) × (body_end s.now result ≡ body_end s.now from) }
{
    let mut i = from;
    while 8 <= s.len() - i {
        if are_feedless(s, i) {
            i += 8;
        } else {
            return i;
        }
    }
    i
}

// Whether no line feed is among the eight bytes at a place.
fn are_feedless(s: &[u8], i: usize) -> bool
    requires { (i ≤ length s.now) × (8 ≤ length s.now - i) }
    ensures { result ≡ true → body_end s.now i ≡ body_end s.now (i + 8) }
{
    let b = i + 1;
    let c = i + 2;
    let d = i + 3;
    let e = i + 4;
    let f = i + 5;
    let g = i + 6;
    let h = i + 7;
    (s[i] != 10)
        & (s[b] != 10)
        & (s[c] != 10)
        & (s[d] != 10)
        & (s[e] != 10)
        & (s[f] != 10)
        & (s[g] != 10)
        & (s[h] != 10)
}

// The end of the bytes at the front that are below 0x80 and no line feed.
fn ascii_body(s: &[u8]) -> usize
    ensures { AsciiBody s.now 0 result }
{
    let mut i = ascii_eights(s, ascii_sixteens(s));
    while !ends_body(s, i) {
        if 0x80 <= s[i] {
            return i;
        }
        i += 1;
    }
    i
}

// Passes such bytes, sixteen at a time.
fn ascii_sixteens(s: &[u8]) -> usize
    ensures { AsciiBody s.now 0 result }
{
    let mut i = 0;
    while 16 <= s.len() - i {
        if are_ascii(s, i) {
            i += 16;
        } else {
            return i;
        }
    }
    i
}

// Whether the sixteen bytes at a place are below 0x80 and no line feed: without a branch between them the compiler tests them as one.
fn are_ascii(s: &[u8], i: usize) -> bool
    requires { (i ≤ length s.now) × (16 ≤ length s.now - i) }
    ensures { result ≡ true → AsciiBody s.now i (i + 16) }
{
    let mut all = true;
    for k in 0..16 {
        all &= (s[i + k] < 0x80) & (s[i + k] != 10);
    }
    all
}

// On over such bytes, eight at a time, up to one below 32 or the last eight.
fn ascii_eights(s: &[u8], from: usize) -> usize
    requires { from ≤ length s.now }
    ensures { AsciiBody s.now from result }
{
    let mut i = from;
    while 8 <= s.len() - i {
        let n = text::printable_among(s, i);
        i += n;
        if n < 8 {
            return i;
        }
    }
    i
}

// How long a line's body is without a carriage return at its end.
fn without_return(body: &[u8]) -> usize
    ensures { result ≡ length (without_return body.now) }
{
    let Some((last, before)) = body.split_last() else {
        return 0;
    };
    if *last == 13 {
        before.len()
    } else {
        body.len()
    }
}

// Whether p is at the front of s. Its last byte is tried first: among blanks that alone tells most places.
// In the original: `FileLines::match_prefix_generic`.
pub fn begins(p: &[u8], s: &[u8]) -> bool
    ensures { result ≡ begins p.now s.now }
{
    if p.len() == 0 {
        return true;
    }
    if s.len() < p.len() {
        return false;
    }
    let last = p.len() - 1;
    if s[last] != p[last] {
        return false;
    }
    for i in same_eights(p, s)..p.len() {
        if s[i] != p[i] {
            return false;
        }
    }
    true
}

// On from the front of two texts as long as the next eight bytes of p are those of s, which is no shorter.
fn same_eights(p: &[u8], s: &[u8]) -> usize
    requires { length p.now ≤ length s.now }
    ensures { (result ≤ length p.now) × (begins (drop result p.now) (drop result s.now) ≡ begins p.now s.now) }
{
    let mut i = 0;
    while 8 <= p.len() - i {
        if are_same(p, s, i) {
            i += 8;
        } else {
            return i;
        }
    }
    i
}

// Whether the eight bytes at a place are the same: without a branch between them the eight tests become one.
fn are_same(p: &[u8], s: &[u8], i: usize) -> bool
    requires { (i ≤ length p.now) × (8 ≤ length p.now - i) × (length p.now ≤ length s.now) }
    ensures { result ≡ true → begins (drop i p.now) (drop i s.now) ≡ begins (drop (i + 8) p.now) (drop (i + 8) s.now) }
{
    let b = i + 1;
    let c = i + 2;
    let d = i + 3;
    let e = i + 4;
    let f = i + 5;
    let g = i + 6;
    let h = i + 7;
    (s[i] == p[i])
        & (s[b] == p[b])
        & (s[c] == p[c])
        & (s[d] == p[d])
        & (s[e] == p[e])
        & (s[f] == p[f])
        & (s[g] == p[g])
        & (s[h] == p[h])
}

// The class of a line's text, which may be known to be sound. Plain are a damaged line, a skipped one, and one without its prefix or
// with only blanks after it.
// In the original: `FileLines::next`.
fn classify(line: &[u8], sound: bool, o: Options, block: &[u8]) -> Class
    requires { Usable block.now o × (length line.now ≤ most_large) × (sound ≡ true → damage line.now ≡ None) }
    ensures { result ≡ classify (meant block.now o) line.now }
{
    let tab = o.tab;
    let glue = o.glue;
    // The line's first spaces are passed once for all that follows. No columns yet: a blank line has no use for them.
    let from = run_end(line, 32, 0);
    if is_all_blank(line, from) {
        return Class::Blank;
    }
    if is_damaged(line, sound) {
        return Class::Plain;
    }
    if is_skipped(line, from, o.skip, o.exact_skip, block) {
        return Class::Plain;
    }
    // Without a prefix the indent is the line's first blanks.
    let Some(prefix) = o.prefix else {
        let lead = lead_of(line, from, tab);
        return Class::Formatted(Shape {
            prefix_place: 0,
            indent_end: lead.at,
            indent_length: lead.column,
            prefix_length: 0,
        });
    };
    behind_prefix(
        line,
        from,
        &block[prefix.start..prefix.end],
        o.exact_prefix,
        tab,
        glue,
    )
}

// Whether nothing but blanks is in a line from a place on. A byte below 0x80, as most are, is a character by itself.
fn is_all_blank(line: &[u8], from: usize) -> bool
    requires { from ≤ length line.now }
    ensures { (glue : Bool) → result ≡ every is_blank (glyphs glue (drop from line.now)) }
{
    let mut i = from;
    while i < line.len() {
        let b = line[i];
        if b < 0x80 {
            if widths::is_white_space(u32::from(b)) {
                i = blank_eights(line, i + 1);
            } else {
                return false;
            }
        } else {
            let Glyph::Blank { next, .. } = text::glyph_at(line, i) else {
                return false;
            };
            i = next;
        }
    }
    true
}

// On over blanks of a line, as long as the next eight bytes are spaces or tabs.
fn blank_eights(line: &[u8], from: usize) -> usize
    requires { from ≤ length line.now }
    ensures { (from ≤ result) × (result ≤ length line.now) × ((glue : Bool) → every is_blank (glyphs glue (drop result line.now)) ≡ every is_blank (glyphs glue (drop from line.now))) }
{
    let mut i = from;
    while 8 <= line.len() - i {
        if are_blank(line, i) {
            i += 8;
        } else {
            return i;
        }
    }
    i
}

// Whether the eight bytes at a place are spaces or tabs.
fn are_blank(s: &[u8], i: usize) -> bool
    requires { (i ≤ length s.now) × (8 ≤ length s.now - i) }
    ensures { result ≡ true → (glue : Bool) → every is_blank (glyphs glue (drop i s.now)) ≡ every is_blank (glyphs glue (drop (i + 8) s.now)) }
{
    let b = i + 1;
    let c = i + 2;
    let d = i + 3;
    let e = i + 4;
    let f = i + 5;
    let g = i + 6;
    let h = i + 7;
    ((s[i] == 32) | (s[i] == 9))
        & ((s[b] == 32) | (s[b] == 9))
        & ((s[c] == 32) | (s[c] == 9))
        & ((s[d] == 32) | (s[d] == 9))
        & ((s[e] == 32) | (s[e] == 9))
        & ((s[f] == 32) | (s[f] == 9))
        & ((s[g] == 32) | (s[g] == 9))
        & ((s[h] == 32) | (s[h] == 9))
}

// Whether a character of a line is damaged. A line that is known to be sound has none, and is not read again.
fn is_damaged(line: &[u8], sound: bool) -> bool
    requires { sound ≡ true → damage line.now ≡ None }
    ensures { (glue : Bool) → result ≡ not (every is_good (glyphs glue line.now)) }
{
    if sound {
        return false;
    }
    text::first_damage(line).is_some()
}

// The class of a line by its prefix, which must be there with more than blanks after it.
// In the original: `FileLines::match_prefix`.
fn behind_prefix(line: &[u8], from: usize, p: &[u8], exact: bool, tab: usize, glue: bool) -> Class
    requires { Repeats 32 line.now 0 from × (length line.now ≤ most_large) × (1 ≤ tab) × (tab ≤ 100) }
    ensures { result ≡ class_at tab (length p.now) (glyphs glue line.now) (search exact p.now line.now 0 (glyphs glue line.now)) }
{
    let Some(place) = find(line, from, p, exact) else {
        return Class::Plain;
    };
    let end = place + p.len();
    let margin = measure_to(line, end, tab);
    let indent = behind_margin(line, end, margin, tab, glue);
    let at = indent.at;
    if at == line.len() {
        return Class::Plain;
    }
    Class::Formatted(Shape {
        prefix_place: place,
        indent_end: at,
        indent_length: indent.column,
        prefix_length: margin.column,
    })
}

// Whether a line begins with the skip prefix. One that is not given begins no line.
// In the original: `FileLines::match_anti_prefix`.
fn is_skipped(line: &[u8], from: usize, skip: Option<Part>, exact: bool, block: &[u8]) -> bool
    requires { Repeats 32 line.now 0 from × Lies block.now skip }
    ensures { (glue : Bool) → result ≡ somewhere (skip_found exact (text_of block.now skip) line.now (glyphs glue line.now)) }
{
    let Some(Part { start, end }) = skip else {
        return false;
    };
    find(line, from, &block[start..end], exact).is_some()
}

// Where a prefix stands in a line whose first spaces end at a place: at the line's start or, unless exact, at the first place with only
// blanks before it. The first byte after the spaces tells of most lines that it is nowhere.
// In the original: `FileLines::match_prefix_generic`.
fn find(line: &[u8], from: usize, p: &[u8], exact: bool) -> Option<usize>
    requires { Repeats 32 line.now 0 from }
    ensures { (glue : Bool) → result ≡ search exact p.now line.now 0 (glyphs glue line.now) }
{
    if begins_otherwise(line, from, p) {
        return None;
    }
    look_for(line, p, exact)
}

// Whether the first byte after a line's first spaces shows that a prefix is nowhere: it is ink, and neither it nor a space begins the prefix.
fn begins_otherwise(line: &[u8], from: usize, p: &[u8]) -> bool
    requires { Repeats 32 line.now 0 from }
    ensures { result ≡ true → (exact glue : Bool) → search exact p.now line.now 0 (glyphs glue line.now) ≡ None }
{
    if p.len() == 0 {
        return false;
    }
    if !is_plain(line, from) {
        return false;
    }
    (p[0] != 32) & (p[0] != line[from])
}

// Whether a byte of ASCII from `!` on is at a place: a character by itself, and no blank.
fn is_plain(line: &[u8], at: usize) -> bool
    ensures { result ≡ true → (at < length line.now) × (33 ≤ get_or line.now at 0) × (get_or line.now at 0 < 128) }
{
    match line.get(at) {
        Some(b) => (33 <= *b) & (*b < 128),
        None => false,
    }
}

// The same, place by place.
// In the original: `FileLines::match_prefix_generic`.
fn look_for(line: &[u8], p: &[u8], exact: bool) -> Option<usize>
    ensures { (glue : Bool) → result ≡ search exact p.now line.now 0 (glyphs glue line.now) }
{
    let mut i = 0;
    while !begins(p, &line[i..]) {
        if exact {
            return None;
        }
        // Nothing but blanks may stand before it; at the line's end none does.
        let Glyph::Blank { next, .. } = text::glyph_at(line, i) else {
            return None;
        };
        i = next;
    }
    Some(i)
}

// On from the margin, which ends where the prefix does, over the blanks that stand there.
// In the original: `FileLines::compute_indent`.
fn behind_margin(line: &[u8], end: usize, margin: Spot, tab: usize, glue: bool) -> Spot
    requires { (end ≤ length line.now) × Inside line.now margin × (length line.now ≤ most_large) × (1 ≤ tab) × (tab ≤ 100) }
    ensures { BehindBlanks tab line.now (glyphs_behind glue line.now end margin.at) margin result }
{
    if is_glued(line, end, margin.at, glue) {
        return margin;
    }
    over_blanks(line, margin, tab)
}

// Whether an ordinary U+00A0 is where the prefix ends, at a place: glue is on, and ink is after the run of them and before the end.
fn is_glued(line: &[u8], end: usize, at: usize, glue: bool) -> bool
    requires { (end ≤ length line.now) × (at ≤ length line.now) }
    ensures { result ≡ glued_at glue line.now end at }
{
    if !glue {
        return false;
    }
    if !text::is_no_break(line, at) {
        return false;
    }
    if text::glued_end(line, at) == at {
        return false;
    }
    has_ink_before(line, end)
}

// Whether the nearest character before a place, skipping U+00A0, is there and not a blank.
fn has_ink_before(line: &[u8], place: usize) -> bool
    requires { place ≤ length line.now }
    ensures { result ≡ ink_before place line.now }
{
    let mut i = 0;
    let mut ink = false;
    while i < place {
        if text::is_no_break(line, i) {
            i += 2;
        } else {
            match text::glyph_at(line, i) {
                Glyph::Ink { next, .. } => {
                    i = next;
                    ink = true;
                }
                Glyph::Blank { next, .. } => {
                    i = next;
                    ink = false;
                }
                Glyph::Damaged => {
                    i += 1;
                    ink = true;
                }
            }
        }
    }
    ink
}

// The spot after a line's first blanks, of which the spaces end at a place. Most lines have no others there.
fn lead_of(line: &[u8], from: usize, tab: usize) -> Spot
    requires { Repeats 32 line.now 0 from × (length line.now ≤ most_large) × (1 ≤ tab) × (tab ≤ 100) }
    ensures { (glue : Bool) → result ≡ behind_all tab line_start (while is_blank (glyphs glue line.now)) }
{
    let spot = Spot {
        at: from,
        column: from,
    };
    if is_plain(line, from) {
        return spot;
    }
    over_blanks(line, spot, tab)
}

// On from a spot over the blanks that stand there; before ink U+00A0 is one whatever glue says. None is at the line's end.
// In the original: `FileLines::compute_indent`.
fn over_blanks(line: &[u8], from: Spot, tab: usize) -> Spot
    requires { Inside line.now from × (length line.now ≤ most_large) × (1 ≤ tab) × (tab ≤ 100) }
    ensures { (glue : Bool) → BehindBlanks tab line.now (glyphs glue (drop from.at line.now)) from result }
{
    let mut spot = from;
    loop {
        let at = spot.at;
        let Glyph::Blank { code, next } = text::glyph_at(line, at) else {
            return spot;
        };
        // After a tab each further one goes on by a whole stop.
        let end = behind_tabs(line, code, next);
        spot = Spot {
            at: end,
            column: column_behind(spot.column, code, tab) + (end - next) * tab,
        };
    }
}

// The place after a blank, and if it is a tab after those that follow it.
fn behind_tabs(line: &[u8], code: u32, next: usize) -> usize
    requires { next ≤ length line.now }
    ensures { BehindTabs line.now code next result }
{
    if code == 9 {
        run_end(line, 9, next)
    } else {
        next
    }
}

// The end of a byte that is at a place again and again.
fn run_end(line: &[u8], byte: u8, from: usize) -> usize
    requires { from ≤ length line.now }
    ensures { Repeats byte line.now from result }
{
    for i in from..line.len() {
        if line[i] != byte {
            return i;
        }
    }
    line.len()
}

// The spot after the characters that begin before a place.
// In the original: `FileLines::compute_indent`.
fn measure_to(line: &[u8], place: usize, tab: usize) -> Spot
    requires { (place ≤ length line.now) × (length line.now ≤ most_large) × (1 ≤ tab) × (tab ≤ 100) }
    ensures { Inside line.now result × BehindPlace tab line.now place result }
{
    let mut spot = Spot { at: 0, column: 0 };
    while spot.at < place {
        spot = behind(line, spot, tab);
    }
    spot
}

// The spot after the character at a spot. A damaged byte is one by itself.
// In the original: `FileLines::compute_indent`.
fn behind(line: &[u8], spot: Spot, tab: usize) -> Spot
    requires { Inside line.now spot × (spot.at < length line.now) × (length line.now ≤ most_large) × (1 ≤ tab) × (tab ≤ 100) }
    ensures { Behind tab line.now spot result }
{
    let at = spot.at;
    let b = line[at];
    // A byte below 0x80 is a character by itself.
    if b < 0x80 {
        return Spot {
            at: at + 1,
            column: column_behind(spot.column, u32::from(b), tab),
        };
    }
    let Some(Char { code, next }) = text::decode_at(line, at) else {
        return Spot {
            at: at + 1,
            column: spot.column + 1,
        };
    };
    Spot {
        at: next,
        column: column_behind(spot.column, code, tab),
    }
}

// The column after a character: a tab goes to the next stop.
// In the original: `FileLines::compute_indent`.
pub fn column_behind(column: usize, code: u32, tab: usize) -> usize
    requires { (column ≤ most_columns) × (1 ≤ tab) × (tab ≤ 100) }
    ensures { (result ≡ cond (eqb code 9) (next_stop tab column) (column + width_of code)) × (result ≤ column + 100) }
{
    if code == 9 {
        next_stop(tab, column)
    } else {
        column + widths::width(code)
    }
}

// The next tab stop after a column.
#[tactic(auto, unfolding(crate::specs::Classes::next_stop))]
pub fn next_stop(tab: usize, column: usize) -> usize
    requires { (1 ≤ tab) × (tab ≤ 100) × (column < 2 ^ 41) }
    ensures { (result ≡ next_stop tab column) × (column < result) × (result ≤ column + tab) }
{
    (column / tab + 1) * tab
}
