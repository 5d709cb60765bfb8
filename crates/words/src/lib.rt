// Words: a paragraph's word records.
#![tactic(auto)]

ghost use Rattle.std.specs.Prelude.{◌≡◌, Bool, true, false, cond, not, ◌&&◌, ◌||◌, List, [], ◌++◌, ℕ, ◌+◌, ◌-◌, ◌*◌, ◌≤◌, ◌<◌, ltb, eqb, length, get_or, take, drop, IfSome};
ghost use Rattle.std.proofs.Math.Seq.{slice};
ghost use Rattle.lists.specs.Runs.{while};
ghost use Rattle.text.specs.Characters.{characters, is_blank};
ghost use Rattle.text.specs.Cited.Places.{ink_glyphs};
ghost use Rattle.options.specs.Opts.{meant};
ghost use Rattle.lines.specs.Lines.{lines_of};
ghost use Rattle.lines.specs.Cited.Places.{most_large, most_columns};
ghost use Rattle.pieces.specs.Cited.Bounds.{AllBegin};
ghost use Rattle.records.specs.Cited.Table.{Holds, words_in};
ghost use Rattle.words.specs.Words.{has_tab, runs};
ghost use Rattle.words.specs.Places.{places_from};
ghost use Rattle.words.specs.Cited.Places.{words_at, places_at};
ghost use Rattle.words.specs.Cited.Scan.{glyphs_behind, gap_in, gap_behind, no_blanks, OverBlanks, punct_code, glued_bytes, OverInk, Plain, OverPlain, InkBegins, OneSpace, word_at, mail_at, words_from, NextIs};
ghost use Rattle.words.specs.Cited.Split.{Kept, places_in, WordsFilled, Split};
ghost use Rattle.words.specs.Cited.Taken.{TakenTo};
ghost use Rattle.words.specs.Cited.Spaced.{OverSpaces, SpacesBefore, plain_ink, PlainWord, EndsAt, SpacedTo, one_blank, SpacedNext};

use options::Options;
use records::Word;
use text::{Char, Glyph};

// Why words are not split: there are more than so many.
#[derive(Clone, Copy, Debug, PartialEq, Eq)]
pub struct TooMany;

// Blanks at a place: where they end, and the counts before and after their first tab.
#[derive(Clone, Copy, Debug, PartialEq, Eq)]
struct Blanks {
    end: usize,
    before: Option<usize>,
    after: usize,
}

// Ink at a place: where it ends, its width, and whether it ends in punctuation.
#[derive(Clone, Copy, Debug, PartialEq, Eq)]
struct Ink {
    end: usize,
    width: usize,
    punct: bool,
}

// Words spaces apart: how many the table has with them, where they end, whether the first word of the line is still to come, and if not,
// the mark of the last.
#[derive(Clone, Copy, Debug, PartialEq, Eq)]
struct Spaced {
    count: usize,
    at: usize,
    first: bool,
    punct: bool,
}

// Words of a line, as many as there is room for: how many the table has with them, where they end, whether the first word of the line is
// still to come, and if not, the mark of the last; and whether there is one more.
#[derive(Clone, Copy, Debug, PartialEq, Eq)]
pub struct Taken {
    pub count: usize,
    pub at: usize,
    pub first: bool,
    pub punct: bool,
    pub more: bool,
}

// The words of a paragraph's lines, which are in the notes from at up to next, with their places: the words of the first line begin at
// start, those of the others at later. At most so many words are wanted, for which the table has room. What it holds after the words is
// scratch, and all of it if there are too many.
// In the original: `ParaWords::create_words`.
pub fn split_words(
    notes: &[u8],
    at: usize,
    next: usize,
    mail: bool,
    start: usize,
    later: usize,
    o: Options,
    most: usize,
    table: &mut [u32],
) -> Result<usize, TooMany>
    requires { (at ≤ next) × (next ≤ length notes.now) × (length notes.now ≤ most_large) × (1 ≤ o.tab) × (o.tab ≤ 100) × Holds most table.old × (mail ≡ false → AllBegin o.glue start later (lines_of (slice at next notes.now))) }
    ensures { (block : List ℕ) → Split most notes.now (words_at (meant block o) mail start later (lines_of (slice at next notes.now))) (places_at o.glue mail at start later (lines_of (slice at next notes.now))) table.new result }
{
    let part = &notes[..next];
    let mut i = at;
    let mut n = 0;
    let mut skip = start;
    while i < next {
        let from = begin(mail, i, skip);
        // After these words little is left of most lines in which to look for the line's end.
        let run = spaced_words(notes, from, next, mail, o, n, most, table);
        let on = run.at;
        let line = lines::first_line(&part[on..]);
        n = split_line(
            notes,
            on,
            on + line.text,
            mail,
            run.first,
            run.punct,
            o,
            run.count,
            most,
            table,
        )?;
        i = on + line.whole;
        skip = later;
    }
    Ok(n)
}

// Where the words of a line begin, of which mail's is taken whole.
// In the original: `WordSplit::new`.
pub fn begin(mail: bool, line: usize, start: usize) -> usize
    requires { mail ≡ false → line + start ≤ most_large }
    ensures { result ≡ line + cond mail 0 start }
{
    if mail { line } else { line + start }
}

// The words of plain characters at the start of a line's words, spaces apart, after the first n of the table: as many as there are, or
// as it has room for. So the line's end need not be known: none of their bytes is a line feed, and each of them ends at a blank or there.
// In mail there are none.
// In the original: `WordSplit::next`.
fn spaced_words(
    notes: &[u8],
    start: usize,
    next: usize,
    mail: bool,
    o: Options,
    n: usize,
    most: usize,
    table: &mut [u32],
) -> Spaced
    requires { (start ≤ next) × (next ≤ length notes.now) × (length notes.now ≤ most_large) × (o.tab ≤ 100) × Kept most (length notes.now) n table.old }
    ensures { Kept most (length notes.now) result.count table.new × (start ≤ result.at) × (result.at ≤ next) × ((end : ℕ) → EndsAt (take next notes.now) start end → SpacedTo (meant [] o) mail notes.now start end n table.old result table.new) }
{
    let s = &notes[..next];
    let mut r = Spaced {
        count: n,
        at: start,
        first: !mail,
        punct: false,
    };
    if mail {
        return r;
    }
    while r.count < most {
        let Some(w) = spaced_word(s, r.at, r.first, r.punct, o) else {
            return r;
        };
        records::store(table, r.count, w);
        r = Spaced {
            count: r.count + 1,
            at: w.end,
            first: false,
            punct: w.punct,
        };
    }
    r
}

// The next word of a line, if it is plain and nothing but spaces is before it.
fn spaced_word(s: &[u8], at: usize, first: bool, previous: bool, o: Options) -> Option<Word>
    requires { at ≤ length s.now }
    ensures { SpacedNext (meant [] o) first previous s.now at result }
{
    if !first {
        if s.get(at) != Some(&32) {
            return None;
        }
        // One space is between most words. That no other is behind it need not be asked: it is not plain.
        if let Some(end) = near_end(s, at) {
            return Some(near_word(s, o.uniform, at, end));
        }
    }
    far_word(s, at, first, previous, o)
}

// The end of the plain word after the space at a place, if the next sixteen bytes show it: a space or a line feed stands there.
fn near_end(s: &[u8], at: usize) -> Option<usize>
    requires { at < length s.now }
    ensures { IfSome result (λ end. PlainWord s.now (at + 1) end) }
{
    if s.len() - at < 17 {
        return None;
    }
    let start = at + 1;
    let n = plain_in_sixteen(s, start);
    if n == 0 {
        return None;
    }
    let end = start + n;
    match s.get(end) {
        Some(32 | 10) => Some(end),
        _ => None,
    }
}

// The record of a plain word after one space: it starts no sentence.
fn near_word(s: &[u8], uniform: bool, at: usize, end: usize) -> Word
    requires { (at < length s.now) × PlainWord s.now (at + 1) end }
    ensures { (characters previous : Bool) → result ≡ word_at uniform characters false previous at (one_blank at) (plain_ink s.now (at + 1) end) }
{
    let start = at + 1;
    let w = plain_ink(s, start, end);
    let spaced = Word {
        from: at,
        start,
        end,
        width: w.width,
        before: None,
        after: 1,
        first: false,
        punct: w.punct,
        sentence: false,
    };
    if uniform {
        Word {
            from: start,
            after: 0,
            ..spaced
        }
    } else {
        spaced
    }
}

// A plain word after any spaces, or the first of a line.
fn far_word(s: &[u8], at: usize, first: bool, previous: bool, o: Options) -> Option<Word>
    requires { at ≤ length s.now }
    ensures { SpacedNext (meant [] o) first previous s.now at result }
{
    let b = spaces_before(s, at, first);
    let end = plain_word_end(s, b.end)?;
    let w = plain_ink(s, b.end, end);
    Some(word_of(o.uniform, o.by_characters, first, previous, at, b, w))
}

// The spaces before a word at a place: none before the first of a line.
fn spaces_before(s: &[u8], at: usize, first: bool) -> Blanks
    requires { at ≤ length s.now }
    ensures { SpacesBefore s.now at first result }
{
    let end = if first { at } else { over_spaces(s, at) };
    Blanks {
        end,
        before: None,
        after: end - at,
    }
}

// On over the spaces at a place.
fn over_spaces(s: &[u8], at: usize) -> usize
    requires { at ≤ length s.now }
    ensures { OverSpaces s.now at result }
{
    for i in at..s.len() {
        if s[i] != 32 {
            return i;
        }
    }
    s.len()
}

// The end of the plain word that begins at a place: a space, a tab or a line feed stands there, or nothing. None if there is no such word, or
// if it goes on with other characters.
fn plain_word_end(s: &[u8], start: usize) -> Option<usize>
    requires { start ≤ length s.now }
    ensures { IfSome result (λ end. PlainWord s.now start end) }
{
    let end = plain_end(s, start);
    if end == start {
        return None;
    }
    match s.get(end) {
        None | Some(32 | 9 | 10) => Some(end),
        Some(_) => None,
    }
}

// The ink of a plain word: each of its characters takes one column.
fn plain_ink(s: &[u8], start: usize, end: usize) -> Ink
    requires { PlainWord s.now start end }
    ensures { result ≡ plain_ink s.now start end }
{
    Ink {
        end,
        width: end - start,
        punct: is_punct(u32::from(s[end - 1])),
    }
}

// The words of a line from start up to end, after the first n of the table; or that there are too many. If the first of its line is still to
// come, it begins at start; if not, punct is the mark of the word before.
// In the original: `ParaWords::create_words`.
fn split_line(
    notes: &[u8],
    start: usize,
    end: usize,
    mail: bool,
    head: bool,
    punct: bool,
    o: Options,
    n: usize,
    most: usize,
    table: &mut [u32],
) -> Result<usize, TooMany>
    requires { (start ≤ end) × (end ≤ length notes.now) × (length notes.now ≤ most_large) × (1 ≤ o.tab) × (o.tab ≤ 100) × Kept most (length notes.now) n table.old × (head ≡ true → while is_blank (ink_glyphs o.glue (slice start end notes.now)) ≡ []) }
    ensures { WordsFilled most notes.now (words_in notes.now n table.old ++ words_from (meant [] o) mail head punct (glyphs_behind o.glue head (slice start end notes.now))) (places_in n table.old ++ places_from start (runs (glyphs_behind o.glue head (slice start end notes.now)))) table.new result }
{
    // Of most lines nothing is left.
    if end <= start {
        return Ok(n);
    }
    let r = split_some(notes, start, end, mail, head, punct, o, n, most, table);
    if r.more { Err(TooMany) } else { Ok(r.count) }
}

// The words of a line from start up to end, as many as there is room for after the first n of the table. All words are read in this loop,
// so that `next_word` is made part of it.
// In the original: `ParaWords::create_words`.
pub fn split_some(
    notes: &[u8],
    start: usize,
    end: usize,
    mail: bool,
    head: bool,
    punct: bool,
    o: Options,
    n: usize,
    most: usize,
    table: &mut [u32],
) -> Taken
    requires { (start ≤ end) × (end ≤ length notes.now) × (length notes.now ≤ most_large) × (1 ≤ o.tab) × (o.tab ≤ 100) × Kept most (length notes.now) n table.old × (head ≡ true → while is_blank (ink_glyphs o.glue (slice start end notes.now)) ≡ []) }
    ensures { TakenTo most (meant [] o) mail notes.now start end head punct n table.old result table.new }
{
    let s = &notes[..end];
    let mut r = Taken {
        count: n,
        at: start,
        first: head,
        punct,
        more: false,
    };
    while let Some(w) = next_word(s, r.at, mail, r.first, r.punct, o) {
        if most <= r.count {
            return Taken { more: true, ..r };
        }
        records::store(table, r.count, w);
        r = Taken {
            count: r.count + 1,
            at: w.end,
            first: false,
            punct: w.punct,
            more: false,
        };
    }
    r
}

// The numbers of a table for sixteen words, which go through it in their order.
const WINDOW: usize = IN_WINDOW * 7;

const IN_WINDOW: usize = 16;

// How many words a paragraph has, where no table is at hand to hold them: as many as `split_words` finds.
pub fn count_words(
    notes: &[u8],
    at: usize,
    next: usize,
    mail: bool,
    start: usize,
    later: usize,
    o: Options,
) -> usize
    requires { (at ≤ next) × (next ≤ length notes.now) × (length notes.now ≤ most_large) × (1 ≤ o.tab) × (o.tab ≤ 100) × (mail ≡ false → AllBegin o.glue start later (lines_of (slice at next notes.now))) }
    ensures { (block : List ℕ) → result ≡ length (words_at (meant block o) mail start later (lines_of (slice at next notes.now))) }
{
    let mut table = [0u32; WINDOW];
    count_lines(notes, at, next, mail, start, later, o, &mut table)
}

fn count_lines(
    notes: &[u8],
    at: usize,
    next: usize,
    mail: bool,
    start: usize,
    later: usize,
    o: Options,
    table: &mut [u32],
) -> usize
    requires { (at ≤ next) × (next ≤ length notes.now) × (length notes.now ≤ most_large) × (1 ≤ o.tab) × (o.tab ≤ 100) × (mail ≡ false → AllBegin o.glue start later (lines_of (slice at next notes.now))) × Holds 16 table.old }
    ensures { (block : List ℕ) → result ≡ length (words_at (meant block o) mail start later (lines_of (slice at next notes.now))) }
{
    let part = &notes[..next];
    let mut i = at;
    let mut n = 0;
    let mut skip = start;
    while i < next {
        let line = lines::first_line(&part[i..]);
        n = count_line(
            notes,
            begin(mail, i, skip),
            i + line.text,
            mail,
            o,
            n,
            table,
        );
        i += line.whole;
        skip = later;
    }
    n
}

// The words of a line from start up to end, and n more.
fn count_line(
    notes: &[u8],
    start: usize,
    end: usize,
    mail: bool,
    o: Options,
    n: usize,
    table: &mut [u32],
) -> usize
    requires { (start ≤ end) × (end ≤ length notes.now) × (length notes.now ≤ most_large) × (1 ≤ o.tab) × (o.tab ≤ 100) × (n ≤ start) × (mail ≡ false → while is_blank (ink_glyphs o.glue (slice start end notes.now)) ≡ []) × Holds 16 table.old }
    ensures { (result ≡ n + length (words_from (meant [] o) mail (not mail) false (glyphs_behind o.glue (not mail) (slice start end notes.now)))) × (result ≤ end) }
{
    let mut count = n;
    let mut at = start;
    let mut first = !mail;
    let mut punct = false;
    loop {
        let r = split_some(notes, at, end, mail, first, punct, o, 0, IN_WINDOW, table);
        count += r.count;
        if !r.more {
            return count;
        }
        at = r.at;
        first = r.first;
        punct = r.punct;
    }
}

// The next word from a place on; the first of a line begins at the place. Blanks at the end belong to no word.
// In the original: `WordSplit::next`.
pub fn next_word(
    s: &[u8],
    at: usize,
    mail: bool,
    first: bool,
    previous: bool,
    o: Options,
) -> Option<Word>
    requires { (at ≤ length s.now) × (length s.now ≤ most_large) × (1 ≤ o.tab) × (o.tab ≤ 100) × (first ≡ true → while is_blank (ink_glyphs o.glue (drop at s.now)) ≡ []) }
    ensures { NextIs (meant [] o) mail first previous s.now at result }
{
    let b = blanks_at(s, at, o.tab, first);
    let start = b.end;
    if s.len() <= start {
        return None;
    }
    let w = over_ink(s, start, o.glue);
    Some(if mail {
        mail_word(start, w.end)
    } else {
        word_of(o.uniform, o.by_characters, first, previous, at, b, w)
    })
}

// The record of a word after blanks that begin at a place.
// In the original: `WordSplit::next`.
fn word_of(
    uniform: bool,
    characters: bool,
    first: bool,
    previous: bool,
    at: usize,
    b: Blanks,
    w: Ink,
) -> Word
    requires { at ≤ b.end }
    ensures { result ≡ word_at uniform characters first previous at b w }
{
    let spaced = Word {
        from: at,
        start: b.end,
        end: w.end,
        width: w.width,
        before: b.before,
        after: b.after,
        first,
        punct: w.punct,
        sentence: starts_sentence(characters, previous, at, b),
    };
    if uniform {
        Word {
            from: b.end,
            before: None,
            after: 0,
            ..spaced
        }
    } else {
        spaced
    }
}

// Whether a word starts a sentence: the one before it on its line ends in punctuation, and the blanks between have a tab or are more
// than one by the counting rule.
// In the original: `WordSplit::next`.
fn starts_sentence(characters: bool, previous: bool, at: usize, b: Blanks) -> bool
    requires { at ≤ b.end }
    ensures { result ≡ (previous && (has_tab b.before || ltb 1 (cond characters b.after (b.end - at)))) }
{
    previous && (b.before.is_some() || 1 < blank_count(characters, at, b))
}

// How many blanks there are, by characters or by bytes. Without a tab the after count has every one.
fn blank_count(characters: bool, at: usize, b: Blanks) -> usize
    requires { at ≤ b.end }
    ensures { result ≡ cond characters b.after (b.end - at) }
{
    if characters { b.after } else { b.end - at }
}

// The record of a word in mail.
// In the original: `WordSplit::next`.
fn mail_word(start: usize, end: usize) -> Word
    requires { start ≤ end }
    ensures { result ≡ mail_at start end }
{
    Word {
        from: start,
        start,
        end,
        width: end - start,
        before: None,
        after: 0,
        first: false,
        punct: false,
        sentence: false,
    }
}

// The blanks before a word: none before the first of a line, which may begin with U+00A0 where glue is on and a prefix is before it.
// In the original: `WordSplit::new`.
fn blanks_at(s: &[u8], at: usize, tab: usize, first: bool) -> Blanks
    requires { (at ≤ length s.now) × (length s.now ≤ most_large) × (1 ≤ tab) × (tab ≤ 100) }
    ensures { (first ≡ true → result ≡ no_blanks at) × (first ≡ false → (glue : Bool) → OverBlanks glue tab false s.now at result) }
{
    if first {
        Blanks {
            end: at,
            before: None,
            after: 0,
        }
    } else {
        over_blanks(s, at, tab)
    }
}

// The blanks at a place after which a word has ended. They are the same with glue and without: a U+00A0 among them is blank.
// In the original: `WordSplit::analyze_tabs`.
fn over_blanks(s: &[u8], at: usize, tab: usize) -> Blanks
    requires { (at ≤ length s.now) × (length s.now ≤ most_large) × (1 ≤ tab) × (tab ≤ 100) }
    ensures { (glue : Bool) → OverBlanks glue tab false s.now at result }
{
    // Between most words.
    if is_one_space(s, at) {
        return Blanks {
            end: at + 1,
            before: None,
            after: 1,
        };
    }
    let mut b = Blanks {
        end: at,
        before: None,
        after: 0,
    };
    loop {
        let end = b.end;
        if is_tab(s, end) {
            b = behind_blank(b, 9, end + 1, tab);
        } else if starts_ink(s, end) {
            return b;
        } else {
            let Glyph::Blank { code, next } = text::glyph_at(s, end) else {
                return b;
            };
            b = behind_blank(b, code, next, tab);
        }
    }
}

// Whether a tab is at a place, which need not be decoded.
fn is_tab(s: &[u8], at: usize) -> bool
    ensures { result ≡ true → (at < length s.now) × (get_or s.now at 0 ≡ 9) }
{
    s.get(at) == Some(&9)
}

// Whether a space is at a place, and no blank after it.
fn is_one_space(s: &[u8], at: usize) -> bool
    requires { (at ≤ length s.now) × (length s.now ≤ most_large) }
    ensures { result ≡ true → OneSpace s.now at }
{
    s.get(at) == Some(&32) && starts_ink(s, at + 1)
}

// Whether the bytes at a place show that no blank stands there. A blank is below 33, or begins with C2, E1, E2 or E3; after E3 there is
// only U+3000, with 80 in the middle.
fn starts_ink(s: &[u8], at: usize) -> bool
    requires { (at ≤ length s.now) × (length s.now ≤ most_large) }
    ensures { result ≡ true → InkBegins s.now at }
{
    match s.get(at).copied() {
        None => false,
        Some(a) if a < 0xC2 => 33 <= a,
        Some(0xE3) => matches!(s.get(at + 1), Some(b) if *b != 0x80),
        Some(a) => (a != 0xC2) & (a != 0xE1) & (a != 0xE2),
    }
}

// Blanks with one more, which ends at next. The first tab parts the counts; a later one goes to the next stop.
// In the original: `WordSplit::analyze_tabs`.
fn behind_blank(b: Blanks, code: u32, next: usize, tab: usize) -> Blanks
    requires { (1 ≤ tab) × (tab ≤ 100) × (b.after ≤ most_columns) }
    ensures { (result.end ≡ next) × (gap_in result ≡ gap_behind tab code (gap_in b)) }
{
    match b.before {
        _ if code != 9 => Blanks {
            end: next,
            after: b.after + 1,
            ..b
        },
        None => Blanks {
            end: next,
            before: Some(b.after),
            after: 0,
        },
        Some(_) => Blanks {
            end: next,
            after: (b.after / tab + 1) * tab,
            ..b
        },
    }
}

// The ink at a place: all up to the next blank. With glue on, U+00A0 that have ink after them too are part of it.
// In the original: `WordSplit::next`.
fn over_ink(s: &[u8], at: usize, glue: bool) -> Ink
    requires { (at ≤ length s.now) × (length s.now ≤ most_large) }
    ensures { OverInk glue s.now at result }
{
    let mut w = Ink {
        end: at,
        width: 0,
        punct: false,
    };
    loop {
        let from = w.end;
        if s.len() <= from {
            return w;
        }
        let a = s[from];
        if 0xE0 <= a {
            match text::long_at(s, from) {
                Some(Char { code, next }) => {
                    // White space has none, and none of it is U+00A0 here, which has two bytes.
                    let Some(columns) = widths::ink_width(code) else {
                        return w;
                    };
                    w = Ink {
                        end: next,
                        width: w.width + columns,
                        punct: false,
                    };
                }
                // A damaged byte is one by itself, and as wide as a character.
                None => {
                    w = Ink {
                        end: from + 1,
                        width: w.width + 1,
                        punct: false,
                    };
                }
            }
        } else if is_plain(s, from) {
            w = over_plain(s, w);
        } else if ends_word(a) {
            return w;
        } else if text::is_letter(s, from) {
            w = Ink {
                end: from + 2,
                width: w.width + 1,
                punct: false,
            };
        } else {
            match text::glyph_at(s, from) {
                Glyph::Blank { .. } => {
                    let on = glued_end(s, from, glue);
                    if on == from {
                        return w;
                    }
                    w = Ink {
                        end: on,
                        width: w.width + (on - from) / 2,
                        punct: false,
                    };
                }
                Glyph::Ink { code, next } => {
                    w = Ink {
                        end: next,
                        width: w.width + widths::width(code),
                        punct: is_punct(code),
                    };
                }
                Glyph::Damaged => {
                    w = Ink {
                        end: from + 1,
                        width: w.width + 1,
                        punct: false,
                    };
                }
            }
        }
    }
}

// The end of the U+00A0 by which a word goes on from a place: one column each, of two bytes.
fn glued_end(s: &[u8], at: usize, glue: bool) -> usize
    requires { at ≤ length s.now }
    ensures { (result ≡ at + glued_bytes glue (characters (drop at s.now))) × (result ≤ length s.now) }
{
    if glue { text::glued_end(s, at) } else { at }
}

// Whether a byte is a space or a tab, at which most words end.
fn ends_word(b: u8) -> bool
    ensures { result ≡ (eqb b 32 || eqb b 9) }
{
    (b == 32) | (b == 9)
}

// Ink with the plain characters after it, of which there is one: ASCII from `!` on, each a character of one column.
fn over_plain(s: &[u8], w: Ink) -> Ink
    requires { Plain s.now w.end (w.end + 1) × (w.width ≤ w.end) × (length s.now ≤ most_large) }
    ensures { OverPlain s.now w result }
{
    let from = w.end;
    let end = plain_end(s, from + 1);
    Ink {
        end,
        width: w.width + (end - from),
        punct: is_punct(u32::from(s[end - 1])),
    }
}

// Whether a plain character is at a place.
fn is_plain(s: &[u8], at: usize) -> bool
    ensures { result ≡ true → Plain s.now at (at + 1) }
{
    matches!(s.get(at), Some(33..=127))
}

// The end of the plain characters at a place.
fn plain_end(s: &[u8], from: usize) -> usize
    requires { from ≤ length s.now }
    ensures { Plain s.now from result }
{
    for i in plain_eights(s, from)..s.len() {
        let b = s[i];
        if b < 33 || 127 < b {
            return i;
        }
    }
    s.len()
}

// On over plain characters, eight at a time, up to one that is not plain or the last eight.
fn plain_eights(s: &[u8], from: usize) -> usize
    requires { from ≤ length s.now }
    ensures { Plain s.now from result }
{
    let mut i = from;
    while 8 <= s.len() - i {
        let n = plain_among(s, i);
        i += n;
        if n < 8 {
            return i;
        }
    }
    i
}

// How many of the sixteen bytes at a place, from the first on, are plain; if one of them is not ASCII, at most those before its eight.
fn plain_in_sixteen(s: &[u8], i: usize) -> usize
    requires { (i ≤ length s.now) × (16 ≤ length s.now - i) }
    ensures { (result ≤ 16) × Plain s.now i (i + result) }
{
    let n = plain_among(s, i);
    if n < 8 { n } else { 8 + plain_among(s, i + 8) }
}

// How many of the eight bytes at a place, from the first on, are plain; none if one of the eight is not ASCII. With 95 added, each byte from
// 33 on has its high bit set. Below the first high bit that is clear stand eight zeros for each byte before it.
fn plain_among(s: &[u8], i: usize) -> usize
    requires { (i ≤ length s.now) × (8 ≤ length s.now - i) }
    ensures { (result ≤ 8) × Plain s.now i (i + result) }
{
    let x = text::eight(s, i);
    if x & 0x8080808080808080 != 0 {
        return 0;
    }
    let clear = 0x8080808080808080 - ((x + 0x5F5F5F5F5F5F5F5F) & 0x8080808080808080);
    if clear == 0 {
        return 8;
    }
    let zeros = u64::trailing_zeros(clear);
    (zeros / 8) as usize
}

// Whether a character ends a sentence. Three comparisons cost less than a branch, which is hard to foresee.
// In the original: `WordSplit::is_punctuation`.
fn is_punct(code: u32) -> bool
    ensures { result ≡ punct_code code }
{
    (code == 33) | (code == 46) | (code == 63)
}
