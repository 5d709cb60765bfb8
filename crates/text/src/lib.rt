// Characters: what is at a place of a line. RFC 3629 decides which bytes are characters.
#![tactic(auto)]

ghost use Rattle.std.specs.Prelude.{◌≡◌, true, false, ◌&&◌, ◌+◌, ◌-◌, ◌*◌, ◌^◌, ◌≤◌, ◌<◌, length, get_or, drop};
ghost use Rattle.text.specs.Rfc3629.{decode};
ghost use Rattle.text.specs.Characters.{glyph, characters, ink_ahead, damage};
ghost use Rattle.text.specs.Cited.Places.{read_as, glyph_of, seen_as, letter_at, Ascii, Printable, no_break_at, glued_extent, RunOver};
ghost use Rattle.text.specs.Cited.Eights.{as_number, eight_at};
ghost use Rattle.text.specs.Cited.Joins.{joins, joins_at, EachJoins, Joined, JoinedFrom};

// A character: its number, and the place after it.
#[derive(Clone, Copy, Debug, PartialEq, Eq)]
pub struct Char {
    pub code: u32,
    pub next: usize,
}

// What is at a place of a line, for all that formatting asks of it.
#[derive(Clone, Copy, Debug, PartialEq, Eq)]
pub enum Glyph {
    Ink { code: u32, next: usize },
    Blank { code: u32, next: usize },
    Damaged,
}

// The character at a place, by RFC 3629. A byte below 0x80 is one by itself.
// One function for all who call it, so that what is put before it below is made part of their loops.
#[inline(never)]
#[tactic(auto, using(crate::proofs::Forms::past, crate::proofs::Forms::ascii_at, crate::proofs::Forms::stray_at))]
pub fn decode_at(s: &[u8], at: usize) -> Option<Char>
    ensures { result ≡ read_as at (decode (drop at s.now)) }
{
    let a = *s.get(at)?;
    match a {
        0..=0x7F => Some(Char {
            code: u32::from(a),
            next: at + 1,
        }),
        // It continues a character, or begins two bytes for what one byte spells.
        0x80..=0xC1 => None,
        0xC2..=0xDF => two(s, at),
        // Not by `long_at`: with one caller that is made part of the loop over words, which spares a call for each character.
        0xE0..=0xEF => three(s, at),
        _ => four(s, at),
    }
}

// The longer forms. A byte that continues a character is 10xxxxxx, from 0x80 to 0xBF: b % 64 has its free bits.

// 110xxxxx 10xxxxxx
fn two(s: &[u8], at: usize) -> Option<Char>
    requires { (at < length s.now) × (0xC2 ≤ get_or s.now at 0) × (get_or s.now at 0 < 0xE0) }
    ensures { result ≡ read_as at (decode (drop at s.now)) }
{
    let &[a, b @ 0x80..=0xBF, ..] = &s[at..] else {
        return None;
    };
    Some(Char {
        code: u32::from(a) % 32 * 64 + u32::from(b) % 64,
        next: at + 2,
    })
}

// The character at a place where a byte from 0xE0 on stands: of three bytes, or of four.
pub fn long_at(s: &[u8], at: usize) -> Option<Char>
    requires { (at < length s.now) × (0xE0 ≤ get_or s.now at 0) }
    ensures { result ≡ read_as at (decode (drop at s.now)) }
{
    if s[at] < 0xF0 {
        three(s, at)
    } else {
        four(s, at)
    }
}

// 1110xxxx 10xxxxxx 10xxxxxx
fn three(s: &[u8], at: usize) -> Option<Char>
    requires { (at < length s.now) × (0xE0 ≤ get_or s.now at 0) × (get_or s.now at 0 < 0xF0) }
    ensures { result ≡ read_as at (decode (drop at s.now)) }
{
    let &[a, b @ 0x80..=0xBF, c @ 0x80..=0xBF, ..] = &s[at..] else {
        return None;
    };
    // A surrogate, U+D800 to U+DFFF, is no character.
    if a == 0xED && 0xA0 <= b {
        return None;
    }
    let code = u32::from(a) % 16 * 4096 + u32::from(b) % 64 * 64 + u32::from(c) % 64;
    // Two bytes would do.
    if code < 0x800 {
        return None;
    }
    Some(Char { code, next: at + 3 })
}

// 11110xxx 10xxxxxx 10xxxxxx 10xxxxxx
fn four(s: &[u8], at: usize) -> Option<Char>
    requires { (at < length s.now) × (0xF0 ≤ get_or s.now at 0) }
    ensures { result ≡ read_as at (decode (drop at s.now)) }
{
    // No character begins with more than F4.
    let &[
        a @ ..=0xF4,
        b @ 0x80..=0xBF,
        c @ 0x80..=0xBF,
        d @ 0x80..=0xBF,
        ..
    ] = &s[at..]
    else {
        return None;
    };
    let code = u32::from(a) % 8 * 262144
        + u32::from(b) % 64 * 4096
        + u32::from(c) % 64 * 64
        + u32::from(d) % 64;
    // Three bytes would do for less.
    if matches!(code, 0x10000..=0x10FFFF) {
        Some(Char { code, next: at + 4 })
    } else {
        None
    }
}

// The character at a place, for all that formatting asks of it; each U+00A0 is blank here.
#[inline(always)]
#[tactic(auto, using(crate::proofs::Forms::ascii_at, crate::proofs::Places::seen_some, crate::proofs::Places::seen_none))]
pub fn glyph_at(s: &[u8], at: usize) -> Glyph
    ensures { result ≡ seen_as at (glyph (drop at s.now)) }
{
    match s.get(at) {
        // Most blanks are below 0x80, and need not be decoded.
        Some(a @ 0..=0x7F) => glyph_of(u32::from(*a), at + 1),
        _ => match decode_at(s, at) {
            Some(Char { code, next }) => glyph_of(code, next),
            None => Glyph::Damaged,
        },
    }
}

// A character, by its number and the place after it.
fn glyph_of(code: u32, next: usize) -> Glyph
    ensures { result ≡ glyph_of code next }
{
    if widths::is_white_space(code) {
        Glyph::Blank { code, next }
    } else {
        Glyph::Ink { code, next }
    }
}

// With glue on, U+00A0 is ordinary between ink: after ink, the end of those at a place that have ink after them too; if they have none,
// the place. So it is asked once for a run of them.
pub fn glued_end(s: &[u8], at: usize) -> usize
    requires { at ≤ length s.now }
    ensures { (result ≡ at + glued_extent (characters (drop at s.now))) × (result ≤ length s.now) }
{
    let end = over_no_breaks(s, at);
    if is_ink(s, end) { end } else { at }
}

// On from a place over the U+00A0 that stand there.
fn over_no_breaks(s: &[u8], at: usize) -> usize
    requires { at ≤ length s.now }
    ensures { RunOver s.now at result }
{
    let mut i = at;
    while is_no_break(s, i) {
        i += 2;
    }
    i
}

// Whether U+00A0 is at a place.
#[tactic(auto, unfolding(crate::specs::Cited::Places::no_break_at))]
pub fn is_no_break(s: &[u8], at: usize) -> bool
    ensures { result ≡ no_break_at s.now at }
{
    matches!(s.get(at..), Some([0xC2, 0xA0, ..]))
}

// Whether the character at a place is no blank, where there is no U+00A0. True of a damaged byte.
fn is_ink(s: &[u8], at: usize) -> bool
    requires { no_break_at s.now at ≡ false }
    ensures { result ≡ ink_ahead (characters (drop at s.now)) }
{
    at < s.len() && !matches!(glyph_at(s, at), Glyph::Blank { .. })
}

// Whether a letter of two bytes is at a place, U+00C0 to U+02FF or U+0380 to U+047F, Latin, Greek or Cyrillic: each takes one
// column and none is blank, so that no more need be asked.
#[tactic(auto, unfolding(crate::specs::Cited::Places::letter_at))]
pub fn is_letter(s: &[u8], at: usize) -> bool
    ensures { result ≡ letter_at s.now at }
{
    // CC and CD begin accents, which take none. Byte by byte and by one sum: a slice of both bytes, or a range for each side of the
    // accents, costs a letter a fifth to a third more.
    match s.get(at) {
        Some(a) => {
            (0xC3 <= *a) & (*a <= 0xD1) & (*a / 2 != 0x66)
                && matches!(s.get(at + 1), Some(0x80..=0xBF))
        }
        None => false,
    }
}

// The first place at which no character begins. Most texts are seen at once to have none.
#[tactic(auto, using(crate::proofs::Asciis::ascii_whole, crate::proofs::Joining::joined_whole))]
pub fn first_damage(s: &[u8]) -> Option<usize>
    ensures { result ≡ damage s.now }
{
    if ascii_end(s, 0) == s.len() || are_joined(s) {
        None
    } else {
        damage_among(s)
    }
}

// The same, read character by character.
fn damage_among(s: &[u8]) -> Option<usize>
    ensures { result ≡ damage s.now }
{
    let mut i = 0;
    while i < s.len() {
        let Some(c) = decode_at(s, i) else {
            return Some(i);
        };
        i = c.next;
    }
    None
}

// Whether each byte joins the three before it, so that every character is whole: one test for all scripts, without a branch. A text of fewer
// than three bytes is not asked.
#[tactic(auto, using(crate::proofs::Joining::joined_by))]
fn are_joined(s: &[u8]) -> bool
    ensures { result ≡ true → Joined 0 0 0 s.now }
{
    3 <= s.len() && begin_joined(s) && rest_joined(s) && end_joined(s)
}

// The same of the bytes after the first three, sixteen at a time. The last sixteen may have been asked in part: that is quicker than one
// by one.
fn rest_joined(s: &[u8]) -> bool
    requires { 3 ≤ length s.now }
    ensures { result ≡ true → EachJoins s.now 3 (length s.now) }
{
    let mut i = 3;
    while 16 <= s.len() - i {
        if !sixteen_join(s, i) {
            return false;
        }
        i += 16;
    }
    if s.len() < 19 {
        few_join(s)
    } else {
        sixteen_join(s, s.len() - 16)
    }
}

// The sixteen bytes at a place, which the compiler tests as one.
fn sixteen_join(s: &[u8], i: usize) -> bool
    requires { (3 ≤ i) × (i + 16 ≤ length s.now) }
    ensures { result ≡ true → EachJoins s.now i (i + 16) }
{
    let mut all = true;
    for k in 0..16 {
        all &= joins_at(s, i + k);
    }
    all
}

// All after the first three, one by one.
fn few_join(s: &[u8]) -> bool
    requires { 3 ≤ length s.now }
    ensures { result ≡ true → EachJoins s.now 3 (length s.now) }
{
    let mut all = true;
    for i in 3..s.len() {
        all &= joins_at(s, i);
    }
    all
}

// The first three bytes: nothing before them can ask for one of them.
fn begin_joined(s: &[u8]) -> bool
    requires { 3 ≤ length s.now }
    ensures { result ≡ (joins 0 0 0 (get_or s.now 0 0) && joins 0 0 (get_or s.now 0 0) (get_or s.now 1 0) && joins 0 (get_or s.now 0 0) (get_or s.now 1 0) (get_or s.now 2 0)) }
{
    joins(0, 0, 0, s[0]) & joins(0, 0, s[0], s[1]) & joins(0, s[0], s[1], s[2])
}

fn joins_at(s: &[u8], i: usize) -> bool
    requires { (3 ≤ i) × (i < length s.now) }
    ensures { result ≡ joins_at s.now i }
{
    let p = i - 3;
    let q = i - 2;
    let r = i - 1;
    joins(s[p], s[q], s[r], s[i])
}

// Whether a byte joins those before it, p, q and r: it goes on with a character exactly where one of them asks for it, it is none that
// RFC 3629 has not, and after E0, ED, F0 and F4 it is one of those that may stand there.
#[tactic(auto, unfolding(crate::specs::Cited::Joins::joins))]
fn joins(p: u8, q: u8, r: u8, b: u8) -> bool
    ensures { result ≡ joins p q r b }
{
    let asked = (0xF0 <= p) | (0xE0 <= q) | (0xC0 <= r);
    let goes_on = b / 64 == 2;
    (!asked | goes_on)
        & (asked | !goes_on)
        & (b != 0xC0)
        & (b != 0xC1)
        & (b <= 0xF4)
        & ((r != 0xE0) | (0xA0 <= b))
        & ((r != 0xED) | (b < 0xA0))
        & ((r != 0xF0) | (0x90 <= b))
        & ((r != 0xF4) | (b < 0x90))
}

// The last three bytes, after which nothing is asked for.
fn end_joined(s: &[u8]) -> bool
    requires { 3 ≤ length s.now }
    ensures { result ≡ true → JoinedFrom s.now (length s.now) }
{
    let p = s.len() - 3;
    let q = s.len() - 2;
    let r = s.len() - 1;
    (s[p] < 0xF0) & (s[q] < 0xE0) & (s[r] < 0xC0)
}

// The end of the bytes below 0x80 at a place, of which each is a character.
pub fn ascii_end(s: &[u8], from: usize) -> usize
    requires { from ≤ length s.now }
    ensures { Ascii s.now from result }
{
    for i in ascii_sixteens(s, from)..s.len() {
        if 0x80 <= s[i] {
            return i;
        }
    }
    s.len()
}

// On over bytes below 0x80, as long as the next sixteen are.
fn ascii_sixteens(s: &[u8], from: usize) -> usize
    requires { from ≤ length s.now }
    ensures { Ascii s.now from result }
{
    let mut i = from;
    while 16 <= s.len() - i && are_ascii(s, i) {
        i += 16;
    }
    i
}

// Whether the sixteen bytes at a place are below 0x80: without a branch between them the compiler tests them as one.
fn are_ascii(s: &[u8], i: usize) -> bool
    requires { (i ≤ length s.now) × (16 ≤ length s.now - i) }
    ensures { result ≡ true → Ascii s.now i (i + 16) }
{
    let mut all = true;
    for k in 0..16 {
        all &= s[i + k] < 0x80;
    }
    all
}

// How many of the eight bytes at a place, from the first on, are from 32 to 127; none if one of the eight is above. With 96 added, each byte
// from 32 on has its high bit set. Below the first high bit that is clear stand eight zeros for each byte before it.
pub fn printable_among(s: &[u8], i: usize) -> usize
    requires { (i ≤ length s.now) × (8 ≤ length s.now - i) }
    ensures { (result ≤ 8) × Printable s.now i (i + result) }
{
    let x = eight(s, i);
    if x & 0x8080808080808080 != 0 {
        return 0;
    }
    let clear = 0x8080808080808080 - ((x + 0x6060606060606060) & 0x8080808080808080);
    (clear.trailing_zeros() / 8) as usize
}

// The eight bytes at a place as one number, so that one sum tests them all.
#[tactic(auto, unfolding(crate::specs::Cited::Eights::as_number))]
pub fn eight(s: &[u8], i: usize) -> u64
    requires { (i ≤ length s.now) × (8 ≤ length s.now - i) }
    ensures { result ≡ as_number (eight_at s.now i) }
{
    u64::from_le_bytes([
        s[i],
        s[i + 1],
        s[i + 2],
        s[i + 3],
        s[i + 4],
        s[i + 5],
        s[i + 6],
        s[i + 7],
    ])
}
