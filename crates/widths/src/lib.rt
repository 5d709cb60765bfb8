// Of a character: how many columns it takes, and whether it is white space. Both by Unicode 15.0.0.
#![tactic(auto)]

ghost use Rattle.std.specs.Prelude.{◌≡◌, ◌≤◌, ◌<◌};
ghost use Rattle.widths.specs.Widths.{width_of};
ghost use Rattle.widths.specs.WhiteSpace.{white_space};
ghost use Rattle.widths.specs.Cited.Forms.{ink_width, LeftOut};

mod table;

// How many columns a character takes: 0, 1 or 2.
// In the original: `char_width`.
#[tactic(auto, using(crate::proofs::Laws::one_before_300, crate::proofs::Held::arabic, crate::proofs::Starts::behind_all))]
pub fn width(c: u32) -> usize
    ensures { result ≡ width_of c }
{
    if c < 0x300 {
        // Latin, and all else before the table's first range.
        1
    } else if 0xE01F0 <= c {
        // Behind its last.
        1
    } else if (0x61D <= c) & (c < 0x64B) {
        // Letters of Arabic.
        1
    } else {
        search(start(c), c)
    }
}

// The first range of the table that does not end before the block that a character stands in: the search for it begins there.
#[tactic(auto, using(crate::proofs::Starts::near_begins, crate::proofs::Starts::next_begins, crate::proofs::Starts::few_begin, crate::proofs::Starts::far_begins))]
fn start(c: u32) -> usize
    ensures { LeftOut result c }
{
    if c < 0x2000 {
        table::near(c / 32)
    } else if c < 0x4000 {
        table::next(c / 64 - 128)
    } else if c < 0xA000 {
        // Ideographs but for a few stand in one range.
        226
    } else {
        table::far(c / 256 - 160)
    }
}

// The width of a character by the ranges from a place on. They ascend: the first that does not end before the character holds it, or none does.
fn search(from: usize, c: u32) -> usize
    requires { LeftOut from c × (c < 0xE01F0) }
    ensures { result ≡ width_of c }
{
    let mut k = from;
    loop {
        let s = table::row(k);
        if c <= s.last {
            return if c < s.first { 1 } else { s.width };
        }
        k += 1;
    }
}

// How many columns a character takes that is no white space: a single look for both questions. The commonest letters are told
// before the table.
pub fn ink_width(c: u32) -> Option<usize>
    ensures { result ≡ ink_width c }
{
    if 0x3000 < c {
        late(c)
    } else if c < 0x1680 {
        early(c)
    } else {
        middle(c)
    }
}

// Before U+1680 white space is before U+0300. Tests in a row, here and in what follows: a match on ranges was tried, which the compiler
// makes a search of, and took up to twice as long.
#[tactic(auto, using(crate::proofs::Inks::near, crate::proofs::Held::devanagari, crate::proofs::Held::thai, crate::proofs::Held::thai_vowels, crate::proofs::Held::devanagari_vowels, crate::proofs::Held::devanagari_signs, crate::proofs::Held::virama, crate::proofs::Held::thai_signs, crate::proofs::Held::thai_tones))]
fn early(c: u32) -> Option<usize>
    requires { c < 0x1680 }
    ensures { result ≡ ink_width c }
{
    if c < 0x300 {
        latin(c)
    } else if (0x903 <= c) & (c < 0x93A) {
        // Letters of Devanagari, and of Thai with the vowels before them.
        Some(1)
    } else if (0xE00 <= c) & (c < 0xE31) {
        Some(1)
    } else if (0xE3B <= c) & (c < 0xE47) {
        Some(1)
    } else if (0x93D <= c) & (c < 0x941) {
        // Signs of both.
        Some(1)
    } else if (0x941 <= c) & (c <= 0x948) {
        Some(0)
    } else if c == 0x94D {
        Some(0)
    } else if (0xE34 <= c) & (c <= 0xE3A) {
        Some(0)
    } else if (0xE47 <= c) & (c <= 0xE4E) {
        Some(0)
    } else {
        Some(width(c))
    }
}

// Each is a column wide.
#[tactic(auto, using(crate::proofs::Inks::inked, crate::proofs::Inks::blank, crate::proofs::Laws::one_before_300))]
fn latin(c: u32) -> Option<usize>
    requires { c < 0x300 }
    ensures { result ≡ ink_width c }
{
    if is_white_space(c) { None } else { Some(1) }
}

// From U+1680 to U+3000 stands the rest of white space.
#[tactic(auto, using(crate::proofs::Inks::inked, crate::proofs::Inks::blank, crate::proofs::Inks::dash, crate::proofs::Held::dashes, crate::proofs::Held::joiner))]
fn middle(c: u32) -> Option<usize>
    requires { (0x1680 ≤ c) × (c ≤ 0x3000) }
    ensures { result ≡ ink_width c }
{
    if (0x2010 <= c) & (c < 0x2028) {
        // Dashes, quotation marks, the ellipsis.
        Some(1)
    } else if is_white_space(c) {
        None
    } else if c == 0x200D {
        // What joins emoji.
        Some(0)
    } else {
        Some(width(c))
    }
}

// Behind U+3000 nothing is white space.
#[tactic(auto, using(crate::proofs::Inks::far, crate::proofs::Held::ideographs, crate::proofs::Held::hiragana, crate::proofs::Held::katakana, crate::proofs::Held::hangul, crate::proofs::Held::emoji_3f8, crate::proofs::Held::emoji_442, crate::proofs::Held::emoji_4ff, crate::proofs::Held::emoji_5fb, crate::proofs::Held::emoji_680, crate::proofs::Held::emoji_form))]
fn late(c: u32) -> Option<usize>
    requires { 0x3000 < c }
    ensures { result ≡ ink_width c }
{
    if (0x4E00 <= c) & (c < 0xA000) {
        // Ideographs.
        Some(2)
    } else if (0x3041 <= c) & (c <= 0x3096) {
        // Kana.
        Some(2)
    } else if (0x309B <= c) & (c <= 0x30FF) {
        Some(2)
    } else if (0xAC00 <= c) & (c <= 0xD7A3) {
        // Hangul.
        Some(2)
    } else if (0x1F3F8 <= c) & (c <= 0x1F43E) {
        // Emoji: the longest ranges of them, and the selector of their form.
        Some(2)
    } else if (0x1F442 <= c) & (c <= 0x1F4FC) {
        Some(2)
    } else if (0x1F4FF <= c) & (c <= 0x1F53D) {
        Some(2)
    } else if (0x1F5FB <= c) & (c <= 0x1F64F) {
        Some(2)
    } else if (0x1F680 <= c) & (c <= 0x1F6C5) {
        Some(2)
    } else if c == 0xFE0F {
        Some(0)
    } else {
        Some(width(c))
    }
}

// Whether a character is white space.
#[tactic(auto, unfolding(crate::specs::WhiteSpace::white_space))]
pub fn is_white_space(c: u32) -> bool
    ensures { result ≡ white_space c }
{
    (9 <= c) & (c <= 13)
        | (c == 0x20)
        | (c == 0x85)
        | (c == 0xA0)
        | (c == 0x1680)
        | (0x2000 <= c) & (c <= 0x200A)
        | (0x2028 <= c) & (c <= 0x2029)
        | (c == 0x202F)
        | (c == 0x205F)
        | (c == 0x3000)
}
