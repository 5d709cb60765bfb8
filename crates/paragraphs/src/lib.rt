// A paragraph's work: split into words, broken into lines, written.
#![tactic(auto)]

ghost use Rattle.std.specs.Prelude.{◌≡◌, cond, ◌&&◌, ◌||◌, leb, List, ℕ, ◌+◌, ◌-◌, ◌*◌, ◌/◌, ◌^◌, ◌≤◌, ◌<◌, length};
ghost use Rattle.lines.specs.Cited.Places.{most_large};
ghost use Rattle.knuth_plass.specs.Cited.Round.{Limits, AllNarrow};
ghost use Rattle.paragraphs.specs.Cited.Steps.{room_for, Roomy, setting_for, words_for, Broken, Placed, takes, TextStepped};

use options::Options;
use output::Layout;
use pieces::Paragraph;
use spacing::Setting;
use words::TooMany;

// Where the work stands: the place in the notes, the length of the digest up to there, and next-mail.
#[derive(Clone, Copy, Debug, PartialEq, Eq)]
pub struct Cursor {
    pub at: usize,
    pub written: usize,
    pub mail: bool,
}

// The numbers that a word takes of the room: its record and, with Knuth-Plass, that of the break after it.
const QUICK: usize = 7;

const BEST: usize = 15;

// How many words there is room for in so many numbers.
pub fn room_for(quick: bool, size: usize) -> usize
    ensures { result ≡ room_for quick size }
{
    if quick { size / QUICK } else { size / BEST }
}

// How many numbers so many words take.
pub fn numbers_for(quick: bool, words: usize) -> usize
    requires { words ≤ most_large }
    ensures { result ≡ cond quick 7 15 * words }
{
    if quick { QUICK * words } else { BEST * words }
}

// Writes a paragraph as it is read, if it is broken quick and its bytes show that it has no more than so many words; else by a table of its
// words, if there is room for them. The work goes on after it.
// In the original: `break_lines`.
pub fn put_paragraph(
    notes: &[u8],
    at: usize,
    o: Options,
    p: Paragraph,
    out: &mut [u8],
    written: usize,
    most: usize,
    work: &mut [u32],
) -> Result<Cursor, TooMany>
    requires { Placed notes.now at o p × (written < 2 ^ 62) }
    ensures { (block : List ℕ) → TextStepped (takes o.quick (p.next - at) most (room_for o.quick (length work.old)) (length (words_for block notes.now at o p))) notes.now at o p out.old written out.new result block }
{
    if !is_streamed(o.quick, p.next - at, most) {
        return put_by_table(notes, at, o, p, out, written, work);
    }
    let end = regular::put_quick(
        notes,
        at,
        p.next,
        p.mail,
        p.start,
        p.later,
        o,
        setting_of(o, p),
        p.first,
        p.indent,
        out,
        written,
    );
    Ok(Cursor {
        at: p.next,
        written: end,
        mail: p.mail,
    })
}

// Whether a paragraph of so many bytes is written as it is read: every second byte at most begins a word.
fn is_streamed(quick: bool, size: usize, most: usize) -> bool
    requires { size < 2 ^ 32 }
    ensures { result ≡ (quick && leb ((size + 1) / 2) most) }
{
    quick && (size + 1) / 2 <= most
}

// The same by a table of its words.
// In the original: `break_lines`.
fn put_by_table(
    notes: &[u8],
    at: usize,
    o: Options,
    p: Paragraph,
    out: &mut [u8],
    written: usize,
    work: &mut [u32],
) -> Result<Cursor, TooMany>
    requires { Placed notes.now at o p × (written < 2 ^ 62) }
    ensures { (block : List ℕ) → TextStepped (leb (length (words_for block notes.now at o p)) (room_for o.quick (length work.old))) notes.now at o p out.old written out.new result block }
{
    let most = room_for(o.quick, work.len());
    let n = words::split_words(notes, at, p.next, p.mail, p.start, p.later, o, most, work)?;
    mark_breaks(o.quick || p.mail, setting_of(o, p), work, n);
    Ok(Cursor {
        at: p.next,
        written: output::emit(notes, work, n, layout_of(o, p), out, written),
        mail: p.mail,
    })
}

// Marks where lines of n words start. What lies after the words is room to work in.
// In the original: `break_lines`.
pub fn mark_breaks(fast: bool, g: Setting, work: &mut [u32], n: usize)
    requires { Limits g × (1 ≤ n) × (n ≤ 2 ^ 20) × Roomy fast n work.old × AllNarrow n work.old }
    ensures { Broken fast g n work.old work.new }
{
    if fast {
        quick::quick_breaks(work, n, g);
    } else {
        knuth_plass::best_breaks(work, n, g);
    }
}

// What a paragraph is broken with. Mail always counts as uniform.
// In the original: `break_lines`.
pub fn setting_of(o: Options, p: Paragraph) -> Setting
    ensures { (block : List ℕ) → result ≡ setting_for block o p }
{
    Setting {
        width: o.width,
        goal: o.goal,
        tab: o.tab,
        uniform: o.uniform || p.mail,
        first: p.first.columns,
        indent: p.indent.columns,
    }
}

// How a paragraph is laid out.
fn layout_of(o: Options, p: Paragraph) -> Layout
    ensures { (result.uniform ≡ (o.uniform || p.mail)) × (result.first ≡ p.first) × (result.indent ≡ p.indent) }
{
    Layout {
        uniform: o.uniform || p.mail,
        first: p.first,
        indent: p.indent,
    }
}
