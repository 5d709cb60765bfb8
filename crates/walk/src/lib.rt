// The walk over the notes: their pieces, written one after the other as far as there is room, and counted.
#![tactic(auto)]

pub mod notes;
mod texts;

ghost use Rattle.std.specs.Prelude.{◌≡◌, true, false, cond, List, [], ℕ, ◌+◌, ◌-◌, ◌*◌, ◌≤◌, max, length, None};
ghost use Rattle.std.proofs.Math.Seq.{slice};
ghost use Rattle.options.specs.Opts.{meant};
ghost use Rattle.lines.specs.Lines.{lines_of};
ghost use Rattle.lines.specs.Cited.Places.{most_large, Usable};
ghost use Rattle.pieces.specs.Cited.Places.{Cleared};
ghost use Rattle.pieces.specs.Cited.Bounds.{AllBegin};
ghost use Rattle.output.specs.Cited.Sink.{Wrote};
ghost use Rattle.paragraphs.specs.Cited.Steps.{room_for, words_for};
ghost use Rattle.walk.specs.Digest.{most_words, digest};
ghost use Rattle.walk.specs.Work.{work_for};
ghost use Rattle.walk.specs.Cited.Course.{CursorIn, output_from, long_from, Finished};
ghost use Rattle.walk.specs.Cited.Texts.{FinishedText, ClearedText, Coursed, Reached};

use notes::Notes;
use options::Options;
use paragraphs::Cursor;
use pieces::{Paragraph, Piece};
use texts::Text;

// What follows the lines after a place: a paragraph, or the end of the notes, with the digest's length. Neither is an absence or a failure: an
// Option would drop the length, and a Result call one of them an error.
#[derive(Clone, Copy, Debug)]
enum Ahead<'a> {
    Text(Text<'a>),
    End(usize),
}

// There is no digest: the place of the first paragraph that has too many words.
#[derive(Clone, Copy, Debug, PartialEq, Eq)]
pub struct Stopped {
    pub at: usize,
}

// Of a paragraph of too many words its first line's place is told.
impl<'a> From<Text<'a>> for Stopped {
    ghost from_gives = { λ text stopped. stopped.at ≡ text.c.at };

    fn from(text: Text<'a>) -> Stopped {
        Stopped { at: text.c.at }
    }
}

// Where the notes begin.
const FRONT: Cursor = Cursor {
    at: 0,
    written: 0,
    mail: true,
};

// Writes what fits of all pieces, and answers the digest's length; or tells the first paragraph of too many words, and clears the output. The work
// goes on when no room is left: too many words, found later, take precedence.
// In the original: `ParagraphStream::new` and `uumain`.
pub fn put_all(notes: Notes, out: &mut [u8]) -> Result<usize, Stopped>
    ensures { Finished most_words (meant notes.entry.block.now notes.entry.options) notes.entry.bytes.now out.old out.new result }
{
    match put_lines(notes, FRONT, out) {
        Ahead::End(needed) => Ok(needed),
        Ahead::Text(text) => put_or_clear(text, out),
    }
}

// Everything from the first paragraph on, or nothing.
fn put_or_clear(text: Text, out: &mut [u8]) -> Result<usize, Stopped>
    ensures { ClearedText most_words text.entry out.old out.new result }
{
    let ended = put_from(text, out);
    if ended.is_err() {
        out.fill(0);
    }
    ended
}

// Everything from the first paragraph on, written.
fn put_from(text: Text, out: &mut [u8]) -> Result<usize, Stopped>
    ensures { FinishedText most_words text.entry out.old out.new result }
{
    if text.notes.options.quick {
        put_quick(text, out)
    } else {
        put_best(text, out)
    }
}

// What `put_all` would count.
pub fn measure_all(notes: Notes) -> Result<usize, Stopped>
    ensures { Finished most_words (meant notes.entry.block.now notes.entry.options) notes.entry.bytes.now [] [] result }
{
    // An array of no bytes would have a place of its own on the stack; with one of a byte measuring takes no more than writing.
    let mut room = [0u8; 1];
    put_all(notes, &mut room[..0])
}

// The same in room that is lent, of which there is enough for every paragraph.
pub fn put_all_lent(notes: Notes, out: &mut [u8], work: &mut [u32]) -> usize
    requires { work_for (meant notes.block.now notes.options) notes.bytes.now ≤ length work.old }
    ensures { Wrote out.old 0 (digest (meant notes.entry.block.now notes.entry.options) notes.entry.bytes.now) out.new result }
{
    match put_lines(notes, FRONT, out) {
        Ahead::End(needed) => needed,
        Ahead::Text(text) => put_lent(text, out, work),
    }
}

// Everything from the first paragraph on.
fn put_lent(text: Text, out: &mut [u8], work: &mut [u32]) -> usize
    requires { long_from (room_for text.notes.options.quick (length work.old)) (meant text.notes.block.now text.notes.options) text.c.mail text.notes.bytes.now text.c.at ≡ None }
    ensures { Wrote out.old text.entry.c.written (output_from (meant text.entry.notes.block.now text.entry.notes.options) text.entry.c.mail text.entry.notes.bytes.now text.entry.c.at) out.new result }
{
    let limit = paragraphs::room_for(text.notes.options.quick, work.len());
    // There is room for every paragraph, so none is left.
    put_texts(text, out, limit, work).unwrap()
}

// The room that the notes need, if it is more than so much. Their bytes may show that it is not: between two words stands a blank.
pub fn work_over(notes: Notes, lent: usize) -> usize
    ensures { result ≡ max lent (work_for (meant notes.entry.block.now notes.entry.options) notes.entry.bytes.now) }
{
    work_with(notes.options, notes.block, notes.bytes, lent)
}

// The same with options of which some may have been turned on since the block was read.
pub fn work_with(o: Options, block: &[u8], notes: &[u8], lent: usize) -> usize
    requires { (length notes.now ≤ most_large) × Usable block.now o × Cleared o }
    ensures { result ≡ max lent (work_for (meant block.now o) notes.now) }
{
    if paragraphs::numbers_for(o.quick, (notes.len() + 1) / 2) <= lent {
        return lent;
    }
    let mut most = lent;
    let mut at = 0;
    let mut mail = true;
    while at < notes.len() {
        match pieces::next_piece(notes, at, o, block, mail, false) {
            Piece::Blank { next } => {
                at = next;
                mail = true;
            }
            Piece::Plain { next, .. } => {
                at = next;
                mail = false;
            }
            Piece::Text(p) => {
                most = with_paragraph(o, notes, at, p, most);
                at = p.next;
                mail = p.mail;
            }
        }
    }
    most
}

// The same of a paragraph, whose words are counted only where its bytes do not show it.
fn with_paragraph(o: Options, notes: &[u8], at: usize, p: Paragraph, most: usize) -> usize
    requires { (at ≤ p.next) × (p.next ≤ length notes.now) × (length notes.now ≤ most_large) × (1 ≤ o.tab) × (o.tab ≤ 100) × (p.mail ≡ false → AllBegin o.glue p.start p.later (lines_of (slice at p.next notes.now))) × ((block : List ℕ) → 2 * length (words_for block notes.now at o p) ≤ p.next - at + 1) }
    ensures { (block : List ℕ) → result ≡ max most (cond o.quick 7 15 * length (words_for block notes.now at o p)) }
{
    if paragraphs::numbers_for(o.quick, (p.next - at + 1) / 2) <= most {
        return most;
    }
    let words = words::count_words(notes, at, p.next, p.mail, p.start, p.later, o);
    most.max(paragraphs::numbers_for(o.quick, words))
}

// Writes the lines from a place on, blank and plain ones, up to the next paragraph.
fn put_lines<'a>(notes: Notes<'a>, from: Cursor, out: &mut [u8]) -> Ahead<'a>
    requires { CursorIn notes.bytes.now from }
    ensures { (most : ℕ) → Reached most notes.entry from out.old out.new result }
{
    let mut c = from;
    while c.at < notes.bytes.len() {
        let at = c.at;
        match pieces::next_piece(
            notes.bytes,
            at,
            notes.options,
            notes.block,
            c.mail,
            !notes.options.keep,
        ) {
            Piece::Blank { next } => {
                c = Cursor {
                    at: next,
                    written: output::emit_line(notes.bytes, at, at, out, c.written),
                    mail: true,
                };
            }
            Piece::Plain { end, next } => {
                c = Cursor {
                    at: next,
                    written: output::emit_line(notes.bytes, at, end, out, c.written),
                    mail: false,
                };
            }
            Piece::Text(p) => {
                return Ahead::Text(Text { notes, c, p });
            }
        }
    }
    Ahead::End(c.written)
}

// The most words that a paragraph may have.
const MOST_WORDS: usize = 1024;

// The rooms, in numbers: with quick for the most words, with seven for each; with Knuth-Plass for 40, 260 and the most, with fifteen.
const QUICK_MOST: usize = 7168;

const BEST_FEW: usize = 600;

const BEST_MORE: usize = 3900;

const BEST_MOST: usize = 15360;

// A paragraph of more bytes has more words, as a rule, than the first room and the second are for.
const FEW_BYTES: usize = 240;

const MORE_BYTES: usize = 960;

// A paragraph of so many bytes has no more words than it may: every second byte at most begins one.
const SURE_BYTES: usize = 2048;

// As far as a room of N numbers reaches. The room is declared here and lent from here on: N has an instance of this function to itself, which
// is never made part of its caller, so that a call has no more room cleared than its paragraphs ask for.
#[inline(never)]
fn put_in<'a, const N: usize>(text: Text<'a>, out: &mut [u8]) -> Result<usize, Text<'a>>
    requires { room_for text.notes.options.quick N ≤ most_words }
    ensures { Coursed most_words (room_for text.entry.notes.options.quick N) text.entry out.old out.new result }
{
    let mut work = [0u32; N];
    put_texts(text, out, MOST_WORDS, &mut work)
}

// Quick. Paragraphs whose bytes show that they have no more words than they may need no room; the words of longer ones have to be counted.
// The first paragraph is not read for nothing where it is longer.
fn put_quick(text: Text, out: &mut [u8]) -> Result<usize, Stopped>
    requires { text.notes.options.quick ≡ true }
    ensures { FinishedText most_words text.entry out.old out.new result }
{
    let mut left = text;
    if text.p.next - text.c.at <= SURE_BYTES {
        match put_in::<0>(left, out) {
            Ok(needed) => return Ok(needed),
            Err(short) => left = short,
        }
    }
    Ok(put_in::<QUICK_MOST>(left, out)?)
}

// Knuth-Plass, in three rooms, each for longer paragraphs than the one before it: for the words of a few lines, for those of 1 KiB of prose, and
// for the most that a paragraph may have. The first paragraph is not split for a room that it outgrows.
fn put_best(text: Text, out: &mut [u8]) -> Result<usize, Stopped>
    requires { text.notes.options.quick ≡ false }
    ensures { FinishedText most_words text.entry out.old out.new result }
{
    let size = text.p.next - text.c.at;
    let mut left = text;
    if size <= FEW_BYTES {
        match put_in::<BEST_FEW>(left, out) {
            Ok(needed) => return Ok(needed),
            Err(short) => left = short,
        }
    }
    if size <= MORE_BYTES {
        match put_in::<BEST_MORE>(left, out) {
            Ok(needed) => return Ok(needed),
            Err(short) => left = short,
        }
    }
    Ok(put_in::<BEST_MOST>(left, out)?)
}

// Paragraph by paragraph, each with the lines after it, as far as the room reaches; quick needs none where a paragraph's bytes show that it
// has no more than so many words.
// In the original: `uumain`.
fn put_texts<'a>(
    first: Text<'a>,
    out: &mut [u8],
    limit: usize,
    work: &mut [u32],
) -> Result<usize, Text<'a>>
    requires { room_for first.notes.options.quick (length work.old) ≤ limit }
    ensures { (most : ℕ) → limit ≤ most → Coursed most (room_for first.entry.notes.options.quick (length work.old)) first.entry out.old out.new result }
{
    let mut text = first;
    loop {
        let Ok(behind) = paragraphs::put_paragraph(
            text.notes.bytes,
            text.c.at,
            text.notes.options,
            text.p,
            out,
            text.c.written,
            limit,
            work,
        ) else {
            return Err(text);
        };
        match put_lines(text.notes, behind, out) {
            Ahead::End(needed) => {
                return Ok(needed);
            }
            Ahead::Text(next) => {
                text = next;
            }
        }
    }
}
