// Pieces: blank lines, plain lines and paragraphs.
#![tactic(auto)]

ghost use Rattle.std.specs.Prelude.{◌≡◌, true, false, cond, ◌||◌, ◌+◌, ◌≤◌, ◌<◌, ◌^◌, length, drop};
ghost use Rattle.lists.specs.Runs.{while};
ghost use Rattle.options.specs.Opts.{meant};
ghost use Rattle.lines.specs.Lines.{lines_of};
ghost use Rattle.lines.specs.Cited.Places.{most_large, Usable, LinesSound};
ghost use Rattle.pieces.specs.Pieces.{header_text, starts_mail, second_rule};
ghost use Rattle.pieces.specs.Cited.Bounds.{Bounded};
ghost use Rattle.pieces.specs.Cited.Places.{passes_rule, header_name, margin_at, reach, second_at, paragraph_with, piece_at, PieceReady, Shaped, Cleared, LineIs, SecondSound};

use lines::{Class, Shape};
use options::{Options, Part};

// An indent: bytes of the notes from start up to end, then further spaces; and its columns.
#[derive(Clone, Copy, Debug, PartialEq, Eq)]
pub struct Margin {
    pub start: usize,
    pub end: usize,
    pub more: usize,
    pub columns: usize,
}

// A paragraph: the place after it, whether it is mail, its first indent and its indent, and where the words of its first line and of
// its other lines begin in their line.
#[derive(Clone, Copy, Debug, PartialEq, Eq)]
pub struct Paragraph {
    pub next: usize,
    pub mail: bool,
    pub first: Margin,
    pub indent: Margin,
    pub start: usize,
    pub later: usize,
}

// A piece of the notes, with the place after it; of a plain line also the end of its text.
#[derive(Clone, Copy, Debug, PartialEq, Eq)]
pub enum Piece {
    Blank { next: usize },
    Plain { end: usize, next: usize },
    Text(Paragraph),
}

// The rule by which further lines join a paragraph: those of mail continue it, others agree with a line before. No `Option`: mail's is a rule
// too, and none that is absent.
#[derive(Clone, Copy, Debug, PartialEq, Eq)]
pub enum Rule {
    Mail,
    Like(Shape),
}

// The second line of a crown or tagged paragraph: where the line after it begins, and its shape.
#[derive(Clone, Copy, Debug, PartialEq, Eq)]
pub struct Second {
    pub next: usize,
    pub shape: Shape,
}

// A line by places, with its class.
#[derive(Clone, Copy, Debug, PartialEq, Eq)]
pub struct Classed {
    pub end: usize,
    pub next: usize,
    pub class: Class,
}

// The piece that begins at a line's start. The lines from there on may be known to be sound: then none is asked for a damaged character.
// In the original: `ParagraphStream::next`.
pub fn next_piece(
    notes: &[u8],
    at: usize,
    o: Options,
    block: &[u8],
    next_mail: bool,
    sound: bool,
) -> Piece
    requires { (at < length notes.now) × (length notes.now ≤ most_large) × Usable block.now o × Cleared o × (sound ≡ true → LinesSound (lines_of (drop at notes.now))) }
    ensures { (result ≡ piece_at (meant block.now o) next_mail notes.now at) × Bounded o.glue notes.now at result }
{
    let Classed { end, next, class } = line_at(notes, at, o, block, sound);
    match class {
        Class::Blank => Piece::Blank { next },
        Class::Plain => Piece::Plain { end, next },
        Class::Formatted(s) => {
            if starts_mail(&notes[at..end], o.mail, next_mail, s) {
                return Piece::Text(mail_paragraph(notes, at, next, s, o, block, sound));
            }
            // Crown or tagged: the second line may have an indent of its own.
            if o.crown || o.tagged {
                return Piece::Text(hanging_paragraph(notes, at, next, s, o, block, sound));
            }
            Piece::Text(plain_paragraph(notes, at, next, s, o, block, sound))
        }
    }
}

// A mail paragraph: no first indent, then two spaces; it goes on with indented lines.
// In the original: `ParagraphStream::next`.
fn mail_paragraph(
    notes: &[u8],
    at: usize,
    next: usize,
    s: Shape,
    o: Options,
    block: &[u8],
    sound: bool,
) -> Paragraph
    requires { PieceReady notes.now block.now o next sound }
    ensures { result ≡ paragraph_with (meant block.now o) true at next s (lines_of (drop next notes.now)) }
{
    let bare = Margin {
        start: at,
        end: at,
        more: 0,
        columns: 0,
    };
    let two = Margin {
        more: 2,
        columns: 2,
        ..bare
    };
    Paragraph {
        next: further(notes, next, Rule::Mail, o, block, sound),
        mail: true,
        first: bare,
        indent: two,
        start: s.indent_end,
        later: s.indent_end,
    }
}

// A plain paragraph: all its lines agree.
// In the original: `ParagraphStream::next`.
fn plain_paragraph(
    notes: &[u8],
    at: usize,
    next: usize,
    s: Shape,
    o: Options,
    block: &[u8],
    sound: bool,
) -> Paragraph
    requires { PieceReady notes.now block.now o next sound × Shaped notes.now at s × ((o.crown || o.tagged) ≡ false) }
    ensures { result ≡ paragraph_with (meant block.now o) false at next s (lines_of (drop next notes.now)) }
{
    Paragraph {
        next: further(notes, next, Rule::Like(s), o, block, sound),
        mail: false,
        first: margin_at(at, 0, s),
        indent: margin_at(at, 0, s),
        start: s.indent_end,
        later: s.indent_end,
    }
}

// A crown or tagged paragraph: the second line sets the indent.
// In the original: `ParagraphStream::next`.
fn hanging_paragraph(
    notes: &[u8],
    at: usize,
    next: usize,
    s: Shape,
    o: Options,
    block: &[u8],
    sound: bool,
) -> Paragraph
    requires { PieceReady notes.now block.now o next sound × Shaped notes.now at s × ((o.crown || o.tagged) ≡ true) × (o.split ≡ false) }
    ensures { result ≡ paragraph_with (meant block.now o) false at next s (lines_of (drop next notes.now)) }
{
    let first = margin_at(at, 0, s);
    match second_line(notes, next, s, o, block, sound) {
        None => Paragraph {
            next,
            mail: false,
            first,
            indent: margin_at(at, further_spaces(o.tagged), s),
            start: s.indent_end,
            later: s.indent_end,
        },
        Some(second) => Paragraph {
            next: follow(
                notes,
                second.next,
                Rule::Like(second.shape),
                o,
                block,
                sound,
            ),
            mail: false,
            first,
            indent: margin_at(next, 0, second.shape),
            start: s.indent_end,
            later: second.shape.indent_end,
        },
    }
}

// The line that begins at a place: the end of its text, the place after it, and its class.
fn line_at(notes: &[u8], at: usize, o: Options, block: &[u8], sound: bool) -> Classed
    requires { PieceReady notes.now block.now o at sound × (at < length notes.now) }
    ensures { LineIs (meant block.now o) notes.now at result }
{
    let line = lines::first_classed(&notes[at..], o, block, sound);
    Classed {
        end: at + line.extent.text,
        next: at + line.extent.whole,
        class: line.class,
    }
}

// A tagged paragraph of one line has an indent of four spaces more.
fn further_spaces(tagged: bool) -> usize
    ensures { (result ≡ cond tagged 4 0) × (result ≤ 4) }
{
    if tagged { 4 } else { 0 }
}

// The second line, if it is there and joins.
// In the original: `ParagraphStream::next`.
fn second_line(
    notes: &[u8],
    at: usize,
    s: Shape,
    o: Options,
    block: &[u8],
    sound: bool,
) -> Option<Second>
    requires { PieceReady notes.now block.now o at sound }
    ensures { (result ≡ second_at (meant block.now o) s notes.now at) × SecondSound notes.now at result }
{
    if notes.len() <= at {
        return None;
    }
    let Classed { next, class, .. } = line_at(notes, at, o, block, sound);
    let Class::Formatted(shape) = class else {
        return None;
    };
    is_second(o.tagged, s, shape).then_some(Second { next, shape })
}

// The place after the lines that join by a rule. Split: one line each.
// In the original: `ParagraphStream::next`.
fn further(notes: &[u8], at: usize, rule: Rule, o: Options, block: &[u8], sound: bool) -> usize
    requires { PieceReady notes.now block.now o at sound }
    ensures { (result ≡ cond o.split at (reach (meant block.now o) (passes_rule rule o.prefix) notes.now at)) × (result ≤ length notes.now) }
{
    if o.split {
        at
    } else {
        follow(notes, at, rule, o, block, sound)
    }
}

// In the original: `ParagraphStream::next`.
fn follow(notes: &[u8], at: usize, rule: Rule, o: Options, block: &[u8], sound: bool) -> usize
    requires { PieceReady notes.now block.now o at sound }
    ensures { (result ≡ reach (meant block.now o) (passes_rule rule o.prefix) notes.now at) × (result ≤ length notes.now) }
{
    let mut i = at;
    while i < notes.len() {
        let Classed { next, class, .. } = line_at(notes, i, o, block, sound);
        let Class::Formatted(s) = class else {
            return i;
        };
        if !passes(rule, o.prefix, s) {
            return i;
        }
        i = next;
    }
    i
}

// The indent of a line of a shape that begins at a place, with further spaces.
fn margin_at(at: usize, more: usize, s: Shape) -> Margin
    requires { (at + s.indent_end < 2 ^ 32) × (s.indent_length + more < 2 ^ 32) }
    ensures { result ≡ margin_at at more s }
{
    Margin {
        start: at,
        end: at + s.indent_end,
        more,
        columns: s.indent_length + more,
    }
}

// A line starts mail: flag set, next-mail true, indent end 0, and a header's text.
// In the original: `ParagraphStream::is_mail_header`.
fn starts_mail(line: &[u8], mail: bool, next_mail: bool, s: Shape) -> bool
    ensures { result ≡ starts_mail mail next_mail s line.now }
{
    mail && next_mail && s.indent_end == 0 && is_header(line)
}

// The mail rule: `From `, or a name of printable bytes with its colon after it.
// In the original: `ParagraphStream::is_mail_header`.
pub fn is_header(line: &[u8]) -> bool
    ensures { result ≡ header_text line.now }
{
    let from = b"From ";
    if lines::begins(from, line) {
        return true;
    }
    let n = name_end(line);
    0 < n && n < line.len() && line[n] == b':'
}

// The first place whose byte is a colon or is not printable, or the end.
// In the original: `ParagraphStream::is_mail_header`.
fn name_end(line: &[u8]) -> usize
    ensures { (result ≡ length (while header_name line.now)) × (result ≤ length line.now) }
{
    for i in 0..line.len() {
        let b = line[i];
        if b < 33 || 126 < b || b == b':' {
            return i;
        }
    }
    line.len()
}

// Crown: the second line agrees in prefix place and prefix length; tagged: and has another indent.
fn is_second(tagged: bool, a: Shape, b: Shape) -> bool
    ensures { result ≡ second_rule tagged a b }
{
    a.prefix_place == b.prefix_place
        && a.prefix_length == b.prefix_length
        && (!tagged || a.indent_end != b.indent_end || a.indent_length != b.indent_length)
}

// Whether a line of a shape joins by a rule. Plain: further lines agree in indent end, prefix place, indent length and prefix length.
fn passes(rule: Rule, prefix: Option<Part>, s: Shape) -> bool
    ensures { result ≡ passes_rule rule prefix s }
{
    match rule {
        Rule::Like(a) => a == s,
        Rule::Mail => 0 < s.indent_end && (prefix.is_none() || 0 < s.prefix_place),
    }
}
