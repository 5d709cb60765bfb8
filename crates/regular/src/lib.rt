// Quick, written as it is read. On a line of ASCII and letters of two bytes the columns are the bytes that begin a character, so that the
// words that stay are those that end by one place, and the last space up to it is looked for; any other line goes word by word.
//
// The notes, the setting and the indent are handed on side by side: as one struct they are copied at each call, and prose took 35 to 85 %
// longer (tried).
#![tactic(auto)]

ghost use Rattle.std.specs.Prelude.{◌≡◌, true, false, ◌||◌, List, [], ◌++◌, ℕ, ◌+◌, ◌-◌, ◌≤◌, ◌<◌, ◌^◌, length, get_or, replicate, IfSome};
ghost use Rattle.std.proofs.Math.Seq.{slice};
ghost use Rattle.options.specs.Opts.{meant};
ghost use Rattle.lines.specs.Lines.{lines_of};
ghost use Rattle.pieces.specs.Cited.Bounds.{AllBegin};
ghost use Rattle.lists.specs.Runs.{while};
ghost use Rattle.text.specs.Characters.{is_blank};
ghost use Rattle.text.specs.Cited.Places.{ink_glyphs};
ghost use Rattle.records.specs.Cited.Table.{Holds, Small, Within};
ghost use Rattle.spacing.specs.Cited.Bounds.{Fair};
ghost use Rattle.words.specs.Cited.Scan.{punct_code};
ghost use Rattle.words.specs.Cited.Split.{Kept};
ghost use Rattle.output.specs.Emission.{line_feed};
ghost use Rattle.output.specs.Cited.Sink.{Wrote};
ghost use Rattle.output.specs.Cited.Writers.{margin_of, MarginIn};
ghost use Rattle.regular.specs.Cited.Regular.{column_of, is_even, evenly, fresh_punct, added};
ghost use Rattle.regular.specs.Cited.Places.{Spaceless, LastSpace, FirstSpace, OverSpaces, BeforeSpaces, Inked, Even, columns_in, Reaches, OverIs, CutIs, Filled, Joined, EachRegular, RegularTo, SpelledTo, RowIs, Went, Stands, GapIn, WordPut, Listed, Worded, RowPut, Rowed, PutIs};

use options::Options;
use pieces::Margin;
use records::Word;
use spacing::Setting;

// The stretch of a line's words with its columns, and the line after it.
#[derive(Clone, Copy, Debug, PartialEq, Eq)]
struct Row {
    from: usize,
    end: usize,
    columns: usize,
    next: usize,
}

// A place, and how many columns are left to take from it on.
#[derive(Clone, Copy, Debug, PartialEq, Eq)]
struct Over {
    at: usize,
    left: usize,
}

// Where regular bytes and letters of two end, and how many letters there are.
#[derive(Clone, Copy, Debug, PartialEq, Eq)]
struct Letters {
    end: usize,
    count: usize,
}

// Where a paragraph stands: the written end, the column, the mark of the last word, and whether its first word is still to come.
#[derive(Clone, Copy, Debug, PartialEq, Eq)]
struct Reached {
    written: usize,
    column: usize,
    punct: bool,
    begins: bool,
}

// The same after words of which the last wait to be written: they are in the notes as they are to be.
#[derive(Clone, Copy, Debug, PartialEq, Eq)]
struct Waiting {
    from: usize,
    to: usize,
    reached: Reached,
}

// The same after a line: where the next one is.
#[derive(Clone, Copy, Debug, PartialEq, Eq)]
struct Progress {
    at: usize,
    reached: Reached,
}

// Where a line of output ends in the notes, and where the next word begins.
#[derive(Clone, Copy, Debug, PartialEq, Eq)]
struct Cut {
    end: usize,
    next: usize,
}

// The last space after a place, up to another, or that place.
fn last_space(s: &[u8], from: usize, to: usize) -> usize
    requires { (from ≤ to) × (to < length s.now) }
    ensures { LastSpace s.now from to result }
{
    let mut i = to;
    while from < i {
        if s[i] == 32 {
            return i;
        }
        i -= 1;
    }
    i
}

// The first space from a place on, before an end, or the end.
fn first_space(s: &[u8], from: usize, end: usize) -> usize
    requires { (from ≤ end) × (end ≤ length s.now) }
    ensures { FirstSpace s.now from end result }
{
    let mut i = spaceless_eights(s, from, end);
    while i < end {
        if s[i] == 32 {
            return i;
        }
        i += 1;
    }
    i
}

// On over bytes that are no space, as long as the next eight are none.
fn spaceless_eights(s: &[u8], from: usize, end: usize) -> usize
    requires { (from ≤ end) × (end ≤ length s.now) }
    ensures { (from ≤ result) × (result ≤ end) × Spaceless s.now from result }
{
    let mut i = from;
    while 8 <= end - i {
        if are_spaceless(s, i) {
            i += 8;
        } else {
            return i;
        }
    }
    i
}

// Whether no space is among the eight bytes at a place.
fn are_spaceless(s: &[u8], i: usize) -> bool
    requires { (i ≤ length s.now) × (8 ≤ length s.now - i) }
    ensures { result ≡ true → Spaceless s.now i (i + 8) }
{
    let b = i + 1;
    let c = i + 2;
    let d = i + 3;
    let e = i + 4;
    let f = i + 5;
    let g = i + 6;
    let h = i + 7;
    (s[i] != 32)
        & (s[b] != 32)
        & (s[c] != 32)
        & (s[d] != 32)
        & (s[e] != 32)
        & (s[f] != 32)
        & (s[g] != 32)
        & (s[h] != 32)
}

// On over the spaces at a place, before an end.
fn over_spaces(s: &[u8], from: usize, end: usize) -> usize
    requires { (from ≤ end) × (end ≤ length s.now) }
    ensures { OverSpaces s.now from end result }
{
    let mut i = from;
    while i < end {
        if s[i] != 32 {
            return i;
        }
        i += 1;
    }
    i
}

// Back over the spaces that end at a place, not before another.
fn before_spaces(s: &[u8], from: usize, to: usize) -> usize
    requires { (from ≤ to) × (to ≤ length s.now) }
    ensures { BeforeSpaces s.now from to result }
{
    let mut i = to;
    while from < i {
        let last = i - 1;
        if s[last] != 32 {
            return i;
        }
        i = last;
    }
    i
}

// How many columns a byte begins.
fn column_of(b: u8) -> usize
    ensures { (result ≡ column_of b) × (result ≤ 1) }
{
    usize::from(b / 64 != 2)
}

// The columns of eight bytes at a place.
fn columns_of_eight(s: &[u8], i: usize) -> usize
    requires { (i ≤ length s.now) × (8 ≤ length s.now - i) }
    ensures { (result ≡ columns_in s.now i (i + 8)) × (result ≤ 8) }
{
    let mut n = 0;
    for k in i..i + 8 {
        n += column_of(s[k]);
    }
    n
}

// The columns between two places.
fn columns_between(s: &[u8], from: usize, to: usize) -> usize
    requires { (from ≤ to) × (to ≤ length s.now) × (length s.now ≤ 2 ^ 20) }
    ensures { result ≡ columns_in s.now from to }
{
    let mut n = 0;
    for i in from..to {
        n += column_of(s[i]);
    }
    n
}

// On over columns of a stretch, eight bytes at a time, as long as eight are left to take.
fn over_eights(s: &[u8], p: usize, e: usize, room: usize) -> Over
    requires { (p ≤ e) × (e ≤ length s.now) × (room < columns_in s.now p e) }
    ensures { OverIs s.now p e room result }
{
    let mut i = p;
    let mut left = room;
    while 8 <= left {
        left -= columns_of_eight(s, i);
        i += 8;
    }
    Over { at: i, left }
}

// Where a stretch has taken so many columns, and a character begins. A `for` would be no plainer: it needs an end, which is never reached.
fn place_after(s: &[u8], p: usize, e: usize, room: usize) -> usize
    requires { (p ≤ e) × (e ≤ length s.now) × (room < columns_in s.now p e) }
    ensures { Reaches s.now p e room result }
{
    let over = over_eights(s, p, e, room);
    let mut i = over.at;
    let mut left = over.left;
    loop {
        let n = column_of(s[i]);
        if left < n {
            return i;
        }
        left -= n;
        i += 1;
    }
}

// The same; where each byte of the stretch is a column, it need not be looked for.
fn place_of(s: &[u8], p: usize, e: usize, columns: usize, room: usize) -> usize
    requires { (p ≤ e) × (e ≤ length s.now) × (columns ≡ columns_in s.now p e) × (room < columns) }
    ensures { Reaches s.now p e room result }
{
    if columns == e - p {
        p + room
    } else {
        place_after(s, p, e, room)
    }
}

// The columns before a stretch's next word, where it has taken so many at a place near it.
fn columns_before(
    s: &[u8],
    p: usize,
    e: usize,
    columns: usize,
    at: usize,
    room: usize,
    next: usize,
) -> usize
    requires { (p ≤ next) × (next ≤ e) × (e ≤ length s.now) × (length s.now ≤ 2 ^ 20) × (columns ≡ columns_in s.now p e) × Reaches s.now p e room at }
    ensures { result ≡ columns_in s.now p next }
{
    if columns == e - p {
        next - p
    } else if next <= at {
        room - columns_between(s, next, at)
    } else {
        room + columns_between(s, at, next)
    }
}

// The words of a stretch that go on a fresh line and end by a place, where not all of them do.
fn cut_line(s: &[u8], p: usize, e: usize, at: usize) -> Cut
    requires { Inked s.now p e × (p ≤ at) × (at < e) }
    ensures { CutIs s.now p e at result }
{
    let q = last_space(s, p, at);
    if p < q {
        let end = before_spaces(s, p, q);
        return Cut {
            end,
            next: over_spaces(s, q + 1, e),
        };
    }
    let z = first_space(s, at + 1, e);
    if z == e {
        return Cut { end: e, next: e };
    }
    Cut {
        end: z,
        next: over_spaces(s, z + 1, e),
    }
}

// Bytes of the notes, written after k bytes.
fn put_at(s: &[u8], from: usize, to: usize, out: &mut [u8], k: usize) -> usize
    requires { (from ≤ to) × (to ≤ length s.now) × (length s.now ≤ 2 ^ 20) × (k < 2 ^ 63) }
    ensures { Wrote out.old k (slice from to s.now) out.new result }
{
    let place = k.min(out.len());
    k + output::put_text(s, from, to, &mut out[place..])
}

// A new line, after k bytes.
fn break_at(s: &[u8], indent: Margin, out: &mut [u8], k: usize) -> usize
    requires { MarginIn (length s.now) indent × (length s.now ≤ 2 ^ 20) × (k < 2 ^ 63) }
    ensures { Wrote out.old k (line_feed ++ margin_of s.now indent) out.new result × (result ≤ k + 2 ^ 33) }
{
    let place = k.min(out.len());
    k + output::put_break(s, indent, &mut out[place..])
}

// A line of output after k bytes: bytes of the notes, and a new line.
fn put_line(s: &[u8], from: usize, to: usize, indent: Margin, out: &mut [u8], k: usize) -> usize
    requires { (from ≤ to) × (to ≤ length s.now) × MarginIn (length s.now) indent × (length s.now ≤ 2 ^ 20) × (k < 2 ^ 62 + 2 ^ 61) }
    ensures { Wrote out.old k (slice from to s.now ++ (line_feed ++ margin_of s.now indent)) out.new result × (result ≤ k + 2 ^ 34) }
{
    let j = put_at(s, from, to, out, k);
    break_at(s, indent, out, j)
}

// A stretch of so many columns on fresh lines.
fn fill(
    s: &[u8],
    from: usize,
    e: usize,
    columns: usize,
    counts: bool,
    g: Setting,
    indent: Margin,
    t: Reached,
    out: &mut [u8],
) -> Reached
    requires { Inked s.now from e × (columns ≡ columns_in s.now from e) × Even g.uniform s.now from e × MarginIn (length s.now) indent × (length s.now ≤ 2 ^ 20) × (t.written < 2 ^ 62 + 2 ^ 60) × (t.column < 2 ^ 61) × (g.indent < 2 ^ 61) }
    ensures { Filled s.now from e counts g (margin_of s.now indent) t.column out.old t.written out.new result }
{
    let mut p = from;
    let mut k = t.written;
    let mut column = t.column;
    let mut counting = counts;
    let mut left = columns;
    while g.width < column + left {
        let room = g.width.saturating_sub(column);
        let at = place_of(s, p, e, left, room);
        let cut = cut_line(s, p, e, at);
        if cut.next == e {
            break;
        }
        k = put_line(s, p, cut.end, indent, out, k);
        left -= columns_before(s, p, e, left, at, room, cut.next);
        p = cut.next;
        column = g.indent;
        counting = true;
    }
    Reached {
        written: put_at(s, p, e, out, k),
        column: column + left,
        ..t
    }
}

// The spaces between a line's last word and the next line's first.
fn added_of(punct: bool) -> usize
    ensures { (result ≡ added punct) × (result ≤ 2) }
{
    if punct { 2 } else { 1 }
}

// Added spaces, after k bytes.
fn spaces_at(count: usize, out: &mut [u8], k: usize) -> usize
    requires { (count ≤ 2) × (k < 2 ^ 63) }
    ensures { Wrote out.old k (replicate count 32) out.new result × (result ≤ k + 2) }
{
    let place = k.min(out.len());
    k + output::put_added(count, &mut out[place..])
}

// The next line's stretch of so many columns, after a line of output that has begun.
fn join(
    s: &[u8],
    p: usize,
    e: usize,
    columns: usize,
    g: Setting,
    indent: Margin,
    t: Reached,
    out: &mut [u8],
) -> Reached
    requires { Inked s.now p e × (columns ≡ columns_in s.now p e) × Even g.uniform s.now p e × MarginIn (length s.now) indent × (length s.now ≤ 2 ^ 20) × (t.written < 2 ^ 62 + 2 ^ 59) × (t.column < 2 ^ 60) × (g.indent < 2 ^ 60) × (g.width < 2 ^ 60) }
    ensures { Joined s.now p e t.punct g (margin_of s.now indent) t.column out.old t.written out.new result }
{
    let extra = added_of(t.punct);
    let begin = t.column + extra;
    let k = t.written;
    if begin + columns <= g.width {
        let j = spaces_at(extra, out, k);
        return Reached {
            written: put_at(s, p, e, out, j),
            column: begin + columns,
            ..t
        };
    }
    let room = g.width.saturating_sub(begin);
    let at = place_of(s, p, e, columns, room);
    let q = last_space(s, p, at);
    if p < q {
        let end = before_spaces(s, p, q);
        let next = over_spaces(s, q + 1, e);
        let left = columns - columns_before(s, p, e, columns, at, room, next);
        let i = spaces_at(extra, out, k);
        let j = put_line(s, p, end, indent, out, i);
        let fresh = Reached {
            written: j,
            column: g.indent,
            ..t
        };
        return fill(s, next, e, left, true, g, indent, fresh, out);
    }
    let fresh = Reached {
        written: break_at(s, indent, out, k),
        column: g.indent,
        ..t
    };
    fill(s, p, e, columns, true, g, indent, fresh, out)
}

// The end of the regular bytes at a place, at the latest another place.
fn regular_end(s: &[u8], from: usize, end: usize) -> usize
    requires { (from ≤ end) × (end ≤ length s.now) }
    ensures { RegularTo s.now from end result }
{
    let mut i = regular_eights(s, regular_sixteens(s, from, end), end);
    while i < end {
        let b = s[i];
        if b < 32 {
            return i;
        }
        if 127 < b {
            return i;
        }
        i += 1;
    }
    i
}

// On over regular bytes, as long as the next sixteen are.
fn regular_sixteens(s: &[u8], from: usize, end: usize) -> usize
    requires { (from ≤ end) × (end ≤ length s.now) }
    ensures { (from ≤ result) × (result ≤ end) × EachRegular s.now from result }
{
    let mut i = from;
    while 16 <= end - i {
        if are_regular(s, i) {
            i += 16;
        } else {
            return i;
        }
    }
    i
}

// Whether the sixteen bytes at a place are regular: without a branch between them the compiler tests them as one.
fn are_regular(s: &[u8], i: usize) -> bool
    requires { (i ≤ length s.now) × (16 ≤ length s.now - i) }
    ensures { result ≡ true → EachRegular s.now i (i + 16) }
{
    let mut all = true;
    let mut k = 0;
    while k < 16 {
        let at = i + k;
        all = all & (32 <= s[at]) & (s[at] < 128);
        k += 1;
    }
    all
}

// On over regular bytes, eight at a time, up to one that is not regular or the last eight.
fn regular_eights(s: &[u8], from: usize, end: usize) -> usize
    requires { (from ≤ end) × (end ≤ length s.now) }
    ensures { (from ≤ result) × (result ≤ end) × EachRegular s.now from result }
{
    let mut i = from;
    while 8 <= end - i {
        let n = text::printable_among(s, i);
        i += n;
        if n < 8 {
            return i;
        }
    }
    i
}

// Whether a line ends at a place: its line feed stands there, or the paragraph ends.
fn ends_line(s: &[u8], at: usize, next: usize) -> bool
    requires { (at ≤ next) × (next ≤ length s.now) }
    ensures { result ≡ true → at < next → get_or s.now at 0 ≡ 10 }
{
    at == next || s[at] == 10
}

// The place after a line that ends at a place: after its line feed, unless the paragraph ends there.
fn behind_line(end: usize, next: usize) -> usize
    requires { next < 2 ^ 32 }
    ensures { (end < next → result ≡ end + 1) × (next ≤ end → result ≡ end) }
{
    if end < next { end + 1 } else { end }
}

// The end of the regular bytes and letters of two bytes at a place, at the latest another place.
fn letters_end(s: &[u8], from: usize, end: usize) -> Letters
    requires { (from ≤ end) × (end ≤ length s.now) }
    ensures { SpelledTo s.now from end result }
{
    let part = &s[..end];
    let mut i = from;
    let mut count = 0;
    while i < end {
        let b = s[i];
        if (32 <= b) & (b < 128) {
            i += 1;
        } else if text::is_letter(part, i) {
            i += 2;
            count += 1;
        } else {
            return Letters { end: i, count };
        }
    }
    Letters { end: i, count }
}

// The same where the regular bytes of a line end, as most lines do there.
fn letters_after(s: &[u8], at: usize, next: usize) -> Letters
    requires { (at ≤ next) × (next ≤ length s.now) }
    ensures { SpelledTo s.now at next result }
{
    if ends_line(s, at, next) {
        Letters { end: at, count: 0 }
    } else {
        letters_end(s, at, next)
    }
}

// The line at a place of a paragraph, if it is of regular bytes and letters of two, and its gaps are written as they are.
fn row_at(s: &[u8], i: usize, next: usize, skip: usize, later: usize, o: Options) -> Option<Row>
    requires { (i < next) × (next ≤ length s.now) × (length s.now ≤ 2 ^ 20) × AllBegin o.glue skip later (lines_of (slice i next s.now)) }
    ensures { IfSome result (λ r. (block : List ℕ) → RowIs (meant block o) skip later s.now next i r) }
{
    let from = i + skip;
    let at = regular_end(s, from, next);
    let letters = letters_after(s, at, next);
    let end = before_spaces(s, from, letters.end);
    if !ends_line(s, letters.end, next) || !are_as_written(s, from, end, o.uniform) {
        return None;
    }
    Some(Row {
        from,
        end,
        columns: end - from - letters.count,
        next: behind_line(letters.end, next),
    })
}

// Whether the gaps between two places are written as they are.
fn are_as_written(s: &[u8], from: usize, end: usize, uniform: bool) -> bool
    requires { (from ≤ end) × (end ≤ length s.now) }
    ensures { result ≡ true → Even uniform s.now from end }
{
    !uniform || are_even(s, from, end)
}

// Whether they are as uniform has them: one space, or two after the end of a sentence.
fn are_even(s: &[u8], from: usize, end: usize) -> bool
    requires { (from ≤ end) × (end ≤ length s.now) }
    ensures { result ≡ true → evenly 0 0 (slice from end s.now) ≡ true }
{
    let mut p = 0u8;
    let mut q = 0u8;
    for i in from..end {
        let b = s[i];
        if !is_even(p, q, b) {
            return false;
        }
        p = q;
        q = b;
    }
    true
}

// Whether a byte after p and q is no second space, unless p ends a sentence.
fn is_even(p: u8, q: u8, b: u8) -> bool
    ensures { result ≡ is_even p q b }
{
    !((q == 32) & (b == 32)) || is_punct(p)
}

fn is_punct(b: u8) -> bool
    ensures { result ≡ punct_code b }
{
    matches!(b, 33 | 46 | 63)
}

// The stretch of a paragraph's next line, if it has a word.
fn next_row(
    s: &[u8],
    from: usize,
    e: usize,
    columns: usize,
    g: Setting,
    indent: Margin,
    t: Reached,
    out: &mut [u8],
) -> Reached
    requires { (from ≤ e) × (e ≤ length s.now) × (from < e → Inked s.now from e) × (columns ≡ columns_in s.now from e) × Even g.uniform s.now from e × MarginIn (length s.now) indent × (length s.now ≤ 2 ^ 20) × (t.written < 2 ^ 62 + 2 ^ 59) × Stands t × (g.indent < 2 ^ 31) × (g.width < 2 ^ 31) }
    ensures { Went s.now from e g (margin_of s.now indent) out.old t out.new result }
{
    if from == e {
        return t;
    }
    if t.begins {
        return head_row(s, from, e, columns, g, indent, t, out);
    }
    let r = join(s, from, e, columns, g, indent, t, out);
    let last = e - 1;
    Reached {
        punct: is_punct(s[last]),
        begins: false,
        ..r
    }
}

// The stretch with a paragraph's first word.
fn head_row(
    s: &[u8],
    from: usize,
    e: usize,
    columns: usize,
    g: Setting,
    indent: Margin,
    t: Reached,
    out: &mut [u8],
) -> Reached
    requires { Inked s.now from e × (columns ≡ columns_in s.now from e) × Even g.uniform s.now from e × MarginIn (length s.now) indent × (length s.now ≤ 2 ^ 20) × (t.written < 2 ^ 62 + 2 ^ 59) × (t.begins ≡ true) × (t.column < 2 ^ 31) × (g.indent < 2 ^ 31) }
    ensures { Went s.now from e g (margin_of s.now indent) out.old t out.new result }
{
    let r = fill(s, from, e, columns, false, g, indent, t, out);
    Reached {
        punct: head_punct(s, from, e),
        begins: false,
        ..r
    }
}

// The mark that counts after a stretch with a paragraph's first word.
fn head_punct(s: &[u8], from: usize, e: usize) -> bool
    requires { Inked s.now from e }
    ensures { result ≡ fresh_punct false (slice from e s.now) }
{
    let last = e - 1;
    first_space(s, from, e) != e && is_punct(s[last])
}

// Whether the notes have so many spaces between two places, and nothing else; of two spaces nothing is said.
fn is_gap(s: &[u8], to: usize, from: usize, count: usize) -> bool
    requires { (to ≤ length s.now) × (from ≤ length s.now) × (length s.now ≤ 2 ^ 20) }
    ensures { result ≡ true → GapIn s.now to from count }
{
    if from == to {
        count == 0
    } else {
        count == 1 && from == to + 1 && s[to] == 32
    }
}

// A word of any kind. Words wait for those after them, so that a line of output is copied at once.
// In the original: `accum_words_simple`.
fn put_word(s: &[u8], w: Word, g: Setting, indent: Margin, t: Waiting, out: &mut [u8]) -> Waiting
    requires { Within (length s.now) w × Small w × (w.width ≤ length s.now) × Fair g × MarginIn (length s.now) indent × (length s.now ≤ 2 ^ 20) × (t.from ≤ t.to) × (t.to ≤ length s.now) × (t.reached.written < 2 ^ 62 + 2 ^ 59) × Stands t.reached × (g.indent < 2 ^ 31) × (g.width < 2 ^ 31) }
    ensures { WordPut s.now w g (margin_of s.now indent) out.old t out.new result }
{
    let r = t.reached;
    if r.begins {
        let j = put_at(s, t.from, t.to, out, r.written);
        return Waiting {
            from: w.start,
            to: w.end,
            reached: Reached {
                written: j,
                column: r.column + w.width,
                punct: false,
                begins: false,
            },
        };
    }
    let column = quick::reach(g, r.column, r.punct, w);
    if g.width < column {
        let j = put_line(s, t.from, t.to, indent, out, r.written);
        return Waiting {
            from: w.start,
            to: w.end,
            reached: Reached {
                written: j,
                column: g.indent + w.width,
                punct: w.punct,
                begins: false,
            },
        };
    }
    let here = Reached {
        column,
        punct: w.punct,
        ..r
    };
    let added = spacing::added_space(g.uniform, w.first, w.sentence, r.punct);
    if is_gap(s, t.to, w.from, added) {
        return Waiting {
            from: t.from,
            to: w.end,
            reached: here,
        };
    }
    let i = put_at(s, t.from, t.to, out, r.written);
    let j = spaces_at(added, out, i);
    Waiting {
        from: w.from,
        to: w.end,
        reached: Reached { written: j, ..here },
    }
}

// The words of a table, one by one.
// In the original: `break_simple`.
fn put_listed(
    s: &[u8],
    table: &[u32],
    n: usize,
    g: Setting,
    indent: Margin,
    t: Waiting,
    out: &mut [u8],
) -> Waiting
    requires { Kept n (length s.now) n table.now × (n ≤ 2 ^ 20) × Fair g × MarginIn (length s.now) indent × (length s.now ≤ 2 ^ 20) × (t.from ≤ t.to) × (t.to ≤ length s.now) × (t.reached.written < 2 ^ 62 + 2 ^ 58) × Stands t.reached × (g.indent < 2 ^ 31) × (g.width < 2 ^ 31) }
    ensures { Listed s.now table.now n g (margin_of s.now indent) out.old t out.new n result }
{
    let mut v = t;
    for j in 0..n {
        v = put_word(s, records::get(table, j), g, indent, v, out);
    }
    v
}

// The numbers of a table for sixteen words, which go through it in their order.
const WINDOW: usize = 112;

const IN_WINDOW: usize = 16;

// The words of a line from start up to end.
fn put_words(
    s: &[u8],
    start: usize,
    end: usize,
    mail: bool,
    o: Options,
    g: Setting,
    indent: Margin,
    t: Reached,
    out: &mut [u8],
) -> Reached
    requires { (start ≤ end) × (end ≤ length s.now) × (length s.now ≤ 2 ^ 20) × (1 ≤ o.tab) × (o.tab ≤ 100) × (mail ≡ false → while is_blank (ink_glyphs o.glue (slice start end s.now)) ≡ []) × Fair g × MarginIn (length s.now) indent × (t.written < 2 ^ 62 + 2 ^ 57) × Stands t × (g.indent < 2 ^ 31) × (g.width < 2 ^ 31) }
    ensures { Worded s.now start end mail o g (margin_of s.now indent) out.old t out.new result }
{
    let mut table = [0u32; WINDOW];
    put_through(s, start, end, mail, o, g, indent, t, out, &mut table)
}

// The same through a table of sixteen.
fn put_through(
    s: &[u8],
    start: usize,
    end: usize,
    mail: bool,
    o: Options,
    g: Setting,
    indent: Margin,
    t: Reached,
    out: &mut [u8],
    table: &mut [u32],
) -> Reached
    requires { (start ≤ end) × (end ≤ length s.now) × (length s.now ≤ 2 ^ 20) × (1 ≤ o.tab) × (o.tab ≤ 100) × (mail ≡ false → while is_blank (ink_glyphs o.glue (slice start end s.now)) ≡ []) × Fair g × MarginIn (length s.now) indent × (t.written < 2 ^ 62 + 2 ^ 57) × Stands t × (g.indent < 2 ^ 31) × (g.width < 2 ^ 31) × Holds 16 table.old }
    ensures { Worded s.now start end mail o g (margin_of s.now indent) out.old t out.new result }
{
    let mut at = start;
    let mut first = !mail;
    let mut punct = false;
    let mut v = Waiting {
        from: start,
        to: start,
        reached: t,
    };
    loop {
        let r = words::split_some(s, at, end, mail, first, punct, o, 0, IN_WINDOW, table);
        v = put_listed(s, table, r.count, g, indent, v, out);
        if !r.more {
            return Reached {
                written: put_at(s, v.from, v.to, out, v.reached.written),
                ..v.reached
            };
        }
        at = r.at;
        first = r.first;
        punct = r.punct;
    }
}

// The line at a place of a paragraph, word by word.
fn put_other(
    s: &[u8],
    i: usize,
    next: usize,
    mail: bool,
    skip: usize,
    later: usize,
    o: Options,
    g: Setting,
    indent: Margin,
    t: Reached,
    out: &mut [u8],
) -> Progress
    requires { (i < next) × (next ≤ length s.now) × (length s.now ≤ 2 ^ 20) × (1 ≤ o.tab) × (o.tab ≤ 100) × (mail ≡ false → AllBegin o.glue skip later (lines_of (slice i next s.now))) × Fair g × MarginIn (length s.now) indent × (t.written < 2 ^ 62 + 2 ^ 57) × Stands t × (g.indent < 2 ^ 31) × (g.width < 2 ^ 31) }
    ensures { RowPut s.now i next mail skip later o g (margin_of s.now indent) out.old t out.new result }
{
    let part = &s[..next];
    let line = lines::first_line(&part[i..]);
    let start = words::begin(mail, i, skip);
    let end = i + line.text;
    Progress {
        at: i + line.whole,
        reached: put_words(s, start, end, mail, o, g, indent, t, out),
    }
}

// The line at a place of a paragraph: by its stretch if it is regular, as no line of mail is.
fn put_row(
    s: &[u8],
    i: usize,
    next: usize,
    mail: bool,
    skip: usize,
    later: usize,
    o: Options,
    g: Setting,
    indent: Margin,
    t: Reached,
    out: &mut [u8],
) -> Progress
    requires { (i < next) × (next ≤ length s.now) × (length s.now ≤ 2 ^ 20) × (1 ≤ o.tab) × (o.tab ≤ 100) × (mail ≡ false → AllBegin o.glue skip later (lines_of (slice i next s.now))) × (g.uniform ≡ (o.uniform || mail)) × Fair g × MarginIn (length s.now) indent × (t.written < 2 ^ 62 + 2 ^ 57) × Stands t × (g.indent < 2 ^ 31) × (g.width < 2 ^ 31) }
    ensures { RowPut s.now i next mail skip later o g (margin_of s.now indent) out.old t out.new result }
{
    if !mail && let Some(row) = row_at(s, i, next, skip, later, o) {
        return Progress {
            at: row.next,
            reached: next_row(s, row.from, row.end, row.columns, g, indent, t, out),
        };
    }
    put_other(s, i, next, mail, skip, later, o, g, indent, t, out)
}

// A paragraph's lines.
fn put_rows(
    s: &[u8],
    at: usize,
    next: usize,
    mail: bool,
    start: usize,
    later: usize,
    o: Options,
    g: Setting,
    indent: Margin,
    t: Reached,
    out: &mut [u8],
) -> Reached
    requires { (at ≤ next) × (next ≤ length s.now) × (length s.now ≤ 2 ^ 20) × (1 ≤ o.tab) × (o.tab ≤ 100) × (mail ≡ false → AllBegin o.glue start later (lines_of (slice at next s.now))) × (g.uniform ≡ (o.uniform || mail)) × Fair g × MarginIn (length s.now) indent × (t.written < 2 ^ 62 + 2 ^ 56) × Stands t × (g.indent < 2 ^ 31) × (g.width < 2 ^ 31) }
    ensures { Rowed s.now at next mail start later o g (margin_of s.now indent) out.old t out.new result }
{
    let mut i = at;
    let mut skip = start;
    let mut v = t;
    while i < next {
        let r = put_row(s, i, next, mail, skip, later, o, g, indent, v, out);
        v = r.reached;
        i = r.at;
        skip = later;
    }
    v
}

// An indent, after k bytes.
fn margin_at(s: &[u8], m: Margin, out: &mut [u8], k: usize) -> usize
    requires { MarginIn (length s.now) m × (length s.now ≤ 2 ^ 20) × (k < 2 ^ 63) }
    ensures { Wrote out.old k (margin_of s.now m) out.new result × (result ≤ k + 2 ^ 33) }
{
    let place = k.min(out.len());
    k + output::put_margin(s, m, &mut out[place..])
}

// A line feed, after k bytes.
fn feed_at(out: &mut [u8], k: usize) -> usize
    requires { k < 2 ^ 63 }
    ensures { Wrote out.old k line_feed out.new result }
{
    let place = k.min(out.len());
    k + output::put_feed(&mut out[place..])
}

// A paragraph by quick, which has a word.
// In the original: `break_simple`.
pub fn put_quick(
    s: &[u8],
    at: usize,
    next: usize,
    mail: bool,
    start: usize,
    later: usize,
    o: Options,
    g: Setting,
    first: Margin,
    indent: Margin,
    out: &mut [u8],
    written: usize,
) -> usize
    requires { (at ≤ next) × (next ≤ length s.now) × (length s.now ≤ 2 ^ 20) × (1 ≤ o.tab) × (o.tab ≤ 100) × (mail ≡ false → AllBegin o.glue start later (lines_of (slice at next s.now))) × (g.uniform ≡ (o.uniform || mail)) × Fair g × MarginIn (length s.now) first × MarginIn (length s.now) indent × (written < 2 ^ 62) × (g.first < 2 ^ 31) × (g.indent < 2 ^ 31) × (g.width < 2 ^ 31) }
    ensures { PutIs s.now at next mail start later o g (margin_of s.now first) (margin_of s.now indent) out.old written out.new result }
{
    let k = margin_at(s, first, out, written);
    let t = Reached {
        written: k,
        column: g.first,
        punct: false,
        begins: true,
    };
    let v = put_rows(s, at, next, mail, start, later, o, g, indent, t, out);
    feed_at(out, v.written)
}
