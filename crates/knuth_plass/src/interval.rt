// Knuth-Plass where no gap has a tab: the active breaks are an interval of the table, and a round changes none of its records. A record's
// columns are its base: the column of one endless line at which its own line begins, less the indent.
ghost use Rattle.std.specs.Prelude.{◌≡◌, cond, true, false, ◌+◌, ◌-◌, ◌*◌, ◌<◌, ◌≤◌, ◌^◌, length};
ghost use Rattle.std.proofs.Math.Dec as D;
ghost use Rattle.records.specs.Cited.Table.{Holds, Room};
ghost use Rattle.spacing.specs.Cited.Bounds.{AddedIs};
ghost use Rattle.demerits.specs.Cited.Bounds.{within};
ghost use Rattle.knuth_plass.specs.Cited.Table as T;
ghost use Rattle.knuth_plass.specs.Cited.Round as R;
ghost use Rattle.knuth_plass.specs.Cited.Interval as I;

use super::goals::{Goals, Round};
use super::store::{bits_of, get_break, lesser, number, store_break};
use super::turns::{NO_OFFER, START, either, extended, offered, restarted, round_of};
use super::{Best, Break};
use records::Word;

// Between rounds: the active breaks are the records from head up to size, and all words so far are on an endless line of so many columns.
#[derive(Clone, Copy, Debug, PartialEq, Eq)]
pub struct Interval {
    pub head: usize,
    pub size: usize,
    pub line: usize,
}

// The word that the skipped words end before, and the columns of the endless line with them.
#[derive(Clone, Copy, Debug, PartialEq, Eq)]
pub struct Skipped {
    pub word: usize,
    pub line: usize,
}

// ---- where the breaks are an interval

// Whether no word after the first has a tab in its gap, and the whole paragraph on one line is short enough for a record.
fn fits_one_line(work: &[u32], n: usize, first: usize) -> bool
    requires { (first < 2 ^ 31) × (n ≤ T.most_words) × Holds n work.now }
    ensures { result ≡ true → I.OneLine first n work.now }
{
    let mut line = first;
    for i in 0..n {
        let w = records::get(work, i);
        if w.before.is_some() {
            return false;
        }
        line += w.after + 2 + w.width;
    }
    line < 0x8000_0000
}

// Whether no base is below the first, which is the indent: the first line is as long already, or none may end before it is.
fn stays_low(g: Goals) -> bool
    ensures { result ≡ true → I.Low g.setting }
{
    g.setting.indent <= g.setting.first || g.setting.indent <= g.minimum()
}

// Whether the rounds of a paragraph go by an interval.
pub fn is_regular(work: &[u32], n: usize, g: Goals) -> bool
    requires { (n ≤ T.most_words) × Holds n work.now }
    ensures { result ≡ true → I.Regular g.setting n work.now }
{
    stays_low(g) && fits_one_line(work, n, g.setting.first)
}

// ---- a round

// The first of the active breaks whose line is not too long with the word, when the endless line has x columns.
fn pass(breaks: &[u32], g: Goals, x: usize, head: usize, size: usize) -> usize
    requires { (x < 2 ^ 32) × (head ≤ size) × (size ≤ length (T.table_in breaks.now)) }
    ensures { I.PassIs g.setting x head size (T.table_in breaks.now) result }
{
    let end = x + g.setting.indent;
    for k in head..size {
        if end <= g.setting.width + number(breaks, k, 6) {
            return k;
        }
    }
    size
}

// The first break of least demerits.
fn first_least(breaks: &[u32], head: usize, size: usize) -> usize
    requires { (head < size) × (size ≤ length (T.table_in breaks.now)) }
    ensures { I.FirstLeast head size (T.table_in breaks.now) result }
{
    let mut found = head;
    for k in head + 1..size {
        found = lesser(breaks, found, k);
    }
    found
}

// The best offer of a break after the word. Bases ascend: after a line that is too short to end here all are.
fn best_offer(breaks: &[u32], r: &Round, x: usize, head: usize, size: usize) -> Best
    requires { I.Stay r.now.goals.setting r.now.turn x head size (T.table_in breaks.now) }
    ensures { I.BestOffered r.now.goals.setting r.now.turn x head size (T.table_in breaks.now) result }
{
    let minimum = r.goals.minimum();
    let end = x + r.goals.setting.indent;
    let mut best = NO_OFFER;
    for k in head..size {
        let b = get_break(breaks, k);
        let t = end - b.columns;
        if t < minimum {
            return best;
        }
        best = offered(r, k, b, t, best);
    }
    best
}

// Whether record n was made after the word before word i: nothing but the indent is on its line as the round of word i begins.
fn is_fresh(i: usize, n: usize, b: Break) -> bool
    requires { b.word < T.most_words }
    ensures { result ≡ I.is_fresh i n b }
{
    n != 0 && !b.before && b.word + 1 == i
}

// Record n as an active break before the round of word i, when the endless line has p columns.
fn viewed(g: Goals, i: usize, p: usize, n: usize, b: Break) -> Break
    requires { (p < 2 ^ 31) × (b.word < T.most_words) }
    ensures { result ≡ I.view_of g.setting i p n b }
{
    let fresh = is_fresh(i, n, b);
    let indent = g.setting.indent;
    let columns = either(fresh, indent, (p + indent).saturating_sub(b.columns));
    Break {
        columns,
        fresh,
        ..b
    }
}

// The base of a new break: where its word begins, or after the word and the gap after it, which does not count on a fresh line.
fn base_of(before: bool, x: usize, width: usize, gap: usize) -> usize
    requires { (width ≤ x) × (x + gap < 2 ^ 32) }
    ensures { result ≡ cond before (x - width) (x + gap) }
{
    if before { x - width } else { x + gap }
}

// Nothing stays: the break that begins again, from the first least one. On the endless line p columns were before the word.
// In the original: `restart_active_breaks`.
fn again(breaks: &[u32], r: &Round, s: Interval, x: usize, gap: usize) -> Break
    requires { I.Leaves r.now.goals.setting r.now.turn x gap s (T.table_in breaks.now) }
    ensures { I.AgainIs r.now.goals.setting r.now.turn x gap s (T.table_in breaks.now) result }
{
    let w = r.turn.word;
    let n = first_least(breaks, s.head, s.size);
    let least = viewed(r.goals, r.turn.number, s.line, n, get_break(breaks, n));
    let b = restarted(r, n, least);
    extended(b, base_of(b.before, x, w.width, gap))
}

// The break that the best offer is, after word i.
fn made(best: Best, i: usize, base: usize) -> Break
    requires { D.T (within 1 best.ratio) }
    ensures { I.MadeIs best i base result }
{
    Break {
        previous: best.previous,
        word: i,
        before: false,
        demerits: best.total,
        ratio: bits_of(best.ratio),
        columns: base,
        fresh: false,
    }
}

// The round of word i; gap is that of the next word, which the base of a break after this one has in it.
// In the original: `find_kp_breakpoints`.
fn round(
    g: Goals,
    word: Word,
    gap: usize,
    i: usize,
    last: bool,
    sentence: bool,
    s: Interval,
    breaks: &mut [u32],
) -> Interval
    requires { I.Plain word × (i < length (T.table_in breaks.old)) × I.Between g.setting i word.after s (T.table_in breaks.old) × (s.line + (word.after + 2 + word.width) + gap < 2 ^ 31) }
    ensures { I.IntervalIs g.setting last sentence i gap word s (T.table_in breaks.old) (T.table_in breaks.new) result }
{
    let size = s.size;
    // Not the spacing that is written later: the previous word's punctuation does not count here.
    let space = spacing::added_space(g.setting.uniform, word.first, sentence, false);
    let line = s.line + word.after + space + word.width;
    let head = pass(breaks, g, line, s.head, size);
    if head == size {
        let r = round_of(g, word, i, space, last);
        let b = again(breaks, &r, s, line, gap);
        store_break(breaks, size, b);
        return Interval {
            head: size,
            size: size + 1,
            line,
        };
    }
    if last {
        // The last line costs nothing: what is offered after it changes no path.
        return Interval { head, size, line };
    }
    if line + g.setting.indent < g.minimum() + number(breaks, head, 6) {
        return Interval { head, size, line };
    }
    let r = round_of(g, word, i, space, last);
    let best = best_offer(breaks, &r, line, head, size);
    let b = made(best, i, line + gap);
    store_break(breaks, size, b);
    Interval {
        head,
        size: size + 1,
        line,
    }
}

// ---- a paragraph

// The gap before the word after word i, of n.
fn gap_behind(work: &[u32], n: usize, i: usize) -> usize
    requires { (i < n) × Holds n work.now × (n ≤ T.most_words) }
    ensures { result ≡ I.gap_after n i work.now }
{
    let next = i + 1;
    if next < n {
        records::get(work, next).after
    } else {
        0
    }
}

// The sentence mark of word i. In the round of the second word it is not read from the word, but false.
// In the original: `find_kp_breakpoints`.
fn sentence_at(work: &[u32], i: usize) -> bool
    requires { Room i work.now }
    ensures { result ≡ I.sentence_at work.now i }
{
    if i < 2 {
        return false;
    }
    let w = records::get(work, i);
    w.sentence || w.first && records::get(work, i - 1).punct
}

// The space added before word i, which is w. Few words are the first of their line: the marks of the others are not worked out.
fn space_at(work: &[u32], uniform: bool, i: usize, w: Word) -> usize
    requires { Room i work.now }
    ensures { AddedIs uniform w.first (I.sentence_at work.now i) false result }
{
    if w.first || uniform {
        spacing::added_space(uniform, w.first, sentence_at(work, i), false)
    } else {
        0
    }
}

// The least columns of the endless line at which the line of a break may end.
fn least_end(breaks: &[u32], g: Goals, head: usize) -> usize
    requires { head < length (T.table_in breaks.now) }
    ensures { (result ≡ I.least_end g.setting (T.table_in breaks.now) head) × (result < 2 ^ 33) }
{
    (g.minimum() + number(breaks, head, 6)).saturating_sub(g.setting.indent)
}

// The words from i on whose rounds change nothing but the endless line, which has p columns before them and less than low with them: the
// first active break's line is too short to end there, and so is every other. The last word, of n, is never skipped.
fn skip(work: &[u32], n: usize, uniform: bool, low: usize, i: usize, p: usize) -> Skipped
    requires { (i < n) × (n ≤ T.most_words) × Holds n work.now × (low < 2 ^ 33) }
    ensures { (result ≡ I.skipped_from uniform low work.now (n - (i + 1)) i p) × (i ≤ result.word) × (result.word < n) }
{
    // Rounds that offer follow one another: after one of them no word has to be read to see that there is nothing to skip.
    if low <= p {
        return Skipped { word: i, line: p };
    }
    let mut line = p;
    for k in i..n - 1 {
        let w = records::get(work, k);
        let end = line + w.after + space_at(work, uniform, k, w) + w.width;
        if low <= end {
            return Skipped { word: k, line };
        }
        line = end;
    }
    Skipped { word: n - 1, line }
}

// A round for each word after the first that is not skipped.
// In the original: `find_kp_breakpoints`.
fn rounds(g: Goals, work: &mut [u32], n: usize) -> Interval
    requires { (1 ≤ n) × R.Lent n work.old × R.AllNarrow n work.old × I.Regular g.setting n work.old }
    ensures { I.IntervalsAre g.setting n work.old (T.table_in (T.records_part n work.new)) result × R.Worked n work.old work.new }
{
    let base = n * 7;
    let end = n * 15;
    let w = records::get(work, 0);
    let first = Break {
        columns: g.setting.indent,
        ..START
    };
    store_break(&mut work[base..end], 0, first);
    let mut s = Interval {
        head: 0,
        size: 1,
        line: g.setting.first + w.width,
    };
    // A `for` would count the words that are skipped.
    let mut i = 1;
    while i < n {
        let low = least_end(&work[base..end], g, s.head);
        let over = skip(work, n, g.setting.uniform, low, i, s.line);
        let k = over.word;
        let word = records::get(work, k);
        let gap = gap_behind(work, n, k);
        let sentence = sentence_at(work, k);
        let here = Interval {
            line: over.line,
            ..s
        };
        s = round(
            g,
            word,
            gap,
            k,
            k + 1 == n,
            sentence,
            here,
            &mut work[base..end],
        );
        i = k + 1;
    }
    s
}

// The record that the best path ends at.
pub fn best_path(g: Goals, work: &mut [u32], n: usize) -> usize
    requires { (1 ≤ n) × R.Lent n work.old × R.AllNarrow n work.old × I.Regular g.setting n work.old }
    ensures { R.PathIs g.setting n work.old (T.table_in (T.records_part n work.new)) result × R.Worked n work.old work.new }
{
    let base = n * 7;
    let end = n * 15;
    let s = rounds(g, work, n);
    first_least(&work[base..end], s.head, s.size)
}
