// Rounds over a list of the active breaks, which any gap will do for: each break has its own line, and loses the last round's reduction.
ghost use Rattle.std.specs.Prelude.{◌≡◌, List, map, ℕ, ◌+◌, ◌-◌, ◌*◌, ◌<◌, ◌≤◌, ◌^◌, length, get_or, set};
ghost use Rattle.records.specs.Cited.Table.{Small};
ghost use Rattle.knuth_plass.specs.KnuthPlass.{reduced};
ghost use Rattle.knuth_plass.specs.Cited.Table as T;
ghost use Rattle.knuth_plass.specs.Cited.Round as R;

use super::goals::{Goals, Round};
use super::store::{bits_of, get_break, keep_break, lesser, number, store_break};
use super::turns::{
    NO_OFFER, NOTHING, START, extended, offered, reach, restarted, round_of, sentence_behind,
};
use super::{Best, Break, Standing, State};
use records::Word;

// The number of the k-th active break. It is in record k, in the one place that is not the record's own.
pub fn active(breaks: &[u32], k: usize) -> usize
    requires { k < length (T.active_in breaks.now) }
    ensures { result ≡ get_or (T.active_in breaks.now) k 0 }
{
    number(breaks, k, 2)
}

// Break n is the k-th active one.
fn put_active(breaks: &mut [u32], k: usize, n: usize)
    requires { (k * 8 + 8 ≤ length breaks.old) × (n < 2 ^ 32) }
    ensures { breaks.new ≡ T.with_active breaks.old k n }
{
    let at = k * 8 + 2;
    breaks[at] = n as u32;
}

pub fn lessened(b: Break, reduction: u64) -> Break
    ensures { result ≡ R.lessened reduction b }
{
    Break {
        demerits: b.demerits.saturating_sub(reduction),
        ..b
    }
}

// The first least break so far, when break n has these demerits.
fn noted(s: State, n: usize, demerits: u64) -> State
    ensures { result ≡ R.noted s n demerits }
{
    if demerits < s.least {
        State {
            from: n,
            least: demerits,
            ..s
        }
    } else {
        s
    }
}

// Break n, which is b, stays active with the word on its line of t columns.
fn keep(breaks: &mut [u32], n: usize, b: Break, t: usize, s: State, best: Best) -> State
    requires { R.Keeps n t s.kept breaks.old }
    ensures { (breaks.new ≡ T.with_active (T.with_line breaks.old n (R.extended t b)) s.kept n) × (result ≡ R.stays s best) }
{
    let kept = s.kept;
    keep_break(breaks, n, extended(b, t));
    put_active(breaks, kept, n);
    State {
        kept: kept + 1,
        best,
        ..s
    }
}

// One turn of a round: the k-th active break loses the reduction and gets the word on its line. It stays active, and may offer, where
// the line is no longer than the width.
// In the original: `find_kp_breakpoints`.
fn visit(r: &Round, st: Standing, breaks: &mut [u32], k: usize, s: State) -> State
    requires { R.Fit r.now.turn st k (T.table_in breaks.old) (T.active_in breaks.old) s × (k < st.count) }
    ensures { R.Fit r.now.turn st (k + 1) (T.table_in breaks.new) (T.active_in breaks.new) result × ((z : R.Outcome) → R.RoundGoes r.now.goals.setting r.now.turn st z k (T.table_in breaks.old) (T.active_in breaks.old) s → R.RoundGoes r.now.goals.setting r.now.turn st z (k + 1) (T.table_in breaks.new) (T.active_in breaks.new) result) }
{
    let n = active(breaks, k);
    let b = lessened(get_break(breaks, n), st.reduction);
    let t = reach(r, b);
    let seen = noted(s, n, b.demerits);
    // Most lines are too short to end here, so that this is asked first.
    if t < r.goals.minimum() {
        return keep(breaks, n, b, t, seen, s.best);
    }
    if r.goals.setting.width < t {
        return seen;
    }
    let better = offered(r, n, b, t, s.best);
    keep(breaks, n, b, t, seen, better)
}

// A round over all active breaks.
// In the original: `find_kp_breakpoints`.
pub fn advance(r: &Round, st: Standing, breaks: &mut [u32]) -> State
    requires { (r.now.turn.number < length (T.table_in breaks.old)) × R.RoundReady r.now.turn.number st (T.table_in breaks.old) (T.active_in breaks.old) }
    ensures { R.Fit r.now.turn st st.count (T.table_in breaks.new) (T.active_in breaks.new) result × ((notes : List ℕ) → R.Done r.now.goals.setting r.now.turn st (map (reduced st.reduction) (R.breaks_listed st.count (T.table_in breaks.old) (T.active_in breaks.old))) (T.table_in breaks.new) (T.active_in breaks.new) result notes) }
{
    let first = active(breaks, 0);
    let b = lessened(get_break(breaks, first), st.reduction);
    let mut s = State {
        kept: 0,
        from: first,
        least: b.demerits,
        best: NO_OFFER,
    };
    for k in 0..st.count {
        s = visit(r, st, breaks, k, s);
    }
    s
}

// One break more, active last.
fn append(breaks: &mut [u32], size: usize, kept: usize, b: Break)
    requires { (size < length (T.table_in breaks.old)) × (kept < length (T.table_in breaks.old)) × (size < T.most_words) × T.Fits b }
    ensures { (T.table_in breaks.new ≡ T.with_break (T.table_in breaks.old) size b) × (T.active_in breaks.new ≡ set (T.active_in breaks.old) kept size) }
{
    store_break(breaks, size, b);
    put_active(breaks, kept, size);
}

// The end of a round: the best offer becomes one break more; where nothing stays, one break begins again.
// In the original: `find_kp_breakpoints`.
pub fn settle(r: &Round, st: Standing, breaks: &mut [u32], s: State) -> Standing
    requires { R.Fit r.now.turn st st.count (T.table_in breaks.old) (T.active_in breaks.old) s }
    ensures { R.Settled r.now.goals.setting r.now.turn st (T.table_in breaks.old) (T.active_in breaks.old) s (T.table_in breaks.new) (T.active_in breaks.new) result }
{
    let kept = s.kept;
    let best = s.best;
    let size = st.size;
    if best.total < NOTHING {
        let b = Break {
            previous: best.previous,
            word: r.turn.number,
            before: false,
            demerits: best.total,
            ratio: bits_of(best.ratio),
            columns: r.goals.setting.indent,
            fresh: true,
        };
        append(breaks, size, kept, b);
        return Standing {
            count: kept + 1,
            size: size + 1,
            reduction: s.least,
        };
    }
    if 0 < kept {
        return Standing {
            count: kept,
            size,
            reduction: s.least,
        };
    }
    // Nothing was stored for a break that did not stay: the least one is as it was.
    let least = lessened(get_break(breaks, s.from), st.reduction);
    append(breaks, size, 0, restarted(r, s.from, least));
    Standing {
        count: 1,
        size: size + 1,
        reduction: 0,
    }
}

// The round of word i.
// In the original: `find_kp_breakpoints`.
fn round(
    g: Goals,
    word: Word,
    i: usize,
    last: bool,
    sentence: bool,
    st: Standing,
    breaks: &mut [u32],
) -> Standing
    requires { (i < length (T.table_in breaks.old)) × Small word × (word.width < 2 ^ 31) × R.RoundReady i st (T.table_in breaks.old) (T.active_in breaks.old) }
    ensures { R.RoundIs g.setting last sentence i word st (T.table_in breaks.old) (T.active_in breaks.old) (T.table_in breaks.new) (T.active_in breaks.new) result }
{
    // Not the spacing that is written later: the previous word's punctuation does not count here.
    let space = spacing::added_space(g.setting.uniform, word.first, sentence, false);
    let r = round_of(g, word, i, space, last);
    let s = advance(&r, st, breaks);
    settle(&r, st, breaks, s)
}

// The paragraph's start: its one break is active, and the line that it begins has the first word.
pub fn begin(g: Goals, work: &mut [u32], n: usize) -> Standing
    requires { (1 ≤ n) × R.Lent n work.old × R.AllNarrow n work.old }
    ensures { R.Begun g.setting n work.old (T.table_in (T.records_part n work.new)) (T.active_in (T.records_part n work.new)) result × R.Worked n work.old work.new }
{
    let base = n * 7;
    let end = n * 15;
    let w = records::get(work, 0);
    let first = Break {
        columns: g.setting.first + w.width,
        ..START
    };
    append(&mut work[base..end], 0, 0, first);
    Standing {
        count: 1,
        size: 1,
        reduction: 0,
    }
}

// One round for each word after the first.
// In the original: `find_kp_breakpoints`.
pub fn rounds(g: Goals, work: &mut [u32], n: usize) -> Standing
    requires { (1 ≤ n) × R.Lent n work.old × R.AllNarrow n work.old }
    ensures { R.RoundsAre g.setting n work.old (T.table_in (T.records_part n work.new)) (T.active_in (T.records_part n work.new)) result × R.Worked n work.old work.new }
{
    let base = n * 7;
    let end = n * 15;
    let mut st = begin(g, work, n);
    let mut sentence = false;
    for i in 1..n {
        let word = records::get(work, i);
        st = round(g, word, i, i + 1 == n, sentence, st, &mut work[base..end]);
        sentence = sentence_behind(work, n, i);
    }
    st
}

// The first active break of least demerits.
// In the original: `build_best_path`.
pub fn least(breaks: &[u32], st: Standing) -> usize
    requires { R.Listed st (T.table_in breaks.now) (T.active_in breaks.now) }
    ensures { R.LeastIs st (T.table_in breaks.now) (T.active_in breaks.now) result }
{
    let mut found = active(breaks, 0);
    for k in 1..st.count {
        let n = active(breaks, k);
        found = lesser(breaks, found, n);
    }
    found
}
