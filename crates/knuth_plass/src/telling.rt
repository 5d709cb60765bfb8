// Why a line ends: the rounds over the list once more, and what made the break of a word.
ghost use Rattle.std.specs.Prelude.{◌≡◌, ◌<◌, ◌≤◌, ◌^◌, length};
ghost use Rattle.records.specs.Cited.Table.{Small};
ghost use Rattle.knuth_plass.specs.Cited.Table as T;
ghost use Rattle.knuth_plass.specs.Cited.Round as R;
ghost use Rattle.knuth_plass.specs.Cited.Makers as W;

use super::goals::{Goals, Round};
use super::listed::{active, advance, begin, lessened, settle};
use super::marking::starts;
use super::store::{get_break, ratio_of};
use super::turns::{NOTHING, either, restarted, round_of, sentence_behind};
use super::{AllTold, Break, Standing, State, Told};
use endings::Ending;
use records::Word;

// What a break that stays offers, with a word of this weight at the end of its line, if the offer has the total.
fn try_break(g: Goals, weight: u16, b: Break, total: u64) -> Option<Ending>
    requires { W.Stays weight b }
    ensures { result ≡ W.tried_of g.setting weight total b.columns (T.ratio_of b.ratio) b.demerits }
{
    if b.columns < g.minimum() || g.setting.width < b.columns {
        return None;
    }
    let ratio = demerits::ratio(g.setting.goal, b.columns, g.stretch());
    let old = ratio_of(b.ratio);
    let cost = demerits::cost(ratio, old, weight);
    if cost + b.demerits != total {
        return None;
    }
    Some(Ending::Chosen {
        columns: b.columns,
        line_term: demerits::line_term(ratio),
        word_term: weight,
        ratio_term: demerits::ratio_term(ratio, old),
        cost,
    })
}

// The first of the breaks that stay whose offer has the least total: its offer became the break.
fn chosen(g: Goals, weight: u16, breaks: &[u32], kept: usize, total: u64) -> Ending
    requires { W.Kept weight kept (T.table_in breaks.now) (T.active_in breaks.now) }
    ensures { result ≡ W.chosen_in g.setting weight total (R.breaks_listed kept (T.table_in breaks.now) (T.active_in breaks.now)) }
{
    for k in 0..kept {
        let b = get_break(breaks, active(breaks, k));
        if let Some(e) = try_break(g, weight, b, total) {
            return e;
        }
    }
    Ending::Paragraph
}

// The break that begins again where nothing stays is before the word or after it.
fn forced(r: &Round, st: Standing, breaks: &[u32], from: usize) -> Ending
    requires { W.From r.now.turn st from (T.table_in breaks.now) }
    ensures { W.ForcedIs r.now.goals.setting r.now.turn (R.lessened st.reduction (T.break_in (T.table_in breaks.now) from)) result }
{
    let least = lessened(get_break(breaks, from), st.reduction);
    let b = restarted(r, from, least);
    if b.before {
        Ending::Before
    } else {
        Ending::After
    }
}

// What makes the break of a round, when all active breaks have the word on their lines.
fn maker(r: &Round, st: Standing, breaks: &[u32], s: State) -> Ending
    requires { R.Fit r.now.turn st st.count (T.table_in breaks.now) (T.active_in breaks.now) s }
    ensures { W.MakerIs r.now.goals.setting r.now.turn st (T.table_in breaks.now) (T.active_in breaks.now) s result }
{
    if s.best.total < NOTHING {
        if r.turn.last {
            Ending::Paragraph
        } else {
            chosen(r.goals, r.turn.weight, breaks, s.kept, s.best.total)
        }
    } else if 0 < s.kept {
        Ending::Paragraph
    } else {
        forced(r, st, breaks, s.from)
    }
}

// The round of word i, and what makes its break.
fn told_round(
    g: Goals,
    word: Word,
    i: usize,
    last: bool,
    sentence: bool,
    st: Standing,
    breaks: &mut [u32],
) -> Told
    requires { (i < length (T.table_in breaks.old)) × Small word × (word.width < 2 ^ 31) × R.RoundReady i st (T.table_in breaks.old) (T.active_in breaks.old) }
    ensures { W.ToldIs g.setting last sentence i word st (T.table_in breaks.old) (T.active_in breaks.old) (T.table_in breaks.new) (T.active_in breaks.new) result }
{
    let space = spacing::added_space(g.setting.uniform, word.first, sentence, false);
    let r = round_of(g, word, i, space, last);
    let s = advance(&r, st, breaks);
    let ending = maker(&r, st, breaks, s);
    Told {
        st: settle(&r, st, breaks, s),
        ending,
    }
}

// One round for each word after the first, and what made the breaks of word e - 1 and of word e.
pub fn all_told(g: Goals, work: &mut [u32], n: usize, e: usize) -> AllTold
    requires { (1 ≤ n) × R.Lent n work.old × R.AllNarrow n work.old × (1 ≤ e) }
    ensures { W.AllToldIs g.setting n e work.old (T.table_in (T.records_part n work.new)) (T.active_in (T.records_part n work.new)) result × R.Worked n work.old work.new }
{
    let base = n * 7;
    let end = n * 15;
    let mut st = begin(g, work, n);
    let mut sentence = false;
    let mut first = Ending::Paragraph;
    let mut second = Ending::Paragraph;
    for i in 1..n {
        let word = records::get(work, i);
        let told = told_round(g, word, i, i + 1 == n, sentence, st, &mut work[base..end]);
        st = told.st;
        first = either(i + 1 == e, told.ending, first);
        second = either(i == e, told.ending, second);
        sentence = sentence_behind(work, n, i);
    }
    AllTold { st, first, second }
}

// Whether the break of a path that starts a line with word e is before it.
pub fn stands_before(breaks: &[u32], last: usize, e: usize) -> bool
    requires { (last < length (T.table_in breaks.now)) × T.Sized (T.table_in breaks.now) × T.Leads (T.table_in breaks.now) last }
    ensures { result ≡ W.before_at e (T.path_to (T.table_in breaks.now) last) }
{
    let mut at = last;
    while 0 < at {
        let b = get_break(breaks, at);
        if starts(b) == e {
            return b.before;
        }
        at = b.previous;
    }
    false
}
