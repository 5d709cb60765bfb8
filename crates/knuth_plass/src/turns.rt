// What a round does with one break, whichever way its active breaks are kept.
ghost use Rattle.std.specs.Prelude.{◌≡◌, List, cond, ℕ, ◌+◌, ◌<◌, ◌≤◌, ◌^◌, drop};
ghost use Rattle.records.specs.Word.{meaning};
ghost use Rattle.records.specs.Cited.Table.{Holds, word_in, words_in};
ghost use Rattle.demerits.specs.Demerits.{word_term};
ghost use Rattle.demerits.specs.Cited.Bounds.{most_word};
ghost use Rattle.knuth_plass.specs.KnuthPlass.{stretch_of, minimum_of, sentence_behind};
ghost use Rattle.knuth_plass.specs.Cited.Round as R;

use super::goals::{Goals, Round};
use super::store::ratio_of;
use super::{Best, Break, Turn};
use records::Word;

// A ratio of 1, and of -1, as bits.
const RATIO_ONE: u32 = 0x3f80_0000;

const RATIO_LESS_ONE: u32 = 0xbf80_0000;

// The round of a word, with what it weighs.
pub fn round_of(g: Goals, word: Word, number: usize, space: usize, last: bool) -> Round
    requires { R.Turnable number word space }
    ensures { (result.goals.setting ≡ g.setting) × (result.turn ≡ R.turn_of last number word space (word_term (stretch_of g.setting) word.width)) }
{
    let turn = Turn {
        word,
        number,
        space: space as u8,
        weight: demerits::word_term(g.stretch(), word.width),
        last,
    };
    Round { goals: g, turn }
}

// A total that no offer reaches.
pub const NOTHING: u64 = 0x4000_0000_0000_0000;

// The best offer before the first.
pub const NO_OFFER: Best = Best {
    total: NOTHING,
    previous: 0,
    ratio: 0.0,
};

// The first break, but for the columns of its line.
pub const START: Break = Break {
    previous: 0,
    word: 0,
    demerits: 0,
    columns: 0,
    ratio: 0,
    before: false,
    fresh: false,
};

// A break with the word on its line, which has t columns now and is not fresh.
pub fn extended(b: Break, t: usize) -> Break
    ensures { result ≡ R.extended t b }
{
    Break {
        columns: t,
        fresh: false,
        ..b
    }
}

// One of two values. With a choice for each number the machine has no branch to foresee where two offers are compared.
pub fn either<T: Copy>(first: bool, a: T, b: T) -> T
    ensures { result ≡ cond first a b }
{
    if first { a } else { b }
}

// The lesser of the best offer so far and another, the first where they are equal.
fn better(best: Best, previous: usize, total: u64, ratio: f32) -> Best
    ensures { result ≡ R.better best previous total ratio }
{
    let stays = best.total <= total;
    Best {
        total: either(stays, best.total, total),
        previous: either(stays, best.previous, previous),
        ratio: either(stays, best.ratio, ratio),
    }
}

// The columns of the line with the word on it, where a tab is in the gap before the word.
fn reach_by_tab(r: &Round, b: Break) -> usize
    requires { b.columns < 2 ^ 32 }
    ensures { (result ≡ R.line_at r.now.goals.setting r.now.turn b) × (result < 2 ^ 36) }
{
    let w = r.turn.word;
    if b.fresh {
        return b.columns + usize::from(r.turn.space) + w.width;
    }
    let gap = spacing::gap_width(r.goals.setting.tab, b.columns, w.before, w.after);
    b.columns + gap + usize::from(r.turn.space) + w.width
}

// The columns of the line with the word on it. The added space counts on a fresh line too. Without a tab every line grows by the same.
pub fn reach(r: &Round, b: Break) -> usize
    requires { b.columns < 2 ^ 32 }
    ensures { (result ≡ R.line_at r.now.goals.setting r.now.turn b) × (result < 2 ^ 36) }
{
    let w = r.turn.word;
    if w.before.is_some() {
        return reach_by_tab(r, b);
    }
    let bare = usize::from(r.turn.space) + w.width;
    b.columns + either(b.fresh, bare, w.after + bare)
}

// What a break after a word of this weight costs at the least: what the word alone weighs. With a small stretch few breaks offer, and
// whether one is beaten by this much is not to be foreseen: there it is nothing.
fn floor(stretch: usize, weight: u16) -> u64
    requires { weight ≤ most_word }
    ensures { R.Floor weight result }
{
    if stretch < 4 {
        return 0;
    }
    let sum = 1 + u64::from(weight);
    sum * sum
}

// What break n, with the word on its line of t columns, no less than the least that may end, makes of the best offer so far.
// In the original: `find_kp_breakpoints`.
// Part of both loops over the active breaks: a call for each offer takes half as long again.
#[inline(always)]
pub fn offered(r: &Round, n: usize, b: Break, t: usize, best: Best) -> Best
    requires { R.Offers r.now.goals.setting r.now.turn b t × (minimum_of r.now.goals.setting ≤ t) }
    ensures { R.OfferedIs r.now.goals.setting r.now.turn n b t best result }
{
    if r.turn.last {
        // The last line costs nothing, but a break that is not among the least offers none.
        if 0 < b.demerits {
            return best;
        }
        return better(best, n, 0, 0.0);
    }
    let stretch = r.goals.stretch();
    let ratio = demerits::ratio(r.goals.setting.goal, t, stretch);
    // Most offers are beaten before their cost is worked out.
    if best.total <= floor(stretch, r.turn.weight) + b.demerits {
        return best;
    }
    let cost = demerits::cost(ratio, ratio_of(b.ratio), r.turn.weight);
    better(best, n, cost + b.demerits, ratio)
}

// The break that begins again where nothing stays, from break n: before the word where that is the lesser evil, and never on a fresh line.
// In the original: `restart_active_breaks`.
pub fn restarted(r: &Round, n: usize, least: Break) -> Break
    requires { least.columns < 2 ^ 32 }
    ensures { R.Restarted r.now.goals.setting r.now.turn n least result }
{
    let g = r.goals;
    let t = reach(r, least);
    let after = Break {
        previous: n,
        word: r.turn.number,
        before: false,
        demerits: 0,
        ratio: RATIO_LESS_ONE,
        columns: g.setting.indent,
        fresh: true,
    };
    if least.fresh || t + least.columns <= g.minimum() + g.setting.width {
        return after;
    }
    Break {
        before: true,
        ratio: RATIO_ONE,
        columns: g.setting.indent + r.turn.word.width,
        fresh: false,
        ..after
    }
}

// The sentence mark of the word after word i, of n.
// In the original: `find_kp_breakpoints`.
pub fn sentence_behind(table: &[u32], n: usize, i: usize) -> bool
    requires { (i < n) × Holds n table.now }
    ensures { (notes : List ℕ) → result ≡ sentence_behind (meaning notes (word_in table.now i)) (drop (i + 1) (words_in notes n table.now)) }
{
    let next = i + 1;
    if n <= next {
        return true;
    }
    let w = records::get(table, next);
    w.sentence || w.first && records::get(table, i).punct
}
