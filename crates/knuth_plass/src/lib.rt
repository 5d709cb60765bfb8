// Knuth-Plass: the best breaks of a paragraph, one round for each word over the active breaks. A paragraph is one lent slice: its n words,
// and after them n break records. What a slice has to hold stands in the contracts, not in a type: it is lent, and each function changes it.
#![tactic(auto)]

mod goals;
mod interval;
mod listed;
mod marking;
mod store;
mod telling;
mod turns;

ghost use Rattle.std.specs.Prelude.{◌≡◌, List, ℕ, ◌<◌, ◌≤◌};
ghost use Rattle.records.specs.Cited.Table.{words_in};
ghost use Rattle.knuth_plass.specs.Cited.Table as T;
ghost use Rattle.knuth_plass.specs.Cited.Round as R;
ghost use Rattle.knuth_plass.specs.Cited.Makers as W;

use endings::Ending;
use goals::Goals;
use records::Word;
use spacing::Setting;

// A break place: the number of the previous break, the word and whether it is before or after it; its demerits and the ratio of
// the line that it ends, as bits; the columns of the line that it begins, and whether nothing but the indent stands on that line.
#[derive(Clone, Copy, Debug, PartialEq, Eq)]
pub struct Break {
    pub previous: usize,
    pub word: usize,
    pub demerits: u64,
    pub columns: usize,
    pub ratio: u32,
    pub before: bool,
    pub fresh: bool,
}

// What a round goes by: its word and the word's number, the space that is added before it, what it weighs in the cost of a break after
// it, and whether it is the last. (With a space of eight bytes a round would be over 128, and be copied by `memcpy`, which a host may not have.)
#[derive(Clone, Copy, Debug, PartialEq, Eq)]
pub struct Turn {
    pub word: Word,
    pub number: usize,
    pub space: u8,
    pub weight: u16,
    pub last: bool,
}

// The best offer so far: its total, or NOTHING; the break it goes on from, and its ratio. An Option would be no plainer: with NOTHING the
// first offer is compared as all others are, and with an Option each would first be asked whether there is one before it.
#[derive(Clone, Copy, Debug)]
pub struct Best {
    pub total: u64,
    pub previous: usize,
    pub ratio: f32,
}

// A round so far: how many breaks stay, the number and the demerits of the first least break, and the best offer.
#[derive(Clone, Copy, Debug)]
pub struct State {
    pub kept: usize,
    pub from: usize,
    pub least: u64,
    pub best: Best,
}

// Between rounds: how many breaks are active, how many records the table has, and what each active break loses.
#[derive(Clone, Copy, Debug, PartialEq, Eq)]
pub struct Standing {
    pub count: usize,
    pub size: usize,
    pub reduction: u64,
}

// The record that the best path ends at: by an interval of the table where that will do, and else by a list of the active breaks.
fn best_path(g: Goals, work: &mut [u32], n: usize) -> usize
    requires { (1 ≤ n) × R.Lent n work.old × R.AllNarrow n work.old }
    ensures { R.PathIs g.setting n work.old (T.table_in (T.records_part n work.new)) result × R.Worked n work.old work.new }
{
    if interval::is_regular(work, n, g) {
        return interval::best_path(g, work, n);
    }
    let base = n * 7;
    let end = n * 15;
    let st = listed::rounds(g, work, n);
    listed::least(&work[base..end], st)
}

// The best breaks of a paragraph of n words, as marks of its words: that of word i says whether a new line starts with it. The words
// stand in front; after them is room for as many breaks, and what it holds afterwards is left open.
// In the original: `break_knuth_plass`.
pub fn best_breaks(work: &mut [u32], n: usize, g: Setting)
    requires { R.Limits g × (1 ≤ n) × R.Lent n work.old × R.AllNarrow n work.old }
    ensures { R.BestAre g n work.old work.new }
{
    let last = best_path(Goals { setting: g }, work, n);
    marking::clear(work, n);
    marking::mark_path(work, n, last);
}

// A round's end: between rounds, and what made the round's break.
#[derive(Clone, Copy, Debug, PartialEq, Eq)]
pub struct Told {
    pub st: Standing,
    pub ending: Ending,
}

// All rounds: between rounds, and what made the breaks of two words, one after the other.
#[derive(Clone, Copy, Debug, PartialEq, Eq)]
pub struct AllTold {
    pub st: Standing,
    pub first: Ending,
    pub second: Ending,
}

// What made the break that starts a line with word e, where one does: why the line before it ends. The words stay as they are.
pub fn best_ending(work: &mut [u32], n: usize, g: Setting, e: usize) -> Ending
    requires { R.Limits g × (1 ≤ n) × R.Lent n work.old × R.AllNarrow n work.old × (1 ≤ e) × (e < n) }
    ensures { ((notes : List ℕ) → result ≡ W.ending_before g e (words_in notes n work.old)) × R.Worked n work.old work.new }
{
    let base = n * 7;
    let end = n * 15;
    let told = telling::all_told(Goals { setting: g }, work, n, e);
    let breaks = &work[base..end];
    let last = listed::least(breaks, told.st);
    if telling::stands_before(breaks, last, e) {
        told.second
    } else {
        told.first
    }
}
