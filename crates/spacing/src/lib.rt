// Spacing: the width of a gap at a column, and added space.
#![tactic(auto)]

ghost use Rattle.std.specs.Prelude.{◌≡◌, ◌+◌, ◌≤◌, ◌<◌, ◌^◌};
ghost use Rattle.lines.specs.Classes.{next_stop};
ghost use Rattle.records.specs.Cited.Table.{before_number};
ghost use Rattle.spacing.specs.Cited.Bounds.{GapIs, AddedIs};

// What a paragraph is broken with: width limit, goal, tab width, uniform spacing, and the columns of its first indent and its indent.
#[derive(Clone, Copy, Debug, PartialEq, Eq)]
pub struct Setting {
    pub width: usize,
    pub goal: usize,
    pub tab: usize,
    pub uniform: bool,
    pub first: usize,
    pub indent: usize,
}

// The next tab stop after a column.
#[tactic(auto, unfolding(lines::specs::Classes::next_stop))]
fn next_stop(tab: usize, column: usize) -> usize
    requires { (1 ≤ tab) × (tab ≤ 100) × (column < 2 ^ 41) }
    ensures { (result ≡ next_stop tab column) × (column < result) × (result ≤ column + tab) }
{
    (column / tab + 1) * tab
}

// The width of a gap that begins at a column. A tab goes to the next stop after the blanks before it.
// In the original: `BreakArgs::compute_width`.
#[tactic(auto, unfolding(crate::specs::Spacing::gap_width))]
pub fn gap_width(tab: usize, column: usize, before: Option<usize>, after: usize) -> usize
    requires { (1 ≤ tab) × (tab ≤ 100) × (column < 2 ^ 40) × (before_number before < 2 ^ 32) × (after < 2 ^ 32) }
    ensures { GapIs tab column before after result }
{
    match before {
        None => after,
        Some(n) => after + next_stop(tab, n + column) - column,
    }
}

// The spaces that are added before a word: where it was the first of its line, or everywhere if uniform. punct is the mark of the word
// before it.
// In the original: `compute_slen`.
#[tactic(auto, unfolding(crate::specs::Spacing::added_space))]
pub fn added_space(uniform: bool, first: bool, sentence: bool, punct: bool) -> usize
    ensures { AddedIs uniform first sentence punct result }
{
    if first {
        1 + usize::from(sentence || punct)
    } else if uniform {
        1 + usize::from(sentence)
    } else {
        0
    }
}
