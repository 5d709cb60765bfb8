// Quick: the greedy breaker.
#![tactic(auto)]

ghost use Rattle.std.specs.Prelude.{◌≡◌, List, ℕ, ◌+◌, ◌≤◌, ◌<◌, ◌^◌, get_or};
ghost use Rattle.records.specs.Cited.Table.{Holds, words_in, Small};
ghost use Rattle.records.specs.Cited.Marks.{MarkedBy};
ghost use Rattle.spacing.specs.Spacing.{gap_width, added_space};
ghost use Rattle.spacing.specs.Cited.Bounds.{Fair};
ghost use Rattle.endings.specs.Endings.{endings};
ghost use Rattle.endings.specs.declared.Ending.TheVariants.{Paragraph, Full};
ghost use Rattle.quick.specs.Quick.{quick_breaks};
ghost use Rattle.quick.specs.QuickLines.{quick_lines};

use endings::Ending;
use records::Word;
use spacing::Setting;

// The column that a word reaches if it goes on the line; punct is the mark of the word before it.
// In the original: `accum_words_simple`.
pub fn reach(g: Setting, column: usize, punct: bool, w: Word) -> usize
    requires { Fair g × Small w × (column < 2 ^ 34) }
    ensures { (result ≡ column + gap_width g.tab column w.before w.after + added_space g.uniform w.first w.sentence punct + w.width) × (result < 2 ^ 36) }
{
    let gap = spacing::gap_width(g.tab, column, w.before, w.after);
    column + gap + spacing::added_space(g.uniform, w.first, w.sentence, punct) + w.width
}

// Marks each word after the first that no longer fits its line: a new line starts with it.
// In the original: `break_simple`.
pub fn quick_breaks(table: &mut [u32], n: usize, g: Setting)
    requires { (1 ≤ n) × Holds n table.old × Fair g }
    ensures { (notes : List ℕ) → MarkedBy n table.old (quick_breaks g (words_in notes n table.old)) table.new }
{
    let head = records::get(table, 0);
    let mut column = g.first + head.width;
    // The first word's own punctuation does not count.
    let mut punct = false;
    for i in 1..n {
        let w = records::get(table, i);
        let reached = reach(g, column, punct, w);
        let fresh = reached > g.width;
        records::mark(table, i, fresh);
        column = if fresh { g.indent + w.width } else { reached };
        punct = w.punct;
    }
}

// ---- why a line ends

// A line that ends at a column, since the word does not fit after it.
fn full(g: Setting, column: usize, punct: bool, w: Word) -> Ending
    requires { Fair g × Small w × (column < 2 ^ 34) }
    ensures { result ≡ Full column (gap_width g.tab column w.before w.after) (added_space g.uniform w.first w.sentence punct) w.width }
{
    Ending::Full {
        column,
        gap: spacing::gap_width(g.tab, column, w.before, w.after),
        space: spacing::added_space(g.uniform, w.first, w.sentence, punct),
        word: w.width,
    }
}

// Why a line of a paragraph ends, counted from its first; after its last line too it is the end of the paragraph.
pub fn quick_ending(table: &[u32], n: usize, g: Setting, line: usize) -> Ending
    requires { (1 ≤ n) × Holds n table.now × Fair g }
    ensures { (notes : List ℕ) → result ≡ get_or (endings (quick_lines g (words_in notes n table.now))) line Paragraph }
{
    let head = records::get(table, 0);
    let mut column = g.first + head.width;
    let mut punct = false;
    let mut left = line;
    for i in 1..n {
        let w = records::get(table, i);
        let reached = reach(g, column, punct, w);
        if g.width < reached {
            if left == 0 {
                return full(g, column, punct, w);
            }
            left -= 1;
            column = g.indent + w.width;
        } else {
            column = reached;
        }
        punct = w.punct;
    }
    Ending::Paragraph
}
