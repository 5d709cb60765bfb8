// The ways an output line ends.
#![tactic(auto)]

ghost use Rattle.std.specs.Prelude.{◌≡◌, ◌≤◌};
ghost use Rattle.records.specs.Cited.Table.{Holds};
ghost use Rattle.records.specs.Cited.Marks.{breaks_of};
ghost use Rattle.endings.specs.Endings.{numbers_of};
ghost use Rattle.endings.specs.Cited.Spots.{spot_of};

// Why a line ends where it does: with its paragraph; as a plain or a blank line of the notes; since the next word would not fit after
// the column, with the gap and the added space before it; by a break that was chosen, with the line's columns t, the terms L, W and D
// and the cost of the offer that became the break; by a break that was forced, before the next word or after the last.
#[derive(Clone, Copy, Debug, PartialEq, Eq)]
pub enum Ending {
    Paragraph,
    Plain,
    Blank,
    Full {
        column: usize,
        gap: usize,
        space: usize,
        word: usize,
    },
    Chosen {
        columns: usize,
        line_term: u16,
        word_term: u16,
        ratio_term: u16,
        cost: u64,
    },
    Before,
    After,
}

// The kind and its numbers, as the host gets them.
#[tactic(auto, unfolding(crate::specs::Endings::numbers_of))]
pub fn put(e: Ending, reason: &mut [u64; 6])
    ensures { reason.new ≡ numbers_of e }
{
    *reason = match e {
        Ending::Paragraph => [0, 0, 0, 0, 0, 0],
        Ending::Plain => [1, 0, 0, 0, 0, 0],
        Ending::Blank => [2, 0, 0, 0, 0, 0],
        Ending::Full {
            column,
            gap,
            space,
            word,
        } => [3, column as u64, gap as u64, space as u64, word as u64, 0],
        Ending::Chosen {
            columns,
            line_term,
            word_term,
            ratio_term,
            cost,
        } => [
            4,
            columns as u64,
            u64::from(line_term),
            u64::from(word_term),
            u64::from(ratio_term),
            cost,
        ],
        Ending::Before => [5, 0, 0, 0, 0, 0],
        Ending::After => [6, 0, 0, 0, 0, 0],
    };
}

// Where a line of a paragraph stands: it ends before a word; it is the last; or it is so many lines after the paragraph's.
#[derive(Clone, Copy, Debug, PartialEq, Eq)]
pub enum Spot {
    Before(usize),
    Last,
    Behind(usize),
}

// Finds a line, counted from the first, in a table of n words that are marked where a new line starts.
pub fn find_line(table: &[u32], n: usize, line: usize) -> Spot
    requires { (1 ≤ n) × Holds n table.now }
    ensures { result ≡ spot_of (breaks_of n table.now) 1 line }
{
    let mut left = line;
    for i in 1..n {
        if records::starts_line(table, i) {
            if left == 0 {
                return Spot::Before(i);
            }
            left -= 1;
        }
    }
    match left.checked_sub(1) {
        None => Spot::Last,
        Some(behind) => Spot::Behind(behind),
    }
}
