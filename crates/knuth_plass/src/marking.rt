// The best path as marks by word.
ghost use Rattle.std.specs.Prelude.{◌≡◌, false, ◌||◌, eqb, ℕ, ◌<◌};
ghost use Rattle.records.specs.Cited.Marks.{mark_in, MarkedUpTo};
ghost use Rattle.records.specs.Cited.Table.{Holds};
ghost use Rattle.knuth_plass.specs.KnuthPlass.{starts_line};
ghost use Rattle.knuth_plass.specs.Cited.Table as T;
ghost use Rattle.knuth_plass.specs.Cited.Round as R;

use super::Break;
use super::store::get_break;

// The word that a break starts a line with.
pub fn starts(b: Break) -> usize
    requires { b.word < T.most_words }
    ensures { result ≡ T.start_of b }
{
    if b.before { b.word } else { b.word + 1 }
}

pub fn clear(work: &mut [u32], n: usize)
    requires { Holds n work.old }
    ensures { MarkedUpTo n work.old work.new (λ (j : ℕ). false) }
{
    for i in 0..n {
        records::mark(work, i, false);
    }
}

// A break after the last word starts no line.
fn mark(work: &mut [u32], n: usize, at: usize)
    requires { Holds n work.old }
    ensures { MarkedUpTo n work.old work.new (λ (j : ℕ). mark_in work.old j || eqb at j) }
{
    if at < n {
        records::mark(work, at, true);
    }
}

// The marks of the path that ends at a record, from break to previous break.
// In the original: `build_best_path`.
pub fn mark_path(work: &mut [u32], n: usize, last: usize)
    requires { R.Lent n work.old × (last < n) × T.Leads (T.table_in (T.records_part n work.old)) last }
    ensures { MarkedUpTo n work.old work.new (λ (j : ℕ). mark_in work.old j || starts_line j (T.path_to (T.table_in (T.records_part n work.old)) last)) }
{
    let base = n * 7;
    let end = n * 15;
    let mut at = last;
    while 0 < at {
        let b = get_break(&work[base..end], at);
        mark(work, n, starts(b));
        at = b.previous;
    }
}
