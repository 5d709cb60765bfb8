// Marks on places, kept as the bits of 32-bit words: 131,072 places take 16 KiB. Numbers that are noted one after another are the gaps
// between marks.
#![tactic(auto)]

ghost use Rattle.std.specs.Prelude.{◌≡◌, true, false, suc, ◌^◌, ◌≤◌, length, get_or, set, drop};
ghost use Rattle.std.specs.Int.Count.{count_trailing_zeros};
ghost use Rattle.marks.specs.Cited.Marks.{marks_in, to_mark};

// Marks a place that has no mark yet.
#[tactic(auto, using(crate::proofs::Marking::bare_within, crate::proofs::Marking::marks_marked))]
pub fn mark(table: &mut [u32], at: usize)
    requires { get_or (marks_in table.old) at true ≡ false }
    ensures { marks_in table.new ≡ set (marks_in table.old) at true }
{
    let k = at / 32;
    table[k] |= 1 << (at % 32);
}

// How far it is from a place to the next mark: 1 if the place itself has one, 0 if there is none. (No Option: 0 is the number that is read
// where no mark is, and a record's length or count of lines is then 0.)
pub fn gap(table: &[u32], from: usize) -> usize
    requires { length table.now ≤ 2 ^ 16 }
    ensures { result ≡ to_mark (drop from (marks_in table.now)) }
{
    let k = from / 32;
    let Some(word) = table.get(k).copied() else {
        return 0;
    };
    let rest = word >> (from % 32);
    if rest != 0 {
        return first(rest);
    }
    let more = gap_from_word(&table[k + 1..]);
    if more == 0 { 0 } else { 32 - from % 32 + more }
}

// The same from a word's lowest place, where the table begins: word by word, since most have no mark.
fn gap_from_word(table: &[u32]) -> usize
    requires { length table.now ≤ 2 ^ 16 }
    ensures { result ≡ to_mark (marks_in table.now) }
{
    match table.iter().position(|word| *word != 0) {
        Some(i) => 32 * i + first(table[i]),
        None => 0,
    }
}

// How far the first mark of a word is.
fn first(word: u32) -> usize
    ensures { result ≡ suc (count_trailing_zeros 32 word) }
{
    word.trailing_zeros() as usize + 1
}
