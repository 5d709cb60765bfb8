// Word records: a struct by value, kept in a table of numbers, seven for each record.
#![tactic(auto)]

ghost use Rattle.std.specs.Prelude.{◌≡◌, ◌*◌, ◌<◌, ◌≤◌, ◌^◌};
ghost use Rattle.records.specs.Cited.Table.{number_in, before_number, before_of, with_word, stored, Room, Small, Got};
ghost use Rattle.records.specs.Cited.Marks.{mark_in, with_mark};

// A word of the notes: the blanks before it begin at from, its own bytes at start; width; the counts of blanks before the gap's first tab, if
// there is one, and after it; first of its line, ends in punctuation, starts a sentence.
#[derive(Clone, Copy, Debug, PartialEq, Eq)]
pub struct Word {
    pub from: usize,
    pub start: usize,
    pub end: usize,
    pub width: usize,
    pub before: Option<usize>,
    pub after: usize,
    pub first: bool,
    pub punct: bool,
    pub sentence: bool,
}

// Number j of record i.
fn read(t: &[u32], i: usize, j: usize) -> usize
    requires { Room i t.now × (j < 7) }
    ensures { (result ≡ number_in t.now i j) × (result < 2 ^ 32) }
{
    t[i * 7 + j] as usize
}

// The count before a tab from its number in the table, and back.
fn before_of(n: usize) -> Option<usize>
    requires { n < 2 ^ 32 }
    ensures { (result ≡ before_of n) × (before_number result < 2 ^ 32) }
{
    n.checked_sub(1)
}

fn number_of(before: Option<usize>) -> u32
    requires { before_number before < 2 ^ 32 }
    ensures { result ≡ before_number before }
{
    match before {
        None => 0,
        Some(n) => (n + 1) as u32,
    }
}

// The record at i, put together.
// In the original: `ParaWords::words`.
pub fn get(t: &[u32], i: usize) -> Word
    requires { Room i t.now }
    ensures { Got t.now i result }
{
    let marks = read(t, i, 6);
    Word {
        from: read(t, i, 0),
        start: read(t, i, 1),
        end: read(t, i, 2),
        width: read(t, i, 3),
        before: before_of(read(t, i, 4)),
        after: read(t, i, 5),
        first: marks % 2 == 1,
        punct: marks / 2 % 2 == 1,
        sentence: marks / 4 % 2 == 1,
    }
}

// The record taken apart into the table at i.
pub fn store(t: &mut [u32], i: usize, w: Word)
    requires { Room i t.old × Small w }
    ensures { t.new ≡ with_word t.old i w }
{
    // The marks are the bits of one number.
    let marks = u32::from(w.first) + u32::from(w.punct) * 2 + u32::from(w.sentence) * 4;
    put(
        t,
        i,
        w.from as u32,
        w.start as u32,
        w.end as u32,
        w.width as u32,
        number_of(w.before),
        w.after as u32,
        marks,
    );
}

// The seven numbers of a record, one by one: `copy_from_slice` of all seven was tried, and half as quick.
fn put(t: &mut [u32], i: usize, n0: u32, n1: u32, n2: u32, n3: u32, n4: u32, n5: u32, n6: u32)
    requires { Room i t.old }
    ensures { t.new ≡ stored t.old (i * 7) n0 n1 n2 n3 n4 n5 n6 }
{
    let k = i * 7;
    t[k] = n0;
    t[k + 1] = n1;
    t[k + 2] = n2;
    t[k + 3] = n3;
    t[k + 4] = n4;
    t[k + 5] = n5;
    t[k + 6] = n6;
}

// Whether a new line starts with the word of record i: a bit beside the word's own marks.
pub fn starts_line(t: &[u32], i: usize) -> bool
    requires { Room i t.now }
    ensures { result ≡ mark_in t.now i }
{
    read(t, i, 6) / 8 % 2 == 1
}

// Notes whether a new line starts with it. The word stays as it is.
pub fn mark(t: &mut [u32], i: usize, starts: bool)
    requires { Room i t.old }
    ensures { t.new ≡ with_mark t.old i starts }
{
    let k = i * 7 + 6;
    t[k] = t[k] % 8 + u32::from(starts) * 8;
}
