// The index of a digest: for each piece of the notes a record, and the part of the notes that an output line stands for.
#![tactic(auto)]

ghost use Rattle.std.specs.Prelude.{◌≡◌, ◌++◌, ◌*◌, ◌^◌, ◌≤◌, length, drop};
ghost use Rattle.marks.specs.Cited.Marks.{marks_in};
ghost use Rattle.index.specs.Lookup.{holds, part_in, lookup, answered, part_after};
ghost use Rattle.index.specs.Cited.Lists.{no_record};
ghost use Rattle.index.specs.Cited.Reading.{front, behind, record_after, read_from};

// A piece: its place and length in the notes, its first output line and its count of output lines. The default one holds no line.
#[repr(C)]
#[derive(Clone, Copy, Debug, Default, PartialEq, Eq)]
pub struct Record {
    pub place: u64,
    pub length: u64,
    pub first: u64,
    pub count: u64,
}

// A part of the notes, for which an output line stands.
#[derive(Clone, Copy, Debug, PartialEq, Eq)]
pub struct Part {
    pub place: u64,
    pub length: u64,
}

// The part that stands under an output line, in notes of so many bytes: that of the first of the filled records that holds the line. A count
// that runs past the list finds none.
pub fn lookup(index: &[Record], filled: u64, size: usize, line: u64) -> Option<Part>
    ensures { result ≡ lookup index.now filled size line }
{
    let records = index.get(..filled as usize)?;
    let r = records.iter().find(|r| is_holding(**r, line))?;
    part_in(*r, size)
}

// Does a record hold an output line? By a difference: the sum of first and count may not fit.
#[tactic(auto, using(crate::proofs::Laws::holds_early, crate::proofs::Laws::holds_late))]
fn is_holding(r: Record, line: u64) -> bool
    ensures { result ≡ holds line r }
{
    r.first <= line && line - r.first < r.count
}

// A record's part, unless it runs past the notes. By a difference, likewise.
#[tactic(auto, using(crate::proofs::Laws::part_past, crate::proofs::Laws::part_long, crate::proofs::Laws::part_within))]
fn part_in(r: Record, size: usize) -> Option<Part>
    ensures { result ≡ part_in size r }
{
    let rest = (size as u64).checked_sub(r.place)?;
    if rest < r.length {
        None
    } else {
        Some(Part {
            place: r.place,
            length: r.length,
        })
    }
}

// What a host is told of a part: 1, and its place and length; or 0.
pub fn tell(p: Option<Part>, part: &mut [u64; 2]) -> u64
    ensures { (result ≡ answered p) × (part.new ≡ part_after p part.old) }
{
    match p {
        None => 0,
        Some(p) => {
            *part = [p.place, p.length];
            1
        }
    }
}

// Stores the n records that the marks tell. What is after the marks does not matter.
pub fn store_records(index: &mut [Record], n: usize, marks: &[u32])
    requires { n ≤ length index.old }
    ensures { index.new ≡ read_from (marks_in (front marks.now)) n no_record ++ drop n index.old }
{
    let mut r = Record::default();
    for slot in &mut index[..n] {
        r = next_record(marks, r);
        *slot = r;
    }
}

// So many numbers have room for two marks for each byte of the longest notes.
const MOST_NUMBERS: usize = 65536;

// The record after a record, as the marks tell it.
fn next_record(marks: &[u32], r: Record) -> Record
    requires { behind r ≤ 32 * length (front marks.now) }
    ensures { result ≡ record_after (marks_in (front marks.now)) r }
{
    let end = marks.len().min(MOST_NUMBERS);
    record_behind(&marks[..end], r)
}

// Its length and its count of output lines are the next two gaps.
fn record_behind(marks: &[u32], r: Record) -> Record
    requires { (behind r ≤ 32 * length marks.now) × (length marks.now ≤ 2 ^ 16) }
    ensures { result ≡ record_after (marks_in marks.now) r }
{
    let place = r.place + r.length;
    let first = r.first + r.count;
    let at = (place + first) as usize;
    let length = marks::gap(marks, at);
    let count = marks::gap(marks, at + length);
    Record {
        place,
        length: length as u64,
        first,
        count: count as u64,
    }
}
