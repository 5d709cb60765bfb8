// The break table: eight numbers a record, of which seven are the record's own. It is numbers in a slice that is lent, for there is no heap.
ghost use Rattle.std.specs.Prelude.{◌≡◌, ◌+◌, ◌*◌, ◌<◌, ◌≤◌, ◌^◌, length};
ghost use Rattle.std.proofs.Math.Dec as D;
ghost use Rattle.demerits.specs.Cited.Bounds.{within};
ghost use Rattle.knuth_plass.specs.Cited.Table as T;

use super::Break;

// A ratio's bits, as they are in a record.
pub fn bits_of(ratio: f32) -> u32
    requires { D.T (within 1 ratio) }
    ensures { T.ratio_of result ≡ ratio }
{
    f32::to_bits(ratio)
}

// The ratio of a record's bits.
pub fn ratio_of(bits: u32) -> f32
    requires { D.T (within 1 (T.ratio_of bits)) }
    ensures { result ≡ T.ratio_of bits }
{
    f32::from_bits(bits)
}

// Number j of record i.
pub fn number(breaks: &[u32], i: usize, j: usize) -> usize
    requires { (i * 8 + 8 ≤ length breaks.now) × (j < 8) }
    ensures { (result ≡ T.break_number breaks.now i j) × (result < 2 ^ 32) }
{
    let k = i * 8 + j;
    breaks[k] as usize
}

// The demerits of record i: a number of 64 bits in two places, the lower half first.
fn demerits_of(breaks: &[u32], i: usize) -> u64
    requires { i * 8 + 8 ≤ length breaks.now }
    ensures { result ≡ T.demerits_in breaks.now i }
{
    let low = i * 8 + 4;
    let high = i * 8 + 5;
    u64::from(breaks[high]) * 0x1_0000_0000 + u64::from(breaks[low])
}

// The record at i, put together. The word and whether the break is before it are one number.
pub fn get_break(breaks: &[u32], i: usize) -> Break
    requires { i < length (T.table_in breaks.now) }
    ensures { result ≡ T.break_in (T.table_in breaks.now) i }
{
    let at = number(breaks, i, 1);
    let k = i * 8 + 3;
    Break {
        previous: number(breaks, i, 0),
        word: at / 2,
        before: at % 2 == 1,
        demerits: demerits_of(breaks, i),
        ratio: breaks[k],
        columns: number(breaks, i, 6),
        fresh: number(breaks, i, 7) == 1,
    }
}

// Where the break stands and where it comes from: of the record's numbers those that stay as they are.
fn put_place(breaks: &mut [u32], i: usize, b: Break)
    requires { (i * 8 + 8 ≤ length breaks.old) × (b.previous < 2 ^ 32) × (b.word < 2 ^ 31) }
    ensures { breaks.new ≡ T.with_place breaks.old i b }
{
    let k = i * 8;
    let k1 = k + 1;
    breaks[k] = b.previous as u32;
    breaks[k1] = b.word as u32 * 2 + u32::from(b.before);
}

// The record of a break that stays active, taken apart again: of its numbers, its demerits and its line are new.
pub fn keep_break(breaks: &mut [u32], i: usize, b: Break)
    requires { (i * 8 + 8 ≤ length breaks.old) × (b.columns < 2 ^ 32) }
    ensures { breaks.new ≡ T.with_line breaks.old i b }
{
    let k = i * 8 + 4;
    let k1 = k + 1;
    let k2 = k + 2;
    let k3 = k + 3;
    breaks[k] = (b.demerits % 0x1_0000_0000) as u32;
    breaks[k1] = (b.demerits / 0x1_0000_0000) as u32;
    breaks[k2] = b.columns as u32;
    breaks[k3] = u32::from(b.fresh);
}

// The record taken apart into the table at i.
pub fn store_break(breaks: &mut [u32], i: usize, b: Break)
    requires { (i * 8 + 8 ≤ length breaks.old) × T.Fits b }
    ensures { breaks.new ≡ T.with_record breaks.old i b }
{
    let k = i * 8 + 3;
    put_place(breaks, i, b);
    keep_break(breaks, i, b);
    breaks[k] = b.ratio;
}

// The one of two breaks with less demerits, the first where they are equal.
pub fn lesser(breaks: &[u32], m: usize, n: usize) -> usize
    requires { (m < length (T.table_in breaks.now)) × (n < length (T.table_in breaks.now)) }
    ensures { result ≡ T.lesser_in (T.table_in breaks.now) m n }
{
    let a = get_break(breaks, m);
    let b = get_break(breaks, n);
    if b.demerits < a.demerits { n } else { m }
}
