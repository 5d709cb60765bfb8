// Demerits: what a break after a word costs, in f32 with each operation rounded.
#![tactic(auto)]

ghost use Rattle.std.specs.Prelude.{◌≡◌, ◌+◌, ◌-◌, ◌≤◌, ◌<◌, T};
ghost use Rattle.std.specs.Float.{binary32};
ghost use Rattle.std.specs.Float.Ieee.{mul};
ghost use Rattle.demerits.specs.Cited.Bounds as B;
ghost use Rattle.demerits.specs.Demerits as S;

// The weight of L: a line far from its goal.
const LINE_WEIGHT: u16 = 100;

// The weight of W: a line that ends in a short word.
const WORD_WEIGHT: u16 = 300;

// The weight of D: a line with a ratio unlike that of the line before.
const RATIO_WEIGHT: u16 = 600;

// A count of columns as a float. It goes by u16, which the machine converts in one step.
fn float(n: usize) -> f32
    requires { n < 65536 }
    ensures { result ≡ S.float n }
{
    f32::from(n as u16)
}

// x without its sign.
fn abs(x: f32) -> f32
    ensures { result ≡ S.abs x }
{
    if x < 0.0 {
        -x
    } else if x == 0.0 {
        0.0
    } else {
        x
    }
}

// How many of an f32's 24 digits stand after the point. A value below 1 has no whole part: all of them do.
fn places(exponent: u32) -> u32
    requires { exponent ≤ 150 }
    ensures { result ≡ B.places exponent }
{
    if exponent < 127 { 24 } else { 150 - exponent }
}

// The whole part of x, from its own bits: the exponent, and 23 digits after a first one that is not written.
pub fn trunc(x: f32) -> u16
    requires { T (B.at_most B.most_truncated x) }
    ensures { result ≡ S.whole x }
{
    let bits = f32::to_bits(x);
    let digits = (bits & 0x7f_ffff) | 0x80_0000;
    let behind = places(bits >> 23);
    (digits >> behind) as u16
}

// The whole part of k * |cube(x)|, where cube(x) is (x * x) * x.
fn term(k: u16, x: f32) -> u16
    requires { T (B.at_most B.most_truncated (mul binary32 (S.float k) (S.abs (S.cube x)))) }
    ensures { result ≡ S.term k x }
{
    trunc(f32::from(k) * abs(x * x * x))
}

// goal - t, as a float.
fn apart(goal: usize, t: usize) -> f32
    requires { (goal < t + 65536) × (t < goal + 65536) }
    ensures { result ≡ B.apart goal t }
{
    if t < goal {
        float(goal - t)
    } else {
        -float(t - goal)
    }
}

// How far a line of t columns is from the goal, as a part of the stretch: above 0 where it is short, below 0 where it is long.
// In the original: `compute_demerits`.
pub fn ratio(goal: usize, t: usize, stretch: usize) -> f32
    requires { (goal ≤ t + stretch) × (t ≤ goal + stretch) × (stretch ≤ 1000) }
    ensures { (result ≡ S.ratio goal t stretch) × T (B.within 1 result) }
{
    if t == goal {
        0.0
    } else {
        apart(goal, t) / float(stretch)
    }
}

// L, for the line's ratio r.
// In the original: `compute_demerits`.
pub fn line_term(r: f32) -> u16
    requires { T (B.within 1 r) }
    ensures { (result ≡ S.line_term r) × (result ≤ 100) }
{
    term(LINE_WEIGHT, r)
}

// W, for the width of the line's last word. W is 0 for a word as wide as the stretch or wider, and for every word where the stretch is 1, so that nothing is divided by 0.
// In the original: `compute_demerits`.
pub fn word_term(stretch: usize, word: usize) -> u16
    requires { stretch ≤ 1000 }
    ensures { (result ≡ S.word_term stretch word) × (result ≤ B.most_word) }
{
    if stretch <= 1 {
        0
    } else {
        term(
            WORD_WEIGHT,
            float(stretch.saturating_sub(word)) / float(stretch - 1),
        )
    }
}

// D, for the line's ratio r and that of the line before.
// In the original: `compute_demerits`.
pub fn ratio_term(r: f32, old: f32) -> u16
    requires { T (B.within 1 r) × T (B.within 1 old) }
    ensures { (result ≡ S.ratio_term r old) × (result ≤ 600) }
{
    term(RATIO_WEIGHT, (r - old) / 2.0)
}

// The cost of a break after a word of weight W, of a line with the ratio r, where the line before has the ratio old.
// In the original: `compute_demerits`.
pub fn cost(r: f32, old: f32, weight: u16) -> u64
    requires { T (B.within 1 r) × T (B.within 1 old) × (weight ≤ B.most_word) }
    ensures { (result ≡ S.cost_with r old weight) × (result ≤ B.most_cost) }
{
    let sum = 1 + line_term(r) + weight + ratio_term(r, old);
    let wide = u64::from(sum);
    wide * wide
}
