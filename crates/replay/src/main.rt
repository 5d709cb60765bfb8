// Replays lists of answers, in hexadecimal, `-` for none. Each line of data/vectors.txt, the Rust's, has an option block, notes and the
// output under code 0; each line of data/cases.txt, written from RULES, a block, notes, the whole number that the call answers and
// all bytes of the output slice afterwards. Writes how many lines each has and how many of them the call answers so. The lines of the two
// lists of wrong rows are the same but for one fault each: of them none may be answered so.
#![tactic(auto)]

ghost use Rattle.std.specs.Prelude.{◌≡◌, ◌+◌, ◌*◌, ◌/◌, ◌<◌, ◌≤◌, min, length, IfOk};

use std::io::Read;
use std::rt::Files;
use std::{fs, io};

// The fields of a line, and what stands after them. A line of the Rust's list has no number.
#[derive(Clone, Copy, Debug, PartialEq, Eq)]
struct Row<'a> {
    block: &'a [u8],
    notes: &'a [u8],
    number: Option<u64>,
    want: &'a [u8],
    rest: &'a [u8],
}

#[derive(Clone, Copy, Debug, PartialEq, Eq)]
struct Tally {
    lines: usize,
    right: usize,
}

fn digit(b: u8) -> u8
    ensures { result < 16 }
{
    match b {
        b'0'..=b'9' => b - b'0',
        b'a'..=b'f' => b - b'a' + 10,
        _ => 0,
    }
}

// The byte that two digits spell.
fn byte_of(pair: &[u8; 2]) -> u8 {
    digit(pair[0]) * 16 + digit(pair[1])
}

// The bytes that hex spells, as many as out has room for.
fn decode<'a>(hex: &[u8], out: &'a mut [u8]) -> &'a [u8]
    ensures { length result.now ≡ min (length hex.now / 2) (length out.old) }
{
    let pairs = hex.as_chunks().0;
    let size = pairs.len().min(out.len());
    for (byte, pair) in out.iter_mut().zip(pairs) {
        *byte = byte_of(pair);
    }
    &out[..size]
}

// The field at a text's front, and what stands after the byte that parts it from the next.
fn next_field(text: &[u8]) -> (&[u8], &[u8])
    ensures within { length result.1.now ≤ length text.now }
    ensures on { 0 < length text.now → length result.1.now < length text.now }
{
    match text.iter().position(|b| *b <= 32) {
        Some(end) => (&text[..end], &text[end + 1..]),
        None => (text, &text[text.len()..]),
    }
}

// The number that a field spells, of its last sixteen digits.
fn read_number(field: &[u8]) -> u64 {
    let mut number: u64 = 0;
    for b in field {
        number = number % 0x1000_0000_0000_0000 * 16 + digit(*b) as u64;
    }
    number
}

// Whether a field spells the bytes of the output.
fn spells(field: &[u8], output: &[u8]) -> bool
    requires { 2 * length output.now ≤ length field.now }
{
    output
        .iter()
        .zip(field.as_chunks().0)
        .all(|(byte, pair)| *byte == byte_of(pair))
}

// The line at a text's front.
fn row_of(text: &[u8], whole: bool) -> Row<'_>
    ensures { 0 < length text.now → length result.rest.now < length text.now }
{
    let (block, text) = next_field(text);
    let (notes, text) = next_field(text);
    let (number, text) = if whole {
        let (field, rest) = next_field(text);
        (Some(read_number(field)), rest)
    } else {
        (None, text)
    };
    let (want, rest) = next_field(text);
    Row {
        block,
        notes,
        number,
        want,
        rest,
    }
}

// What measuring is to tell where the call is to answer so: never code 5, but its N with code 0.
fn measured(number: u64) -> u64 {
    if number / 0x1_0000_0000 == 5 {
        number % 0x1_0000_0000
    } else {
        number
    }
}

// The call of one line, with an output slice of the length that it wants: all in one, and measuring and writing. Before each call the output
// is filled with dots, so that what it leaves unchanged is seen.
fn answered(row: &Row<'_>, block: &mut [u8], notes: &mut [u8], output: &mut [u8]) -> bool {
    let block = decode(row.block, block);
    let notes = decode(row.notes, notes);
    let size = (row.want.len() / 2).min(output.len());
    let output = &mut output[..size];
    // The number that the line wants: its own or, of the Rust's, code 0 with the output's length.
    let want = row.number.unwrap_or(size as u64);
    output.fill(b'.');
    if rudignals::rudignals_format(block, notes, output) != want || !spells(row.want, output) {
        return false;
    }
    if rudignals::rudignals_measure(block, notes) != measured(want) {
        return false;
    }
    output.fill(b'.');
    rudignals::rudignals_write(block, notes, output) == want && spells(row.want, output)
}

// All lines of a text that begin before a place. A line that lacks fields takes those that stand after it.
fn replay_all(
    text: &[u8],
    end: usize,
    whole: bool,
    block: &mut [u8],
    notes: &mut [u8],
    output: &mut [u8],
) -> Tally
    requires { end ≤ length text.now }
{
    let behind = text.len() - end;
    let mut rest = text;
    let mut lines: usize = 0;
    let mut right: usize = 0;
    while behind < rest.len() {
        let row = row_of(rest, whole);
        rest = row.rest;
        lines += 1;
        right += usize::from(answered(&row, block, notes, output));
    }
    Tally { lines, right }
}

// Reads until there is no more room or the file ends, and answers how many bytes were read.
fn read_full(file: &mut impl Read, bytes: &mut [u8]) -> io::Result<usize>
    ensures { IfOk result (λ n. n ≤ length bytes.new) }
{
    let mut done = 0;
    while done < bytes.len() {
        let n = file.read(&mut bytes[done..])?;
        if n == 0 {
            break;
        }
        done += n;
    }
    Ok(done)
}

// The place after the last line feed of a text, or 0.
fn whole_lines(text: &[u8]) -> usize
    ensures { result ≤ length text.now }
{
    text.iter().rposition(|b| *b == 10).map_or(0, |i| i + 1)
}

// The list is longer than the room: it is read and replayed part by part, a line that is cut off staying for the next.
fn replay_file(
    file: &mut impl Read,
    whole: bool,
    text: &mut [u8],
    block: &mut [u8],
    notes: &mut [u8],
    output: &mut [u8],
) -> io::Result<Tally> {
    let mut held = 0;
    let mut tally = Tally { lines: 0, right: 0 };
    for _ in 0..64 {
        let got = held + read_full(file, &mut text[held..])?;
        let end = whole_lines(&text[..got]);
        let part = replay_all(text, end, whole, block, notes, output);
        tally.lines = tally.lines.wrapping_add(part.lines);
        tally.right = tally.right.wrapping_add(part.right);
        text.copy_within(end..got, 0);
        held = got - end;
    }
    Ok(tally)
}

// A list's name, how many lines it has, and how many of them were answered rightly.
fn tell(rt: &impl Print, name: &str, tally: Tally) -> io::Result<()> {
    let Tally { lines, right } = tally;
    println!(rt; "{name}: {lines} lines, {right} answered so")
}

fn replay_list(rt: &(impl Files + Print), name: &str, whole: bool) -> io::Result<()> {
    // Room for the longest line of the list, and for the longest digest.
    let mut text = [0; 300000];
    let mut block = [0; 4096];
    let mut notes = [0; 131072];
    let mut output = [0; 131072];
    let mut file = fs::open(rt, name)?;
    let tally = replay_file(
        &mut file,
        whole,
        &mut text,
        &mut block,
        &mut notes,
        &mut output,
    )?;
    tell(rt, name, tally)
}

fn main(rt: HostRuntime) -> io::Result<()> {
    replay_list(&rt, "vectors.txt", false)?;
    replay_list(&rt, "cases.txt", true)?;
    replay_list(&rt, "wrong-vectors.txt", false)?;
    replay_list(&rt, "wrong-cases.txt", true)
}
