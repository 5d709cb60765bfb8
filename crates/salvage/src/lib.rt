// Salvage: notes in ISO 8859-1 made readable, with a list of what was changed; and the way back.
#![tactic(auto)]

ghost use Rattle.std.specs.Prelude.{◌≡◌, true, [], ◌∷◌, map, ◌+◌, ◌-◌, ◌^◌, ◌≤◌, ◌<◌, min, length, drop};
ghost use Rattle.std.proofs.lemmas.List.Edits.{sets};
ghost use Rattle.lists.specs.Runs.{joined};
ghost use Rattle.text.specs.Rfc3629.{encode};
ghost use Rattle.salvage.specs.Lines.{no_feed, is_utf8};
ghost use Rattle.salvage.specs.Mending.{mend as mendOf, mended_line, mended, high_bytes, line_changes, changes};
ghost use Rattle.salvage.specs.Restoring.{listed, belongs, belonging, restored, restore as restoreOf};
ghost use Rattle.salvage.specs.Cited.Steps.{Mends, unmended_coded, unrestored_coded, Restores, Run, LineAt, HighCounted, LineCounted, Counted, Fits, Put, Whole};

use lists::Refusing;

// Why notes are not mended: they are too long, so many changes outnumber the list's places, or there is no room for so many bytes.
#[derive(Clone, Copy, Debug, PartialEq, Eq)]
pub enum Unmended {
    Long,
    Full(usize),
    Room(usize),
}

impl Refusing for Unmended {
    ghost coded = { unmended_coded };

    fn number(self) -> u64 {
        match self {
            Unmended::Long => lists::number(2, 0),
            Unmended::Full(number) => lists::number(7, number),
            Unmended::Room(needed) => lists::number(5, needed),
        }
    }
}

// Why a copy is not restored: it is too long, an entry does not belong to it, or there is no room for so many bytes.
#[derive(Clone, Copy, Debug, PartialEq, Eq)]
pub enum Unrestored {
    Long,
    Stray(usize),
    Room(usize),
}

impl Refusing for Unrestored {
    ghost coded = { unrestored_coded };

    fn number(self) -> u64 {
        match self {
            Unrestored::Long => lists::number(2, 0),
            Unrestored::Stray(entry) => lists::number(11, entry),
            Unrestored::Room(needed) => lists::number(5, needed),
        }
    }
}

// The answer to notes: the length of their copy, which is in `copy`, and what was changed is in `places` and `bytes`. All is measured before
// anything is written.
pub fn mend(
    notes: &[u8],
    copy: &mut [u8],
    places: &mut [u32],
    bytes: &mut [u8],
) -> Result<usize, Unmended>
    ensures { Mends (mendOf notes.now (length copy.old) (min (length places.old) (length bytes.old))) copy.old places.old bytes.old result copy.new places.new bytes.new }
{
    if 65536 < notes.len() {
        return Err(Unmended::Long);
    }
    let changed = count_changes(notes);
    if places.len().min(bytes.len()) < changed {
        return Err(Unmended::Full(changed));
    }
    let needed = notes.len() + changed;
    if copy.len() < needed {
        return Err(Unmended::Room(needed));
    }
    put_all(notes, copy, places, bytes);
    Ok(needed)
}

// ---- measuring

// How many bytes mending changes: each gives the copy one byte more.
fn count_changes(notes: &[u8]) -> usize
    requires { length notes.now ≤ 65536 }
    ensures { Counted notes.now result }
{
    let mut count = 0;
    let mut at = 0;
    while at < notes.len() {
        let end = line_end(notes, at);
        count += line_changes(&notes[at..end]);
        at = end;
    }
    count
}

// How many bytes of a line are changed.
fn line_changes(line: &[u8]) -> usize
    ensures { LineCounted line.now result }
{
    if is_well_formed(line) {
        0
    } else {
        high_bytes(line)
    }
}

// How many bytes are 0x80 or more.
fn high_bytes(line: &[u8]) -> usize
    ensures { HighCounted line.now result }
{
    // Not by `filter` and `count`, which ask byte by byte: this is made sums of eight and more at once.
    let mut n = 0;
    for i in 0..line.len() {
        n += high_byte(line[i]);
    }
    n
}

fn high_byte(octet: u8) -> usize
    ensures { HighCounted (octet ∷ []) result }
{
    if octet < 0x80 { 0 } else { 1 }
}

// ---- lines

// The place after the line that begins at a place: after its line feed, or the end.
fn line_end(s: &[u8], at: usize) -> usize
    requires { at < length s.now }
    ensures { LineAt s.now at result }
{
    for i in feedless_eights(s, at)..s.len() {
        if s[i] == 10 {
            return i + 1;
        }
    }
    s.len()
}

// On over bytes that are no line feed, as long as the next eight are none: eight tests without a branch between them are as quick as one.
fn feedless_eights(s: &[u8], from: usize) -> usize
    requires { from ≤ length s.now }
    ensures { Run no_feed s.now from result }
{
    let mut i = from;
    while 8 <= s.len() - i {
        if are_feedless(s, i) {
            i += 8;
        } else {
            return i;
        }
    }
    i
}

// Whether no line feed is among the eight bytes at a place.
fn are_feedless(s: &[u8], i: usize) -> bool
    requires { (i ≤ length s.now) × (8 ≤ length s.now - i) }
    ensures { result ≡ true → Run no_feed s.now i (i + 8) }
{
    let b = i + 1;
    let c = i + 2;
    let d = i + 3;
    let e = i + 4;
    let f = i + 5;
    let g = i + 6;
    let h = i + 7;
    (s[i] != 10)
        & (s[b] != 10)
        & (s[c] != 10)
        & (s[d] != 10)
        & (s[e] != 10)
        & (s[f] != 10)
        & (s[g] != 10)
        & (s[h] != 10)
}

// Whether a line is well formed: by RFC 3629 in full, whatever formatting accepts.
fn is_well_formed(line: &[u8]) -> bool
    ensures { result ≡ is_utf8 line.now }
{
    let mut i = 0;
    while i < line.len() {
        if line[i] < 0x80 {
            i = text::ascii_end(line, i + 1);
        } else {
            let Some(c) = text::decode_at(line, i) else {
                return false;
            };
            i = c.next;
        }
    }
    true
}

// ---- writing: a place in the copy is the place in the notes and the number of changes before it

// Writes the copy and the list, for which there is room.
fn put_all(notes: &[u8], copy: &mut [u8], places: &mut [u32], bytes: &mut [u8])
    requires { (length notes.now ≤ 65536) × Fits 0 0 (mended notes.now) (changes notes.now) copy.old places.old bytes.old }
    ensures { (copy.new ≡ sets copy.old 0 (mended notes.now)) × (places.new ≡ sets places.old 0 (map (λ c. c.place) (changes notes.now))) × (bytes.new ≡ sets bytes.old 0 (map (λ c. c.byte) (changes notes.now))) }
{
    let mut n = 0;
    let mut at = 0;
    while at < notes.len() {
        let end = line_end(notes, at);
        n = put_line(&notes[at..end], at, n, copy, places, bytes);
        at = end;
    }
}

// Writes a line that begins at a place after so many changes, and answers how many there are then.
fn put_line(
    line: &[u8],
    at: usize,
    n: usize,
    copy: &mut [u8],
    places: &mut [u32],
    bytes: &mut [u8],
) -> usize
    requires { (at + length line.now ≤ 65536) × Fits at n (mended_line line.now) (line_changes at line.now) copy.old places.old bytes.old }
    ensures { Put at n (mended_line line.now) (line_changes at line.now) copy.old places.old bytes.old (at + length line.now) result copy.new places.new bytes.new }
{
    if is_well_formed(line) {
        put_text(line, copy, at + n);
        n
    } else {
        put_mended(line, at, n, copy, places, bytes)
    }
}

// Writes a line whose bytes from 0x80 on are changed.
fn put_mended(
    line: &[u8],
    at: usize,
    n: usize,
    copy: &mut [u8],
    places: &mut [u32],
    bytes: &mut [u8],
) -> usize
    requires { (at + length line.now ≤ 65536) × Fits at n (joined encode line.now) (high_bytes at line.now) copy.old places.old bytes.old }
    ensures { Put at n (joined encode line.now) (high_bytes at line.now) copy.old places.old bytes.old (at + length line.now) result copy.new places.new bytes.new }
{
    let mut m = n;
    for i in 0..line.len() {
        m = put_byte(line[i], at + i, m, copy, places, bytes);
    }
    m
}

// Writes a byte of such a line: from 0x80 on as two, with an entry in the list.
fn put_byte(
    b: u8,
    at: usize,
    n: usize,
    copy: &mut [u8],
    places: &mut [u32],
    bytes: &mut [u8],
) -> usize
    requires { (at < 65536) × Fits at n (encode b) (high_bytes at (b ∷ [])) copy.old places.old bytes.old }
    ensures { Put at n (encode b) (high_bytes at (b ∷ [])) copy.old places.old bytes.old (at + 1) result copy.new places.new bytes.new }
{
    let to = at + n;
    if b < 0x80 {
        copy[to] = b;
        return n;
    }
    let second = to + 1;
    copy[to] = 0xC0 + b / 64;
    copy[second] = 0x80 + b % 64;
    places[n] = at as u32;
    bytes[n] = b;
    n + 1
}

// A text, written as it is from a place on: `copy_from_slice` would call `memmove`, which a host may not have.
fn put_text(text: &[u8], out: &mut [u8], at: usize)
    requires { at + length text.now ≤ length out.old }
    ensures { out.new ≡ sets out.old at text.now }
{
    for i in 0..text.len() {
        out[at + i] = text[i];
    }
}

// ---- the way back

// The answer to a copy and its list: the length of the old notes, which are in `notes`. All is measured before anything is written.
pub fn restore(
    copy: &[u8],
    places: &[u32],
    bytes: &[u8],
    notes: &mut [u8],
) -> Result<usize, Unrestored>
    ensures { Restores (restoreOf copy.now (listed places.now bytes.now) (length notes.old)) notes.old result notes.new }
{
    if 131072 < copy.len() {
        return Err(Unrestored::Long);
    }
    let count = places.len().min(bytes.len());
    let fit = count_belonging(copy, places, bytes);
    if fit < count {
        return Err(Unrestored::Stray(fit));
    }
    let needed = copy.len() - count;
    if notes.len() < needed {
        return Err(Unrestored::Room(needed));
    }
    put_back(copy, places, bytes, notes);
    Ok(needed)
}

// How many entries belong to the copy, up to the first that does not.
fn count_belonging(copy: &[u8], places: &[u32], bytes: &[u8]) -> usize
    requires { length copy.now ≤ 131072 }
    ensures { result ≡ belonging 0 copy.now (listed places.now bytes.now) }
{
    let count = places.len().min(bytes.len());
    let mut at = 0;
    for k in 0..count {
        let place = places[k] as usize;
        if !is_belonging(copy, at, k, place, bytes[k]) {
            return k;
        }
        at = place + 1;
    }
    count
}

// Whether an entry after k others belongs to the copy from the old place `at` on. (Past its end 0 is read, which is neither octet.)
fn is_belonging(copy: &[u8], at: usize, k: usize, place: usize, byte: u8) -> bool
    requires { (at + k ≤ length copy.now) × (length copy.now ≤ 131072) × (place < 2 ^ 32) }
    ensures { result ≡ belongs at (drop (at + k) copy.now) (record { place = place; byte = byte }) }
{
    let first = place + k;
    let one = copy.get(first).copied().unwrap_or(0);
    let two = copy.get(first + 1).copied().unwrap_or(0);
    (at <= place) & (0x80 <= byte) & (one == 0xC0 + byte / 64) & (two == 0x80 + byte % 64)
}

// Writes the old notes, for which there is room, from a copy to which the whole list belongs.
fn put_back(copy: &[u8], places: &[u32], bytes: &[u8], notes: &mut [u8])
    requires { Whole copy.now (listed places.now bytes.now) notes.old }
    ensures { notes.new ≡ sets notes.old 0 (restored 0 copy.now (listed places.now bytes.now)) }
{
    let count = places.len().min(bytes.len());
    let mut at = 0;
    for k in 0..count {
        let place = places[k] as usize;
        let from = at + k;
        let to = place + k;
        put_text(&copy[from..to], notes, at);
        notes[place] = bytes[k];
        at = place + 1;
    }
    let rest = at + count;
    put_text(&copy[rest..], notes, at);
}
