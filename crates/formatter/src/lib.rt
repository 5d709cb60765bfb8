// What the calls stand on: codes 1 to 3, then the digest measured or written, and the number of a refusal.
#![tactic(auto)]

ghost use Rattle.std.specs.Prelude.{◌≡◌, List, ℕ, ◌≤◌, length};
ghost use Rattle.options.specs.Opts.{meant};
ghost use Rattle.lines.specs.Cited.Places.{most_large};
ghost use Rattle.walk.specs.Digest.{digest};
ghost use Rattle.walk.specs.Work.{work_for};
ghost use Rattle.formatter.specs.Answers.{done, refusal_coded};
ghost use Rattle.formatter.specs.Format.{Words, own_room, damage_in, with_digest, measured, measuring, in_room, writing};
ghost use Rattle.formatter.specs.Work.{lending};
ghost use Rattle.formatter.specs.declared.Refusal.TheVariants.{Options as Faulty, Words as Many};
ghost use Rattle.formatter.specs.declared.Unwritten.TheVariants.{Refused};
ghost use Rattle.formatter.specs.Cited.Call.{told, unwritten_coded, Answers, left_of, AdmitsNotes, Admits, AdmitsWithin, AdmitsLent, Given};

use lists::Refusing;
use options::{Fault, Options};
use walk::Stopped;
use walk::notes::Notes;

// Why there is no digest, with what is told of it: `Words` with the calls' own room, `Work` where room is lent.
#[derive(Clone, Copy, Debug, PartialEq, Eq)]
pub enum Refusal {
    Options(usize),
    Long,
    Text(usize),
    Words(usize),
    Work(usize),
}

// Why measuring and writing reply no length: there is no digest, or it needs so much room.
#[derive(Clone, Copy, Debug, PartialEq, Eq)]
pub enum Unwritten {
    Refused(Refusal),
    Room(usize),
}

impl From<Fault> for Refusal {
    ghost from_gives = { λ fault r. r ≡ Faulty fault.at };

    fn from(fault: Fault) -> Refusal {
        Refusal::Options(fault.at)
    }
}

impl From<Stopped> for Refusal {
    ghost from_gives = { λ stopped r. r ≡ Many stopped.at };

    fn from(stopped: Stopped) -> Refusal {
        Refusal::Words(stopped.at)
    }
}

impl From<Refusal> for Unwritten {
    ghost from_gives = { λ r u. u ≡ Refused r };

    fn from(r: Refusal) -> Unwritten {
        Unwritten::Refused(r)
    }
}

impl From<Stopped> for Unwritten {
    ghost from_gives = { λ stopped u. u ≡ Refused (Many stopped.at) };

    fn from(stopped: Stopped) -> Unwritten {
        Unwritten::Refused(Refusal::Words(stopped.at))
    }
}

// A refusal's number.
impl Refusing for Refusal {
    ghost coded = { refusal_coded };

    fn number(self) -> u64 {
        match self {
            Refusal::Options(place) => lists::number(1, place),
            Refusal::Long => lists::number(2, 0),
            Refusal::Text(place) => lists::number(3, place),
            Refusal::Words(place) => lists::number(4, place),
            Refusal::Work(needed) => lists::number(12, needed),
        }
    }
}

impl Refusing for Unwritten {
    ghost coded = { unwritten_coded };

    fn number(self) -> u64 {
        match self {
            Unwritten::Refused(r) => r.number(),
            Unwritten::Room(needed) => lists::number(5, needed),
        }
    }
}

// What measuring replies, the digest's length: the lowest code wins.
pub fn measure(block: &[u8], notes: &[u8]) -> Result<usize, Unwritten>
    ensures { result ≡ told (measuring own_room block.now notes.now) }
{
    let admitted = admit(block, notes)?;
    measure_notes(admitted)
}

// What writing replies, likewise.
pub fn write(block: &[u8], notes: &[u8], out: &mut [u8]) -> Result<usize, Unwritten>
    ensures { Answers (writing own_room block.now notes.now (length out.old)) out.old result out.new }
{
    let admitted = admit(block, notes)?;
    write_notes(admitted, out)
}

// Codes 1 to 3, or the notes with the options with which they are to be formatted.
pub fn admit<'a>(block: &'a [u8], notes: &'a [u8]) -> Result<Notes<'a>, Refusal>
    ensures admits { Admits own_room block.now notes.now result }
    ensures given { Given block.entry notes.entry result }
{
    admit_within(block, notes, MOST_BYTES)
}

// Notes are refused if they are longer; where working room is lent, if they are longer than this.
const MOST_BYTES: usize = 65536;

pub const MOST_LARGE: usize = 1048576;

// The same with notes of up to so many bytes.
pub fn admit_within<'a>(block: &'a [u8], notes: &'a [u8], most: usize) -> Result<Notes<'a>, Refusal>
    requires { most ≤ most_large }
    ensures admits { AdmitsWithin most block.now notes.now result }
    ensures given { Given block.entry notes.entry result }
{
    let options = options::read_block(block)?;
    refuse_notes(options, notes, most)?;
    Ok(Notes {
        options,
        block,
        bytes: notes,
    })
}

// The same with the options of an accepted block: codes 2 and 3.
fn refuse_notes(o: Options, notes: &[u8], most: usize) -> Result<(), Refusal>
    ensures { (w : Words) (block : List ℕ) → AdmitsNotes (record { bytes = most; words = w }) block o notes.now result }
{
    if most < notes.len() {
        return Err(Refusal::Long);
    }
    match damage_in(o.keep, notes) {
        Some(place) => Err(Refusal::Text(place)),
        None => Ok(()),
    }
}

// The first damaged character, if it is to be refused. With keep on, damaged lines are plain lines.
fn damage_in(keep: bool, notes: &[u8]) -> Option<usize>
    ensures { result ≡ damage_in keep notes.now }
{
    if keep {
        None
    } else {
        text::first_damage(notes)
    }
}

// Measures the notes.
fn measure_notes(notes: Notes) -> Result<usize, Unwritten>
    ensures { result ≡ told (left_of own_room (meant notes.entry.block.now notes.entry.options) notes.entry.bytes.now done) }
{
    Ok(walk::measure_all(notes)?)
}

// Writes the notes' digest.
fn write_notes(notes: Notes, out: &mut [u8]) -> Result<usize, Unwritten>
    ensures { Answers (left_of own_room (meant notes.entry.block.now notes.entry.options) notes.entry.bytes.now (with_digest (length out.old))) out.old result out.new }
{
    let needed = walk::put_all(notes, out)?;
    if out.len() < needed {
        out.fill(0);
        return Err(Unwritten::Room(needed));
    }
    Ok(needed)
}

// ---- with working room that is lent

// N has 32 bits: a digest that is longer is refused for want of room.
const MOST_TOLD: usize = 4294967295;

// What measuring replies.
pub fn measure_lent(block: &[u8], notes: &[u8], work: &mut [u32]) -> Result<usize, Unwritten>
    ensures { result ≡ told (measuring (lending (length work.old)) block.now notes.now) }
{
    let admitted = admit_lent(block, notes, work.len())?;
    measure_large(admitted, work)
}

// What writing replies.
pub fn write_lent(
    block: &[u8],
    notes: &[u8],
    out: &mut [u8],
    work: &mut [u32],
) -> Result<usize, Unwritten>
    ensures { Answers (writing (lending (length work.old)) block.now notes.now (length out.old)) out.old result out.new }
{
    let admitted = admit_lent(block, notes, work.len())?;
    write_large(admitted, out, work)
}

// Codes 1 to 3 and 12, or the notes with the options with which they are to be formatted, in so many numbers. All of it before a byte is written.
#[tactic(auto, using(crate::proofs::Replies::within_refused))]
pub fn admit_lent<'a>(block: &'a [u8], notes: &'a [u8], lends: usize) -> Result<Notes<'a>, Refusal>
    ensures admits { AdmitsLent lends block.now notes.now result }
    ensures given { Given block.entry notes.entry result }
{
    let admitted = admit_within(block, notes, MOST_LARGE)?;
    let needed = walk::work_over(admitted, lends);
    if lends < needed {
        return Err(Refusal::Work(needed));
    }
    Ok(admitted)
}

// Measures the notes in room that is enough.
fn measure_large(notes: Notes, work: &mut [u32]) -> Result<usize, Unwritten>
    requires { work_for (meant notes.block.now notes.options) notes.bytes.now ≤ length work.old }
    ensures { result ≡ told (measured (lending (length work.old)).words (digest (meant notes.entry.block.now notes.entry.options) notes.entry.bytes.now)) }
{
    let mut none = [0u8; 0];
    let needed = walk::put_all_lent(notes, &mut none, work);
    if MOST_TOLD < needed {
        return Err(Unwritten::Room(MOST_TOLD));
    }
    Ok(needed)
}

// Writes their digest.
fn write_large(notes: Notes, out: &mut [u8], work: &mut [u32]) -> Result<usize, Unwritten>
    requires { work_for (meant notes.block.now notes.options) notes.bytes.now ≤ length work.old }
    ensures { Answers (in_room (length out.old) (measured (lending (length work.old)).words (digest (meant notes.entry.block.now notes.entry.options) notes.entry.bytes.now))) out.old result out.new }
{
    let needed = walk::put_all_lent(notes, out, work);
    if MOST_TOLD < needed || out.len() < needed {
        out.fill(0);
        return Err(Unwritten::Room(needed.min(MOST_TOLD)));
    }
    Ok(needed)
}
