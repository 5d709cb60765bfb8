// The call: an option block and notes in, their digest or a refusal out. The work is in the crates below.
#![tactic(auto)]

pub mod checking;
pub mod explaining;
pub mod indexing;
pub mod mail;
pub mod mending;
pub mod wall;

ghost use Rattle.std.specs.Prelude.{◌≡◌, length};
ghost use Rattle.lists.specs.Coded.{numbered};
ghost use Rattle.formatter.specs.Answers.{answer_coded, output_after};
ghost use Rattle.formatter.specs.Format.{own_room, answer, measuring, writing};
ghost use Rattle.formatter.specs.Work.{lending};

// What a host calls to learn how much room it needs: the code, and for 0 the digest's length. Nothing is written.
pub fn rudignals_measure(options: &[u8], notes: &[u8]) -> u64
    ensures { result ≡ numbered (answer_coded (measuring own_room options.now notes.now)) }
{
    lists::number_of(formatter::measure(options, notes))
}

// What it calls then: the answer's number, and the output as the answer leaves it.
pub fn rudignals_write(options: &[u8], notes: &[u8], output: &mut [u8]) -> u64
    ensures { (result ≡ numbered (answer_coded (writing own_room options.now notes.now (length output.old)))) × (output.new ≡ output_after (writing own_room options.now notes.now (length output.old)) output.old) }
{
    lists::number_of(formatter::write(options, notes, output))
}

// The two in sequence. Writing follows whatever measuring tells: where that refuses with code 4, the output is still to be zeroed.
pub fn rudignals_format(options: &[u8], notes: &[u8], output: &mut [u8]) -> u64
    ensures { (result ≡ numbered (answer_coded (answer own_room options.now notes.now (length output.old)))) × (output.new ≡ output_after (answer own_room options.now notes.now (length output.old)) output.old) }
{
    rudignals_measure(options, notes);
    rudignals_write(options, notes, output)
}

// The same two for notes of up to 1 MiB, with paragraphs of any number of words, in working room that the host lends.
pub fn rudignals_measure_large(options: &[u8], notes: &[u8], work: &mut [u32]) -> u64
    ensures { result ≡ numbered (answer_coded (measuring (lending (length work.old)) options.now notes.now)) }
{
    lists::number_of(formatter::measure_lent(options, notes, work))
}

pub fn rudignals_write_large(
    options: &[u8],
    notes: &[u8],
    output: &mut [u8],
    work: &mut [u32],
) -> u64
    ensures { (result ≡ numbered (answer_coded (writing (lending (length work.old)) options.now notes.now (length output.old)))) × (output.new ≡ output_after (writing (lending (length work.old)) options.now notes.now (length output.old)) output.old) }
{
    lists::number_of(formatter::write_lent(options, notes, output, work))
}
