// What C calls: each call of include/rudignals.h under its name, which is the call of the crate rudignals with the same promise. A crate is a
// library for Rattle or one for C, not both.
#![tactic(auto)]

pub mod checking;
pub mod explaining;
pub mod indexing;
pub mod mail;
pub mod mending;
pub mod wall;

ghost use Rattle.std.specs.Prelude.{◌≡◌, length};
ghost use Rattle.lists.specs.Coded.{numbered};
ghost use Rattle.formatter.specs.Answers.{answer_coded, output_after};
ghost use Rattle.formatter.specs.Format.{own_room, answer, measuring, writing};
ghost use Rattle.formatter.specs.Work.{lending};

#[unsafe(no_mangle)]
pub extern "C" fn rudignals_measure(options: &[u8], notes: &[u8]) -> u64
    ensures { result ≡ numbered (answer_coded (measuring own_room options.now notes.now)) }
{
    rudignals::rudignals_measure(options, notes)
}

#[unsafe(no_mangle)]
pub extern "C" fn rudignals_write(options: &[u8], notes: &[u8], output: &mut [u8]) -> u64
    ensures { (result ≡ numbered (answer_coded (writing own_room options.now notes.now (length output.old)))) × (output.new ≡ output_after (writing own_room options.now notes.now (length output.old)) output.old) }
{
    rudignals::rudignals_write(options, notes, output)
}

#[unsafe(no_mangle)]
pub extern "C" fn rudignals_format(options: &[u8], notes: &[u8], output: &mut [u8]) -> u64
    ensures { (result ≡ numbered (answer_coded (answer own_room options.now notes.now (length output.old)))) × (output.new ≡ output_after (answer own_room options.now notes.now (length output.old)) output.old) }
{
    rudignals::rudignals_format(options, notes, output)
}

#[unsafe(no_mangle)]
pub extern "C" fn rudignals_measure_large(options: &[u8], notes: &[u8], work: &mut [u32]) -> u64
    ensures { result ≡ numbered (answer_coded (measuring (lending (length work.old)) options.now notes.now)) }
{
    rudignals::rudignals_measure_large(options, notes, work)
}

#[unsafe(no_mangle)]
pub extern "C" fn rudignals_write_large(
    options: &[u8],
    notes: &[u8],
    output: &mut [u8],
    work: &mut [u32],
) -> u64
    ensures { (result ≡ numbered (answer_coded (writing (lending (length work.old)) options.now notes.now (length output.old)))) × (output.new ≡ output_after (writing (lending (length work.old)) options.now notes.now (length output.old)) output.old) }
{
    rudignals::rudignals_write_large(options, notes, output, work)
}
