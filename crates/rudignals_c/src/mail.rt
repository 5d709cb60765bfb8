// Digests by mail for C.
ghost use Rattle.std.specs.Prelude.{◌≡◌, length};
ghost use Rattle.lists.specs.Coded.{numbered};
ghost use Rattle.formatter.specs.Answers.{answer_coded, output_after};
ghost use Rattle.formatter.specs.Format.{own_room};
ghost use Rattle.formatter.specs.Work.{lending};
ghost use Rattle.unflow.specs.Unflow.{unflow as reading, unflow_coded, unflow_output_after};
ghost use Rattle.flow.specs.Answers.{flow as sending, dashes_of};

#[unsafe(no_mangle)]
pub extern "C" fn rudignals_flow(
    options: &[u8],
    notes: &[u8],
    output: &mut [u8],
    dashes: &mut u64,
) -> u64
    ensures { (result ≡ numbered (answer_coded (sending own_room options.now notes.now (length output.old)))) × (output.new ≡ output_after (sending own_room options.now notes.now (length output.old)) output.old) × (dashes.new ≡ dashes_of own_room options.now notes.now (length output.old)) }
{
    rudignals::mail::rudignals_flow(options, notes, output, dashes)
}

#[unsafe(no_mangle)]
pub extern "C" fn rudignals_flow_large(
    options: &[u8],
    notes: &[u8],
    output: &mut [u8],
    dashes: &mut u64,
    work: &mut [u32],
) -> u64
    ensures { (result ≡ numbered (answer_coded (sending (lending (length work.old)) options.now notes.now (length output.old)))) × (output.new ≡ output_after (sending (lending (length work.old)) options.now notes.now (length output.old)) output.old) × (dashes.new ≡ dashes_of (lending (length work.old)) options.now notes.now (length output.old)) }
{
    rudignals::mail::rudignals_flow_large(options, notes, output, dashes, work)
}

#[unsafe(no_mangle)]
pub extern "C" fn rudignals_unflow(text: &[u8], output: &mut [u8]) -> u64
    ensures { (result ≡ numbered (unflow_coded (reading text.now (length output.old)))) × (output.new ≡ unflow_output_after (reading text.now (length output.old)) output.old) }
{
    rudignals::mail::rudignals_unflow(text, output)
}
