// Digests by mail, as a host calls them: format=flowed, RFC 3676, DelSp=no. The work is in the crates flow and
// unflow.
ghost use Rattle.std.specs.Prelude.{◌≡◌, ◌^◌, ◌<◌, length};
ghost use Rattle.lists.specs.Coded.{numbered, result_coded};
ghost use Rattle.formatter.specs.Answers.{answer_coded, output_after};
ghost use Rattle.formatter.specs.Format.{own_room};
ghost use Rattle.formatter.specs.Work.{lending};
ghost use Rattle.formatter.specs.Cited.Call.{unwritten_coded};
ghost use Rattle.unflow.specs.Unflow.{unflow as reading, unflow_coded, unflow_output_after};
ghost use Rattle.flow.specs.Answers.{flow as sending, dashes_of};
ghost use Rattle.flow.specs.Cited.Sending.{reply_of, dashes_told};

use flow::Sent;
use formatter::Unwritten;

// The notes written as mail: the answer's number, the output as the answer leaves it, and the count of lines `--`, which is 0 on a refusal.
pub fn rudignals_flow(options: &[u8], notes: &[u8], output: &mut [u8], dashes: &mut u64) -> u64
    ensures { (result ≡ numbered (answer_coded (sending own_room options.now notes.now (length output.old)))) × (output.new ≡ output_after (sending own_room options.now notes.now (length output.old)) output.old) × (dashes.new ≡ dashes_of own_room options.now notes.now (length output.old)) }
{
    tell(flow::flow(options, notes, output), dashes)
}

// The same for notes of up to 1 MiB, in working room that the host lends.
pub fn rudignals_flow_large(
    options: &[u8],
    notes: &[u8],
    output: &mut [u8],
    dashes: &mut u64,
    work: &mut [u32],
) -> u64
    ensures { (result ≡ numbered (answer_coded (sending (lending (length work.old)) options.now notes.now (length output.old)))) × (output.new ≡ output_after (sending (lending (length work.old)) options.now notes.now (length output.old)) output.old) × (dashes.new ≡ dashes_of (lending (length work.old)) options.now notes.now (length output.old)) }
{
    tell(flow::flow_lent(options, notes, output, work), dashes)
}

// The answer's number, and the count of lines `--` as the host gets it.
fn tell(r: Result<Sent, Unwritten>, dashes: &mut u64) -> u64
    requires { numbered (result_coded unwritten_coded (reply_of r)) < 2 ^ 64 }
    ensures { (result ≡ numbered (result_coded unwritten_coded (reply_of r))) × (dashes.new ≡ dashes_told r) }
{
    *dashes = match r {
        Ok(sent) => sent.dashes as u64,
        Err(_) => 0,
    };
    lists::number_of(r.map(|sent| sent.written))
}

// Mail read: the answer's number, and the output as the answer leaves it, each paragraph of the mail a line.
pub fn rudignals_unflow(text: &[u8], output: &mut [u8]) -> u64
    ensures { (result ≡ numbered (unflow_coded (reading text.now (length output.old)))) × (output.new ≡ unflow_output_after (reading text.now (length output.old)) output.old) }
{
    lists::number_of(unflow::unflow(text, output))
}
