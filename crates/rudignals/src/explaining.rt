// The call of RULES 13: why an output line ends where it does. The work is in the crate explain.
ghost use Rattle.std.specs.Prelude.{◌≡◌, length};
ghost use Rattle.formatter.specs.Format.{own_room};
ghost use Rattle.formatter.specs.Work.{lending};
ghost use Rattle.lists.specs.Coded.{numbered};
ghost use Rattle.explain.specs.Explain.{explaining, explain_coded, reason_after};

// The answer's number, and the kind and its numbers as the answer leaves them: on a refusal they are unchanged.
pub fn rudignals_explain(options: &[u8], notes: &[u8], line: u64, reason: &mut [u64; 6]) -> u64
    ensures { (result ≡ numbered (explain_coded (explaining own_room options.now notes.now line))) × (reason.new ≡ reason_after (explaining own_room options.now notes.now line) reason.old) }
{
    explain::tell(explain::explain(options, notes, line), reason)
}

// The same in working room that the host lends, which may hold anything.
pub fn rudignals_explain_large(
    options: &[u8],
    notes: &[u8],
    line: u64,
    reason: &mut [u64; 6],
    work: &mut [u32],
) -> u64
    ensures { (result ≡ numbered (explain_coded (explaining (lending (length work.old)) options.now notes.now line))) × (reason.new ≡ reason_after (explaining (lending (length work.old)) options.now notes.now line) reason.old) }
{
    explain::tell(explain::explain_large(options, notes, line, work), reason)
}
