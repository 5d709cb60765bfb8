// The call of RULES 13 for C.
ghost use Rattle.std.specs.Prelude.{◌≡◌, length};
ghost use Rattle.formatter.specs.Format.{own_room};
ghost use Rattle.formatter.specs.Work.{lending};
ghost use Rattle.lists.specs.Coded.{numbered};
ghost use Rattle.explain.specs.Explain.{explaining, explain_coded, reason_after};

#[unsafe(no_mangle)]
pub extern "C" fn rudignals_explain(
    options: &[u8],
    notes: &[u8],
    line: u64,
    reason: &mut [u64; 6],
) -> u64
    ensures { (result ≡ numbered (explain_coded (explaining own_room options.now notes.now line))) × (reason.new ≡ reason_after (explaining own_room options.now notes.now line) reason.old) }
{
    rudignals::explaining::rudignals_explain(options, notes, line, reason)
}

#[unsafe(no_mangle)]
pub extern "C" fn rudignals_explain_large(
    options: &[u8],
    notes: &[u8],
    line: u64,
    reason: &mut [u64; 6],
    work: &mut [u32],
) -> u64
    ensures { (result ≡ numbered (explain_coded (explaining (lending (length work.old)) options.now notes.now line))) × (reason.new ≡ reason_after (explaining (lending (length work.old)) options.now notes.now line) reason.old) }
{
    rudignals::explaining::rudignals_explain_large(options, notes, line, reason, work)
}
