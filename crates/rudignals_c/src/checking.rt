// The call of RULES 18 for C.
ghost use Rattle.std.specs.Prelude.{◌≡◌, length};
ghost use Rattle.formatter.specs.Format.{own_room};
ghost use Rattle.formatter.specs.Work.{lending};
ghost use Rattle.lists.specs.Coded.{numbered};
ghost use Rattle.judge.specs.Answers.{check_coded};
ghost use Rattle.judge.specs.Checking.{checking};

#[unsafe(no_mangle)]
pub extern "C" fn rudignals_check(options: &[u8], notes: &[u8], digest: &[u8]) -> u64
    ensures { result ≡ numbered (check_coded (checking own_room options.now notes.now digest.now)) }
{
    rudignals::checking::rudignals_check(options, notes, digest)
}

#[unsafe(no_mangle)]
pub extern "C" fn rudignals_check_large(
    options: &[u8],
    notes: &[u8],
    digest: &[u8],
    work: &mut [u32],
) -> u64
    ensures { result ≡ numbered (check_coded (checking (lending (length work.old)) options.now notes.now digest.now)) }
{
    rudignals::checking::rudignals_check_large(options, notes, digest, work)
}
