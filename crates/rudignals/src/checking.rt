// The call of RULES 18: the digest that another site sent with its notes is checked. The work is in the crates checker and judge.
ghost use Rattle.std.specs.Prelude.{◌≡◌, length};
ghost use Rattle.formatter.specs.Format.{own_room};
ghost use Rattle.formatter.specs.Work.{lending};
ghost use Rattle.lists.specs.Coded.{numbered};
ghost use Rattle.judge.specs.Answers.{check_coded};
ghost use Rattle.judge.specs.Checking.{checking};

// The answer's number. Nothing is written.
pub fn rudignals_check(options: &[u8], notes: &[u8], digest: &[u8]) -> u64
    ensures { result ≡ numbered (check_coded (checking own_room options.now notes.now digest.now)) }
{
    judge::number_of(judge::check(options, notes, digest))
}

// The same in working room that the host lends, which may hold anything.
pub fn rudignals_check_large(options: &[u8], notes: &[u8], digest: &[u8], work: &mut [u32]) -> u64
    ensures { result ≡ numbered (check_coded (checking (lending (length work.old)) options.now notes.now digest.now)) }
{
    judge::number_of(judge::check_large(options, notes, digest, work))
}
