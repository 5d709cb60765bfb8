// Notes to be formatted, with the option block that says how: what all work on them is given.
ghost use Rattle.walk.specs.Cited.Course.{Admitted};

use options::Options;

// The block is accepted and gives these options, and the notes are no longer than they may be, and without damage unless it is kept: once it is
// known, no function asks it again.
#[derive(Clone, Copy, Debug)]
pub struct Notes<'a> {
    pub options: Options,
    pub block: &'a [u8],
    pub bytes: &'a [u8],
    ghost admitted: { Admitted block.now bytes.now options },
}
