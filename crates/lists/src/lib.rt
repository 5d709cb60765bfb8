// What the crates above share: an answer's number; definitions and laws of lists worked off from the front, leading runs and tables.
#![tactic(auto)]

ghost use Rattle.std.specs.Prelude.{◌≡◌, ℕ, ◌+◌, ◌*◌, ◌^◌, ◌<◌};
ghost use Rattle.lists.specs.Coded.{Coded, coded, numbered, result_coded};

// An answer's number: its code is in the upper 32 bits, what it tells in the lower.
#[tactic(auto, unfolding(crate::specs::Coded::numbered))]
pub fn number(code: u64, told: usize) -> u64
    requires { code * 2 ^ 32 + told < 2 ^ 64 }
    ensures { result ≡ numbered (coded code told) }
{
    code * 0x1_0000_0000 + told as u64
}

// Why a call is refused: each reason has a code and an N.
pub trait Refusing {
    ghost coded: { Self → Coded };

    fn number(self) -> u64
        requires { numbered (coded self) < 2 ^ 64 }
        ensures { result ≡ numbered (coded self) };
}

// The number of an answer that is a length or why there is none.
#[tactic(auto, unfolding(crate::specs::Coded::numbered))]
pub fn number_of<E: Refusing>(answer: Result<usize, E>) -> u64
    requires { numbered (result_coded E.coded answer) < 2 ^ 64 }
    ensures { result ≡ numbered (result_coded E.coded answer) }
{
    match answer {
        Ok(n) => n as u64,
        Err(e) => e.number(),
    }
}
