// What rounds are held to: a setting that keeps its limits, and a round's turn under it.
ghost use Rattle.std.specs.Prelude.{◌≡◌};
ghost use Rattle.knuth_plass.specs.KnuthPlass.{stretch_of, minimum_of};
ghost use Rattle.knuth_plass.specs.Cited.Round as R;

use super::Turn;
use spacing::Setting;

// A setting that keeps the limits: once it is known, no function asks it again.
#[derive(Clone, Copy, Debug, PartialEq, Eq)]
pub struct Goals {
    pub setting: Setting,
    ghost limits: { R.Limits setting },
}

impl Goals {
    // How much longer than the goal a line may be, or how much shorter.
    pub fn stretch(self) -> usize
        ensures { result ≡ stretch_of self.setting }
    {
        self.setting.width - self.setting.goal
    }

    // The least length of a line that may end.
    pub fn minimum(self) -> usize
        ensures { result ≡ minimum_of self.setting }
    {
        self.setting.goal - self.stretch()
    }
}

// A round: its turn, under a setting.
#[derive(Clone, Copy, Debug, PartialEq, Eq)]
pub struct Round {
    pub goals: Goals,
    pub turn: Turn,
    ghost turns: { R.Turns goals.setting turn },
}
