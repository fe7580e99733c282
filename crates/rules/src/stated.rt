// What a caller states beside the texts: H, and the edition of constraints.json. The entries that read all files take it as one value, and test it before any text.
ghost use Rattle.std.specs.Prelude.{◌≡◌};
ghost use Rattle.rules.specs.Stated.{rules_by, known, known_of};

use crate::answers::{File, Refusal};
use crate::kinds::Edition;
use crate::sizes::Horizon;
use crate::tokens::{Lists, Rules};

// Each number as the caller gives it.
#[derive(Clone, Copy)]
pub struct Stated {
    pub horizon: u32,
    pub edition: u32,
}

impl Stated {
    // Whether all of it is known, or the first refusal: 1 comes before 21.
    #[tactic(auto, unfolding(crate::specs::Stated::known))]
    pub fn test(self) -> Result<(), Refusal>
        ensures { result ≡ known_of (known self) }
    {
        if Horizon::new(self.horizon).is_none() {
            return Err(Refusal::new(Refusal::HORIZON, File::NONE, 0));
        }
        match self.edition {
            Edition::TABLE | Edition::EXAMPLE => Ok(()),
            _ => Err(Refusal::new(Refusal::UNKNOWN_EDITION, File::NONE, 0)),
        }
    }

    // How constraints.json is read.
    pub fn rules(self) -> Rules
        ensures { result ≡ rules_by self }
    {
        Rules {
            required: Lists::ALL,
            edition: self.edition,
        }
    }
}
