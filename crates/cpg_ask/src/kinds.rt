//! The numbers that say what is told.

ghost use Rattle.std.specs.Prelude.{◌≡◌};
ghost use Rattle.cpg_ask.specs.Kinds.{kind_of};

use crate::codes::AskCode;

/// What is told: an answer to an ask, or news.
#[derive(Debug, Clone, Copy, PartialEq, Eq)]
pub enum Kind {
    Answer(AskCode),
    Message,
    Change,
    Denied,
}

impl Kind {
    /// What is told by that number.
    #[tactic(auto, unfolding(crate::specs::Kinds::kind_of))]
    pub fn of(number: u16) -> Option<Kind>
        ensures { result ≡ kind_of number }
    {
        match number {
            257 => Some(Kind::Answer(AskCode::Hello)),
            258 => Some(Kind::Answer(AskCode::Join)),
            259 => Some(Kind::Answer(AskCode::Leave)),
            261 => Some(Kind::Answer(AskCode::Members)),
            262 => Some(Kind::Answer(AskCode::Groups)),
            263 => Some(Kind::Answer(AskCode::Insert)),
            264 => Some(Kind::Answer(AskCode::Remove)),
            513 => Some(Kind::Message),
            514 => Some(Kind::Change),
            515 => Some(Kind::Denied),
            _ => None,
        }
    }
}
