//! The numbers that say what is asked.

ghost use Rattle.std.specs.Prelude.{◌≡◌};
ghost use Rattle.cpg_ask.specs.Codes.{ask_code, ask_code_of};

/// What is asked.
#[derive(Debug, Clone, Copy, PartialEq, Eq)]
pub enum AskCode {
    Hello,
    Join,
    Leave,
    Send,
    Members,
    Groups,
    Insert,
    Remove,
}

impl AskCode {
    /// The ask of that number.
    #[tactic(auto, unfolding(crate::specs::Codes::ask_code_of))]
    pub fn of(number: u16) -> Option<AskCode>
        ensures { result ≡ ask_code_of number }
    {
        match number {
            1 => Some(AskCode::Hello),
            2 => Some(AskCode::Join),
            3 => Some(AskCode::Leave),
            4 => Some(AskCode::Send),
            5 => Some(AskCode::Members),
            6 => Some(AskCode::Groups),
            7 => Some(AskCode::Insert),
            8 => Some(AskCode::Remove),
            _ => None,
        }
    }

    /// The number of the ask.
    pub fn number(self) -> u16
        ensures { result ≡ ask_code self }
    {
        match self {
            AskCode::Hello => 1,
            AskCode::Join => 2,
            AskCode::Leave => 3,
            AskCode::Send => 4,
            AskCode::Members => 5,
            AskCode::Groups => 6,
            AskCode::Insert => 7,
            AskCode::Remove => 8,
        }
    }
}
