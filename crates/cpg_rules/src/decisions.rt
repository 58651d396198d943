//! What a table says to an asker.

ghost use Rattle.std.specs.Prelude.{◌≡◌};
ghost use Rattle.cpg_rules.specs.Decision.{ruling, default};

use crate::rules::{Effect, Right};
use cpg_cred::By;

/// Whether an asker may do what it asks for, and by what. `Denied` carries a rule or the default.
#[derive(Debug, Clone, Copy, PartialEq, Eq)]
pub enum Decision {
    Allowed(By),
    Denied(By),
}

impl Decision {
    /// What the rule of that effect and id says.
    pub(crate) fn by_rule(effect: Effect, id: u32) -> Decision
        ensures { result ≡ ruling effect id }
    {
        match effect {
            Effect::Allow => Decision::Allowed(By::Rule(id)),
            Effect::Deny => Decision::Denied(By::Rule(id)),
        }
    }

    /// What holds of a right where no rule speaks.
    pub(crate) fn by_default(right: Right) -> Decision
        ensures { result ≡ default right }
    {
        match right {
            Right::Edit => Decision::Denied(By::Default),
            Right::Join | Right::Send | Right::List => Decision::Allowed(By::Default),
        }
    }
}
