//! Why a run does not do all that it is asked for.

ghost use Rattle.std.specs.Prelude.{◌≡◌, None, Some};
ghost use Rattle.cpg_console.specs.Telling.{failed_to_write};
ghost use Rattle.cpg_console.specs.Runs.{failure_of_delivered, failure_of_why};
ghost use Rattle.cpg_console.specs.declared.failures.Failure.TheVariants as failure;

use cpg_cred::Refusal;
use cpg_text::Fault;
use cpg_why::{Missing, WhyFault};

/// Among which entries something is asked of.
#[derive(Debug, Clone, Copy, PartialEq, Eq)]
pub enum Among {
    /// Those of a script.
    Script,
    /// Those that nodes delivered.
    Delivered,
}

/// What is asked of and is not there.
#[derive(Debug, Clone, Copy)]
pub struct Absent {
    pub what: Missing,
    pub among: Among,
}

/// Why a run ended before it did all that it was asked for.
#[derive(Debug, Drop)]
pub enum Failure {
    /// A word of the command line lets nobody in: it is neither `uid:N` nor `gid:N`.
    BadWord,
    /// A fault of the script, or a refusal when the list or the world is made.
    Fault(Fault),
    /// The command line asks of what is not there: an entry, a connection, or an event that a connection was told.
    Missing(Absent),
}

impl Failure {
    /// Whether a stream could not be written.
    pub(crate) fn is_write(&self) -> bool
        ensures { result ≡ failed_to_write (Some self.now) }
    {
        match self {
            Failure::BadWord | Failure::Missing(_) => false,
            Failure::Fault(fault) => match fault.refusal {
                Refusal::Write => true,
                _ => false,
            },
        }
    }
}

impl From<Fault> for Failure {
    ghost from_gives = { λ fault result. result ≡ failure.Fault fault };

    fn from(fault: Fault) -> Failure {
        Failure::Fault(fault)
    }
}

impl From<WhyFault> for Failure {
    ghost from_gives = { λ fault result. result ≡ failure_of_why fault };

    fn from(fault: WhyFault) -> Failure {
        match fault {
            WhyFault::Script(fault) => Failure::Fault(fault),
            WhyFault::Missing(what) => Failure::Missing(Absent {
                what,
                among: Among::Script,
            }),
        }
    }
}

/// Why nothing is explained of what nodes delivered.
pub(crate) fn undelivered(fault: WhyFault) -> Failure
    ensures { result ≡ failure_of_delivered fault }
{
    match fault {
        WhyFault::Script(fault) => Failure::Fault(fault),
        WhyFault::Missing(what) => Failure::Missing(Absent {
            what,
            among: Among::Delivered,
        }),
    }
}

impl From<Refusal> for Failure {
    ghost from_gives = { λ refusal result. result ≡ failure.Fault (record { part = None; refusal = refusal }) };

    fn from(refusal: Refusal) -> Failure {
        Failure::Fault(Fault::from(refusal))
    }
}
