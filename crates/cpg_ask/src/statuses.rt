//! What a call is answered, in the words of Corosync's `cs_error_t`.

ghost use Rattle.std.specs.Prelude.{◌≡◌};
ghost use Rattle.cpg_ask.specs.Statuses.{status_number, verdict_status, refusal_status, reason_denial, no_denial, denial_of};

use cpg_cred::Refusal;
use cpg_record::{Reason, Verdict};

/// A number of `cs_error_t`.
#[derive(Debug, Clone, Copy, PartialEq, Eq)]
pub enum Status {
    Fine,
    Library,
    Version,
    TryAgain,
    Param,
    Memory,
    Access,
    NotExist,
    LongName,
    Exist,
    Space,
    TooBig,
}

impl Status {
    /// The number of `cs_error_t`.
    pub fn number(self) -> u8
        ensures { result ≡ status_number self }
    {
        match self {
            Status::Fine => 1,
            Status::Library => 2,
            Status::Version => 3,
            Status::TryAgain => 6,
            Status::Param => 7,
            Status::Memory => 8,
            Status::Access => 11,
            Status::NotExist => 12,
            Status::LongName => 13,
            Status::Exist => 14,
            Status::Space => 15,
            Status::TooBig => 29,
        }
    }
}

/// What a verdict is called.
pub fn status_of_verdict(verdict: Verdict) -> Status
    ensures { result ≡ verdict_status verdict }
{
    match verdict {
        Verdict::Allowed(_) => Status::Fine,
        Verdict::Denied(Reason::Rule(_) | Reason::Default) => Status::Access,
        Verdict::Denied(Reason::Closed | Reason::Absent) => Status::NotExist,
        Verdict::Denied(Reason::Joined | Reason::Twice) => Status::Exist,
        Verdict::Denied(Reason::Full | Reason::TableFull) => Status::Space,
        Verdict::Denied(Reason::Position) => Status::Param,
    }
}

/// What a refusal is called.
pub fn status_of_refusal(refusal: Refusal) -> Status
    ensures { result ≡ refusal_status refusal }
{
    match refusal {
        Refusal::Memory => Status::Memory,
        Refusal::Access | Refusal::Denied(_) => Status::Access,
        Refusal::BadName | Refusal::Range => Status::Param,
        Refusal::TooLong => Status::TooBig,
        Refusal::ConnectionsFull => Status::TryAgain,
        _ => Status::Library,
    }
}

/// Why a message was denied: a verdict as `cpgring.h` numbers them, and the id of the rule that denies it, or 0.
#[derive(Debug, Clone, Copy, PartialEq, Eq)]
pub struct Denial {
    pub verdict: u32,
    pub rule: u32,
}

impl Denial {
    /// What is said of a message that never had a verdict.
    pub fn none() -> Denial
        ensures { result ≡ no_denial }
    {
        Denial {
            verdict: 0,
            rule: 0,
        }
    }

    /// What is said of a message with that verdict.
    pub fn of(verdict: Verdict) -> Denial
        ensures { result ≡ denial_of verdict }
    {
        match verdict {
            Verdict::Allowed(_) => Denial::none(),
            Verdict::Denied(reason) => Denial::by(reason),
        }
    }

    fn by(reason: Reason) -> Denial
        ensures { result ≡ reason_denial reason }
    {
        let (verdict, rule) = match reason {
            Reason::Rule(id) => (1, id),
            Reason::Default => (2, 0),
            Reason::Closed => (3, 0),
            Reason::Joined => (4, 0),
            Reason::Twice => (5, 0),
            Reason::Full => (6, 0),
            Reason::Position => (7, 0),
            Reason::TableFull => (8, 0),
            Reason::Absent => (9, 0),
        };
        Denial { verdict, rule }
    }
}
