//! Numbers and statuses of what is told.

ghost use Rattle.std.specs.Prelude.{◌≡◌};
ghost use Rattle.cpg_wire.specs.Reading.{Reads};
ghost use Rattle.cpg_ask.specs.TellReading.{status_of, status_at, numbered_at};
ghost use Rattle.cpg_ask.specs.Words.{words_at};

use crate::input::Input;
use crate::statuses::Status;

/// Four numbers.
#[derive(Clone, Copy)]
pub(crate) struct Words {
    pub(crate) first: u32,
    pub(crate) second: u32,
    pub(crate) third: u32,
    pub(crate) fourth: u32,
}

impl Words {
    #[tactic(auto, unfolding(crate::specs::Words::words_at))]
    pub(crate) fn read(input: &mut Input<'_>) -> Option<Words>
        ensures { Reads result input.new (words_at input.old) }
    {
        let first = input.u32()?;
        let second = input.u32()?;
        let third = input.u32()?;
        let fourth = input.u32()?;
        Some(Words {
            first,
            second,
            third,
            fourth,
        })
    }
}

/// The status of that number.
#[tactic(auto, unfolding(crate::specs::TellReading::status_of))]
pub(crate) fn status_of(number: u32) -> Option<Status>
    ensures { result ≡ status_of number }
{
    match number {
        1 => Some(Status::Fine),
        2 => Some(Status::Library),
        3 => Some(Status::Version),
        6 => Some(Status::TryAgain),
        7 => Some(Status::Param),
        8 => Some(Status::Memory),
        11 => Some(Status::Access),
        12 => Some(Status::NotExist),
        13 => Some(Status::LongName),
        14 => Some(Status::Exist),
        15 => Some(Status::Space),
        29 => Some(Status::TooBig),
        _ => None,
    }
}

#[tactic(auto, unfolding(crate::specs::TellReading::status_at))]
pub(crate) fn read_status(input: &mut Input<'_>) -> Option<Status>
    ensures { Reads result input.new (status_at input.old) }
{
    let number = input.u32()?;
    status_of(number)
}

/// A status and a number.
#[tactic(auto, unfolding(crate::specs::TellReading::numbered_at))]
pub(crate) fn read_numbered(input: &mut Input<'_>) -> Option<(Status, u32)>
    ensures { Reads result input.new (numbered_at input.old) }
{
    let status = read_status(input)?;
    let number = input.u32()?;
    Some((status, number))
}
