//! What is done at a node with clients, one thing after another.

ghost use Rattle.std.specs.Prelude.{◌≡◌, ◌≤◌, ◌+◌, [], length, vec_len, vec_capacity, IfOk, OnErr, IsOkUnless};
ghost use Rattle.cpg_serve.specs.declared.deeds.Deed.TheVariants as deeds;
ghost use Rattle.cpg_serve.specs.Deeds.{GoesAs, IsOutcome, IsFrameOutcome, IsTellOutcome, AreDone, AreServed};
ghost use Rattle.cpg_serve.specs.Runs.{IsFramed, Tells, Goes};

use crate::hearing::Heard;
use crate::served::Served;
use bytes::Bytes;
use cpg_cred::{AcceptList, Cred, Refusal};
use cpg_node::Settings;
use std::marker::Model;

/// What is to be done.
#[derive(Clone, Copy)]
pub enum Deed<'a> {
    /// A process with that number and those credentials is a client from now on.
    Arrive(u32, Cred),
    /// A client's bytes are heard.
    Hear(u16, &'a [u8]),
    /// A frame is heard.
    Frame(&'a [u8]),
    /// The next place is delivered, if it is held.
    Deliver,
    /// A client is told all that the node has for it.
    Tell(u16),
    /// So many bytes at most are taken from a client's output, to be written to it.
    Write(u16, usize),
    /// A client's connection ends.
    Lose(u16),
    /// A ring of one node turns by itself until nothing moves.
    Settle,
    /// The next ring of a ring of one node begins, by these settings and that list.
    Renew(Settings, &'a AcceptList),
}

/// Frames that are to be sent.
#[derive(Drop)]
pub struct Frames {
    pub list: Vec<Bytes>,
}

/// What came of it.
#[derive(Drop)]
pub enum Outcome {
    /// The client's connection has that number.
    Arrived(u16),
    /// So many bytes were heard, and why no more.
    Heard(Heard),
    /// These frames are to be sent.
    Sent(Frames),
    /// That place was delivered; none where the next one is not held.
    Delivered(Option<u32>),
    /// The client was told all.
    Told,
    /// These bytes are to be written.
    Wrote(Bytes),
    /// The client's connection ended.
    Lost,
    /// Nothing moves, and every client was told all.
    Settled,
    /// The next ring began; the new number of each connection, 0 where it ended.
    Renewed(Vec<u16>),
    /// It was not done, and why: nothing was, but a client that was to be told all may have been told some, and a ring
    /// that was to come to rest may have moved.
    Refused(Refusal),
}

impl Served {
    /// Does that, and gives what came of it.
    pub fn does(&mut self, deed: &Deed<'_>) -> Outcome
        ensures goes { GoesAs self.old deed.now result self.new }
        ensures right { IsOutcome self.old deed.now result self.new }
    {
        match deed {
            Deed::Arrive(pid, cred) => match self.arrive(*pid, *cred) {
                Ok(conn) => Outcome::Arrived(conn),
                Err(refusal) => Outcome::Refused(refusal),
            },
            Deed::Hear(conn, bytes) => match self.hear(*conn, bytes) {
                Ok(heard) => Outcome::Heard(heard),
                Err(refusal) => Outcome::Refused(refusal),
            },
            Deed::Frame(bytes) => self.does_frame(bytes),
            Deed::Deliver => match self.deliver() {
                Ok(place) => Outcome::Delivered(place),
                Err(refusal) => Outcome::Refused(refusal),
            },
            Deed::Tell(conn) => self.does_tell(*conn),
            Deed::Write(conn, most) => match self.write(*conn, *most) {
                Ok(bytes) => Outcome::Wrote(bytes),
                Err(refusal) => Outcome::Refused(refusal),
            },
            Deed::Lose(conn) => match self.lost(*conn) {
                Ok(()) => Outcome::Lost,
                Err(refusal) => Outcome::Refused(refusal),
            },
            Deed::Settle => self.does_settle(),
            Deed::Renew(settings, list) => self.does_renew(*settings, list),
        }
    }

    /// Comes to rest, and gives what came of it.
    fn does_settle(&mut self) -> Outcome
        ensures goes { GoesAs self.old deeds.Settle result self.new }
        ensures right { IsOutcome self.old deeds.Settle result self.new }
    {
        match self.settle() {
            Ok(()) => Outcome::Settled,
            Err(refusal) => Outcome::Refused(refusal),
        }
    }

    /// Begins the next ring, and gives what came of it.
    fn does_renew(&mut self, settings: Settings, list: &AcceptList) -> Outcome
        ensures goes { GoesAs self.old (deeds.Renew settings list.entry) result self.new }
        ensures right { IsOutcome self.old (deeds.Renew settings list.entry) result self.new }
    {
        match self.renew(settings, list) {
            Ok(numbers) => Outcome::Renewed(numbers),
            Err(refusal) => Outcome::Refused(refusal),
        }
    }

    /// Hears a frame, and gives what came of it.
    fn does_frame(&mut self, bytes: &[u8]) -> Outcome
        ensures goes { IsFramed self.old self.new }
        ensures right { IsFrameOutcome self.old bytes.now result self.new }
    {
        match self.frame(bytes) {
            Ok(list) => Outcome::Sent(Frames { list }),
            Err(refusal) => Outcome::Refused(refusal),
        }
    }

    /// Tells a client all that its node has for it, and gives what came of it.
    fn does_tell(&mut self, conn: u16) -> Outcome
        ensures goes { Goes self.old (Tells conn) self.new }
        ensures right { IsTellOutcome self.old conn result self.new }
    {
        match self.tell(conn) {
            Ok(()) => Outcome::Told,
            Err(refusal) => Outcome::Refused(refusal),
        }
    }

    /// Does all that, in order, and gives what came of each. Memory where there is no room to note what comes of them:
    /// then nothing was done.
    ///
    /// Whatever is done, of whichever clients, in whatever order, over one ring after another: each client is sent its
    /// answers and its inboxes.
    pub fn serve(&mut self, deeds: &[Deed<'_>]) -> Result<Vec<Outcome>, Refusal>
        ensures count { IfOk result (λ outcomes. length outcomes.items ≡ length deeds.now) }
        ensures served { IfOk result (λ outcomes. AreServed self.old deeds.now outcomes.items self.new) }
        ensures err { OnErr result (self.new ≡ self.old) }
        ensures memory { IsOkUnless result Refusal.Memory }
    {
        let mut outcomes = Vec::with_capacity(self.memory(), deeds.len())?;
        self.does_all(deeds, &mut outcomes);
        Ok(outcomes)
    }

    /// Does all that, in order, where there is room for what comes of each.
    fn does_all(&mut self, deeds: &[Deed<'_>], outcomes: &mut Vec<Outcome>)
        requires empty { outcomes.old.items ≡ [] }
        requires room { vec_len outcomes.old + length deeds.now ≤ vec_capacity outcomes.old }
        ensures { AreDone self.old deeds.now outcomes.new.items self.new }
    {
        for deed in deeds {
            outcomes.push_reserved(self.does(deed));
        }
    }
}
