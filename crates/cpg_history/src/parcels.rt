//! Frames on their way, with what shows that they were sent.

ghost use Rattle.std.specs.Prelude.{◌≡◌, ◌<◌, ◌+◌, Some, IfOk, length, slice_get};

use crate::histories::{Front, History, HistoryName, Numbers};
use bytes::Bytes;
use std::alloc::AllocError;
use std::marker::{Brand, Model};

/// A frame on its way: it was sent in a world of the history. Contracts see its bytes, and its number among the frames
/// sent. Where events are counted, what it is recorded by goes with it: the stamp of the event that sent it, and its index
/// among what that sent.
#[derive(Drop)]
pub struct Parcel<B: HistoryName> {
    pub(crate) bytes: Bytes,
    pub(crate) source: u64,
    pub(crate) index: usize,
    pub(crate) front: Front<B>,
}

impl<B: HistoryName> Model for Parcel<B> {
    ghost use Rattle.cpg_history.specs.Members.{ParcelValue, WasSent};
    ghost use Rattle.cpg_board.specs.Words.{is_counted};
    ghost use Rattle.cpg_history.specs.Traces.{HasNumber};
    ghost use Rattle.std.specs.Prelude.{◌≡◌, true};

    ghost Value = { ParcelValue };

    ghost view = { λ p. record { bytes = p.bytes; number = p.front.number } };

    ghost invariant = { λ p. WasSent B.start p.front.seen p.front.number p.bytes × (is_counted B.table ≡ true → HasNumber B.start p.front.seen p.source p.index p.front.number) };
}

impl<B: HistoryName> Parcel<B> {
    /// Its bytes.
    pub fn bytes(&self) -> &[u8]
        ensures { result.now ≡ self.now.bytes }
    {
        self.bytes.as_slice()
    }

    /// The same frame once more. Refused where memory is.
    pub fn again(&mut self, history: &History<B>) -> Result<Parcel<B>, AllocError>
        ensures same { self.new ≡ self.old }
        ensures again { IfOk result (λ p. p ≡ self.old) }
    {
        self.again_as::<Brand>(history)
    }

    fn again_as<N: Numbers>(&mut self, history: &History<B>) -> Result<Parcel<B>, AllocError>
        requires { N.number ≡ self.old.number }
        ensures same { self.new ≡ self.old }
        ensures again { IfOk result (λ p. p ≡ self.old) }
    {
        let bytes = self.bytes.clone()?;
        Ok(Parcel {
            bytes,
            source: self.source,
            index: self.index,
            front: history.again::<N>(&mut self.front),
        })
    }
}

/// What an event sends. Contracts see its frames, and the number of the first of them among the frames sent. Where events
/// are counted, the event's stamp goes with them.
#[derive(Drop)]
pub struct Parcels<B: HistoryName> {
    pub(crate) frames: Vec<Bytes>,
    pub(crate) source: u64,
    pub(crate) front: Front<B>,
}

impl<B: HistoryName> Model for Parcels<B> {
    ghost use Rattle.cpg_history.specs.Members.{ParcelsValue, WereSent};
    ghost use Rattle.cpg_board.specs.Words.{is_counted};
    ghost use Rattle.cpg_history.specs.Traces.{HasNumber};
    ghost use Rattle.std.specs.Prelude.{◌≡◌, true};

    ghost Value = { ParcelsValue };

    ghost view = { λ m. record { frames = m.frames.items; number = m.front.number } };

    ghost invariant = { λ m. WereSent B.start m.front.seen m.front.number m.frames.items × (is_counted B.table ≡ true → HasNumber B.start m.front.seen m.source 0 m.front.number) };
}

impl<B: HistoryName> Parcels<B> {
    /// How many frames there are.
    pub fn len(&self) -> usize
        ensures { result ≡ length self.now.frames }
    {
        self.frames.len()
    }

    /// The frame of that index, from 0, as a parcel.
    pub fn parcel(&mut self, history: &History<B>, index: usize) -> Result<Parcel<B>, AllocError>
        requires { index < length self.old.frames }
        ensures same { self.new ≡ self.old }
        ensures bytes { IfOk result (λ p. slice_get self.old.frames index ≡ Some p.bytes) }
        ensures number { IfOk result (λ p. p.number ≡ self.old.number + index) }
    {
        self.parcel_as::<Brand>(history, index)
    }

    fn parcel_as<N: Numbers>(
        &mut self,
        history: &History<B>,
        index: usize,
    ) -> Result<Parcel<B>, AllocError>
        requires index { index < length self.old.frames }
        requires number { N.number ≡ self.old.number + index }
        ensures same { self.new ≡ self.old }
        ensures bytes { IfOk result (λ p. slice_get self.old.frames index ≡ Some p.bytes) }
        ensures number { IfOk result (λ p. p.number ≡ self.old.number + index) }
    {
        let bytes = self.frames[index].clone()?;
        Ok(Parcel {
            bytes,
            source: self.source,
            index,
            front: history.again::<N>(&mut self.front),
        })
    }
}
