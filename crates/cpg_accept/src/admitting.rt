//! What the parts of a script make, one after the other.
//!
//! Proved: each part makes what `taken` says, or its fault is that one.

ghost use Rattle.std.specs.Prelude.{◌≡◌, Ok, Some, OnOk, IfErr};
ghost use Rattle.cpg_accept.specs.Accepting.{nobody, taken};
ghost use Rattle.cpg_accept.specs.Steps.{RefusesPart, StopsAt};

use crate::asks::answer_all;
use crate::parts::{Kind, Part};
use cpg_conf::{Names, read_conf};
use cpg_cred::{AcceptList, Refusal, Refused, Via};
use cpg_text::Fault;
use std::alloc::Global;
use std::marker::Model;
use std::mem;

/// What the parts of a script have made so far.
#[derive(Drop)]
pub struct Admitting {
    /// The names of the last names part.
    names: Names,
    /// What the conf parts list.
    list: AcceptList,
    /// The answers to the asks; none where the credentials are refused.
    answers: Vec<Option<Via>>,
}

impl Model for Admitting {
    ghost use Rattle.cpg_accept.specs.Accepting.{Admitted};

    ghost Value = { Admitted };

    ghost view = { λ admitting. record { names = admitting.names; list = admitting.list; answers = (admitting.answers).items } };
}

impl Admitting {
    /// No names, nobody listed, nothing asked.
    pub fn new(alloc: Global) -> Admitting
        ensures { result ≡ nobody }
    {
        Admitting {
            names: Names::new(alloc),
            list: AcceptList::new(alloc),
            answers: Vec::new(alloc),
        }
    }

    /// The answers to the asks; the rest goes.
    pub fn into_answers(self) -> Vec<Option<Via>>
        ensures { result.items ≡ self.answers }
    {
        self.answers
    }

    /// Takes the part of that number in.
    pub fn take(&mut self, alloc: Global, number: u32, part: &Part<'_>) -> Result<(), Fault>
        ensures ok { OnOk result (taken (part.now).kind number (part.now).line ((part.now).text).now self.old ≡ Ok self.new) }
        ensures err { IfErr result (StopsAt (part.now).kind number ((part.now).text).now (taken (part.now).kind number (part.now).line ((part.now).text).now self.old)) }
    {
        match part.kind {
            Kind::Names => self.take_names(alloc, number, part.text),
            Kind::Conf => self.take_conf(alloc, number, part.text),
            Kind::Ask => self.take_asks(part.line, part.text),
        }
    }

    /// A names part makes the names anew.
    #[tactic(auto, using(crate::proofs::Stopping::refused_part))]
    fn take_names(&mut self, alloc: Global, number: u32, text: &[u8]) -> Result<(), Fault>
        ensures ok { OnOk result (taken Kind.Names number 0 text.now self.old ≡ Ok self.new) }
        ensures err { IfErr result (RefusesPart number (taken Kind.Names number 0 text.now self.old)) }
    {
        match Names::read(alloc, text) {
            Ok(names) => {
                self.names = names;
                Ok(())
            }
            Err(refusal) => Err(fault_of(number, refusal)),
        }
    }

    /// A conf part adds to the list.
    #[tactic(auto, using(crate::proofs::Stopping::refused_part))]
    fn take_conf(&mut self, alloc: Global, number: u32, text: &[u8]) -> Result<(), Fault>
        ensures ok { OnOk result (taken Kind.Conf number 0 text.now self.old ≡ Ok self.new) }
        ensures err { IfErr result (RefusesPart number (taken Kind.Conf number 0 text.now self.old)) }
    {
        let list = mem::replace(&mut self.list, AcceptList::new(alloc));
        match read_conf(alloc, text, &self.names, list) {
            Ok(list) => {
                self.list = list;
                Ok(())
            }
            Err(refused) => Err(fault_of(number, refusal_of(refused))),
        }
    }

    /// Asks are answered by the list.
    fn take_asks(&mut self, line: u32, text: &[u8]) -> Result<(), Fault>
        ensures ok { OnOk result (taken Kind.Ask 0 line text.now self.old ≡ Ok self.new) }
        ensures err { IfErr result (StopsAt Kind.Ask 0 text.now (taken Kind.Ask 0 line text.now self.old)) }
    {
        match answer_all(&mut self.answers, &self.list, line, text) {
            Ok(()) => Ok(()),
            Err(refusal) => Err(Fault::from(refusal)),
        }
    }
}

/// The fault of the part of that number.
fn fault_of(number: u32, refusal: Refusal) -> Fault
    ensures { result ≡ record { part = Some number; refusal = refusal } }
{
    Fault {
        part: Some(number),
        refusal,
    }
}

/// The refusal alone; the list goes.
fn refusal_of(refused: Refused<AcceptList>) -> Refusal
    ensures { result ≡ refused.refusal }
{
    refused.refusal
}
