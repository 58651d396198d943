//! What follows from the calls' contracts and the ring's laws. The functions have nothing to do, but to call those whose
//! laws they rest on: their contracts are the laws.

ghost use Rattle.cpg_serve.specs.Laws.{HearsAsItsOwn, DeliveryTells, StoryOfHearing, StoryOfTelling, StoryOfDelivery};
ghost use Rattle.cpg_serve.specs.Settling.{LoneBegins, LoneStays};
ghost use Rattle.cpg_serve.specs.Verdicts.{VerdictsAreItsOwn};
ghost use Rattle.cpg_serve.specs.Carrying.{EachGoesOver, NextKeepsAll};
ghost use Rattle.cpg_serve.specs.Renewing.{RenewalKeepsAll, SeatsAreThere};
ghost use Rattle.cpg_serve.specs.Runs.{AllThatIsTold, StoriesBegin, LostIsGone, NothingAfterTheEnd};
ghost use Rattle.cpg_serve.specs.Orders.{VerdictsInOrder};
ghost use Rattle.cpg_serve.specs.Alone.{LoneRingsAnswer};
ghost use Rattle.cpg_serve.specs.Rings.{LivesTell};
ghost use Rattle.cpg_serve.specs.Meeting.{EvenBegins, StaysEven, AnswersInOrder, HonestInAWorld};

use cpg_record::laws::each_entry_is_judged;
use cpg_world_laws::every_run;

/// What a client's bytes do at the node are the calls that they ask for, each by that client's own connection; no
/// other desk changes.
pub fn hears_as_its_own()
    ensures { HearsAsItsOwn }
{}

/// A delivery leaves to be told, beside what was left, what the new place tells.
pub fn delivery_tells()
    ensures { DeliveryTells }
{}

/// A client's story goes on by what it asks, by what it is told, and by what is delivered.
#[tactic(auto, using(crate::proofs::Kept::story_of_delivery))]
pub fn stories_go_on()
    ensures hearing { StoryOfHearing }
    ensures telling { StoryOfTelling }
    ensures delivery { StoryOfDelivery }
{}

/// All bytes that a client was told over any run of calls are the spellings of what is due to it: to each of its
/// asks the answer, and its inbox, in order.
pub fn all_that_is_told()
    ensures begins { StoriesBegin }
    ensures run { AllThatIsTold }
{}

/// A client that is lost is told nothing more, over any run of calls.
pub fn nothing_after_the_end()
    ensures lost { LostIsGone }
    ensures run { NothingAfterTheEnd }
{}

/// A ring that begins with the joins of another's members, in order, and then the rules of its tables, put in by
/// user 0, has the same members and the same rules, each in the same order; the rules' ids are others.
#[tactic(auto, using(crate::proofs::Seated::seats_are_there))]
pub fn renewal_keeps_all()
    ensures keeps { RenewalKeepsAll }
    ensures seats { SeatsAreThere }
    ensures next { NextKeepsAll }
{}

/// The same over one ring after another: all bytes that a client was told, in whatever rings, are the spellings of
/// what is due to it, one ring after another; so of a client that comes; and who is lost is told nothing more.
pub fn all_that_rings_tell()
    ensures { LivesTell }
{}

/// Each client that is there goes over to the next ring: by its new number it has its desk, and nothing is left to tell it.
pub fn clients_go_over()
    ensures { EachGoesOver }
{}

/// A new ring of one node is one that `settle` brings to rest, and stays so over any run in which no frame is heard.
pub fn rings_of_one_stay_so()
    ensures begins { LoneBegins }
    ensures stays { LoneStays }
{}

/// The verdicts in a client's inbox are those on its own entries, each once, in the order of their places.
pub fn verdicts_are_its_own()
    ensures { VerdictsAreItsOwn }
{}

/// Of every run of every world: the verdicts in a connection's inbox are, in order, those on the first of the calls
/// that its node admitted of it, each once; its end comes behind its calls. Others wait for their places.
pub fn verdicts_in_order()
    ensures { VerdictsInOrder }
{
    every_run();
    each_entry_is_judged();
    verdicts_are_its_own();
}

/// Over any run of a node with its clients, where no more of a client's entries are placed than it made calls: the
/// verdicts that it was told are the answers to its first calls, in order, the k-th to the k-th, and none was told
/// where no call was owed one. At a node of a world of nodes no more are placed than were admitted.
#[tactic(auto, using(crate::proofs::Matched::even_begins))]
pub fn verdicts_answer_their_calls()
    ensures begins { EvenBegins }
    ensures stays { StaysEven }
    ensures answers { AnswersInOrder }
    ensures honest { HonestInAWorld }
{
    verdicts_in_order();
}

/// Over any life of rings of one node that hear nothing but their own tokens: the k-th verdict that a client is told, in
/// all rings together, is the answer to its k-th call.
pub fn rings_of_one_answer_calls()
    ensures { LoneRingsAnswer }
{
    each_entry_is_judged();
}
