//! One history of all that happens in running nodes. It exists in proofs alone. Its words, which threads share, are those of
//! the board that the nodes share: so whoever names the board names the history.
//!
//! The form is our own: the rule of these words says that every view fits the one history, and who has a view of nodes may
//! add their events.

ghost use Rattle.std.specs.Prelude.{◌≡◌, ◌<◌, IfSome};
ghost use mathlib.Core.List.{IsPrefix};
ghost use Rattle.cpg_world_laws.specs.Worlds.{node_in};
ghost use Rattle.cpg_board.specs.Words.{Owns, all_nodes, is_counted, many_words};
ghost use Rattle.cpg_history.specs.Histories.{Came, Catches, Sees, later, first_node, other_nodes, told, front as front_at};
ghost use Rattle.cpg_history.specs.Members.{IsNewWorld};

use atomic_table::{Badge, Join, Play, Seat, Split};
use cpg_board::{Board, Line, Pens, View};
use cpg_cred::AcceptList;
use cpg_node::Settings;
use cpg_station::BoardName;
use cpg_world_laws::WorldEvent;
use std::marker::{Brand, Model, PhantomData};

/// Which word each event is added by: where events are counted it counts, and no other is ever written. As many as a cache
/// line holds stand on either side, so that neither who reads the first one nor what lies beside them waits for it.
const MIDDLE: usize = 8;

/// What a history begins with: a new world of these.
#[derive(Drop)]
pub struct Beginning {
    pub settings: Settings,
    pub list: AcceptList,
}

/// Which history it is: its table, and the world that it begins with; and which board its nodes share.
pub trait HistoryName: BoardName {
    ghost use Rattle.atomic_table.specs.Seated.{TableId};
    ghost use Rattle.cpg_world_laws.specs.Worlds.{WorldValue};

    ghost table: { TableId };

    ghost start: { WorldValue };
}

impl HistoryName for Brand {
    ghost use Rattle.cpg_history.specs.Histories.{no_table, no_world};

    ghost table = { no_table };

    ghost start = { no_world };
}

/// The event that is added. It is picked at each call of `add`, so that no copy of it is made at run time.
pub trait Happens {
    ghost use Rattle.cpg_world_laws.specs.declared.events.WorldEvent.{WorldEvent};

    ghost event: { WorldEvent };
}

impl Happens for Brand {
    ghost use Rattle.cpg_world_laws.specs.declared.events.WorldEvent.TheVariants.{Timer};

    ghost event = { Timer 0 };
}

/// A step that adds an event, and counts it.
struct Add<E>(PhantomData<E>);

impl<E: Happens> Play<u64, View> for Add<E> {
    ghost use Rattle.std.specs.Prelude.{true};
    ghost use Rattle.cpg_history.specs.Histories.{Adds};

    ghost then = { Adds true E.event };
}

/// A step that adds an event where none is counted.
struct Enter<E>(PhantomData<E>);

impl<E: Happens> Play<u64, View> for Enter<E> {
    ghost use Rattle.std.specs.Prelude.{false};
    ghost use Rattle.cpg_history.specs.Histories.{Adds};

    ghost then = { Adds false E.event };
}

/// The view of the next node, out of that of the nodes from there on.
struct Next;

impl Split<View> for Next {
    ghost use Rattle.cpg_history.specs.Histories.{first_node, other_nodes};

    ghost left = { other_nodes };

    ghost right = { first_node };
}

/// A number that goes with a front, in contracts alone.
pub trait Numbers {
    ghost use Rattle.std.specs.Prelude.{ℕ};

    ghost number: { ℕ };
}

impl Numbers for Brand {
    ghost number = { 0 };
}

/// A view of no node that has seen as much, with a number.
struct Tells<N>(PhantomData<N>);

impl<N: Numbers> Split<View> for Tells<N> {
    ghost use Rattle.cpg_history.specs.Histories.{front_of};

    ghost left = { λ v. v };

    ghost right = { front_of N.number };
}

/// A view is told what another has seen.
struct Learns;

impl Join<View> for Learns {
    ghost use Rattle.cpg_history.specs.Histories.{told, nobody};

    ghost both = { told };

    ghost spent = { nobody };
}

/// A step that sees the history as it is.
struct Look;

impl Play<u64, View> for Look {
    ghost use Rattle.cpg_history.specs.Histories.{Looks};

    ghost then = { Looks };
}

/// A step after which a view has seen just what it was told.
struct CatchUp;

impl Play<u64, View> for CatchUp {
    ghost use Rattle.cpg_history.specs.Histories.{TellsCatch};

    ghost then = { TellsCatch };
}

/// The history of the nodes that share a board, under the board's name. It keeps the board.
#[derive(Drop)]
pub struct History<B: HistoryName> {
    board: Board,
    of: PhantomData<B>,
}

impl<B: HistoryName> Model for History<B> {
    ghost use Rattle.cpg_history.specs.Members.{IsNewWorld};
    ghost use Rattle.std.specs.Prelude.{◌≡◌, ℕ};

    ghost Value = { ℕ };

    ghost view = { λ h. h.board.table.words };

    ghost invariant = { λ h. (h.board.cells ≡ B.cells) × (h.board.table ≡ B.table) × IsNewWorld B.start };
}

/// What adds the events of some nodes, which no other pen can. Contracts see which nodes these are, and what it has seen.
#[derive(Drop)]
pub struct Pen<B: HistoryName> {
    seat: Pens,
    of: PhantomData<B>,
}

impl<B: HistoryName> Model for Pen<B> {
    ghost use Rattle.std.specs.Prelude.{◌≡◌, []};
    ghost use Rattle.cpg_board.specs.declared.words.View.{View};

    ghost Value = { View };

    ghost view = { λ pen. pen.seat.me.0 };

    ghost invariant = { λ pen. (pen.seat.table_id ≡ B.table) × (pen.seat.me.1 ≡ []) };
}

/// A beginning of the history that was seen, and a number that goes with it. It adds nothing.
#[derive(Drop)]
pub struct Front<B: HistoryName> {
    badge: Badge<View>,
    of: PhantomData<B>,
}

impl<B: HistoryName> Model for Front<B> {
    ghost use Rattle.std.specs.Prelude.{◌≡◌, ◌∷◌, []};
    ghost use Rattle.cpg_history.specs.Histories.{FrontValue, seen_by, front};

    ghost Value = { FrontValue };

    ghost view = { λ f. seen_by f.badge.views };

    ghost invariant = { λ f. (f.badge.table_id ≡ B.table) × (f.badge.views ≡ front (seen_by f.badge.views) ∷ []) };
}

impl<B: HistoryName> History<B> {
    /// The history of the nodes that share the board, which begins with a new world, and the pen of all nodes, unless it
    /// was taken before.
    pub fn on(board: Board) -> Option<(History<B>, Pen<B>)>
        requires name { (board.cells ≡ B.cells) × (board.table ≡ B.table) }
        requires begins { IsNewWorld B.start }
        ensures { IfSome result (λ made. made.1 ≡ all_nodes) }
    {
        let seat = board.pens()?;
        let history = History {
            board,
            of: PhantomData,
        };
        let pens = Pen {
            seat,
            of: PhantomData,
        };
        Some((history, pens))
    }

    /// The board.
    pub fn board(&self) -> &Board
        ensures { result.now.cells ≡ B.cells }
    {
        &self.board
    }

    /// The words that all threads share.
    fn line(&self) -> &Line
        ensures table { result.now.shared.table_id ≡ B.table }
        ensures words { (B.table).words ≡ many_words (is_counted B.table) }
        ensures key { result.now.shared.key ≡ is_counted B.table }
    {
        self.board.line()
    }

    /// It begins with a new world. The function has nothing to do.
    pub fn begins(&self)
        ensures { IsNewWorld B.start }
    {
        let _board = &self.board;
    }

    /// Whether its events are counted, so that they can be recorded.
    pub fn is_counted(&self) -> bool
        ensures { result ≡ is_counted B.table }
    {
        self.board.is_counted()
    }

    /// Adds the event to the history, and gives its stamp: where events are counted, how many came before it.
    pub fn add<E: Happens>(&self, pen: &mut Pen<B>) -> u64
        requires { Owns pen.old (node_in E.event) }
        ensures came { Came (is_counted B.table) pen.old E.event result pen.new.seen }
        ensures pen { pen.new ≡ later pen.old pen.new.seen }
    {
        let shared = &self.line().shared;
        if self.is_counted() {
            shared.fetch_add::<Add<E>>(&mut pen.seat, MIDDLE, 1)
        } else {
            shared.load::<Enter<E>>(&mut pen.seat, MIDDLE)
        }
    }

    /// Adds the event after all that the front has seen, which then has seen the event too. Gives its stamp.
    pub fn add_for<E: Happens>(&self, pen: &mut Pen<B>, front: &mut Front<B>) -> u64
        requires { Owns pen.old (node_in E.event) }
        ensures came { Came (is_counted B.table) (told pen.old (front_at front.old)) E.event result pen.new.seen }
        ensures pen { pen.new ≡ later pen.old pen.new.seen }
        ensures front { front.new.seen ≡ pen.new.seen }
    {
        let seen = std::mem::replace(front, self.front::<Brand>(pen));
        self.tell(pen, seen);
        let stamp = self.add::<E>(pen);
        *front = self.front::<Brand>(pen);
        stamp
    }

    /// A front that has seen as much as the pen, with a number.
    pub fn front<N: Numbers>(&self, pen: &mut Pen<B>) -> Front<B>
        ensures front { result ≡ record { seen = pen.old.seen; number = N.number } }
        ensures pen { pen.new ≡ pen.old }
    {
        let seat = self.line().shared.split_seat::<Tells<N>>(&mut pen.seat);
        Front {
            badge: seat.into_badge(),
            of: PhantomData,
        }
    }

    /// A pen of the first of the nodes, which the pen then no longer has.
    pub fn next(&self, pen: &mut Pen<B>) -> Pen<B>
        requires { pen.old.from < pen.old.to }
        ensures next { result ≡ first_node pen.old }
        ensures pen { pen.new ≡ other_nodes pen.old }
    {
        let seat = self.line().shared.split_seat::<Next>(&mut pen.seat);
        Pen {
            seat,
            of: PhantomData,
        }
    }

    /// The pen's next event comes after all that the front has seen.
    pub fn tell(&self, pen: &mut Pen<B>, front: Front<B>)
        ensures { pen.new ≡ told pen.old (front_at front) }
    {
        let Front { badge, of: _ } = front;
        let seat = badge.into_seat();
        self.line().shared.join_seat::<Learns>(&mut pen.seat, seat);
    }

    /// The pen sees all of the history.
    pub fn observe(&self, pen: &mut Pen<B>)
        ensures { Sees pen.old pen.new }
    {
        self.line().shared.load::<Look>(&mut pen.seat, 0);
    }

    /// The pen has seen just what the front has, and its next event comes after that.
    pub fn catch_up(&self, pen: &mut Pen<B>, front: Front<B>)
        requires { IsPrefix pen.old.seen front.seen }
        ensures { Catches (told pen.old (front_at front)) pen.new }
    {
        self.tell(pen, front);
        self.catch(pen);
    }

    /// The pen has seen just what it was told.
    fn catch(&self, pen: &mut Pen<B>)
        requires { IsPrefix pen.old.seen pen.old.also }
        ensures { Catches pen.old pen.new }
    {
        self.line().shared.load::<CatchUp>(&mut pen.seat, 0);
    }

    /// A front that both begin: all of the history.
    pub fn meet(&self, one: Front<B>, two: Front<B>) -> Front<B>
        ensures one { IsPrefix one.seen result.seen }
        ensures two { IsPrefix two.seen result.seen }
    {
        let Front { badge, of } = one;
        let mut pen: Pen<B> = Pen {
            seat: badge.into_seat(),
            of,
        };
        self.tell(&mut pen, two);
        self.observe(&mut pen);
        self.front::<Brand>(&mut pen)
    }

    /// Another front that has seen as much, with a number of its own.
    pub fn again<N: Numbers>(&self, front: &mut Front<B>) -> Front<B>
        ensures front { front.new ≡ front.old }
        ensures again { result ≡ record { seen = front.old.seen; number = N.number } }
    {
        let badge = std::mem::replace(&mut front.badge, Badge::blank());
        let mut seat: Seat<u64, View> = badge.into_seat();
        let other = self.line().shared.split_seat::<Tells<N>>(&mut seat);
        front.badge = seat.into_badge();
        Front {
            badge: other.into_badge(),
            of: PhantomData,
        }
    }
}
