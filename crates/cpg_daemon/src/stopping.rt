//! What a cluster leaves once its threads have ended.

ghost use Rattle.std.specs.Prelude.{◌≡◌, ◌≤◌, ◌+◌, ◌*◌, ◌<◌, All, IfOk, IfSome, MatchOption, map, vec_len, vec_capacity};
ghost use mathlib.Core.List.{IsPrefix};
ghost use Rattle.cpg_history.specs.Members.{Began, HaveSeen};
ghost use Rattle.cpg_daemon.specs.Links.{links_of, peers_of};

use crate::clusters::Links;
use crate::lines::{Incoming, Lines, Outgoing};
use crate::running::Lock;
use cpg_history::{Front, History, HistoryName, Member, Parcel, Pen};
use cpg_link::{LinkRx, LinkTx};
use cpg_station::Station;
use std::alloc::{AllocError, Global};
use std::marker::Brand;
use std::sync::Wait;
use std::thread::{Promise, PromisedHandle, Threads};

/// That a thread gives back so many ends of each kind.
#[derive(Clone, Copy)]
pub(crate) struct SoMany(pub usize);

impl<B: HistoryName> Promise<Lines<B>> for SoMany {
    ghost use Rattle.std.specs.Prelude.{◌≡◌, vec_len};

    ghost kept_by = { λ promise lines. (vec_len lines.outgoing ≡ promise.0) × (vec_len lines.incoming ≡ promise.0) };
}

/// A node's thread, which gives back its ends of links.
pub(crate) type Thread<B> = PromisedHandle<Lines<B>, SoMany>;

/// The threads that have begun. They can't be let go but by `gather`, which waits for each of them.
pub(crate) struct Begun<B: HistoryName> {
    threads: Vec<Thread<B>>,
}

impl<B: HistoryName> Begun<B> {
    /// No threads, with room for so many.
    pub fn none(alloc: Global, room: usize) -> Result<Begun<B>, AllocError>
        ensures { IfOk result (λ begun. (vec_len begun.threads ≡ 0) × (room ≤ vec_capacity begun.threads)) }
    {
        Ok(Begun {
            threads: Vec::with_capacity(alloc, room)?,
        })
    }

    /// Puts a thread behind the others, for which there is room.
    pub fn add(&mut self, thread: Thread<B>, peers: usize)
        requires all { All (λ thread. thread.promise.0 ≡ peers) self.old.threads.items × (thread.promise.0 ≡ peers) }
        requires room { vec_len self.old.threads < vec_capacity self.old.threads }
        ensures all { All (λ thread. thread.promise.0 ≡ peers) self.new.threads.items }
        ensures count { vec_len self.new.threads ≡ vec_len self.old.threads + 1 }
        ensures room { vec_capacity self.new.threads ≡ vec_capacity self.old.threads }
    {
        self.threads.push_reserved(thread);
    }
}

/// Room for what a cluster of so many nodes leaves, a station to leave in each lock, and a pen of no node of these.
#[derive(Drop)]
pub(crate) struct Room<B: HistoryName> {
    pub nodes: u8,
    pub pens: Pen<B>,
    pub spares: Vec<Member<B>>,
    pub members: Vec<Member<B>>,
    pub stations: Vec<Station<B>>,
    pub ends: Lines<B>,
    pub links: Links<B>,
    ghost some: { 1 ≤ nodes },
    ghost spared: { vec_len spares ≡ nodes },
    ghost empty: { (vec_len members ≡ 0) × (vec_len stations ≡ 0) × (vec_len ends.outgoing ≡ 0) × (vec_len ends.incoming ≡ 0) × (vec_len links ≡ 0) },
    ghost for_stations: { (nodes ≤ vec_capacity members) × (nodes ≤ vec_capacity stations) },
    ghost for_ends: { (links_of nodes ≤ vec_capacity ends.outgoing) × (links_of nodes ≤ vec_capacity ends.incoming) },
    ghost for_links: { links_of nodes ≤ vec_capacity links },
}

/// Puts the items of a list behind those of another, which has room for them.
fn append<T: Drop>(list: &mut Vec<T>, mut more: Vec<T>)
    requires { vec_len list.old + vec_len more ≤ vec_capacity list.old }
    ensures { (vec_len list.new ≡ vec_len list.old + vec_len more) × (vec_capacity list.new ≡ vec_capacity list.old) }
{
    for _ in 0..more.len() {
        if let Some(item) = more.pop() {
            list.push_reserved(item);
        }
    }
}

/// Puts a thread's ends of links behind those of others.
fn take_in<B: HistoryName>(ends: &mut Lines<B>, more: Lines<B>)
    requires room { (vec_len ends.old.outgoing + vec_len more.outgoing ≤ vec_capacity ends.old.outgoing) × (vec_len ends.old.incoming + vec_len more.incoming ≤ vec_capacity ends.old.incoming) }
    ensures count { (vec_len ends.new.outgoing ≡ vec_len ends.old.outgoing + vec_len more.outgoing) × (vec_len ends.new.incoming ≡ vec_len ends.old.incoming + vec_len more.incoming) }
    ensures room { (vec_capacity ends.new.outgoing ≡ vec_capacity ends.old.outgoing) × (vec_capacity ends.new.incoming ≡ vec_capacity ends.old.incoming) }
{
    let Lines { outgoing, incoming } = more;
    append(&mut ends.outgoing, outgoing);
    append(&mut ends.incoming, incoming);
}

/// The last of the threads, if there is one.
fn next_thread<B: HistoryName>(threads: &mut Vec<Thread<B>>, peers: usize) -> Option<Thread<B>>
    requires { All (λ thread. thread.promise.0 ≡ peers) threads.old.items }
    ensures all { All (λ thread. thread.promise.0 ≡ peers) threads.new.items }
    ensures some { IfSome result (λ thread. thread.promise.0 ≡ peers) }
    ensures count { MatchOption result (vec_len threads.old ≡ 0) (λ _. vec_len threads.old ≡ vec_len threads.new + 1) }
{
    threads.pop()
}

/// Joins the threads, and gathers their ends of links.
#[tactic(auto, using(crate::proofs::Counting::room_for_more, crate::proofs::Counting::one_more))]
pub(crate) fn gather<B: HistoryName, R: Threads>(
    rt: &R,
    begun: Begun<B>,
    mut ends: Lines<B>,
    peers: usize,
) -> Lines<B>
    requires threads { All (λ thread. thread.promise.0 ≡ peers) begun.threads.items }
    requires empty { (vec_len ends.outgoing ≡ 0) × (vec_len ends.incoming ≡ 0) }
    requires room { (vec_len begun.threads * peers ≤ vec_capacity ends.outgoing) × (vec_len begun.threads * peers ≤ vec_capacity ends.incoming) }
    ensures { (vec_len result.outgoing ≡ vec_len begun.threads * peers) × (vec_len result.incoming ≡ vec_len begun.threads * peers) }
{
    let Begun { mut threads } = begun;
    for _ in 0..threads.len() {
        if let Some(thread) = next_thread(&mut threads, peers) {
            take_in(&mut ends, thread.join(rt));
        }
    }
    ends
}

fn sender_of<B: HistoryName>(end: Outgoing<B>) -> LinkTx<Parcel<B>> {
    end.link
}

fn receiver_of<B: HistoryName>(end: Incoming<B>) -> LinkRx<Parcel<B>> {
    let Incoming {
        way: _,
        link,
        frame,
        answer,
    } = end;
    drop(frame);
    drop(answer);
    link
}

/// The two ends of each link, in the order of the nodes that the links come from, and then of those that they
/// go to.
pub(crate) fn pair<B: HistoryName>(mut ends: Lines<B>, mut links: Links<B>) -> Links<B>
    requires same { vec_len ends.outgoing ≡ vec_len ends.incoming }
    requires room { (vec_len links ≡ 0) × (vec_len ends.outgoing ≤ vec_capacity links) }
    ensures { vec_len result ≡ vec_len ends.outgoing }
{
    ends.outgoing
        .sort_unstable_by_key(|end| end.way.by_source());
    ends.incoming
        .sort_unstable_by_key(|end| end.way.by_source());
    let Lines {
        mut outgoing,
        mut incoming,
    } = ends;
    for _ in 0..outgoing.len() {
        if let Some(sender) = outgoing.pop() {
            if let Some(receiver) = incoming.pop() {
                links.push_reserved((sender_of(sender), receiver_of(receiver)));
            }
        }
    }
    links.as_mut_slice().reverse();
    links
}

/// The stations alone, in their order, in the room for them.
pub(crate) fn stations_of<B: HistoryName>(
    mut members: Vec<Member<B>>,
    mut stations: Vec<Station<B>>,
) -> Vec<Station<B>>
    requires { (vec_len stations ≡ 0) × (vec_len members ≤ vec_capacity stations) }
    ensures { result.items ≡ map (λ member. member.station) members.items }
{
    for _ in 0..members.len() {
        if let Some(member) = members.pop() {
            stations.push_reserved(member.into_station());
        }
    }
    stations.as_mut_slice().reverse();
    stations
}

/// The station. The pen has seen then all that it had seen and all that the station's has.
fn meet<B: HistoryName>(
    history: &History<B>,
    pens: &mut Pen<B>,
    mut station: Member<B>,
) -> Member<B>
    ensures station { IsPrefix result.seen pens.new.seen }
    ensures pens { IsPrefix pens.old.seen pens.new.seen }
{
    let front = station.front(history);
    history.tell(pens, front);
    history.observe(pens);
    station
}

/// Takes the station out of the lock, leaves a spare one there, and puts the station behind the others.
fn take_one<B: HistoryName, R: Wait>(
    rt: &R,
    history: &History<B>,
    lock: &Lock<B>,
    pens: &mut Pen<B>,
    spares: &mut Vec<Member<B>>,
    stations: &mut Vec<Member<B>>,
)
    requires spares { 1 ≤ vec_len spares.old }
    requires room { vec_len stations.old < vec_capacity stations.old }
    requires front { Began stations.old.items pens.old.seen }
    ensures spares { vec_len spares.old ≡ vec_len spares.new + 1 }
    ensures stations { (vec_len stations.new ≡ vec_len stations.old + 1) × (vec_capacity stations.new ≡ vec_capacity stations.old) }
    ensures front { Began stations.new.items pens.new.seen }
{
    let Some(spare) = spares.pop() else {
        return;
    };
    let mut guard = lock.lock(rt);
    let station = std::mem::replace(&mut **guard, spare);
    stations.push_reserved(meet(history, pens, station));
}

/// Each of the stations has seen just what the front has, which begins with all that they had seen.
fn catch_up<B: HistoryName>(history: &History<B>, stations: &mut [Member<B>], front: &mut Front<B>)
    requires { Began stations.old front.old.seen }
    ensures stations { HaveSeen stations.new front.old.seen }
    ensures front { front.new ≡ front.old }
{
    for station in stations.iter_mut() {
        station.catch_up(history, history.again::<Brand>(front));
    }
}

/// Takes the station out of each lock, and leaves a spare one there. Gives them with a front of the history, which each of
/// them has seen.
pub(crate) fn take_out<B: HistoryName, R: Wait>(
    rt: &R,
    history: &History<B>,
    locks: &Vec<Lock<B>>,
    mut pens: Pen<B>,
    mut spares: Vec<Member<B>>,
    mut stations: Vec<Member<B>>,
) -> (Vec<Member<B>>, Front<B>)
    requires count { vec_len locks.now ≡ vec_len spares }
    requires room { (vec_len stations ≡ 0) × (vec_len spares ≤ vec_capacity stations) }
    ensures count { vec_len result.0 ≡ vec_len spares }
    ensures front { HaveSeen result.0.items result.1.seen }
{
    for node in 0..locks.len() {
        take_one(
            rt,
            history,
            &locks[node],
            &mut pens,
            &mut spares,
            &mut stations,
        );
    }
    let mut front = history.front::<Brand>(&mut pens);
    catch_up(history, stations.as_mut_slice(), &mut front);
    (stations, front)
}
