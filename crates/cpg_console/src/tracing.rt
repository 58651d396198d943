//! `--trace`: what a cluster recorded is written once it has stopped.
//!
//! Proved: behind the heading stand the commands of what the cluster's nodes recorded of its one history, in the order of
//! their stamps, and where some is missing a line that says so. That it is written where it is asked for is tested.

ghost use Rattle.std.specs.Prelude.{◌≡◌, ◌++◌, None, map, IfOk, OnOk, OnErr, IsOkUnless};
ghost use Rattle.cpg_history.specs.Members.{HaveSeen};
ghost use Rattle.cpg_console.specs.Tracing.{IsTraced, IsPartlyTraced, WasKept, between, each_between, heading_text, option_word, step_words, words_text};

use cpg_cluster::hand_on;
use cpg_cluster::trace::{recorded_by, write_trace};
use cpg_cred::Refusal;
use cpg_daemon::{Cluster, Front, Gate, HistoryName, Member};
use cpg_ring::Settings;
use cpg_text::{push_number, put};
use std::alloc::Global;
use std::io::Write;
use std::sync::Wait;
use std::thread::Threads;

/// What becomes of a stopped cluster.
pub trait KeepsEnds {
    ghost use Rattle.cpg_history.specs.Members.{HaveSeen, MemberValue};
    ghost use Rattle.cpg_world_laws.specs.Worlds.{WorldValue};
    ghost use Rattle.cpg_world_laws.specs.declared.events.WorldEvent.{WorldEvent};
    ghost use Rattle.std.specs.Prelude.{List};

    /// What taking it does: by the world that its history began with, and its stations with what all of them had seen.
    ghost keeps: { WorldValue → List WorldEvent → List MemberValue → Self → Self → Type 0 };

    /// Whether the cluster is to record what happens.
    fn is_asked(&self) -> bool;

    /// Takes the stations that the cluster left, with what was recorded of each, and a front that they have seen.
    fn keep<B: HistoryName>(&mut self, alloc: Global, members: Vec<Member<B>>, front: Front<B>)
        requires { HaveSeen members.items front.seen }
        ensures { Self.keeps B.start front.seen members.items self.old self.new };
}

/// Stops a cluster, and hands what it leaves to the keeper.
#[tactic(auto, using(crate::proofs::Traced::was_kept))]
pub fn stop_kept<B, G, H, K>(rt: &H, alloc: Global, cluster: Cluster<B, G>, keeper: &mut K)
where
    B: HistoryName + Send + Sync + 'static,
    G: Gate + Send + Sync + Drop + 'static,
    H: Threads + Wait,
    K: KeepsEnds,
    ensures { WasKept K.keeps B.start keeper.old keeper.new }
{
    cluster.stands();
    let (members, front) = cluster.stop_traced(rt);
    keeper.keep(alloc, members, front);
}

/// Lets a stopped cluster go.
#[derive(Debug, Clone, Copy)]
pub struct Untraced;

impl KeepsEnds for Untraced {
    ghost use Rattle.std.specs.Prelude.{◌≡◌};

    ghost keeps = { λ start seen members old new. new ≡ old };

    fn is_asked(&self) -> bool {
        false
    }

    fn keep<B: HistoryName>(&mut self, _alloc: Global, members: Vec<Member<B>>, front: Front<B>) {
        drop(members);
        drop(front);
    }
}

/// Writes what a cluster recorded behind a heading.
#[derive(Drop)]
pub struct Tracer<'a, T> {
    heading: &'a [u8],
    writer: T,
    refused: Option<Refusal>,
}

impl<'a, T> Tracer<'a, T> {
    /// One that has written nothing.
    pub fn new(heading: &'a [u8], writer: T) -> Tracer<'a, T>
        ensures heading { result.heading.now ≡ heading.now }
        ensures writer { result.writer ≡ writer }
        ensures refused { result.refused ≡ None }
    {
        Tracer {
            heading,
            writer,
            refused: None,
        }
    }

    /// Why it could not write all, if it could not: Memory or Write.
    pub fn refused(&self) -> Option<Refusal>
        ensures { result ≡ (self.now).refused }
    {
        self.refused
    }
}

impl<'a, T: Write> KeepsEnds for Tracer<'a, T> {
    ghost use Rattle.cpg_console.specs.Tracing.{Traces};

    ghost keeps = { λ start seen members old new. Traces start seen members old.heading.now new.refused (T.contents old.writer) (T.contents new.writer) };

    fn is_asked(&self) -> bool {
        true
    }

    fn keep<B: HistoryName>(&mut self, alloc: Global, members: Vec<Member<B>>, front: Front<B>) {
        self.refused = trace_ends(alloc, &mut self.writer, self.heading, members, front).err();
    }
}

/// Writes what the stopped cluster recorded behind the heading, and hands it on.
fn trace_ends<B: HistoryName, T: Write>(
    alloc: Global,
    writer: &mut T,
    heading: &[u8],
    members: Vec<Member<B>>,
    front: Front<B>,
) -> Result<(), Refusal>
    requires { HaveSeen members.items front.seen }
    ensures ok { OnOk result (IsTraced B.start front.seen members.items heading.now (T.contents writer.old) (T.contents writer.new)) }
    ensures err { OnErr result (IsPartlyTraced B.start front.seen members.items heading.now (T.contents writer.old) (T.contents writer.new)) }
{
    let recording = recorded_by(alloc, members, &front)?;
    write_trace(alloc, writer, heading, &recording)?;
    hand_on(writer)
}

/// Puts an option with its number at the text's end, between two others.
fn put_option(
    text: &mut Vec<u8>,
    before: &str,
    name: &str,
    number: u64,
    after: &str,
) -> Result<(), Refusal>
    ensures ok { OnOk result (text.new.items ≡ text.old.items ++ between before.now after.now (option_word name.now number)) }
    ensures memory { IsOkUnless result Refusal.Memory }
{
    put(text, before)?;
    put(text, name)?;
    push_number(text, number)?;
    put(text, after)
}

/// Puts each word at the text's end, between two others.
fn put_words(text: &mut Vec<u8>, before: &str, words: &[&str], after: &str) -> Result<(), Refusal>
    ensures ok { OnOk result (text.new.items ≡ text.old.items ++ each_between before.now after.now (map (λ word. word.now) words.now)) }
    ensures memory { IsOkUnless result Refusal.Memory }
{
    for word in words {
        put_word(text, before, word, after)?;
    }
    Ok(())
}

/// Puts the word at the text's end, between two others.
fn put_word(text: &mut Vec<u8>, before: &str, word: &str, after: &str) -> Result<(), Refusal>
    ensures ok { OnOk result (text.new.items ≡ text.old.items ++ between before.now after.now word.now) }
    ensures memory { IsOkUnless result Refusal.Memory }
{
    put(text, before)?;
    put(text, word)?;
    put(text, after)
}

/// Puts the words by which `step` plays such a world at the text's end, each between two others.
fn put_step_words(
    text: &mut Vec<u8>,
    before: &str,
    settings: &Settings,
    words: &[&str],
    after: &str,
) -> Result<(), Refusal>
    ensures ok { OnOk result (text.new.items ≡ text.old.items ++ each_between before.now after.now (step_words settings.now (map (λ word. word.now) words.now))) }
    ensures memory { IsOkUnless result Refusal.Memory }
{
    put_option(text, before, "--ring=", u64::from(settings.ring), after)?;
    put_option(text, before, "--nodes=", u64::from(settings.nodes), after)?;
    put_option(text, before, "--places=", u64::from(settings.places), after)?;
    put_option(text, before, "--hops=", settings.hops, after)?;
    put_words(text, before, words, after)
}

/// The first line of the trace of a cluster of those settings, whose nodes let in whom the words let in: the command line
/// that plays it.
pub fn trace_heading(alloc: Global, settings: &Settings, words: &[&str]) -> Result<Vec<u8>, Refusal>
    ensures ok { IfOk result (λ text. text.items ≡ heading_text settings.now (map (λ word. word.now) words.now)) }
    ensures memory { IsOkUnless result Refusal.Memory }
{
    let mut text = Vec::new(alloc);
    put(&mut text, "# cpgring step")?;
    put_step_words(&mut text, " ", settings, words, "")?;
    put(&mut text, "\n")?;
    Ok(text)
}

/// The words of that command line, one a line.
pub fn trace_words(alloc: Global, settings: &Settings, words: &[&str]) -> Result<Vec<u8>, Refusal>
    ensures ok { IfOk result (λ text. text.items ≡ words_text settings.now (map (λ word. word.now) words.now)) }
    ensures memory { IsOkUnless result Refusal.Memory }
{
    let mut text = Vec::new(alloc);
    put_step_words(&mut text, "", settings, words, "\n")?;
    Ok(text)
}
