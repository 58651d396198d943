//! Asks, from the front of a stream.

ghost use Rattle.std.specs.Prelude.{◌≡◌, ℕ, option_map};
ghost use Rattle.cpg_ask.specs.Asks.{Ask, Whole, want_seen, ask_seen, code_of, reading_seen};
ghost use Rattle.cpg_ask.specs.Streams.{StandsIn};
ghost use Rattle.cpg_ask.specs.Reading.{asked_in, insert_in, remove_in, hello_in, groups_in, want_in, read_of};

use crate::codes::AskCode;
use crate::heads::Head;
use crate::input::Input;
use crate::rules::RuleWords;

/// How many bytes an ask has at most, behind its head.
pub const MOST_ASK: u32 = 8192;

/// What a client asks for; names and messages are those of the stream.
#[derive(Clone, Copy)]
pub enum WantView<'a> {
    /// The protocol's version, and bits of what the client would have.
    Hello(u32, u32),
    Join(&'a [u8]),
    Leave,
    Send(&'a [u8]),
    Members(&'a [u8]),
    Groups(u32),
    Insert(RuleWords, &'a [u8]),
    Remove(u32, &'a [u8]),
}

/// What a client asks, with the tag that the answer repeats.
#[derive(Clone, Copy)]
pub struct AskView<'a> {
    pub tag: u16,
    pub want: WantView<'a>,
}

/// What stands at the front of a stream: a whole ask and how many bytes it takes; fewer bytes than an ask has; or
/// what no ask begins with.
#[derive(Clone, Copy)]
pub enum Front<'a> {
    Whole(AskView<'a>, usize),
    Part,
    Broken,
}

/// What stands at the front of the stream. Any bytes are one of the three; no memory is asked for.
pub fn read(bytes: &[u8]) -> Front<'_>
    ensures exact { reading_seen result ≡ read_of bytes.now }
    // A whole ask is spelled there, and takes some bytes.
    ensures whole { (ask : Ask) (count : ℕ) → read_of bytes.now ≡ Whole ask count → StandsIn bytes.now ask count }
{
    read_front(bytes)
}

#[tactic(auto, unfolding(crate::specs::Reading::read_of))]
fn read_front(bytes: &[u8]) -> Front<'_>
    ensures { reading_seen result ≡ read_of bytes.now }
{
    let mut input = Input::of(bytes);
    let Some(head) = Head::read(&mut input) else {
        return Front::Part;
    };
    if head.count > MOST_ASK {
        return Front::Broken;
    }
    let Some(text) = input.text(head.count as usize) else {
        return Front::Part;
    };
    match WantView::read(head.kind, text) {
        None => Front::Broken,
        Some(want) => Front::Whole(
            AskView {
                tag: head.tag,
                want,
            },
            8 + head.count as usize,
        ),
    }
}

impl<'a> WantView<'a> {
    /// The code of what is asked for.
    pub fn code(&self) -> AskCode
        ensures { result ≡ code_of (want_seen self.now) }
    {
        match self {
            WantView::Hello(_, _) => AskCode::Hello,
            WantView::Join(_) => AskCode::Join,
            WantView::Leave => AskCode::Leave,
            WantView::Send(_) => AskCode::Send,
            WantView::Members(_) => AskCode::Members,
            WantView::Groups(_) => AskCode::Groups,
            WantView::Insert(_, _) => AskCode::Insert,
            WantView::Remove(_, _) => AskCode::Remove,
        }
    }

    #[tactic(auto, unfolding(crate::specs::Reading::want_in))]
    fn read(kind: u16, text: &'a [u8]) -> Option<WantView<'a>>
        ensures { option_map want_seen result ≡ want_in kind text.now }
    {
        let code = AskCode::of(kind)?;
        WantView::read_as(code, text)
    }

    #[tactic(auto, unfolding(crate::specs::Reading::asked_in))]
    fn read_as(code: AskCode, text: &'a [u8]) -> Option<WantView<'a>>
        ensures { option_map want_seen result ≡ asked_in code text.now }
    {
        match code {
            AskCode::Hello => WantView::read_hello(text),
            AskCode::Join => Some(WantView::Join(text)),
            AskCode::Leave => if text.is_empty() {
                Some(WantView::Leave)
            } else {
                None
            },
            AskCode::Send => Some(WantView::Send(text)),
            AskCode::Members => Some(WantView::Members(text)),
            AskCode::Groups => WantView::read_groups(text),
            AskCode::Insert => WantView::read_insert(text),
            AskCode::Remove => WantView::read_remove(text),
        }
    }

    #[tactic(auto, unfolding(crate::specs::Reading::hello_in))]
    fn read_hello(text: &'a [u8]) -> Option<WantView<'a>>
        ensures { option_map want_seen result ≡ hello_in text.now }
    {
        let mut input = Input::of(text);
        let version = input.u32()?;
        let wishes = input.u32()?;
        if input.is_at_end() {
            Some(WantView::Hello(version, wishes))
        } else {
            None
        }
    }

    #[tactic(auto, unfolding(crate::specs::Reading::groups_in))]
    fn read_groups(text: &'a [u8]) -> Option<WantView<'a>>
        ensures { option_map want_seen result ≡ groups_in text.now }
    {
        let mut input = Input::of(text);
        let members = input.u32()?;
        if input.is_at_end() {
            Some(WantView::Groups(members))
        } else {
            None
        }
    }

    #[tactic(auto, unfolding(crate::specs::Reading::insert_in))]
    fn read_insert(text: &'a [u8]) -> Option<WantView<'a>>
        ensures { option_map want_seen result ≡ insert_in text.now }
    {
        let mut input = Input::of(text);
        let rule = RuleWords::read(&mut input)?;
        Some(WantView::Insert(rule, input.rest()))
    }

    #[tactic(auto, unfolding(crate::specs::Reading::remove_in))]
    fn read_remove(text: &'a [u8]) -> Option<WantView<'a>>
        ensures { option_map want_seen result ≡ remove_in text.now }
    {
        let mut input = Input::of(text);
        let id = input.u32()?;
        Some(WantView::Remove(id, input.rest()))
    }
}
