//! What is wanted of a word, as it is printed.
//!
//! Proved: each phrase is that of its definition in `specs/Phrases.antt`.

ghost use Rattle.std.specs.Prelude.{◌≡◌, ◌++◌, ◌≢◌, OnOk, IsOkUnless};
ghost use Rattle.cpg_hint.specs.Phrases.{expected_text};

use crate::patterns::Expected;
use cpg_cred::Refusal;
use cpg_text::{push_number, put};

/// Puts the phrase of a pattern at the text's end, where there are so many nodes.
pub fn put_expected(text: &mut Vec<u8>, nodes: u8, expected: Expected) -> Result<(), Refusal>
    ensures ok { OnOk result (text.new.items ≡ text.old.items ++ expected_text nodes expected) }
    ensures memory { IsOkUnless result Refusal.Memory }
{
    match expected {
        Expected::Node => put_node(text, u64::from(nodes)),
        _ => put(text, phrase_of(expected)),
    }
}

fn put_node(text: &mut Vec<u8>, nodes: u64) -> Result<(), Refusal>
    ensures ok { OnOk result (text.new.items ≡ text.old.items ++ expected_text nodes Expected.Node) }
    ensures memory { IsOkUnless result Refusal.Memory }
{
    put(text, "NODE: a number from 1 to ")?;
    push_number(text, nodes)
}

/// The phrase of a pattern that is the same for all rings.
fn phrase_of(expected: Expected) -> &'static str
    ensures { expected ≢ Expected.Node → result.now ≡ expected_text 0 expected }
{
    match expected {
        Expected::Node => "",
        Expected::Op =>
            "CALL: join GROUP, leave, send TEXT, insert GROUP POS EFFECT RIGHT WHO, remove GROUP ID, or gone",
        Expected::Call =>
            "CALL: join GROUP, leave, send TEXT, insert GROUP POS EFFECT RIGHT WHO, or remove GROUP ID",
        Expected::StepCommand =>
            "COMMAND: connect, call, disconnect, frame, timer, deliver, take, list, groups, show, audit, rules or safe",
        Expected::RunCommand => "COMMAND: connect, call, wait, list, groups, audit, close or safe",
        Expected::Caller =>
            "NODE.CONN: a node from 1 to 8, a dot, and a connection from 1 to 65535",
        Expected::Conn => "CONN: a number from 1 to 65535",
        Expected::Pid => "PID: a number from 0 to 4294967295",
        Expected::Uid => "UID: a number from 0 to 4294967295",
        Expected::Gid => "GID: a number from 0 to 4294967295",
        Expected::Id => "ID: a number from 0 to 4294967295",
        Expected::Session => "S: a number from 0 to 4294967295",
        Expected::Number => "N: a number from 0 to 4294967295",
        Expected::Frame => "K: a number from 0 to 18446744073709551615",
        Expected::Position => "POS: a number from 0 to 255",
        Expected::Effect => "EFFECT: allow or deny",
        Expected::Right => "RIGHT: join, send, list or edit",
        Expected::Who =>
            "WHO: any, or uid:N, gid:N, node:N, in this order, joined by +, each at most once, and node 1 to 8",
        Expected::Name => "GROUP: a name of 1 to 128 printing ASCII characters",
        Expected::Message =>
            "TEXT: a message of at most 8192 bytes, % and two hexadecimal digits for any byte, - for the empty one",
        Expected::Text =>
            "TEXT: a message, % and two hexadecimal digits for any byte, - for the empty one",
        Expected::Group => "GROUP: a name",
        Expected::Named => "NAME: a name",
        Expected::Table => "user NAME N, or group NAME N",
        Expected::Room => "nothing: a script has at most 1048576 entries",
        Expected::Head => "a line %names, %conf or %ask, which begins a part",
        Expected::Nothing => "nothing: the line ends before this word",
    }
}
