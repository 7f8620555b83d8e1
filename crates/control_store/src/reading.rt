//! The head of an image, read.

ghost use Rattle.std.specs.Prelude.{◌≡◌, ◌+◌, ◌*◌, ◌^◌, ◌<◌, ◌≤◌, ◌++◌, ◌↔◌, IsTrue, length};
ghost use Rattle.control_store.specs.Image.{eight};
ghost use Rattle.control_store.specs.Head.{Begins, IsHeadOf, mode_with, text_behind, words_behind};

use crate::heads::Head;
use crate::writing::MARK;
use proto_model::Mode;

// How many bytes a head has.
const HEAD: usize = 40;

// The most bytes that the text of an image may have.
const TEXT_LIMIT: u64 = 65_536;

// How many bytes stand for a row.
const WORD: u64 = 16;

// The number that the first eight bytes are, and the bytes behind them.
#[tactic(auto, unfolding(crate::specs::Image::eight))]
fn number_in(bytes: &[u8]) -> (u64, &[u8])
    requires { 8 ≤ length bytes.now }
    ensures number { bytes.now ≡ eight result.0 ++ result.1.now }
    ensures fits { result.0 < 2 ^ 64 }
    ensures length { length result.1.now + 8 ≡ length bytes.now }
{
    let (front, rest) = bytes.split_at(8);
    let number = u64::from_be_bytes([
        front[0], front[1], front[2], front[3], front[4], front[5], front[6], front[7],
    ]);
    (number, rest)
}

// The mode with this number, if there is one.
fn mode_in(number: u64) -> Option<Mode>
    ensures { result ≡ mode_with number }
{
    match number {
        0 => Some(Mode::Plain),
        1 => Some(Mode::Lean),
        _ => None,
    }
}

// Whether so many bytes are a text of this length and the words of so many rows.
fn is_whole(bytes: usize, text: u64, home: u64, remote: u64) -> bool
    ensures { IsTrue result ↔ (bytes ≡ text + 16 * (home + remote)) }
{
    let Some(words) = (bytes as u64).checked_sub(text) else {
        return false;
    };
    let rows = words / WORD;
    words % WORD == 0 && home <= rows && remote == rows - home
}

/// The head with which these bytes begin. `None` where there are fewer than 40, the first eight are
/// others, the mode is neither 0 nor 1, the text is longer than 65,536 bytes, or the bytes are not
/// as many as the head says. Takes no memory.
pub fn head(bytes: &[u8]) -> Option<Head>
    ensures { IsHeadOf bytes.now result }
{
    if bytes.len() < HEAD {
        return None;
    }
    let rest = bytes.strip_prefix(MARK)?;
    let (mode, rest) = number_in(rest);
    let (text, rest) = number_in(rest);
    let (home, rest) = number_in(rest);
    let (remote, rest) = number_in(rest);
    if text > TEXT_LIMIT || !is_whole(rest.len(), text, home, remote) {
        return None;
    }
    Some(Head {
        mode: mode_in(mode)?,
        text: text as usize,
        home,
        remote,
    })
}

/// The text of the image that these bytes are, and that begins with this head. Takes no memory.
pub fn text_in<'a>(head: &Head, bytes: &'a [u8]) -> &'a [u8]
    requires { Begins bytes.now head.now }
    ensures { result.now ≡ text_behind head.now bytes.now }
{
    let (_, rest) = bytes.split_at(HEAD);
    let (text, _) = rest.split_at(head.text);
    text
}

/// The words of the rows of the image that these bytes are, and that begins with this head.
pub(crate) fn words_in<'a>(head: &Head, bytes: &'a [u8]) -> &'a [u8]
    requires { Begins bytes.now head.now }
    ensures words { result.now ≡ words_behind head.now bytes.now }
    ensures length { length result.now ≡ 16 * (head.now.home + head.now.remote) }
{
    let (_, words) = bytes.split_at(HEAD + head.text);
    words
}
