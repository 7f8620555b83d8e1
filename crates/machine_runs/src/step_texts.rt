//! The texts of steps.

use async_machine::{Step, step_text};
use std::test::Fail;

const TEXTS: [(Step, &[u8]); 10] = [
    (Step::HomeTau(1), b"home tau 1"),
    (Step::HomeTake(0), b"home take 0"),
    (Step::HomeSend(2, 0), b"home send 2 0"),
    (Step::HomeDrop(0), b"home drop 0"),
    (Step::RemoteTau(0, 1), b"remote 0 tau 1"),
    (Step::RemoteSend(5), b"remote 5 send"),
    (Step::RemoteAnswer(0), b"remote 0 answer"),
    (Step::RemoteReply(0), b"remote 0 reply"),
    (Step::Up(3), b"up 3"),
    (Step::Down(0), b"down 0"),
];

#[test]
fn each_kind_of_step_has_its_words(rt: HostRuntime) -> Result<(), Fail> {
    for (step, words) in TEXTS {
        let mut text = Vec::new(rt.alloc());
        step_text(rt.alloc(), step, &mut text)?;
        assert_eq!(rt; text.as_slice(), words);
    }
    Ok(())
}
