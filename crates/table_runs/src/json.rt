//! The same rows as JSON, on one line.

use memory_runs::{HOLD, STILL_LINE, Wrong, ends, over_file};
use rvc_top::Status;

/// The JSON of `STILL_LINE` in mode lean.
pub const STILL_LEAN: &[u8] = b"{\"home\":[],\
\"messages\":[],\
\"mode\":\"lean\",\"name\":\"still\",\"remote\":[\
{\"at\":\"R\",\"does\":\"none\",\"on\":\"answer none\",\"puts\":\"nack\",\"to\":\"R\"}]}\n";

const STILL_PLAIN: &[u8] = b"{\"home\":[],\
\"messages\":[],\
\"mode\":\"plain\",\"name\":\"still\",\"remote\":[\
{\"at\":\"R\",\"does\":\"none\",\"on\":\"answer none\",\"puts\":\"nack\",\"to\":\"R\"}]}\n";

const HOLDS: &[u8] = b"{\"home\":[\
{\"at\":\"H\",\"does\":\"none\",\"on\":\"send 0\",\"puts\":\"request a\",\"to\":\"H/0*\"},\
{\"at\":\"H/0*\",\"does\":\"H/0\",\"on\":\"got ack\",\"puts\":\"nothing\",\"to\":\"H\"},\
{\"at\":\"H/0*\",\"does\":\"none\",\"on\":\"got nack\",\"puts\":\"nothing\",\"to\":\"H\"},\
{\"at\":\"H/0*\",\"does\":\"none\",\"on\":\"got request\",\"puts\":\"nothing\",\"to\":\"H\"}],\
\"messages\":[\
{\"carries\":\"nothing\",\"name\":\"a\",\"reply\":null,\"up\":false},\
{\"carries\":\"nothing\",\"name\":\"b\",\"reply\":null,\"up\":true}],\
\"mode\":\"plain\",\"name\":\"hold\",\"remote\":[\
{\"at\":\"Q\",\"does\":\"none\",\"on\":\"send 0\",\"puts\":\"request b\",\"to\":\"Q/0*\"},\
{\"at\":\"Q/0*\",\"does\":\"Q/0\",\"on\":\"got ack\",\"puts\":\"nothing\",\"to\":\"P\"},\
{\"at\":\"Q/0*\",\"does\":\"none\",\"on\":\"got nack\",\"puts\":\"nothing\",\"to\":\"Q\"},\
{\"at\":\"P\",\"does\":\"P/0\",\"on\":\"answer 0\",\"puts\":\"ack\",\"to\":\"P\"},\
{\"at\":\"P\",\"does\":\"none\",\"on\":\"answer none\",\"puts\":\"nack\",\"to\":\"P\"}]}\n";

// Its messages carry values, and `who` is the reply of `ask`.
const ASKS: &[u8] = b"\
protocol asks;message ask up set;message who down node;home{start H;state H{}}\
remote{var s set=empty;start A;state A{to home!ask(s)goto W;}state W{from home?who goto A;}}";

const ASKED: &[u8] = b"{\"home\":[],\
\"messages\":[\
{\"carries\":\"set\",\"name\":\"ask\",\"reply\":\"who\",\"up\":true},\
{\"carries\":\"node\",\"name\":\"who\",\"reply\":null,\"up\":false}],\
\"mode\":\"lean\",\"name\":\"asks\",\"remote\":[\
{\"at\":\"A\",\"does\":\"none\",\"on\":\"send 0\",\"puts\":\"request ask\",\"to\":\"A/0*\"},\
{\"at\":\"A/0*\",\"does\":\"A/0 W/0\",\"on\":\"got reply who\",\"puts\":\"nothing\",\"to\":\"A\"},\
{\"at\":\"A/0*\",\"does\":\"none\",\"on\":\"got nack\",\"puts\":\"nothing\",\"to\":\"A\"},\
{\"at\":\"W\",\"does\":\"W/0\",\"on\":\"answer 0\",\"puts\":\"ack\",\"to\":\"A\"},\
{\"at\":\"W\",\"does\":\"none\",\"on\":\"answer none\",\"puts\":\"nack\",\"to\":\"W\"}]}\n";

const WRITTEN: [(&[u8], &str, &[u8]); 4] = [
    (STILL_LINE, "lean", STILL_LEAN),
    (STILL_LINE, "plain", STILL_PLAIN),
    (HOLD, "plain", HOLDS),
    (ASKS, "lean", ASKED),
];

#[test]
fn json_tells_the_same_rows(rt: HostRuntime) -> Result<(), Wrong> {
    for (file, mode, text) in WRITTEN {
        let words = ["json", "p", mode];
        let file = [file];
        let case = over_file(&words, &file, Status::Done, text);
        ends(rt.alloc(), &case)?;
    }
    Ok(())
}
