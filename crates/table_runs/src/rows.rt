//! The rows of a table.

use memory_runs::{MIGRATORY, SMALL, Wrong, ends, over_file};
use rvc_top::Status;

const MIGRATES: &[u8] = b"\
table migratory lean
message req up reply gr
message gr down int 2
message lr up int 2
message inv down reply id
message id up int 2
home
  F take 0: owe gr, F/0, G
  G send 0: request gr, none, G/0*
  G/0* got ack: nothing, G/0, E
  G/0* got nack: nothing, none, G
  G/0* got request: nothing, none, G
  G pay 0: reply gr, G/0, E
  E take 0: owe gr, E/0, I1
  E take 1: ack, E/1, F
  I1 send 0: request inv, none, I1/0*
  I1/0* got reply id: nothing, I1/0 I2/0, G
  I1/0* got nack: nothing, none, I1
  I1/0* got request: nothing, none, I1
  I1 take 1: ack, I1/1, G
  I2 take 0: ack, I2/0, G
remote
  I tau 0: nothing, I/0, R
  I answer none: nack, none, I
  R send 0: request req, none, R/0*
  R/0* got reply gr: nothing, R/0 W/0, V
  R/0* got nack: nothing, none, R
  W answer 0: ack, W/0, V
  W answer none: nack, none, W
  V tau 0: nothing, V/0, V
  V tau 1: nothing, V/1, L
  V answer 2: nothing, V/2, D/0!
  V answer none: nack, none, V
  L send 0: request lr, none, L/0*
  L/0* got ack: nothing, L/0, I
  L/0* got nack: nothing, none, L
  D send 0: request id, none, D/0*
  D/0* got ack: nothing, D/0, I
  D/0* got nack: nothing, none, D
  D/0! send 0: reply id, D/0, I
";

/// The table of `SMALL` in mode plain.
pub const SMALL_ROWS: &[u8] = b"\
table small plain
message a up
message b down
home
remote
  R send 0: request a, none, R/0*
  R/0* got ack: nothing, R/0, R
  R/0* got nack: nothing, none, R
";

#[test]
fn a_table_tells_each_row(rt: HostRuntime) -> Result<(), Wrong> {
    let words = ["table", "p", "lean"];
    let case = over_file(&words, &[MIGRATORY], Status::Done, MIGRATES);
    ends(rt.alloc(), &case)
}

#[test]
fn a_plain_table_tells_each_row(rt: HostRuntime) -> Result<(), Wrong> {
    let words = ["table", "p", "plain"];
    let case = over_file(&words, &[SMALL], Status::Done, SMALL_ROWS);
    ends(rt.alloc(), &case)
}
