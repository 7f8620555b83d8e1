//! Protocols of which each shows one thing about messages and their replies.

use memory_runs::{INVALIDATE, MIGRATORY, Wrong, begins, each_file_ends, ends};
use rvc_top::Status;

// `offer` is the reply of `ask` and has the reply `accept`, which has the reply `done`.
const DEAL: &[u8] = b"\
protocol deal;message ask up;message offer down int 4;message accept up;message done down;\
home{var who node=none;var price int 4=0;start Free;\
state Free{from any who?ask goto Asked;}\
state Asked{to who!offer(price)do price=price+1 goto Offered;}\
state Offered{from who?accept goto Sold;}\
state Sold{to who!done goto Free;}}\
remote{var price int 4=0;start Ask;\
state Ask{to home!ask goto Asked;}\
state Asked{from home?offer(price)goto Accept;}\
state Accept{to home!accept goto Accepted;}\
state Accepted{from home?done goto Ask;}}";

const DEALS: &[u8] = b"\
table deal lean
message ask up reply offer
message offer down int 4 reply accept
message accept up reply done
message done down
home
  Free take 0: owe offer, Free/0, Asked
  Asked send 0: request offer, none, Asked/0*
  Asked/0* got reply accept: nothing, Asked/0 Offered/0, Sold
  Asked/0* got nack: nothing, none, Asked
  Asked/0* got request: nothing, none, Asked
  Asked pay 0: reply offer, Asked/0, Offered
  Offered take 0: owe done, Offered/0, Sold
  Sold send 0: request done, none, Sold/0*
  Sold/0* got ack: nothing, Sold/0, Free
  Sold/0* got nack: nothing, none, Sold
  Sold/0* got request: nothing, none, Sold
  Sold pay 0: reply done, Sold/0, Free
remote
  Ask send 0: request ask, none, Ask/0*
  Ask/0* got reply offer: nothing, Ask/0 Asked/0, Accept
  Ask/0* got nack: nothing, none, Ask
  Asked answer 0: nothing, Asked/0, Accept/0!
  Asked answer none: nack, none, Asked
  Accept send 0: request accept, none, Accept/0*
  Accept/0* got reply done: nothing, Accept/0 Accepted/0, Ask
  Accept/0* got nack: nothing, none, Accept
  Accept/0! send 0: reply accept, Accept/0, Accepted
  Accepted answer 0: ack, Accepted/0, Ask
  Accepted answer none: nack, none, Accepted
";

// `data` is the reply of `read` and of `write`.
const SHELF: &[u8] = b"\
protocol shelf;message read up;message write up set;message data down node;\
home{var j node=none;var s set=empty;start H;\
state H{from any j?read goto R;from any j in s?write(s)goto R;}\
state R{to any j in s!data(j)goto H;to j!data(none)goto H;}}\
remote{var x node=none;start I;\
state I{tau goto R;tau goto W;}\
state R{to home!read goto D;}\
state W{to home!write(empty+x)goto D;}\
state D{from home?data(x)goto I;}}";

const SHELVES: &[u8] = b"\
table shelf lean
message read up reply data
message write up set reply data
message data down node
home
  H take 0: owe data, H/0, R
  H take 1: owe data, H/1, R
  R send 0: request data, none, R/0*
  R/0* got ack: nothing, R/0, H
  R/0* got nack: nothing, none, R
  R/0* got request: nothing, none, R
  R pay 0: reply data, R/0, H
  R send 1: request data, none, R/1*
  R/1* got ack: nothing, R/1, H
  R/1* got nack: nothing, none, R
  R/1* got request: nothing, none, R
  R pay 1: reply data, R/1, H
remote
  I tau 0: nothing, I/0, R
  I tau 1: nothing, I/1, W
  I answer none: nack, none, I
  R send 0: request read, none, R/0*
  R/0* got reply data: nothing, R/0 D/0, I
  R/0* got nack: nothing, none, R
  W send 0: request write, none, W/0*
  W/0* got reply data: nothing, W/0 D/0, I
  W/0* got nack: nothing, none, W
  D answer 0: ack, D/0, I
  D answer none: nack, none, D
";

// `call` has the reply `back`. `stop` has none: the home doesn't remember to whom it sent it.
const CALLS: &[u8] = b"\
protocol calls;message call down;message back up;message stop down;message gone up;\
home{var j node=none;start H;\
state H{to any j!call goto B;to any j!stop do j=none goto G;}\
state B{from j?back goto H;}\
state G{from j?gone goto H;}}\
remote{start R;\
state R{from home?call goto B;from home?stop goto G;}\
state B{to home!back goto R;}\
state G{to home!gone goto R;}}";

const CALLED: &[u8] = b"\
table calls lean
message call down reply back
message back up
message stop down
message gone up
home
  H send 0: request call, none, H/0*
  H/0* got reply back: nothing, H/0 B/0, H
  H/0* got nack: nothing, none, H
  H/0* got request: nothing, none, H
  H send 1: request stop, none, H/1*
  H/1* got ack: nothing, H/1, G
  H/1* got nack: nothing, none, H
  H/1* got request: nothing, none, H
  B take 0: ack, B/0, H
  G take 0: ack, G/0, H
remote
  R answer 0: nothing, R/0, B/0!
  R answer 1: ack, R/1, G
  R answer none: nack, none, R
  B send 0: request back, none, B/0*
  B/0* got ack: nothing, B/0, R
  B/0* got nack: nothing, none, B
  B/0! send 0: reply back, B/0, R
  G send 0: request gone, none, G/0*
  G/0* got ack: nothing, G/0, R
  G/0* got nack: nothing, none, G
";

const LEAN: [&str; 3] = ["table", "p", "lean"];

const PAIRED: [(&[u8], &[u8]); 3] = [(DEAL, DEALS), (SHELF, SHELVES), (CALLS, CALLED)];

#[test]
fn a_pair_takes_a_reply_in_place_of_an_ack(rt: HostRuntime) -> Result<(), Wrong> {
    each_file_ends(rt.alloc(), &LEAN, Status::Done, &PAIRED)
}

// Two states of a remote: in the second one, `req` doesn't wait for `gr` alone.
const TWO_STATES: &[u8] = b"\
state R2{to home!req goto W2;}state W2{from home?gr(d)goto V;tau goto W2;}}";

// The table of `migratory` with these states, up to the rows of a remote. No row of the home pays.
const PAYS_NOTHING: &[u8] = b"\
table migratory lean
message req up
message gr down int 2
message lr up int 2
message inv down reply id
message id up int 2
home
  F take 0: ack, F/0, G
  G send 0: request gr, none, G/0*
  G/0* got ack: nothing, G/0, E
  G/0* got nack: nothing, none, G
  G/0* got request: nothing, none, G
  E take 0: ack, E/0, I1
  E take 1: ack, E/1, F
  I1 send 0: request inv, none, I1/0*
  I1/0* got reply id: nothing, I1/0 I2/0, G
  I1/0* got nack: nothing, none, I1
  I1/0* got request: nothing, none, I1
  I1 take 1: ack, I1/1, G
  I2 take 0: ack, I2/0, G
remote
";

#[test]
fn one_output_that_does_not_wait_for_the_reply_undoes_a_pair(rt: HostRuntime) -> Result<(), Wrong> {
    // Without the last brace and its LF.
    let (front, _) = MIGRATORY.split_at(MIGRATORY.len().saturating_sub(2));
    let file = [front, TWO_STATES];
    ends(rt.alloc(), &begins(&LEAN, &file, PAYS_NOTHING))
}

// The table of `invalidate` up to its rows. The pairs of `migratory` stand in `MIGRATES`.
const INVALIDATES: &[u8] = b"\
table invalidate lean
message rs up reply gs
message rx up reply gx
message gs down int 2
message gx down int 2
message ev up
message wb up int 2
message inv down reply ia
message ia up
message fetch down reply fd
message fd up int 2
home
";

#[test]
fn the_examples_have_their_pairs(rt: HostRuntime) -> Result<(), Wrong> {
    ends(rt.alloc(), &begins(&LEAN, &[INVALIDATE], INVALIDATES))
}
