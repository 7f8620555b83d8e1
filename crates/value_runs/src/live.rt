//! The live variables of a protocol.

use live_variables::live_variables;
use proto_model::Body;
use protocol_reader::read;
use star_check::{Checked, check};
use std::alloc::Global;
use std::test::Fail;

// A lock, whose home knows who holds it (variable 0), with a counter (variable 1) that travels with
// it.
const LOCK: &[u8] = b"protocol lock;
message ask up;
message grant down int 4;
message back up int 4;
home {
  var holder node = none;
  var count int 4 = 0;
  start Free;
  state Free {
    from any holder ? ask goto Asked;
  }
  state Asked {
    to holder ! grant(count) goto Taken;
  }
  state Taken {
    from holder ? back(count) do holder = none goto Free;
  }
}
remote {
  var count int 4 = 0;
  start Idle;
  state Idle {
    tau goto Ask;
  }
  state Ask {
    to home ! ask goto Wait;
  }
  state Wait {
    from home ? grant(count) goto Use;
  }
  state Use {
    tau do count = count + 1 goto Use;
    tau goto Back;
  }
  state Back {
    to home ! back(count) goto Idle;
  }
}
";

fn lock(alloc: Global) -> Option<Checked> {
    let spelled = read(alloc, LOCK).ok()?;
    check(alloc, spelled.protocol).ok()
}

// Whether these are the live variables of the process where these are asked for.
fn are_live(alloc: Global, body: &Body, asked: &[u64], live: &[u64]) -> bool {
    let states = body.states.as_slice().len();
    if asked.len() != states || states > 64 {
        return false;
    }
    match live_variables(alloc, body, asked) {
        Ok(sets) => sets.as_slice() == live,
        Err(_) => false,
    }
}

#[test]
fn a_variable_is_live_until_it_is_written(rt: HostRuntime) -> Result<(), Fail> {
    let alloc = rt.alloc();
    let Some(checked) = lock(alloc) else {
        return Err("no memory".into());
    };
    let (home, remote) = (checked.home(), checked.remote());
    assert!(rt; are_live(alloc, home, &[0, 0, 0], &[0b10, 0b11, 0b01]));
    assert!(rt; are_live(alloc, remote, &[0, 0, 0, 0, 0], &[0, 0, 0, 1, 1]));
    // What is asked for in the first state is live wherever it can still come from.
    assert!(rt; are_live(alloc, home, &[0b01, 0, 0], &[0b11, 0b11, 0b01]));
    assert!(rt; are_live(alloc, remote, &[1, 0, 0, 0, 0], &[1, 0, 0, 1, 1]));
    Ok(())
}
