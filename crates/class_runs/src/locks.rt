//! Protocols whose classes are counted, as the examples have them.

/// A lock that one remote has at a time.
pub const LOCK: &[u8] = b"\
protocol lock;
message ask up;
message grant down int 4;
message back up int 4;
home {
  var holder node = none;
  var count int 4 = 0;
  start Free;
  state Free {
    from any holder ? ask goto Asked;
  }
  state Asked {
    to holder ! grant(count) goto Taken;
  }
  state Taken {
    from holder ? back(count) do holder = none goto Free;
  }
}
remote {
  var count int 4 = 0;
  start Idle;
  state Idle {
    tau goto Ask;
  }
  state Ask {
    to home ! ask goto Wait;
  }
  state Wait {
    from home ? grant(count) goto Use;
  }
  state Use {
    tau do count = count + 1 goto Use;
    tau goto Back;
  }
  state Back {
    to home ! back(count) goto Idle;
  }
}
";

/// A lock that the home forgets to take.
pub const HASTY: &[u8] = b"\
protocol lock version 2;
message ask up;
message grant down int 4;
message back up int 4;
home {
  var holder node = none;
  var count int 4 = 0;
  start Free;
  state Free {
    from any holder ? ask goto Asked;
  }
  state Asked {
    to holder ! grant(count) goto Free;
  }
  state Taken {
    from holder ? back(count) do holder = none goto Free;
  }
}
remote {
  var count int 4 = 0;
  start Idle;
  state Idle {
    tau goto Ask;
  }
  state Ask {
    to home ! ask goto Wait;
  }
  state Wait {
    from home ? grant(count) goto Use;
  }
  state Use {
    tau do count = count + 1 goto Use;
    tau goto Back;
  }
  state Back {
    to home ! back(count) goto Idle;
  }
}
claim atmost 1 in Use Back;
";

/// A lock that many readers or one writer have.
pub const READERS: &[u8] = b"\
protocol readers version 2;
message read up;
message write up;
message share down;
message own down;
message done up;
home {
  var j node = none;
  var s set = empty;
  start Free;
  state Free {
    from any j ? read goto Share;
    from any j ? write when s eq empty goto Own;
    from any j in s ? done do s = s - j goto Free;
  }
  state Share {
    to j ! share do s = s + j goto Free;
  }
  state Own {
    to j ! own goto Owned;
  }
  state Owned {
    from j ? done goto Free;
  }
}
remote {
  start Idle;
  state Idle {
    tau goto AskRead;
    tau goto AskWrite;
  }
  state AskRead {
    to home ! read goto WaitRead;
  }
  state WaitRead {
    from home ? share goto Reading;
  }
  state Reading {
    tau goto Done;
  }
  state AskWrite {
    to home ! write goto WaitWrite;
  }
  state WaitWrite {
    from home ? own goto Writing;
  }
  state Writing {
    tau goto Done;
  }
  state Done {
    to home ! done goto Idle;
  }
}
claim atmost 1 in WaitWrite Writing;
claim not Reading with Writing;
";
