//! The protocols of the rows.

/// A cache line has one owner at a time, which gets it with the right to write.
pub const MIGRATORY: &[u8] = b"\
protocol migratory;
message req up;
message gr down int 2;
message lr up int 2;
message inv down;
message id up int 2;
home {
  var o node = none;
  var j node = none;
  var d int 2 = 0;
  start F;
  state F {
    from any j ? req goto G;
  }
  state G {
    to j ! gr(d) do o = j goto E;
  }
  state E {
    from any j ? req goto I1;
    from o ? lr(d) do o = none goto F;
  }
  state I1 {
    to o ! inv goto I2;
    from o ? lr(d) goto G;
  }
  state I2 {
    from o ? id(d) goto G;
  }
}
remote {
  var d int 2 = 0;
  start I;
  state I {
    tau goto R;
  }
  state R {
    to home ! req goto W;
  }
  state W {
    from home ? gr(d) goto V;
  }
  state V {
    tau do d = d + 1 goto V;
    tau goto L;
    from home ? inv goto D;
  }
  state L {
    to home ! lr(d) goto I;
  }
  state D {
    to home ! id(d) goto I;
  }
}
";

/// A home that sends `a` to any remote, and a remote that sends `b` to the home.
pub const THREE: &[u8] = b"\
protocol three;
message a down;
message b up;
home {
  var j node = none;
  start H;
  state H {
    to any j ! a goto H;
    from any j ? b goto H;
  }
}
remote {
  start P;
  state P {
    tau goto Q;
    from home ? a goto P;
  }
  state Q {
    to home ! b goto P;
  }
}
";

/// A home that takes `a` of any remote until it turns, and then takes one `b`.
pub const TIDE: &[u8] = b"\
protocol tide;
message a up;
message b up;
home {
  var j node = none;
  start A;
  state A {
    from any j ? a goto A;
    tau goto B;
  }
  state B {
    from any j ? b goto A;
  }
}
remote {
  start R;
  state R {
    tau goto SA;
    tau goto SB;
  }
  state SA {
    to home ! a goto R;
  }
  state SB {
    to home ! b goto R;
  }
}
";
