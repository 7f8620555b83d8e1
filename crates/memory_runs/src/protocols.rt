//! Protocols, on one line and laid out.

/// `STILL` on one line, of 63 bytes.
pub const STILL_LINE: &[u8] = b"protocol still;home{start H;state H{}}remote{start R;state R{}}";

/// A home and a remote that do nothing.
pub const STILL: &[u8] = b"\
protocol still;
home {
  start H;
  state H {
  }
}
remote {
  start R;
  state R {
  }
}
";

/// `HOLD` on one line.
pub const HOLD_LINE: &[u8] = b"protocol hold;message a down;message b up;\
home{var j node=none;start H;state H{to any j!a goto H;}}\
remote{start Q;state Q{to home!b goto P;}state P{from home?a goto P;}}";

/// A home that sends `a` to any remote, and a remote that sends `b` first.
pub const HOLD: &[u8] = b"\
protocol hold;
message a down;
message b up;
home {
  var j node = none;
  start H;
  state H {
    to any j ! a goto H;
  }
}
remote {
  start Q;
  state Q {
    to home ! b goto P;
  }
  state P {
    from home ? a goto P;
  }
}
";

/// A home and a remote that send to each other.
pub const THREE: &[u8] = b"\
protocol three;
message a down;
message b up;
home {
  var j node = none;
  start H;
  state H {
    to any j ! a goto H;
    from any j ? b goto H;
  }
}
remote {
  start P;
  state P {
    tau goto Q;
    from home ? a goto P;
  }
  state Q {
    to home ! b goto P;
  }
}
";

/// A remote that sends `a` again and again to a home that takes nothing.
pub const SMALL: &[u8] = b"\
protocol small;
message a up;
message b down;
home {
  start H;
  state H {
  }
}
remote {
  start R;
  state R {
    to home ! a goto R;
  }
}
";

/// The text that `example migratory` must write.
pub const MIGRATORY: &[u8] = b"\
protocol migratory;
message req up;
message gr down int 2;
message lr up int 2;
message inv down;
message id up int 2;
home {
  var o node = none;
  var j node = none;
  var d int 2 = 0;
  start F;
  state F {
    from any j ? req goto G;
  }
  state G {
    to j ! gr(d) do o = j goto E;
  }
  state E {
    from any j ? req goto I1;
    from o ? lr(d) do o = none goto F;
  }
  state I1 {
    to o ! inv goto I2;
    from o ? lr(d) goto G;
  }
  state I2 {
    from o ? id(d) goto G;
  }
}
remote {
  var d int 2 = 0;
  start I;
  state I {
    tau goto R;
  }
  state R {
    to home ! req goto W;
  }
  state W {
    from home ? gr(d) goto V;
  }
  state V {
    tau do d = d + 1 goto V;
    tau goto L;
    from home ? inv goto D;
  }
  state L {
    to home ! lr(d) goto I;
  }
  state D {
    to home ! id(d) goto I;
  }
}
";

/// The header of `migratory` as a file of version 2. `migratory_body` and claims follow it.
pub const MIGRATORY_2: &[u8] = b"protocol migratory version 2;\n";

/// `MIGRATORY` behind its header, of 20 bytes.
pub fn migratory_body() -> &'static [u8] {
    match MIGRATORY.get(20..) {
        Some(body) => body,
        None => MIGRATORY,
    }
}

/// The text that `example invalidate` must write.
pub const INVALIDATE: &[u8] = b"\
protocol invalidate;
message rs up;
message rx up;
message gs down int 2;
message gx down int 2;
message ev up;
message wb up int 2;
message inv down;
message ia up;
message fetch down;
message fd up int 2;
home {
  var j node = none;
  var o node = none;
  var v node = none;
  var s set = empty;
  var d int 2 = 0;
  start U;
  state U {
    from any j ? rs goto GS;
    from any j ? rx goto INV;
    from any v in s ? ev do s = s - v goto U;
  }
  state GS {
    to j ! gs(d) do s = s + j goto U;
  }
  state INV {
    to any v in s ! inv goto IA;
    from any v in s ? ev do s = s - v goto INV;
    tau when s eq empty goto GX;
  }
  state IA {
    from v ? ia do s = s - v goto INV;
  }
  state GX {
    to j ! gx(d) do o = j goto X;
  }
  state X {
    from any j ? rs goto FS;
    from any j ? rx goto FX;
    from o ? wb(d) do o = none goto U;
  }
  state FS {
    to o ! fetch goto WS;
    from o ? wb(d) do o = none goto GS;
  }
  state WS {
    from o ? fd(d) do o = none goto GS;
  }
  state FX {
    to o ! fetch goto WX;
    from o ? wb(d) do o = none goto GX;
  }
  state WX {
    from o ? fd(d) goto GX;
  }
}
remote {
  var d int 2 = 0;
  start I;
  state I {
    tau goto RS;
    tau goto RX;
  }
  state RS {
    to home ! rs goto WS;
  }
  state WS {
    from home ? gs(d) goto S;
  }
  state RX {
    to home ! rx goto WX;
  }
  state WX {
    from home ? gx(d) goto M;
  }
  state S {
    tau goto E;
    from home ? inv goto A;
  }
  state E {
    to home ! ev goto I;
  }
  state A {
    to home ! ia goto I;
  }
  state M {
    tau do d = d + 1 goto M;
    tau goto B;
    from home ? fetch goto F;
  }
  state B {
    to home ! wb(d) goto I;
  }
  state F {
    to home ! fd(d) goto I;
  }
}
";

/// A home that reckons with an int of each of two sizes, a node and a set.
pub const ARITH: &[u8] = b"\
protocol arith;
message m down;
home {
  var c int 4 = 3;
  var e int 3 = 0;
  var x node = none;
  var s set = empty;
  start H;
  state H {
    tau do c = c + 1, s = s - x goto H;
    tau do c = c - 1, e = e - 1 goto H;
    to x ! m goto H;
  }
}
remote {
  start R;
  state R {
    from home ? m goto R;
  }
}
";
