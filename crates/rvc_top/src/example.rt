//! The example protocols.

ghost use Rattle.std.specs.Prelude.{◌≡◌};
ghost use Rattle.rvc_top.specs.Examples as examples;

/// Which example protocol.
#[derive(Clone, Copy, Debug, PartialEq, Eq)]
pub enum Example {
    /// A cache line has one owner at a time, which gets it with the right to write.
    Migratory,
    /// A cache line has many readers or one writer.
    Invalidate,
}

const MIGRATORY: &[u8] = b"\
protocol migratory;
message req up;
message gr down int 2;
message lr up int 2;
message inv down;
message id up int 2;
home {
  var o node = none;
  var j node = none;
  var d int 2 = 0;
  start F;
  state F {
    from any j ? req goto G;
  }
  state G {
    to j ! gr(d) do o = j goto E;
  }
  state E {
    from any j ? req goto I1;
    from o ? lr(d) do o = none goto F;
  }
  state I1 {
    to o ! inv goto I2;
    from o ? lr(d) goto G;
  }
  state I2 {
    from o ? id(d) goto G;
  }
}
remote {
  var d int 2 = 0;
  start I;
  state I {
    tau goto R;
  }
  state R {
    to home ! req goto W;
  }
  state W {
    from home ? gr(d) goto V;
  }
  state V {
    tau do d = d + 1 goto V;
    tau goto L;
    from home ? inv goto D;
  }
  state L {
    to home ! lr(d) goto I;
  }
  state D {
    to home ! id(d) goto I;
  }
}
";

const INVALIDATE: &[u8] = b"\
protocol invalidate;
message rs up;
message rx up;
message gs down int 2;
message gx down int 2;
message ev up;
message wb up int 2;
message inv down;
message ia up;
message fetch down;
message fd up int 2;
home {
  var j node = none;
  var o node = none;
  var v node = none;
  var s set = empty;
  var d int 2 = 0;
  start U;
  state U {
    from any j ? rs goto GS;
    from any j ? rx goto INV;
    from any v in s ? ev do s = s - v goto U;
  }
  state GS {
    to j ! gs(d) do s = s + j goto U;
  }
  state INV {
    to any v in s ! inv goto IA;
    from any v in s ? ev do s = s - v goto INV;
    tau when s eq empty goto GX;
  }
  state IA {
    from v ? ia do s = s - v goto INV;
  }
  state GX {
    to j ! gx(d) do o = j goto X;
  }
  state X {
    from any j ? rs goto FS;
    from any j ? rx goto FX;
    from o ? wb(d) do o = none goto U;
  }
  state FS {
    to o ! fetch goto WS;
    from o ? wb(d) do o = none goto GS;
  }
  state WS {
    from o ? fd(d) do o = none goto GS;
  }
  state FX {
    to o ! fetch goto WX;
    from o ? wb(d) do o = none goto GX;
  }
  state WX {
    from o ? fd(d) goto GX;
  }
}
remote {
  var d int 2 = 0;
  start I;
  state I {
    tau goto RS;
    tau goto RX;
  }
  state RS {
    to home ! rs goto WS;
  }
  state WS {
    from home ? gs(d) goto S;
  }
  state RX {
    to home ! rx goto WX;
  }
  state WX {
    from home ? gx(d) goto M;
  }
  state S {
    tau goto E;
    from home ? inv goto A;
  }
  state E {
    to home ! ev goto I;
  }
  state A {
    to home ! ia goto I;
  }
  state M {
    tau do d = d + 1 goto M;
    tau goto B;
    from home ? fetch goto F;
  }
  state B {
    to home ! wb(d) goto I;
  }
  state F {
    to home ! fd(d) goto I;
  }
}
";

/// The text of an example protocol, in its laid-out form. Takes no memory.
pub fn example_text(which: Example) -> &'static [u8]
    ensures { result.now ≡ examples.example_text which }
{
    match which {
        Example::Migratory => MIGRATORY,
        Example::Invalidate => INVALIDATE,
    }
}
