//! A trace that is accepted, line by line.

/// The 21 lines of the trace of one remote that gets the line, in mode lean, without their LFs.
pub const LINES: [&[u8]; 21] = [
    b"1 remote 0 tau 0: tau 0 0",
    b"  remote 0 R d=0 slot[] up[] down[]",
    b"2 remote 0 send: stutter",
    b"  remote 0 R* d=0 slot[] up[?req] down[]",
    b"3 up 0: stutter",
    b"  home F o=none j=none d=0 held[0:req] owed[]",
    b"  remote 0 R* d=0 slot[] up[] down[]",
    b"4 home take 0: up 0 0 0 req",
    b"  home G o=none j=#0 d=0 held[] owed[0:gr]",
    b"  remote 0 R* d=0 slot[] up[] down[]",
    b"5 home send 0 0: down 0 0 0 gr(0)",
    b"  home E o=#0 j=#0 d=0 held[] owed[]",
    b"  remote 0 R* d=0 slot[] up[] down[=gr(0)]",
    b"6 down 0: stutter",
    b"  remote 0 V d=0 slot[] up[] down[]",
    b"end",
    b"  home E o=#0 j=#0 d=0 held[] owed[]",
    b"  remote 0 V d=0 slot[] up[] down[]",
    b"abstract",
    b"  home E o=#0 j=#0 d=0",
    b"  remote 0 V d=0",
];

/// The whole trace.
pub const TRACE: &[u8] = b"\
1 remote 0 tau 0: tau 0 0
  remote 0 R d=0 slot[] up[] down[]
2 remote 0 send: stutter
  remote 0 R* d=0 slot[] up[?req] down[]
3 up 0: stutter
  home F o=none j=none d=0 held[0:req] owed[]
  remote 0 R* d=0 slot[] up[] down[]
4 home take 0: up 0 0 0 req
  home G o=none j=#0 d=0 held[] owed[0:gr]
  remote 0 R* d=0 slot[] up[] down[]
5 home send 0 0: down 0 0 0 gr(0)
  home E o=#0 j=#0 d=0 held[] owed[]
  remote 0 R* d=0 slot[] up[] down[=gr(0)]
6 down 0: stutter
  remote 0 V d=0 slot[] up[] down[]
end
  home E o=#0 j=#0 d=0 held[] owed[]
  remote 0 V d=0 slot[] up[] down[]
abstract
  home E o=#0 j=#0 d=0
  remote 0 V d=0
";
