//! Laws of the audit of traces. These functions do nothing: their contracts are the laws.

ghost use Rattle.rvc_top.specs.AuditedRuns.{EveryTraceIsAccepted, WhatIsAcceptedIsARun};

/// Each trace that `run` writes where it is done is accepted by `audit`, for the same file and as
/// many remotes.
pub fn every_trace_is_accepted()
    ensures { EveryTraceIsAccepted }
{}

/// What `audit` accepts prints a run of the rendezvous meaning of the file's protocol.
pub fn what_is_accepted_is_a_run()
    ensures { WhatIsAcceptedIsARun }
{}
