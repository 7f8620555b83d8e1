//! From events to runs of commands. These functions do nothing: their contracts are the laws.

ghost use Rattle.rvc_top.specs.KeptRuns.{NoRunBreaksAClaim, NoBootBreaksAClaim, NoDriveStops};

/// What no event can break, no run can: where the file spells a checked protocol, and no
/// configuration that events reach breaks a claim of it, neither `run` nor `boot` ends at a broken
/// claim; and where some event takes place in each such configuration, `drive` never writes
/// `stopped yes`.
pub fn what_events_keep_runs_keep()
    ensures run { NoRunBreaksAClaim }
    ensures boot { NoBootBreaksAClaim }
    ensures drive { NoDriveStops }
{}
