//! A law of what is stored and then booted. The function does nothing: its contract is the law.

ghost use Rattle.rvc_top.specs.StoredRuns.{WhatIsStoredIsBooted};

/// What `store` writes of a file `boot` takes, byte for byte, and then does what `run` does with
/// the file in the same mode, whatever the schedule.
pub fn what_is_stored_is_booted()
    ensures { WhatIsStoredIsBooted }
{}
