//! Laws of the verdict.

ghost use Rattle.rvc_top.specs.Verdict.{EveryRunIsDecided, EveryVerdictIsOne};

/// Each run has a verdict, whatever its words, its file and its schedule.
pub fn every_run_is_decided()
    ensures { EveryRunIsDecided }
{}

/// No run has two verdicts: the words, the file and the schedule fix both the status and the text.
pub fn every_verdict_is_one()
    ensures { EveryVerdictIsOne }
{}
