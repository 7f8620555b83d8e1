//! The call over sources and a sink in memory that never fail.

ghost use Rattle.std.specs.Prelude.{◌≢◌, Some};
ghost use Rattle.rvc_top.specs.Verdict.{Verdict};
ghost use Rattle.rvc_top.specs.Endings.{Written};

use crate::{Status, rvc};
use rv_base::{SteadySink, SteadySource};
use std::alloc::Global;

/// `rvc` over sources and a sink that never fail, whatever they hold and however few bytes move at
/// once: it ends as the verdict says and writes the verdict's text, but for want of memory.
pub fn rvc_steady(
    alloc: Global,
    words: &[String],
    file: &mut SteadySource,
    schedule: &mut SteadySource,
    out: &mut SteadySink,
) -> Status
    ensures read_fault { result ≢ Status.ReadFault }
    ensures write_fault { result ≢ Status.WriteFault }
    ensures whole { result ≢ Status.NoMemory
        → Written (Verdict words.now file.old.left schedule.old.left)
        out.old.taken (Some out.new.taken) result }
{
    rvc(alloc, words, file, schedule, out)
}
