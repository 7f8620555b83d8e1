//! A text to be written, and how a run ends with it.

ghost use Rattle.std.specs.Prelude.{◌≡◌, OnErr};
ghost use Rattle.std.specs.Result.{ForOk};
ghost use Rattle.rv_base.specs.Outside.{RisesWhere, MayRise};
ghost use Rattle.rvc_top.specs.Endings.{IsDecided, kind_of, run_write_failed, run_wants};
ghost use Rattle.rvc_top.specs.Reply.{Delivers, Finishes};
ghost use Rattle.rvc_top.specs.declared.reply.Failure.TheVariants as failure;

use crate::Status;
use rv_base::{NoMemory, Sink, Wrote, write_whole};

/// A text to be written, and how the run ends once it is.
#[derive(Drop)]
pub struct Reply {
    pub status: Status,
    pub text: Vec<u8>,
}

/// Why there is no reply.
#[derive(Clone, Copy, Drop)]
pub enum Failure {
    /// A read of the file failed, or of a trace that is audited.
    Read,
    /// There is no memory, or the file or the trace had none for a read.
    NoMemory,
}

impl From<NoMemory> for Failure {
    ghost from_gives = { λ _ e. e ≡ failure.NoMemory };

    fn from(_: NoMemory) -> Failure {
        Failure::NoMemory
    }
}

/// Writes a text, and answers `status`, that of a verdict; or writes a front of the text and not
/// the whole, and answers that the sink failed or that there was no memory.
pub fn deliver<O: Sink>(out: &mut O, status: Status, text: &[u8]) -> Status
    requires { IsDecided status }
    ensures bytes { Delivers (O.taken out.old) (O.taken out.new) text.now status result }
    ensures counts { RisesWhere (run_write_failed (kind_of result))
        (O.faults out.old) (O.faults out.new) }
    ensures wants { MayRise (run_wants (kind_of result)) (O.wants out.old) (O.wants out.new) }
{
    match write_whole(out, text) {
        Wrote::Whole => status,
        Wrote::Failed => Status::WriteFault,
        Wrote::NoMemory => Status::NoMemory,
    }
}

/// Writes the reply, and answers how the run ends. Where there is none, the sink is as it was, and
/// the run ends with a read fault or for want of memory.
pub fn finish<O: Sink>(out: &mut O, reply: Result<Reply, Failure>) -> Status
    requires { ForOk reply (λ r. IsDecided r.status) }
    ensures bytes { Finishes (O.taken out.old) (O.taken out.new) reply result }
    ensures unwritten { OnErr reply (out.new ≡ out.old) }
    ensures counts { RisesWhere (run_write_failed (kind_of result))
        (O.faults out.old) (O.faults out.new) }
    ensures wants { MayRise (run_wants (kind_of result)) (O.wants out.old) (O.wants out.new) }
{
    match reply {
        Ok(reply) => deliver(out, reply.status, &reply.text),
        Err(Failure::Read) => Status::ReadFault,
        Err(Failure::NoMemory) => Status::NoMemory,
    }
}
