//! The protocol file, taken for the well-formed protocol that it spells, or refused.

ghost use Rattle.std.specs.Prelude.{◌≡◌, length, IfOk};
ghost use Rattle.proto_model.specs.Faults.{item_codes};
ghost use Rattle.rvc_top.specs.FileRead.{IsJudged};

use crate::file::{FileRead, FromFile, fault_on, read_file};
use crate::reply::Failure;
use protocol_reader::Spelled;
use rv_base::{NoMemory, Source};
use star_check::{CheckError, Checked, check};
use std::alloc::Global;

impl FromFile for Checked {
    ghost use Rattle.rvc_top.specs.Forms.{checked_form};

    ghost form = { checked_form };

    fn from_file<P: Source>(alloc: Global, file: &mut P) -> Result<FileRead<Checked>, Failure> {
        match read_file(alloc, file)? {
            FileRead::Holds(spelled) => Ok(check_spelled(alloc, spelled)?),
            FileRead::Refused(text) => Ok(FileRead::Refused(text)),
        }
    }
}

/// What the protocol that a file spells, with the lines of its items, comes to.
pub fn check_spelled(alloc: Global, spelled: Spelled) -> Result<FileRead<Checked>, NoMemory>
    requires { length spelled.lines ≡ length (item_codes spelled.protocol) }
    ensures { IfOk result (IsJudged spelled.protocol spelled.lines) }
{
    let Spelled { protocol, lines } = spelled;
    match check(alloc, protocol) {
        Ok(checked) => Ok(FileRead::Holds(checked)),
        Err(CheckError::Refused(fault)) => {
            let line = lines.as_slice()[fault.item as usize];
            Ok(FileRead::Refused(fault_on(alloc, line, fault.code)?))
        }
        Err(CheckError::NoMemory) => Err(NoMemory),
    }
}
