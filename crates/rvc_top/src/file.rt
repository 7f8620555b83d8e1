//! The protocol file, read to its end and taken for the value that a command wants of it, or
//! refused.

ghost use Rattle.std.specs.Prelude.{◌≡◌, ◌+◌, IfOk, IfSome};
ghost use Rattle.rv_base.specs.Outside.{RisesWhere, MayRise};
ghost use Rattle.rv_base.specs.Whole.{TakesAtMost, file_limit};
ghost use Rattle.rvc_top.specs.Texts.{too_long_text, fault_text};
ghost use Rattle.rvc_top.specs.Forms.{FileForm};
ghost use Rattle.rvc_top.specs.FileRead.{IsFile, IsRead, HasLines, ReadToEnd};
ghost use Rattle.rvc_top.specs.FileRead.{reading_failed, reading_wants};

use crate::reply::Failure;
use proto_model::Protocol;
use protocol_reader::{ReadError, Spelled, read};
use rv_base::{FILE_LIMIT, Gathered, NoMemory, Source, read_whole};
use std::alloc::Global;

// The code of a file that spells no protocol.
const SYNTAX: u8 = 1;

/// What reading the protocol file came to.
#[derive(Drop)]
pub enum FileRead<V> {
    /// It holds this value.
    Holds(V),
    /// It is refused, and this text says why.
    Refused(Vec<u8>),
}

/// A value for which a command takes the protocol file.
pub trait FromFile: Drop {
    /// The form in which a file holds such a value.
    ghost form: { FileForm Self };

    /// Reads the protocol file to its end, or to one byte past the limit of its form, and takes it
    /// for the value that it holds.
    fn from_file<P: Source>(alloc: Global, file: &mut P) -> Result<FileRead<Self>, Failure>
        ensures bytes { IfSome (P.left file.old) (λ f. IfOk result (IsFile form f)) }
        ensures end { IfOk result (ReadToEnd (P.left file.new) (P.ended file.new)) }
        ensures taken { TakesAtMost (form.limit + 1) (P.left file.old) (P.left file.new) }
        ensures count { RisesWhere (reading_failed result) (P.faults file.old) (P.faults file.new) }
        ensures wants { MayRise (reading_wants result) (P.wants file.old) (P.wants file.new) };
}

impl FromFile for Protocol {
    ghost use Rattle.rvc_top.specs.Forms.{spelled_form};

    ghost form = { spelled_form };

    fn from_file<P: Source>(alloc: Global, file: &mut P) -> Result<FileRead<Protocol>, Failure> {
        match read_file(alloc, file)? {
            FileRead::Holds(spelled) => Ok(FileRead::Holds(spelled.protocol)),
            FileRead::Refused(text) => Ok(FileRead::Refused(text)),
        }
    }
}

/// Reads the protocol file to its end, or to one byte past the limit of a file, as the protocol
/// that it spells.
pub fn read_file<P: Source>(alloc: Global, file: &mut P) -> Result<FileRead<Spelled>, Failure>
    ensures bytes { IfSome (P.left file.old) (λ f. IfOk result (IsRead f)) }
    ensures lines { IfOk result HasLines }
    ensures end { IfOk result (ReadToEnd (P.left file.new) (P.ended file.new)) }
    ensures taken { TakesAtMost (file_limit + 1) (P.left file.old) (P.left file.new) }
    ensures count { RisesWhere (reading_failed result) (P.faults file.old) (P.faults file.new) }
    ensures wants { MayRise (reading_wants result) (P.wants file.old) (P.wants file.new) }
{
    match read_whole(alloc, file, FILE_LIMIT) {
        Gathered::Whole(bytes) => Ok(file_of(alloc, &bytes)?),
        Gathered::TooLong => Ok(FileRead::Refused(too_long(alloc)?)),
        Gathered::Failed => Err(Failure::Read),
        Gathered::NoMemory => Err(Failure::NoMemory),
    }
}

// What the bytes of the file are.
fn file_of(alloc: Global, bytes: &[u8]) -> Result<FileRead<Spelled>, NoMemory>
    ensures reads { IfOk result (IsRead bytes.now) }
    ensures lines { IfOk result HasLines }
{
    match read(alloc, bytes) {
        Ok(spelled) => Ok(FileRead::Holds(spelled)),
        Err(ReadError::Syntax { line }) => Ok(FileRead::Refused(fault_on(alloc, line, SYNTAX)?)),
        Err(ReadError::TooLong) => Ok(FileRead::Refused(too_long(alloc)?)),
        Err(ReadError::NoMemory) => Err(NoMemory),
    }
}

/// The text for a file with a fault of this code on this line.
pub fn fault_on(alloc: Global, line: u32, code: u8) -> Result<Vec<u8>, NoMemory>
    ensures { IfOk result (λ text. text.items ≡ fault_text line code) }
{
    let text = format!(in alloc; "error file line {line} code {code}\n")?;
    Ok(text.into_bytes())
}

/// The text for a file with more bytes than a file may have.
pub fn too_long(alloc: Global) -> Result<Vec<u8>, NoMemory>
    ensures { IfOk result (λ text. text.items ≡ too_long_text) }
{
    Ok(b"error file too long\n".to_vec(alloc)?)
}
