//! A file that is an image, taken for the protocol and the mode of which it is one, or refused.

ghost use Rattle.std.specs.Prelude.{◌≡◌, ◌≤◌, length, IfOk};
ghost use Rattle.rv_base.specs.Whole.{file_limit};
ghost use Rattle.proto_model.specs.Spelled.{Spells};
ghost use Rattle.control_store.specs.Head.{Begins, text_behind};
ghost use Rattle.rvc_top.specs.FileRead.{IsFile};
ghost use Rattle.rvc_top.specs.Stores.{image_form, image_limit, no_row_text};
ghost use Rattle.rvc_top.specs.Storing.{IsTextOf, TellsIf};
ghost use Rattle.std.specs.Option.{option_map};
ghost use Rattle.controller_table.specs.Sound.{table_in};
ghost use Rattle.control_store.specs.Compared.{Compares};
ghost use Rattle.std.specs.Prelude.{Some};

use crate::file::{FileRead, FromFile, too_long};
use crate::reply::Failure;
use control_store::{Compared, Head, compare, head, text_in};
use home_refine::compile;
use proto_model::{Mode, Protocol, print};
use protocol_reader::{ReadError, read};
use rv_base::{Gathered, NoMemory, Source, read_whole};
use star_check::{CheckError, Checked, check};
use std::alloc::Global;

// The most bytes that an image may have.
const IMAGE_LIMIT: usize = 262_144;

/// What an image holds: a well-formed protocol, and the mode in which it was compiled.
#[derive(Drop)]
pub struct Booted {
    pub checked: Checked,
    pub mode: Mode,
}

impl FromFile for Booted {
    ghost use Rattle.rvc_top.specs.Stores.{image_form};

    ghost form = { image_form };

    fn from_file<P: Source>(alloc: Global, file: &mut P) -> Result<FileRead<Booted>, Failure> {
        match read_whole(alloc, file, IMAGE_LIMIT) {
            Gathered::Whole(bytes) => Ok(image_in(alloc, &bytes)?),
            Gathered::TooLong => Ok(FileRead::Refused(too_long(alloc)?)),
            Gathered::Failed => Err(Failure::Read),
            Gathered::NoMemory => Err(Failure::NoMemory),
        }
    }
}

// What these bytes hold as an image.
fn image_in(alloc: Global, bytes: &[u8]) -> Result<FileRead<Booted>, NoMemory>
    requires { length bytes.now ≤ image_limit }
    ensures { IfOk result (IsFile image_form bytes.now) }
{
    match head(bytes) {
        Some(head) => behind(alloc, bytes, &head),
        None => Ok(FileRead::Refused(b"error image head\n".to_vec(alloc)?)),
    }
}

// What they hold where they begin with this head.
fn behind(alloc: Global, bytes: &[u8], head: &Head) -> Result<FileRead<Booted>, NoMemory>
    requires short { length bytes.now ≤ image_limit }
    requires begins { Begins bytes.now head.now }
    ensures { IfOk result (IsFile image_form bytes.now) }
{
    match protocol_in(alloc, text_in(head, bytes))? {
        Some(checked) => rows_behind(alloc, bytes, head, checked),
        None => Ok(FileRead::Refused(b"error image text\n".to_vec(alloc)?)),
    }
}

// What they hold where the text behind the head is that of this protocol.
fn rows_behind(
    alloc: Global,
    bytes: &[u8],
    head: &Head,
    checked: Checked,
) -> Result<FileRead<Booted>, NoMemory>
    requires short { length bytes.now ≤ image_limit }
    requires begins { Begins bytes.now head.now }
    requires text { IsTextOf (text_behind head.now bytes.now) (Some checked) }
    ensures { IfOk result (IsFile image_form bytes.now) }
{
    let found = rows_found(alloc, bytes, head, &checked)?;
    match text_for(alloc, found)? {
        None => Ok(FileRead::Holds(Booted {
            checked,
            mode: head.mode,
        })),
        Some(why) => Ok(FileRead::Refused(why)),
    }
}

// How their rows differ from those of this protocol's table in the head's mode.
fn rows_found(
    alloc: Global,
    bytes: &[u8],
    head: &Head,
    checked: &Checked,
) -> Result<Compared, NoMemory>
    requires { Begins bytes.now head.now }
    ensures { IfOk result (Compares head.now bytes.now
        (table_in checked.now.protocol head.now.mode)) }
{
    let table = compile(alloc, checked, head.mode)?;
    Ok(compare(head, bytes, &table))
}

// The text for rows that differ so, or none where they don't.
fn text_for(alloc: Global, found: Compared) -> Result<Option<Vec<u8>>, NoMemory>
    ensures { IfOk result (λ why. TellsIf found (option_map (λ text. text.items) why)) }
{
    match found {
        Compared::Same => Ok(None),
        Compared::Counts => Ok(Some(b"error image rows\n".to_vec(alloc)?)),
        Compared::Row(place) => Ok(Some(other_row(alloc, place)?)),
    }
}

// The text for an image in which this row is the first that isn't the table's.
fn other_row(alloc: Global, place: u32) -> Result<Vec<u8>, NoMemory>
    ensures { IfOk result (λ text. text.items ≡ no_row_text place) }
{
    let text = format!(in alloc; "error image row {place}\n")?;
    Ok(text.into_bytes())
}

// The well-formed protocol whose laid-out text these bytes are, if there is one.
fn protocol_in(alloc: Global, text: &[u8]) -> Result<Option<Checked>, NoMemory>
    requires { length text.now ≤ file_limit }
    ensures { IfOk result (IsTextOf text.now) }
{
    match read(alloc, text) {
        Ok(spelled) => check_text(alloc, text, spelled.protocol),
        Err(ReadError::TooLong) => Ok(None),
        Err(ReadError::Syntax { line: _ }) => Ok(None),
        Err(ReadError::NoMemory) => Err(NoMemory),
    }
}

// This protocol in numbered form, where it is well-formed and the bytes, which spell it, are its
// laid-out text.
fn check_text(alloc: Global, text: &[u8], protocol: Protocol) -> Result<Option<Checked>, NoMemory>
    requires short { length text.now ≤ file_limit }
    requires spells { Spells text.now protocol }
    ensures { IfOk result (IsTextOf text.now) }
{
    let mut laid_out = Vec::new(alloc);
    print(alloc, &protocol, &mut laid_out)?;
    if laid_out.as_slice() != text {
        return Ok(None);
    }
    match check(alloc, protocol) {
        Ok(checked) => Ok(Some(checked)),
        Err(CheckError::Refused(_)) => Ok(None),
        Err(CheckError::NoMemory) => Err(NoMemory),
    }
}
