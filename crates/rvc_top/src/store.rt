//! The command that stores the two controllers of a protocol, and what it takes the file for.

ghost use Rattle.std.specs.Prelude.{◌≡◌, length, IfOk};
ghost use Rattle.proto_model.specs.Faults.{item_codes};
ghost use Rattle.rvc_top.specs.Storing.{StoresProtocol, StoresText};

use crate::checked_file::check_spelled;
use crate::file::{FileRead, FromFile, read_file};
use crate::file_command::FileCommand;
use crate::reply::Failure;
use control_store::image;
use home_refine::compile;
use proto_model::{Mode, print};
use protocol_reader::Spelled;
use rv_base::{FILE_LIMIT, NoMemory, Source};
use star_check::Checked;
use std::alloc::Global;
use std::marker::Model;

/// What the command stores of a well-formed protocol: its laid-out text, of at most 65,536 bytes,
/// and its numbered form, of which the rows are compiled.
#[derive(Debug, Drop)]
pub struct Storable {
    text: Vec<u8>,
    checked: Checked,
}

impl Model for Storable {
    ghost use Rattle.rvc_top.specs.Stores.{Stored};

    ghost Value = { Stored };

    ghost view = { λ s. record { text = s.text.items; checked = s.checked } };
}

impl FromFile for Storable {
    ghost use Rattle.rvc_top.specs.Stores.{stored_form};

    ghost form = { stored_form };

    fn from_file<P: Source>(alloc: Global, file: &mut P) -> Result<FileRead<Storable>, Failure> {
        match read_file(alloc, file)? {
            FileRead::Holds(spelled) => Ok(store_spelled(alloc, spelled)?),
            FileRead::Refused(text) => Ok(FileRead::Refused(text)),
        }
    }
}

// What the protocol that a file spells, with the lines of its items, comes to.
fn store_spelled(alloc: Global, spelled: Spelled) -> Result<FileRead<Storable>, NoMemory>
    requires { length spelled.lines ≡ length (item_codes spelled.protocol) }
    ensures { IfOk result (StoresProtocol spelled.protocol spelled.lines) }
{
    let mut text = Vec::new(alloc);
    print(alloc, &spelled.protocol, &mut text)?;
    match check_spelled(alloc, spelled)? {
        FileRead::Holds(checked) => keep_text(alloc, text, checked),
        FileRead::Refused(why) => Ok(FileRead::Refused(why)),
    }
}

// What a well-formed protocol with this laid-out text comes to.
fn keep_text(alloc: Global, text: Vec<u8>, checked: Checked) -> Result<FileRead<Storable>, NoMemory>
    ensures { IfOk result (StoresText text.items checked) }
{
    if text.len() > FILE_LIMIT {
        return Ok(FileRead::Refused(b"error file text too long\n".to_vec(alloc)?));
    }
    Ok(FileRead::Holds(Storable { text, checked }))
}

/// The image of the protocol's table in this mode.
#[derive(Clone, Copy, Debug)]
pub struct StoreImage(pub Mode);

impl FileCommand for StoreImage {
    ghost use Rattle.rvc_top.specs.Stores.{store_text};

    type Value = Storable;

    ghost Numbers = { λ _. Unit {0} };

    ghost text = { λ command stored. store_text command.0 stored };

    fn text(&self, alloc: Global, stored: &Storable) -> Result<Vec<u8>, NoMemory> {
        let mut text = Vec::new(alloc);
        image(
            &stored.text,
            &compile(alloc, &stored.checked, self.0)?,
            &mut text,
        )?;
        Ok(text)
    }
}
