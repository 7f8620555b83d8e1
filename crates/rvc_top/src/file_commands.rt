//! The commands that read the protocol file alone, and the text of each.

ghost use Rattle.std.specs.Prelude.{◌≡◌, IfOk};
ghost use Rattle.table_printer.specs.TableJson as of_json;
ghost use Rattle.table_printer.specs.TableText as of_text;

use crate::Driving;
use crate::file_command::FileCommand;
use controller_table::Table;
use drive_report::{drive, summary_text};
use home_refine::compile;
use proto_model::{Mode, Protocol};
use rv_base::{NoMemory, put_number};
use star_check::Checked;
use std::alloc::Global;
use table_printer::{table_json, table_text};

/// The laid-out text of the protocol.
#[derive(Clone, Copy)]
pub struct Print;

impl FileCommand for Print {
    ghost use Rattle.proto_model.specs.LaidOut.{laid_out};

    type Value = Protocol;

    ghost Numbers = { λ _. Unit {0} };

    ghost text = { λ _ protocol. laid_out protocol };

    fn text(&self, alloc: Global, protocol: &Protocol) -> Result<Vec<u8>, NoMemory> {
        let mut text = Vec::new(alloc);
        proto_model::print(alloc, protocol, &mut text)?;
        Ok(text)
    }
}

/// That the protocol is well-formed, and the numbers of its parts.
#[derive(Clone, Copy)]
pub struct Check;

impl FileCommand for Check {
    ghost use Rattle.rvc_top.specs.Texts.{ok_text};

    type Value = Checked;

    ghost Numbers = { λ _. Unit {0} };

    ghost text = { λ _ checked. ok_text checked.protocol };

    fn text(&self, alloc: Global, checked: &Checked) -> Result<Vec<u8>, NoMemory> {
        let mut text = b"ok ".to_vec(alloc)?;
        text.extend_from_slice(checked.name().bytes())?;
        text.extend_from_slice(b" messages ")?;
        put_number(alloc, checked.messages().len() as u64, &mut text)?;
        text.extend_from_slice(b" home ")?;
        put_number(
            alloc,
            checked.home().states.as_slice().len() as u64,
            &mut text,
        )?;
        text.extend_from_slice(b" remote ")?;
        put_number(
            alloc,
            checked.remote().states.as_slice().len() as u64,
            &mut text,
        )?;
        text.push(b'\n')?;
        Ok(text)
    }
}

/// The text of the protocol's table in this mode.
#[derive(Clone, Copy)]
pub struct TableText(pub Mode);

impl FileCommand for TableText {
    ghost use Rattle.controller_table.specs.Sound.{table_in};
    ghost use Rattle.table_printer.specs.TableText as of_text;

    type Value = Checked;

    ghost Numbers = { λ _. Unit {0} };

    ghost text = { λ command checked. of_text.table_text (table_in checked.protocol command.0) };

    fn text(&self, alloc: Global, checked: &Checked) -> Result<Vec<u8>, NoMemory> {
        let table = compile(alloc, checked, self.0)?;
        text_of(alloc, &table)
    }
}

// The text of the table.
fn text_of(alloc: Global, table: &Table) -> Result<Vec<u8>, NoMemory>
    ensures { IfOk result (λ bytes. bytes.items ≡ of_text.table_text table.now) }
{
    let mut text = Vec::new(alloc);
    table_text(alloc, table, &mut text)?;
    Ok(text)
}

/// The JSON of the protocol's table in this mode.
#[derive(Clone, Copy)]
pub struct TableJson(pub Mode);

impl FileCommand for TableJson {
    ghost use Rattle.controller_table.specs.Sound.{table_in};
    ghost use Rattle.table_printer.specs.TableJson as of_json;

    type Value = Checked;

    ghost Numbers = { λ _. Unit {0} };

    ghost text = { λ command checked. of_json.table_json (table_in checked.protocol command.0) };

    fn text(&self, alloc: Global, checked: &Checked) -> Result<Vec<u8>, NoMemory> {
        let table = compile(alloc, checked, self.0)?;
        json_of(alloc, &table)
    }
}

// The JSON of the table.
fn json_of(alloc: Global, table: &Table) -> Result<Vec<u8>, NoMemory>
    ensures { IfOk result (λ bytes. bytes.items ≡ of_json.table_json table.now) }
{
    let mut text = Vec::new(alloc);
    table_json(alloc, table, &mut text)?;
    Ok(text)
}

/// What is counted over a run of the protocol's controllers that a number chooses.
impl FileCommand for Driving {
    ghost use Rattle.rvc_top.specs.Commands.{AreDrivable, drive_text};

    type Value = Checked;

    ghost Numbers = { AreDrivable };

    ghost text = { drive_text };

    fn text(&self, alloc: Global, checked: &Checked) -> Result<Vec<u8>, NoMemory> {
        let table = compile(alloc, checked, self.mode)?;
        let summary = drive(
            alloc,
            &table,
            self.remotes,
            self.slots,
            self.turns,
            self.seed,
        )?;
        let mut text = Vec::new(alloc);
        summary_text(alloc, &summary, &mut text)?;
        Ok(text)
    }
}
