//! A run that a number chooses, and what is counted over it.

ghost use Rattle.std.specs.Prelude.{◌≡◌, ◌≤◌, true, IfOk};
ghost use Rattle.controller_table.specs.Sound.{protocol_of};
ghost use Rattle.async_shape.specs.Config.{start};
ghost use Rattle.async_shape.specs.Run.{config_at_end};
ghost use Rattle.async_machine.specs.Standing.{setting_of, setting};
ghost use Rattle.abstraction_map.specs.Abstraction.{abstraction};
ghost use Rattle.drive_report.specs.Counted.{counted_config};
ghost use Rattle.drive_report.specs.Drive as drive;
ghost use Rattle.drive_report.specs.Ready.{ready_list, IsStill};
ghost use Rattle.drive_report.specs.Rows.{ready_rows};
ghost use Rattle.drive_report.specs.Turns as turns;

use crate::counted::CountedLinks;
use crate::laws::stopped_is_still;
use crate::rows::{self, Row, chosen, refresh};
use crate::summary::Summary;
use crate::turns::{number_after, take};
use async_machine::Machine;
use controller_table::Table;
use rv_base::NoMemory;
use std::alloc::Global;

// Makes one turn by this number: takes and counts the step that it chooses among those that are
// enabled, and answers whether there was one.
fn turn(machine: &mut Machine<CountedLinks>, all: &mut [Row], x: u64, so_far: &mut Summary) -> bool
    requires rows { all.old ≡ ready_rows (setting machine.old) (counted_config machine.old) }
    requires packets { machine.old.links.counts ≡ turns.packets_counted so_far.old }
    requires few { turns.IsAtMost 100000 so_far.old }
    ensures turn { turns.IsTurn (setting machine.old)
        (drive.step_chosen x (ready_list (setting machine.old) (counted_config machine.old)))
        result (counted_config machine.old) so_far.old (counted_config machine.new) so_far.new }
    ensures kept { (machine.new.table ≡ machine.old.table)
        × (machine.new.slots ≡ machine.old.slots) }
    ensures packets { machine.new.links.counts ≡ turns.packets_counted so_far.new }
    ensures rows { all.new ≡ ready_rows (setting machine.new) (counted_config machine.new) }
{
    machine.shaped();
    let Some(step) = chosen(machine, x, all) else {
        return false;
    };
    *so_far = take(machine, step, *so_far);
    refresh(machine, step, all);
    true
}

// Makes up to so many turns, and answers what is counted over them.
fn turns(machine: &mut Machine<CountedLinks>, all: &mut [Row], count: u32, seed: u64) -> Summary
    requires rows { all.old ≡ ready_rows (setting machine.old) (counted_config machine.old) }
    requires packets { machine.old.links.counts
        ≡ turns.packets_counted turns.nothing_counted }
    requires few { count ≤ 100000 }
    ensures { result ≡ turns.counted_to_end (setting machine.old)
        turns.nothing_counted (counted_config machine.old)
        (drive.drive_from (setting machine.old) count (counted_config machine.old) seed) }
{
    let mut summary = Summary::nothing();
    let mut x = seed;
    for done in 0..count {
        x = number_after(x);
        if !turn(machine, all, x, &mut summary) {
            return Summary {
                stopped: true,
                ..summary
            };
        }
    }
    summary
}

/// The summary of a run of up to `count` turns from the start, over n remotes and k slots. In each
/// turn the number before, first the seed, gives the next one, and this one chooses a step among
/// those that are enabled. The run ends early only where none is, and then no event takes place
/// either in what the last configuration stands for. All memory is taken before the first turn.
pub fn drive(
    alloc: Global,
    table: &Table,
    n: u8,
    k: u8,
    count: u32,
    seed: u64,
) -> Result<Summary, NoMemory>
    requires remotes { (1 ≤ n) × (n ≤ 64) }
    requires slots { (2 ≤ k) × (k ≤ 64) }
    requires turns { count ≤ 100000 }
    ensures summary { IfOk result (λ s. s ≡ drive.summary (setting_of table.now k) n count
        seed) }
    ensures still { IfOk result (λ s. s.stopped ≡ true → IsStill (protocol_of table.now)
        (abstraction (protocol_of table.now) (config_at_end (setting_of table.now k)
        (start (protocol_of table.now) n)
        (drive.drive_run (setting_of table.now k) n count seed).steps))) }
{
    stopped_is_still();
    let _ = table.home();
    let links = CountedLinks::new(alloc, n)?;
    let mut machine = Machine::new(alloc, table, links, k)?;
    let mut all = rows::ready_rows(alloc, &machine)?;
    Ok(turns(&mut machine, all.as_mut_slice(), count, seed))
}
