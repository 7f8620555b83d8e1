//! A plan is performed: the home, what it holds and the remotes change as it says.

ghost use Rattle.std.specs.Prelude.{◌≡◌, length};
ghost use Rattle.async_machine.specs.Planned as plans;
ghost use Rattle.async_machine.specs.Planned.{IsDebtOf, HasSlot, FitsIn};

use crate::planned::{Change, Debt, HeldChange, HomeChange};
use async_shape::{HomeState, RemoteState};
use rv_base::Items;
use slot_reserve::Slots;

fn change_debt(home: &mut HomeState, debt: Option<Debt>)
    requires { IsDebtOf (length home.old.owed) debt }
    ensures { home.new
        ≡ record home.old { owed = plans.owed_after debt home.old.owed } }
{
    if let Some(debt) = debt {
        home.owed.set(debt.to as usize, debt.message);
    }
}

fn change_home(home: &mut HomeState, change: &HomeChange)
    requires { IsDebtOf (length home.old.owed) change.now.debt }
    ensures { home.new ≡ plans.home_after change.now home.old }
{
    change_debt(home, change.debt);
    home.place = change.place;
    home.vars = change.vars;
}

fn change_held(slots: &mut Slots, change: HeldChange)
    requires { HasSlot slots.old.size slots.old.held change }
    ensures { slots.new ≡ record slots.old { held = plans.held_after change slots.old.held } }
{
    match change {
        HeldChange::Stays => {}
        HeldChange::Leaves(j) => {
            slots.take(j);
        }
        HeldChange::Joins(request) => slots.hold(request),
        HeldChange::MakesRoom(request) => {
            slots.displace(request);
        }
    }
}

/// The home, what it holds and the remotes, of which there are as many as it may have debts to,
/// change so.
pub(crate) fn make(
    home: &mut HomeState,
    slots: &mut Slots,
    remotes: &mut Items<RemoteState>,
    change: &Change,
)
    requires debts { length home.old.owed ≡ length remotes.old }
    requires fits { FitsIn slots.old.size slots.old.held (length remotes.old) change.now }
    ensures home { home.new ≡ plans.home_in change.now home.old }
    ensures held { slots.new
        ≡ record slots.old { held = plans.held_in change.now slots.old.held } }
    ensures remotes { remotes.new ≡ plans.remotes_in change.now remotes.old }
{
    match change {
        Change::Home(change, held) => {
            change_home(home, change);
            change_held(slots, *held);
        }
        Change::Remote(j, remote) => remotes.set(*j as usize, *remote),
    }
}
