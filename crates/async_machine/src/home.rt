//! The plans of the steps at the home: `home_tau`, `home_take`, `home_send`, `home_drop` and `up`,
//! each by the definition of the same name. The other functions find a part of one.

ghost use Rattle.std.specs.Prelude.{◌≡◌, ◌<◌, ◌&&◌, not, if◌then◌else◌, ℕ, List, length};
ghost use Rattle.std.specs.Prelude.{IsTrue, IfSome, Some, None};
ghost use Rattle.std.specs.Option.{option_map, option_map_or};
ghost use Rattle.proto_model.specs.Guards.{guards_of as spec_guards_of};
ghost use Rattle.proto_model.specs.declared.numbered.Rule.{Rule as ARule};
ghost use Rattle.controller_table.specs.Sound.{protocol_of};
ghost use Rattle.controller_table.specs.declared.rows.GuardId.{GuardId as AGuardId};
ghost use Rattle.slot_reserve.specs.Requests.{first_of, without_first, last_of};
ghost use Rattle.ordered_links.specs.Link.{Down};
ghost use Rattle.async_shape.specs.Config as config;
ghost use Rattle.async_shape.specs.HomeSteps as steps;
ghost use Rattle.async_shape.specs.Outcome as outcome;
ghost use Rattle.async_shape.specs.Requests as requests;
ghost use Rattle.async_machine.specs.Moves.{going, put_said};
ghost use Rattle.async_machine.specs.Planned as plans;
ghost use Rattle.async_machine.specs.Planned.{HomePlans, Says, FitsIn, HasSlot};
ghost use Rattle.async_machine.specs.Standing.{setting_of};

use crate::choosing::{
    completes, displaces, first_held, is_target_of, is_waiting, may_drop, some_completes,
    taking_guard,
};
use crate::controls::{given, home_body, home_guard, reply_of};
use crate::parts::{home_after, home_after_ack, home_after_reply};
use crate::planned::{Change, Debt, HeldChange, HomeChange, Planned};
use crate::sending::Sends;
use async_shape::{HomePlace, HomeState, Waiting};
use controller_table::{GuardId, Table};
use ordered_links::Packet;
use proto_model::{Part, Rule, Value, guard_open, guards_of, is_open_tau};
use slot_reserve::{Held, Slots};

// The home stays where it is.
fn staying(home: &HomeState) -> HomeChange
    ensures { result ≡ plans.staying home.now }
{
    HomeChange {
        place: home.place,
        vars: home.vars,
        debt: None,
    }
}

// The home stands idle where the part stands.
fn standing_at(part: Part) -> HomeChange
    ensures { result ≡ plans.standing_at part }
{
    HomeChange {
        place: HomePlace::Idle(part.state),
        vars: part.vars,
        debt: None,
    }
}

/// The message that the home owes to remote j.
pub(crate) fn owed_to(home: &HomeState, j: u8) -> Option<u8>
    ensures { result ≡ config.owed_to home.now j }
{
    match home.owed.as_slice().get(j as usize) {
        Some(debt) => *debt,
        None => None,
    }
}

/// The home takes its local step.
#[tactic(auto, unfolding(async_shape::specs::HomeSteps::home_tau))]
pub(crate) fn home_tau(table: &Table, home: &HomeState, slots: &Slots, g: u32) -> Option<Planned>
    ensures value { HomePlans home.now slots.now.held result
        (steps.home_tau (setting_of table.now slots.now.size) home.now slots.now.held g) }
    ensures says { IfSome result (Says (Some g) None) }
    ensures fits { (k n : ℕ) → IfSome result (λ plan. FitsIn k slots.now.held n plan.change) }
{
    let HomePlace::Idle(state) = home.place else {
        return None;
    };
    let guard = home_guard(table, state, g as usize)?;
    if !is_open_tau(guard.0, &home.vars) {
        return None;
    }
    let part = home_after(table, &home.vars, guard, 0, Value::Unit);
    Some(Planned {
        change: Change::Home(standing_at(part), HeldChange::Stays),
        sends: Sends::Nothing,
        displaced: None,
        guard: Some(g as u8),
        message: None,
    })
}

// An ack of the request of j; or where it has a reply the home, which stands at this part, owes it.
fn answer(part: Part, j: u8, reply: Option<u8>) -> (HomeChange, Sends)
    ensures value { (held : List Held) (home : HomeState)
        → steps.request_taken held j (outcome.home_at home part) reply
        ≡ outcome.at_home (plans.home_after result.0 home) (without_first j held)
        (put_said result.1) }
    ensures debt { (n : ℕ) → j < n → plans.IsDebtOf n result.0.debt }
{
    let debt = match reply {
        None => return (standing_at(part), Sends::Down(j, Packet::Ack)),
        Some(p) => Debt {
            to: j,
            message: Some(p),
        },
    };
    let change = HomeChange {
        place: HomePlace::Idle(part.state),
        vars: part.vars,
        debt: Some(debt),
    };
    (change, Sends::Nothing)
}

/// The home takes the request of j, among n remotes.
#[tactic(auto, unfolding(async_shape::specs::HomeSteps::home_take))]
pub(crate) fn home_take(
    table: &Table,
    n: u8,
    home: &HomeState,
    slots: &Slots,
    j: u8,
) -> Option<Planned>
    requires { j < n }
    ensures value { HomePlans home.now slots.now.held result
        (steps.home_take (setting_of table.now slots.now.size) n home.now slots.now.held j) }
    ensures says { IfSome result (Says
        (option_map (λ what. what.guard.number)
        (requests.taking n (protocol_of table.now).home home.now slots.now.held j))
        (option_map plans.held_message (first_of j slots.now.held))) }
    ensures fits { (k : ℕ) → IfSome result (λ plan. FitsIn k slots.now.held n plan.change) }
{
    let HomePlace::Idle(_) = home.place else {
        return None;
    };
    let request = *first_held(slots.held(), j)?;
    let (number, guard) = taking_guard(table, n, home, &request)?;
    let part = home_after(table, &home.vars, guard, j, request.value);
    let (change, sends) = answer(part, j, reply_of(table, request.message));
    Some(Planned {
        change: Change::Home(change, HeldChange::Leaves(j)),
        sends,
        displaced: None,
        guard: Some(number),
        message: Some((request.message, request.value)),
    })
}

// The home pays the reply that it owes to j by guard g of its state, where this message is that
// reply.
fn pay(
    table: &Table,
    home: &HomeState,
    j: u8,
    g: u8,
    guard: (&Rule, u8),
    owed: u8,
    message: (u8, Value),
) -> Option<Planned>
    ensures value { (k n : ℕ) (held : List Held) (by : AGuardId) → HomePlans home.now held result
        (steps.sent_to (setting_of table.now k) n home.now held j by
        (going guard.entry.0.now guard.entry.1) (Some owed) message) }
    ensures says { IfSome result (Says (Some g) (Some message)) }
    ensures fits { (k n : ℕ) (held : List Held) → j < n
        → IfSome result (λ plan. FitsIn k held n plan.change) }
{
    if owed != message.0 {
        return None;
    }
    let part = home_after(table, &home.vars, guard, j, Value::Unit);
    let change = HomeChange {
        place: HomePlace::Idle(part.state),
        vars: part.vars,
        debt: Some(Debt {
            to: j,
            message: None,
        }),
    };
    Some(Planned {
        change: Change::Home(change, HeldChange::Stays),
        sends: Sends::Down(j, Packet::Reply(message.0, message.1)),
        displaced: None,
        guard: Some(g),
        message: Some(message),
    })
}

// Whether the home may send a request to j.
fn may_request(table: &Table, n: u8, home: &HomeState, slots: &Slots, j: u8) -> bool
    ensures { result ≡ steps.may_request (setting_of table.now slots.now.size) n home.now
        slots.now.held j }
{
    !some_completes(table, n, home, slots.held())
        && (slots.room_to_send() && first_held(slots.held(), j).is_none())
}

// The home sends the message as a request to j, where it may, and waits by the guard.
fn request(
    table: &Table,
    n: u8,
    home: &HomeState,
    slots: &Slots,
    j: u8,
    g: GuardId,
    message: (u8, Value),
) -> Option<Planned>
    ensures value { (rule : ARule) → HomePlans home.now slots.now.held result
        (steps.sent_to (setting_of table.now slots.now.size) n home.now slots.now.held j g rule None
        message) }
    ensures says { IfSome result (Says (Some g.guard) (Some message)) }
    ensures fits { (k m : ℕ) → IfSome result (λ plan. FitsIn k slots.now.held m plan.change) }
{
    if !may_request(table, n, home, slots, j) {
        return None;
    }
    let change = HomeChange {
        place: HomePlace::Waits(Waiting {
            by: g,
            on: j,
            sent: message.1,
        }),
        vars: home.vars,
        debt: None,
    };
    Some(Planned {
        change: Change::Home(change, HeldChange::Stays),
        sends: Sends::Down(j, Packet::Request(message.0, message.1)),
        displaced: None,
        guard: Some(g.guard),
        message: Some(message),
    })
}

/// The home sends by the guard to j: the reply that it owes, or a request.
#[tactic(auto, unfolding(async_shape::specs::HomeSteps::home_send))]
pub(crate) fn home_send(
    table: &Table,
    n: u8,
    home: &HomeState,
    slots: &Slots,
    g: u32,
    j: u8,
) -> Option<Planned>
    requires { j < n }
    ensures value { HomePlans home.now slots.now.held result
        (steps.home_send (setting_of table.now slots.now.size) n home.now slots.now.held g j) }
    ensures says { IfSome result
        (Says (Some g) (plans.home_message (protocol_of table.now) home.now g)) }
    ensures fits { (k : ℕ) → IfSome result (λ plan. FitsIn k slots.now.held n plan.change) }
{
    let HomePlace::Idle(state) = home.place else {
        return None;
    };
    let guard = home_guard(table, state, g as usize)?;
    if !guard_open(guard.0, &home.vars) {
        return None;
    }
    if !is_target_of(n, &home.vars, guard.0, j) {
        return None;
    }
    let message = given(table, guard.0, &home.vars)?;
    match owed_to(home, j) {
        Some(owed) => pay(table, home, j, g as u8, guard, owed, message),
        None => {
            let by = GuardId {
                state,
                guard: g as u8,
            };
            request(table, n, home, slots, j, by, message)
        }
    }
}

// Whether the home, idle in this state, drops the request of j.
fn drops(table: &Table, n: u8, home: &HomeState, slots: &Slots, j: u8, state: u8) -> bool
    ensures { result ≡ (not (requests.some_completes n (protocol_of table.now).home home.now
        slots.now.held)
        && steps.may_drop (setting_of table.now slots.now.size) n home.now slots.now.held j
        (spec_guards_of (protocol_of table.now).home state)) }
{
    let rules = guards_of(home_body(table), state);
    !some_completes(table, n, home, slots.held())
        && may_drop(n, home, slots.size(), slots.held(), j, rules)
}

/// The home drops the request of j, and nacks it.
#[tactic(auto, unfolding(async_shape::specs::HomeSteps::home_drop))]
pub(crate) fn home_drop(
    table: &Table,
    n: u8,
    home: &HomeState,
    slots: &Slots,
    j: u8,
) -> Option<Planned>
    ensures value { HomePlans home.now slots.now.held result
        (steps.home_drop (setting_of table.now slots.now.size) n home.now slots.now.held j) }
    ensures says { IfSome result (Says None None) }
    ensures fits { (k m : ℕ) → IfSome result (λ plan. FitsIn k slots.now.held m plan.change) }
{
    let HomePlace::Idle(state) = home.place else {
        return None;
    };
    first_held(slots.held(), j)?;
    if !drops(table, n, home, slots, j, state) {
        return None;
    }
    Some(Planned {
        change: Change::Home(staying(home), HeldChange::Leaves(j)),
        sends: Sends::Down(j, Packet::Nack),
        displaced: None,
        guard: None,
        message: None,
    })
}

// ---- a packet arrives

// The plan of an arrival, by which the home stands so, holds so, and sends this.
fn arrival(change: HomeChange, held: HeldChange, sends: Sends, displaced: Option<u8>) -> Planned
    ensures { result ≡ record {
      change = Change.Home change held;
      sends = sends;
      displaced = displaced;
      guard = None;
      message = None;
    } }
{
    Planned {
        change: Change::Home(change, held),
        sends,
        displaced,
        guard: None,
        message: None,
    }
}

// Where the home stands then, if it stands elsewhere.
fn standing_if(home: &HomeState, part: Option<Part>) -> HomeChange
    ensures value { plans.home_after result home.now
        ≡ option_map_or (outcome.home_at home.now) part home.now }
    ensures debt { result.debt ≡ None }
{
    match part {
        Some(part) => standing_at(part),
        None => staying(home),
    }
}

// The packet of the remote on which the home waits.
fn heard(table: &Table, home: &HomeState, waiting: Waiting, arrived: Packet) -> HomeChange
    ensures value { plans.home_after result home.now
        ≡ steps.home_answered (protocol_of table.now).home home.now waiting arrived }
    ensures debt { result.debt ≡ None }
{
    match arrived {
        Packet::Ack => {
            let part = home_after_ack(table, &home.vars, waiting.by, waiting.on);
            standing_if(home, part)
        }
        Packet::Nack | Packet::Request(_, _) => HomeChange {
            place: HomePlace::Idle(waiting.by.state),
            vars: home.vars,
            debt: None,
        },
        Packet::Reply(_, value) => {
            let part = home_after_reply(table, &home.vars, waiting.by, waiting.on, value);
            standing_if(home, part)
        }
    }
}

// A request that crosses the home's own is held in the ack slot.
fn held_crossing(j: u8, arrived: Packet) -> HeldChange
    ensures value { (held : List Held)
        → plans.held_after result held ≡ steps.held_crossing held j arrived }
    ensures slot { (k : ℕ) (held : List Held) → length held < k → HasSlot k held result }
{
    match arrived {
        Packet::Request(message, value) => HeldChange::Joins(Held {
            from: j,
            message,
            value,
        }),
        Packet::Ack | Packet::Nack | Packet::Reply(_, _) => HeldChange::Stays,
    }
}

// A request that is not kept: the last held one makes room for it, or its sender is told.
fn not_kept(table: &Table, n: u8, home: &HomeState, slots: &Slots, request: Held) -> Planned
    ensures value { HomePlans home.now slots.now.held (Some result) (Some (
        if requests.displaces n (protocol_of table.now).home home.now slots.now.size
        slots.now.held request
        then option_map_or (steps.made_room home.now slots.now.held request)
        (last_of slots.now.held) (outcome.at_home home.now slots.now.held None)
        else outcome.at_home home.now slots.now.held
        (outcome.put_on (Down request.from) Packet.Nack))) }
    ensures says { Says None None result }
    ensures fits { (m : ℕ) → FitsIn slots.now.size slots.now.held m result.change }
{
    let stays = staying(home);
    if !displaces(table, n, home, slots.size(), slots.held(), &request) {
        let nack = Sends::Down(request.from, Packet::Nack);
        return arrival(stays, HeldChange::Stays, nack, None);
    }
    match slots.held().last() {
        Some(last) => {
            let nack = Sends::Down(last.from, Packet::Nack);
            arrival(stays, HeldChange::MakesRoom(request), nack, Some(last.from))
        }
        None => arrival(stays, HeldChange::Stays, Sends::Nothing, None),
    }
}

// A request arrives on whose sender the home doesn't wait.
fn up_request(table: &Table, n: u8, home: &HomeState, slots: &Slots, request: Held) -> Planned
    requires { IsTrue (requests.is_waiting home.now.place)
        → length slots.now.held < slots.now.size }
    ensures value { HomePlans home.now slots.now.held (Some result) (Some
        (steps.up_request (setting_of table.now slots.now.size) n home.now slots.now.held request)) }
    ensures says { Says None None result }
    ensures fits { (m : ℕ) → FitsIn slots.now.size slots.now.held m result.change }
{
    let completes = completes(table, n, home, &request);
    if slots.admits(completes, is_waiting(home.place)) {
        let joins = HeldChange::Joins(request);
        arrival(staying(home), joins, Sends::Nothing, None)
    } else {
        not_kept(table, n, home, slots, request)
    }
}

// A packet of j arrives, on which the home doesn't wait.
fn up_other(
    table: &Table,
    n: u8,
    home: &HomeState,
    slots: &Slots,
    j: u8,
    arrived: Packet,
) -> Planned
    requires { IsTrue (requests.is_waiting home.now.place)
        → length slots.now.held < slots.now.size }
    ensures value { HomePlans home.now slots.now.held (Some result) (Some
        (steps.up_other (setting_of table.now slots.now.size) n home.now slots.now.held j arrived)) }
    ensures says { Says None None result }
    ensures fits { (m : ℕ) → FitsIn slots.now.size slots.now.held m result.change }
{
    let Packet::Request(message, value) = arrived else {
        return arrival(staying(home), HeldChange::Stays, Sends::Nothing, None);
    };
    let request = Held {
        from: j,
        message,
        value,
    };
    up_request(table, n, home, slots, request)
}

/// The packet of remote j, among n, arrives at the home.
#[tactic(auto, unfolding(async_shape::specs::HomeSteps::up))]
pub(crate) fn up(
    table: &Table,
    n: u8,
    home: &HomeState,
    slots: &Slots,
    j: u8,
    arrived: Packet,
) -> Planned
    requires { IsTrue (requests.is_waiting home.now.place)
        → length slots.now.held < slots.now.size }
    ensures value { HomePlans home.now slots.now.held (Some result) (Some
        (steps.up (setting_of table.now slots.now.size) n home.now slots.now.held j arrived)) }
    ensures says { Says None None result }
    ensures fits { (m : ℕ) → FitsIn slots.now.size slots.now.held m result.change }
{
    if let HomePlace::Waits(waiting) = home.place {
        if waiting.on == j {
            let change = heard(table, home, waiting, arrived);
            return arrival(change, held_crossing(j, arrived), Sends::Nothing, None);
        }
    }
    up_other(table, n, home, slots, j, arrived)
}
