// What each event makes of a channel, by the transition table.
#![tactic(auto)]

ghost use Rattle.std.specs.Prelude.{◌≡◌};
ghost use Rattle.rf_plan.specs.Table.{table};
ghost use Rattle.rf_plan.specs.Plan.{planned};

use rf_channel::{Action, Events, Plan, RfChannel, States};

// What an event does, by the table: its lines event by event, and no transition where it has none.
// Deadlines wrap with the clock; a channel that is blocked keeps its first fault.
#[tactic(auto, unfolding(crate::specs::Plan::planned, crate::specs::Table::table))]
pub fn plan_of(channel: RfChannel, event: Events, tick: u32, watchdog: bool) -> Plan
    ensures { result ≡ planned table channel event tick watchdog }
{
    let powering_up = States::Powerup(tick.wrapping_add(200));
    let powering_down = States::Powerdown(tick.wrapping_add(500));
    match (event, channel.state) {
        (Events::InterlockReset, States::Off) if rf_channel::guard_powerup(channel.settings) => {
            Plan::Go(Action::StartPowerup, powering_up)
        }
        (Events::InterlockReset, States::Enabled) => Plan::Go(Action::Nothing, States::Enabled),
        (Events::Update, States::Powerup(deadline)) if rf_channel::late(tick, deadline) => {
            Plan::Go(Action::ResetInterlocks, States::Powered)
        }
        (Events::Update, States::Powered) if rf_channel::guard_enable(channel, watchdog) => {
            Plan::Go(Action::EnableOutput, States::Enabled)
        }
        (Events::Update, States::Powerdown(deadline)) if rf_channel::late(tick, deadline) => {
            Plan::Go(Action::Nothing, States::Off)
        }
        (Events::InterlockReset, States::Off)
        | (Events::Update, States::Powerup(_) | States::Powered | States::Powerdown(_)) =>
            Plan::GuardFalse,
        (Events::InterlockReset | Events::DisableRf, States::Tripped(_)) => {
            Plan::Go(Action::Nothing, States::Powered)
        }
        (Events::DisableRf, States::Enabled) => Plan::Go(Action::DisableRfSwitch, States::Powered),
        (Events::Disable, States::Off) => Plan::Go(Action::Nothing, States::Off),
        (Events::Disable, States::Powerdown(_) | States::Blocked(_)) => Plan::NoTransition,
        (Events::Disable, _) => Plan::Go(Action::StartDisable, powering_down),
        (Events::Trip(source), States::Enabled) => {
            Plan::Go(Action::HandleTrip, States::Tripped(source))
        }
        (Events::Fault(_), blocked @ States::Blocked(_)) => Plan::Go(Action::HandleFault, blocked),
        (Events::Fault(fault), _) => Plan::Go(Action::HandleFault, States::Blocked(fault)),
        _ => Plan::NoTransition,
    }
}
