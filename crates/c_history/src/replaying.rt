//! The replay of a history.

ghost use Rattle.std.specs.Prelude.{◌≡◌, ◌↔◌, ◌<◌, ◌-◌, ◌^◌, IfOk, IsTrue, Some, length};
ghost use Rattle.c_syntax.specs.Plain.{plain_program};
ghost use Rattle.c_history.specs.Replays.{Tells};
ghost use Rattle.c_history.specs.declared.replaying.Replayed.{Replayed};

use c_meaning::{CState, Event, History};
use c_syntax::CProgram;
use pl_base::Memory;
use std::alloc::Global;

/// Whether a history is one of a program's runs.
#[derive(Clone, Copy, Debug, PartialEq, Eq)]
pub enum Replayed {
    /// Each event is a step of the program.
    Follows,
    /// The place, from 0, of the first event that is no step, the event that its thread would do there, and this event.
    /// None is expected of a thread that isn't there, has ended, waits or stands before a fault.
    Differs(u32, Option<Event>, Event),
}

/// Whether the events are those of a run of the program with that input, one step of an enabled thread each. A race or a
/// bound on events ends no replay. `Memory` comes only for want of memory.
pub fn replay(
    alloc: Global,
    program: &CProgram,
    input: &[i64],
    history: &History,
) -> Result<Replayed, Memory>
    requires { length history.now.events < 2 ^ 32 - 1 }
    ensures tells { IfOk result (Tells (plain_program program.now) input.now history.now.events) }
    ensures exact { (answer : Replayed) → Tells (plain_program program.now) input.now history.now.events answer → IfOk result (λ given. given ≡ answer) }
{
    let events = history.events.as_slice();
    let mut state = CState::start(alloc, program, input)?;
    for (k, event) in events.iter().enumerate() {
        let expected = state.attempt(program, event.tid)?;
        if !is_event(&expected, event) {
            return Ok(Replayed::Differs(k as u32, expected, *event));
        }
    }
    Ok(Replayed::Follows)
}

fn is_event(expected: &Option<Event>, event: &Event) -> bool
    ensures { IsTrue result ↔ (expected.now ≡ Some event.now) }
{
    match expected {
        Some(next) => *next == *event,
        None => false,
    }
}
