//! Until when a shred waits.
ghost use Rattle.std.specs.Prelude.{IfOk, IfErr};
ghost use Rattle.ck_values.specs.Datum.{meant};
ghost use Rattle.ck_store.specs.Store.{At};
ghost use Rattle.ck_store.specs.Steps.{wait_dur, wait_time};
ghost use Rattle.machine_world.specs.Tries.{CanDo, Answers, Refuses};

use crate::world::World;
use ck_values::{Trap, Value};

/// The time until which a wait for this dur lasts, or its trap.
#[tactic(auto, unfolding(ck_store::specs::Steps::wait_dur, fixed_point::specs::Fix::nearest_in_range))]
pub fn wait_dur(d: &Value, world: &World) -> Result<i64, Trap>
    requires { CanDo world.now (wait_dur (meant d.now)) }
    ensures until { IfOk result (λ time. Answers world.now (wait_dur (meant d.now)) (At time)) }
    ensures trap { IfErr result (Refuses world.now (wait_dur (meant d.now))) }
{
    match d {
        Value::Dur(samples) => {
            let now = world.now();
            let time = now.saturating_add(*samples);
            if time < now {
                return Err(Trap::TimeBeforeNow);
            }
            Ok(time)
        }
        _ => unreachable!(),
    }
}

/// The time of a wait until this time, or its trap.
#[tactic(auto, unfolding(ck_store::specs::Steps::wait_time))]
pub fn wait_time(t: &Value, world: &World) -> Result<i64, Trap>
    requires { CanDo world.now (wait_time (meant t.now)) }
    ensures until { IfOk result (λ time. Answers world.now (wait_time (meant t.now)) (At time)) }
    ensures trap { IfErr result (Refuses world.now (wait_time (meant t.now))) }
{
    match t {
        Value::Time(time) => {
            if *time < world.now() {
                return Err(Trap::TimeBeforeNow);
            }
            Ok(*time)
        }
        _ => unreachable!(),
    }
}
