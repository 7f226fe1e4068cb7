ghost use Rattle.std.specs.Prelude.{◌≡◌, IfOk};

use crate::reference::Ref;
use ck_base::Text;
use fixed_point::{Fix, Memory};
use std::alloc::Global;

/// A value of the language.
#[derive(Drop)]
pub enum Value {
    Int(i64),
    Float(Fix),
    /// A count of samples.
    Dur(i64),
    /// A count of samples since the run began.
    Time(i64),
    Text(Text),
    /// A shred's number; 0 is null.
    Shred(u64),
    Ref(Ref),
}

impl Value {
    /// An equal value.
    pub fn try_clone(&self, alloc: Global) -> Result<Value, Memory>
        ensures { IfOk result (λ v. v ≡ self.now) }
    {
        Ok(match self {
            Value::Int(n) => Value::Int(*n),
            Value::Float(x) => Value::Float(*x),
            Value::Dur(samples) => Value::Dur(*samples),
            Value::Time(samples) => Value::Time(*samples),
            Value::Text(text) => Value::Text(text.try_clone(alloc)?),
            Value::Shred(number) => Value::Shred(*number),
            Value::Ref(at) => Value::Ref(*at),
        })
    }
}
