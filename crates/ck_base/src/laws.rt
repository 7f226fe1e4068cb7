//! The law of the limits: the contract of a function that does nothing.

ghost use Rattle.ck_base.specs.Bounds.{HasItsLimits};

/// Each limit is the number that the language and its machine have for it.
pub fn limits_are_as_stated()
    ensures { HasItsLimits }
{}
