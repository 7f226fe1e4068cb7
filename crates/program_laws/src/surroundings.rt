//! What a statement stands in.
ghost use Rattle.std.specs.Prelude.{◌≡◌};
ghost use Rattle.program_laws.specs.Statements as definition;

use ck_values::Kind;

/// What a statement stands in.
#[derive(Clone, Copy)]
pub struct Surroundings {
    /// The type of the function's result; none outside a function.
    pub result: Option<Kind>,
    /// Whether it stands in a loop.
    pub in_loop: bool,
}

impl Surroundings {
    /// In a loop of the same function.
    pub fn looped(self) -> Surroundings
        ensures { result ≡ definition.looped self }
    {
        Surroundings {
            result: self.result,
            in_loop: true,
        }
    }
}
