//! What names, members and declarations stand for.
//!
//! Its one contract: [`name_meaning`] and [`member_meaning`] find what the definition says of a
//! name where it stands, or of a member of what an expression stands for; and
//! [`declaration_meaning`] declares what the definition says, and leaves its scope, as does
//! [`auto_chucked`] with what is assigned to a declaration with `auto`. What they refuse is
//! exactly the fault of the definition. Only want of memory is a free answer. The typing of whole
//! expressions stands on it.
#![tactic(auto)]

mod autos;
mod declarations;
mod names;

pub use autos::auto_chucked;
pub use declarations::declaration_meaning;
pub use names::{member_meaning, name_meaning};
