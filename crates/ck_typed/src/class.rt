use ck_base::Text;
use ck_values::Kind;
use shared_list::SharedList;

/// A class. Class 0 is `Object`, which is its own parent, and class 1 is `Event`.
///
/// Its fields and its slots are shared with the classes above and below it.
#[derive(Drop)]
pub struct Class {
    pub name: Text,
    pub parent: u32,
    /// The kinds of its fields: those of its parent first, then its own in text order.
    pub fields: SharedList<Kind>,
    /// The function in each virtual slot: those of its parent first, each its override where there
    /// is one.
    pub virtuals: SharedList<u32>,
    /// The function that runs the statements in its braces, where there are any.
    pub body: Option<u32>,
    /// Whether it is `Event` or stands below it.
    pub event: bool,
}
