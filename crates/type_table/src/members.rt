//! Members of classes, and what their names may be.
ghost use Rattle.std.specs.Prelude.{◌≡◌, ◌⊎◌, nat_eq, drop};
ghost use Rattle.std.specs.List.{list_any};
ghost use Rattle.type_table.specs.Lines.{classes_of, above_of};
ghost use Rattle.type_table.specs.Table.{ancestors};
ghost use Rattle.type_table.specs.NameClash.{has_other, stands_below, takes_below, is_taken_below, is_event_call, is_member_taken, is_fun};
ghost use Rattle.type_table.specs.Taking.{AreAllTaking};

use crate::class::Own;
use crate::line::Line;
use crate::table::Table;
use type_rules::{Holder, has_call, is_below};

impl Own {
    /// Whether it is a function.
    fn is_fun(&self) -> bool
        ensures { result ≡ is_fun self.now }
    {
        matches!(self, Own::Fun { .. })
    }
}

/// Whichever of two lists costs less to go over: a class below takes one look-up, and one that has
/// a member a walk over its ancestors besides.
fn cheaper<'a>(below: &'a [u32], owners: &'a [u32]) -> &'a [u32]
    ensures { (result.now ≡ below.now) ⊎ (result.now ≡ owners.now) }
{
    if below.len() / 8 < owners.len() {
        below
    } else {
        owners
    }
}

impl Table {
    /// Whether a class has a member of this name. A function may stand beside an ancestor's.
    fn has_other(&self, class: u32, name: &[u8], beside_fun: bool) -> bool
        ensures { result ≡ has_other self.now name.now beside_fun class }
    {
        match self.own(class, name) {
            Some(own) => !(beside_fun && own.is_fun()),
            None => false,
        }
    }

    /// Whether a class of a line has a member of this name.
    fn line_has_other(&self, line: Line, name: &[u8], beside_fun: bool) -> bool
        ensures { result
            ≡ list_any (has_other self.now name.now beside_fun) (classes_of self.now line) }
    {
        let above = self.above(line);
        if self.has_other(line.class, name, beside_fun) {
            return true;
        }
        match above {
            Some(above) => self.line_has_other(above, name, beside_fun),
            None => false,
        }
    }

    /// Whether an ancestor of a class has a member of this name.
    fn ancestor_has_other(&self, class: u32, name: &[u8], beside_fun: bool) -> bool
        ensures { result
            ≡ list_any (has_other self.now name.now beside_fun) (ancestors self.now class) }
    {
        if self.classes.owners(name).is_empty() {
            return false;
        }
        match self.ancestors(class) {
            Some(above) => self.line_has_other(above, name, beside_fun),
            None => false,
        }
    }

    /// Whether a class is one of a line.
    fn line_has(&self, line: Line, class: u32) -> bool
        ensures { result ≡ list_any (nat_eq class) (classes_of self.now line) }
    {
        let above = self.above(line);
        if class == line.class {
            return true;
        }
        match above {
            Some(above) => self.line_has(above, class),
            None => false,
        }
    }

    /// Whether a class stands below another.
    fn stands_below(&self, class: u32, ancestor: u32) -> bool
        ensures { result ≡ stands_below self.now class ancestor }
    {
        match self.ancestors(class) {
            Some(above) => self.line_has(above, ancestor),
            None => false,
        }
    }

    /// Whether a class has a member of this name, and stands below this one.
    fn takes_below(&self, class: u32, name: &[u8], beside_fun: bool, below: u32) -> bool
        ensures { result ≡ takes_below self.now class name.now beside_fun below }
    {
        self.has_other(below, name, beside_fun) && self.stands_below(below, class)
    }

    /// Whether one of these classes has a member of this name, and stands below this one.
    fn some_takes_below(&self, class: u32, name: &[u8], beside_fun: bool, classes: &[u32]) -> bool
        ensures { result ≡ list_any (takes_below self.now class name.now beside_fun) classes.now }
    {
        for below in classes {
            if self.takes_below(class, name, beside_fun, *below) {
                return true;
            }
        }
        false
    }

    /// All classes below this one that have a member of this name, and maybe more: those below this
    /// one or those that have such a member, whichever cost less to go over.
    fn maybe_taken_by(&self, class: u32, name: &[u8]) -> &[u32]
        ensures { AreAllTaking self.now class name.now result.now }
    {
        let owners = self.classes.owners(name);
        match self.parents.below(class, self.classes.len()) {
            Some(below) => cheaper(below, owners),
            None => owners,
        }
    }

    /// Whether a class below this one has a member of this name.
    fn is_taken_below(&self, class: u32, name: &[u8], beside_fun: bool) -> bool
        ensures { result ≡ is_taken_below self.now class name.now beside_fun }
    {
        let classes = self.maybe_taken_by(class, name);
        self.some_takes_below(class, name, beside_fun, classes)
    }

    /// Whether it is a call of `Event`, which counts as a function there and below.
    pub fn is_event_call(&self, class: u32, name: &[u8]) -> bool
        ensures { result ≡ is_event_call self.now class name.now }
    {
        is_below(self.parents(), class, 1) && has_call(Holder::Event, name)
    }

    /// Whether a class, its ancestors or the classes below it have a member of this name already.
    pub fn is_member_taken(&self, class: u32, name: &[u8], beside_fun: bool) -> bool
        ensures { result ≡ is_member_taken self.now class name.now beside_fun }
    {
        self.has_other(class, name, false)
            || self.ancestor_has_other(class, name, beside_fun)
            || self.is_taken_below(class, name, beside_fun)
            || (!beside_fun && self.is_event_call(class, name))
    }
}
