//! Members, which a class has from its line of ancestors too.
ghost use Rattle.std.specs.Prelude.{◌≡◌, ◌∷◌, ◌+◌, ◌*◌, ◌<◌, ◌≤◌, length, slice_get, IfSome};
ghost use Rattle.std.specs.Option.{option_copied};
ghost use Rattle.ck_base.specs.declared.limits.TheConstants.{MAX_ANCESTORS, MAX_FILE_TOKENS};
ghost use Rattle.type_rules.specs.Fitting.{parent_or};
ghost use Rattle.type_table.specs.Names.{lookup};
ghost use Rattle.type_table.specs.Table.{class_of, line, ancestors, overridden, count_fields, count_slots, slot_in, slot_of, as_member, member_in, member_named, construct_in, construct};
ghost use Rattle.type_table.specs.Lines.{classes_by, classes_of, above_by as above_in, above_of};
ghost use Rattle.type_table.specs.Descendants.{ancestors_by as ancestors_in};

use crate::class::{Dispatch, Head, Own};
use crate::table::{Member, Table};
use ck_base::Text;
use ck_base::limits::MAX_ANCESTORS;

/// A class, and at most so many of its ancestors.
#[derive(Clone, Copy)]
pub(crate) struct Line {
    pub class: u32,
    pub steps: u32,
}

/// The parent of a class, by the parents of all classes.
pub(crate) fn parent_by(parents: &[u32], class: u32) -> u32
    ensures { result ≡ parent_or (slice_get parents.now class) }
{
    match parents.get(class as usize) {
        Some(parent) => *parent,
        None => 0,
    }
}

/// What of a line stands above its first class, by the parents of all classes.
#[tactic(auto, unfolding(crate::specs::Lines::classes_by))]
pub(crate) fn above_by(parents: &[u32], line: Line) -> Option<Line>
    ensures above { classes_by parents.now line ≡ line.class ∷ above_in parents.now result }
    ensures fewer { IfSome result (λ above. above.steps < line.steps) }
{
    if line.steps == 0 || line.class == 0 {
        return None;
    }
    Some(Line {
        class: parent_by(parents, line.class),
        steps: line.steps - 1,
    })
}

/// The line of a class's ancestors, by the parents of all classes.
pub(crate) fn ancestors_by(parents: &[u32], class: u32) -> Option<Line>
    ensures { above_in parents.now result ≡ ancestors_in parents.now class }
{
    let whole = Line {
        class,
        steps: MAX_ANCESTORS,
    };
    above_by(parents, whole)
}

impl Table {
    /// A class, and all its ancestors.
    pub(crate) fn whole_line(&self, class: u32) -> Line
        ensures whole { classes_of self.now result ≡ line self.now class }
        ensures class { result.class ≡ class }
        ensures steps { result.steps ≡ MAX_ANCESTORS }
    {
        Line {
            class,
            steps: MAX_ANCESTORS,
        }
    }

    /// What of a line stands above its first class.
    pub(crate) fn above(&self, line: Line) -> Option<Line>
        ensures above { classes_of self.now line ≡ line.class ∷ above_of self.now result }
        ensures fewer { IfSome result (λ above. above.steps < line.steps) }
    {
        above_by(self.parents(), line)
    }

    /// The line of a class's ancestors.
    pub(crate) fn ancestors(&self, class: u32) -> Option<Line>
        ensures { above_of self.now result ≡ ancestors self.now class }
    {
        ancestors_by(self.parents(), class)
    }

    /// What a class declares under this name itself.
    pub(crate) fn own(&self, class: u32, name: &[u8]) -> Option<&Own>
        ensures { option_copied result ≡ lookup name.now (class_of self.now class).members }
    {
        self.classes.own(class, name)
    }

    /// How many fields a class declares itself.
    pub fn own_fields(&self, class: u32) -> usize
        ensures is { result ≡ length (class_of self.now class).fields }
        ensures few { result ≤ MAX_FILE_TOKENS }
    {
        match self.classes.get(class as usize) {
            Some(class) => class.fields.kinds().len(),
            None => 0,
        }
    }

    /// How many slots a class adds.
    pub fn own_slots(&self, class: u32) -> usize
        ensures is { result ≡ (class_of self.now class).slots }
        ensures few { result ≤ MAX_FILE_TOKENS }
    {
        match self.classes.get(class as usize) {
            Some(class) => class.slots.get() as usize,
            None => 0,
        }
    }

    /// How many fields the classes of a line declare.
    fn count_fields(&self, line: Line) -> usize
        ensures is { result ≡ count_fields self.now (classes_of self.now line) }
        ensures few { result ≤ MAX_FILE_TOKENS * (line.steps + 1) }
    {
        let own = self.own_fields(line.class);
        match self.above(line) {
            Some(above) => own + self.count_fields(above),
            None => own,
        }
    }

    /// How many slots they add.
    fn count_slots(&self, line: Line) -> usize
        ensures is { result ≡ count_slots self.now (classes_of self.now line) }
        ensures few { result ≤ MAX_FILE_TOKENS * (line.steps + 1) }
    {
        let own = self.own_slots(line.class);
        match self.above(line) {
            Some(above) => own + self.count_slots(above),
            None => own,
        }
    }

    /// How many slots the classes above add.
    fn slots_above(&self, above: Option<Line>) -> usize
        requires short { IfSome above (λ line. line.steps < MAX_ANCESTORS) }
        ensures is { result ≡ count_slots self.now (above_of self.now above) }
        ensures few { result ≤ MAX_FILE_TOKENS * MAX_ANCESTORS }
    {
        match above {
            Some(line) => self.count_slots(line),
            None => 0,
        }
    }

    /// How many fields the classes above declare.
    fn fields_above(&self, above: Option<Line>) -> usize
        requires short { IfSome above (λ line. line.steps < MAX_ANCESTORS) }
        ensures is { result ≡ count_fields self.now (above_of self.now above) }
        ensures few { result ≤ MAX_FILE_TOKENS * MAX_ANCESTORS }
    {
        match above {
            Some(line) => self.count_fields(line),
            None => 0,
        }
    }

    /// The slot of the function of this name that a line of classes has.
    pub(crate) fn slot_in(&self, line: Line, name: &[u8]) -> u32
        requires short { line.steps ≤ MAX_ANCESTORS }
        ensures { result ≡ slot_in self.now (classes_of self.now line) name.now }
    {
        let above = self.above(line);
        if let Some(before) = self.classes.new_slot(line.class, name) {
            return self.slots_above(above) as u32 + before;
        }
        match above {
            Some(above) => self.slot_in(above, name),
            None => 0,
        }
    }

    /// The slot of the function of this name that the classes above have.
    pub(crate) fn slot_above(&self, above: Option<Line>, name: &[u8]) -> u32
        requires short { IfSome above (λ line. line.steps < MAX_ANCESTORS) }
        ensures { result ≡ slot_in self.now (above_of self.now above) name.now }
    {
        match above {
            Some(line) => self.slot_in(line, name),
            None => 0,
        }
    }

    /// The slot of a function that is called so.
    fn slot_of(&self, above: Option<Line>, name: &[u8], dispatch: &Dispatch) -> Option<u32>
        requires short { IfSome above (λ line. line.steps < MAX_ANCESTORS) }
        ensures { result ≡ slot_of self.now (above_of self.now above) name.now dispatch.now }
    {
        match dispatch {
            Dispatch::Static => None,
            Dispatch::NewSlot(before) => Some(self.slots_above(above) as u32 + before.get()),
            Dispatch::Override => Some(self.slot_above(above, name)),
        }
    }

    /// What a class's own member is to those who name it.
    fn as_member(&self, above: Option<Line>, name: &[u8], own: &Own) -> Member
        requires short { IfSome above (λ line. line.steps < MAX_ANCESTORS) }
        ensures { result ≡ as_member self.now (above_of self.now above) name.now own.now }
    {
        match own {
            Own::Field { position, kind } => Member::Field {
                index: self.fields_above(above) as u32 + position.get(),
                kind: *kind,
            },
            Own::Static(variable) => Member::Static {
                index: variable.index,
                kind: variable.kind,
            },
            Own::Auto => Member::Auto,
            Own::Fun { fun, dispatch } => Member::Fun {
                fun: *fun,
                slot: self.slot_of(above, name, dispatch),
            },
        }
    }

    /// The member of this name that a line of classes has.
    fn member_in(&self, line: Line, name: &[u8]) -> Option<Member>
        requires short { line.steps ≤ MAX_ANCESTORS }
        ensures { result ≡ member_in self.now (classes_of self.now line) name.now }
    {
        let mut rest = Some(line);
        while let Some(line) = rest {
            let above = self.above(line);
            if let Some(own) = self.own(line.class, name) {
                return Some(self.as_member(above, name, own));
            }
            rest = above;
        }
        None
    }

    /// The member of this name that a class declares, or the nearest of its ancestors.
    pub fn member(&self, class: u32, name: &Text) -> Option<Member>
        ensures { result ≡ member_named self.now class name.now }
    {
        self.member_in(self.whole_line(class), name.bytes())
    }

    /// The constructor of a class itself, a function by its number.
    pub fn own_constructor(&self, class: u32) -> Option<u32>
        ensures { result ≡ (class_of self.now class).constructor }
    {
        self.classes.get(class as usize)?.constructor
    }

    /// The constructor of the first class of a line that has one.
    fn construct_in(&self, line: Line) -> Option<u32>
        ensures { result ≡ construct_in self.now (classes_of self.now line) }
    {
        let above = self.above(line);
        if let Some(fun) = self.own_constructor(line.class) {
            return Some(fun);
        }
        match above {
            Some(above) => self.construct_in(above),
            None => None,
        }
    }

    /// What an object of a class is made by, a function by its number: the class's own constructor,
    /// or that of its nearest ancestor with one. It takes no memory.
    pub fn construct(&self, class: u32) -> Option<u32>
        ensures { result ≡ construct self.now class }
    {
        self.construct_in(self.whole_line(class))
    }

    /// What a class has under the name of a function by its text.
    fn own_head(&self, class: u32, name: &[u8]) -> Option<&Option<Head>>
        ensures { option_copied result ≡ lookup name.now (class_of self.now class).heads }
    {
        self.classes.get(class as usize)?.heads.get(name)
    }

    /// The function of this name that the nearest of a line of classes has by its text.
    fn head_in(&self, line: Line, name: &[u8]) -> Option<&Option<Head>>
        ensures { option_copied result ≡ overridden self.now (classes_of self.now line) name.now }
    {
        let above = self.above(line);
        if let Some(head) = self.own_head(line.class, name) {
            return Some(head);
        }
        match above {
            Some(above) => self.head_in(above, name),
            None => None,
        }
    }

    /// The function of this name that the nearest ancestor of a class has by its text.
    pub fn overridden(&self, class: u32, name: &[u8]) -> Option<&Option<Head>>
        ensures { option_copied result ≡ overridden self.now (ancestors self.now class) name.now }
    {
        match self.ancestors(class) {
            Some(above) => self.head_in(above, name),
            None => None,
        }
    }
}
