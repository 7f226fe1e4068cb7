//! The fields and the virtual slots of classes, those of their ancestors among them.
ghost use Rattle.std.specs.Prelude.{◌≡◌, [], ◌++◌, ◌<◌, ◌≤◌, slice_set, Some, None, IfOk, OnOk, IfSome, IsTrue, replicate};
ghost use Rattle.std.specs.Option.{option_copied};
ghost use Rattle.ck_base.specs.declared.limits.TheConstants.{MAX_ANCESTORS};
ghost use Rattle.type_table.specs.Table.{class_of, line as line_of};
ghost use Rattle.type_table.specs.Lines.{classes_of, above_of};
ghost use Rattle.type_table.specs.Finished.{with_own, with_all};
ghost use Rattle.type_table.specs.Layouts.{no_layout, with_class, layout_of, found_at, AreFound};

use crate::class::{Class, Dispatch, Own};
use crate::line::Line;
use crate::table::Table;
use ck_values::Kind;
use fixed_point::Memory;
use shared_list::SharedList;
use std::alloc::Global;
use std::marker::Model;
use type_rules::is_within;

/// The kinds of an object's fields, and the function in each virtual slot of its class.
#[derive(Drop)]
pub(crate) struct Layout {
    pub fields: SharedList<Kind>,
    pub virtuals: SharedList<u32>,
}

impl Layout {
    /// No field, and no slot.
    fn new(alloc: Global) -> Layout
        ensures { result ≡ no_layout }
    {
        Layout {
            fields: SharedList::new(alloc),
            virtuals: SharedList::new(alloc),
        }
    }

    /// The same layout, which both share.
    fn share(&self, alloc: Global) -> Result<Layout, Memory>
        ensures { IfOk result (λ copy. copy ≡ self.now) }
    {
        Ok(Layout {
            fields: self.fields.share(alloc)?,
            virtuals: self.virtuals.share(alloc)?,
        })
    }
}

/// The layouts of classes, in their order, where they are found.
#[derive(Drop)]
pub(crate) struct Layouts {
    all: Vec<Option<Layout>>,
}

impl Model for Layouts {
    ghost use Rattle.std.specs.Prelude.{List, Option};
    ghost use Rattle.type_table.specs.declared.layout.Layout.{Layout};

    ghost Value = { List (Option Layout) };

    ghost view = { λ it. it.all.items };
}

impl Layouts {
    /// None is found of so many.
    pub(crate) fn none(alloc: Global, count: usize) -> Result<Layouts, Memory>
        ensures { IfOk result (λ found. found ≡ replicate count None) }
    {
        let mut all = Vec::with_capacity(alloc, count)?;
        for _ in 0..count {
            all.push(None)?;
        }
        Ok(Layouts { all })
    }

    /// The layout of a class, where it is found.
    fn get(&self, class: u32) -> Option<&Layout>
        ensures { option_copied result ≡ found_at self.now class }
    {
        match self.all.get(class as usize) {
            Some(Some(layout)) => Some(layout),
            _ => None,
        }
    }

    /// The layout of a class is found.
    #[tactic(auto, using(crate::proofs::Changes::set_past))]
    fn set(&mut self, class: u32, layout: Layout)
        ensures { self.new ≡ slice_set self.old class (Some layout) }
    {
        if (class as usize) < self.all.len() {
            self.all[class as usize] = Some(layout);
        }
    }
}

impl Table {
    /// The fields of a class itself.
    fn kinds_of_fields(&self, class: u32) -> &[Kind]
        ensures { result.now ≡ (class_of self.now class).fields }
    {
        match self.classes.get(class as usize) {
            Some(class) => class.fields.kinds(),
            None => &[],
        }
    }

    /// The fields of a class itself, behind others.
    fn add_fields(
        &self,
        alloc: Global,
        fields: &mut SharedList<Kind>,
        class: u32,
    ) -> Result<(), Memory>
        ensures { OnOk result (fields.new ≡ fields.old ++ (class_of self.now class).fields) }
    {
        for kind in self.kinds_of_fields(class) {
            fields.push(alloc, *kind)?;
        }
        Ok(())
    }

    /// The slots of the ancestors, with a member of their descendant. A new function comes last,
    /// and an override stands in the place of what it overrides.
    fn add_own_slot(
        &self,
        alloc: Global,
        slots: &mut SharedList<u32>,
        above: Option<Line>,
        name: &[u8],
        own: &Own,
    ) -> Result<(), Memory>
        requires short { IfSome above (λ line. line.steps < MAX_ANCESTORS) }
        ensures { OnOk result
            (slots.new
            ≡ with_own self.now (above_of self.now above) slots.old (name.now, own.now)) }
    {
        match own {
            Own::Fun {
                fun,
                dispatch: Dispatch::NewSlot(_),
            } => slots.push(alloc, *fun),
            Own::Fun {
                fun,
                dispatch: Dispatch::Override,
            } => slots.set(alloc, self.slot_above(above, name) as usize, *fun),
            _ => Ok(()),
        }
    }

    /// The slots of the ancestors, with all members of their descendant.
    fn add_slots_of(
        &self,
        alloc: Global,
        slots: &mut SharedList<u32>,
        above: Option<Line>,
        class: &Class,
    ) -> Result<(), Memory>
        requires short { IfSome above (λ line. line.steps < MAX_ANCESTORS) }
        ensures { OnOk result
            (slots.new
            ≡ with_all self.now (above_of self.now above) slots.old class.now.members) }
    {
        for i in 0..class.members.len() {
            let Some((name, own)) = class.members.at(i) else {
                continue;
            };
            self.add_own_slot(alloc, slots, above, name, own)?;
        }
        Ok(())
    }

    /// The slots of the ancestors, with all members of a class by its number.
    fn add_slots(
        &self,
        alloc: Global,
        slots: &mut SharedList<u32>,
        above: Option<Line>,
        class: u32,
    ) -> Result<(), Memory>
        requires short { IfSome above (λ line. line.steps < MAX_ANCESTORS) }
        ensures { OnOk result
            (slots.new
            ≡ with_all self.now (above_of self.now above) slots.old
            (class_of self.now class).members) }
    {
        match self.classes.get(class as usize) {
            Some(class) => self.add_slots_of(alloc, slots, above, class),
            None => Ok(()),
        }
    }

    /// The layout of the ancestors, with what their descendant declares.
    fn extend_layout(
        &self,
        alloc: Global,
        layout: &mut Layout,
        above: Option<Line>,
        class: u32,
    ) -> Result<(), Memory>
        requires short { IfSome above (λ line. line.steps < MAX_ANCESTORS) }
        ensures { OnOk result
            (layout.new ≡ with_class self.now (above_of self.now above) class layout.old) }
    {
        self.add_fields(alloc, &mut layout.fields, class)?;
        self.add_slots(alloc, &mut layout.virtuals, above, class)
    }

    /// Whether a line ends with Object. Then it is the whole line of its class.
    fn is_whole(&self, line: Line) -> bool
        requires short { line.steps ≤ MAX_ANCESTORS }
        ensures whole { IsTrue result → classes_of self.now line ≡ line_of self.now line.class }
    {
        is_within(self.parents(), line.steps, line.class, 0)
    }

    /// The layout of a line of classes, where it is found.
    fn known<'a>(&self, found: &'a Layouts, line: Line) -> Option<&'a Layout>
        requires short { line.steps ≤ MAX_ANCESTORS }
        requires found { AreFound self.now found.now }
        ensures { IfSome result (λ it. it.now ≡ layout_of self.now (classes_of self.now line)) }
    {
        if !self.is_whole(line) {
            return None;
        }
        found.get(line.class)
    }

    /// The layout of a line of classes is found.
    fn keep(
        &self,
        alloc: Global,
        found: &mut Layouts,
        line: Line,
        layout: &Layout,
    ) -> Result<(), Memory>
        requires short { line.steps ≤ MAX_ANCESTORS }
        requires found { AreFound self.now found.old }
        requires layout { layout.now ≡ layout_of self.now (classes_of self.now line) }
        ensures { OnOk result (AreFound self.now found.new) }
    {
        if self.is_whole(line) {
            found.set(line.class, layout.share(alloc)?);
        }
        Ok(())
    }

    /// The layout of a line of classes: that of its first class's ancestors, which they share, and
    /// what that class declares. A whole line's is found once.
    pub(crate) fn layout(
        &self,
        alloc: Global,
        found: &mut Layouts,
        line: Line,
    ) -> Result<Layout, Memory>
        requires short { line.steps ≤ MAX_ANCESTORS }
        requires found { AreFound self.now found.old }
        ensures layout { IfOk result
            (λ layout. layout ≡ layout_of self.now (classes_of self.now line)) }
        ensures found { OnOk result (AreFound self.now found.new) }
    {
        if let Some(known) = self.known(found, line) {
            return known.share(alloc);
        }
        let above = self.above(line);
        let mut layout = match above {
            Some(above) => self.layout(alloc, found, above)?,
            None => Layout::new(alloc),
        };
        self.extend_layout(alloc, &mut layout, above, line.class)?;
        self.keep(alloc, found, line, &layout)?;
        Ok(layout)
    }
}
