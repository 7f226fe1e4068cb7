//! Where an expression stands.
ghost use Rattle.std.specs.Prelude.{◌≡◌, ◌+◌, ◌^◌, ◌<◌, ◌≤◌, [], ◌∷◌, ◌++◌, length, None, true, false, OnOk, OnErr, IfOk, IfErr};
ghost use Rattle.check_scope.specs.Scope.{new_scope, reach, settle, kind_now, with_block, without_block, local_named, local_in, last_or, is_declared, with_local, own_with, with_last, local_kind, is_static_fun, this_local, is_top, declares_globals, declares_members, in_arguments, behind_arguments, is_unseen, place as place_of};
ghost use Rattle.type_table.specs.Answer.{IsFault};
ghost use Rattle.type_table.specs.Names.{lookup};
ghost use Rattle.type_table.specs.declared.fault.FaultKind.TheVariants.{Duplicate};
ghost use Rattle.fixed_point.specs.Wanting.{out_of_memory};
ghost use Rattle.type_table.specs.declared.fault.TypeFault.TheVariants.{Typing as typing, Memory as memory};

use crate::settled::Settled;
use ck_base::{List, Text};
use ck_values::{Kind, Place};
use std::alloc::Global;
use std::marker::Model;
use std::mem;
use type_table::{ByName, FaultKind, Table, TypeFault, Variable};

/// The names declared around an expression. Each is found by its hash.
#[derive(Drop)]
pub struct Scope {
    file: u32,
    class: Option<u32>,
    fun: Option<u32>,
    /// The file variables below this number were declared before: it can be one more than any of
    /// theirs.
    reached: u64,
    /// The types that declarations with `auto` gave to file variables so far.
    settled: Settled,
    /// The types of all locals declared so far.
    locals: List<Kind>,
    /// The numbers of the locals of the function's own level, by their names.
    own: ByName<u32>,
    /// Those of each open block, the innermost last.
    blocks: Vec<ByName<u32>>,
    /// The members of the class in whose own arguments it stands, the innermost last.
    unseen: Vec<Text>,
}

impl Model for Scope {
    ghost use Rattle.check_scope.specs.Scope.{Scope as Names};

    ghost Value = { Names };

    ghost view = { λ s. record {
      file = s.file;
      class = s.class;
      fun = s.fun;
      reached = s.reached;
      settled = s.settled;
      locals = s.locals;
      own = s.own;
      blocks = s.blocks.items;
      unseen = s.unseen.items;
    } };
}

/// Whether this is a static function. Statements of a class or of a file are not.
fn is_static_fun(table: &Table, fun: Option<u32>) -> bool
    ensures { result ≡ is_static_fun table.now fun }
{
    match fun {
        Some(fun) => table.is_static(fun),
        None => false,
    }
}

impl Scope {
    /// The scope of a function, of a class's statements, or of a file's, where these types were
    /// settled before. It takes no memory.
    pub fn new(
        alloc: Global,
        file: u32,
        class: Option<u32>,
        fun: Option<u32>,
        settled: Settled,
    ) -> Scope
        ensures { result ≡ new_scope file class fun settled }
    {
        Scope {
            file,
            class,
            fun,
            reached: 0,
            settled,
            locals: List::from_vec(Vec::new(alloc)),
            own: ByName::new(alloc),
            blocks: Vec::new(alloc),
            unseen: Vec::new(alloc),
        }
    }

    /// The file variables below this number are seen.
    pub fn reach(&mut self, statics: u64)
        ensures { self.new ≡ reach self.old statics }
    {
        self.reached = self.reached.max(statics);
    }

    /// A declaration with `auto` gives a file variable its type, and it is seen from then on.
    /// Without memory for it nothing changes.
    pub fn settle(&mut self, index: u32, kind: Kind) -> Result<(), TypeFault>
        ensures settled { OnOk result (self.new ≡ settle self.old index kind) }
        ensures kept { OnErr result (self.new ≡ self.old) }
        ensures memory { IfErr result (λ why. why ≡ memory out_of_memory) }
    {
        self.settled.add(index, kind)?;
        self.reach(u64::from(index) + 1);
        Ok(())
    }

    /// The type of a file variable: the one that was settled, or else that of the table.
    pub fn kind_now(&self, variable: Variable) -> Kind
        ensures { result ≡ kind_now self.now variable }
    {
        self.settled.kind_or(variable.index, variable.kind)
    }

    /// Lends what was settled to another scope.
    pub fn lend_settled(&mut self, alloc: Global) -> Settled
        ensures lent { result ≡ self.old.settled }
        ensures left { self.new ≡ record self.old { settled = [] } }
    {
        mem::replace(&mut self.settled, Settled::none(alloc))
    }

    /// Gives back what was lent.
    pub fn with_settled(&mut self, settled: Settled)
        ensures { self.new ≡ record self.old { settled = settled } }
    {
        self.settled = settled;
    }

    /// What was settled.
    pub fn settled(&self) -> &Settled
        ensures { result.now ≡ self.now.settled }
    {
        &self.settled
    }

    /// What was settled in the scope, which isn't wanted any more. It takes no memory.
    pub fn into_settled(self) -> Settled
        ensures { result ≡ self.settled }
    {
        self.settled
    }

    /// Opens a block. Without memory for it nothing changes.
    pub fn enter(&mut self, alloc: Global) -> Result<(), TypeFault>
        ensures entered { OnOk result (self.new ≡ with_block self.old) }
        ensures kept { OnErr result (self.new ≡ self.old) }
        ensures memory { IfErr result (λ why. why ≡ memory out_of_memory) }
    {
        self.blocks.push(ByName::new(alloc))?;
        Ok(())
    }

    /// Closes the innermost block, and forgets its names. It takes no memory.
    pub fn leave(&mut self)
        ensures { self.new ≡ without_block self.old }
    {
        self.blocks.pop();
    }

    /// The locals of the innermost level.
    fn innermost(&self) -> &ByName<u32>
        ensures { result.now ≡ last_or self.now.own self.now.blocks }
    {
        match self.blocks.last() {
            Some(block) => block,
            None => &self.own,
        }
    }

    /// Whether the innermost level has a local of this name.
    pub fn is_declared(&self, name: &Text) -> bool
        ensures { result ≡ is_declared self.now name.now }
    {
        self.innermost().get(name.bytes()).is_some()
    }

    /// Adds a name to the innermost level.
    fn add(&mut self, alloc: Global, name: &[u8], number: u32) -> Result<(), TypeFault>
        requires free { lookup name.now (last_or self.old.own self.old.blocks) ≡ None }
        ensures added { OnOk result
            (self.new
            ≡ record self.old {
              own = own_with self.old.blocks self.old.own (name.now, number);
              blocks = with_last
                  self.old.blocks (name.now, number);
            }) }
        ensures kept { OnErr result (self.new ≡ self.old) }
        ensures memory { IfErr result (λ why. why ≡ memory out_of_memory) }
    {
        match self.blocks.last_mut() {
            Some(block) => block.add_new(alloc, name, number),
            None => self.own.add_new(alloc, name, number),
        }
    }

    /// The number that the next local gets: how many are declared.
    pub fn next(&self) -> u32
        requires few { length self.now.locals < 2 ^ 32 }
        ensures { result ≡ length self.now.locals }
    {
        self.locals.items().len() as u32
    }

    /// Declares a local in the innermost level, and gives its number. Where it is refused, also for
    /// want of memory, nothing changes.
    pub fn declare(
        &mut self,
        alloc: Global,
        name: &Text,
        kind: Kind,
        line: u32,
    ) -> Result<u32, TypeFault>
        requires few { length self.old.locals < 2 ^ 32 }
        ensures number { IfOk result (λ number. number ≡ length self.old.locals) }
        ensures free { OnOk result (is_declared self.old name.now ≡ false) }
        ensures declared { OnOk result (self.new ≡ with_local self.old name.now kind) }
        ensures taken { IfErr result (λ why. IsFault why → is_declared self.old name.now ≡ true) }
        ensures refused { IfErr result
            (λ why. IsFault why → why ≡ typing self.old.file line Duplicate) }
        ensures kept { OnErr result (self.new ≡ self.old) }
        ensures grown { length self.new.locals ≤ length self.old.locals + 1 }
    {
        if self.is_declared(name) {
            return Err(self.wrong(line, FaultKind::Duplicate));
        }
        let number = self.next();
        if let Err(back) = self.locals.push(kind) {
            return Err(TypeFault::Memory(back.memory));
        }
        match self.add(alloc, name.bytes(), number) {
            Ok(()) => Ok(number),
            Err(why) => {
                self.locals.pop();
                Err(why)
            }
        }
    }

    /// The number of the local of this name, in the innermost block that has one.
    pub fn local(&self, name: &Text) -> Option<u32>
        ensures { result ≡ local_named self.now name.now }
    {
        let mut level = self.blocks.len();
        while level > 0 {
            level -= 1;
            if let Some(number) = self.blocks[level].get(name.bytes()) {
                return Some(*number);
            }
        }
        self.own.get(name.bytes()).copied()
    }

    /// The number of `this`: the first local of a class's statements, and of its functions that
    /// aren't static.
    pub fn this_local(&self, table: &Table) -> Option<u32>
        ensures { result ≡ this_local table.now self.now }
    {
        if self.class.is_some() && !is_static_fun(table, self.fun) {
            Some(0)
        } else {
            None
        }
    }

    /// The type of a local.
    pub fn local_kind(&self, number: u32) -> Kind
        ensures { result ≡ local_kind self.now number }
    {
        match self.locals.items().get(number as usize) {
            Some(kind) => *kind,
            None => Kind::Void,
        }
    }

    /// Whether these are the statements of a file.
    pub fn is_top(&self) -> bool
        ensures { result ≡ is_top self.now }
    {
        self.class.is_none() && self.fun.is_none()
    }

    /// Whether what is declared here is a file variable, or a member of the class.
    pub fn declares_globals(&self) -> bool
        ensures { result ≡ declares_globals self.now }
    {
        self.fun.is_none() && self.blocks.is_empty()
    }

    /// Whether what is declared here is a member of the class.
    fn declares_members(&self) -> bool
        ensures { result ≡ declares_members self.now }
    {
        self.declares_globals() && self.class.is_some()
    }

    /// Enters the arguments of a declaration: a member isn't seen in its own.
    pub fn enter_arguments(&mut self, alloc: Global, name: &Text) -> Result<(), TypeFault>
        ensures entered { OnOk result (self.new ≡ in_arguments self.old name.now) }
        ensures kept { OnErr result (self.new ≡ self.old) }
        ensures memory { IfErr result (λ why. why ≡ memory out_of_memory) }
    {
        if self.declares_members() {
            let name = name.try_clone(alloc)?;
            self.unseen.push(name)?;
        }
        Ok(())
    }

    /// Leaves the arguments of a declaration. It takes no memory.
    pub fn leave_arguments(&mut self)
        ensures { self.new ≡ behind_arguments self.old }
    {
        if !self.declares_members() {
            return;
        }
        self.unseen.pop();
    }

    /// Whether it stands in the arguments of a member of this name.
    pub fn is_unseen(&self, name: &Text) -> bool
        ensures { result ≡ is_unseen self.now name.now }
    {
        self.unseen
            .iter()
            .any(|unseen| unseen.bytes() == name.bytes())
    }

    /// The file.
    pub fn file(&self) -> u32
        ensures { result ≡ self.now.file }
    {
        self.file
    }

    /// The class, where it stands in one.
    pub fn class(&self) -> Option<u32>
        ensures { result ≡ self.now.class }
    {
        self.class
    }

    /// The function, where it stands in one.
    pub fn fun(&self) -> Option<u32>
        ensures { result ≡ self.now.fun }
    {
        self.fun
    }

    /// The file variables below this number were declared before.
    pub fn reached(&self) -> u64
        ensures { result ≡ self.now.reached }
    {
        self.reached
    }

    /// The types of all locals. It takes no memory.
    pub fn locals(self) -> List<Kind>
        ensures { result ≡ self.locals }
    {
        self.locals
    }

    /// The place of this line.
    pub fn place(&self, line: u32) -> Place
        ensures { result ≡ place_of self.now line }
    {
        Place {
            file: self.file,
            line,
        }
    }

    /// A fault at this line.
    pub fn wrong(&self, line: u32, kind: FaultKind) -> TypeFault
        ensures { result ≡ typing self.now.file line kind }
    {
        TypeFault::Typing {
            file: self.file,
            line,
            kind,
        }
    }
}
