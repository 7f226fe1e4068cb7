//! The second walk of a file: its statements, functions and classes in text order.
ghost use Rattle.std.specs.Prelude.{◌≡◌, ◌+◌, ◌^◌, ◌<◌, ◌≤◌, ◌∷◌, length, map, OnOk, IfOk, IfErr};
ghost use Rattle.ck_values.specs.declared.kind.Kind.TheVariants.{Void as void};
ghost use Rattle.ck_syntax.specs.Size.{stmt_size, member_size, members_size};
ghost use Rattle.ck_syntax.specs.Size.{class_size, item_size, items_size};
ghost use Rattle.ck_syntax.specs.Tree.{no_members, no_items, class_item};
ghost use Rattle.ck_syntax.specs.View.{view_stmt, view_member, members_of};
ghost use Rattle.ck_syntax.specs.View.{view_class, view_item, items_of};
ghost use Rattle.ck_typed.specs.View.{view_fun};
ghost use Rattle.check_decls.specs.Outcomes.{IsRefused};
ghost use Rattle.check_decls.specs.ProgramTyping as typing;
ghost use Rattle.program_laws.specs.Programs as definition;
ghost use Rattle.check_decls.specs.ProgramView.{view_walked};
ghost use Rattle.type_table.specs.Answer.{gives};
ghost use Rattle.type_table.specs.Table.{file_of};
ghost use Rattle.first_walk.specs.Room.{HasNumber, AreNumbered};
ghost use Rattle.fixed_point.specs.Wanting.{out_of_memory};
ghost use Rattle.type_table.specs.declared.fault.TypeFault.TheVariants.{Memory as memory};

use crate::functions::{fun_made, fun_typed, scope_with_this};
use crate::statements::statement;
use check_exprs::Scope;
use check_scope::{Settled, boxed, push, push_front};
use ck_base::List;
use ck_syntax::{ClassDef, Item, Member, Stmt};
use ck_typed::{TypedFun, TypedStmt};
use ck_values::Kind;
use first_walk::{have_statement, next_class};
use program_laws::Surroundings;
use std::alloc::Global;
use type_table::{Table, TypeFault};

/// The statements that stand in a class's braces, or in no class and no function, and the
/// functions beside them.
#[derive(Drop)]
pub(crate) struct Walked {
    statements: Vec<TypedStmt>,
    /// The scope behind the statements.
    scope: Box<Scope>,
    funs: Vec<TypedFun>,
}

impl Walked {
    /// Nothing yet.
    fn begun(alloc: Global, scope: Scope) -> Result<Walked, TypeFault>
        ensures begun { IfOk result (λ walked. view_walked walked ≡ definition.begun scope) }
        ensures memory { IfErr result (λ why. why ≡ memory out_of_memory) }
    {
        let scope = boxed(alloc, scope)?;
        Ok(Walked {
            statements: Vec::new(alloc),
            scope,
            funs: Vec::new(alloc),
        })
    }

    /// A statement that stands in no function.
    fn add_statement(&mut self, alloc: Global, table: &Table, s: &Stmt) -> Result<(), TypeFault>
        requires room { length self.old.scope.value.locals + stmt_size (view_stmt s.now) < 2 ^ 32 }
        ensures typed { OnOk result
            (typing.and_statement table.now self.old s.now ≡ gives (view_walked self.new)) }
        ensures refused { IsRefused result (typing.and_statement table.now self.old s.now) }
        ensures funs { self.new.funs ≡ self.old.funs }
        ensures grown { length self.new.scope.value.locals
            ≤ length self.old.scope.value.locals + stmt_size (view_stmt s.now) }
    {
        let around = Surroundings {
            result: None,
            in_loop: false,
        };
        let typed = statement(alloc, table, around, &mut self.scope, s)?;
        push(&mut self.statements, Box::into_inner(typed))
    }

    /// A function more.
    fn add_fun(&mut self, fun: TypedFun) -> Result<(), TypeFault>
        ensures added { OnOk result
            (view_walked self.new ≡ definition.and_fun (view_walked self.old) (view_fun fun)) }
        ensures more { OnOk result
            (length self.new.funs.items ≡ length self.old.funs.items + 1) }
        ensures scope { self.new.scope ≡ self.old.scope }
        ensures memory { IfErr result (λ why. why ≡ memory out_of_memory) }
    {
        push(&mut self.funs, fun)
    }

    /// The functions of a class more.
    fn add_funs(&mut self, mut funs: Vec<TypedFun>) -> Result<(), TypeFault>
        ensures added { OnOk result (view_walked self.new
            ≡ definition.and_funs (view_walked self.old) (map view_fun funs.items)) }
        ensures more { OnOk result
            (length self.new.funs.items ≡ length self.old.funs.items + length funs.items) }
        ensures scope { self.new.scope ≡ self.old.scope }
        ensures memory { IfErr result (λ why. why ≡ memory out_of_memory) }
    {
        self.funs.append(&mut funs)?;
        Ok(())
    }

    /// The number of the next function, where the first has this one.
    fn next_number(&self, first: u32) -> u32
        requires few { first + length self.now.funs.items < 2 ^ 32 }
        ensures { result ≡ first + length (view_walked self.now).funs }
    {
        first + self.funs.len() as u32
    }

    /// The number of the next function of a file. That of its statements comes first.
    fn next_fun(&self, table: &Table, file: u32) -> u32
        requires few { (file_of table.now file).main + 1 + length self.now.funs.items < 2 ^ 32 }
        ensures { result ≡ definition.next_fun table.now file (view_walked self.now) }
    {
        self.next_number(table.main_of(file) + 1)
    }

    /// What stands directly in the braces of a class, whose functions are numbered from the first
    /// on.
    fn add_member(
        &mut self,
        alloc: Global,
        table: &Table,
        file: u32,
        class: u32,
        first: u32,
        member: &Member,
    ) -> Result<(), TypeFault>
        requires room { length self.old.scope.value.locals
            + member_size (view_member member.now) < 2 ^ 32 }
        requires numbers { first + length self.old.funs.items
            + member_size (view_member member.now) < 2 ^ 32 }
        ensures typed { OnOk result
            (typing.and_member table.now file class first self.old member.now
            ≡ gives (view_walked self.new)) }
        ensures refused { IsRefused result
            (typing.and_member table.now file class first self.old member.now) }
        ensures grown { length self.new.scope.value.locals
            ≤ length self.old.scope.value.locals + member_size (view_member member.now) }
        ensures more { OnOk result (length self.new.funs.items
            ≤ length self.old.funs.items + member_size (view_member member.now)) }
    {
        match member {
            Member::Fun(fun) => {
                let number = self.next_number(first);
                let lent = self.scope.lend_settled(alloc);
                let class = Some(class);
                let (typed, settled) = fun_typed(alloc, table, file, class, number, lent, fun)?;
                self.scope.with_settled(settled);
                self.add_fun(typed)
            }
            Member::Stmt(s) => self.add_statement(alloc, table, s),
        }
    }

    /// An item of a file. This is its number where it is a class.
    fn add_item(
        &mut self,
        alloc: Global,
        table: &Table,
        file: u32,
        class: u32,
        item: &Item,
    ) -> Result<(), TypeFault>
        requires numbered { HasNumber table.now file class (view_item item.now) }
        requires room { length self.old.scope.value.locals
            + item_size (view_item item.now) < 2 ^ 32 }
        requires numbers { (file_of table.now file).main + 1 + length self.old.funs.items
            + item_size (view_item item.now) < 2 ^ 32 }
        ensures typed { OnOk result
            (typing.and_item table.now file self.old item.now ≡ gives (view_walked self.new)) }
        ensures refused { IsRefused result (typing.and_item table.now file self.old item.now) }
        ensures grown { length self.new.scope.value.locals
            ≤ length self.old.scope.value.locals + item_size (view_item item.now) }
        ensures more { OnOk result (length self.new.funs.items
            ≤ length self.old.funs.items + item_size (view_item item.now)) }
    {
        match item {
            Item::Class(def) => {
                let first = self.next_fun(table, file);
                let lent = self.scope.lend_settled(alloc);
                let (funs, settled) = class_typed(alloc, table, file, class, first, lent, def)?;
                self.scope.with_settled(settled);
                self.add_funs(funs)
            }
            Item::Fun(fun) => {
                let number = self.next_fun(table, file);
                let lent = self.scope.lend_settled(alloc);
                let (typed, settled) = fun_typed(alloc, table, file, None, number, lent, fun)?;
                self.scope.with_settled(settled);
                self.add_fun(typed)
            }
            Item::Stmt(s) => self.add_statement(alloc, table, s),
        }
    }

    /// The functions, behind that of the statements, of whose locals so many are parameters.
    fn behind_statements(self, params: u32, line: u32) -> Result<Vec<TypedFun>, TypeFault>
        ensures made { IfOk result (λ all. map view_fun all.items
            ≡ definition.fun_made params void line (view_walked self).stated
            ∷ (view_walked self).funs) }
        ensures more { IfOk result (λ all. length all.items ≡ length self.funs.items + 1) }
        ensures memory { IfErr result (λ why. why ≡ memory out_of_memory) }
    {
        let Walked {
            statements,
            scope,
            mut funs,
        } = self;
        let body = List::from_vec(statements);
        let scope = Box::into_inner(scope);
        push_front(&mut funs, fun_made(params, Kind::Void, line, body, scope))?;
        Ok(funs)
    }

    /// The functions of a class. That of the statements in its braces comes first, where there are
    /// any; its one parameter is `this`.
    fn class_funs(self, has_body: bool, line: u32) -> Result<Vec<TypedFun>, TypeFault>
        ensures made { IfOk result (λ all. map view_fun all.items
            ≡ definition.class_funs has_body line (view_walked self)) }
        ensures more { IfOk result (λ all. length all.items ≤ length self.funs.items + 1) }
        ensures memory { IfErr result (λ why. why ≡ memory out_of_memory) }
    {
        if has_body {
            self.behind_statements(1, line)
        } else {
            Ok(self.funs)
        }
    }

    /// The types that declarations with `auto` gave to the file variables.
    pub(crate) fn settled(&self) -> &[(u32, Kind)]
        ensures { result.now ≡ definition.settled_by (view_walked self.now) }
    {
        self.scope.settled().all()
    }

    /// The functions of a file. That of its statements comes first.
    pub(crate) fn file_funs(self) -> Result<Vec<TypedFun>, TypeFault>
        ensures made { IfOk result
            (λ all. map view_fun all.items ≡ definition.file_funs (view_walked self)) }
        ensures memory { IfErr result (λ why. why ≡ memory out_of_memory) }
    {
        self.behind_statements(0, 1)
    }
}

/// The members of a class, whose functions are numbered from the first on.
fn members_typed(
    alloc: Global,
    table: &Table,
    file: u32,
    class: u32,
    first: u32,
    settled: Settled,
    members: &[Member],
) -> Result<Walked, TypeFault>
    requires room { members_size (members_of no_members members.now) + 1 < 2 ^ 32 }
    requires numbers { first + members_size (members_of no_members members.now) < 2 ^ 32 }
    ensures typed { IfOk result
        (λ w. typing.members table.now file class first settled members.now
        ≡ gives (view_walked w)) }
    ensures kept { IfOk result (λ w. w.scope.value.settled ≡ settled) }
    ensures refused { IsRefused result
        (typing.members table.now file class first settled members.now) }
    ensures more { IfOk result (λ w. length w.funs.items
        ≤ members_size (members_of no_members members.now)) }
{
    let mut walked = Walked::begun(alloc, scope_with_this(alloc, file, class, None, settled)?)?;
    for member in members {
        walked.add_member(alloc, table, file, class, first, member)?;
    }
    Ok(walked)
}

/// The number of the first function in a class's text. That of the statements in its braces comes
/// before it, where there are any.
fn first_method(has_body: bool, first: u32) -> u32
    requires few { first + 1 < 2 ^ 32 }
    ensures is { result ≡ definition.first_method has_body first }
    ensures next { result ≤ first + 1 }
{
    if has_body { first + 1 } else { first }
}

/// The functions of a class of this number, numbered from the first on.
fn class_typed(
    alloc: Global,
    table: &Table,
    file: u32,
    class: u32,
    first: u32,
    settled: Settled,
    def: &ClassDef,
) -> Result<(Vec<TypedFun>, Settled), TypeFault>
    requires numbered { HasNumber table.now file class (class_item (view_class def.now)) }
    requires room { class_size (view_class def.now) < 2 ^ 32 }
    requires numbers { first + class_size (view_class def.now) < 2 ^ 32 }
    ensures typed { IfOk result
        (λ made. typing.class_typed table.now file first settled def.now
        ≡ gives (map view_fun made.0.items)) }
    ensures settled { IfOk result (λ made. made.1 ≡ settled) }
    ensures refused { IsRefused result
        (typing.class_typed table.now file first settled def.now) }
    ensures more { IfOk result (λ made. length made.0.items ≤ class_size (view_class def.now)) }
{
    let members = def.members.items();
    let has_body = have_statement(members);
    let first = first_method(has_body, first);
    let mut walked = members_typed(alloc, table, file, class, first, settled, members)?;
    let settled = walked.scope.lend_settled(alloc);
    Ok((walked.class_funs(has_body, def.line)?, settled))
}

/// The items of a file, whose classes are numbered from the first on.
pub(crate) fn items_typed(
    alloc: Global,
    table: &Table,
    file: u32,
    first: u32,
    items: &[Item],
) -> Result<Walked, TypeFault>
    requires numbered { AreNumbered table.now file first items.now }
    requires few { first + items_size (items_of no_items items.now) < 2 ^ 32 }
    requires room { items_size (items_of no_items items.now) < 2 ^ 32 }
    requires numbers { (file_of table.now file).main + 1
        + items_size (items_of no_items items.now) < 2 ^ 32 }
    ensures typed { IfOk result
        (λ w. typing.items table.now file items.now ≡ gives (view_walked w)) }
    ensures refused { IsRefused result (typing.items table.now file items.now) }
{
    let mut walked = Walked::begun(
        alloc,
        Scope::new(alloc, file, None, None, Settled::none(alloc)),
    )?;
    let mut class = first;
    for item in items {
        walked.add_item(alloc, table, file, class, item)?;
        class = next_class(class, item);
    }
    Ok(walked)
}
