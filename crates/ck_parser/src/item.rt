//! Functions, classes and whole files.
ghost use Rattle.std.specs.Prelude.{◌≡◌, ◌≤◌, ◌<◌, length, true, false, IfOk};
ghost use Rattle.ck_lexer.specs.declared.mark.Mark.TheVariants.{RightBrace as right_brace};
ghost use Rattle.ck_parser.specs.Items.{ReadsMember, ReadsItem, ReadsEnd, ReadsFile};
ghost use Rattle.ck_parser.specs.Items.{some_params, all_params, a_parent, a_body, at_the_end};
ghost use Rattle.parse_exprs.specs.Machine.{a_block, a_param, after_at, after_class, after_fun};
ghost use Rattle.parse_exprs.specs.Machine.{signature as a_signature};
ghost use Rattle.parse_exprs.specs.Reads.{ReadsPart};
ghost use Rattle.parse_exprs.specs.Tokens.{a_mark, has};
ghost use Rattle.ck_syntax.specs.Tree.{no_members, no_params, no_stmts};
ghost use Rattle.ck_syntax.specs.View.{members_of, params_of, stmts_of, view_class, view_fun};

use crate::stmt::{stmt, stmts};
use ck_base::{List, Text};
use ck_lexer::{Mark, Token, TokenKind, Word};
use ck_syntax::{ClassDef, File, FunDef, FunHead, Item, Member, Param, Stmt};
use parse_exprs::heap::{boxed, push, push_boxed};
use parse_exprs::tokens::{
    eat_mark, eat_word, expect_construct, expect_mark, expect_name, expect_word, first, opening_of,
};
use parse_exprs::type_name::{bracket_pairs, type_name};
use parse_exprs::{Fault, Opening, Parsed};
use std::alloc::Global;

/// Statements in braces.
fn block<'a>(alloc: Global, tokens: &'a [Token]) -> Parsed<'a, List<Stmt>>
    ensures reads { ReadsPart a_block (stmts_of no_stmts) tokens.now result }
    ensures fewer { IfOk result (λ x. length x.1.now < length tokens.now) }
{
    let open = expect_mark(tokens, Mark::LeftBrace)?;
    let (body, behind) = stmts(alloc, 1, open)?;
    let rest = expect_mark(behind, Mark::RightBrace)?;
    Ok((body, rest))
}

/// A parameter.
fn param<'a>(alloc: Global, tokens: &'a [Token]) -> Parsed<'a, Param>
    ensures reads { ReadsPart a_param (λ x. x) tokens.now result }
    ensures fewer { IfOk result (λ x. length x.1.now < length tokens.now) }
{
    let (kind, behind) = type_name(alloc, 1, tokens)?;
    let (name, after) = expect_name(alloc, behind)?;
    let (brackets, rest) = bracket_pairs(1, after)?;
    let param = Param {
        kind,
        name,
        brackets,
    };
    Ok((param, rest))
}

/// Parameters, with a comma between each two.
fn param_list<'a>(alloc: Global, tokens: &'a [Token]) -> Parsed<'a, List<Param>>
    ensures reads { ReadsPart some_params (params_of no_params) tokens.now result }
    ensures fewer { IfOk result (λ x. length x.1.now < length tokens.now) }
{
    let mut params = Vec::new(alloc);
    let (head, mut rest) = param(alloc, tokens)?;
    push(&mut params, head)?;
    while let Some(behind) = eat_mark(rest, Mark::Comma) {
        let (next, after) = param(alloc, behind)?;
        push(&mut params, next)?;
        rest = after;
    }
    Ok((List::from_vec(params), rest))
}

/// The parameters of a function, in parentheses.
fn params<'a>(alloc: Global, tokens: &'a [Token]) -> Parsed<'a, List<Param>>
    ensures reads { ReadsPart all_params (params_of no_params) tokens.now result }
    ensures fewer { IfOk result (λ x. length x.1.now < length tokens.now) }
{
    let open = expect_mark(tokens, Mark::LeftParen)?;
    if let Some(rest) = eat_mark(open, Mark::RightParen) {
        return Ok((List::from_vec(Vec::new(alloc)), rest));
    }
    let (params, behind) = param_list(alloc, open)?;
    let rest = expect_mark(behind, Mark::RightParen)?;
    Ok((params, rest))
}

/// A function, behind `fun` and `static`.
fn signature<'a>(
    alloc: Global,
    line: u32,
    is_static: bool,
    tokens: &'a [Token],
) -> Parsed<'a, FunDef>
    ensures reads { ReadsPart (a_signature line is_static) view_fun tokens.now result }
    ensures fewer { IfOk result (λ x. length x.1.now < length tokens.now) }
{
    let (kind, behind) = type_name(alloc, 0, tokens)?;
    let (name, open) = expect_name(alloc, behind)?;
    let (params, after) = params(alloc, open)?;
    let (body, rest) = block(alloc, after)?;
    let head = FunHead::Named {
        is_static,
        result: kind,
        name,
    };
    let fun = FunDef {
        line,
        head,
        params,
        body,
    };
    Ok((fun, rest))
}

/// A constructor, behind its `@`.
fn constructor<'a>(alloc: Global, line: u32, tokens: &'a [Token]) -> Parsed<'a, FunDef>
    ensures reads { ReadsPart (after_at line) view_fun tokens.now result }
    ensures fewer { IfOk result (λ x. length x.1.now < length tokens.now) }
{
    let open = expect_construct(tokens)?;
    let (params, after) = params(alloc, open)?;
    let (body, rest) = block(alloc, after)?;
    let fun = FunDef {
        line,
        head: FunHead::Construct,
        params,
        body,
    };
    Ok((fun, rest))
}

/// A function, behind `fun`.
fn fun_def<'a>(alloc: Global, line: u32, tokens: &'a [Token]) -> Parsed<'a, FunDef>
    ensures reads { ReadsPart (after_fun line) view_fun tokens.now result }
    ensures fewer { IfOk result (λ x. length x.1.now < length tokens.now) }
{
    if let Some(behind) = eat_mark(tokens, Mark::At) {
        return constructor(alloc, line, behind);
    }
    match eat_word(tokens, Word::Static) {
        Some(behind) => signature(alloc, line, true, behind),
        None => signature(alloc, line, false, tokens),
    }
}

/// The member of a class that comes next.
fn member<'a>(alloc: Global, tokens: &'a [Token]) -> Parsed<'a, Box<Member>>
    requires { has (a_mark right_brace) tokens.now ≡ false }
    ensures reads { ReadsMember tokens.now result }
    ensures fewer { IfOk result (λ x. length x.1.now < length tokens.now) }
{
    let Some((token, behind)) = first(tokens) else {
        return Err(Fault::Syntax(0));
    };
    match opening_of(token) {
        Opening::Fun => {
            let (fun, rest) = fun_def(alloc, token.line, behind)?;
            let fun = boxed(alloc, fun)?;
            Ok((boxed(alloc, Member::Fun(fun))?, rest))
        }
        _ => {
            let (stmt, rest) = stmt(alloc, 1, tokens)?;
            Ok((boxed(alloc, Member::Stmt(Box::into_inner(stmt)))?, rest))
        }
    }
}

/// The members of a class, in braces.
fn members<'a>(alloc: Global, tokens: &'a [Token]) -> Parsed<'a, List<Member>>
    ensures reads { ReadsPart a_body (members_of no_members) tokens.now result }
    ensures fewer { IfOk result (λ x. length x.1.now < length tokens.now) }
{
    let mut members = Vec::new(alloc);
    let mut rest = expect_mark(tokens, Mark::LeftBrace)?;
    loop {
        if let Some(behind) = eat_mark(rest, Mark::RightBrace) {
            return Ok((List::from_vec(members), behind));
        }
        let (member, behind) = member(alloc, rest)?;
        push_boxed(&mut members, member)?;
        rest = behind;
    }
}

/// The class that a class extends, if it names one.
fn parent<'a>(alloc: Global, tokens: &'a [Token]) -> Parsed<'a, Option<Text>>
    ensures reads { ReadsPart a_parent (λ x. x) tokens.now result }
    ensures fewer { IfOk result (λ x. length x.1.now ≤ length tokens.now) }
{
    if let Some(behind) = eat_word(tokens, Word::Extends) {
        let (name, rest) = expect_name(alloc, behind)?;
        Ok((Some(name), rest))
    } else {
        Ok((None, tokens))
    }
}

/// A class, behind `class`.
fn class_def<'a>(
    alloc: Global,
    line: u32,
    is_public: bool,
    tokens: &'a [Token],
) -> Parsed<'a, ClassDef>
    ensures reads { ReadsPart (after_class line is_public) view_class tokens.now result }
    ensures fewer { IfOk result (λ x. length x.1.now < length tokens.now) }
{
    let (name, behind) = expect_name(alloc, tokens)?;
    let (parent, open) = parent(alloc, behind)?;
    let (members, rest) = members(alloc, open)?;
    let class = ClassDef {
        line,
        is_public,
        name,
        parent,
        members,
    };
    Ok((class, rest))
}

/// The item that comes next.
fn item<'a>(alloc: Global, tokens: &'a [Token]) -> Parsed<'a, Box<Item>>
    requires { at_the_end tokens.now ≡ false }
    ensures reads { ReadsItem tokens.now result }
    ensures fewer { IfOk result (λ x. length x.1.now < length tokens.now) }
{
    let Some((token, behind)) = first(tokens) else {
        return Err(Fault::Syntax(0));
    };
    match opening_of(token) {
        Opening::Fun => {
            let (fun, rest) = fun_def(alloc, token.line, behind)?;
            let fun = boxed(alloc, fun)?;
            Ok((boxed(alloc, Item::Fun(fun))?, rest))
        }
        Opening::Class => {
            let (class, rest) = class_def(alloc, token.line, false, behind)?;
            Ok((boxed(alloc, Item::Class(class))?, rest))
        }
        Opening::Public => {
            let after = expect_word(behind, Word::Class)?;
            let (class, rest) = class_def(alloc, token.line, true, after)?;
            Ok((boxed(alloc, Item::Class(class))?, rest))
        }
        _ => {
            let (stmt, rest) = stmt(alloc, 0, tokens)?;
            Ok((boxed(alloc, Item::Stmt(Box::into_inner(stmt)))?, rest))
        }
    }
}

fn is_at_the_end(tokens: &[Token]) -> bool
    ensures { result ≡ at_the_end tokens.now }
{
    let Some((token, _)) = first(tokens) else {
        return false;
    };
    match &token.kind {
        TokenKind::End => true,
        _ => false,
    }
}

/// The end, behind which nothing stands.
fn expect_end(tokens: &[Token]) -> Result<(), Fault>
    requires { at_the_end tokens.now ≡ true }
    ensures { ReadsEnd tokens.now result }
{
    let Some((_, behind)) = first(tokens) else {
        return Err(Fault::Syntax(0));
    };
    if behind.is_empty() {
        Ok(())
    } else {
        Err(Fault::Syntax(behind.len()))
    }
}

/// The file that the tokens are.
pub fn file(alloc: Global, tokens: &[Token]) -> Result<File, Fault>
    ensures { ReadsFile tokens.now result }
{
    let mut items = Vec::new(alloc);
    let mut rest = tokens;
    while !is_at_the_end(rest) {
        let (item, behind) = item(alloc, rest)?;
        push_boxed(&mut items, item)?;
        rest = behind;
    }
    expect_end(rest)?;
    Ok(File {
        items: List::from_vec(items),
    })
}
