//! Looking at the tokens that are left.
ghost use Rattle.std.specs.Prelude.{◌≡◌, ◌≤◌, ◌<◌, ◌⊎◌, ◌∷◌, [], length, MatchOption, IfOk, IfSome};
ghost use Rattle.ck_base.specs.declared.limits.TheConstants.{MAX_NESTING};
ghost use Rattle.ck_lexer.specs.declared.token.TokenKind.TheVariants.{Mark as mark_kind};
ghost use Rattle.ck_lexer.specs.declared.token.TokenKind.TheVariants.{Word as word_kind};
ghost use Rattle.parse_exprs.specs.declared.follow.Follow.TheVariants.{Nothing as nothing};
ghost use Rattle.parse_exprs.specs.Ahead.{GivesAtom};
ghost use Rattle.parse_exprs.specs.Reads.{Agrees, Atoms, Deepens, Eats, Expects, ExpectsBase};
ghost use Rattle.parse_exprs.specs.Reads.{ExpectsName, FindsChuck};
ghost use Rattle.parse_exprs.specs.Reads.{FindsOperator, after, begins_declared, next_follow};
ghost use Rattle.parse_exprs.specs.Tokens.{a_construct, a_mark, a_word, follow, is_sign, level};
ghost use Rattle.parse_exprs.specs.Tokens.{mark_number, opening, word_number};
ghost use Rattle.ck_syntax.specs.View.{view_kind};
ghost use Rattle.std.specs.Option.{option_map};

use crate::fault::{Fault, Parsed};
use crate::follow::Follow;
use crate::node::node;
use crate::opening::Opening;
use ck_base::Text;
use ck_base::limits::MAX_NESTING;
use ck_lexer::{Mark, Token, TokenKind, Word};
use ck_syntax::{Base, BinaryOp, ChuckOp, Constant, Expr, ExprKind, PostfixOp, PrefixOp, TimeUnit};
use fixed_point::Memory;
use std::alloc::Global;

/// The first token and those behind it.
pub fn first<'a>(tokens: &'a [Token]) -> Option<(&'a Token, &'a [Token])>
    ensures token { MatchOption result (tokens.now ≡ []) (λ x. tokens.now ≡ x.0.now ∷ x.1.now) }
    ensures fewer { IfSome result (λ x. length x.1.now < length tokens.now) }
{
    tokens.split_first()
}

fn number_of_mark(mark: Mark) -> u16
    ensures { result ≡ mark_number mark }
{
    mark as u16
}

fn number_of_word(word: Word) -> u16
    ensures { result ≡ word_number word }
{
    word as u16
}

fn is_mark(token: &Token, mark: Mark) -> bool
    ensures { result ≡ is_sign token.now.kind (a_mark mark) }
{
    match &token.kind {
        TokenKind::Mark(other) => number_of_mark(*other) == number_of_mark(mark),
        _ => false,
    }
}

fn is_word(token: &Token, word: Word) -> bool
    ensures { result ≡ is_sign token.now.kind (a_word word) }
{
    match &token.kind {
        TokenKind::Word(other) => number_of_word(*other) == number_of_word(word),
        _ => false,
    }
}

/// What stands behind this mark, if it comes next.
pub fn eat_mark<'a>(tokens: &'a [Token], mark: Mark) -> Option<&'a [Token]>
    ensures token { Eats (a_mark mark) tokens.now result }
    ensures fewer { IfSome result (λ rest. length rest.now < length tokens.now) }
{
    let (token, rest) = first(tokens)?;
    if is_mark(token, mark) {
        Some(rest)
    } else {
        None
    }
}

/// What stands behind this word, if it comes next.
pub fn eat_word<'a>(tokens: &'a [Token], word: Word) -> Option<&'a [Token]>
    ensures token { Eats (a_word word) tokens.now result }
    ensures fewer { IfSome result (λ rest. length rest.now < length tokens.now) }
{
    let (token, rest) = first(tokens)?;
    if is_word(token, word) {
        Some(rest)
    } else {
        None
    }
}

fn is_construct(token: &Token) -> bool
    ensures { result ≡ is_sign token.now.kind a_construct }
{
    match &token.kind {
        TokenKind::Name(name) => name.bytes() == b"construct".as_slice(),
        _ => false,
    }
}

/// What stands behind the name of a constructor, which has to come next.
pub fn expect_construct<'a>(tokens: &'a [Token]) -> Result<&'a [Token], Fault>
    ensures token { Expects a_construct tokens.now result }
    ensures fewer { IfOk result (λ rest. length rest.now < length tokens.now) }
{
    let Some((token, rest)) = first(tokens) else {
        return Err(Fault::Syntax(0));
    };
    if is_construct(token) {
        Ok(rest)
    } else {
        Err(Fault::Syntax(tokens.len()))
    }
}

/// What stands behind this mark, which has to come next.
pub fn expect_mark<'a>(tokens: &'a [Token], mark: Mark) -> Result<&'a [Token], Fault>
    ensures token { Expects (a_mark mark) tokens.now result }
    ensures fewer { IfOk result (λ rest. length rest.now < length tokens.now) }
{
    match eat_mark(tokens, mark) {
        Some(rest) => Ok(rest),
        None => Err(Fault::Syntax(tokens.len())),
    }
}

/// What stands behind this word, which has to come next.
pub fn expect_word<'a>(tokens: &'a [Token], word: Word) -> Result<&'a [Token], Fault>
    ensures token { Expects (a_word word) tokens.now result }
    ensures fewer { IfOk result (λ rest. length rest.now < length tokens.now) }
{
    match eat_word(tokens, word) {
        Some(rest) => Ok(rest),
        None => Err(Fault::Syntax(tokens.len())),
    }
}

/// The name that comes next.
pub fn expect_name<'a>(alloc: Global, tokens: &'a [Token]) -> Parsed<'a, Text>
    ensures token { ExpectsName tokens.now result }
    ensures fewer { IfOk result (λ x. length x.1.now < length tokens.now) }
{
    let Some((token, rest)) = first(tokens) else {
        return Err(Fault::Syntax(0));
    };
    match &token.kind {
        TokenKind::Name(name) => Ok((name.try_clone(alloc)?, rest)),
        _ => Err(Fault::Syntax(tokens.len())),
    }
}

/// The base that comes next.
pub fn expect_base<'a>(alloc: Global, tokens: &'a [Token]) -> Parsed<'a, Base>
    ensures token { ExpectsBase tokens.now result }
    ensures fewer { IfOk result (λ x. length x.1.now < length tokens.now) }
{
    let Some((token, rest)) = first(tokens) else {
        return Err(Fault::Syntax(0));
    };
    match &token.kind {
        TokenKind::Name(name) => Ok((Base::Class(name.try_clone(alloc)?), rest)),
        TokenKind::Word(Word::Int) => Ok((Base::Int, rest)),
        TokenKind::Word(Word::Float) => Ok((Base::Float, rest)),
        TokenKind::Word(Word::Dur) => Ok((Base::Dur, rest)),
        TokenKind::Word(Word::Time) => Ok((Base::Time, rest)),
        TokenKind::Word(Word::String) => Ok((Base::String, rest)),
        TokenKind::Word(Word::Void) => Ok((Base::Void, rest)),
        _ => Err(Fault::Syntax(tokens.len())),
    }
}

/// One deeper, where the next token may stand there.
pub fn deeper(depth: u32, tokens: &[Token]) -> Result<u32, Fault>
    requires { depth ≤ MAX_NESTING }
    ensures { Deepens depth tokens.now result }
{
    if depth < MAX_NESTING {
        Ok(depth + 1)
    } else {
        Err(Fault::TooDeep(tokens.len()))
    }
}

/// The kind of expression that a word is by itself.
fn word_atom(word: Word) -> Option<ExprKind>
    ensures { (line : _) → Atoms (opening line (word_kind word)) line
        (option_map (view_kind line) result) }
{
    match word {
        Word::True => Some(ExprKind::Constant(Constant::True)),
        Word::False => Some(ExprKind::Constant(Constant::False)),
        Word::Null => Some(ExprKind::Constant(Constant::Null)),
        Word::Now => Some(ExprKind::Constant(Constant::Now)),
        Word::Me => Some(ExprKind::Constant(Constant::Me)),
        Word::Dac => Some(ExprKind::Constant(Constant::Dac)),
        Word::Blackhole => Some(ExprKind::Constant(Constant::Blackhole)),
        Word::This => Some(ExprKind::Constant(Constant::This)),
        Word::Samp => Some(ExprKind::Unit(TimeUnit::Samp)),
        Word::Ms => Some(ExprKind::Unit(TimeUnit::Ms)),
        Word::Second => Some(ExprKind::Unit(TimeUnit::Second)),
        Word::Minute => Some(ExprKind::Unit(TimeUnit::Minute)),
        Word::Hour => Some(ExprKind::Unit(TimeUnit::Hour)),
        Word::Day => Some(ExprKind::Unit(TimeUnit::Day)),
        Word::Week => Some(ExprKind::Unit(TimeUnit::Week)),
        _ => None,
    }
}

/// The kind of expression that a token is by itself.
fn atom_kind(alloc: Global, token: &Token) -> Result<Option<ExprKind>, Memory>
    ensures { IfOk result (λ k. Atoms (opening token.now.line token.now.kind) token.now.line
        (option_map (view_kind token.now.line) k)) }
{
    match &token.kind {
        TokenKind::Int(value) => Ok(Some(ExprKind::Int(*value))),
        TokenKind::Float(value) => Ok(Some(ExprKind::Float(*value))),
        TokenKind::Text(value) => Ok(Some(ExprKind::Text(value.try_clone(alloc)?))),
        TokenKind::Name(name) => Ok(Some(ExprKind::Name(name.try_clone(alloc)?))),
        TokenKind::Word(word) => Ok(word_atom(*word)),
        _ => Ok(None),
    }
}

/// The expression that a token is by itself.
pub fn atom(alloc: Global, token: &Token) -> Result<Option<Box<Expr>>, Fault>
    ensures { GivesAtom token.now result }
{
    let Some(kind) = atom_kind(alloc, token)? else {
        return Ok(None);
    };
    Ok(Some(node(alloc, token.line, kind)?))
}

fn word_opening(line: u32, word: Word) -> Opening
    ensures { Agrees (opening line (word_kind word)) result }
{
    match word {
        Word::True
        | Word::False
        | Word::Null
        | Word::Now
        | Word::Me
        | Word::Dac
        | Word::Blackhole
        | Word::This
        | Word::Samp
        | Word::Ms
        | Word::Second
        | Word::Minute
        | Word::Hour
        | Word::Day
        | Word::Week => Opening::Atom,
        Word::Int | Word::Float | Word::Dur | Word::Time | Word::String | Word::Void =>
            Opening::Base,
        Word::New => Opening::New,
        Word::Spork => Opening::Spork,
        Word::Static => Opening::Static,
        Word::Auto => Opening::Auto,
        Word::If => Opening::If,
        Word::While => Opening::While,
        Word::Until => Opening::Until,
        Word::Do => Opening::Do,
        Word::For => Opening::For,
        Word::Repeat => Opening::Repeat,
        Word::Break => Opening::Break,
        Word::Continue => Opening::Continue,
        Word::Return => Opening::Return,
        Word::Fun => Opening::Fun,
        Word::Class => Opening::Class,
        Word::Public => Opening::Public,
        _ => Opening::Nothing,
    }
}

fn mark_opening(line: u32, mark: Mark) -> Opening
    ensures { Agrees (opening line (mark_kind mark)) result }
{
    match mark {
        Mark::Minus => Opening::Prefix(PrefixOp::Negate),
        Mark::Bang => Opening::Prefix(PrefixOp::Not),
        Mark::PlusPlus => Opening::Prefix(PrefixOp::Increment),
        Mark::MinusMinus => Opening::Prefix(PrefixOp::Decrement),
        Mark::LeftParen => Opening::Paren,
        Mark::LeftBracket => Opening::Array,
        Mark::LeftBrace => Opening::Block,
        Mark::Semicolon => Opening::Empty,
        Mark::PrintOpen => Opening::Print,
        _ => Opening::Nothing,
    }
}

/// What a token begins.
pub fn opening_of(token: &Token) -> Opening
    ensures { Agrees (opening token.now.line token.now.kind) result }
{
    match &token.kind {
        TokenKind::Word(word) => word_opening(token.line, *word),
        TokenKind::Mark(mark) => mark_opening(token.line, *mark),
        TokenKind::Name(_) => Opening::Name,
        TokenKind::Int(_) | TokenKind::Float(_) | TokenKind::Text(_) => Opening::Atom,
        TokenKind::End => Opening::Nothing,
    }
}

fn follow_of_mark(mark: Mark) -> Follow
    ensures { result ≡ follow (mark_kind mark) }
{
    match mark {
        Mark::LeftParen => Follow::Call,
        Mark::LeftBracket => Follow::Index,
        Mark::Dot => Follow::Member,
        Mark::PlusPlus => Follow::Postfix(PostfixOp::Increment),
        Mark::MinusMinus => Follow::Postfix(PostfixOp::Decrement),
        Mark::ColonColon => Follow::Dur,
        Mark::Dollar => Follow::Cast,
        Mark::Question => Follow::Cond,
        Mark::PipePipe => Follow::Binary(BinaryOp::OrElse),
        Mark::AmpersandAmpersand => Follow::Binary(BinaryOp::AndAlso),
        Mark::Pipe => Follow::Binary(BinaryOp::Or),
        Mark::Caret => Follow::Binary(BinaryOp::Xor),
        Mark::Ampersand => Follow::Binary(BinaryOp::And),
        Mark::EqualEqual => Follow::Binary(BinaryOp::Equal),
        Mark::BangEqual => Follow::Binary(BinaryOp::NotEqual),
        Mark::Less => Follow::Binary(BinaryOp::Less),
        Mark::Greater => Follow::Binary(BinaryOp::Greater),
        Mark::LessEqual => Follow::Binary(BinaryOp::LessEqual),
        Mark::GreaterEqual => Follow::Binary(BinaryOp::GreaterEqual),
        Mark::LessLess => Follow::Binary(BinaryOp::ShiftLeft),
        Mark::GreaterGreater => Follow::Binary(BinaryOp::ShiftRight),
        Mark::Plus => Follow::Binary(BinaryOp::Add),
        Mark::Minus => Follow::Binary(BinaryOp::Sub),
        Mark::Star => Follow::Binary(BinaryOp::Mul),
        Mark::Slash => Follow::Binary(BinaryOp::Div),
        Mark::Percent => Follow::Binary(BinaryOp::Mod),
        Mark::Chuck => Follow::Chuck(ChuckOp::Chuck),
        Mark::AtChuck => Follow::Chuck(ChuckOp::Assign),
        Mark::PlusChuck => Follow::Chuck(ChuckOp::Add),
        Mark::MinusChuck => Follow::Chuck(ChuckOp::Sub),
        Mark::StarChuck => Follow::Chuck(ChuckOp::Mul),
        Mark::SlashChuck => Follow::Chuck(ChuckOp::Div),
        Mark::PercentChuck => Follow::Chuck(ChuckOp::Mod),
        Mark::AmpersandChuck => Follow::Chuck(ChuckOp::And),
        Mark::PipeChuck => Follow::Chuck(ChuckOp::Or),
        Mark::CaretChuck => Follow::Chuck(ChuckOp::Xor),
        Mark::Unchuck => Follow::Chuck(ChuckOp::Unchuck),
        _ => Follow::Nothing,
    }
}

fn follow_of(token: &Token) -> Follow
    ensures { result ≡ follow token.now.kind }
{
    match &token.kind {
        TokenKind::Mark(mark) => follow_of_mark(*mark),
        _ => Follow::Nothing,
    }
}

/// How the next token goes on with an expression before it, and what stands behind it.
pub fn next<'a>(tokens: &'a [Token]) -> (Follow, &'a [Token])
    ensures follow { result.0 ≡ next_follow tokens.now }
    ensures behind { result.1.now ≡ after tokens.now }
    ensures fewer { result.0 ≡ nothing ⊎ (length result.1.now < length tokens.now) }
{
    match first(tokens) {
        Some((token, rest)) => (follow_of(token), rest),
        None => (Follow::Nothing, tokens),
    }
}

/// The operator of this level that comes next, and what stands behind it.
pub fn operator_at<'a>(tokens: &'a [Token], number: u32) -> Option<(BinaryOp, &'a [Token])>
    ensures token { FindsOperator number tokens.now result }
    ensures fewer { IfSome result (λ x. length x.1.now < length tokens.now) }
{
    match next(tokens) {
        (Follow::Binary(operator), behind) => {
            if level_of(operator) == number {
                Some((operator, behind))
            } else {
                None
            }
        }
        _ => None,
    }
}

/// The chuck operator that comes next, and what stands behind it.
pub fn chuck_at<'a>(tokens: &'a [Token]) -> Option<(ChuckOp, &'a [Token])>
    ensures token { FindsChuck tokens.now result }
    ensures fewer { IfSome result (λ x. length x.1.now < length tokens.now) }
{
    match next(tokens) {
        (Follow::Chuck(operator), behind) => Some((operator, behind)),
        _ => None,
    }
}

/// Whether a name or `@` comes next, so that a name before it is a base.
pub fn is_base_before(tokens: &[Token]) -> bool
    ensures { result ≡ begins_declared tokens.now }
{
    let Some((token, _)) = first(tokens) else {
        return false;
    };
    match &token.kind {
        TokenKind::Name(_) => true,
        TokenKind::Mark(Mark::At) => true,
        _ => false,
    }
}

/// The binary level of an operator, from the tightest, 0, to the loosest, 9.
pub fn level_of(operator: BinaryOp) -> u32
    ensures { result ≡ level operator }
{
    match operator {
        BinaryOp::Mul | BinaryOp::Div | BinaryOp::Mod => 0,
        BinaryOp::Add | BinaryOp::Sub => 1,
        BinaryOp::ShiftLeft | BinaryOp::ShiftRight => 2,
        BinaryOp::Less | BinaryOp::Greater | BinaryOp::LessEqual | BinaryOp::GreaterEqual => 3,
        BinaryOp::Equal | BinaryOp::NotEqual => 4,
        BinaryOp::And => 5,
        BinaryOp::Xor => 6,
        BinaryOp::Or => 7,
        BinaryOp::AndAlso => 8,
        BinaryOp::OrElse => 9,
    }
}
