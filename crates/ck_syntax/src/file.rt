use crate::declaration::TypeName;
use crate::stmt::Stmt;
use ck_base::{List, Text};

/// `File = Item* End`
#[derive(Drop)]
pub struct File {
    pub items: List<Item>,
}

/// `Item = ClassDef | FunDef | Stmt`
#[derive(Drop)]
pub enum Item {
    /// `ClassDef`
    Class(ClassDef),
    /// `FunDef`
    Fun(Box<FunDef>),
    /// `Stmt`
    Stmt(Stmt),
}

/// `ClassDef = 'public'? 'class' Name ('extends' Name)? '{' (FunDef | Stmt)* '}'`
#[derive(Drop)]
pub struct ClassDef {
    /// The line of its first token.
    pub line: u32,
    pub is_public: bool,
    pub name: Text,
    pub parent: Option<Text>,
    pub members: List<Member>,
}

/// What stands directly in the braces of a class: `FunDef | Stmt`.
#[derive(Drop)]
pub enum Member {
    /// `FunDef`
    Fun(Box<FunDef>),
    /// `Stmt`
    Stmt(Stmt),
}

/// `FunDef = 'fun' ('static'? Type Name | '@' 'construct') '(' (Par (',' Par)*)? ')' Block`
#[derive(Drop)]
pub struct FunDef {
    /// The line of its first token.
    pub line: u32,
    pub head: FunHead,
    pub params: List<Param>,
    /// The statements of its block.
    pub body: List<Stmt>,
}

/// What stands between `fun` and the parameters.
#[derive(Drop)]
pub enum FunHead {
    /// `'static'? Type Name`
    Named {
        is_static: bool,
        result: TypeName,
        name: Text,
    },
    /// `'@' 'construct'`: a constructor.
    Construct,
}

/// `Par = Type Name ('[' ']')*`
#[derive(Drop)]
pub struct Param {
    pub kind: TypeName,
    pub name: Text,
    /// How many pairs of brackets stand behind the name.
    pub brackets: usize,
}
