use ck_base::Text;

/// `Base`: a type without brackets.
#[derive(Drop)]
pub enum Base {
    /// `'int'`
    Int,
    /// `'float'`
    Float,
    /// `'dur'`
    Dur,
    /// `'time'`
    Time,
    /// `'string'`
    String,
    /// `'void'`
    Void,
    /// `Name`: a class.
    Class(Text),
}

/// `Type = Base ('[' ']')*`
#[derive(Drop)]
pub struct TypeName {
    pub base: Base,
    /// How many pairs of brackets.
    pub brackets: usize,
}

/// `DeclHead = 'static'? (Base | 'auto') '@'?`
#[derive(Drop)]
pub struct DeclHead {
    pub is_static: bool,
    /// The base; `None`: `auto` stands in its place.
    pub base: Option<Base>,
    /// Whether `@` stands behind the base or `auto`.
    pub is_reference: bool,
}
