/// `ChuckOp`: the operators that join the operands of an expression, loosest of all.
#[derive(Clone, Copy, PartialEq, Eq)]
pub enum ChuckOp {
    /// `=>`
    Chuck,
    /// `@=>`
    Assign,
    /// `+=>`
    Add,
    /// `-=>`
    Sub,
    /// `*=>`
    Mul,
    /// `/=>`
    Div,
    /// `%=>`
    Mod,
    /// `&=>`
    And,
    /// `|=>`
    Or,
    /// `^=>`
    Xor,
    /// `=<`
    Unchuck,
}

/// The operators of the ten binary levels.
#[derive(Clone, Copy, PartialEq, Eq)]
pub enum BinaryOp {
    /// `||`
    OrElse,
    /// `&&`
    AndAlso,
    /// `|`
    Or,
    /// `^`
    Xor,
    /// `&`
    And,
    /// `==`
    Equal,
    /// `!=`
    NotEqual,
    /// `<`
    Less,
    /// `>`
    Greater,
    /// `<=`
    LessEqual,
    /// `>=`
    GreaterEqual,
    /// `<<`
    ShiftLeft,
    /// `>>`
    ShiftRight,
    /// `+`
    Add,
    /// `-`
    Sub,
    /// `*`
    Mul,
    /// `/`
    Div,
    /// `%`
    Mod,
}

/// The operators before their operand.
#[derive(Clone, Copy, PartialEq, Eq)]
pub enum PrefixOp {
    /// `-`
    Negate,
    /// `!`
    Not,
    /// `++`
    Increment,
    /// `--`
    Decrement,
}

/// The operators behind their operand that take nothing else.
#[derive(Clone, Copy, PartialEq, Eq)]
pub enum PostfixOp {
    /// `++`
    Increment,
    /// `--`
    Decrement,
}

/// The words that are expressions by themselves.
#[derive(Clone, Copy, PartialEq, Eq)]
pub enum Constant {
    /// `true`
    True,
    /// `false`
    False,
    /// `null`
    Null,
    /// `now`
    Now,
    /// `me`
    Me,
    /// `dac`
    Dac,
    /// `blackhole`
    Blackhole,
    /// `this`
    This,
}

/// The unit words: durations by name.
#[derive(Clone, Copy, PartialEq, Eq)]
pub enum TimeUnit {
    /// `samp`
    Samp,
    /// `ms`
    Ms,
    /// `second`
    Second,
    /// `minute`
    Minute,
    /// `hour`
    Hour,
    /// `day`
    Day,
    /// `week`
    Week,
}
