/// The marks of the language, each with its spelling.
#[derive(Clone, Copy, PartialEq, Eq)]
pub enum Mark {
    /// `=>`
    Chuck,
    /// `@=>`
    AtChuck,
    /// `+=>`
    PlusChuck,
    /// `-=>`
    MinusChuck,
    /// `*=>`
    StarChuck,
    /// `/=>`
    SlashChuck,
    /// `%=>`
    PercentChuck,
    /// `&=>`
    AmpersandChuck,
    /// `|=>`
    PipeChuck,
    /// `^=>`
    CaretChuck,
    /// `=<`
    Unchuck,
    /// `++`
    PlusPlus,
    /// `--`
    MinusMinus,
    /// `+`
    Plus,
    /// `-`
    Minus,
    /// `*`
    Star,
    /// `/`
    Slash,
    /// `%`
    Percent,
    /// `::`
    ColonColon,
    /// `==`
    EqualEqual,
    /// `!=`
    BangEqual,
    /// `<`
    Less,
    /// `>`
    Greater,
    /// `<=`
    LessEqual,
    /// `>=`
    GreaterEqual,
    /// `&&`
    AmpersandAmpersand,
    /// `||`
    PipePipe,
    /// `&`
    Ampersand,
    /// `|`
    Pipe,
    /// `^`
    Caret,
    /// `<<`
    LessLess,
    /// `>>`
    GreaterGreater,
    /// `<<<`
    PrintOpen,
    /// `>>>`
    PrintClose,
    /// `!`
    Bang,
    /// `~`
    Tilde,
    /// `?`
    Question,
    /// `:`
    Colon,
    /// `;`
    Semicolon,
    /// `,`
    Comma,
    /// `.`
    Dot,
    /// `(`
    LeftParen,
    /// `)`
    RightParen,
    /// `[`
    LeftBracket,
    /// `]`
    RightBracket,
    /// `{`
    LeftBrace,
    /// `}`
    RightBrace,
    /// `@`
    At,
    /// `$`
    Dollar,
}
