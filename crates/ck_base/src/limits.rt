//! The limits of the language and of its machine. What is past one is refused, or is a trap.

/// Samples that the machine makes in a second.
pub const RATE: u32 = 44_100;

/// Files that one command takes.
pub const MAX_FILES: usize = 64;

/// Bytes of one source file.
pub const MAX_FILE_BYTES: usize = 1_048_576;

/// Tokens of one source file, its end among them: a token has at least one byte, the end none.
pub const MAX_FILE_TOKENS: usize = MAX_FILE_BYTES + 1;

/// Bytes of a word that names a file or a sheet.
pub const MAX_NAME_WORD_BYTES: usize = 4_096;

/// Constructs that may be open around a token.
pub const MAX_NESTING: u32 = 128;

/// Ancestors of a class, `Object` among them.
pub const MAX_ANCESTORS: u32 = 128;

/// Calls that may be active in a shred; its first function isn't counted.
pub const MAX_CALLS: usize = 1_000;

/// Turns that a shred has at one sample.
pub const FRESH_TURNS: u32 = 1_000_000;

/// Sporks that all shreds together may make at one sample.
pub const MAX_SPORKS: u32 = 4_096;

/// Bytes of a string of the language, of a name, and of a text in the source.
pub const MAX_TEXT_BYTES: usize = 65_536;

/// Items of an array.
pub const MAX_ITEMS: i64 = 1_048_576;

/// Samples that a delay line may hold back.
pub const MAX_DELAY: i64 = 1_048_576;

/// Connections between unit generators.
pub const MAX_CONNECTIONS: usize = 4_096;

/// Objects that one run may make.
pub const MAX_OBJECTS: u64 = 1 << 48;

/// Samples of one run.
pub const MAX_SAMPLES: u32 = 500_000_000;
