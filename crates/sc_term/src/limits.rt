//! Every limit of the language, of texts that are read back, of models and of the search: each number stands here once.

/// The bytes of an input.
pub const MAX_INPUT_BYTES: u64 = 4_194_304;

/// The clauses of a problem.
pub const MAX_INPUT_CLAUSES: usize = 10_000;

/// The weight of a clause of a problem. Its depth is limited as that of every clause is.
pub const MAX_INPUT_WEIGHT: usize = 1_000;

/// The digits of a number.
pub const MAX_DIGITS: usize = 10;

/// The symbols of a signature, `=` among them.
pub const MAX_SYMBOLS: usize = 4096;

/// The arity of a symbol.
pub const MAX_ARITY: u8 = 8;

/// The weight of a clause that is made or read back, as `IsWithinLimits` has it.
pub const MAX_WEIGHT: u32 = 10_000;

/// The depth of a clause, as `IsWithinLimits` has it.
pub const MAX_DEPTH: u32 = 256;

/// The elements of a finite model.
pub const MAX_SIZE: u8 = 8;

/// The entries of the tables that a run text may have at a size.
pub const MAX_ENTRIES: u64 = 1_048_576;

/// The entries of the tables that a model is looked for in.
pub const MAX_CELLS: u64 = 4096;

/// The instances of clauses that a model is looked for of.
pub const MAX_INSTANCES: u64 = 200_000;

/// The assignments of elements to variables by which a clause has the mark true or false.
pub const MAX_ASSIGNMENTS: u32 = 4096;

/// The items of the work of a turn.
pub const MAX_WORK: u32 = 100_000;
