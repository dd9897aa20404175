// Scripts in memory.
use col_table::{ListOf, Name, Text};
use plan_ast::Query;

/// The greatest number of tables of a script.
pub const MAX_TABLES: usize = 8;

/// The greatest number of queries of a script.
pub const MAX_QUERIES: usize = 4096;

/// The greatest number of bytes of a file's name. The least is 1.
pub const MAX_FILE_BYTES: usize = 255;

/// A table of a script: the name that queries use, and the file that holds it.
#[derive(Debug, Drop)]
pub struct TableEntry {
    pub name: Name,
    pub file: Text,
}

/// What a script says: which tables there are, and which queries run over them.
#[derive(Debug, Drop)]
pub struct Script {
    /// At most 8 tables. No two names are equal.
    pub tables: ListOf<TableEntry>,

    /// At most 4,096 queries.
    pub queries: ListOf<Query>,
}
