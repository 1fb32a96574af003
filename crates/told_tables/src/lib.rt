// Answers of the table calls as the exported structs hand them over: create, remove, size, seek, save and load.
#![tactic(auto)]

ghost use Rattle.std.specs.Prelude.{◌≡◌};
ghost use Rattle.told_tables.specs.Tables.{changed_told, sized_told, sought_told, saved_told, loaded_told};

use files::Table;
use files::change::Changed;
use layout::Refusal;

// A table handed back; on a refusal as it came.
#[repr(C)]
#[derive(Clone, Copy, Debug, PartialEq, Eq)]
pub struct TidTable {
    pub code: i32,
    pub table: Table,
}

impl From<Changed> for TidTable {
    ghost from_gives = { λ changed told. told ≡ changed_told changed };

    fn from(changed: Changed) -> TidTable {
        TidTable {
            code: match changed.answer {
                Ok(()) => 0,
                Err(refusal) => refusal.code(),
            },
            table: changed.table,
        }
    }
}

// A loaded table; on a refusal that of no files.
impl From<Result<Table, Refusal>> for TidTable {
    ghost from_gives = { λ loaded told. told ≡ loaded_told loaded };

    fn from(loaded: Result<Table, Refusal>) -> TidTable {
        match loaded {
            Ok(table) => TidTable { code: 0, table },
            Err(refusal) => TidTable {
                code: refusal.code(),
                table: Table::empty(),
            },
        }
    }
}

#[repr(C)]
#[derive(Clone, Copy, Debug, PartialEq, Eq)]
pub struct TidSize {
    pub code: i32,
    pub size: u32,
}

impl From<Result<u32, Refusal>> for TidSize {
    ghost from_gives = { λ sized told. told ≡ sized_told sized };

    fn from(sized: Result<u32, Refusal>) -> TidSize {
        match sized {
            Ok(size) => TidSize { code: 0, size },
            Err(refusal) => TidSize {
                code: refusal.code(),
                size: 0,
            },
        }
    }
}

#[repr(C)]
#[derive(Clone, Copy, Debug, PartialEq, Eq)]
pub struct TidSeek {
    pub code: i32,
    pub position: u32,
}

impl From<Result<u32, Refusal>> for TidSeek {
    ghost from_gives = { λ sought told. told ≡ sought_told sought };

    fn from(sought: Result<u32, Refusal>) -> TidSeek {
        match sought {
            Ok(position) => TidSeek { code: 0, position },
            Err(refusal) => TidSeek {
                code: refusal.code(),
                position: 0,
            },
        }
    }
}

// How many bytes a saved table took.
#[repr(C)]
#[derive(Clone, Copy, Debug, PartialEq, Eq)]
pub struct TidSave {
    pub code: i32,
    pub length: u32,
}

impl From<Result<u32, Refusal>> for TidSave {
    ghost from_gives = { λ saved told. told ≡ saved_told saved };

    fn from(saved: Result<u32, Refusal>) -> TidSave {
        match saved {
            Ok(length) => TidSave { code: 0, length },
            Err(refusal) => TidSave {
                code: refusal.code(),
                length: 0,
            },
        }
    }
}
