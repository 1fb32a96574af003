// Answers of the calls on a file as the exported structs hand them over: read, stretch, write and truncate.
#![tactic(auto)]

ghost use Rattle.std.specs.Prelude.{◌≡◌};
ghost use Rattle.told_files.specs.Contents.{read_told, placed_told, stored_told};

use files::Table;
use layout::Refusal;
use reading::Part;
use store::Stored;
use window::Lookahead;

// How many bytes were read.
#[repr(C)]
#[derive(Clone, Copy, Debug, PartialEq, Eq)]
pub struct TidRead {
    pub code: i32,
    pub length: u32,
}

impl From<Result<u32, Refusal>> for TidRead {
    ghost from_gives = { λ length told. told ≡ read_told length };

    fn from(length: Result<u32, Refusal>) -> TidRead {
        match length {
            Ok(length) => TidRead { code: 0, length },
            Err(refusal) => TidRead {
                code: refusal.code(),
                length: 0,
            },
        }
    }
}

// A part of the image: its first byte and its length.
#[repr(C)]
#[derive(Clone, Copy, Debug, PartialEq, Eq)]
pub struct TidStretch {
    pub code: i32,
    pub place: u32,
    pub length: u32,
}

impl From<Result<Part, Refusal>> for TidStretch {
    ghost from_gives = { λ part told. told ≡ placed_told part };

    fn from(part: Result<Part, Refusal>) -> TidStretch {
        match part {
            Ok(Part { place, length }) => TidStretch {
                code: 0,
                place,
                length,
            },
            Err(refusal) => TidStretch {
                code: refusal.code(),
                place: 0,
                length: 0,
            },
        }
    }
}

// Window and table after a call that changes a file.
#[repr(C)]
#[derive(Clone, Copy, Debug, PartialEq, Eq)]
pub struct TidStore {
    pub code: i32,
    pub window: Lookahead,
    pub table: Table,
}

impl From<Stored> for TidStore {
    ghost from_gives = { λ stored told. told ≡ stored_told stored };

    fn from(stored: Stored) -> TidStore {
        TidStore {
            code: match stored.answer {
                Ok(()) => 0,
                Err(refusal) => refusal.code(),
            },
            window: stored.window,
            table: stored.table,
        }
    }
}
