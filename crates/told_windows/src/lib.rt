// Answers of the window calls and of a growth as the exported structs hand them over.
#![tactic(auto)]

ghost use Rattle.std.specs.Prelude.{◌≡◌};
ghost use Rattle.told_windows.specs.Windows.{replied_told, allocated_told, grew_told};

use grow::Grown;
use layout::Refusal;
use window::{Lookahead, Windowed};

// A window handed back; on a refusal as it came, and that of zeros where none came.
#[repr(C)]
#[derive(Clone, Copy, Debug, PartialEq, Eq)]
pub struct TidWindow {
    pub code: i32,
    pub window: Lookahead,
}

impl From<Windowed<Result<(), Refusal>>> for TidWindow {
    ghost from_gives = { λ reply told. told ≡ replied_told reply };

    fn from(reply: Windowed<Result<(), Refusal>>) -> TidWindow {
        TidWindow {
            code: match reply.answer {
                Ok(()) => 0,
                Err(refusal) => refusal.code(),
            },
            window: reply.window,
        }
    }
}

// The block taken, and the window after it.
#[repr(C)]
#[derive(Clone, Copy, Debug, PartialEq, Eq)]
pub struct TidAlloc {
    pub code: i32,
    pub block: u32,
    pub window: Lookahead,
}

impl From<Windowed<Result<u32, Refusal>>> for TidAlloc {
    ghost from_gives = { λ allocated told. told ≡ allocated_told allocated };

    fn from(allocated: Windowed<Result<u32, Refusal>>) -> TidAlloc {
        let window = allocated.window;
        match allocated.answer {
            Ok(block) => TidAlloc {
                code: 0,
                block,
                window,
            },
            Err(refusal) => TidAlloc {
                code: refusal.code(),
                block: 0,
                window,
            },
        }
    }
}

// The new last block of a list, where its data goes on, and the window after the growth.
#[repr(C)]
#[derive(Clone, Copy, Debug, PartialEq, Eq)]
pub struct TidExtend {
    pub code: i32,
    pub block: u32,
    pub offset: u32,
    pub window: Lookahead,
}

impl From<Windowed<Result<Grown, Refusal>>> for TidExtend {
    ghost from_gives = { λ grew told. told ≡ grew_told grew };

    fn from(grew: Windowed<Result<Grown, Refusal>>) -> TidExtend {
        let window = grew.window;
        match grew.answer {
            Ok(Grown { block, offset }) => TidExtend {
                code: 0,
                block,
                offset,
                window,
            },
            Err(refusal) => TidExtend {
                code: refusal.code(),
                block: 0,
                offset: 0,
                window,
            },
        }
    }
}
