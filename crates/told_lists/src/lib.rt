// Answers of the list calls as the exported structs hand them over: index of a position, lookup, visit and list check.
#![tactic(auto)]

ghost use Rattle.std.specs.Prelude.{◌≡◌};
ghost use Rattle.told_lists.specs.Lists.{place_told, found_told, place_asked, next_told, begun_told, step_told, fault_told, checked_told};

use audit::Fault;
use ctz::Found;
use ctz::visit::{Step, Visit};
use layout::{Place, Refusal};

#[repr(C)]
#[derive(Clone, Copy, Debug, PartialEq, Eq)]
pub struct TidIndex {
    pub code: i32,
    pub index: u32,
    pub offset: u32,
}

impl From<Result<Place, Refusal>> for TidIndex {
    ghost from_gives = { λ place told. told ≡ place_told place };

    fn from(place: Result<Place, Refusal>) -> TidIndex {
        match place {
            Ok(Place { index, offset }) => TidIndex {
                code: 0,
                index,
                offset,
            },
            Err(refusal) => TidIndex {
                code: refusal.code(),
                index: 0,
                offset: 0,
            },
        }
    }
}

#[repr(C)]
#[derive(Clone, Copy, Debug, PartialEq, Eq)]
pub struct TidFind {
    pub code: i32,
    pub block: u32,
    pub offset: u32,
    pub hops: u32,
}

impl From<Result<Found, Refusal>> for TidFind {
    ghost from_gives = { λ found told. told ≡ found_told found };

    fn from(found: Result<Found, Refusal>) -> TidFind {
        match found {
            Ok(found) => TidFind {
                code: 0,
                block: found.block,
                offset: found.offset,
                hops: found.hops,
            },
            Err(refusal) => TidFind {
                code: refusal.code(),
                block: 0,
                offset: 0,
                hops: 0,
            },
        }
    }
}

// A visit's place; `held` is 0 or not.
#[repr(C)]
#[derive(Clone, Copy, Debug, PartialEq, Eq)]
pub struct TidPlace {
    pub index: u32,
    pub block: u32,
    pub held: u32,
    pub after: u32,
}

// Where no visit goes on.
const NOWHERE: TidPlace = TidPlace {
    index: 0,
    block: 0,
    held: 0,
    after: 0,
};

impl From<TidPlace> for Visit {
    ghost from_gives = { λ place visit. visit ≡ place_asked place };

    fn from(place: TidPlace) -> Visit {
        Visit {
            index: place.index,
            block: place.block,
            after: (place.held != 0).then_some(place.after),
        }
    }
}

impl From<Visit> for TidPlace {
    ghost from_gives = { λ visit place. place ≡ next_told visit };

    fn from(visit: Visit) -> TidPlace {
        let (held, after) = match visit.after {
            Some(after) => (1, after),
            None => (0, 0),
        };
        TidPlace {
            index: visit.index,
            block: visit.block,
            held,
            after,
        }
    }
}

// How a visit begins: `more` is 1 where the list has blocks, and `place` is where to go on.
#[repr(C)]
#[derive(Clone, Copy, Debug, PartialEq, Eq)]
pub struct TidVisit {
    pub code: i32,
    pub more: u32,
    pub place: TidPlace,
}

impl From<Result<Option<Visit>, Refusal>> for TidVisit {
    ghost from_gives = { λ begun told. told ≡ begun_told begun };

    fn from(begun: Result<Option<Visit>, Refusal>) -> TidVisit {
        match begun {
            Ok(Some(visit)) => TidVisit {
                code: 0,
                more: 1,
                place: visit.into(),
            },
            Ok(None) => TidVisit {
                code: 0,
                more: 0,
                place: NOWHERE,
            },
            Err(refusal) => TidVisit {
                code: refusal.code(),
                more: 0,
                place: NOWHERE,
            },
        }
    }
}

// A step of a visit: the block handed over; `more` is 1 where indexes are left, and `place` is where to go on.
#[repr(C)]
#[derive(Clone, Copy, Debug, PartialEq, Eq)]
pub struct TidStep {
    pub code: i32,
    pub block: u32,
    pub more: u32,
    pub place: TidPlace,
}

impl From<Result<Step, Refusal>> for TidStep {
    ghost from_gives = { λ step told. told ≡ step_told step };

    fn from(step: Result<Step, Refusal>) -> TidStep {
        match step {
            Ok(Step { block, next }) => {
                let (more, place) = match next {
                    Some(visit) => (1, visit.into()),
                    None => (0, NOWHERE),
                };
                TidStep {
                    code: 0,
                    block,
                    more,
                    place,
                }
            }
            Err(refusal) => TidStep {
                code: refusal.code(),
                block: 0,
                more: 0,
                place: NOWHERE,
            },
        }
    }
}

// The first fault of a list: kind 0 is none; 1 a number not below the block count, 2 a number met before, 3 a further pointer that disagrees, 4 an empty
// list whose head is not null.
#[repr(C)]
#[derive(Clone, Copy, Debug, PartialEq, Eq)]
pub struct TidCheck {
    pub code: i32,
    pub kind: u32,
    pub index: u32,
    pub pointer: u32,
}

impl From<Fault> for TidCheck {
    ghost from_gives = { λ fault told. told ≡ fault_told fault };

    fn from(fault: Fault) -> TidCheck {
        let (kind, index, pointer) = match fault {
            Fault::NotBelow { index, pointer } => (1, index, pointer),
            Fault::MetBefore { index, pointer } => (2, index, pointer),
            Fault::Disagrees { index, pointer } => (3, index, pointer),
            Fault::NotNull { index, pointer } => (4, index, pointer),
        };
        TidCheck {
            code: 0,
            kind,
            index,
            pointer,
        }
    }
}

impl From<Result<Option<Fault>, Refusal>> for TidCheck {
    ghost from_gives = { λ checked told. told ≡ checked_told checked };

    fn from(checked: Result<Option<Fault>, Refusal>) -> TidCheck {
        match checked {
            Ok(Some(fault)) => fault.into(),
            Ok(None) => TidCheck {
                code: 0,
                kind: 0,
                index: 0,
                pointer: 0,
            },
            Err(refusal) => TidCheck {
                code: refusal.code(),
                kind: 0,
                index: 0,
                pointer: 0,
            },
        }
    }
}
