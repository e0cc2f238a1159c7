// The plan file's format: its marks, records and fields, what reading and writing answer, and the laws of what is written and read.
#![tactic(auto)]

ghost use Rattle.std.specs.Prelude.{◌≡◌};
ghost use Rattle.format.specs.Numbers.{Byte};
ghost use Rattle.format.specs.Format.{mark, size, in_place_of, kind_mark, kind_from};
ghost use Rattle.format.specs.Writing.{Identified};

pub mod fields;
pub mod table;

use plan::{Kind, Resource, Sense};

// The five marks, in a file's order; "a held resource has mark RH in place of RS".
#[derive(Clone, Copy, PartialEq, Eq)]
pub enum Mark {
    PL,
    RS,
    RH,
    LB,
    TK,
}

impl Mark {
    // "Each record begins with two mark bytes (ASCII)."
    pub fn bytes(self) -> [u8; table::MARK_SIZE]
        ensures { result ≡ mark self }
    {
        match self {
            Mark::PL => *b"PL",
            Mark::RS => *b"RS",
            Mark::RH => *b"RH",
            Mark::LB => *b"LB",
            Mark::TK => *b"TK",
        }
    }

    // How long the record is that the mark announces.
    pub fn size(self) -> usize
        ensures { result ≡ size self }
    {
        match self {
            Mark::PL => table::PL_SIZE,
            Mark::RS | Mark::RH => table::RS_SIZE,
            Mark::LB => table::LB_SIZE,
            Mark::TK => table::TK_SIZE,
        }
    }

    // The mark that may stand where this one is due.
    pub fn in_place(self) -> Mark
        ensures { result ≡ in_place_of self }
    {
        match self {
            Mark::RS => Mark::RH,
            mark => mark,
        }
    }
}

// The mark of a resource of such a kind, and the kind that a mark tells.
impl From<Kind> for Mark {
    ghost from_gives = { λ k r. r ≡ kind_mark k };

    fn from(kind: Kind) -> Mark {
        match kind {
            Kind::Plain => Mark::RS,
            Kind::Held => Mark::RH,
        }
    }
}

impl From<Mark> for Kind {
    ghost from_gives = { λ m r. r ≡ kind_from m };

    fn from(mark: Mark) -> Kind {
        match mark {
            Mark::RH => Kind::Held,
            _ => Kind::Plain,
        }
    }
}

// What a PL record holds: the sense byte and the two counts.
#[derive(Clone, Copy, PartialEq, Eq)]
pub struct Header {
    pub sense: u8,
    pub resources: usize,
    pub tasks: usize,
}

// What reading a plan answers: the sense and how many resources, bands and tasks there are.
#[derive(Clone, Copy, PartialEq, Eq)]
pub struct Found {
    pub sense: Sense,
    pub resources: usize,
    pub bands: usize,
    pub tasks: usize,
}

// What the round trips ask of each resource of a lent list and of each byte of a lent file, every value of the type has: these two stand for
// their promise alone. (Of a whole lent list the toolchain tells its length only.)
pub fn any_resource(q: Resource) -> Resource
    ensures { Identified q }
{
    q
}

pub fn any_byte(b: u8) -> u8
    ensures { Byte b }
{
    b
}
