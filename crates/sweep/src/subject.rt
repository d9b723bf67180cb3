// What is compared, and how a comparison fails.
use std::alloc::{AllocError, AllocFailed};
use std::fmt;

#[derive(Clone, Copy, Debug, PartialEq, Eq)]
pub(crate) enum Subject {
    Encoding,
    HardWord,
    LevelWord,
    Erasures,
    HardAndLevel,
    TwoHard,
    Tally,
    Distance,
    Leader,
}

impl Subject {
    // A difference in this, unless what was compared is right.
    pub(crate) fn agrees_if(self, right: bool) -> Result<(), Subject> {
        if right { Ok(()) } else { Err(self) }
    }
}

impl fmt::Display for Subject {
    fn fmt<W: fmt::Write>(&self, f: &mut fmt::Formatter<W>) -> fmt::Result {
        f.write_str(match self {
            Subject::Encoding => "encoding",
            Subject::HardWord => "decoding of a hard word",
            Subject::LevelWord => "decoding of a level word",
            Subject::Erasures => "decoding with erasures",
            Subject::HardAndLevel => "decoding of a hard word and a level word",
            Subject::TwoHard => "decoding of two hard words",
            Subject::Tally => "tally or noise figure",
            Subject::Distance => "distance",
            Subject::Leader => "leader",
        })
    }
}

// Why a code is not compared to the end.
#[derive(Clone, Copy)]
pub(crate) enum Fault {
    Differs(Subject),
    Memory(AllocError),
}

impl From<Subject> for Fault {
    fn from(what: Subject) -> Fault {
        Fault::Differs(what)
    }
}

impl From<AllocError> for Fault {
    fn from(error: AllocError) -> Fault {
        Fault::Memory(error)
    }
}

impl<T: Drop> From<AllocFailed<T>> for Fault {
    fn from(failed: AllocFailed<T>) -> Fault {
        Fault::Memory(failed.into())
    }
}
