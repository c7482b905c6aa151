// Why no survey is printed.
use head::refusals::Refusal;
use std::alloc::AllocError;
use std::fmt;

// What stood in the place of something else.
#[derive(Clone, Copy, PartialEq, Eq, Debug)]
pub enum Expected {
    Text,
    Shape,
    Height,
    Entries(usize),
    End,
}

#[derive(Clone, Copy, PartialEq, Eq, Debug)]
pub enum Fault {
    Expected { line: usize, what: Expected },
    Refused { line: usize, refusal: Refusal },
    Memory,
    Input,
    Output,
}

impl Fault {
    // A row without so many entries.
    pub(crate) fn entries(line: usize, count: usize) -> Fault {
        Fault::Expected {
            line,
            what: Expected::Entries(count),
        }
    }
}

impl From<AllocError> for Fault {
    fn from(_e: AllocError) -> Fault {
        Fault::Memory
    }
}

// Writing to a string fails for want of memory alone.
impl From<fmt::Error> for Fault {
    fn from(_e: fmt::Error) -> Fault {
        Fault::Memory
    }
}

impl fmt::Display for Expected {
    fn fmt<W: fmt::Write>(&self, f: &mut fmt::Formatter<W>) -> fmt::Result {
        match self {
            Expected::Text => write!(f, "text"),
            Expected::Shape => write!(f, "m and k"),
            Expected::Height => write!(f, "a height or ."),
            Expected::Entries(count) => write!(f, "{count} entries"),
            Expected::End => write!(f, "no more rows"),
        }
    }
}

impl fmt::Display for Fault {
    fn fmt<W: fmt::Write>(&self, f: &mut fmt::Formatter<W>) -> fmt::Result {
        match self {
            Fault::Expected { line, what } => write!(f, "line {line}: expected {what}"),
            Fault::Refused { line, refusal } => write!(f, "line {line}: {refusal}"),
            Fault::Memory => write!(f, "out of memory"),
            Fault::Input => write!(f, "cannot read the input"),
            Fault::Output => write!(f, "cannot write the output"),
        }
    }
}
