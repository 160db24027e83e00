// What stops a replay, and how it is said.
use std::fmt;

// A fault of the list.
#[derive(Clone, Copy, Debug, PartialEq, Eq)]
pub enum Fault {
    Numeral,
    LineEnd,
    Space,
    Long,
    Short,
    Call,
    Changes,
    Sizes,
}

impl fmt::Display for Fault {
    // Says what is wrong.
    fn fmt<W: fmt::Write>(&self, f: &mut fmt::Formatter<W>) -> fmt::Result {
        f.write_str(match self {
            Fault::Numeral => "no decimal number of 32 bits where one is expected",
            Fault::LineEnd => "the input ends before the line does",
            Fault::Space => "neither a space nor a line end after a number",
            Fault::Long => "more numbers than a line may have",
            Fault::Short => "fewer numbers than the call, its arguments and its value",
            Fault::Call => "no call of this code takes so many arguments",
            Fault::Changes => "a change is not three numbers, or not of cells that there are",
            Fault::Sizes => "more words or slots than this program can lend",
        })
    }
}

// A number that is compared with the Rust's.
#[derive(Clone, Copy, Debug, PartialEq, Eq)]
pub enum Place {
    Number,
    Value,
    Used,
    Head(usize),
    Handle(usize),
    Word(usize),
    Audit,
}

impl fmt::Display for Place {
    // Names the number.
    fn fmt<W: fmt::Write>(&self, f: &mut fmt::Formatter<W>) -> fmt::Result {
        match self {
            Place::Number => f.write_str("number"),
            Place::Value => f.write_str("value"),
            Place::Used => f.write_str("used"),
            Place::Head(i) => write!(f, "head {i}"),
            Place::Handle(i) => write!(f, "handle {i}"),
            Place::Word(i) => write!(f, "word {i}"),
            Place::Audit => f.write_str("the audit's number"),
        }
    }
}

// A difference from the Rust: where, and both numbers.
#[derive(Clone, Copy, Debug, PartialEq, Eq)]
pub struct Difference {
    pub place: Place,
    pub ours: u32,
    pub rust: u32,
}

impl fmt::Display for Difference {
    // Says what differs.
    fn fmt<W: fmt::Write>(&self, f: &mut fmt::Formatter<W>) -> fmt::Result {
        let Difference { place, ours, rust } = self;
        write!(f, "{place} is {ours}, the Rust has {rust}")
    }
}

// What is found in a line.
#[derive(Clone, Copy, Debug, PartialEq, Eq)]
pub enum Finding {
    Faulty(Fault),
    Differs(Difference),
}

impl From<Fault> for Finding {
    // Finds a fault of the list.
    fn from(fault: Fault) -> Finding {
        Finding::Faulty(fault)
    }
}

impl From<Difference> for Finding {
    // Finds a difference from the Rust.
    fn from(difference: Difference) -> Finding {
        Finding::Differs(difference)
    }
}

impl fmt::Display for Finding {
    // Says what was found.
    fn fmt<W: fmt::Write>(&self, f: &mut fmt::Formatter<W>) -> fmt::Result {
        match self {
            Finding::Faulty(fault) => write!(f, "{fault}"),
            Finding::Differs(difference) => write!(f, "{difference}"),
        }
    }
}

// Why a replay ends before the list does.
#[derive(Clone, Copy, Debug, PartialEq, Eq)]
pub enum Stop {
    NothingRead,
    TooMuch,
    InLine(u64, Finding),
}

impl fmt::Display for Stop {
    // Says why, and in which line.
    fn fmt<W: fmt::Write>(&self, f: &mut fmt::Formatter<W>) -> fmt::Result {
        match self {
            Stop::NothingRead => f.write_str("the input is empty, or cannot be read"),
            Stop::TooMuch => f.write_str("the input is longer than this program reads"),
            Stop::InLine(line, finding) => write!(f, "line {line}: {finding}"),
        }
    }
}
