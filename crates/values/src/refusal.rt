// Why a call was refused.

ghost use Rattle.std.specs.Prelude.{◌≡◌};
ghost use Rattle.values.specs.Refusals.{number_of, position_of};

use std::error::Error;
use std::fmt;

// A place in a text: both count from 1; field 0 is a line that is too long, line 0 and field 0 a text that is.
#[derive(Clone, Copy, PartialEq, Eq, Debug)]
pub struct Position {
    pub line: usize,
    pub field: usize,
}

impl fmt::Display for Position {
    ghost use Rattle.std.specs.Prelude.{Some};
    ghost use Rattle.values.specs.Wording.{position_text};

    ghost output = { λ p. Some (position_text p) };

    fn fmt<W: fmt::Write>(&self, f: &mut fmt::Formatter<W>) -> fmt::Result {
        let Position { line, field } = *self;
        write!(f, "line {line}, field {field}")
    }
}

// Every refusal of the library and its programs. A call that refuses answers one of these and changes nothing.
#[derive(Clone, Copy, PartialEq, Eq, Debug)]
pub enum Refusal {
    NoSuchWorker,
    NoSuchCell,
    SessionStage,
    OperationStage,
    NoOpenSession,
    CellBusy,
    NoFreeNode,
    ClockAtEnd,
    BadSizes,
    TallyTooLarge,
    BadLine(Position),
}

impl Refusal {
    // The number by which scripts and documents know the refusal: their format has it. A method, since a `From` for bare
    // numbers would be no plainer: it would not say what the number is.
    pub fn number(self) -> u8
        ensures { result ≡ number_of self }
    {
        match self {
            Refusal::NoSuchWorker => 1,
            Refusal::NoSuchCell => 2,
            Refusal::SessionStage => 3,
            Refusal::OperationStage => 4,
            Refusal::NoOpenSession => 5,
            Refusal::CellBusy => 6,
            Refusal::NoFreeNode => 7,
            Refusal::ClockAtEnd => 8,
            Refusal::BadSizes => 9,
            Refusal::TallyTooLarge => 12,
            Refusal::BadLine(_) => 13,
        }
    }

    // Where in the text, for the refusal that names a place.
    pub fn position(self) -> Option<Position>
        ensures { result ≡ position_of self }
    {
        match self {
            Refusal::BadLine(position) => Some(position),
            _ => None,
        }
    }
}

impl fmt::Display for Refusal {
    ghost use Rattle.std.specs.Prelude.{Some};
    ghost use Rattle.values.specs.Wording.{refusal_text};

    ghost output = { λ r. Some (refusal_text r) };

    fn fmt<W: fmt::Write>(&self, f: &mut fmt::Formatter<W>) -> fmt::Result {
        let number = self.number();
        match self.position() {
            Some(position) => write!(f, "refused {number}: {position}"),
            None => write!(f, "refused {number}"),
        }
    }
}

impl Error for Refusal {}
