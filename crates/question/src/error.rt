// Why a question cannot be answered.

use std::alloc::AllocFailed;
use std::error::Error;
use std::fmt;
use values::Refusal;

#[derive(Clone, Copy, Debug)]
pub enum CaseError {
    Refused(Refusal),
    NoMemory,
}

impl From<Refusal> for CaseError {
    ghost use Rattle.std.specs.Prelude.{◌≡◌};
    ghost use Rattle.question.specs.declared.error.CaseError.TheVariants.{Refused};

    ghost from_gives = { λ refusal r. r ≡ Refused refusal };

    fn from(refusal: Refusal) -> CaseError {
        CaseError::Refused(refusal)
    }
}

impl<T: Drop> From<AllocFailed<T>> for CaseError {
    ghost use Rattle.std.specs.Prelude.{◌≡◌};
    ghost use Rattle.question.specs.declared.error.CaseError.TheVariants.{NoMemory};

    ghost from_gives = { λ _ r. r ≡ NoMemory };

    fn from(_: AllocFailed<T>) -> CaseError {
        CaseError::NoMemory
    }
}

impl fmt::Display for CaseError {
    ghost use Rattle.std.specs.Prelude.{Some};
    ghost use Rattle.question.specs.Wording.{error_text};

    ghost output = { λ e. Some (error_text e) };

    fn fmt<W: fmt::Write>(&self, f: &mut fmt::Formatter<W>) -> fmt::Result {
        match self {
            CaseError::NoMemory => f.write_str("no memory"),
            CaseError::Refused(why) => write!(f, "{why}"),
        }
    }
}

impl Error for CaseError {}
