//! The question about one key: the cutoff, the open sessions and the versions, as three lines of text.

#![tactic(auto)]

ghost use Rattle.std.specs.Prelude.{◌≡◌, IfErr};
ghost use Rattle.question.specs.Refused.{bad_line, only_stamp, WithinLines, IsWithinLines};

use std::alloc::Global;
use values::{Position, Refusal};

mod error;

pub use error::CaseError;

// Stamps: the versions' from the newest down.
#[derive(Drop)]
pub struct Case {
    pub cutoff: u64,
    pub sessions: Vec<u64>,
    pub versions: Vec<u64>,
}

// A line begins with its word, and has any number of stamps behind it, or at most so many.
#[derive(Clone, Copy)]
struct Form {
    line: usize,
    word: &'static str,
    most: Option<usize>,
}

const CUTOFF: Form = Form {
    line: 1,
    word: "cutoff",
    most: Some(1),
};

const SESSIONS: Form = Form {
    line: 2,
    word: "sessions",
    most: None,
};

const VERSIONS: Form = Form {
    line: 3,
    word: "versions",
    most: None,
};

// Fields count from 1; the first is the word.
const FIRST_FIELD: usize = 1;

impl Case {
    // Three lines: `cutoff` and one stamp, `sessions` and their stamps, `versions` and their stamps, which never rise.
    // A refusal names one of them, or the line that is too many.
    pub fn read(heap: Global, text: &str) -> Result<Case, CaseError>
        ensures { IfErr result (WithinLines 1 4) }
    {
        let mut lines = text.lines();
        let cutoff = only_stamp(&stamps_of(heap, lines.next(), CUTOFF)?)?;
        let sessions = stamps_of(heap, lines.next(), SESSIONS)?;
        let versions = stamps_of(heap, lines.next(), VERSIONS)?;
        refuse_rising(&versions)?;
        match lines.next() {
            None => Ok(Case {
                cutoff,
                sessions,
                versions,
            }),
            Some(_) => Err(bad_line(VERSIONS.line + 1, FIRST_FIELD).into()),
        }
    }
}

// The one stamp of the first line.
fn only_stamp(stamps: &[u64]) -> Result<u64, Refusal>
    ensures { result ≡ only_stamp stamps.now }
{
    match stamps {
        [stamp, ..] => Ok(*stamp),
        [] => Err(bad_line(CUTOFF.line, FIRST_FIELD + 1)),
    }
}

// The versions' stamps, from the newest down, never rise; else the first that does is refused.
fn refuse_rising(stamps: &[u64]) -> Result<(), Refusal>
    ensures { IfErr result (IsWithinLines 3 3) }
{
    let rise = |pair: &[u64]| matches!(pair, [newer, older] if newer < older);
    match stamps.windows(2).position(rise) {
        Some(i) => Err(bad_line(VERSIONS.line, i.saturating_add(FIRST_FIELD + 2))),
        None => Ok(()),
    }
}

// The stamps behind the first word of a line.
fn stamps_of(heap: Global, text: Option<&str>, form: Form) -> Result<Vec<u64>, CaseError>
    ensures { IfErr result (WithinLines form.line form.line) }
{
    let mut stamps = Vec::new(heap);
    let mut fields = text.unwrap_or("").split_whitespace();
    if fields.next() != Some(form.word) {
        return Err(bad_line(form.line, FIRST_FIELD).into());
    }
    for (i, field) in fields.enumerate() {
        match field.parse::<u64>() {
            Ok(stamp) if form.most.is_none_or(|most| i < most) => stamps.push(stamp)?,
            _ => return Err(bad_line(form.line, i.saturating_add(FIRST_FIELD + 1)).into()),
        }
    }
    Ok(stamps)
}

// A line that cannot be read, with its first bad field; both count from 1.
fn bad_line(line: usize, field: usize) -> Refusal
    ensures { result ≡ bad_line line field }
{
    Refusal::BadLine(Position { line, field })
}
