// A decision in plain words.

ghost use Rattle.std.specs.Prelude.{◌≡◌};
ghost use Rattle.preview.specs.Verdicts.{plain_verdict, named_verdict};

use crate::Decision;
use judges::Thorough;
use std::fmt;

// The newest version, which always stays; a dropped one; one that is kept, with the stamp of the session that it is kept
// for, where the judge names one.
#[derive(Clone, Copy)]
pub enum Verdict {
    Newest,
    Dropped,
    Kept(Option<u64>),
}

impl Verdict {
    // What any judge decided. No `From`, which would be no plainer: there are two ways to word a decision.
    pub fn plain(decision: Decision) -> Verdict
        ensures { result ≡ plain_verdict decision }
    {
        match decision.newer {
            None => Verdict::Newest,
            Some(_) if decision.dropped => Verdict::Dropped,
            Some(_) => Verdict::Kept(None),
        }
    }

    // What a thorough judge decided, with the stamp for which it keeps a version.
    pub fn named<J: Thorough>(judge: &J, decision: Decision) -> Verdict
        ensures { result ≡ named_verdict (J.Judge.kind.told (J.Judge.means judge.now)) decision }
    {
        match decision.interval() {
            Some(interval) if !decision.dropped => Verdict::Kept(judge.keeping_stamp(interval)),
            _ => Verdict::plain(decision),
        }
    }
}

impl fmt::Display for Verdict {
    ghost use Rattle.std.specs.Prelude.{Some};
    ghost use Rattle.preview.specs.Verdicts.{verdict_text};

    ghost output = { λ v. Some (verdict_text v) };

    fn fmt<W: fmt::Write>(&self, f: &mut fmt::Formatter<W>) -> fmt::Result {
        match *self {
            Verdict::Newest => f.write_str("newest"),
            Verdict::Dropped => f.write_str("dropped"),
            Verdict::Kept(Some(stamp)) => write!(f, "kept for {stamp}"),
            Verdict::Kept(None) => f.write_str("kept"),
        }
    }
}
