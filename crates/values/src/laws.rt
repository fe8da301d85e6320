// What follows from the definitions on refusals, proved for all values.

ghost use Rattle.values.specs.Laws.{KnownByNumber, NumberTellsKind};

// It does nothing: its contract is the laws.
#[tactic(auto, using(crate::proofs::KindsApart::number_tells_kind, crate::proofs::Numbering::known_by_number))]
pub fn law_of_refusals()
    ensures kind { NumberTellsKind }
    ensures known { KnownByNumber }
{}
