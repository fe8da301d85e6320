// Value types and refusal numbers.

use values::{Position, Refusal, Tally};

const POSITION: Position = Position { line: 3, field: 2 };

const NUMBERS: [(Refusal, u8); 11] = [
    (Refusal::NoSuchWorker, 1),
    (Refusal::NoSuchCell, 2),
    (Refusal::SessionStage, 3),
    (Refusal::OperationStage, 4),
    (Refusal::NoOpenSession, 5),
    (Refusal::CellBusy, 6),
    (Refusal::NoFreeNode, 7),
    (Refusal::ClockAtEnd, 8),
    (Refusal::BadSizes, 9),
    (Refusal::TallyTooLarge, 12),
    (Refusal::BadLine(POSITION), 13),
];

// Numbers of bytes, and what a tally of so many counts, if it is one.
const TALLIES: [(u64, Result<u64, Refusal>); 3] = [
    (0, Ok(0)),
    (1_099_511_627_776, Ok(1_099_511_627_776)),
    (1_099_511_627_777, Err(Refusal::TallyTooLarge)),
];

#[test]
fn refusals_have_their_numbers(rt: HostRuntime) {
    for (refusal, number) in NUMBERS {
        assert_eq!(rt; refusal.number(), number);
    }
    assert_eq!(rt; Refusal::BadLine(POSITION).position(), Some(POSITION));
    assert_eq!(rt; Refusal::BadSizes.position(), None);
}

#[test]
fn a_tally_is_at_most_two_to_the_forty(rt: HostRuntime) {
    for (bytes, counted) in TALLIES {
        assert_eq!(rt; Tally::try_from(bytes).map(Tally::bytes), counted);
    }
}
