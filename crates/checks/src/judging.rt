// Judges: the worked values, the 16th and the 17th note, new judges, and the hold.

use judges::{Hold, Judge, ListJudge, Oldest, RisingJudge, Thorough, prepare};
use stamps::Interval;
use std::process::Abort;

// An interval, whether it is dropped, and the stamp for which it is kept, at cutoff 5 with 3 noted.
const WORKED: [(u64, u64, bool, Option<u64>); 6] = [
    (2, 3, true, None),
    (4, 5, true, None),
    (5, 5, true, None),
    (3, 5, false, Some(3)),
    (3, 6, false, None),
    (6, 6, false, None),
];

#[test]
fn thorough_judges_give_the_worked_values(rt: HostRuntime) {
    check_worked(&rt, ListJudge::new());
    check_worked(&rt, RisingJudge::new());
}

fn check_worked<J: Thorough + Drop>(rt: &impl Abort, mut judge: J) {
    prepare(&mut judge, 5, &[3]);
    for (start, end, dropped, stamp) in WORKED {
        let interval = Interval { start, end };
        assert_eq!(rt; judge.ask(interval), dropped);
        assert_eq!(rt; judge.keeping_stamp(interval), stamp);
    }
}

#[test]
fn new_judges_drop_nothing(rt: HostRuntime) {
    let empty = Interval { start: 0, end: 0 };
    assert!(rt; !Oldest::new().ask(empty) && !ListJudge::new().ask(empty));
    assert!(rt; !RisingJudge::new().ask(empty) && !Hold::new(Oldest::new()).ask(empty));
}

#[test]
fn the_oldest_judge_goes_by_the_smallest_stamp(rt: HostRuntime) {
    let mut judge = Oldest::new();
    prepare(&mut judge, 9, &[8, 3, 8]);
    assert!(rt; judge.ask(Interval { start: 2, end: 3 }));
    assert!(rt; !judge.ask(Interval { start: 3, end: 4 }));
}

#[test]
fn sixteen_notes_are_kept_and_seventeen_are_too_many(rt: HostRuntime) {
    check_room(&rt, ListJudge::new());
    check_room(&rt, RisingJudge::new());
}

// Notes 16 down to 1, then one more, then a clear.
fn check_room<J: Thorough + Drop>(rt: &impl Abort, mut judge: J) {
    let first = Interval { start: 16, end: 17 };
    let wide = Interval { start: 0, end: 20 };
    judge.clear(20);
    for stamp in (1..=16).rev() {
        judge.note(stamp);
    }
    assert_eq!(rt; judge.keeping_stamp(first), Some(16));
    assert_eq!(rt; judge.keeping_stamp(wide), Some(1));
    assert!(rt; judge.ask(Interval { start: 17, end: 20 }));
    judge.note(16);
    assert_eq!(rt; judge.keeping_stamp(first), None);
    assert!(rt; !judge.ask(Interval { start: 17, end: 20 }));
    judge.clear(20);
    assert!(rt; judge.ask(wide));
}

#[test]
fn a_hold_keeps_everything_while_it_is_on(rt: HostRuntime) {
    let gone = Interval { start: 1, end: 2 };
    let mut hold = Hold::new(RisingJudge::new());
    prepare(&mut hold, 9, &[4]);
    assert!(rt; hold.ask(gone));
    hold.set(true);
    assert!(rt; !hold.ask(gone));
    prepare(&mut hold, 9, &[1]);
    hold.set(false);
    assert!(rt;
        !hold.ask(gone),
        "the judge below was told while the hold was on"
    );
}

#[test]
fn judges_state_their_places(rt: HostRuntime) {
    assert_eq!(rt; <Oldest as Judge>::PLACES, 1);
    assert_eq!(rt; <ListJudge as Judge>::PLACES, 16);
    assert_eq!(rt; <Hold<RisingJudge> as Judge>::PLACES, 16);
    assert_eq!(rt; <Hold<Oldest> as Judge>::PLACES, 1);
}
