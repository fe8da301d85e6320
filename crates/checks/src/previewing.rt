// Previews of one key's versions.

use judges::{Judge, ListJudge, Oldest};
use preview::{Verdict, preview, staying};
use std::alloc::Global;
use std::process::Abort;
use std::test::Fail;

const CUTOFF: u64 = 9;

const SESSIONS: [u64; 2] = [3, 8];

const VERSIONS: [u64; 7] = [11, 9, 7, 7, 4, 2, 0];

// Verdicts, and their words.
const WORDS: [(Verdict, &str); 4] = [
    (Verdict::Newest, "newest"),
    (Verdict::Dropped, "dropped"),
    (Verdict::Kept(Some(8)), "kept for 8"),
    (Verdict::Kept(None), "kept"),
];

#[test]
fn a_thorough_judge_leaves_what_sessions_read(rt: HostRuntime) -> Result<(), Fail> {
    check_left(&rt, rt.alloc(), ListJudge::new(), &[11, 9, 7, 2])
}

#[test]
fn the_oldest_judge_leaves_all_above_the_oldest_session(rt: HostRuntime) -> Result<(), Fail> {
    check_left(&rt, rt.alloc(), Oldest::new(), &[11, 9, 7, 7, 4, 2])
}

fn check_left<J: Judge + Drop>(
    rt: &impl Abort,
    heap: Global,
    mut judge: J,
    expected: &[u64],
) -> Result<(), Fail> {
    let decisions = preview(heap, &mut judge, CUTOFF, &SESSIONS, &VERSIONS)?;
    let left = staying(heap, decisions.as_slice())?;
    assert!(rt; left.as_slice() == expected);
    Ok(())
}

#[test]
fn no_versions_leave_none(rt: HostRuntime) -> Result<(), Fail> {
    let mut judge = ListJudge::new();
    let decisions = preview(rt.alloc(), &mut judge, CUTOFF, &SESSIONS, &[])?;
    assert_eq!(rt; decisions.len(), 0);
    Ok(())
}

#[test]
fn verdicts_have_their_words(rt: HostRuntime) -> Result<(), Fail> {
    for (verdict, words) in WORDS {
        assert!(rt; verdict.to_string(rt.alloc())?.as_str() == words);
    }
    Ok(())
}
