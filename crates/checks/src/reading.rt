// Questions as text.

use question::{Case, CaseError};
use std::test::Fail;
use values::Position;

// What is refused, and where.
const BAD: [(&str, usize, usize); 12] = [
    ("", 1, 1),
    ("cutoff", 1, 2),
    ("cutoff 9 9", 1, 3),
    ("cutoff 9 9 x", 1, 3),
    ("cutoff nine", 1, 2),
    ("versions 9", 1, 1),
    ("cutoff 9", 2, 1),
    ("cutoff 9\nsessions 3 -8", 2, 3),
    ("cutoff 9\nsessions", 3, 1),
    ("cutoff 9\nsessions\nversions 1 18446744073709551616", 3, 3),
    ("cutoff 9\nsessions\nversions 3 9 5", 3, 3),
    ("cutoff 9\nsessions\nversions 1\nversions 0", 4, 1),
];

#[test]
fn reads_three_lines(rt: HostRuntime) -> Result<(), Fail> {
    let case = Case::read(rt.alloc(), "cutoff 9\nsessions\nversions 7 4 4\n")?;
    assert_eq!(rt; case.cutoff, 9);
    assert_eq!(rt; case.sessions.len(), 0);
    assert!(rt; case.versions.as_slice() == [7, 4, 4].as_slice());
    Ok(())
}

#[test]
fn refuses_the_first_bad_field(rt: HostRuntime) -> Result<(), Fail> {
    for (text, line, field) in BAD {
        let Err(CaseError::Refused(refusal)) = Case::read(rt.alloc(), text) else {
            return Err(Fail::new(text));
        };
        assert_eq!(rt;
            refusal.position(),
            Some(Position { line, field }),
            "{}",
            text
        );
    }
    Ok(())
}

#[test]
fn a_refusal_says_where(rt: HostRuntime) -> Result<(), Fail> {
    let Err(error) = Case::read(rt.alloc(), "cutoff 9\nsessions x") else {
        return Err(Fail::new("accepted"));
    };
    assert!(rt; error.to_string(rt.alloc())?.as_str() == "refused 13: line 2, field 2");
    Ok(())
}
