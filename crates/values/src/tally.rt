// The live bytes of a segment.

ghost use Rattle.std.specs.Prelude.{◌^◌, ◌≤◌};

// A number of bytes from 0 to 2^40.
#[derive(Clone, Copy)]
pub struct Tally {
    bytes: u64,
    ghost bounded: { bytes ≤ 2 ^ 40 },
}

mod rules;
