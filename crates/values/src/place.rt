// Where the log keeps a key's value.

// A key's value is gone, or lies in a segment of the log at an offset, with a length.
//
// An enum of its own, since an `Option` would be no plainer: a version that says that the value is gone is there and
// answers reads, and a read that finds no version answers an `Option` around this.
#[derive(Clone, Copy)]
pub enum Place {
    Gone,
    At {
        segment: u64,
        offset: u64,
        length: u64,
    },
}
