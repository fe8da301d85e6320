// What a thorough judge remembers.

// Nothing before the first clear; then the cutoff and the stamps noted since; the cutoff alone once these were more than
// there is room for. No code reads that one; it is what the judge was told, and contracts tell it apart from nothing.
#[derive(Drop)]
pub(crate) enum Memory<S> {
    Empty,
    Notes { cutoff: u64, notes: S },
    Overfull { cutoff: u64 },
}
