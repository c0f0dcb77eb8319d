// What a request answers that isn't refused.
#[derive(Clone, Copy, PartialEq, Eq, Debug)]
pub enum Done {
    // A block was taken.
    Taken,
    // No free block is long enough, and nothing has changed.
    NoRoom,
    // A block was given back.
    Given,
    // A cell of a row was set.
    Set,
    // The shelf was mended.
    Saved,
}
