//! What a checker finds.

/// All conditions hold, or the number of the first that is false.
#[derive(Clone, Copy, Debug, PartialEq, Eq)]
pub enum Finding {
    Yes,
    No(u8),
}
