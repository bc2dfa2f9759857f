use waiters::ListKey;

/// A counter's list, and whether it was opened just now.
#[derive(Clone, Copy, Drop)]
pub(crate) struct Listed {
    pub(crate) list: ListKey,
    pub(crate) is_new: bool,
}
