//! What a notification granted.
ghost use Rattle.std.specs.Prelude.{◌≡◌};
ghost use Rattle.notify_list.specs.Notifying.{ticket_of};

/// A ticket that was granted.
#[derive(Clone, Copy, PartialEq, Eq, Drop)]
pub struct Notified {
    pub ticket: u64,
    /// The seat of its wait, which was granted too; none where the wait wasn't queued yet.
    pub seat: Option<u16>,
}

/// All tickets that weren't granted were.
#[derive(Clone, Copy, PartialEq, Eq, Drop)]
pub struct NotifiedAll {
    /// How many these are.
    pub tickets: u32,
    /// How many of their waits were queued, which were granted too: the caller's room begins with their seats,
    /// in the order of their waits.
    pub waits: usize,
}

/// The ticket that was granted, if one was.
pub(crate) fn ticket_of_answer(notified: &Option<Notified>) -> Option<u64>
    ensures { result ≡ ticket_of notified.now }
{
    match notified {
        Some(notified) => Some(notified.ticket),
        None => None,
    }
}

/// The lock of the list stayed held, and nothing was granted.
#[derive(Clone, Copy, Debug, PartialEq, Eq, Drop)]
pub struct Busy;
