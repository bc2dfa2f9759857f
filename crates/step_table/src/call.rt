use crate::group_id::GroupId;
use crate::list_id::ListId;
use waiters::CounterId;

/// How a call may give up while its seat sleeps.
#[derive(Clone, Copy, Debug, PartialEq, Eq, Drop)]
pub struct GivingUp {
    /// What becomes of a unit, or of a notification, that comes too late.
    pub late: Late,
    /// How many of the seat's next calls are left out where this one was given up.
    pub skips: u32,
}

/// What becomes of a unit, or of a notification, that comes to a seat after it has given up.
#[derive(Clone, Copy, Debug, PartialEq, Eq, Drop)]
pub enum Late {
    /// The seat keeps it: its call has what it wanted.
    Kept,
    /// The seat gives it back, by a release or by a notification of one, and has given up.
    GivenBack,
}

/// A call of a seat in a scenario.
#[derive(Clone, Copy, Debug, PartialEq, Eq, Drop)]
pub enum Call {
    /// Takes one unit, or waits for it: with lifo at the front of the list.
    Acquire(CounterId, bool),
    /// The same, but its seat may give up while it sleeps.
    AcquireOrLeave(CounterId, bool, GivingUp),
    /// Adds one unit and wakes the first wait: with handoff the unit is tried for it.
    Release(CounterId, bool),
    /// Adds this many units at once and wakes as many waits at most.
    ReleaseMany(CounterId, u32),
    /// Takes a ticket of the list.
    Add(ListId),
    /// Waits until its ticket is granted.
    Wait(ListId),
    /// The same, but its seat may give up while it sleeps.
    WaitOrLeave(ListId, GivingUp),
    /// Grants the least ticket that isn't granted.
    One(ListId),
    /// Grants all tickets that were handed out.
    All(ListId),
    /// Adds to the group's counter.
    GroupAdd(GroupId, i32),
    /// Waits until the group's counter is 0.
    GroupWait(GroupId),
    /// The same, but its seat may give up while it sleeps: so many of its next calls are left out then.
    GroupWaitOrLeave(GroupId, u32),
}
