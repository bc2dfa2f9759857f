ghost use Rattle.std.specs.Prelude.{◌≡◌, ◌<◌, ◌+◌, Some};
ghost use Rattle.waiters.specs.Lists.{waits_at, IsOpen, Changes};
ghost use Rattle.sema_root.specs.Queues.{joined_by};

use waiters::{ListKey, Lists, Wait};

/// Puts a wait at the end of its list, with lifo at the front.
#[inline]
pub(crate) fn push(lists: &mut Lists, list: ListKey, wait: Wait, lifo: bool)
    requires open { IsOpen lists.old list }
    requires fits { 0 < lists.old.room }
    ensures pushed { Changes lists.old lists.new list (Some (joined_by lifo wait (waits_at lists.old list))) }
    ensures room { lists.new.room + 1 ≡ lists.old.room }
    ensures list_room { lists.new.list_room ≡ lists.old.list_room }
{
    if lifo {
        lists.push_front(list, wait);
    } else {
        lists.push_back(list, wait);
    }
}
