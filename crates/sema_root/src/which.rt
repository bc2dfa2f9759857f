ghost use Rattle.waiters.specs.Lists.{IsOpen};
ghost use Rattle.sema_root.specs.Takes.{Takes};

use waiters::{ListKey, Lists, Sought, Wait};

/// Which wait of a list is meant.
#[derive(Clone, Copy, Drop)]
pub(crate) enum Which {
    First,
    Of(Sought),
}

/// Takes the wait that is meant out of its list, if it is in. The others stay in order.
#[inline]
pub(crate) fn take(lists: &mut Lists, list: ListKey, which: Which) -> Option<Wait>
    requires open { IsOpen lists.old list }
    ensures { Takes lists.old lists.new list which result }
{
    match which {
        Which::First => lists.pop_front(list),
        Which::Of(sought) => lists.take(list, sought),
    }
}
