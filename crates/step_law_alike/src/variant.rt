ghost use Rattle.std.specs.Prelude.{◌≡◌};
ghost use Rattle.step_law_alike.specs.Changed.{changed_row, changed_place, plainly, changed_wait_row};
ghost use Rattle.step_law_alike.specs.Changed.{changed_list_place};

use step_table::{AcquireRow, ListPlace, Place, WaitRow};

/// A change of the step table, whose runs show what that row is for.
#[derive(Clone, Copy, Debug, Drop)]
pub enum Variant {
    /// An acquire that has raised the waiter word queues its wait without a second look at the counter.
    NoLook,
    /// An acquire raises the waiter word only after its second look at the counter.
    LateCount,
    /// A wait on a list compares its ticket with the notify word as plain numbers.
    PlainLess,
}

impl Variant {
    /// Where a row leads that by the table leads from one place to the next.
    pub fn place(self, from: Place, next: Place) -> Place
        ensures { result ≡ changed_place self from next }
    {
        match (from, next) {
            (Place::Acquiring(_, before), Place::Acquiring(acquire, row)) => {
                Place::Acquiring(acquire, self.row(before, row))
            }
            _ => next,
        }
    }

    /// The same of two rows of an acquire.
    fn row(self, from: AcquireRow, next: AcquireRow) -> AcquireRow
        ensures { result ≡ changed_row self from next }
    {
        match (self, from, next) {
            (Variant::NoLook, AcquireRow::A4, AcquireRow::A5) => AcquireRow::A7,
            (Variant::LateCount, AcquireRow::A3, AcquireRow::A4) => AcquireRow::A5,
            (Variant::LateCount, AcquireRow::A5, AcquireRow::A7) => AcquireRow::A4,
            (Variant::LateCount, AcquireRow::A4, AcquireRow::A5) => AcquireRow::A7,
            (Variant::LateCount, AcquireRow::A6(_), AcquireRow::A8) => AcquireRow::A9,
            _ => next,
        }
    }

    /// Where a row of a list leads that by the table leads from one place to the next, while the notify word
    /// is this.
    pub fn list_place(self, notify: u64, from: ListPlace, next: ListPlace) -> ListPlace
        ensures { result ≡ changed_list_place self notify from next }
    {
        let ListPlace::Waiting(ticket, row) = next else {
            return next;
        };
        let ListPlace::Waiting(held, before) = from else {
            return next;
        };
        ListPlace::Waiting(ticket, self.wait_row(held.word, notify, before, row))
    }

    /// The same of two rows of a wait with this ticket.
    fn wait_row(self, ticket: u64, notify: u64, from: WaitRow, next: WaitRow) -> WaitRow
        ensures { result ≡ changed_wait_row self ticket notify from next }
    {
        match (self, from, next) {
            (Variant::PlainLess, WaitRow::W2, WaitRow::W3 | WaitRow::W4) => plainly(ticket, notify),
            _ => next,
        }
    }
}

/// Where W2 leads if two words are compared as numbers.
fn plainly(ticket: u64, notify: u64) -> WaitRow
    ensures { result ≡ plainly ticket notify }
{
    if ticket < notify {
        WaitRow::W3
    } else {
        WaitRow::W4
    }
}
