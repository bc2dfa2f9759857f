//! What a seat does between rows: it begins a call, or goes on with what comes after a row.

ghost use Rattle.std.specs.Prelude.{◌≡◌, ◌↔◌, ◌<◌, ◌+◌, ◌^◌, ℕ, List, IsTrue, length};
ghost use Rattle.step_table.specs.declared.entry.Entry.{Entry as Told};
ghost use Rattle.step_table.specs.declared.list_place.Ticket.{Ticket as Held};
ghost use Rattle.step_table.specs.declared.place.Acquire.{Acquire as Begun};
ghost use Rattle.step_table.specs.declared.place.Place.{Place as From};
ghost use Rattle.step_table.specs.Steps.{moved};
ghost use Rattle.step_table.specs.CoreSteps.{calls, goes_on, after_counter, after_list, after_group, stands};
ghost use Rattle.step_table.specs.CoreSteps.{at_counter};
ghost use Rattle.step_table.specs.CoreSteps.{may_give_up, leaving, given_up, given_up_after, gives_up};
ghost use Rattle.step_table.specs.CoreSteps.{comes_late, ends_given_up, closes, looks_again, staying};
ghost use Rattle.step_table.specs.CoreSteps.{may_give_up_on_list};
ghost use Rattle.step_table.specs.CoreSteps.{leaving_list, gives_up_on_list, comes_late_on_list};
ghost use Rattle.step_table.specs.CoreSteps.{ends_given_up_on_list, closes_on_list};
ghost use Rattle.step_core.specs.State.{Becomes, HasSeat, HasListSeat, MayBegin, MayGoOn, core_of};

use crate::machine::WholeMachine;
use step_table::{
    Acquire, AcquireRow, After, AllRow, Call, Ending, GivingUp, GroupId, GroupNext, GroupRow, Late,
    ListId, ListParkedRow, ListPlace, ManyRow, OneRow, ParkedRow, Place, Release, ReleaseMany,
    ReleaseRow, Standing, WaitRow,
};
use waiters::{CounterId, SeatId};

/// Where a seat goes that stands there and gives up.
fn leaving(place: Place) -> Place
    ensures { result ≡ leaving place }
{
    match place {
        Place::Acquiring(acquire, AcquireRow::Parked(turn, _)) => {
            Place::Acquiring(acquire, AcquireRow::Parked(turn, ParkedRow::D2))
        }
        _ => place,
    }
}

/// The same on a list.
fn leaving_list(place: ListPlace) -> ListPlace
    ensures { result ≡ leaving_list place }
{
    match place {
        ListPlace::Waiting(ticket, WaitRow::Parked(_)) => {
            ListPlace::Waiting(ticket, WaitRow::Parked(ListParkedRow::E1))
        }
        _ => place,
    }
}

/// Where a seat goes that stands there, with its wait queued, and sleeps on.
fn staying(place: Place) -> Place
    ensures { result ≡ staying place }
{
    match place {
        Place::Acquiring(acquire, AcquireRow::Parked(turn, ParkedRow::D3)) => {
            Place::Acquiring(acquire, AcquireRow::Parked(turn, ParkedRow::D5))
        }
        _ => place,
    }
}

/// Whether a seat that stood at this place before its row has withdrawn its wait.
fn has_withdrawn(place: &Place) -> bool
    ensures { IsTrue result ↔ ((a : Begun) × (place.now ≡ Place.Acquiring a AcquireRow.D4)) }
{
    matches!(*place, Place::Acquiring(_, AcquireRow::D4))
}

/// The same on a list, where its ticket has gone.
fn has_left(place: &ListPlace) -> bool
    ensures { IsTrue result ↔ ((t : Held) × (place.now ≡ ListPlace.Waiting t WaitRow.E4)) }
{
    matches!(*place, ListPlace::Waiting(_, WaitRow::E4))
}

/// How a call ends that is given up.
fn given_up(ending: Ending) -> Ending
    ensures { result ≡ given_up ending }
{
    match ending {
        Ending::MayGiveUp(how) => Ending::GaveUp(how),
        _ => ending,
    }
}

/// What comes after a call on a counter that is given up.
fn given_up_after(after: After) -> After
    ensures { result ≡ given_up_after after }
{
    match after {
        After::Closes(ending) => After::Closes(given_up(ending)),
        After::LooksAgain(group, ending) => After::LooksAgain(group, given_up(ending)),
        After::Releases(_, _) => after,
    }
}

/// How a wait on a group ends that may be given up, where so many of the seat's next calls are left out then.
fn may_leave_out(skips: u32) -> Ending
    ensures { result ≡ Ending.MayGiveUp (record { late = Late.Kept; skips = skips }) }
{
    Ending::MayGiveUp(GivingUp {
        late: Late::Kept,
        skips,
    })
}

impl WholeMachine {
    /// The seat begins this call: that is no step.
    pub fn call(&mut self, seat: SeatId, call: Call)
        requires seat { HasSeat self.old seat }
        requires call { MayBegin self.old seat call }
        ensures { Becomes (λ m s. calls s seat call) self.old self.new }
    {
        match call {
            Call::Acquire(counter, lifo) => self.acquire(seat, counter, lifo, Ending::NextCall),
            Call::AcquireOrLeave(counter, lifo, how) => {
                self.acquire(seat, counter, lifo, Ending::MayGiveUp(how));
            }
            Call::Release(counter, handoff) => {
                let place = Place::Releasing(Release { counter, handoff }, ReleaseRow::R1);
                self.at_counter(seat, place, After::Closes(Ending::NextCall));
            }
            Call::ReleaseMany(counter, units) => {
                let place = Place::ReleasingMany(ReleaseMany { counter, units }, ManyRow::M1);
                self.at_counter(seat, place, After::Closes(Ending::NextCall));
            }
            Call::Add(list) => self.at_list(seat, list, ListPlace::Adding, Ending::NextCall),
            Call::Wait(list) => self.wait_on_list(seat, list, Ending::NextCall),
            Call::WaitOrLeave(list, how) => self.wait_on_list(seat, list, Ending::MayGiveUp(how)),
            Call::One(list) => {
                let place = ListPlace::NotifyingOne(0, OneRow::O1);
                self.at_list(seat, list, place, Ending::NextCall);
            }
            Call::All(list) => {
                let place = ListPlace::NotifyingAll(0, AllRow::L1);
                self.at_list(seat, list, place, Ending::NextCall);
            }
            Call::GroupAdd(group, delta) => {
                self.stand(seat, Standing::AtGroup(group, GroupRow::G1(delta)));
            }
            Call::GroupWait(group) => self.wait_on_group(seat, group, Ending::NextCall),
            Call::GroupWaitOrLeave(group, skips) => {
                self.wait_on_group(seat, group, may_leave_out(skips));
            }
        }
    }

    /// The seat is to acquire a unit, and its call ends so.
    fn acquire(&mut self, seat: SeatId, counter: CounterId, lifo: bool, ending: Ending)
        requires { HasSeat self.old seat }
        ensures { Becomes (λ m s. at_counter s seat
            (Place.Acquiring (record { counter = counter; lifo = lifo }) AcquireRow.A1) (After.Closes ending)) self.old self.new }
    {
        let place = Place::Acquiring(Acquire { counter, lifo }, AcquireRow::A1);
        self.at_counter(seat, place, After::Closes(ending));
    }

    /// The seat is to wait on the group, and its wait ends so.
    fn wait_on_group(&mut self, seat: SeatId, group: GroupId, ending: Ending)
        requires { HasSeat self.old seat }
        ensures { Becomes (λ m s. stands s seat (Standing.AtGroup group (GroupRow.V1 ending))) self.old self.new }
    {
        self.stand(seat, Standing::AtGroup(group, GroupRow::V1(ending)));
    }

    /// Whether the seat is to run the first row of an acquire.
    pub fn is_to_acquire(&self, seat: SeatId) -> bool
        requires { HasSeat self.now seat }
        ensures { (journal : List Told) → IsTrue result ↔ ((a : Begun)
            × (((core_of self.now journal).semaphores.seats seat).place ≡ Place.Acquiring a AcquireRow.A1)) }
    {
        matches!(
            self.semaphores.place(seat),
            Place::Acquiring(_, AcquireRow::A1)
        )
    }

    /// The seat gives up its call on a counter, of which it is to run the first row: that is no step.
    pub fn give_up(&mut self, seat: SeatId)
        requires { HasSeat self.old seat }
        ensures { Becomes (λ m s. stands (record s { semaphores = moved s.semaphores seat Place.Rest })
            seat Standing.Rest) self.old self.new }
    {
        self.move_on_counters(seat, Place::Rest);
        self.stand(seat, Standing::Rest);
    }

    /// Whether the seat sleeps in a call that may give up.
    pub(crate) fn may_give_up(&self, seat: SeatId, after: &After) -> bool
        requires there { seat < length self.now.semaphores.callers }
        requires grant { seat < length self.now.semaphores.stored.grants }
        ensures { (journal : List Told) → result ≡ may_give_up (core_of self.now journal).semaphores seat after.now }
    {
        match *after {
            After::Closes(Ending::MayGiveUp(_)) | After::LooksAgain(_, Ending::MayGiveUp(_)) => {
                self.semaphores.is_asleep(seat)
            }
            _ => false,
        }
    }

    /// The seat, which sleeps, gives up its call.
    pub(crate) fn give_up_on_counter(&mut self, seat: SeatId, after: After)
        requires seat { HasSeat self.old seat }
        ensures { Becomes (λ m s. gives_up s seat after) self.old self.new }
    {
        let place = leaving(self.semaphores.place(seat));
        self.at_counter(seat, place, given_up_after(after));
    }

    /// The seat has given up, and comes by a unit: it keeps it, or gives it back by a release.
    fn comes_late(&mut self, seat: SeatId, counter: CounterId, how: GivingUp)
        requires { HasSeat self.old seat }
        ensures { Becomes (λ m s. comes_late s seat counter how.skips how.late) self.old self.new }
    {
        match how.late {
            Late::Kept => self.stand(seat, Standing::Rest),
            Late::GivenBack => {
                let release = Release {
                    counter,
                    handoff: false,
                };
                let place = Place::Releasing(release, ReleaseRow::R1);
                self.at_counter(seat, place, After::Closes(Ending::GivesBack(how.skips)));
            }
        }
    }

    /// The seat has given up, and its call ends after a row at this place.
    fn end_given_up(&mut self, seat: SeatId, how: GivingUp, before: &Place)
        requires { HasSeat self.old seat }
        ensures { Becomes (λ m s. ends_given_up s seat how before.now) self.old self.new }
    {
        if has_withdrawn(before) {
            self.stand(seat, Standing::Left(how.skips));
        } else {
            self.comes_late(seat, before.counter(), how);
        }
    }

    /// The seat's own call on a counter has ended, after a row at this place.
    fn close(&mut self, seat: SeatId, ending: Ending, before: &Place)
        requires { HasSeat self.old seat }
        ensures { Becomes (λ m s. closes s seat ending before.now) self.old self.new }
    {
        match ending {
            Ending::NextCall | Ending::MayGiveUp(_) => self.stand(seat, Standing::Rest),
            Ending::GaveUp(how) => self.end_given_up(seat, how, before),
            Ending::GivesBack(skips) => self.stand(seat, Standing::Left(skips)),
        }
    }

    /// The seat's wait on the group has ended, after a row at this place: it has withdrawn, or looks again.
    fn look_again(&mut self, seat: SeatId, group: GroupId, ending: Ending, before: &Place)
        requires { HasSeat self.old seat }
        ensures { Becomes (λ m s. looks_again s seat group ending before.now) self.old self.new }
    {
        let last = Standing::AtGroup(group, GroupRow::V3(ending));
        match ending {
            Ending::GaveUp(how) if has_withdrawn(before) => {
                self.stand(seat, Standing::Left(how.skips));
            }
            _ => self.stand(seat, last),
        }
    }

    /// A call of the seat on a counter has ended, after a row at this place: what comes after it.
    fn go_on(&mut self, seat: SeatId, after: After, before: &Place)
        requires seat { HasSeat self.old seat }
        requires group { MayGoOn self.old after }
        ensures { Becomes (λ m s. goes_on m s seat after before.now) self.old self.new }
    {
        match after {
            After::Closes(ending) => self.close(seat, ending, before),
            After::LooksAgain(group, ending) => self.look_again(seat, group, ending, before),
            After::Releases(group, more) => self.release(seat, group, more),
        }
    }

    /// After a row that found the seat's wait queued: in a wait on a group it looks at the group's word.
    fn settle_queued(&mut self, seat: SeatId, after: After)
        requires { HasSeat self.old seat }
        ensures { (a : Begun) (turn : ℕ) (before : From)
            → Becomes (λ m s. after_counter m s seat after before (Place.Acquiring a (AcquireRow.Parked turn ParkedRow.D3)))
            self.old self.new }
    {
        match after {
            After::LooksAgain(group, ending) => self.look_where_queued(seat, group, ending),
            After::Closes(_) | After::Releases(_, _) => {}
        }
    }

    /// The same of a wait on the group, which ends so.
    fn look_where_queued(&mut self, seat: SeatId, group: GroupId, ending: Ending)
        requires { HasSeat self.old seat }
        ensures { (a : Begun) (turn : ℕ) (before : From)
            → Becomes (λ m s. after_counter m s seat (After.LooksAgain group ending) before
            (Place.Acquiring a (AcquireRow.Parked turn ParkedRow.D3))) self.old self.new }
    {
        if let Ending::GaveUp(how) = ending {
            self.stand(seat, Standing::AtGroup(group, GroupRow::V4(how)));
        }
    }

    /// After a row on a counter that led from this place.
    pub(crate) fn settle_on_counter(&mut self, seat: SeatId, after: After, before: Place)
        requires seat { HasSeat self.old seat }
        requires group { MayGoOn self.old after }
        ensures { Becomes (λ m s. after_counter m s seat after before
            (s.semaphores.seats seat).place) self.old self.new }
    {
        match self.semaphores.place(seat) {
            Place::Rest => self.go_on(seat, after, &before),
            Place::Acquiring(_, AcquireRow::A3) => {
                if let After::Closes(Ending::GaveUp(how)) = after {
                    self.move_on_counters(seat, Place::Rest);
                    self.stand(seat, Standing::Left(how.skips));
                }
            }
            Place::Acquiring(_, AcquireRow::Parked(_, ParkedRow::D3)) => {
                self.settle_queued(seat, after);
            }
            _ => {}
        }
    }

    /// Whether the seat sleeps on the list in a call that may give up.
    pub(crate) fn may_give_up_on_list(&self, seat: SeatId, list: ListId, ending: &Ending) -> bool
        requires { HasListSeat self.now list seat }
        ensures { (journal : List Told)
            → result ≡ may_give_up_on_list ((core_of self.now journal).lists list) seat ending.now }
    {
        match *ending {
            Ending::MayGiveUp(_) => self.lists[list.number() as usize].is_asleep(seat),
            _ => false,
        }
    }

    /// The seat, which sleeps on the list, gives up its call.
    pub(crate) fn give_up_on_list(&mut self, seat: SeatId, list: ListId, ending: Ending)
        requires seat { HasSeat self.old seat }
        requires list { HasListSeat self.old list seat }
        ensures { Becomes (λ m s. gives_up_on_list s seat list ending) self.old self.new }
    {
        let place = leaving_list(self.lists[list.number() as usize].place(seat));
        self.at_list(seat, list, place, given_up(ending));
    }

    /// The seat has given up, and its ticket was granted: it keeps that, or makes a notification of one.
    fn come_late_on_list(&mut self, seat: SeatId, list: ListId, how: GivingUp)
        requires seat { HasSeat self.old seat }
        requires list { HasListSeat self.old list seat }
        ensures { Becomes (λ m s. comes_late_on_list s seat list how.skips how.late) self.old self.new }
    {
        match how.late {
            Late::Kept => self.stand(seat, Standing::Rest),
            Late::GivenBack => {
                let place = ListPlace::NotifyingOne(0, OneRow::O1);
                self.at_list(seat, list, place, Ending::GivesBack(how.skips));
            }
        }
    }

    /// The seat has given up, and its call on the list ends after a row at this place.
    fn end_given_up_on_list(
        &mut self,
        seat: SeatId,
        list: ListId,
        how: GivingUp,
        before: &ListPlace,
    )
        requires seat { HasSeat self.old seat }
        requires list { HasListSeat self.old list seat }
        ensures { Becomes (λ m s. ends_given_up_on_list s seat list how before.now) self.old self.new }
    {
        if has_left(before) {
            self.stand(seat, Standing::Left(how.skips));
        } else {
            self.come_late_on_list(seat, list, how);
        }
    }

    /// The seat's call on the list has ended, after a row at this place.
    fn close_on_list(&mut self, seat: SeatId, list: ListId, ending: Ending, before: &ListPlace)
        requires seat { HasSeat self.old seat }
        requires list { HasListSeat self.old list seat }
        ensures { Becomes (λ m s. closes_on_list s seat list ending before.now) self.old self.new }
    {
        match ending {
            Ending::NextCall | Ending::MayGiveUp(_) => self.stand(seat, Standing::Rest),
            Ending::GaveUp(how) => self.end_given_up_on_list(seat, list, how, before),
            Ending::GivesBack(skips) => self.stand(seat, Standing::Left(skips)),
        }
    }

    /// After a row on the list that led from this place.
    pub(crate) fn settle_on_list(
        &mut self,
        seat: SeatId,
        list: ListId,
        ending: Ending,
        before: ListPlace,
    )
        requires seat { HasSeat self.old seat }
        requires list { HasListSeat self.old list seat }
        ensures { Becomes (λ m s. after_list s seat list ending before ((s.lists list).seats seat).place)
            self.old self.new }
    {
        if let ListPlace::Rest = self.lists[list.number() as usize].place(seat) {
            self.close_on_list(seat, list, ending, &before);
        }
    }

    /// The seat has given up, and its wait is queued: it sleeps on.
    fn sleep_on(&mut self, seat: SeatId, group: GroupId, how: GivingUp)
        requires { HasSeat self.old seat }
        ensures { Becomes (λ m s. after_group m s seat group (GroupNext.SleepsOn how)) self.old self.new }
    {
        let place = staying(self.semaphores.place(seat));
        self.at_counter(seat, place, After::LooksAgain(group, Ending::GaveUp(how)));
    }

    /// After a row of the group.
    pub(crate) fn settle_on_group(&mut self, seat: SeatId, group: GroupId, next: GroupNext)
        requires seat { HasSeat self.old seat }
        requires group { self.old.semaphores.stored.own + group < 2 ^ 32 }
        ensures { Becomes (λ m s. after_group m s seat group next) self.old self.new }
    {
        match next {
            GroupNext::Ends => self.stand(seat, Standing::Rest),
            GroupNext::Goes(row) => self.stand(seat, Standing::AtGroup(group, row)),
            GroupNext::Fails(misuse) => self.stand(seat, Standing::Failed(misuse)),
            GroupNext::Acquires(ending) => {
                let acquire = Acquire {
                    counter: self.semaphore(group),
                    lifo: false,
                };
                let place = Place::Acquiring(acquire, AcquireRow::A1);
                self.at_counter(seat, place, After::LooksAgain(group, ending));
            }
            GroupNext::Releases(releases) => self.release(seat, group, releases),
            GroupNext::SleepsOn(how) => self.sleep_on(seat, group, how),
            GroupNext::Withdraws(how) => {
                let after = After::LooksAgain(group, Ending::GaveUp(how));
                self.stand(seat, Standing::AtCounter(after));
            }
        }
    }
}
