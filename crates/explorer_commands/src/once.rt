//! One acquire that sleeps and one release that wakes it, by the calls of the running table.

ghost use Rattle.std.specs.Prelude.{◌≡◌, ◌<◌, length, ◌↔◌, false, IsTrue, IfOk, IfErr, OnErr, IfSome, IsErr};
ghost use Rattle.std.specs.Prelude.{string_bytes};
ghost use Rattle.explorer_answers.specs.Told.{TellsAll, TellsBeginning};
ghost use Rattle.explorer_commands.specs.Once.{AreOnceSettings, IsOnceTable, IsOnceRun, IsReleased, IsGranted};
ghost use Rattle.explorer_commands.specs.Once.{IsAwakened};
ghost use Rattle.explorer_commands.specs.OnceText.{IsOnceText, IsOnceAnswer};

use crate::once_answers::{OnceAnswers, OnceRetried, Released};
use explorer_answers::{Answer, Exit, IoFault, Sink, tell};
use sema_table::{
    Entered, Polled, Posted, Seat, SemaTable, Settings, SetupError, Sleeping, Tried, Woken,
};
use std::alloc::{AllocError, Global};
use std::sync::Wait;
use waiters::{CounterId, NoMemory};

/// One counter at 0, alone at its root, and two seats, each of which may release once.
///
/// It is an `Err` where memory is short.
fn once_settings(alloc: Global) -> Result<Settings, AllocError>
    ensures { IfOk result AreOnceSettings }
{
    Ok(Settings {
        starts: vec![in alloc; 0]?,
        seats: 2,
        roots: 1,
        seed: 1,
        release_limit: 1,
    })
}

/// A table with these settings, which refuses them for want of memory alone, and its two seats.
///
/// It is an `Err` where memory is short.
fn once_table(alloc: Global) -> Result<(SemaTable, Seat, Seat), NoMemory>
    ensures { IfOk result (λ made. IsOnceTable made.0 made.1 made.2) }
{
    let (table, mut seats) = match SemaTable::new(alloc, once_settings(alloc)?) {
        Ok(made) => made,
        Err(SetupError::NoMemory) => return Err(NoMemory),
        Err(_) => unreachable!(),
    };
    let second = seats.pop().unwrap();
    let first = seats.pop().unwrap();
    Ok((table, first, second))
}

/// The release of seat 1.
fn release<R: Wait>(rt: &R, table: &SemaTable, seat: Seat) -> Released
    requires table { (seat.table ≡ table.now) × (0 < length table.now.setting.starts) }
    requires left { 0 < seat.left }
    ensures { IsReleased seat result }
{
    match table.post(seat, CounterId::new(0)) {
        Ok(Posted::Done(_)) => Released::Done,
        Ok(Posted::Owes(owing)) => Released::Owed(table.wake(rt, owing, false).1),
        Err(_) => unreachable!(),
    }
}

/// Polls until something is granted: whether the seat was woken, or else handed a unit.
fn poll_on<R: Wait>(rt: &R, table: &SemaTable, sleeping: Sleeping) -> Option<Woken>
    requires { sleeping.table ≡ table.now }
    ensures table { IfSome result (λ woken. woken.table ≡ table.now) }
    ensures granted { IsGranted sleeping result }
{
    let mut sleeping = sleeping;
    for _ in rt.forever() {
        sleeping = match table.poll(sleeping) {
            Polled::Still(sleeping) => sleeping,
            Polled::Woken(woken) => return Some(woken),
            Polled::Handed(_) => return None,
        };
    }
    unreachable!()
}

/// Lets a seat sleep until it has its unit: none can be let go before.
fn sleep_on<R: Wait>(rt: &R, table: &SemaTable, sleeping: Sleeping)
    requires { sleeping.table ≡ table.now }
{
    let mut sleeping = sleeping;
    for _ in rt.forever() {
        let Some(woken) = poll_on(rt, table, sleeping) else {
            return;
        };
        sleeping = match table.retry(rt, woken) {
            Entered::Taken(_) => return,
            Entered::Asleep(sleeping) => sleeping,
        };
    }
    unreachable!()
}

/// The retry of seat 0, once it was woken. There is none where it was handed a unit.
fn retry<R: Wait>(rt: &R, table: &SemaTable, sleeping: Sleeping) -> Option<OnceRetried>
    requires { sleeping.table ≡ table.now }
    ensures { IsAwakened sleeping result }
{
    let woken = poll_on(rt, table, sleeping)?;
    match table.retry(rt, woken) {
        Entered::Taken(_) => Some(OnceRetried::Taken),
        Entered::Asleep(sleeping) => {
            sleep_on(rt, table, sleeping);
            Some(OnceRetried::Asleep)
        }
    }
}

/// The acquire of seat 0, and while that sleeps the release of seat 1.
fn run_once<R: Wait>(rt: &R, table: &SemaTable, first: Seat, second: Seat) -> OnceAnswers
    requires first { (first.table ≡ table.now) × (0 < length table.now.setting.starts) }
    requires second { (second.table ≡ table.now) × (0 < second.left) }
    ensures { IsOnceRun first second result }
{
    let mut first = first;
    match table.try_acquire(&mut first, CounterId::new(0)) {
        Tried::Zero => {}
        tried => return OnceAnswers::Tried(tried),
    }
    match table.enter(rt, first, CounterId::new(0), false) {
        Entered::Taken(_) => OnceAnswers::Entered,
        Entered::Asleep(sleeping) => {
            let released = release(rt, table, second);
            OnceAnswers::Slept(released, retry(rt, table, sleeping))
        }
    }
}

/// The lines of `parklot once`, whole: each tells what a call of the running table answered.
///
/// It is an `Err` where memory is short.
pub fn once_text<R: Wait>(rt: &R, alloc: Global) -> Result<String, NoMemory>
    ensures { IfOk result (λ text. IsOnceText (string_bytes text)) }
{
    let (table, first, second) = once_table(alloc)?;
    let answers = run_once(rt, &table, first, second);
    Ok(format!(in alloc; "{answers}")?)
}

/// What `once` answers: its lines, and that nothing bad was found.
///
/// It is an `Err` where memory is short.
fn once_answer<R: Wait>(rt: &R, alloc: Global) -> Result<Answer, NoMemory>
    ensures { IfOk result (λ answer. IsOnceAnswer (string_bytes answer.text) answer.exit) }
{
    Ok(Answer {
        text: once_text(rt, alloc)?,
        exit: Exit::NothingBad,
    })
}

/// Runs `parklot once`: writes its lines, or the refusal alone where memory is short.
///
/// It is an `Err` where a write fails. The text is whole before the first write.
pub fn once_io<R: Wait, S: Sink>(rt: &R, alloc: Global, out: &mut S) -> Result<Exit, IoFault>
    requires { S.has_failed out.old ≡ false }
    ensures whole { IfOk result (TellsAll IsOnceAnswer (S.contents out.old) (S.contents out.new)) }
    ensures begun { OnErr result (TellsBeginning IsOnceAnswer (S.contents out.old) (S.contents out.new)) }
    ensures failed { IsErr result ↔ IsTrue (S.has_failed out.new) }
    ensures fault { IfErr result (λ e. e ≡ IoFault.Write) }
{
    tell(once_answer(rt, alloc), out)
}
