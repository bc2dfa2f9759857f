//! What is seen of a moment beside words and stands: registers, sleepers, and the words of the layer.

ghost use Rattle.std.specs.Prelude.{◌≡◌, ◌<◌, List, [], length, map, Some, IfOk};
ghost use Rattle.program_rows.specs.Stored.{seats_of};
ghost use Rattle.program_steps.specs.Reading.{value};
ghost use Rattle.step_core.specs.Finding.{found_doing};
ghost use Rattle.step_core.specs.State.{core_of, IsMachineFor};
ghost use Rattle.step_rows.specs.Stored.{each};
ghost use Rattle.step_table.specs.Core.{CoreLayout};
ghost use Rattle.step_table.specs.declared.entry.Entry.{Entry as Told};
ghost use Rattle.step_table.specs.declared.standing.Standing.TheVariants.{Rest};
ghost use Rattle.step_table.specs.ListWorld.{found};
ghost use Rattle.step_table.specs.Row.{phase_in};

use crate::machine::{MOST_STEPS, ProgramMachine};
use program_code::Operand;
use program_steps::Sleeper;
use std::alloc::Global;
use step_core::WordFound;
use step_table::{ListId, ListWord, Phase, StepRefused};
use waiters::{CounterId, NoMemory, SeatId, WaitId};

impl<'p> ProgramMachine<'p> {
    /// The number that an operand stands for.
    pub fn value(&self, seat: SeatId, operand: &Operand) -> i64
        requires { seat < length self.now.program.seats }
        ensures { result ≡ value seat (seats_of self.now.shared.own.seats seat).registers operand.now }
    {
        self.own().value(seat, operand)
    }

    /// Who sleeps on words, and on which, in the order in which they went to sleep.
    pub fn sleepers(&self) -> &[Sleeper]
        ensures { result.now ≡ self.now.shared.own.sleepers }
    {
        self.own().sleepers()
    }

    /// The number of the counter.
    pub fn counter(&self, counter: CounterId) -> u64
        requires { counter < length self.now.program.counters }
        ensures { result ≡ (core_of self.now.shared.layer []).semaphores.words.numbers counter }
    {
        self.layer().number(counter)
    }

    /// The waits of the counter's list, in order.
    pub fn waiting(&self, alloc: Global, counter: CounterId) -> Result<Vec<WaitId>, NoMemory>
        requires { counter < length self.now.program.counters }
        ensures { IfOk result (λ waits.
            waits.items ≡ (core_of self.now.shared.layer []).semaphores.words.lists counter) }
    {
        self.layer().waiting(alloc, counter)
    }

    /// How many tickets of the list were handed out.
    pub fn handed_out(&self, list: ListId) -> u64
        requires { list < self.now.program.lists }
        ensures { result ≡ ((core_of self.now.shared.layer []).lists list).words.numbers.handed }
    {
        self.layer().handed_out(list)
    }

    /// How many tickets of the list are granted.
    pub fn granted(&self, list: ListId) -> u64
        requires { list < self.now.program.lists }
        ensures { result ≡ ((core_of self.now.shared.layer []).lists list).words.numbers.passed }
    {
        self.layer().granted(list)
    }

    /// The waits of the list, in order.
    pub fn queued(&self, alloc: Global, list: ListId) -> Result<Vec<WaitId>, NoMemory>
        requires { list < self.now.program.lists }
        ensures { IfOk result (λ waits. waits.items
            ≡ map (λ wait. wait.id) ((core_of self.now.shared.layer []).lists list).words.queue) }
    {
        self.layer().queued(alloc, list)
    }

    /// The list's wait word: its next ticket.
    pub fn next_ticket(&self, list: ListId) -> u64
        requires { list < self.now.program.lists }
        ensures { result ≡ found ((core_of self.now.shared.layer []).lists list).words ListWord.Wait }
    {
        self.layer().list_number(list, &ListWord::Wait)
    }

    /// How far the seat has come in its call of the layer.
    pub fn phase(&self, seat: SeatId) -> Phase
        requires { seat < length self.now.program.seats }
        ensures { result ≡ phase_in (core_of self.now.shared.layer []) seat }
    {
        self.layer().phase(seat)
    }

    /// What the row of the layer finds at which the seat stands, or why it can't run; `NoMemory` once the
    /// machine can make no more steps.
    pub fn look(&self, seat: SeatId) -> Result<WordFound, StepRefused>
        requires { seat < length self.now.program.seats }
        ensures { IfOk result (λ finds. (m : CoreLayout) → IsMachineFor m self.now.shared.layer
            → (journal : List Told) → found_doing m (core_of self.now.shared.layer journal) seat
            (each Rest self.now.shared.layer.standing seat) ≡ Some finds) }
    {
        if MOST_STEPS <= self.steps {
            return Err(StepRefused::NoMemory);
        }
        self.layer().look(seat)
    }
}
