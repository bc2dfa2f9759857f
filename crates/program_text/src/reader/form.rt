//! What stands behind a line's first word.

ghost use Rattle.scenario_text.specs.Phrases.{ReadsAs};
ghost use Rattle.program_text.specs.Words.{texts};
ghost use Rattle.program_text.specs.Lines.{AreArgumentsOf};

use crate::lines::SpelledLine;
use crate::reader::access::{
    read_add, read_await, read_exchange, read_load, read_park, read_store, read_swap, read_unpark,
};
use crate::reader::declaration::{
    read_const, read_counter, read_list, read_program, read_seats, read_section, read_word,
};
use crate::reader::flow::{
    read_ask, read_assert, read_do, read_fail, read_goto, read_if, read_in, read_let, read_return,
};
use crate::reader::layer::{
    read_acquire, read_all, read_one, read_out, read_release, read_ticket, read_wait,
};
use crate::reader::property::{read_apart, read_finally, read_most, read_passed};
use crate::reader::verb::Verb;

/// The line that has these words behind its verb.
pub(crate) fn read_form<'t>(verb: Verb, words: &[&'t str]) -> Option<SpelledLine<'t>>
    ensures { ReadsAs (AreArgumentsOf verb (texts words.now)) result }
{
    match verb {
        Verb::Const => read_const(words),
        Verb::Word => read_word(words),
        Verb::Counter => read_counter(words),
        Verb::List => read_list(words),
        Verb::Section => read_section(words),
        Verb::Program => read_program(words),
        Verb::Seats => read_seats(words),
        Verb::Most => read_most(words),
        Verb::Apart => read_apart(words),
        Verb::Passed => read_passed(words),
        Verb::Finally => read_finally(words),
        Verb::Load => read_load(words),
        Verb::Store => read_store(words),
        Verb::Swap => read_swap(words),
        Verb::Add => read_add(words),
        Verb::Exchange => read_exchange(words),
        Verb::Await => read_await(words),
        Verb::Acquire => read_acquire(words),
        Verb::Release => read_release(words),
        Verb::Ticket => read_ticket(words),
        Verb::Wait => read_wait(words),
        Verb::One => read_one(words),
        Verb::All => read_all(words),
        Verb::Park => read_park(words),
        Verb::Unpark => read_unpark(words),
        Verb::Out => read_out(words),
        Verb::Let => read_let(words),
        Verb::If => read_if(words),
        Verb::Goto => read_goto(words),
        Verb::In => read_in(words),
        Verb::Ask => read_ask(words),
        Verb::Assert => read_assert(words),
        Verb::Fail => read_fail(words),
        Verb::Do => read_do(words),
        Verb::Return => read_return(words),
    }
}
