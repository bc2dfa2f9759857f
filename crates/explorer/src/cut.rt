//! What the program does over its streams, where its tables are cut to so many columns.

ghost use Rattle.std.specs.Prelude.{◌≡◌, ◌↔◌, false, Err, option_map, string_bytes, IsTrue, IfOk};
ghost use Rattle.explorer_answers.specs.Told.{TellsAll, TellsBeginning};
ghost use Rattle.explorer.specs.Asked.{IsWithinLimits};
ghost use Rattle.explorer.specs.Invocation.{IsShownAnswer, IsShownText, IsAnswerWithin, IsTextWithin};

use crate::columns::fit_tables;
use crate::invocation::Invocation;
use crate::streams::answer_io;
use explorer_answers::{Answered, Flagged, IoFault, Sink, Source, StopWatch, refuse_io, write_all};
use std::alloc::Global;
use std::sync::Wait;
use std::thread::Threads;

/// Writes the answer to what is asked, with its tables cut to so many columns, and gives the lines that tell what
/// is left out of them.
///
/// It is an `Err` where a read or a write fails.
fn cut_answer_io<T: Threads + Wait + Sync, R: Source, O: Sink, V: StopWatch>(
    rt: &T,
    alloc: Global,
    asked: &Invocation<'_>,
    columns: u16,
    reader: &mut R,
    out: &mut O,
    watch: &mut V,
    without: &mut Vec<u8>,
) -> Result<Answered, IoFault>
    requires limits { IsWithinLimits asked.now }
    requires readable { R.has_failed reader.old ≡ false }
    requires writable { O.has_failed out.old ≡ false }
    ensures whole { IfOk result (λ told. TellsAll
        (IsAnswerWithin columns asked.now (R.contents reader.old) (R.contents reader.new)
        (option_map string_bytes told.aside)) (O.contents out.old) (O.contents out.new) told.exit) }
    ensures begun { result ≡ Err IoFault.Write → TellsBeginning
        (IsTextWithin columns asked.now (R.contents reader.old) (R.contents reader.new))
        (O.contents out.old) (O.contents out.new) }
    ensures unwritten { result ≡ Err IoFault.Read → out.new ≡ out.old }
    ensures read { (result ≡ Err IoFault.Read) ↔ IsTrue (R.has_failed reader.new) }
    ensures write { (result ≡ Err IoFault.Write) ↔ IsTrue (O.has_failed out.new) }
{
    let mut whole = Flagged::new(Vec::new(alloc));
    let told = match answer_io(rt, alloc, asked, reader, &mut whole, watch) {
        Ok(told) => told,
        Err(IoFault::Read) => return Err(IoFault::Read),
        // memory was short
        Err(IoFault::Write) => {
            return Ok(Answered {
                exit: refuse_io(out)?,
                aside: None,
            });
        }
    };
    match fit_tables(alloc, &whole.into_inner(), columns) {
        Ok(fitted) => {
            write_all(out, &fitted.text)?;
            *without = fitted.without;
            Ok(told)
        }
        Err(_) => Ok(Answered {
            exit: refuse_io(out)?,
            aside: None,
        }),
    }
}

/// Writes the answer to what is asked; where so many columns are told, with its tables cut to these, and gives
/// the lines that tell what is left out of them.
///
/// It is an `Err` where a read or a write fails.
pub(crate) fn shown_answer_io<T: Threads + Wait + Sync, R: Source, O: Sink, V: StopWatch>(
    rt: &T,
    alloc: Global,
    asked: &Invocation<'_>,
    columns: Option<u16>,
    reader: &mut R,
    out: &mut O,
    watch: &mut V,
    without: &mut Vec<u8>,
) -> Result<Answered, IoFault>
    requires limits { IsWithinLimits asked.now }
    requires readable { R.has_failed reader.old ≡ false }
    requires writable { O.has_failed out.old ≡ false }
    ensures whole { IfOk result (λ told. TellsAll
        (IsShownAnswer columns asked.now (R.contents reader.old) (R.contents reader.new)
        (option_map string_bytes told.aside)) (O.contents out.old) (O.contents out.new) told.exit) }
    ensures begun { result ≡ Err IoFault.Write → TellsBeginning
        (IsShownText columns asked.now (R.contents reader.old) (R.contents reader.new))
        (O.contents out.old) (O.contents out.new) }
    ensures unwritten { result ≡ Err IoFault.Read → out.new ≡ out.old }
    ensures read { (result ≡ Err IoFault.Read) ↔ IsTrue (R.has_failed reader.new) }
    ensures write { (result ≡ Err IoFault.Write) ↔ IsTrue (O.has_failed out.new) }
{
    match columns {
        None => answer_io(rt, alloc, asked, reader, out, watch),
        Some(columns) => cut_answer_io(rt, alloc, asked, columns, reader, out, watch, without),
    }
}
