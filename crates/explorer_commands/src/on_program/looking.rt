//! What the command `try` looks for where a search found nothing bad.

ghost use Rattle.std.specs.Prelude.{◌≡◌, ◌<◌, IfOk, IsTrue, MatchOption, length, true, false};
ghost use Rattle.explorer_commands.specs.ProgramCommands.{IsNothing, IsSeen};

use program_machine::Prepared;
use program_search::{Aims, Outlook, SectionPasses, outlook};
use program_steps::BadKind;
use search::FoundInAll;
use std::alloc::Global;
use waiters::NoMemory;

/// Whether these passes are to be told: where they are asked for, and of some section.
fn are_told(aims: Aims, all: &[SectionPasses]) -> bool
    ensures yes { result ≡ true → IsTrue aims.passes × (0 < length all.now) }
    ensures no { result ≡ false → IsTrue aims.passes → length all.now ≡ 0 }
{
    aims.passes && !all.is_empty()
}

/// What the schedules lead to, of what is asked, where nothing bad was found and there is something to tell:
/// of passes, those for some section.
///
/// It is an `Err` where memory is short.
#[tactic(auto, using(crate::proofs::Looking::nothing_told))]
pub(crate) fn seen(
    alloc: Global,
    program: &Prepared,
    aims: Aims,
    found: &FoundInAll<BadKind>,
) -> Result<Option<Outlook>, NoMemory>
    ensures { IfOk result (λ seen. MatchOption seen (IsNothing program.now aims found.now)
        (λ seen. IsSeen program.now aims found.now seen)) }
{
    let FoundInAll::None { .. } = found else {
        return Ok(None);
    };
    match outlook(alloc, program, aims)? {
        Outlook::Alive(all) => Ok(if are_told(aims, &all) {
            Some(Outlook::Alive(all))
        } else {
            None
        }),
        other => Ok(Some(other)),
    }
}
