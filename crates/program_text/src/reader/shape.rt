//! Parts that several lines share.

ghost use Rattle.std.specs.Prelude.{◌≡◌, IfOk};
ghost use Rattle.scenario_text.specs.Phrases.{ReadsAs};
ghost use Rattle.program_text.specs.Words.{texts};
ghost use Rattle.program_text.specs.Lines as lines;
ghost use Rattle.program_text.specs.Shapes.{AreCells, AreAccess, AreNames};

use crate::reader::name::read_name;
use crate::reader::part::{three, two};
use crate::words::{Name, SpelledOperand, SpelledPlace};
use std::alloc::{AllocError, Global};
use step_table::Items;

/// Whether there is no index, or a number: the length of an array.
fn is_sized(index: &Option<SpelledOperand<'_>>) -> bool
    ensures { result ≡ lines.is_sized index.now }
{
    match index {
        None | Some(SpelledOperand::Number(_)) => true,
        Some(SpelledOperand::Me | SpelledOperand::Name(_)) => false,
    }
}

/// Whether it is a number or a constant.
pub(crate) fn is_fixed(operand: &SpelledOperand<'_>) -> bool
    ensures { result ≡ lines.is_fixed operand.now }
{
    match operand {
        SpelledOperand::Number(_) | SpelledOperand::Name(_) => true,
        SpelledOperand::Me => false,
    }
}

/// Whether there is no index, or a number or a constant.
pub(crate) fn is_fixed_index(index: &Option<SpelledOperand<'_>>) -> bool
    ensures { result ≡ lines.is_fixed_index index.now }
{
    match index {
        None => true,
        Some(operand) => is_fixed(operand),
    }
}

/// A word or a counter, and what it starts at: of an array its length stands in brackets.
pub(crate) fn read_cells<'t>(words: &[&'t str]) -> Option<(SpelledPlace<'t>, SpelledOperand<'t>)>
    ensures { ReadsAs (AreCells (texts words.now)) result }
{
    let Some((place, value)) = two::<SpelledPlace<'t>, SpelledOperand<'t>>(words) else {
        return None;
    };
    if !is_sized(&place.index) {
        return None;
    }
    if !is_fixed(&value) {
        return None;
    }
    Some((place, value))
}

/// A place, an operand and a register that may be left out.
pub(crate) fn read_access<'t>(
    words: &[&'t str],
) -> Option<(SpelledPlace<'t>, SpelledOperand<'t>, Option<Name<'t>>)>
    ensures { ReadsAs (AreAccess (texts words.now)) result }
{
    if let Some((place, operand, register)) = three::<
        SpelledPlace<'t>,
        SpelledOperand<'t>,
        Name<'t>,
    >(words)
    {
        return Some((place, operand, Some(register)));
    }
    let Some((place, operand)) = two::<SpelledPlace<'t>, SpelledOperand<'t>>(words) else {
        return None;
    };
    Some((place, operand, None))
}

/// One name or more.
pub(crate) fn read_names<'t>(
    alloc: Global,
    words: &[&'t str],
) -> Result<Option<Items<Name<'t>>>, AllocError>
    ensures { IfOk result (λ o. ReadsAs (AreNames (texts words.now)) o) }
{
    if words.is_empty() {
        return Ok(None);
    }
    let mut names = Vec::new(alloc);
    for word in words {
        let Some(name) = read_name(word) else {
            return Ok(None);
        };
        names.push(name)?;
    }
    Ok(Some(Items::new(names)))
}
