//! What has to be spent can't be let go: a seat in the middle of a call, and a ticket.
//!
//! The compiler refuses a caller who lets one go, before anything is proved: so no edit in `mutants` shows
//! it. In place of edits stands code that compiles only while it is so.

use sync_parts::{Holding, Owing, OwingMany, Sleeping, Woken};

/// Each type has this by `AnyWay`, and one that can be let go has it by `LetGo` too.
trait Ends<By> {
    fn ends(&self) {}
}

struct AnyWay;

struct LetGo;

impl<T> Ends<AnyWay> for T {}

impl<T: Drop> Ends<LetGo> for T {}

/// Compiles only while none of these can be let go: of a type that can, the compiler doesn't know which of
/// its two ends is meant.
pub fn must_be_spent(
    owing: &Owing,
    owing_many: &OwingMany,
    sleeping: &Sleeping,
    woken: &Woken,
    holding: &Holding,
) {
    Ends::<_>::ends(owing);
    Ends::<_>::ends(owing_many);
    Ends::<_>::ends(sleeping);
    Ends::<_>::ends(woken);
    Ends::<_>::ends(holding);
}
