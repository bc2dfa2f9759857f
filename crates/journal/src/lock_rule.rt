ghost use Rattle.std.specs.Prelude.{Some};
ghost use Rattle.journal.specs.Texts.{lock_rule_text};

use std::fmt;

/// What an entry of a lock may break: of a counter whose unit one seat takes and brings back, and then the
/// next.
#[derive(Clone, Copy, Drop)]
pub enum LockRule {
    /// A unit is added, and no seat holds the lock.
    NotHeld,
    /// A unit is added or taken, and another seat holds the lock.
    HeldByAnother,
}

impl fmt::Display for LockRule {
    ghost output = { λ rule. Some (lock_rule_text rule) };

    fn fmt<W: fmt::Write>(&self, f: &mut fmt::Formatter<W>) -> fmt::Result {
        f.write_str(match self {
            LockRule::NotHeld => "not held",
            LockRule::HeldByAnother => "held by another",
        })
    }
}
