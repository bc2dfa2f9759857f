//! What holds of the rules, as a function.

ghost use Rattle.journal.specs.Rules.{TheRules};

/// The rules: one more entry keeps a lawful journal lawful exactly where it breaks none of them.
pub fn law_of_the_rules()
    ensures { TheRules }
{}
