//! Laws of the definitions, each the contract of a call that does nothing.

ghost use Rattle.std.specs.Prelude.{ℕ, IsTrue, List};
ghost use Rattle.filter_rules.specs.Rules.{have_different_keys, set_rule, clear_rule};
ghost use Rattle.filter_rules.specs.declared.rule.RuleKey.{RuleKey};
ghost use Rattle.filter_rules.specs.declared.rule.RuleRow.{RuleRow};

/// Setting and clearing a rule keep the keys of the rows different.
pub fn different_keys()
    ensures set { (rows : List RuleRow) (key : RuleKey) (flags number : ℕ)
        → IsTrue (have_different_keys rows) → IsTrue (have_different_keys (set_rule rows key flags number)) }
    ensures clear { (rows : List RuleRow) (key : RuleKey) (flags : ℕ)
        → IsTrue (have_different_keys rows) → IsTrue (have_different_keys (clear_rule rows key flags)) }
{}
