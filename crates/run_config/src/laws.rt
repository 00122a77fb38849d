//! Laws of the definitions, each the contract of a call that does nothing.

ghost use Rattle.std.specs.Prelude.{◌≡◌, ℕ, List};
ghost use Rattle.btf_types.specs.declared.types.TypeRow.{TypeRow};
ghost use Rattle.btf_types.specs.TypeTable.{TypeTable};
ghost use Rattle.run_config.specs.declared.named_map.NamedMap.{NamedMap};
ghost use Rattle.run_config.specs.Maps.{AreMaps, IsFirstBreak};

/// Variables have one answer: one list of maps, or one that breaks a rule first, and one rule that it breaks.
pub fn one_answer()
    ensures maps { (types : TypeTable) (variables : List TypeRow) (one other : List NamedMap)
        → AreMaps types variables one → AreMaps types variables other → one ≡ other }
    ensures breaks { (types : TypeTable) (variables : List TypeRow) (one other rule another : ℕ)
        → IsFirstBreak types variables one rule → IsFirstBreak types variables other another
        → (one ≡ other) × (rule ≡ another) }
    ensures apart { (types : TypeTable) (variables : List TypeRow) (maps : List NamedMap) (index rule : ℕ)
        → AreMaps types variables maps → IsFirstBreak types variables index rule → ⊥ }
{}
