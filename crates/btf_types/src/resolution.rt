//! The types behind modifiers.

ghost use Rattle.std.specs.Prelude.{◌≡◌, ◌≤◌, ◌↔◌, length, Some, IfSome, option_copied};
ghost use Rattle.btf_types.specs.declared.types.TypeRow.{TypeRow};
ghost use Rattle.btf_types.specs.TypeTable.{RowFits};
ghost use Rattle.btf_types.specs.Resolution as resolution;

use crate::kind;
use crate::types::{TypeRow, Types};

/// Whether a type of this kind is passed on the way to what it is.
#[tactic(auto, unfolding(crate::specs::Resolution::is_modifier))]
pub(crate) fn is_modifier(kind: u8) -> bool
    ensures { result ≡ resolution.is_modifier kind }
{
    matches!(
        kind,
        kind::TYPEDEF | kind::VOLATILE | kind::CONST | kind::RESTRICT | kind::TYPE_TAG
    )
}

impl Types {
    /// What a type is through modifiers; None for void and for a loop of modifiers.
    pub fn resolve(&self, number: u32) -> Option<&TypeRow>
        requires { number ≤ length self.now.rows }
        ensures row { (row : TypeRow) → (option_copied result ≡ Some row) ↔ resolution.Resolves self.now number row }
        ensures fits { IfSome result (λ row. RowFits self.now row.now) }
    {
        let mut at = number;
        let mut passed = 0;
        // More modifiers than types are a loop.
        while passed <= self.len() as u64 {
            let pass = self.link(at).pass;
            if pass.at == 0 {
                return None;
            }
            let row = self.type_at(pass.at);
            if !is_modifier(row.kind) {
                return Some(row);
            }
            at = row.size_or_target;
            passed += pass.steps as u64 + 1;
        }
        None
    }
}
