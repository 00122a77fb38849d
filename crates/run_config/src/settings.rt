//! What the members of a run configuration set.

ghost use Rattle.std.specs.Prelude.{◌≡◌, ◌==◌, [], ◌∷◌, ◌++◌, Bool, List, is_some, IfNone, IfSome, if◌then◌else◌};
ghost use Rattle.btf_types.specs.TypeTable.{name_at, PartFits};
ghost use Rattle.xio.specs.declared.action.Action.{Action};
ghost use Rattle.xio.specs.Action.{number};
ghost use Rattle.run_config.specs.SettingName.{setting_name};
ghost use Rattle.run_config.specs.Settings.{config_from, is_setting, mask_from, Sets};
ghost use Rattle.run_config.specs.Values.{Named};

use crate::counted::counted;
use btf_types::{Part, Types};
use xio::Action;

/// Where a program stands in its chain, and after which of its actions the chain goes on.
#[derive(Clone, Copy, Debug, PartialEq, Eq)]
pub struct RunConfig {
    pub priority: u32,
    /// Bit k is set where the chain goes on after the action with number k.
    pub mask: u8,
}

/// What a member sets.
#[derive(Clone, Copy)]
pub(crate) enum Setting {
    Priority,
    /// Whether the chain goes on after this action.
    GoesOn(Action),
}

/// What a member of this name sets.
#[tactic(auto, unfolding(crate::specs::Settings::is_setting))]
fn setting_of(name: &[u8]) -> Option<Setting>
    ensures name { IfSome result (λ setting. name.now ≡ setting_name setting) }
    ensures known { is_some result ≡ is_setting name.now }
{
    if name == b"priority".as_slice() {
        Some(Setting::Priority)
    } else if name == b"XDP_ABORTED".as_slice() {
        Some(Setting::GoesOn(Action::Aborted))
    } else if name == b"XDP_DROP".as_slice() {
        Some(Setting::GoesOn(Action::Drop))
    } else if name == b"XDP_PASS".as_slice() {
        Some(Setting::GoesOn(Action::Pass))
    } else if name == b"XDP_TX".as_slice() {
        Some(Setting::GoesOn(Action::Tx))
    } else if name == b"XDP_REDIRECT".as_slice() {
        Some(Setting::GoesOn(Action::Redirect))
    } else {
        None
    }
}

/// One byte more than the longest name of a setting has.
const FRONT: usize = 13;

/// What a member sets, whatever its value is.
#[tactic(auto, using(crate::proofs::Fronts::settings))]
fn setting_at(types: &Types, member: &Part) -> Option<Setting>
    requires { PartFits types.now member.now }
    ensures name { IfSome result (λ setting. name_at types.now member.now.name ≡ setting_name setting) }
    ensures known { is_some result ≡ is_setting (name_at types.now member.now.name) }
{
    setting_of(types.name_front(member.name, FRONT))
}

/// What a member sets, and its value.
pub(crate) fn read_setting(types: &Types, member: &Part) -> Option<(Setting, u32)>
    requires { PartFits types.now member.now }
    ensures sets { IfSome result (λ read. Sets types.now member.now (record { name = setting_name read.0; value = read.1 })) }
    ensures none { IfNone result ((setting : Named) → Sets types.now member.now setting → ⊥) }
{
    let setting = setting_at(types, member)?;
    let value = counted(types, member.target)?;
    Some((setting, value))
}

/// The mask with an action's bit set or cleared.
fn with_bit(mask: u8, action: Action, is_set: bool) -> u8
    ensures { (has : Action → Bool) → mask ≡ mask_from has
        → result ≡ mask_from (λ other. if number other == number action then is_set else has other) }
{
    let bit = 1 << action.number();
    if is_set { mask | bit } else { mask & !bit }
}

impl RunConfig {
    /// The configuration of a function that has none.
    #[tactic(auto, unfolding(crate::specs::Settings::config_from, crate::specs::Settings::priority_of, crate::specs::Settings::goes_on, crate::specs::Values::last_value))]
    pub(crate) fn default_config() -> RunConfig
        ensures value { result ≡ record { priority = 50; mask = 4 } }
        ensures no_settings { result ≡ config_from [] }
    {
        RunConfig {
            priority: 50,
            mask: 1 << Action::Pass as u8,
        }
    }

    /// The configuration with one setting more.
    #[tactic(auto, using(crate::proofs::SettingsLemmas::one_more), unfolding(crate::specs::Settings::config_from))]
    pub(crate) fn with(self, setting: Setting, value: u32) -> RunConfig
        ensures { (settings : List Named) → self ≡ config_from settings
            → result ≡ config_from (settings ++ record { name = setting_name setting; value = value } ∷ []) }
    {
        match setting {
            Setting::Priority => RunConfig {
                priority: value,
                mask: self.mask,
            },
            Setting::GoesOn(action) => RunConfig {
                priority: self.priority,
                mask: with_bit(self.mask, action, value != 0),
            },
        }
    }
}
