ghost use Rattle.std.specs.Prelude.{◌≡◌};
ghost use Rattle.script_text.specs.Options.{loader_verb_of, filter_verb_of, dump_verb_of, dump_option, snap_of, is_either, program_option, member_option, filter_option, keep_option, address_option, port_option, option_of, role_of, none_given, number_32, given_value, given_switch};

use crate::numbers::number_within;
use crate::rule::{BAD_CHOICE, BAD_FORM, BAD_NUMBER, Rule};
use crate::vocabulary::{mode_of, policy_of};
use crate::word_lists::{
    Directions, Protocols, Sides, actions_of, directions_of, features_of, protocols_of, sides_of,
};
use crate::words::is_option;
use filter_rules::Policy;
use xdp_state::Mode;

/// The greatest snapshot length.
pub const WHOLE_SNAP: u32 = 262_144;

/// The second word of a line of `xdp-loader`, `xdp-filter` or `xdpdump`.
#[derive(Clone, Copy)]
pub enum Verb {
    LoaderLoad,
    LoaderUnload,
    LoaderStatus,
    FilterLoad,
    FilterUnload,
    FilterPort,
    FilterIp,
    FilterEther,
    FilterStatus,
    DumpStart,
    DumpStop,
}

/// An option whose value is the next word.
#[derive(Clone, Copy)]
pub enum Setting {
    Mode,
    Policy,
    Features,
    Directions,
    Protocols,
    Priority,
    Actions,
    Id,
    Sides,
    Snap,
}

/// An option whose value is the next word, which is kept as it is.
#[derive(Clone, Copy)]
pub enum Label {
    Name,
    Section,
    Names,
}

/// An option without a value.
#[derive(Clone, Copy)]
pub enum Switch {
    Keep,
    Remove,
    All,
}

/// What a word is that is no option's value.
#[derive(Clone, Copy)]
pub enum Role {
    Own,
    Setting(Setting),
    Label(Label),
    Switch(Switch),
    Unknown,
}

/// What the options of a line give. A setting that is given has its value, or the rule that the value breaks.
#[derive(Clone, Copy)]
pub struct Given {
    pub mode: Option<Result<Mode, Rule>>,
    pub policy: Option<Result<Policy, Rule>>,
    pub features: Option<Result<u8, Rule>>,
    pub directions: Option<Result<Directions, Rule>>,
    pub protocols: Option<Result<Protocols, Rule>>,
    pub priority: Option<Result<u32, Rule>>,
    pub actions: Option<Result<u8, Rule>>,
    pub id: Option<Result<u32, Rule>>,
    pub sides: Option<Result<Sides, Rule>>,
    pub snap: Option<Result<u32, Rule>>,
    pub keep: bool,
    pub remove: bool,
    pub all: bool,
}

/// The verb of the second word of a line of `xdp-loader`.
pub fn loader_verb_of(word: &[u8]) -> Option<Verb>
    ensures { result ≡ loader_verb_of word.now }
{
    if word == b"load".as_slice() {
        Some(Verb::LoaderLoad)
    } else if word == b"unload".as_slice() {
        Some(Verb::LoaderUnload)
    } else if word == b"status".as_slice() {
        Some(Verb::LoaderStatus)
    } else {
        None
    }
}

/// The verb of the second word of a line of `xdp-filter`.
pub fn filter_verb_of(word: &[u8]) -> Option<Verb>
    ensures { result ≡ filter_verb_of word.now }
{
    if word == b"load".as_slice() {
        Some(Verb::FilterLoad)
    } else if word == b"unload".as_slice() {
        Some(Verb::FilterUnload)
    } else if word == b"port".as_slice() {
        Some(Verb::FilterPort)
    } else if word == b"ip".as_slice() {
        Some(Verb::FilterIp)
    } else if word == b"ether".as_slice() {
        Some(Verb::FilterEther)
    } else if word == b"status".as_slice() {
        Some(Verb::FilterStatus)
    } else {
        None
    }
}

/// The verb of the second word of a line of `xdpdump`.
pub fn dump_verb_of(word: &[u8]) -> Option<Verb>
    ensures { result ≡ dump_verb_of word.now }
{
    if word == b"start".as_slice() {
        Some(Verb::DumpStart)
    } else if word == b"stop".as_slice() {
        Some(Verb::DumpStop)
    } else {
        None
    }
}

/// Whether the word is an option's short or long form.
fn is_either(short: &[u8], long: &[u8], word: &[u8]) -> bool
    ensures { result ≡ is_either short.now long.now word.now }
{
    word == short || word == long
}

/// What an option of a program's load is.
fn program_option(word: &[u8]) -> Role
    ensures { result ≡ program_option word.now }
{
    if is_either(b"-m", b"--mode", word) {
        Role::Setting(Setting::Mode)
    } else if is_either(b"-n", b"--prog-name", word) {
        Role::Label(Label::Name)
    } else if is_either(b"-s", b"--section", word) {
        Role::Label(Label::Section)
    } else if is_either(b"-P", b"--prio", word) {
        Role::Setting(Setting::Priority)
    } else if is_either(b"-A", b"--actions", word) {
        Role::Setting(Setting::Actions)
    } else {
        Role::Unknown
    }
}

/// What an option of a members' unload is.
fn member_option(word: &[u8]) -> Role
    ensures { result ≡ member_option word.now }
{
    if is_either(b"-i", b"--id", word) {
        Role::Setting(Setting::Id)
    } else if is_either(b"-a", b"--all", word) {
        Role::Switch(Switch::All)
    } else {
        Role::Unknown
    }
}

fn filter_option(word: &[u8]) -> Role
    ensures { result ≡ filter_option word.now }
{
    if is_either(b"-m", b"--mode", word) {
        Role::Setting(Setting::Mode)
    } else if is_either(b"-p", b"--policy", word) {
        Role::Setting(Setting::Policy)
    } else if is_either(b"-f", b"--features", word) {
        Role::Setting(Setting::Features)
    } else {
        Role::Unknown
    }
}

/// What an option of a filter's unload is.
fn keep_option(word: &[u8]) -> Role
    ensures { result ≡ keep_option word.now }
{
    if is_either(b"-k", b"--keep-maps", word) {
        Role::Switch(Switch::Keep)
    } else {
        Role::Unknown
    }
}

fn address_option(word: &[u8]) -> Role
    ensures { result ≡ address_option word.now }
{
    if is_either(b"-m", b"--mode", word) {
        Role::Setting(Setting::Directions)
    } else if is_either(b"-r", b"--remove", word) {
        Role::Switch(Switch::Remove)
    } else {
        Role::Unknown
    }
}

fn port_option(word: &[u8]) -> Role
    ensures { result ≡ port_option word.now }
{
    if is_either(b"-p", b"--proto", word) {
        Role::Setting(Setting::Protocols)
    } else {
        address_option(word)
    }
}

/// What an option of a dump's start is.
fn dump_option(word: &[u8]) -> Role
    ensures { result ≡ dump_option word.now }
{
    if is_either(b"-p", b"--program-names", word) {
        Role::Label(Label::Names)
    } else if word == b"--rx-capture".as_slice() {
        Role::Setting(Setting::Sides)
    } else if is_either(b"-s", b"--snapshot-length", word) {
        Role::Setting(Setting::Snap)
    } else {
        Role::Unknown
    }
}

/// What an option of the verb is.
#[tactic(auto, unfolding(crate::specs::Options::option_of))]
fn option_of(verb: Verb, word: &[u8]) -> Role
    ensures { result ≡ option_of verb word.now }
{
    match verb {
        Verb::LoaderLoad => program_option(word),
        Verb::LoaderUnload => member_option(word),
        Verb::FilterLoad => filter_option(word),
        Verb::FilterUnload => keep_option(word),
        Verb::FilterPort => port_option(word),
        Verb::FilterIp | Verb::FilterEther => address_option(word),
        Verb::DumpStart => dump_option(word),
        Verb::LoaderStatus | Verb::FilterStatus | Verb::DumpStop => Role::Unknown,
    }
}

#[tactic(auto, unfolding(crate::specs::Options::role_of))]
pub fn role_of(verb: Verb, word: &[u8]) -> Role
    ensures { result ≡ role_of verb word.now }
{
    if is_option(word) {
        option_of(verb, word)
    } else {
        Role::Own
    }
}

/// A number below 2^32.
fn number_32(word: &[u8]) -> Option<u32>
    ensures { result ≡ number_32 word.now }
{
    number_within(0, u32::MAX, word)
}

/// A snapshot length, of which 0 is the greatest.
fn snap_of(word: &[u8]) -> Option<u32>
    ensures { result ≡ snap_of word.now }
{
    let snap = number_within(0, WHOLE_SNAP, word)?;
    Some(if snap == 0 { WHOLE_SNAP } else { snap })
}

impl Given {
    /// Nothing is given.
    pub fn new() -> Self
        ensures { result ≡ none_given }
    {
        Given {
            mode: None,
            policy: None,
            features: None,
            directions: None,
            protocols: None,
            priority: None,
            actions: None,
            id: None,
            sides: None,
            snap: None,
            keep: false,
            remove: false,
            all: false,
        }
    }

    /// With a setting and its value; an option that stands twice breaks a rule.
    #[tactic(auto, unfolding(crate::specs::Options::given_value))]
    pub fn with_value(self, setting: Setting, value: &[u8]) -> Result<Self, Rule>
        ensures { result ≡ given_value self setting value.now }
    {
        let mut given = self;
        match setting {
            Setting::Mode if self.mode.is_none() => {
                given.mode = Some(mode_of(value).ok_or(BAD_CHOICE));
            }
            Setting::Policy if self.policy.is_none() => {
                given.policy = Some(policy_of(value).ok_or(BAD_CHOICE));
            }
            Setting::Features if self.features.is_none() => {
                given.features = Some(features_of(value).ok_or(BAD_CHOICE));
            }
            Setting::Directions if self.directions.is_none() => {
                given.directions = Some(directions_of(value).ok_or(BAD_CHOICE));
            }
            Setting::Protocols if self.protocols.is_none() => {
                given.protocols = Some(protocols_of(value).ok_or(BAD_CHOICE));
            }
            Setting::Priority if self.priority.is_none() => {
                given.priority = Some(number_32(value).ok_or(BAD_NUMBER));
            }
            Setting::Actions if self.actions.is_none() => {
                given.actions = Some(actions_of(value).ok_or(BAD_CHOICE));
            }
            Setting::Id if self.id.is_none() => {
                given.id = Some(number_32(value).ok_or(BAD_NUMBER));
            }
            Setting::Sides if self.sides.is_none() => {
                given.sides = Some(sides_of(value).ok_or(BAD_CHOICE));
            }
            Setting::Snap if self.snap.is_none() => {
                given.snap = Some(snap_of(value).ok_or(BAD_NUMBER));
            }
            _ => return Err(BAD_FORM),
        }
        Ok(given)
    }

    /// With a switch; one that stands twice breaks a rule.
    #[tactic(auto, unfolding(crate::specs::Options::given_switch))]
    pub fn with_switch(self, switch: Switch) -> Result<Self, Rule>
        ensures { result ≡ given_switch self switch }
    {
        match switch {
            Switch::Keep if !self.keep => Ok(Given { keep: true, ..self }),
            Switch::Remove if !self.remove => Ok(Given {
                remove: true,
                ..self
            }),
            Switch::All if !self.all => Ok(Given { all: true, ..self }),
            _ => Err(BAD_FORM),
        }
    }
}
