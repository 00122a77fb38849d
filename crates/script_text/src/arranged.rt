ghost use Rattle.std.specs.Prelude.{◌≡◌, ◌≤◌, ◌∷◌, length, Ok, Err, MatchResult, IfOk};
ghost use Rattle.script_text.specs.WordViews.{plain_of, arranged_of};
ghost use Rattle.script_text.specs.Options.{has_value, no_plain, with_own, with_label, with_word, with_value, arranged_behind, arranged};
ghost use Rattle.script_text.specs.Words.{words_of};

use crate::options::{Given, Label, Role, Verb, role_of};
use crate::rule::{BAD_FORM, Rule};
use crate::words::next_word;

/// Words that are kept as they are: the verb's own in their order, and the names that options give.
#[derive(Clone, Copy)]
pub struct Plain<'a> {
    pub first: Option<&'a [u8]>,
    pub second: Option<&'a [u8]>,
    pub name: Option<&'a [u8]>,
    pub section: Option<&'a [u8]>,
    pub names: Option<&'a [u8]>,
}

/// The words behind a verb: what the options give, and the words that are kept.
#[derive(Clone, Copy)]
pub struct Words<'a> {
    pub given: Given,
    pub plain: Plain<'a>,
}

/// With one word more of the verb's own; no verb has more than two.
#[tactic(auto, unfolding(crate::specs::Options::with_own))]
fn with_own<'a>(plain: Plain<'a>, word: &'a [u8]) -> Result<Plain<'a>, Rule>
    ensures { MatchResult result
        (λ read. with_own (plain_of plain.entry) word.now ≡ Ok (plain_of read))
        (λ rule. with_own (plain_of plain.entry) word.now ≡ Err rule) }
{
    if plain.second.is_some() {
        return Err(BAD_FORM);
    }
    let mut plain = plain;
    if plain.first.is_some() {
        plain.second = Some(word);
    } else {
        plain.first = Some(word);
    }
    Ok(plain)
}

/// With the name that an option gives; one that stands twice breaks a rule.
#[tactic(auto, unfolding(crate::specs::Options::with_label))]
fn with_label<'a>(plain: Plain<'a>, label: Label, value: &'a [u8]) -> Result<Plain<'a>, Rule>
    ensures { MatchResult result
        (λ read. with_label (plain_of plain.entry) label value.now ≡ Ok (plain_of read))
        (λ rule. with_label (plain_of plain.entry) label value.now ≡ Err rule) }
{
    let mut plain = plain;
    match label {
        Label::Name if plain.name.is_none() => plain.name = Some(value),
        Label::Section if plain.section.is_none() => plain.section = Some(value),
        Label::Names if plain.names.is_none() => plain.names = Some(value),
        _ => return Err(BAD_FORM),
    }
    Ok(plain)
}

/// With one word more, which has no value behind it.
fn with_word<'a>(words: Words<'a>, role: Role, word: &'a [u8]) -> Result<Words<'a>, Rule>
    ensures { MatchResult result
        (λ read. with_word (arranged_of words.entry) role word.now ≡ Ok (arranged_of read))
        (λ rule. with_word (arranged_of words.entry) role word.now ≡ Err rule) }
{
    let Words { given, plain } = words;
    match role {
        Role::Own => {
            let plain = with_own(plain, word)?;
            Ok(Words { given, plain })
        }
        Role::Switch(switch) => {
            let given = given.with_switch(switch)?;
            Ok(Words { given, plain })
        }
        _ => Err(BAD_FORM),
    }
}

/// With an option and its value.
fn with_value<'a>(words: Words<'a>, role: Role, value: &'a [u8]) -> Result<Words<'a>, Rule>
    ensures { MatchResult result
        (λ read. with_value (arranged_of words.entry) role value.now ≡ Ok (arranged_of read))
        (λ rule. with_value (arranged_of words.entry) role value.now ≡ Err rule) }
{
    let Words { given, plain } = words;
    match role {
        Role::Setting(setting) => {
            let given = given.with_value(setting, value)?;
            Ok(Words { given, plain })
        }
        Role::Label(label) => {
            let plain = with_label(plain, label, value)?;
            Ok(Words { given, plain })
        }
        _ => Err(BAD_FORM),
    }
}

/// Whether the word's value is the next word.
fn has_value(role: Role) -> bool
    ensures { result ≡ has_value role }
{
    matches!(role, Role::Setting(_) | Role::Label(_))
}

/// With the word and what belongs to it, and the words behind.
#[tactic(auto, using(crate::proofs::ArrangedLemmas::arranging))]
fn take_word<'a>(
    verb: Verb,
    words: Words<'a>,
    word: &'a [u8],
    behind: &'a [u8],
) -> Result<(Words<'a>, &'a [u8]), Rule>
    ensures words { MatchResult result
        (λ read. arranged_behind verb (arranged_of words.entry) (word.now ∷ words_of behind.now)
        ≡ arranged_behind verb (arranged_of read.0) (words_of read.1.now))
        (λ rule. arranged_behind verb (arranged_of words.entry) (word.now ∷ words_of behind.now) ≡ Err rule) }
    ensures shorter { IfOk result (λ read. length read.1.now ≤ length behind.now) }
{
    let role = role_of(verb, word);
    if !has_value(role) {
        let words = with_word(words, role, word)?;
        return Ok((words, behind));
    }
    let Some((value, behind)) = next_word(behind) else {
        return Err(BAD_FORM);
    };
    let words = with_value(words, role, value)?;
    Ok((words, behind))
}

/// The words behind a verb, arranged.
#[tactic(auto, unfolding(crate::specs::Options::arranged))]
pub fn arranged(verb: Verb, line: &[u8]) -> Result<Words<'_>, Rule>
    ensures { MatchResult result
        (λ read. arranged verb (words_of line.now) ≡ Ok (arranged_of read))
        (λ rule. arranged verb (words_of line.now) ≡ Err rule) }
{
    let mut words = Words {
        given: Given::new(),
        plain: no_plain(),
    };
    let mut rest = line;
    while let Some((word, behind)) = next_word(rest) {
        (words, rest) = take_word(verb, words, word, behind)?;
    }
    Ok(words)
}

fn no_plain<'a>() -> Plain<'a>
    ensures { plain_of result ≡ no_plain }
{
    Plain {
        first: None,
        second: None,
        name: None,
        section: None,
        names: None,
    }
}
