ghost use Rattle.std.specs.Prelude.{◌≡◌, ◌+◌, ◌≤◌, ℕ, true, [], ◌∷◌, ◌++◌, length, Err, IfOk, OnOk, OnErr};
ghost use Rattle.script_text.specs.Handed.{IsSound, asks_frame, asks_processor, asks_flags};
ghost use Rattle.script_text.specs.Interfaces.{queue_count, packet_of};
ghost use Rattle.script_text.specs.Readings.{Leads, Reads};
ghost use Rattle.script_text.specs.Script.{dump_line, interface_line, loader_line, packet_line, start_line, what_of, read_line};
ghost use Rattle.script_text.specs.declared.reading.LineEnd.TheVariants.{BadLine};
ghost use Rattle.script_text.specs.WordViews.{arranged_of};
ghost use Rattle.script_text.specs.Words.{words_of};

use crate::arranged::{Words, arranged};
use crate::boxed_command::BoxedCommand;
use crate::dump::{setting_of, stop_of};
use crate::filter::filter_line;
use crate::frame::Frame;
use crate::interfaces::{hand_in_of, interface_of};
use crate::loader::loader_command;
use crate::objects::add_object;
use crate::options::{Verb, dump_verb_of, loader_verb_of};
use crate::reading::LineEnd;
use crate::rule::{BAD_BYTE, BAD_FORM, BAD_FRAME, UNKNOWN};
use crate::script::Script;
use crate::text::bytes_of;
use crate::what::{Line, LineList, What};
use crate::words::{are_printable, is_comment, is_option, next_word};
use std::alloc::Global;
use xdp_state::{Command, Interface};
use xio::OutOfMemory;

/// Reads `NAME QUEUES`.
#[tactic(auto, unfolding(crate::specs::Script::interface_line))]
fn interface_line(alloc: Global, script: &mut Script, words: &[u8]) -> Result<(), LineEnd>
    requires { IsSound script.old }
    ensures script { Leads result script.new (interface_line script.old (words_of words.now)) }
    ensures sound { OnOk result (IsSound script.new) }
    ensures lines { script.new.lines ≡ script.old.lines }
    ensures err { OnErr result (script.new ≡ script.old) }
{
    let Some((name, behind)) = next_word(words) else {
        return Err(LineEnd::BadLine { rule: BAD_FORM });
    };
    let Some((queues, behind)) = next_word(behind) else {
        return Err(LineEnd::BadLine { rule: BAD_FORM });
    };
    if next_word(behind).is_some() || is_option(name) || is_option(queues) {
        return Err(LineEnd::BadLine { rule: BAD_FORM });
    }
    let first = script.lines.len() == 0;
    let queues = interface_of(script.interfaces.as_slice(), first, name, queues)?;
    let name = bytes_of(alloc, name)?;
    script.interfaces.push(Interface { name, queues })?;
    Ok(())
}

/// Adds a line that asks for a command.
fn push_command(
    alloc: Global,
    lines: &mut LineList,
    number: u32,
    command: Command,
) -> Result<(), OutOfMemory>
    ensures ok { OnOk result (lines.new ≡ lines.old ++ record { line = number; what = What.Command command } ∷ []) }
    ensures err { OnErr result (lines.new ≡ lines.old) }
{
    let command = BoxedCommand::new(alloc, command)?;
    lines.push(Line {
        line: number,
        what: What::Command(command),
    })
}

/// Reads a line of `xdp-loader`, by the words behind the first. Where a rule is broken the script stays as it was.
#[tactic(auto, unfolding(crate::specs::Script::loader_line), using(crate::proofs::HandedLemmas::handed))]
fn loader_line(alloc: Global, script: &mut Script, number: u32, words: &[u8]) -> Result<(), LineEnd>
    requires { IsSound script.old }
    ensures script { Leads result script.new (loader_line script.old number (words_of words.now)) }
    ensures sound { OnOk result (IsSound script.new) }
    ensures lines { length script.new.lines ≤ length script.old.lines + 1 }
    ensures bad { (rule : ℕ) → result ≡ Err (BadLine rule) → script.new ≡ script.old }
{
    let Some((verb, behind)) = next_word(words) else {
        return Err(LineEnd::BadLine { rule: BAD_FORM });
    };
    let Some(verb) = loader_verb_of(verb) else {
        return Err(LineEnd::BadLine { rule: UNKNOWN });
    };
    let words = arranged(verb, behind)?;
    let command = loader_command(alloc, &script.objects, verb, words)?;
    add_object(alloc, &mut script.objects, words.plain.second)?;
    push_command(alloc, &mut script.lines, number, command)?;
    Ok(())
}

/// Adds the start of a dump on the interface of a name, with what it asks for.
#[tactic(auto, unfolding(crate::specs::Script::start_line), using(crate::proofs::HandedLemmas::handed))]
fn start_line(
    alloc: Global,
    script: &mut Script,
    number: u32,
    words: Words<'_>,
    name: &[u8],
) -> Result<(), LineEnd>
    requires { IsSound script.old }
    ensures script { Leads result script.new (start_line script.old number (arranged_of words.entry) name.now) }
    ensures sound { OnOk result (IsSound script.new) }
    ensures lines { length script.new.lines ≤ length script.old.lines + 1 }
    ensures bad { (rule : ℕ) → result ≡ Err (BadLine rule) → script.new ≡ script.old }
{
    let setting = setting_of(alloc, words.given, words.plain, name)?;
    let command = Command::DumpStart {
        interface: bytes_of(alloc, name)?,
        setting: script.dumps.len(),
    };
    script.dumps.push(setting)?;
    push_command(alloc, &mut script.lines, number, command)?;
    Ok(())
}

/// Reads a line of `xdpdump`, by the words behind the first. Where a rule is broken the script stays as it was.
#[tactic(auto, unfolding(crate::specs::Script::dump_line), using(crate::proofs::HandedLemmas::handed))]
fn dump_line(alloc: Global, script: &mut Script, number: u32, words: &[u8]) -> Result<(), LineEnd>
    requires { IsSound script.old }
    ensures script { Leads result script.new (dump_line script.old number (words_of words.now)) }
    ensures sound { OnOk result (IsSound script.new) }
    ensures lines { length script.new.lines ≤ length script.old.lines + 1 }
    ensures bad { (rule : ℕ) → result ≡ Err (BadLine rule) → script.new ≡ script.old }
{
    let Some((verb, behind)) = next_word(words) else {
        return Err(LineEnd::BadLine { rule: BAD_FORM });
    };
    let Some(verb) = dump_verb_of(verb) else {
        return Err(LineEnd::BadLine { rule: UNKNOWN });
    };
    let words = arranged(verb, behind)?;
    match (verb, words.plain.first, words.plain.second) {
        (Verb::DumpStart, Some(name), None) => start_line(alloc, script, number, words, name),
        (Verb::DumpStop, Some(name), None) => {
            let command = stop_of(alloc, name)?;
            push_command(alloc, &mut script.lines, number, command)?;
            Ok(())
        }
        _ => Err(LineEnd::BadLine { rule: BAD_FORM }),
    }
}

/// The packet of a hand-in's words.
#[tactic(auto, unfolding(crate::specs::Interfaces::packet_of), using(crate::proofs::HandedLemmas::least))]
fn packet_of(
    alloc: Global,
    interfaces: &[Interface],
    name: &[u8],
    queue: &[u8],
    digits: &[u8],
) -> Result<What, LineEnd>
    requires { queue_count interfaces.now ≤ 8 }
    ensures what { Reads result (packet_of interfaces.now name.now queue.now digits.now) }
    ensures frame { IfOk result (λ what. asks_frame what ≡ true) }
    ensures processor { IfOk result (λ what. asks_processor (queue_count interfaces.now) what ≡ true) }
    ensures flags { IfOk result (λ what. asks_flags what ≡ true) }
{
    let processor = match hand_in_of(interfaces, name, queue) {
        Ok(processor) => processor,
        Err(rule) => return Err(LineEnd::BadLine { rule }),
    };
    match Frame::of_digits(alloc, digits)? {
        Some(frame) => Ok(What::Packet { processor, frame }),
        None => Err(LineEnd::BadLine { rule: BAD_FRAME }),
    }
}

/// Reads `NAME QUEUE HEX`.
#[tactic(auto, unfolding(crate::specs::Script::packet_line))]
fn packet_line(alloc: Global, interfaces: &[Interface], words: &[u8]) -> Result<What, LineEnd>
    requires { queue_count interfaces.now ≤ 8 }
    ensures what { Reads result (packet_line interfaces.now (words_of words.now)) }
    ensures frame { IfOk result (λ what. asks_frame what ≡ true) }
    ensures processor { IfOk result (λ what. asks_processor (queue_count interfaces.now) what ≡ true) }
    ensures flags { IfOk result (λ what. asks_flags what ≡ true) }
{
    let Some((name, behind)) = next_word(words) else {
        return Err(LineEnd::BadLine { rule: BAD_FORM });
    };
    let Some((queue, behind)) = next_word(behind) else {
        return Err(LineEnd::BadLine { rule: BAD_FORM });
    };
    let Some((digits, behind)) = next_word(behind) else {
        return Err(LineEnd::BadLine { rule: BAD_FORM });
    };
    if next_word(behind).is_some() || is_option(name) || is_option(queue) || is_option(digits) {
        return Err(LineEnd::BadLine { rule: BAD_FORM });
    }
    packet_of(alloc, interfaces, name, queue, digits)
}

/// Reads a line that asks for something, by its first word and those behind it.
#[tactic(auto, unfolding(crate::specs::Script::what_of))]
fn what_of(
    alloc: Global,
    interfaces: &[Interface],
    command: &[u8],
    words: &[u8],
) -> Result<What, LineEnd>
    requires { queue_count interfaces.now ≤ 8 }
    ensures what { Reads result (what_of interfaces.now command.now (words_of words.now)) }
    ensures frame { IfOk result (λ what. asks_frame what ≡ true) }
    ensures processor { IfOk result (λ what. asks_processor (queue_count interfaces.now) what ≡ true) }
    ensures flags { IfOk result (λ what. asks_flags what ≡ true) }
{
    if command == b"xdp-filter".as_slice() {
        let command = filter_line(alloc, words)?;
        return Ok(What::Command(BoxedCommand::new(alloc, command)?));
    }
    if command == b"packet".as_slice() {
        return packet_line(alloc, interfaces, words);
    }
    if command != b"barrier".as_slice() {
        return Err(LineEnd::BadLine { rule: UNKNOWN });
    }
    if next_word(words).is_some() {
        return Err(LineEnd::BadLine { rule: BAD_FORM });
    }
    Ok(What::Barrier)
}

/// Reads the line of the number behind those of the script. Where a rule is broken the script stays as it was.
#[tactic(auto, unfolding(crate::specs::Script::read_line), using(crate::proofs::HandedLemmas::handed))]
pub fn read_line(
    alloc: Global,
    script: &mut Script,
    number: u32,
    line: &[u8],
) -> Result<(), LineEnd>
    requires { IsSound script.old }
    ensures script { Leads result script.new (read_line script.old number line.now) }
    ensures sound { OnOk result (IsSound script.new) }
    ensures lines { length script.new.lines ≤ length script.old.lines + 1 }
    ensures bad { (rule : ℕ) → result ≡ Err (BadLine rule) → script.new ≡ script.old }
{
    let Some((command, words)) = next_word(line) else {
        return Ok(());
    };
    if is_comment(command) {
        return Ok(());
    }
    if !are_printable(line) {
        return Err(LineEnd::BadLine { rule: BAD_BYTE });
    }
    if command == b"interface".as_slice() {
        return interface_line(alloc, script, words);
    }
    if command == b"xdp-loader".as_slice() {
        return loader_line(alloc, script, number, words);
    }
    if command == b"xdpdump".as_slice() {
        return dump_line(alloc, script, number, words);
    }
    let what = what_of(alloc, script.interfaces.as_slice(), command, words)?;
    script.lines.push(Line { line: number, what })?;
    Ok(())
}
