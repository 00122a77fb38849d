//! The code of each program, before it is linked.

ghost use Rattle.std.specs.Prelude.{◌≡◌, ◌<◌, ◌≤◌, ◌+◌, ◌*◌, ◌%◌, All, length, IfOk};
ghost use Rattle.bpf_insn.specs.Code.{IsCode};
ghost use Rattle.elf_objects.specs.Object.{content, sections};
ghost use Rattle.elf_objects.specs.Symbol as symbols;
ghost use Rattle.object_load.specs.Reading.{Answers, AnswersAt};
ghost use Rattle.object_load.specs.Sections as of_object;
ghost use Rattle.object_load.specs.Symbols.{IsProgram};
ghost use Rattle.object_load.specs.Code as code;

use crate::refusal::{LoadEnd, LoadRefusal, SlotEnd};
use bpf_insn::{DecodeEnd, InsnList, decode};
use elf_objects::{Object, Symbol};
use lists::{Bytes, List, OutOfMemory};
use run_config::RunConfig;
use std::alloc::Global;

/// A program's symbol, and its configuration.
#[derive(Clone, Copy, Debug)]
pub(crate) struct Function {
    pub symbol: u32,
    pub config: RunConfig,
}

/// A program's function with its code, to which no relocation was applied.
#[derive(Debug, Drop)]
pub(crate) struct Draft {
    pub function: Function,
    pub insns: InsnList,
}

/// The most slots that a code may have.
const MOST_SLOTS: u32 = 65_536;

/// The bytes of a code of so many slots.
const MOST_BYTES: usize = 8 * MOST_SLOTS as usize;

/// The symbol of a program.
#[tactic(auto, using(crate::proofs::Counts::symbols_counted))]
pub(crate) fn program_symbol(object: &Object<'_>, index: u32) -> Symbol
    requires { IsProgram object.now index }
    ensures symbol { result ≡ symbols.symbol object.now index }
    ensures section { result.section < length (sections object.now) }
    ensures slots { result.size % 8 ≡ 0 }
    ensures within { result.value + result.size ≤ length (content object.now result.section) }
{
    object.symbol(index)
}

/// The bytes of a function, which are in its section.
#[tactic(auto, unfolding(crate::specs::Code::function_bytes))]
fn function_bytes<'a>(object: &'a Object<'_>, symbol: Symbol) -> &'a [u8]
    requires section { symbol.section < length (sections object.now) }
    requires within { symbol.value + symbol.size ≤ length (content object.now symbol.section) }
    ensures { result.now ≡ code.function_bytes object.now symbol }
{
    let bytes = object.content(u32::from(symbol.section));
    let first = symbol.value as usize;
    &bytes[first..first + symbol.size as usize]
}

/// The bytes of a program's code: those of its function, and those of `.text`.
#[tactic(auto, unfolding(crate::specs::Code::code_bytes))]
fn code_bytes(
    alloc: Global,
    object: &Object<'_>,
    symbol: Symbol,
    text: &[u8],
) -> Result<Bytes, OutOfMemory>
    requires section { symbol.section < length (sections object.now) }
    requires within { symbol.value + symbol.size ≤ length (content object.now symbol.section) }
    requires text { text.now ≡ of_object.text object.now }
    ensures { IfOk result (λ bytes. bytes ≡ code.code_bytes object.now symbol) }
{
    let mut bytes = Bytes::new(alloc);
    bytes.append(function_bytes(object, symbol))?;
    bytes.append(text)?;
    Ok(bytes)
}

/// The instructions of a code's bytes.
fn read_insns(alloc: Global, bytes: &[u8]) -> Result<InsnList, SlotEnd>
    ensures insns { AnswersAt (code.HasInsns bytes.now) result }
    ensures code { IfOk result IsCode }
    ensures small { IfOk result (λ insns. length bytes.now ≤ 8 * code.most_slots) }
{
    if bytes.len() > MOST_BYTES {
        return Err(SlotEnd::Bad { slot: MOST_SLOTS });
    }
    match decode(alloc, bytes) {
        Ok(insns) => Ok(insns),
        Err(DecodeEnd::BadInsn { index }) => Err(SlotEnd::Bad { slot: index }),
        Err(DecodeEnd::OutOfMemory) => Err(SlotEnd::OutOfMemory),
    }
}

/// A function with its code.
fn make_draft(
    alloc: Global,
    object: &Object<'_>,
    function: &Function,
    text: &[u8],
) -> Result<Draft, SlotEnd>
    requires program { IsProgram object.now function.now.symbol }
    requires text { text.now ≡ of_object.text object.now }
    ensures draft { AnswersAt (code.IsDraft object.now function.now) result }
    ensures ready { IfOk result (code.IsReady object.now) }
{
    let symbol = program_symbol(object, function.symbol);
    let bytes = code_bytes(alloc, object, symbol, text)?;
    let insns = read_insns(alloc, bytes.as_slice())?;
    Ok(Draft {
        function: *function,
        insns,
    })
}

/// All functions with their code.
pub(crate) fn make_drafts(
    alloc: Global,
    object: &Object<'_>,
    functions: &[Function],
    text: &[u8],
) -> Result<List<Draft>, LoadEnd>
    requires programs { All (λ function. IsProgram object.now function.symbol) functions.now }
    requires text { text.now ≡ of_object.text object.now }
    ensures drafts { Answers (code.AreDrafts object.now functions.now) result }
    ensures ready { IfOk result (All (code.IsReady object.now)) }
{
    let mut drafts = List::new(alloc);
    for function in functions {
        let draft = match make_draft(alloc, object, function, text) {
            Ok(draft) => draft,
            Err(SlotEnd::Bad { slot }) => {
                return Err(LoadEnd::Refused(LoadRefusal::BadInsn {
                    program: drafts.len(),
                    index: slot,
                }));
            }
            Err(SlotEnd::OutOfMemory) => return Err(LoadEnd::OutOfMemory),
        };
        drafts.push(draft)?;
    }
    Ok(drafts)
}
