ghost use Rattle.std.specs.Prelude.{◌≡◌, ◌≢◌, ◌≤◌, All, [], ◌∷◌, ◌++◌, true, false, length, Err, Ok, Result, IfOk, IfErr, OnOk, IsTrue};
ghost use Rattle.std.specs.List.{list_all};
ghost use Rattle.object_load.specs.Load.{IsRunnable};
ghost use Rattle.script_text.specs.Handed as handed;
ghost use Rattle.script_text.specs.Words.{is_printable};
ghost use Rattle.xdp_state.specs.Library.{IsSound, programs_in};
ghost use Rattle.xdp_state.specs.declared.library.Loaded.{Loaded};
ghost use Rattle.xdp_state.specs.declared.library.ObjectRow.{ObjectRow};
ghost use Rattle.xdp_tool.specs.Ending.{status_of};
ghost use Rattle.xdp_tool.specs.Headline.{is_end};
ghost use Rattle.xdp_tool.specs.Named.{Gives};
ghost use Rattle.xdp_tool.specs.Objects.{IsLoadEnd, IsObject, IsObjectOf};
ghost use Rattle.xdp_tool.specs.Outcome.{IsLoaded, IsPrepared, is_small, with_objects};
ghost use Rattle.xdp_tool.specs.Runnable as runnable;
ghost use Rattle.xdp_tool.specs.Sinks.{Rises};
ghost use Rattle.xdp_tool.specs.Touched.{Reads};

use crate::ending::{Ending, LimitName};
use crate::prepared::Prepared;
use object_load::{LoadEnd, programs_of};
use script_text::Script;
use std::alloc::Global;
use xdp_state::{Library, Loaded, ObjectRow};
use xio::{Bytes, Files, OutOfMemory, ReadEnd, read_file};

/// The most objects of a script.
const OBJECTS: u32 = 16;

/// The most bytes of an object.
const OBJECT_BYTES: u64 = 16_777_216;

/// A script with the objects that it names, each read once, in order.
#[tactic(auto, unfolding(crate::specs::Outcome::with_objects))]
pub fn load_objects<F: Files>(
    alloc: Global,
    files: &mut F,
    script: Script,
) -> Result<Prepared, Ending>
    requires sound { handed.IsSound script }
    requires lines { length script.lines ≤ 65536 }
    ensures loaded { IsTrue F.tells → IfOk result (λ prepared. IsPrepared (F.told files.old).content
        (with_objects (F.told files.old).content script) (Ok prepared)) }
    ensures only { IsTrue F.tells → (prepared : Result Prepared Ending) → IsPrepared (F.told files.old).content
        (with_objects (F.told files.old).content script) prepared → Gives result prepared }
    ensures ended { IsTrue F.tells → IfErr result (λ ending. Gives (Err ending)
        (with_objects (F.told files.old).content script)) }
    ensures runnable { IfOk result runnable.IsRunnable }
    ensures failed { IfErr result (λ ending. is_end (status_of ending) ≡ false) }
    ensures fault { result ≡ Err Ending.Fault → Rises F.read_faults files.old files.new }
    ensures same_read_faults { OnOk result (F.read_faults files.new ≡ F.read_faults files.old) }
    ensures same_write_faults { F.write_faults files.new ≡ F.write_faults files.old }
    ensures reads { IsTrue F.tells → Reads (F.told files.old) (F.told files.new) script.objects result }
    ensures same_handles { F.handles files.new ≡ F.handles files.old }
{
    let Script {
        interfaces,
        objects,
        dumps,
        lines,
    } = script;
    if objects.len() > OBJECTS {
        return Err(Ending::Limit(LimitName::Objects));
    }
    let mut library = Library::new(alloc, interfaces, dumps);
    for place in 0..objects.len() {
        let name = objects.at(place).as_slice();
        match load_object(alloc, files, name, &mut library) {
            Ok(()) => {}
            Err(ending) => return Err(ending),
        }
    }
    Ok(Prepared { library, lines })
}

/// Puts the object in the named file behind those of the library.
fn load_object<F: Files>(
    alloc: Global,
    files: &mut F,
    name: &[u8],
    library: &mut Library,
) -> Result<(), Ending>
    requires name { list_all is_printable name.now ≡ true }
    requires sound { IsSound library.old }
    ensures loaded { OnOk result (IsObject F.tells (F.told files.old).content name.now library.old library.new) }
    ensures small { IsTrue F.tells → result ≡ Err (Ending.Limit LimitName.Object)
        → is_small (F.told files.old).content name.now ≡ false }
    ensures known { IfErr result IsLoadEnd }
    ensures sound { OnOk result (IsSound library.new) }
    ensures fault { result ≡ Err Ending.Fault → Rises F.read_faults files.old files.new }
    ensures same_read_faults { OnOk result (F.read_faults files.new ≡ F.read_faults files.old) }
    ensures same_write_faults { F.write_faults files.new ≡ F.write_faults files.old }
    ensures reads { IsTrue F.tells → Reads (F.told files.old) (F.told files.new) (name.now ∷ []) result }
    ensures same_handles { F.handles files.new ≡ F.handles files.old }
{
    let mut bytes = Bytes::new(alloc);
    match read_file(files, text_of(name), OBJECT_BYTES, &mut bytes) {
        Ok(()) => add_object(alloc, name, bytes.as_slice(), library),
        Err(ReadEnd::ReadFault) => Err(Ending::Fault),
        Err(ReadEnd::TooLarge { .. }) => Err(Ending::Limit(LimitName::Object)),
        Err(ReadEnd::OutOfMemory) => Err(Ending::OutOfMemory),
    }
}

/// Puts the object of these bytes behind those of the library.
fn add_object(alloc: Global, name: &[u8], bytes: &[u8], library: &mut Library) -> Result<(), Ending>
    requires { IsSound library.old }
    ensures loaded { OnOk result (IsObjectOf bytes.now name.now library.old library.new) }
    ensures sound { OnOk result (IsSound library.new) }
    ensures memory { IfErr result (λ ending. ending ≡ Ending.OutOfMemory) }
{
    match object_of(alloc, name, bytes) {
        Ok(object) => match library.add(object) {
            Ok(()) => Ok(()),
            Err(OutOfMemory) => Err(Ending::OutOfMemory),
        },
        Err(OutOfMemory) => Err(Ending::OutOfMemory),
    }
}

/// The object of these bytes.
fn object_of(alloc: Global, name: &[u8], bytes: &[u8]) -> Result<ObjectRow, OutOfMemory>
    ensures name { IfOk result (λ object. object.name ≡ name.now) }
    ensures loaded { IfOk result (λ object. IsLoaded bytes.now object.loaded) }
    ensures only { (loaded : Loaded) → IsLoaded bytes.now loaded → IfOk result (λ object. object.loaded ≡ loaded) }
    ensures runnable { IfOk result (λ object. All IsRunnable (programs_in object.loaded)) }
{
    let loaded = loaded_of(alloc, bytes)?;
    let mut copy = Bytes::new(alloc);
    copy.append(name)?;
    Ok(ObjectRow { name: copy, loaded })
}

/// What these bytes give.
fn loaded_of(alloc: Global, bytes: &[u8]) -> Result<Loaded, OutOfMemory>
    ensures loaded { IfOk result (IsLoaded bytes.now) }
    ensures only { (loaded : Loaded) → IsLoaded bytes.now loaded → IfOk result (λ given. given ≡ loaded) }
    ensures runnable { IfOk result (λ loaded. All IsRunnable (programs_in loaded)) }
{
    match programs_of(alloc, bytes) {
        Ok(programs) => Ok(Loaded::Programs(programs)),
        Err(LoadEnd::Refused(refusal)) => Ok(Loaded::Refused(refusal)),
        Err(LoadEnd::OutOfMemory) => Err(OutOfMemory),
    }
}

/// A name of printable bytes as a text.
#[tactic(auto, using(crate::proofs::Printable::printable))]
fn text_of(name: &[u8]) -> &str
    requires { list_all is_printable name.now ≡ true }
    ensures { result.now ≡ name.now }
{
    match std::str::from_utf8(name) {
        Ok(text) => text,
        Err(_) => "",
    }
}
