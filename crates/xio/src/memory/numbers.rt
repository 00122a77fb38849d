ghost use Rattle.std.specs.Prelude.{◌≡◌, ◌≢◌, ◌+◌, ◌^◌, ◌<◌, [], ◌∷◌, ◌++◌, length, vec_len, vec_capacity, OnOk};
ghost use Rattle.xio.specs.Handles.{Closed, Opened, Made, set_at};
ghost use Rattle.xio.specs.Numbers.{handle_at, name_at, call_at, names_asked, place_at, CallsAsked};

use crate::memory::ask::Ask;
use crate::memory::entry::{Entry, Standing};
use lists::{Bytes, OutOfMemory};
use std::alloc::Global;

/// The numbers of a form in memory, which are given once, and its calls of `open_file` and of `make_file`.
#[derive(Debug, Drop)]
pub struct Numbers {
    entries: Vec<Entry>,
    asks: Vec<Ask>,
    /// The names of the calls of `make_file`.
    makes: Vec<Bytes>,
    ghost calls_asked: { CallsAsked entries.items asks.items },
}

impl Numbers {
    pub fn new(alloc: Global) -> Self
        ensures entries { result.entries.items ≡ [] }
        ensures asks { result.asks.items ≡ [] }
        ensures makes { result.makes.items ≡ [] }
    {
        Numbers {
            entries: Vec::new(alloc),
            asks: Vec::new(alloc),
            makes: Vec::new(alloc),
        }
    }

    /// Takes the room for one more number and one more call of either kind.
    pub fn reserve(&mut self) -> Result<(), OutOfMemory>
        ensures same_entries { self.new.entries.items ≡ self.old.entries.items }
        ensures same_asks { self.new.asks.items ≡ self.old.asks.items }
        ensures same_makes { self.new.makes.items ≡ self.old.makes.items }
        ensures number { OnOk result (vec_len self.new.entries < 2 ^ 32) }
        ensures entry_room { OnOk result (vec_len self.new.entries < vec_capacity self.new.entries) }
        ensures ask_room { OnOk result (vec_len self.new.asks < vec_capacity self.new.asks) }
        ensures make_room { OnOk result (vec_len self.new.makes < vec_capacity self.new.makes) }
    {
        if self.entries.len() > u32::MAX as usize {
            return Err(OutOfMemory);
        }
        self.entries.reserve(1)?;
        self.asks.reserve(1)?;
        self.makes.reserve(1)?;
        Ok(())
    }

    /// Keeps a call of `open_file` that opened no file.
    pub fn ask(&mut self, name: Bytes)
        requires ask_room { vec_len self.old.asks < vec_capacity self.old.asks }
        ensures asked { names_asked self.new.asks.items ≡ names_asked self.old.asks.items ++ name ∷ [] }
        ensures places { place_at self.new.asks.items ≡ set_at (place_at self.old.asks.items) (length (names_asked self.old.asks.items)) 0 }
        ensures same_entries { self.new.entries.items ≡ self.old.entries.items }
        ensures same_makes { self.new.makes.items ≡ self.old.makes.items }
    {
        self.asks.push_reserved(Ask { name, place: 0 });
    }

    /// Keeps a call of `make_file` that made no file.
    pub fn ask_make(&mut self, name: Bytes)
        requires make_room { vec_len self.old.makes < vec_capacity self.old.makes }
        ensures makes { self.new.makes.items ≡ self.old.makes.items ++ name ∷ [] }
        ensures same_entries { self.new.entries ≡ self.old.entries }
        ensures same_asks { self.new.asks.items ≡ self.old.asks.items }
    {
        self.makes.push_reserved(name);
    }

    /// Gives a number to an opened file, and keeps its call under the asked name.
    pub fn open(&mut self, name: Bytes, asked: Bytes) -> u32
        requires number { vec_len self.old.entries < 2 ^ 32 }
        requires entry_room { vec_len self.old.entries < vec_capacity self.old.entries }
        requires ask_room { vec_len self.old.asks < vec_capacity self.old.asks }
        ensures asked { names_asked self.new.asks.items ≡ names_asked self.old.asks.items ++ asked ∷ [] }
        ensures places { place_at self.new.asks.items ≡ set_at (place_at self.old.asks.items) (length (names_asked self.old.asks.items)) 0 }
        ensures unused { handle_at self.old.entries.items result ≡ Closed }
        ensures handles { handle_at self.new.entries.items ≡ set_at (handle_at self.old.entries.items) result Opened }
        ensures names { name_at self.new.entries.items ≡ set_at (name_at self.old.entries.items) result name }
        ensures calls { call_at self.new.entries.items ≡ set_at (call_at self.old.entries.items) result (length (names_asked self.old.asks.items)) }
        ensures same_makes { self.new.makes.items ≡ self.old.makes.items }
    {
        let call = self.asks.len();
        self.asks.push_reserved(Ask {
            name: asked,
            place: 0,
        });
        let number = self.entries.len() as u32;
        self.entries.push_reserved(Entry {
            name,
            standing: Standing::Opened,
            call,
        });
        number
    }

    /// Gives a number to a made file, and keeps its call under the asked name.
    pub fn make(&mut self, name: Bytes, asked: Bytes) -> u32
        requires number { vec_len self.old.entries < 2 ^ 32 }
        requires entry_room { vec_len self.old.entries < vec_capacity self.old.entries }
        requires make_room { vec_len self.old.makes < vec_capacity self.old.makes }
        ensures makes { self.new.makes.items ≡ self.old.makes.items ++ asked ∷ [] }
        ensures unused { handle_at self.old.entries.items result ≡ Closed }
        ensures handles { handle_at self.new.entries.items ≡ set_at (handle_at self.old.entries.items) result Made }
        ensures names { name_at self.new.entries.items ≡ set_at (name_at self.old.entries.items) result name }
        ensures same_calls { call_at self.new.entries.items ≡ call_at self.old.entries.items }
        ensures same_asks { self.new.asks.items ≡ self.old.asks.items }
    {
        self.ask_make(asked);
        self.give_made(name)
    }

    fn give_made(&mut self, name: Bytes) -> u32
        requires number { vec_len self.old.entries < 2 ^ 32 }
        requires entry_room { vec_len self.old.entries < vec_capacity self.old.entries }
        ensures unused { handle_at self.old.entries.items result ≡ Closed }
        ensures handles { handle_at self.new.entries.items ≡ set_at (handle_at self.old.entries.items) result Made }
        ensures names { name_at self.new.entries.items ≡ set_at (name_at self.old.entries.items) result name }
        ensures same_calls { call_at self.new.entries.items ≡ call_at self.old.entries.items }
        ensures same_asks { self.new.asks.items ≡ self.old.asks.items }
        ensures same_makes { self.new.makes.items ≡ self.old.makes.items }
    {
        let number = self.entries.len() as u32;
        self.entries.push_reserved(Entry {
            name,
            standing: Standing::Made,
            call: 0,
        });
        number
    }

    pub fn name(&self, file: u32) -> &[u8]
        requires { handle_at self.now.entries.items file ≢ Closed }
        ensures { result.now ≡ name_at self.now.entries.items file }
    {
        self.entries[file as usize].name.as_slice()
    }

    /// The place up to which an opened file was taken.
    pub fn place(&self, file: u32) -> u64
        requires { handle_at self.now.entries.items file ≡ Opened }
        ensures { result ≡ place_at self.now.asks.items (call_at self.now.entries.items file) }
    {
        self.asks[self.entries[file as usize].call].place
    }

    /// Takes an opened file `count` bytes further.
    pub fn advance(&mut self, file: u32, count: usize)
        requires opened { handle_at self.old.entries.items file ≡ Opened }
        requires fits { place_at self.old.asks.items (call_at self.old.entries.items file) + count < 2 ^ 64 }
        ensures asked { names_asked self.new.asks.items ≡ names_asked self.old.asks.items }
        ensures places { place_at self.new.asks.items ≡ set_at (place_at self.old.asks.items) (call_at self.old.entries.items file) (place_at self.old.asks.items (call_at self.old.entries.items file) + count) }
        ensures same_entries { self.new.entries.items ≡ self.old.entries.items }
        ensures same_makes { self.new.makes.items ≡ self.old.makes.items }
    {
        let call = self.entries[file as usize].call;
        self.asks[call].place += count as u64;
    }

    pub fn close(&mut self, file: u32)
        requires { handle_at self.old.entries.items file ≢ Closed }
        ensures handles { handle_at self.new.entries.items ≡ set_at (handle_at self.old.entries.items) file Closed }
        ensures same_names { name_at self.new.entries.items ≡ name_at self.old.entries.items }
        ensures same_calls { call_at self.new.entries.items ≡ call_at self.old.entries.items }
        ensures same_asks { self.new.asks.items ≡ self.old.asks.items }
        ensures same_makes { self.new.makes.items ≡ self.old.makes.items }
    {
        self.entries[file as usize].standing = Standing::Closed;
    }
}
