use std::alloc::Global;
use std::test::Fail;
use xio::{
    Bytes, FileSink, Files, MemoryFiles, MemorySink, MemorySource, OutOfMemory, PrintBuffer,
    Printer, ReadEnd, Sink, SinkPrinter, Source, SteadyFiles, SteadySink, pass_on, read_all,
    read_file, write_all,
};

/// A read to the end of a source of the bytes `abcdef`: how it ends and what it leaves.
#[derive(Clone, Copy)]
struct SourceRow {
    failing: &'static [u32],
    bad_place: Option<u64>,
    limit: u64,
    end: Result<(), ReadEnd>,
    into: &'static [u8],
}

/// A read of a named file: how it ends and what it leaves.
#[derive(Clone, Copy)]
struct FileRow {
    name: &'static str,
    limit: u64,
    end: Result<(), ReadEnd>,
    into: &'static [u8],
}

fn source_reads(alloc: Global, row: &SourceRow) -> Result<bool, OutOfMemory> {
    let mut source = MemorySource::new(alloc, b"abcdef", row.failing, row.bad_place)?;
    let mut into = Bytes::new(alloc);
    let end = read_all(&mut source, row.limit, &mut into);
    Ok(end == row.end && into.as_slice() == row.into)
}

fn file_reads<F: Files>(alloc: Global, files: &mut F, row: &FileRow) -> bool {
    let mut into = Bytes::new(alloc);
    let end = read_file(files, row.name, row.limit, &mut into);
    end == row.end && into.as_slice() == row.into
}

/// Makes the named file, writes the bytes to it, flushes and closes it.
pub fn file_takes<F: Files>(files: &mut F, name: &str, bytes: &[u8]) -> bool {
    let Ok(file) = files.make_file(name) else {
        return false;
    };
    let mut sink = FileSink { files, file };
    let written = write_all(&mut sink, bytes).is_ok();
    let flushed = sink.flush().is_ok();
    let FileSink { files, file } = sink;
    files.close(file);
    written && flushed
}

/// Writes the piece, or flushes where there is none, and says how many bytes were written before a fault.
fn fault<K: Sink>(sink: &mut K, piece: Option<&[u8]>) -> Option<u64> {
    match piece {
        Some(piece) => write_all(sink, piece).err().map(|fault| fault.written),
        None => sink.flush().err().map(|_| 0),
    }
}

fn file_holds(files: &MemoryFiles, name: &str, bytes: Option<&[u8]>) -> bool {
    match (files.content(name), bytes) {
        (Some(content), Some(bytes)) => content == bytes,
        (None, None) => true,
        _ => false,
    }
}

#[test]
fn reads_sources(rt: HostRuntime) -> Result<(), Fail> {
    let rows = [
        SourceRow {
            failing: &[],
            bad_place: None,
            limit: 6,
            end: Ok(()),
            into: b"abcdef",
        },
        SourceRow {
            failing: &[],
            bad_place: None,
            limit: 5,
            end: Err(ReadEnd::TooLarge { limit: 5 }),
            into: b"",
        },
        SourceRow {
            failing: &[],
            bad_place: Some(4),
            limit: 6,
            end: Err(ReadEnd::ReadFault),
            into: b"abcd",
        },
        SourceRow {
            failing: &[2],
            bad_place: None,
            limit: 6,
            end: Err(ReadEnd::ReadFault),
            into: b"abcdef",
        },
    ];
    for row in &rows {
        assert!(rt; source_reads(rt.alloc(), row)?, "{:?}", row.end);
    }
    Ok(())
}

#[test]
fn reads_again_after_a_fault(rt: HostRuntime) -> Result<(), Fail> {
    let mut source = MemorySource::new(rt.alloc(), b"abcdef", &[1], None)?;
    let mut buffer = [0; 3];
    assert!(rt; source.read(&mut buffer).is_err());
    assert!(rt; source.read(&mut buffer).is_ok());
    assert_eq!(rt; buffer.as_slice(), b"abc".as_slice());
    Ok(())
}

#[test]
fn writes_within_the_room(rt: HostRuntime) -> Result<(), Fail> {
    let mut sink = MemorySink::new(rt.alloc(), 5, &[3])?;
    let rows: [(Option<&[u8]>, Option<u64>); 5] = [
        (Some(b"abc"), None),
        (Some(b"def"), Some(0)),
        (None, Some(0)),
        (None, None),
        (Some(b"de"), None),
    ];
    for (piece, expected) in rows {
        assert_eq!(rt; fault(&mut sink, piece), expected);
    }
    assert_eq!(rt; sink.bytes(), b"abcde".as_slice());
    Ok(())
}

#[test]
fn reads_named_files(rt: HostRuntime) -> Result<(), Fail> {
    let mut files = MemoryFiles::new(rt.alloc(), 8, &[3])?;
    files.add("a", b"abcdef", None)?;
    let rows = [
        FileRow {
            name: "a",
            limit: 6,
            end: Err(ReadEnd::ReadFault),
            into: b"abcdef",
        },
        FileRow {
            name: "a",
            limit: 6,
            end: Ok(()),
            into: b"abcdef",
        },
        FileRow {
            name: "b",
            limit: 6,
            end: Err(ReadEnd::ReadFault),
            into: b"",
        },
        FileRow {
            name: "a",
            limit: 5,
            end: Err(ReadEnd::TooLarge { limit: 5 }),
            into: b"",
        },
    ];
    for row in &rows {
        assert!(rt; file_reads(rt.alloc(), &mut files, row), "{:?}", row.end);
    }
    Ok(())
}

#[test]
fn makes_files_anew(rt: HostRuntime) -> Result<(), Fail> {
    let mut files = MemoryFiles::new(rt.alloc(), 4, &[1])?;
    files.add("a", b"old", Some(1))?;
    // What the named file holds after it was to take the text.
    let rows: [(&str, &[u8], bool, Option<&[u8]>); 4] = [
        ("a", b"new", false, Some(b"old")),
        ("a", b"new", true, Some(b"new")),
        ("b", b"newer", false, Some(b"")),
        ("c", b"newer", false, Some(b"")),
    ];
    assert!(rt; file_holds(&files, "b", None));
    for (name, text, takes, holds) in rows {
        assert_eq!(rt; file_takes(&mut files, name, text), takes);
        assert!(rt; file_holds(&files, name, holds), "{name}");
    }
    assert!(rt; file_holds(&files, "d", None));
    Ok(())
}

#[test]
fn steady_files_keep_what_was_added(rt: HostRuntime) -> Result<(), Fail> {
    let mut files = SteadyFiles::new(rt.alloc());
    files.add("a", b"abcdef")?;
    let whole = FileRow {
        name: "a",
        limit: 6,
        end: Ok(()),
        into: b"abcdef",
    };
    assert!(rt; file_reads(rt.alloc(), &mut files, &whole));
    for name in ["a", "b"] {
        assert!(rt; file_takes(&mut files, name, b"new"), "{name}");
    }
    for name in ["a", "b", "c"] {
        let empty = FileRow {
            name,
            limit: 0,
            end: Ok(()),
            into: b"",
        };
        assert!(rt; file_reads(rt.alloc(), &mut files, &empty), "{name}");
    }
    Ok(())
}

#[test]
fn a_steady_sink_takes_all(rt: HostRuntime) {
    let mut sink = SteadySink;
    assert_eq!(rt; fault(&mut sink, Some(b"abc")), None);
    assert_eq!(rt; sink.write(b"abc"), Ok(3));
    assert_eq!(rt; fault(&mut sink, None), None);
}

/// Prints the pieces to the sink and passes all on, and says whether none failed.
fn prints<K: Sink>(sink: &mut K, buffer: &mut PrintBuffer, pieces: &[&[u8]]) -> bool {
    let mut printer = SinkPrinter { sink, buffer };
    let mut prints = true;
    for piece in pieces {
        prints = prints && printer.print(*piece).is_ok();
    }
    let SinkPrinter { sink, buffer } = printer;
    prints && pass_on(sink, buffer).is_ok()
}

#[test]
fn prints_pieces(rt: HostRuntime) -> Result<(), Fail> {
    let long = vec![in rt.alloc(); b'x'; 20_000]?;
    let mut buffer = PrintBuffer::new(rt.alloc())?;
    let mut sink = MemorySink::new(rt.alloc(), 20_006, &[3])?;
    assert!(rt; prints(&mut sink, &mut buffer, &[b"abc", long.as_slice()]));
    assert!(rt; !prints(&mut sink, &mut buffer, &[b"lost"]));
    assert!(rt; prints(&mut sink, &mut buffer, &[b"d", b"ef"]));
    assert!(rt; sink.bytes().ends_with(b"xdef"));
    assert!(rt; sink.bytes().starts_with(b"abcx"));
    let mut bytes = Bytes::new(rt.alloc());
    bytes.print(b"ab")?;
    bytes.print(b"c")?;
    assert_eq!(rt; bytes.as_slice(), b"abc".as_slice());
    Ok(())
}
