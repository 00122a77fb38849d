use crate::streams::file_takes;
use std::alloc::Global;
use std::io::{Error, ErrorKind, Read, Write};
use std::test::Fail;
use std::{env, fs, io};
use xio::{Bytes, Files, RealFiles, RealOut, Sink, read_again, read_file, write_all};

/// A stream of which every other call is interrupted.
#[derive(Drop)]
struct Stuttering {
    calls: u32,
}

impl Stuttering {
    fn call(&mut self) -> io::Result<()> {
        self.calls = self.calls.wrapping_add(1);
        if self.calls % 2 == 1 {
            Err(Error::from(ErrorKind::Interrupted))
        } else {
            Ok(())
        }
    }
}

impl Read for Stuttering {
    fn read(&mut self, buffer: &mut [u8]) -> io::Result<usize> {
        self.call()?;
        Ok(buffer.len())
    }
}

impl Write for Stuttering {
    fn write(&mut self, piece: &[u8]) -> io::Result<usize> {
        self.call()?;
        Ok(piece.len())
    }

    fn flush(&mut self) -> io::Result<()> {
        self.call()
    }
}

#[test]
fn makes_interrupted_calls_again(rt: HostRuntime) {
    let mut stream = Stuttering { calls: 0 };
    let mut buffer = [0; 2];
    assert_eq!(rt; read_again(&mut stream, &mut buffer), Ok(2));
    let mut out = RealOut::new(stream);
    assert_eq!(rt; write_all(&mut out, b"abc"), Ok(()));
    assert_eq!(rt; out.flush(), Ok(()));
}

fn file_has<F: Files>(alloc: Global, files: &mut F, name: &str, bytes: &[u8]) -> bool {
    let mut into = Bytes::new(alloc);
    read_file(files, name, 3, &mut into).is_ok() && into.as_slice() == bytes
}

#[test]
fn makes_and_reads_a_real_file(rt: HostRuntime) -> Result<(), Fail> {
    let mut path = env::temp_dir(&rt)?;
    path.push("xio_makes_and_reads_a_real_file")?;
    let mut files = RealFiles::new(rt.alloc(), &rt);
    assert!(rt; file_takes(&mut files, path.as_str(), b"abc"));
    assert!(rt; file_has(rt.alloc(), &mut files, path.as_str(), b"abc"));
    fs::remove_file(&rt, path.as_str())?;
    assert!(rt; !file_has(rt.alloc(), &mut files, path.as_str(), b"abc"));
    Ok(())
}

#[test]
fn leaves_a_file_that_was_opened(rt: HostRuntime) -> Result<(), Fail> {
    let mut path = env::temp_dir(&rt)?;
    path.push(".")?;
    path.push("xio_leaves_a_file_that_was_opened")?;
    fs::write(&rt, path.as_str(), "abc")?;
    let mut link = env::temp_dir(&rt)?;
    link.push("xio_link_to_a_file_that_was_opened")?;
    fs::hard_link(&rt, path.as_str(), link.as_str())?;
    let mut files = RealFiles::new(rt.alloc(), &rt);
    assert!(rt; file_has(rt.alloc(), &mut files, path.as_str(), b"abc"));
    for name in [path.as_str(), link.as_str()] {
        assert!(rt; !file_takes(&mut files, name, b"new"), "{name}");
    }
    assert_eq!(rt; fs::read_to_string(&rt, path.as_str())?.as_str(), "abc");
    fs::remove_file(&rt, path.as_str())?;
    assert!(rt; file_takes(&mut files, path.as_str(), b"new"));
    fs::remove_file(&rt, path.as_str())?;
    fs::remove_file(&rt, link.as_str())?;
    Ok(())
}

#[test]
fn writes_to_a_real_file(rt: HostRuntime) -> Result<(), Fail> {
    let mut path = env::temp_dir(&rt)?;
    path.push("xio_writes_to_a_real_file")?;
    let mut out = RealOut::new(fs::File::create(&rt, path.as_str())?);
    assert_eq!(rt; write_all(&mut out, b"abc"), Ok(()));
    assert_eq!(rt; out.flush(), Ok(()));
    assert_eq!(rt; fs::read_to_string(&rt, path.as_str())?.as_str(), "abc");
    fs::remove_file(&rt, path.as_str())?;
    Ok(())
}
