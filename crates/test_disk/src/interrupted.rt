// Streams that a signal interrupts: a read or write is made again, and is no fault.
use afs_outside::outside::{HostSink, HostSource, Sink, Source};
use std::io;
use std::io::{ErrorKind, Read, Write};

/// A stream of which every other call is interrupted, the first one too.
#[derive(Drop)]
struct Interrupted<T> {
    inner: T,
    was_last: bool,
}

impl<T> Interrupted<T> {
    fn new(inner: T) -> Self {
        Interrupted {
            inner,
            was_last: false,
        }
    }

    fn turn(&mut self) -> io::Result<()> {
        self.was_last = !self.was_last;
        if self.was_last {
            return Err(io::Error::from(ErrorKind::Interrupted));
        }
        Ok(())
    }
}

impl<T: Read> Read for Interrupted<T> {
    fn read(&mut self, buf: &mut [u8]) -> io::Result<usize> {
        self.turn()?;
        self.inner.read(buf)
    }
}

impl<T: Write> Write for Interrupted<T> {
    fn write(&mut self, buf: &[u8]) -> io::Result<usize> {
        self.turn()?;
        self.inner.write(buf)
    }

    fn flush(&mut self) -> io::Result<()> {
        self.inner.flush()
    }
}

#[test]
fn an_interrupted_read_is_made_again(rt: HostRuntime) {
    let mut source = HostSource::new(Interrupted::new(b"cell 1\n".as_slice()));
    let mut bytes = [0; 8];
    assert_eq!(rt; source.read(&mut bytes), Ok(7));
    assert_eq!(rt; bytes, *b"cell 1\n\0");
}

#[test]
fn an_interrupted_write_is_made_again(rt: HostRuntime) {
    let mut out = Vec::new(rt.alloc());
    assert_eq!(rt;
        HostSink::new(Interrupted::new(&mut out)).write(b"end\n"),
        Ok(4)
    );
    assert_eq!(rt; out.as_slice(), b"end\n".as_slice());
}
