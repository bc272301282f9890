// Tests of a source over a reader and a sink over a writer.
use std::io::{self, Read, Write};
use wx_bytes::{ReadFault, Sink, Source, StdSink, StdSource, WriteFault};

/// Fails at each call, or gives and takes nothing.
#[derive(Drop)]
struct Broken {
    code: i32,
}

impl Read for Broken {
    fn read(&mut self, _buf: &mut [u8]) -> io::Result<usize> {
        if self.code == 0 {
            return Ok(0);
        }
        Err(io::Error::from_raw_os_error(self.code))
    }
}

impl Write for Broken {
    fn write(&mut self, _buf: &[u8]) -> io::Result<usize> {
        if self.code == 0 {
            return Ok(0);
        }
        Err(io::Error::from_raw_os_error(self.code))
    }

    fn flush(&mut self) -> io::Result<()> {
        Ok(())
    }
}

#[test]
fn gives_the_systems_code(rt: HostRuntime) {
    let mut source = StdSource::new(Broken { code: 5 });
    let mut buf = [0u8; 4];
    assert!(rt; source.read(&mut buf) == Err(ReadFault(5)));
    assert!(rt; source.read(&mut buf) == Err(ReadFault(5)));
    assert_eq!(rt; source.faults(), 2);
    let mut sink = StdSink::new(Broken { code: 28 });
    assert!(rt; sink.write(b"x") == Err(WriteFault(28)));
    assert_eq!(rt; sink.faults(), 1);
}

#[test]
fn takes_a_write_of_nothing_as_a_fault(rt: HostRuntime) {
    let mut sink = StdSink::new(Broken { code: 0 });
    assert!(rt; sink.write(b"x") == Err(WriteFault(0)));
    assert!(rt; sink.write(b"") == Ok(0));
    assert_eq!(rt; sink.faults(), 1);
}
