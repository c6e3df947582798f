//! A `Counted` hands on the errors of the inner one: no clause can say so.
use keep_commands::counted::Counted;
use std::io;
use std::io::{ErrorKind, Read, Write};

// Each call of it fails with this error of the system.
#[derive(Drop)]
struct Failing {
    code: i32,
}

impl Read for Failing {
    fn read(&mut self, _: &mut [u8]) -> io::Result<usize> {
        Err(io::Error::from_raw_os_error(self.code))
    }
}

impl Write for Failing {
    fn write(&mut self, _: &[u8]) -> io::Result<usize> {
        Err(io::Error::from_raw_os_error(self.code))
    }

    fn flush(&mut self) -> io::Result<()> {
        Ok(())
    }
}

// Whether it is this error of the system, of this kind.
fn is_error(answer: &io::Result<usize>, code: i32, kind: ErrorKind) -> bool {
    match answer {
        Ok(_) => false,
        Err(error) => error.raw_os_error() == Some(code) && error.kind() == kind,
    }
}

#[test]
fn an_error_comes_through_as_the_inner_one_answered_it(rt: HostRuntime) {
    for (code, kind) in [
        (4, ErrorKind::Interrupted),
        (28, ErrorKind::StorageFull),
        (32, ErrorKind::BrokenPipe),
    ] {
        let mut input = Counted::new(Failing { code });
        let answer = input.read(&mut [0; 4]);
        assert!(rt; is_error(&answer, code, kind), "reading: {code}");
        assert_eq!(rt; input.calls(), 1);
        assert!(rt; input.failed());
        let mut output = Counted::new(Failing { code });
        let answer = output.write(b"abc");
        assert!(rt; is_error(&answer, code, kind), "writing: {code}");
        assert_eq!(rt; output.calls(), 1);
        assert!(rt; output.failed());
    }
}

// Answers one byte less than it is asked for, and remembers how often it was asked, and for how many bytes.
#[derive(Drop)]
struct Remembering {
    calls: u64,
    asked: usize,
}

fn make_remembering() -> Remembering {
    Remembering {
        calls: 0,
        asked: 99,
    }
}

impl Read for Remembering {
    fn read(&mut self, buf: &mut [u8]) -> io::Result<usize> {
        self.calls = self.calls.saturating_add(1);
        self.asked = buf.len();
        let count = buf.len().saturating_sub(1);
        buf[..count].fill(b'x');
        Ok(count)
    }
}

impl Write for Remembering {
    fn write(&mut self, buf: &[u8]) -> io::Result<usize> {
        self.calls = self.calls.saturating_add(1);
        self.asked = buf.len();
        Ok(buf.len().saturating_sub(1))
    }

    fn flush(&mut self) -> io::Result<()> {
        Ok(())
    }
}

#[test]
fn a_read_asks_the_inner_one_once_for_the_whole_buffer(rt: HostRuntime) {
    for size in 0..5usize {
        let mut buffer = [b'-'; 4];
        let mut input = Counted::new(make_remembering());
        let answer = input.read(&mut buffer[..size]);
        let count = size.saturating_sub(1);
        assert!(rt;
            matches!(&answer, Ok(stated) if *stated == count),
            "of {size}"
        );
        let given = buffer.iter().filter(|byte| **byte == b'x').count();
        assert_eq!(rt; given, count, "of {size}");
        let inner = input.into_inner();
        assert_eq!(rt; inner.calls, 1, "of {size}");
        assert_eq!(rt; inner.asked, size);
    }
}

#[test]
fn a_write_gives_the_inner_one_the_whole_buffer_once(rt: HostRuntime) {
    for size in 0..5usize {
        let mut output = Counted::new(make_remembering());
        let answer = output.write(&b"abcd"[..size]);
        let count = size.saturating_sub(1);
        assert!(rt;
            matches!(&answer, Ok(stated) if *stated == count),
            "of {size}"
        );
        let inner = output.into_inner();
        assert_eq!(rt; inner.calls, 1, "of {size}");
        assert_eq!(rt; inner.asked, size);
    }
}
