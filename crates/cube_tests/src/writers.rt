//! Writers that fail in their own ways, and what `write_whole` makes of them.
use cube_lines::{WriteFault, write_whole};
use std::alloc::Global;
use std::io;
use std::io::Write;

// What a writer does once it is full.
#[derive(Clone, Copy)]
enum Full {
    TakesNothing,
    Fails(io::ErrorKind),
}

// A writer that takes few bytes at a time and counts its calls.
#[derive(Drop)]
struct Narrow {
    taken: Vec<u8>,
    width: usize,
    room: usize,
    full: Full,
    flush_fails: bool,
    writes: u32,
    flushes: u32,
}

impl Narrow {
    // Nothing was taken yet.
    fn new(alloc: Global, width: usize, room: usize, full: Full) -> Narrow {
        Narrow {
            taken: Vec::new(alloc),
            width,
            room,
            full,
            flush_fails: false,
            writes: 0,
            flushes: 0,
        }
    }
}

impl Write for Narrow {
    fn write(&mut self, bytes: &[u8]) -> io::Result<usize> {
        self.writes = self.writes.saturating_add(1);
        let room = self.room.saturating_sub(self.taken.len());
        if room == 0 {
            return match self.full {
                Full::TakesNothing => Ok(0),
                Full::Fails(kind) => Err(io::Error::from(kind)),
            };
        }
        let count = bytes.len().min(room).min(self.width);
        self.taken.extend_from_slice(&bytes[..count])?;
        Ok(count)
    }

    fn flush(&mut self) -> io::Result<()> {
        self.flushes = self.flushes.saturating_add(1);
        if self.flush_fails {
            return Err(io::Error::from(io::ErrorKind::BrokenPipe));
        }
        Ok(())
    }
}

const HEADER: &[u8] =
    b"region,kind,grouping(region),grouping(kind),count(*),sum(amount),min(amount),max(amount),avg(amount)\n";

const LETTERS: &[u8] = b"a,b,c,d\n";

const PIPE: Full = Full::Fails(io::ErrorKind::BrokenPipe);

const INTERRUPTED: Full = Full::Fails(io::ErrorKind::Interrupted);

#[test]
fn a_write_that_fails_is_not_tried_again(rt: HostRuntime) {
    let table = [
        (HEADER, 1, 10, PIPE, 11),
        (HEADER, 3, 10, PIPE, 5),
        (HEADER, 10, 10, PIPE, 2),
        (HEADER, 1000, 10, PIPE, 2),
        (LETTERS, 4, 0, Full::TakesNothing, 1),
        (LETTERS, 4, 4, Full::TakesNothing, 2),
        (LETTERS, 4, 5, Full::TakesNothing, 3),
        (LETTERS, 2, 4, INTERRUPTED, 3),
    ];
    for (text, width, room, full, writes) in table {
        let mut out = Narrow::new(rt.alloc(), width, room, full);
        assert_eq!(rt; write_whole(&mut out, text), Err(WriteFault { sent: room }));
        assert_eq!(rt; Some(out.taken.as_slice()), text.get(..room));
        assert_eq!(rt; out.writes, writes, "{width} bytes at a time");
        assert_eq!(rt; out.flushes, 0, "no flush after a failed write");
    }
}

#[test]
fn a_text_is_written_once_and_flushed_once(rt: HostRuntime) {
    let mut out = Narrow::new(rt.alloc(), 1, usize::MAX, PIPE);
    assert_eq!(rt; write_whole(&mut out, HEADER), Ok(()));
    assert_eq!(rt; out.taken.as_slice(), HEADER);
    assert_eq!(rt; out.writes, 101);
    assert_eq!(rt; out.flushes, 1);
    let mut none = Narrow::new(rt.alloc(), 1, 0, Full::TakesNothing);
    assert_eq!(rt; write_whole(&mut none, b""), Ok(()));
    assert_eq!(rt; none.writes, 0);
    assert_eq!(rt; none.flushes, 1);
    let mut torn = Narrow::new(rt.alloc(), 3, usize::MAX, PIPE);
    torn.flush_fails = true;
    assert_eq!(rt;
        write_whole(&mut torn, b"a,b\n"),
        Err(WriteFault { sent: 4 })
    );
    assert_eq!(rt; torn.taken.as_slice(), b"a,b\n".as_slice());
    assert_eq!(rt; torn.flushes, 1);
}
