//! Commands whose readers fail, and the lines of failures that no command can be made to show.
use cube_core::SchemaFault;
use cube_lines::WriteFault;
use cube_tool::RunFault;
use cube_tool::command::{Failure, check};
use std::io;
use std::io::Read;
use std::test::Fail;

// Fails at each read.
#[derive(Drop)]
struct Refusing {
    kind: io::ErrorKind,
}

impl Read for Refusing {
    fn read(&mut self, _buf: &mut [u8]) -> io::Result<usize> {
        Err(io::Error::from(self.kind))
    }
}

#[test]
fn a_schema_whose_reading_wants_memory_is_told_from_one_that_fails(rt: HostRuntime) {
    let mut out = Vec::new(rt.alloc());
    let wanting = Refusing {
        kind: io::ErrorKind::OutOfMemory,
    };
    let memory = Failure::Schema(SchemaFault::Memory);
    assert_eq!(rt; check(rt.alloc(), wanting, &mut out), Err(memory));
    let denied = Refusing {
        kind: io::ErrorKind::PermissionDenied,
    };
    assert_eq!(rt;
        check(rt.alloc(), denied, &mut out),
        Err(Failure::Unreadable)
    );
    assert_eq!(rt; out.as_slice().len(), 0);
}

#[test]
fn failures_that_no_command_shows_have_their_lines(rt: HostRuntime) -> Result<(), Fail> {
    let unsealed = Failure::Run(RunFault::Unsealed { source: 2 });
    assert_eq!(rt; unsealed.to_string(rt.alloc())?.as_str(), "datacube: G5 2");
    let write = WriteFault { sent: 7 };
    assert_eq!(rt; write.to_string(rt.alloc())?.as_str(), "WriteFault");
    Ok(())
}
