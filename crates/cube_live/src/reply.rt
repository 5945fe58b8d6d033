//! The lines that replies begin with or are.
ghost use Rattle.std.specs.Prelude.{◌≡◌, IfOk};
ghost use Rattle.cube_live.specs.Session.{code_line, code_text, ok_line, query_code};

use crate::request::RequestFault;
use cube_core::QueryFault;
use itoa::Buffer;
use std::alloc::{AllocError, Global};

/// The code of what is wrong with a record.
pub fn code_text(fault: &RequestFault) -> &'static str
    ensures { result.now ≡ code_text fault.now }
{
    match fault {
        RequestFault::Unknown => "Q1",
        RequestFault::Shape => "Q2",
        RequestFault::Query(fault) => query_code(*fault),
    }
}

// The code of what is wrong with a query.
fn query_code(fault: QueryFault) -> &'static str
    ensures { result.now ≡ query_code fault }
{
    match fault {
        QueryFault::Fields => "P1",
        QueryFault::Field => "P2",
        QueryFault::NotCell => "P3",
        QueryFault::NotRolled => "P4",
        QueryFault::UnknownDimension => "P5",
        QueryFault::Memory => "P6",
        QueryFault::NotGrouped => "P7",
        QueryFault::Condition => "P8",
    }
}

/// The line that says how many bytes follow it. The only error is that memory ran out.
pub fn ok_line(alloc: Global, count: usize) -> Result<Vec<u8>, AllocError>
    ensures { IfOk result (λ line. line.items ≡ ok_line count) }
{
    let mut digits = Buffer::new();
    let mut line = Vec::new(alloc);
    line.extend_from_slice(b"ok ")?;
    line.extend_from_slice(digits.format(count).as_bytes())?;
    line.extend_from_slice(b"\n")?;
    Ok(line)
}

/// The line of a code. The only error is that memory ran out.
pub fn code_line(alloc: Global, fault: &RequestFault) -> Result<Vec<u8>, AllocError>
    ensures { IfOk result (λ line. line.items ≡ code_line fault.now) }
{
    let mut line = Vec::new(alloc);
    line.extend_from_slice(code_text(fault).as_bytes())?;
    line.extend_from_slice(b"\n")?;
    Ok(line)
}
