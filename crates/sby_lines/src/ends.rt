// The texts of faults and ends.

ghost use Rattle.std.specs.Prelude.{◌≡◌, ◌≢◌, IfOk, OnErr, None, Some, option_map, string_bytes};
ghost use Rattle.sby_lines.specs.Lines.{HasLine, IsStatus, bad_text, early_text, end_text};
ghost use Rattle.sby_lines.specs.Told.{CameTo, Request};
ghost use Rattle.cert_judge.specs.Numbers.{kind_of};

use crate::early::Early;
use crate::text;
use cert_judge::CertKind;
use judge::Finding;
use race_core::JobEnd;
use sby_terms::{Status, job_text};
use std::alloc::{AllocError, Global};

fn fault_text(alloc: Global, slices: u32, early: &Early) -> Result<String, AllocError>
    requires { early_text slices early.now ≢ None }
    ensures { IfOk result (λ t. early_text slices early.now ≡ Some (string_bytes t)) }
{
    match early {
        Early::File(path) => text::file_text(alloc, path),
        Early::Sby(fault) => text::sby_text(alloc, fault.line, text::sby_kind_text(fault.kind)),
        Early::Task(fault) => text::sby_text(alloc, fault.line, text::task_kind_text(fault.kind)),
        Early::Read(fault) => text::read_text(alloc, fault.byte, text::read_kind_text(fault.kind)),
        Early::Design(fault) => {
            text::fault_text(alloc, text::design_kind_text(fault.kind()), fault.name())
        }
        Early::TooMany(job) => {
            let job = job_text(alloc, slices, *job)?;
            text::too_many_text(alloc, job.as_str())
        }
        Early::Streams => text::streams_text(alloc),
        Early::Memory => unreachable!(),
    }
}

/// What is printed of a fault before the lanes of a task with this many slices. Out of memory has no text.
pub fn early_text(alloc: Global, slices: u32, early: &Early) -> Result<Option<String>, AllocError>
    ensures ok { IfOk result (λ t. option_map string_bytes t ≡ early_text slices early.now) }
    ensures err { OnErr result (early_text slices early.now ≢ None) }
{
    if matches!(early, Early::Memory) {
        return Ok(None);
    }
    let text = fault_text(alloc, slices, early)?;
    Ok(Some(text))
}

// What is printed of a certificate's fault by its kind's number.
fn bad_text(alloc: Global, no: u8, at: u64) -> Result<Option<String>, AllocError>
    ensures ok { IfOk result (λ t. option_map string_bytes t ≡ bad_text (kind_of no) at) }
    ensures err { OnErr result (bad_text (kind_of no) at ≢ None) }
{
    match CertKind::of_number(no) {
        None => Ok(None),
        Some(kind) => {
            let text = text::cert_text(alloc, text::cert_kind_text(kind), at)?;
            Ok(Some(text))
        }
    }
}

// What is printed of an end that always has a line.
fn told_text(alloc: Global, end: &JobEnd<Finding>) -> Result<String, AllocError>
    requires { HasLine end.now }
    ensures ok { IfOk result (λ t. end_text end.now ≡ Some (string_bytes t)) }
    ensures line { end_text end.now ≢ None }
{
    match end {
        JobEnd::Unknown => text::unknown_text(alloc),
        JobEnd::NotServed => text::not_served_text(alloc),
        JobEnd::ReadFailed => text::read_failed_text(alloc),
        JobEnd::StartFailed => text::start_failed_text(alloc),
        JobEnd::HoldFailed => text::hold_failed_text(alloc),
        JobEnd::Memory => text::memory_text(alloc),
        JobEnd::Bad { .. }
        | JobEnd::Found(_)
        | JobEnd::Skipped(_)
        | JobEnd::CalledOff(_)
        | JobEnd::Stopped(_) => { unreachable!() }
    }
}

/// What is printed of an unsettled job's end. A lane that was stopped or called off has no text.
pub fn end_text(alloc: Global, end: &JobEnd<Finding>) -> Result<Option<String>, AllocError>
    ensures ok { IfOk result (λ t. option_map string_bytes t ≡ end_text end.now) }
    ensures err { OnErr result (end_text end.now ≢ None) }
{
    match end {
        JobEnd::Found(_) | JobEnd::Skipped(_) | JobEnd::CalledOff(_) | JobEnd::Stopped(_) => {
            Ok(None)
        }
        JobEnd::Bad { no, at } => bad_text(alloc, *no, *at),
        JobEnd::Unknown
        | JobEnd::NotServed
        | JobEnd::ReadFailed
        | JobEnd::StartFailed
        | JobEnd::HoldFailed
        | JobEnd::Memory => {
            let text = told_text(alloc, end)?;
            Ok(Some(text))
        }
    }
}

/// The status of a task with a fault before its lanes.
pub fn early_status(early: &Early) -> Status
    ensures { (request : Request) (c : CameTo) → IsStatus request (Some early.now) c result }
{
    match early {
        Early::Memory => Status::Memory,
        Early::File(_)
        | Early::Sby(_)
        | Early::Task(_)
        | Early::Read(_)
        | Early::Design(_)
        | Early::TooMany(_)
        | Early::Streams => Status::Error,
    }
}
