// The texts of the lines.

ghost use Rattle.std.specs.Prelude.{◌≡◌, ◌<◌, ◌∷◌, ◌++◌, [], IfOk, string_bytes};
ghost use Rattle.sby_lines.specs.Texts.{answer_text, broken_text, cert_kind_text, cert_text, design_kind_text, design_text, done_text, fault_text, file_text, hold_failed_text, lane_text, line_of, memory_text, not_served_text, not_written_text, reached_text, read_failed_text, read_kind_text, read_text, sby_kind_text, sby_text, settled_text, skipped_text, start_failed_text, status_text, stopped_text, streams_text, task_kind_text, too_many_text, trace_path, unknown_text, unreached_text, usage_line};

use crate::counts::Counts;
use cert_judge::CertKind;
use design_check::fault::FaultKind;
use design_reader::ReadFaultKind;
use sby_file::SbyKind;
use sby_task::TaskKind;
use sby_terms::{Answer, Mode, Status};
use std::alloc::{AllocError, Global};

/// The usage line.
#[tactic(auto, unfolding(crate::specs::Texts::usage_line))]
pub fn usage_line() -> &'static str
    ensures { result.now ≡ usage_line }
{
    "usage: sby [-f] [-j M] [-d DIR] FILE.sby [TASK ..] | sby [-d DIR] --judge DESIGN MODE DEPTH [STREAM ..] | sby --dumptasks FILE.sby | sby [-d DIR] --gen N\n"
}

#[tactic(auto, unfolding(crate::specs::Texts::line_of))]
pub fn line_of(alloc: Global, name: &str, text: &str) -> Result<String, AllocError>
    ensures { IfOk result (λ t. string_bytes t ≡ line_of name.now text.now) }
{
    format!(in alloc; "SBY [{name}] {text}\n")
}

/// A name's line.
pub fn name_line(alloc: Global, name: &str) -> Result<String, AllocError>
    ensures { IfOk result (λ t. string_bytes t ≡ name.now ++ 10 ∷ []) }
{
    format!(in alloc; "{name}\n")
}

#[tactic(auto, unfolding(crate::specs::Texts::answer_text))]
pub fn answer_text(answer: Answer) -> &'static str
    ensures { result.now ≡ answer_text answer }
{
    match answer {
        Answer::Sat => "SAT",
        Answer::Unsat => "UNSAT",
    }
}

#[tactic(auto, unfolding(crate::specs::Texts::status_text))]
pub fn status_text(status: Status) -> &'static str
    ensures { result.now ≡ status_text status }
{
    match status {
        Status::Pass => "PASS",
        Status::Fail => "FAIL",
        Status::Unknown => "UNKNOWN",
        Status::Error => "ERROR",
        Status::Timeout => "TIMEOUT",
        Status::Memory => "MEMORY",
    }
}

#[tactic(auto, unfolding(crate::specs::Texts::read_kind_text))]
pub fn read_kind_text(kind: ReadFaultKind) -> &'static str
    ensures { result.now ≡ read_kind_text kind }
{
    match kind {
        ReadFaultKind::Limit => "Limit",
        ReadFaultKind::Syntax => "Syntax",
        ReadFaultKind::NotUtf8Name => "NotUtf8Name",
        ReadFaultKind::DoubleName => "DoubleName",
        ReadFaultKind::UnknownWire => "UnknownWire",
        ReadFaultKind::Index => "Index",
        ReadFaultKind::LeftOut => "LeftOut",
        ReadFaultKind::NoModule => "NoModule",
        ReadFaultKind::SeveralModules => "SeveralModules",
    }
}

#[tactic(auto, unfolding(crate::specs::Texts::design_kind_text))]
pub fn design_kind_text(kind: FaultKind) -> &'static str
    ensures { result.now ≡ design_kind_text kind }
{
    match kind {
        FaultKind::UnknownCell => "UnknownCell",
        FaultKind::LeftOut => "LeftOut",
        FaultKind::BadParameter => "BadParameter",
        FaultKind::PortWidth => "PortWidth",
        FaultKind::WidthLimit => "WidthLimit",
        FaultKind::MixedSign => "MixedSign",
        FaultKind::TwoDrivers => "TwoDrivers",
        FaultKind::MultiClock => "MultiClock",
        FaultKind::InitConflict => "InitConflict",
        FaultKind::Loop => "Loop",
    }
}

#[tactic(auto, unfolding(crate::specs::Texts::cert_kind_text))]
pub fn cert_kind_text(kind: CertKind) -> &'static str
    ensures { result.now ≡ cert_kind_text kind }
{
    match kind {
        CertKind::BadLine => "BadLine at byte",
        CertKind::BadLiteral => "BadLiteral at byte",
        CertKind::LineTooLong => "LineTooLong at byte",
        CertKind::NotRup => "NotRup at byte",
        CertKind::NotSatisfying => "NotSatisfying clause",
        CertKind::NotPlaying => "NotPlaying frame",
        CertKind::TooLong => "TooLong at byte",
        CertKind::EarlyEnd => "EarlyEnd at byte",
        CertKind::BadWitness => "BadWitness at byte",
        CertKind::BadId => "BadId at byte",
        CertKind::BadHint => "BadHint at byte",
        CertKind::NotHinted => "NotHinted at byte",
        CertKind::BadPart => "BadPart at byte",
        CertKind::NotInvariant => "NotInvariant at byte",
    }
}

#[tactic(auto, unfolding(crate::specs::Texts::sby_kind_text))]
pub fn sby_kind_text(kind: SbyKind) -> &'static str
    ensures { result.now ≡ sby_kind_text kind }
{
    match kind {
        SbyKind::NotText => "NotText",
        SbyKind::StrayLine => "StrayLine",
        SbyKind::UnknownSection => "UnknownSection",
        SbyKind::DoubleSection => "DoubleSection",
        SbyKind::DoubleTask => "DoubleTask",
        SbyKind::PrefixWithoutTasks => "PrefixWithoutTasks",
        SbyKind::UnknownTask => "UnknownTask",
        SbyKind::DoubleFile => "DoubleFile",
        SbyKind::Limit => "Limit",
    }
}

#[tactic(auto, unfolding(crate::specs::Texts::task_kind_text))]
pub fn task_kind_text(kind: TaskKind) -> &'static str
    ensures { result.now ≡ task_kind_text kind }
{
    match kind {
        TaskKind::UnknownTask => "UnknownTask",
        TaskKind::Limit => "Limit",
        TaskKind::UnknownOption => "UnknownOption",
        TaskKind::DoubleOption => "DoubleOption",
        TaskKind::BadValue => "BadValue",
        TaskKind::NoMode => "NoMode",
        TaskKind::NoEngine => "NoEngine",
        TaskKind::LeftOutEngine => "LeftOutEngine",
        TaskKind::UnknownEngine => "UnknownEngine",
        TaskKind::Script => "Script",
        TaskKind::MissingFile => "MissingFile",
        TaskKind::Slices => "Slices",
        TaskKind::Marks => "Marks",
    }
}

#[tactic(auto, unfolding(crate::specs::Texts::sby_text))]
pub fn sby_text(alloc: Global, line: usize, kind: &str) -> Result<String, AllocError>
    ensures { IfOk result (λ t. string_bytes t ≡ sby_text line kind.now) }
{
    format!(in alloc; "ERROR: sby line {line}: {kind}")
}

#[tactic(auto, unfolding(crate::specs::Texts::file_text))]
pub fn file_text(alloc: Global, path: &str) -> Result<String, AllocError>
    ensures { IfOk result (λ t. string_bytes t ≡ file_text path.now) }
{
    format!(in alloc; "ERROR: file {path}")
}

#[tactic(auto, unfolding(crate::specs::Texts::read_text))]
pub fn read_text(alloc: Global, byte: u64, kind: &str) -> Result<String, AllocError>
    ensures { IfOk result (λ t. string_bytes t ≡ read_text byte kind.now) }
{
    format!(in alloc; "ERROR: rtlil byte {byte}: {kind}")
}

#[tactic(auto, unfolding(crate::specs::Texts::fault_text))]
pub fn fault_text(alloc: Global, kind: &str, name: &str) -> Result<String, AllocError>
    ensures { IfOk result (λ t. string_bytes t ≡ fault_text kind.now name.now) }
{
    format!(in alloc; "ERROR: design {kind} {name}")
}

#[tactic(auto, unfolding(crate::specs::Texts::too_many_text))]
pub fn too_many_text(alloc: Global, job: &str) -> Result<String, AllocError>
    ensures { IfOk result (λ t. string_bytes t ≡ too_many_text job.now) }
{
    format!(in alloc; "ERROR: {job} TooMany")
}

#[tactic(auto, unfolding(crate::specs::Texts::streams_text))]
pub fn streams_text(alloc: Global) -> Result<String, AllocError>
    ensures { IfOk result (λ t. string_bytes t ≡ streams_text) }
{
    String::from_str(alloc, "ERROR: streams")
}

#[tactic(auto, unfolding(crate::specs::Texts::design_text))]
pub fn design_text(alloc: Global, counts: &Counts) -> Result<String, AllocError>
    ensures { IfOk result (λ t. string_bytes t ≡ design_text counts.now) }
{
    let Counts {
        registers,
        asserts,
        assumes,
        covers,
    } = *counts;
    format!(in alloc;
        "design: {registers} register bits, {asserts} assert, {assumes} assume, {covers} cover"
    )
}

#[tactic(auto, unfolding(crate::specs::Texts::settled_text))]
pub fn settled_text(alloc: Global, job: &str, answer: &str) -> Result<String, AllocError>
    ensures { IfOk result (λ t. string_bytes t ≡ settled_text job.now answer.now) }
{
    format!(in alloc; "{job}: {answer}")
}

#[tactic(auto, unfolding(crate::specs::Texts::cert_text))]
pub fn cert_text(alloc: Global, kind: &str, at: u64) -> Result<String, AllocError>
    ensures { IfOk result (λ t. string_bytes t ≡ cert_text kind.now at) }
{
    format!(in alloc; "certificate {kind} {at}")
}

#[tactic(auto, unfolding(crate::specs::Texts::lane_text))]
pub fn lane_text(alloc: Global, lane: u32, job: &str, text: &str) -> Result<String, AllocError>
    ensures { IfOk result (λ t. string_bytes t ≡ lane_text lane job.now text.now) }
{
    format!(in alloc; "engine_{lane} {job}: {text}")
}

#[tactic(auto, unfolding(crate::specs::Texts::unknown_text))]
pub fn unknown_text(alloc: Global) -> Result<String, AllocError>
    ensures { IfOk result (λ t. string_bytes t ≡ unknown_text) }
{
    String::from_str(alloc, "unknown")
}

#[tactic(auto, unfolding(crate::specs::Texts::not_served_text))]
pub fn not_served_text(alloc: Global) -> Result<String, AllocError>
    ensures { IfOk result (λ t. string_bytes t ≡ not_served_text) }
{
    String::from_str(alloc, "not served")
}

#[tactic(auto, unfolding(crate::specs::Texts::read_failed_text))]
pub fn read_failed_text(alloc: Global) -> Result<String, AllocError>
    ensures { IfOk result (λ t. string_bytes t ≡ read_failed_text) }
{
    String::from_str(alloc, "read failed")
}

#[tactic(auto, unfolding(crate::specs::Texts::start_failed_text))]
pub fn start_failed_text(alloc: Global) -> Result<String, AllocError>
    ensures { IfOk result (λ t. string_bytes t ≡ start_failed_text) }
{
    String::from_str(alloc, "start failed")
}

#[tactic(auto, unfolding(crate::specs::Texts::hold_failed_text))]
pub fn hold_failed_text(alloc: Global) -> Result<String, AllocError>
    ensures { IfOk result (λ t. string_bytes t ≡ hold_failed_text) }
{
    String::from_str(alloc, "hold failed")
}

#[tactic(auto, unfolding(crate::specs::Texts::memory_text))]
pub fn memory_text(alloc: Global) -> Result<String, AllocError>
    ensures { IfOk result (λ t. string_bytes t ≡ memory_text) }
{
    String::from_str(alloc, "out of memory")
}

#[tactic(auto, unfolding(crate::specs::Texts::broken_text))]
pub fn broken_text(alloc: Global, name: &str, cycle: usize) -> Result<String, AllocError>
    ensures { IfOk result (λ t. string_bytes t ≡ broken_text name.now cycle) }
{
    format!(in alloc; "broken: {name} at cycle {cycle}")
}

#[tactic(auto, unfolding(crate::specs::Texts::reached_text))]
pub fn reached_text(alloc: Global, name: &str, cycle: usize) -> Result<String, AllocError>
    ensures { IfOk result (λ t. string_bytes t ≡ reached_text name.now cycle) }
{
    format!(in alloc; "reached: {name} at cycle {cycle}")
}

#[tactic(auto, unfolding(crate::specs::Texts::unreached_text))]
pub fn unreached_text(alloc: Global, name: &str) -> Result<String, AllocError>
    ensures { IfOk result (λ t. string_bytes t ≡ unreached_text name.now) }
{
    format!(in alloc; "unreached: {name}")
}

#[tactic(auto, unfolding(crate::specs::Texts::done_text))]
pub fn done_text(alloc: Global, status: &str, rc: u8) -> Result<String, AllocError>
    ensures { IfOk result (λ t. string_bytes t ≡ done_text status.now rc) }
{
    format!(in alloc; "DONE ({status}, rc={rc})")
}

/// The cycles before the first that a task looks at.
#[tactic(auto, unfolding(crate::specs::Texts::skipped_text))]
pub fn skipped_text(alloc: Global, skip: u32) -> Result<String, AllocError>
    requires { 0 < skip }
    ensures { IfOk result (λ t. string_bytes t ≡ skipped_text skip) }
{
    let last = skip - 1;
    format!(in alloc; "skipped: cycles 0 to {last}")
}

/// The reading that stopped a lane, the one at which the lanes started, and the limit, in milliseconds.
#[tactic(auto, unfolding(crate::specs::Texts::stopped_text))]
pub fn stopped_text(
    alloc: Global,
    reading: u64,
    start: u64,
    limit: u64,
) -> Result<String, AllocError>
    ensures { IfOk result (λ t. string_bytes t ≡ stopped_text reading start limit) }
{
    format!(in alloc; "stopped at {reading}, started at {start}, limit {limit}")
}

#[tactic(auto, unfolding(crate::specs::Texts::not_written_text))]
pub fn not_written_text(alloc: Global, path: &str) -> Result<String, AllocError>
    ensures { IfOk result (λ t. string_bytes t ≡ not_written_text path.now) }
{
    format!(in alloc; "not written: {path}")
}

/// The path of a trace file in the work folder. Those of cover are numbered as the statements are.
#[tactic(auto, unfolding(crate::specs::Texts::trace_path))]
pub fn trace_path(
    alloc: Global,
    folder: &str,
    mode: Mode,
    number: u32,
) -> Result<String, AllocError>
    ensures { IfOk result (λ t. string_bytes t ≡ trace_path folder.now mode number) }
{
    match mode {
        Mode::Bmc | Mode::Prove | Mode::ProveInv => format!(in alloc; "{folder}/trace.vcd"),
        Mode::Cover => format!(in alloc; "{folder}/trace{number}.vcd"),
    }
}
