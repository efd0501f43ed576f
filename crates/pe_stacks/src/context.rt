//! The registers of a thread that count. The thread that crashed has two contexts: the one of the exception is that of the crash, and
//! the one of the thread may be that of the code that wrote the dump. So the exception's counts first, where it names the thread and
//! can be read.

ghost use Rattle.std.specs.Prelude.{◌≡◌};
ghost use Rattle.pe_minidump.specs.Contexts.{context_arm64, context_x64};
ghost use Rattle.pe_minidump.specs.Dumps.{dump_view};
ghost use Rattle.pe_minidump.specs.Refusals.{DumpReturns};
ghost use Rattle.pe_stacks.specs.ThreadContexts.{context_at, raised_at, thread_context};

use pe_minidump::{ContextArm64, ContextX64, Dump, Location, Result, Thread};

/// Where the context of the exception stands, if the exception names a thread.
fn raised_at(dump: &Dump<'_>, thread: &Thread) -> Option<Location>
    ensures { result ≡ raised_at (dump_view dump.now) thread.now }
{
    match dump.exception() {
        Ok(Some(exception)) if exception.thread_id == thread.thread_id => {
            Some(exception.thread_context)
        }
        _ => None,
    }
}

/// The context of x64 at a location.
fn x64_at(dump: &Dump<'_>, location: Location) -> Result<ContextX64>
    ensures { DumpReturns (λ c. c) result (context_at context_x64 (dump_view dump.now) location) }
{
    ContextX64::parse(dump.located(location)?)
}

/// The context of ARM64 at a location.
fn arm64_at(dump: &Dump<'_>, location: Location) -> Result<ContextArm64>
    ensures { DumpReturns (λ c. c) result (context_at context_arm64 (dump_view dump.now) location) }
{
    ContextArm64::parse(dump.located(location)?)
}

/// The registers of a thread on x64: those of the exception, if it names the thread and they can be read, else the thread's own.
/// Errors: those of the thread's own, `Location` and those of `ContextX64::parse`.
pub fn thread_context_x64(dump: &Dump<'_>, thread: &Thread) -> Result<ContextX64>
    ensures { DumpReturns (λ c. c) result (thread_context context_x64 (dump_view dump.now) thread.now) }
{
    if let Some(location) = raised_at(dump, thread) {
        if let Ok(context) = x64_at(dump, location) {
            return Ok(context);
        }
    }
    x64_at(dump, thread.thread_context)
}

/// The registers of a thread on ARM64: those of the exception, if it names the thread and they can be read, else the thread's own.
/// Errors: those of the thread's own, `Location` and those of `ContextArm64::parse`.
pub fn thread_context_arm64(dump: &Dump<'_>, thread: &Thread) -> Result<ContextArm64>
    ensures { DumpReturns (λ c. c) result (thread_context context_arm64 (dump_view dump.now) thread.now) }
{
    if let Some(location) = raised_at(dump, thread) {
        if let Ok(context) = arm64_at(dump, location) {
            return Ok(context);
        }
    }
    arm64_at(dump, thread.thread_context)
}
