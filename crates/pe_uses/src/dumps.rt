//! What crashed, by a minidump.

use pe_minidump::{ContextX64, Dump, DumpError};

/// Where a process on x64 crashed.
#[derive(Clone, Copy, Debug, PartialEq)]
pub struct Crash {
    /// The code of the exception.
    pub code: u32,
    /// The ID of the thread.
    pub thread_id: u32,
    /// The instruction pointer and the stack pointer, from which a stack walk starts.
    pub rip: u64,
    pub rsp: u64,
    /// The offset of the module's name in the file, and the instruction pointer as an RVA in it.
    pub module: Option<(u32, u64)>,
}

/// Where the process of a dump crashed. `None` if the dump has no exception.
pub fn crash_of(bytes: &[u8]) -> Result<Option<Crash>, DumpError> {
    let dump = Dump::parse(bytes)?;
    let Some(exception) = dump.exception()? else {
        return Ok(None);
    };
    let context = ContextX64::parse(dump.located(exception.thread_context)?)?;
    let mut module = None;
    if let Some(modules) = dump.modules()? {
        for entry in modules.iter() {
            let rva = context.rip.wrapping_sub(entry.base_of_image);
            if module.is_none() && rva < u64::from(entry.size_of_image) {
                module = Some((entry.module_name_rva, rva));
            }
        }
    }
    Ok(Some(Crash {
        code: exception.exception_code,
        thread_id: exception.thread_id,
        rip: context.rip,
        rsp: context.general[4],
        module,
    }))
}
