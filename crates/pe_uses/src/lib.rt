//! Callers of the libraries, as README.md and docs/CALLS.md show them.
#![tactic(auto)]

mod arm64;
mod delay_imports;
mod directories;
mod dumps;
mod frames;
mod imports;
mod leaves;
mod resources;
mod signing;
mod stacks;
mod strings;
mod symbols;
mod unwinding;
mod versions;
mod writing;

pub use arm64::arm64_codes;
pub use delay_imports::delayed_dlls;
pub use directories::first_tls_callback;
pub use dumps::{Crash, crash_of};
pub use frames::{Frame, frame_at, frame_of};
pub use imports::import_names;
pub use leaves::contents_of_type;
pub use resources::first_data_entry;
pub use signing::digest_input;
pub use stacks::{backtrace, module_of};
pub use strings::version_strings;
pub use symbols::symbol_key;
pub use unwinding::frames_at;
pub use versions::file_version;
pub use writing::without_time_stamp;
