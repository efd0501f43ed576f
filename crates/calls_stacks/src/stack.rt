//! Stack walks: one step on x64, walks of frames through the modules of a process, and names of functions without a PDB. `arm64` has
//! the same steps and walks on ARM64.
//! https://learn.microsoft.com/cpp/build/exception-handling-x64

pub mod calls;
pub mod frames;
pub mod function_names;
pub mod walk;
