//! ARM64 exception data: entries of 8 bytes, which hold packed unwind data or the RVA of an unwind record. Layouts:
//! [ARM64 exception handling](https://learn.microsoft.com/cpp/build/arm64-exception-handling).

pub mod codes;
pub mod function;
pub mod info;
pub mod lookup;
pub mod words;
