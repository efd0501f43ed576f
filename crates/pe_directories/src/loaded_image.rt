//! The image of a file as a loader lays it out in memory: the headers at RVA 0, the raw data of each section at its RVA, zeros
//! elsewhere ([section data](https://learn.microsoft.com/windows/win32/debug/pe-format#section-data)). Where an RVA
//! is mapped, what is read of it with `resolve_rva` off is what is read of the file. Emulators and unpackers start with it.

ghost use Rattle.std.specs.Option.{option_map};
ghost use Rattle.std.specs.Prelude.{◌≡◌, ◌+◌, ◌<◌, ◌≤◌, ◌^◌, ◌-◌, length, min};
ghost use Rattle.pe_core.specs.Bytes.{splice};
ghost use Rattle.pe_core.specs.Rows.{each};
ghost use Rattle.pe_directories.specs.LoadedImages.{byte_or_zero, loaded, loaded_byte};

use crate::section_runs::{Run, Runs};
use pe_core::{set_slice, set_zeros};

/// Writes as many bytes from an offset on, and zeros after the end of the bytes.
fn copy_or_zero(bytes: &[u8], offset: usize, count: usize, image: &mut [u8], rva: usize)
    requires { rva + count ≤ length image.old }
    ensures { image.new ≡ splice image.old rva (each (λ i. byte_or_zero bytes.now (offset + i)) count) }
{
    let from = offset.min(bytes.len());
    let there = (bytes.len() - from).min(count);
    set_slice(image, rva, &bytes[from..from + there]);
    set_zeros(image, rva + there, count - there);
}

/// Writes the bytes of a run at its RVA, up to the end of the run or of the image, and returns the RVA after them.
#[tactic(auto, using(crate::proofs::LoadedImages::headers_are))]
fn put_run(bytes: &[u8], size_of_headers: u32, run: &Run, rva: usize, image: &mut [u8]) -> usize
    requires run { rva < run.now.end }
    requires image { rva < length image.old }
    ensures end { result ≡ min run.now.end (length image.old) }
    ensures bytes { image.new ≡ splice image.old rva (each
        (λ i. loaded_byte bytes.now size_of_headers (rva + i)
        (option_map (λ p. p + i) run.now.offset)) (result - rva)) }
{
    let end = run.end.min(image.len() as u64) as usize;
    match run.offset {
        Some(offset) => copy_or_zero(bytes, offset as usize, end - rva, image, rva),
        None => {
            let headers = &bytes[..bytes.len().min(size_of_headers as usize)];
            copy_or_zero(headers, rva, end - rva, image, rva)
        }
    }
    end
}

/// Writes an image as a loader lays it out, as long as `image`, by the runs of its section map. It takes a step for each run,
/// and reads and writes each byte once.
pub fn lay_out<R: Runs>(runs: &R, bytes: &[u8], size_of_headers: u32, image: &mut [u8])
    requires { length image.old < 2 ^ 32 }
    ensures { image.new ≡ loaded
        (R.to_offset runs.now) bytes.now size_of_headers (length image.old) }
{
    let mut rva = 0;
    while rva < image.len() {
        let run = runs.run_at(rva as u32);
        rva = put_run(bytes, size_of_headers, &run, rva, image);
    }
}
