//! Which version of the library this is.

ghost use Rattle.std.specs.Prelude.{◌≡◌, ◌≢◌, ◌++◌, drop, length, IfOk, IfErr};
ghost use Rattle.oth_c.specs.Codes.{code_of};
ghost use Rattle.oth_c.specs.Texts.{version_code, version_text};

use super::lines::put;
use crate::refusal::{DONE, Refusal, deliver};

// The version, and the first 16 digits of the logic that its proofs are of, as `othsolve --version` prints them.
const LIBRARY_VERSION: &str = "0.2.0 (rattle logic dac8208d650f15bf)";

/// Prints the library's version, and the first 16 digits of the logic that its proofs are of, into the front of a
/// buffer, and writes the number of bytes. Refusal 7.
#[unsafe(no_mangle)]
pub extern "C" fn oth_version(text: &mut [u8], written: &mut usize) -> u32
    ensures code { result ≡ version_code (length text.old) }
    ensures text { result ≡ DONE → text.new ≡ version_text ++ drop written.new text.old }
    ensures written { result ≡ DONE → written.new ≡ length version_text }
    ensures kept { result ≢ DONE → (text.new ≡ text.old) × (written.new ≡ written.old) }
{
    deliver(version_printed(text), written)
}

// Writes the text into the buffer and gives its length; refused where the buffer is too short.
fn version_printed(buffer: &mut [u8]) -> Result<usize, Refusal>
    ensures ok { IfOk result (λ n. (version_code (length buffer.old) ≡ DONE) × (n ≡ length version_text)
        × (buffer.new ≡ version_text ++ drop n buffer.old)) }
    ensures err { IfErr result (λ r. (version_code (length buffer.old) ≡ code_of r) × (buffer.new ≡ buffer.old)) }
{
    let text = LIBRARY_VERSION.as_bytes();
    put(text, buffer)?;
    Ok(text.len())
}
