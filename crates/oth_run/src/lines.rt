//! The lines that bytes begin with.

ghost use Rattle.std.specs.Prelude.{◌≡◌, ◌≢◌, ◌<◌, [], ◌∷◌, ◌++◌, All, length, slice_index, take, IfSome, IfNone};

use memchr::memchr;

/// The first line, without the byte 10 that ends it, and what follows it.
pub fn split_line(bytes: &[u8]) -> Option<(&[u8], &[u8])>
    ensures joined { IfSome result (λ r. bytes.now ≡ (r.0.now ++ 10 ∷ []) ++ r.1.now) }
    ensures line { IfSome result (λ r. All (λ b. b ≢ 10) r.0.now) }
    ensures none { IfNone result (All (λ b. b ≢ 10) bytes.now) }
{
    let end = line_end(bytes)?;
    Some((&bytes[..end], &bytes[end + 1..]))
}

// The place of the first byte 10.
fn line_end(bytes: &[u8]) -> Option<usize>
    ensures within { IfSome result (λ n. n < length bytes.now) }
    ensures end { IfSome result (λ n. slice_index bytes.now n ≡ 10) }
    ensures before { IfSome result (λ n. All (λ b. b ≢ 10) (take n bytes.now)) }
    ensures none { IfNone result (All (λ b. b ≢ 10) bytes.now) }
{
    memchr(b'\n', bytes)
}
