ghost use Rattle.std.specs.Prelude.{◌≡◌, ◌+◌, ◌-◌, ◌≤◌, ◌++◌, length, drop, take, min};

/// Copies the bytes from place `at` on to the front of `out`, as many as fit, and answers how many.
pub(crate) fn copy_from(bytes: &[u8], at: usize, out: &mut [u8]) -> usize
    requires { at ≤ length bytes.now }
    ensures count { result ≡ min (length bytes.now - at) (length out.old) }
    ensures copied { drop at bytes.now ≡ take result out.new ++ drop (at + result) bytes.now }
{
    let n = out.len().min(bytes.len() - at);
    out[..n].copy_from_slice(&bytes[at..at + n]);
    n
}
