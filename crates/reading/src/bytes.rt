// Bytes put into a longer row of bytes.
ghost use Rattle.reading.specs.Bytes.{Written};

/// Writes `from` over `out` from `at` on; false, with nothing written, where it does not fit.
pub fn place(out: &mut [u8], at: usize, from: &[u8]) -> bool
    ensures { Written out.old at from.now result out.new }
{
    let Some(end) = at.checked_add(from.len()) else {
        return false;
    };
    if out.len() < end {
        return false;
    }
    out[at..end].copy_from_slice(from);
    true
}
