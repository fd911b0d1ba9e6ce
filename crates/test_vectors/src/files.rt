// Reads a stored file.
ghost use Rattle.std.specs.Prelude.{◌≤◌, length, IfSome};

use std::io::Write;
use std::rt::Files;

// How many bytes it has, as far as the lent part has room; or that there is none.
pub(crate) fn load(
    rt: &impl Files,
    err: &mut impl Write,
    name: &[u8],
    log: &mut [u8],
) -> Option<usize>
    ensures { IfSome result (λ n. n ≤ length log.new) }
{
    match reading::open(rt, name) {
        Ok(mut file) => {
            let (n, _) = reading::read_full(&mut file, log);
            Some(n)
        }
        Err(error) => {
            let _ = reading::fail(err, name, &error);
            None
        }
    }
}
