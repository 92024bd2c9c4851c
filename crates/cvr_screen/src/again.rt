use cvr_run::HELD;
use std::fs;
use std::rt::Files;
use std::time::SystemTime;

/// The bytes of a file that was read before. None where it can't be read again: it is no file, as a
/// pipe is none; it was written to after all that were read; it is longer than a file may be; or
/// memory is refused for it.
pub fn read_again<R: Files + AllocGlobal>(
    rt: &R,
    path: &str,
    newest: Option<SystemTime>,
) -> Option<Vec<u8>> {
    let found = fs::metadata(rt, path).ok()?;
    if found.is_file() && found.len() < HELD as u64 && found.modified().ok() <= newest {
        fs::read(rt, path).ok()
    } else {
        None
    }
}
