//! What the program makes of what the system answers.
ghost use Rattle.std.specs.Prelude.{◌≡◌, ◌≢◌, ◌<◌, true, false, codes, drop};
ghost use Rattle.std.specs.declared.io.ErrorKind.TheVariants.{OutOfMemory};
ghost use Rattle.cvr_run.specs.declared.file.FileFault.TheVariants.{Device, Memory};
ghost use Rattle.cvr_run.specs.declared.status.Status.TheVariants as ended;

use cvr_cli::{FileFault, Status};
use std::io::ErrorKind;

/// Why a file was not opened.
pub fn file_fault(kind: ErrorKind) -> FileFault
    ensures memory { kind ≡ OutOfMemory → result ≡ Memory }
    ensures device { kind ≢ OutOfMemory → result ≡ Device }
{
    match kind {
        ErrorKind::OutOfMemory => FileFault::Memory,
        _ => FileFault::Device,
    }
}

/// The status where the words could not be read: there was no room, or one isn't UTF-8.
pub fn words_status(kind: ErrorKind) -> Status
    ensures memory { kind ≡ OutOfMemory → result ≡ ended.Memory }
    ensures words { kind ≢ OutOfMemory → result ≡ ended.CommandLine }
{
    match kind {
        ErrorKind::OutOfMemory => Status::Memory,
        _ => Status::CommandLine,
    }
}

/// What standard error says then.
pub fn words_line(status: &Status) -> &'static str
    ensures memory { status.now ≡ ended.Memory → result.now ≡ codes "memory" }
    ensures words { status.now ≢ ended.Memory → result.now ≡ codes "words" }
{
    match status {
        Status::Memory => "memory",
        _ => "words",
    }
}

/// The words after the program's name.
pub fn behind_the_name(words: &[String]) -> &[String]
    ensures { result.now ≡ drop 1 words.now }
{
    match words {
        [_, behind @ ..] => behind,
        _ => words,
    }
}
