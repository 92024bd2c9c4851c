ghost use Rattle.std.specs.Prelude.{◌≡◌, ◌<◌, ◌≤◌, ◌^◌, ℕ, IfOk, false, true, length};
ghost use Rattle.std.specs.Prelude.{string_bytes};
ghost use Rattle.cvr_screen.specs.Line.{blanks_text, line_text};

use itoa::Buffer;
use std::alloc::{AllocError, Global};
use std::cell::Cell;
use std::io;
use std::io::Write;

/// How many files were read, as a line of a terminal that is overwritten.
#[derive(Drop)]
pub struct Progress<'a, R> {
    rt: &'a R,
    // Standard error is a terminal.
    is_terminal: bool,
    // The files that were closed, the definition among them.
    closed: Cell<usize>,
    // The line is on the terminal.
    is_shown: Cell<bool>,
}

impl<'a, R: Eprint + AllocGlobal> Progress<'a, R> {
    /// No file was read, and there is no line.
    pub fn new(rt: &'a R, is_terminal: bool) -> Progress<'a, R> {
        Progress {
            rt,
            is_terminal,
            closed: Cell::new(0),
            is_shown: Cell::new(false),
        }
    }

    /// Counts a file, and shows how many there are beside the first, which is the definition or a
    /// list of files. One alone is not shown, nor any where memory is refused for the line. What
    /// the terminal answers is ignored.
    pub fn count(&self) {
        let files = self.closed.get();
        self.closed.set(files.saturating_add(1));
        if shows(self.is_terminal, files) {
            if let Ok(line) = line(self.rt.alloc(), files) {
                self.is_shown.set(true);
                let _ = eprint!(self.rt; "\r{line}");
            }
        }
    }

    /// Removes the line, if there is one, by as many blanks as it may be long. What the terminal
    /// answers is ignored.
    pub fn clear(&self) {
        if self.is_shown.replace(false) {
            let blanks = blanks();
            let _ = eprint!(self.rt; "\r{blanks}\r");
        }
    }
}

/// An output that removes the line before it takes bytes.
#[derive(Drop)]
pub struct Cleared<'a, W, R> {
    output: W,
    progress: &'a Progress<'a, R>,
}

impl<'a, W, R: Eprint + AllocGlobal> Cleared<'a, W, R> {
    /// The output over a writer.
    pub fn new(output: W, progress: &'a Progress<'a, R>) -> Cleared<'a, W, R> {
        Cleared { output, progress }
    }
}

impl<W: Write, R: Eprint + AllocGlobal> Write for Cleared<'_, W, R> {
    ghost contents = { λ s. W.contents s.output };

    fn write(&mut self, bytes: &[u8]) -> io::Result<usize> {
        self.progress.clear();
        self.output.write(bytes)
    }

    fn flush(&mut self) -> io::Result<()> {
        self.output.flush()
    }
}

// Whether the line about files is shown, by how many come after the first.
fn shows(is_terminal: bool, files: usize) -> bool
    ensures quiet { is_terminal ≡ false → result ≡ false }
    ensures several { result ≡ true → 1 < files }
    ensures shown { is_terminal ≡ true → 1 < files → result ≡ true }
{
    is_terminal && files > 1
}

// The line about files, behind the first.
fn line(alloc: Global, files: usize) -> Result<String, AllocError>
    ensures { IfOk result (λ line. string_bytes line ≡ line_text files) }
{
    let mut line = String::from_str(alloc, "read ")?;
    let mut digits = Buffer::new();
    line.push_str(digits.format(files))?;
    line.push_str(" files")?;
    Ok(line)
}

// What the line is overwritten with: blanks, as many as it may have characters.
#[tactic(auto, using(crate::proofs::Covered::covered))]
fn blanks() -> &'static str
    ensures blanks { result.now ≡ blanks_text }
    ensures covers { (files : ℕ) → files < 2 ^ 64
        → length (line_text files) ≤ length result.now }
{
    "                               "
}
