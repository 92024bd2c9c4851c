use crate::files::Files;
use cdf_types::{MemorySink, ReadFault, Sink};
use cvr_cli::{MemoryFile, MemoryFiles, Request, Status, WordFault, read_words, run, work};
use std::alloc::{AllocError, Global};

// So few bytes that a text is written by several calls.
const PIECE: usize = 64;

// Words as texts of their own.
fn texts_of(alloc: Global, words: &[&str]) -> Result<Vec<String>, AllocError> {
    let mut texts = Vec::new(alloc);
    for word in words {
        texts.push(word.to_string(alloc)?)?;
    }
    Ok(texts)
}

// How a run ended, and what its outputs took, whose growth can be refused.
#[derive(Drop)]
struct Ran {
    status: Status,
    out: MemorySink,
    log: MemorySink,
}

impl Ran {
    // What the outputs took, or out of memory.
    fn printed(&self, alloc: Global) -> Result<String, ReadFault> {
        if self.status == Status::Memory || self.out.failed() || self.log.failed() {
            return Err(ReadFault::Memory);
        }
        let mut text = String::new(alloc);
        text.push_str(text_in(self.out.taken()))?;
        text.push_str(text_in(self.log.taken()))?;
        Ok(text)
    }
}

// Bytes as text. Empty where they are none.
fn text_in(bytes: &[u8]) -> &str {
    str::from_utf8(bytes).unwrap_or("")
}

// Runs a request over the first reports, one for each of its paths. None where there are too few.
fn run_over(alloc: Global, request: &Request, files: &Files) -> Option<Ran> {
    let reports = files.reports.get(..request.paths.as_slice().len())?;
    let def = files.definition.as_slice();
    let mut out = MemorySink::new(alloc, PIECE, 0);
    let mut log = MemorySink::new(alloc, PIECE, 0);
    let status = run(alloc, request, def, reports, &mut out, &mut log);
    Some(Ran { status, out, log })
}

// What a request prints and logs.
fn printed_of_request(
    alloc: Global,
    request: &Request,
    files: &Files,
) -> Result<String, ReadFault> {
    match run_over(alloc, request, files) {
        Some(ran) => ran.printed(alloc),
        None => Err(ReadFault::NotJson),
    }
}

/// What the request of these words prints and logs, or why they give none.
pub fn printed_run(alloc: Global, words: &[&str], files: &Files) -> Result<String, ReadFault> {
    let words = texts_of(alloc, words)?;
    match read_words(alloc, words.as_slice()) {
        Ok(request) => printed_of_request(alloc, &request, files),
        Err(WordFault::Memory) => Err(ReadFault::Memory),
        Err(fault) => Ok(format!(in alloc; "{fault}\n")?),
    }
}

// A file in memory whose reading doesn't fail.
fn file_at<'a>(path: &'a str, bytes: &'a [u8]) -> MemoryFile<'a> {
    MemoryFile {
        path,
        bytes,
        fail_at: 0,
    }
}

// Works on words over files in memory.
fn work_over(alloc: Global, words: &[String], files: &[MemoryFile<'_>]) -> Ran {
    let mut out = MemorySink::new(alloc, PIECE, 0);
    let mut log = MemorySink::new(alloc, PIECE, 0);
    let mut opener = MemoryFiles { files };
    let status = work(alloc, &mut opener, words, &mut out, &mut log);
    Ran { status, out, log }
}

/// What these words print and log over files in memory: the definition and two reports.
pub fn printed_work(alloc: Global, words: &[&str], files: &Files) -> Result<String, ReadFault> {
    let words = texts_of(alloc, words)?;
    let [first, second, ..] = files.reports.as_slice() else {
        return Err(ReadFault::NotJson);
    };
    let files = [
        file_at("definition", files.definition.as_slice()),
        file_at("first", first.as_slice()),
        file_at("second", second.as_slice()),
    ];
    work_over(alloc, words.as_slice(), &files).printed(alloc)
}
