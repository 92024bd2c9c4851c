use crate::again::read_again;
use crate::naming::{Topic, file_at, named, path_of, topic_of, uncounted, unnamed};
use crate::seen::count_records;
use crate::shown::Shown;
use crate::standing::standing;
use crate::tried::tried;
use crate::words::fault_words;
use cdf_types::ReadFault;
use cvr_office::{Cause, Outcome};
use cvr_run::{Happened, NAMED, Status, first_refused};
use cvr_words::Request;
use std::cell::{Cell, RefCell};
use std::io;
use std::rt::Files;
use std::time::SystemTime;

// The bytes that are held, if any are.
fn held(bytes: &Option<Vec<u8>>) -> Option<&[u8]> {
    match bytes {
        Some(bytes) => Some(bytes.as_slice()),
        None => None,
    }
}

/// The notes that are printed at the end of a run where standard error is a terminal. Elsewhere
/// nothing is kept, and nothing printed.
#[derive(Drop)]
pub struct Notes<'a, R> {
    rt: &'a R,
    // Standard error is a terminal.
    is_terminal: bool,
    // How many files stand before the definition: a list of the others, or none.
    before: usize,
    // How many files were read.
    closed: Cell<usize>,
    // The bytes of the definition.
    def: RefCell<Option<Vec<u8>>>,
    // When the one that was written to last of all files was, as they were opened.
    newest: Cell<Option<SystemTime>>,
    // The places of the first that were written to while they were read.
    changed: RefCell<Vec<usize>>,
    // What the system answered where a file could not be opened or read.
    code: Cell<Option<i32>>,
}

impl<'a, R: Files + Eprint + AllocGlobal> Notes<'a, R> {
    /// The notes of a run that has read nothing. `before` is the number of files that are read
    /// before the definition: 1 where a list names the others, else 0.
    pub fn new(rt: &'a R, is_terminal: bool, before: usize) -> Notes<'a, R> {
        Notes {
            rt,
            is_terminal,
            before,
            closed: Cell::new(0),
            def: RefCell::new(None),
            newest: Cell::new(None),
            changed: RefCell::new(Vec::new(rt.alloc())),
            code: Cell::new(None),
        }
    }

    /// Whether standard error is a terminal.
    pub fn is_terminal(&self) -> bool {
        self.is_terminal
    }

    /// No bytes yet of a file that was opened, to keep those that are read: of the definition. None
    /// where nothing is kept.
    pub fn open(&self) -> Option<Vec<u8>> {
        if self.is_terminal && self.closed.get() == self.before {
            Some(Vec::new(self.rt.alloc()))
        } else {
            None
        }
    }

    /// Keeps of a file that was read its bytes, where they were kept, when it had been written to,
    /// and whether others wrote to it meanwhile.
    pub fn close(&self, bytes: Option<Vec<u8>>, written: Option<SystemTime>, has_changed: bool) {
        let closed = self.closed.get();
        self.closed.set(closed.saturating_add(1));
        if written > self.newest.get() {
            self.newest.set(written);
        }
        if let Some(place) = closed.checked_sub(self.before) {
            if has_changed {
                self.note_change(place);
            }
            if place == 0 {
                self.note_definition(bytes);
            }
        }
    }

    // Keeps the bytes of the definition.
    fn note_definition(&self, bytes: Option<Vec<u8>>) {
        if let Ok(mut def) = self.def.try_borrow_mut() {
            *def = bytes;
        }
    }

    // Keeps that a file was written to, of as many as are named.
    fn note_change(&self, place: usize) {
        if let Ok(mut all) = self.changed.try_borrow_mut() {
            if all.len() < NAMED {
                let _ = all.push(place);
            }
        }
    }

    /// Keeps why a file could not be opened or read.
    pub fn fail(&self, fault: &io::Error) {
        self.code.set(fault.raw_os_error());
    }

    /// Prints the notes of a run of these words that ended with this status. What the terminal
    /// answers is ignored.
    pub fn print(&self, words: &[String], status: &Status, happened: &Happened) {
        match topic_of(self.is_terminal, status) {
            Some(Topic::Run) => self.print_run(happened),
            Some(Topic::System) => self.print_code(),
            Some(Topic::Words) => self.print_tried(words),
            None => {}
        }
    }

    fn print_tried(&self, words: &[String]) {
        if let Some((option, instead)) = tried(words) {
            let _ = eprintln!(self.rt; "note: {option}: {instead}");
        }
    }

    fn print_code(&self) {
        if let Some(code) = self.code.get() {
            let fault = io::Error::from_raw_os_error(code);
            let _ = eprintln!(self.rt; "note: K1: {fault}");
        }
    }

    // Where the definition is refused, no other file was judged.
    fn print_run(&self, happened: &Happened) {
        if let (Some(request), Ok(def)) = (&happened.request, self.def.try_borrow()) {
            let def = held(&def);
            match &happened.definition {
                Some(cause) => {
                    self.print_refused(request.def.as_str(), cause, def, def);
                    self.print_changes(request, 1);
                }
                None => self.print_judged(request, happened, def),
            }
        }
    }

    fn print_judged(&self, request: &Request, happened: &Happened, def: Option<&[u8]>) {
        let outcomes = happened.outcomes.as_slice();
        let places = first_refused(outcomes);
        for place in places.as_slice() {
            if let Some(Outcome::Refused(cause)) = outcomes.get(*place) {
                self.print_again(request, *place, cause, def);
            }
        }
        self.print_more(unnamed(outcomes));
        self.print_changes(request, usize::MAX);
        self.print_own(request, def);
        self.print_several(happened.several);
        if request.paths.as_slice().is_empty() {
            let _ = eprintln!(self.rt; "note: no files were given");
        }
    }

    // Why a file or a step was refused. The file is read again.
    fn print_again(&self, request: &Request, place: usize, cause: &Cause, def: Option<&[u8]>) {
        if let Some((text, file)) = named(request, place) {
            let bytes = match file_at(request, file.saturating_add(1)) {
                Some(path) => read_again(self.rt, path, self.newest.get()),
                None => None,
            };
            self.print_refused(text, cause, held(&bytes), def);
        }
    }

    // Why a file was refused, with what stands in it, as far as its bytes are known.
    fn print_refused(&self, text: &str, cause: &Cause, bytes: Option<&[u8]>, def: Option<&[u8]>) {
        if let Cause::Read(fault) = cause {
            let stands = match bytes {
                Some(bytes) => standing(self.rt.alloc(), fault, bytes, def.unwrap_or(&[])),
                None => None,
            };
            match stands {
                Some(stands) => self.print_fault(text, fault, stands.as_str()),
                None => self.print_fault(text, fault, fault_words(fault)),
            }
        }
    }

    // What is said of the fault of a file, behind its path.
    fn print_fault(&self, text: &str, fault: &ReadFault, said: &str) {
        let text = Shown::new(text);
        match path_of(fault) {
            Some(path) if !path.is_empty() => {
                let path = Shown::new(path);
                let _ = eprintln!(self.rt; "note: {text}: at {path}: {said}");
            }
            _ => {
                let _ = eprintln!(self.rt; "note: {text}: {said}");
            }
        }
    }

    fn print_more(&self, unnamed: usize) {
        if unnamed > 0 {
            let _ = eprintln!(self.rt; "note: {unnamed} more were refused");
        }
    }

    // The files that were written to, of those before this place.
    fn print_changes(&self, request: &Request, end: usize) {
        if let Ok(changed) = self.changed.try_borrow() {
            for place in changed.iter().filter(|place| **place < end) {
                if let Some(path) = file_at(request, *place) {
                    let path = Shown::new(path);
                    let _ = eprintln!(self.rt; "note: {path}: it was written to while it was read");
                }
            }
        }
    }

    fn print_own(&self, request: &Request, def: Option<&[u8]>) {
        let own = match def {
            Some(def) => count_records(self.rt.alloc(), def),
            None => 0,
        };
        if let Some(records) = uncounted(own, request) {
            let def = Shown::new(request.def.as_str());
            let _ = eprintln!(self.rt;
                "note: {def}: records of its own, which are not counted: {records}"
            );
        }
    }

    fn print_several(&self, several: Option<usize>) {
        if let Some(names) = several {
            if names > 0 {
                let _ = eprintln!(self.rt;
                    "note: names with several texts, which cvr conflicts lists: {names}"
                );
            }
        }
    }
}
