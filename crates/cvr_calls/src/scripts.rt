use crate::facts::{printed_facts, printed_faults, printed_sets};
use crate::files::Files;
use crate::offices::{printed_imports, printed_join};
use crate::records::{printed_record, printed_rows};
use crate::requests::{printed_run, printed_work};
use crate::trying::try_script;
use cdf_types::ReadFault;
use cvr_collect::{CachedOffice, PlainOffice};
use std::alloc::Global;

/// What a script calls.
#[derive(Clone, Copy)]
pub enum Script {
    Facts,
    Faults,
    Sets,
    Imports,
    Join,
    Record,
    Rows,
    CachedImports,
    CachedJoin,
    CachedRecord,
    CachedRows,
    Run(&'static [&'static str]),
    Work(&'static [&'static str]),
}

impl Script {
    /// The text that the calls give, or out of memory. Any other fault says that they aren't right.
    pub fn printed(self, alloc: Global, files: &Files) -> Result<String, ReadFault> {
        match self {
            Script::Facts => printed_facts(alloc, files),
            Script::Faults => printed_faults(alloc),
            Script::Sets => printed_sets(alloc),
            Script::Imports => printed_imports::<PlainOffice>(alloc, files),
            Script::Join => printed_join::<PlainOffice>(alloc, files),
            Script::Record => printed_record::<PlainOffice>(alloc, files),
            Script::Rows => printed_rows::<PlainOffice>(alloc, files),
            Script::CachedImports => printed_imports::<CachedOffice>(alloc, files),
            Script::CachedJoin => printed_join::<CachedOffice>(alloc, files),
            Script::CachedRecord => printed_record::<CachedOffice>(alloc, files),
            Script::CachedRows => printed_rows::<CachedOffice>(alloc, files),
            Script::Run(words) => printed_run(alloc, words, files),
            Script::Work(words) => printed_work(alloc, words, files),
        }
    }
}

// The scripts. Each public call that can answer out of memory, and that no command makes, stands in
// the name of one.
static SCRIPTS: [(&str, Script); 17] = [
    ("check_report, facts_of, copies of facts", Script::Facts),
    ("ReadFault, as a sentence", Script::Faults),
    ("BodySet::new, BodySet::join, join_both", Script::Sets),
    (
        "PlainOffice: new, import, conflicts, tally_text",
        Script::Imports,
    ),
    ("PlainOffice: join", Script::Join),
    ("PlainOffice: record_facts", Script::Record),
    ("PlainOffice: row, totals", Script::Rows),
    (
        "CachedOffice: new, import, conflicts, tally_text",
        Script::CachedImports,
    ),
    ("CachedOffice: join", Script::CachedJoin),
    ("CachedOffice: record_facts", Script::CachedRecord),
    ("CachedOffice: row, totals", Script::CachedRows),
    (
        "read_words, run: currents",
        Script::Run(&["currents", "d", "a", "b"]),
    ),
    (
        "read_words, run: drill",
        Script::Run(&["drill", "d", "2", "1=a", "1>2", "2>3", "2=b"]),
    ),
    ("read_words, a wrong word", Script::Run(&["taly", "d"])),
    ("read_words, no words", Script::Run(&[])),
    (
        "read_words, a bad step",
        Script::Run(&["drill", "d", "2", "1=a", "x"]),
    ),
    (
        "work, over MemoryFiles",
        Script::Work(&["tally", "definition", "first", "second"]),
    ),
];

/// Tries each script, up to the first in a copy, and answers whether this is no copy.
pub fn try_all(rt: &HostRuntime, files: &Files) -> bool {
    for (name, script) in &SCRIPTS {
        if !try_script(rt, name, *script, files) {
            return false;
        }
    }
    true
}
