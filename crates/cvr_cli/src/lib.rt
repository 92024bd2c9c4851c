//! The commands of `cvr`: runs over the office that remembers, and all else that the program calls.
#![tactic(auto)]

mod running;

pub use cvr_run::{
    FileFault, HELD, Happened, Listing, MemoryFile, MemoryFiles, MergeFault, Open, OverRead,
    OverWrite, PrintFault, Status, conflicts_text, currents_text, examples, law, listing_of,
    print_volume, read_file,
};
pub use cvr_words::{Act, Request, Step, Task, WordFault, read_words};
pub use running::{respond, run, work};
