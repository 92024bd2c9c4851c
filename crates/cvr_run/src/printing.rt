ghost use Rattle.std.specs.Prelude.{◌≡◌, false, length, None, IfErr, IfSome};
ghost use Rattle.cvr_run.specs.declared.printing.PrintFault.TheVariants as print_fault;
ghost use Rattle.cvr_run.specs.Currents.{currents, conflict_text};
ghost use Rattle.cvr_run.specs.Log.{Logs};
ghost use Rattle.cvr_run.specs.Outcome.{facts_text, facts_fault};
ghost use Rattle.cvr_run.specs.Printing.{Prints, of_head, of_write, print_line, print_status};
ghost use Rattle.cvr_office.specs.Names.{conflicts};
ghost use Rattle.cvr_office.specs.Tallied.{tally};

use crate::conflicts::conflicts_text;
use crate::currents::currents_text;
use crate::log::{say, say_memory};
use crate::merge::{MergeFault, print_volume, say_merge};
use crate::status::Status;
use cdf_types::{DeviceFault, Memory, Sink, write_all};
use cvr_office::Office;
use cvr_report::{HeadFault, WriteFault};
use cvr_words::Task;
use std::alloc::Global;

/// Why a text was not printed, or not whole.
#[derive(Clone, Copy, Debug, PartialEq, Eq)]
pub enum PrintFault {
    /// A merge has no volume to print.
    Merge(MergeFault),
    /// The output failed.
    Device,
    /// A growth was refused.
    Memory,
}

impl From<DeviceFault> for PrintFault {
    ghost from_gives = { λ _ e. e ≡ print_fault.Device };

    fn from(_fault: DeviceFault) -> PrintFault {
        PrintFault::Device
    }
}

impl From<Memory> for PrintFault {
    ghost from_gives = { λ _ e. e ≡ print_fault.Memory };

    fn from(_refused: Memory) -> PrintFault {
        PrintFault::Memory
    }
}

impl From<HeadFault> for PrintFault {
    ghost from_gives = { λ fault e. e ≡ of_head fault };

    fn from(fault: HeadFault) -> PrintFault {
        match fault {
            HeadFault::NotMoment => PrintFault::Merge(MergeFault::NotMoment),
            HeadFault::NoDevice => PrintFault::Merge(MergeFault::NoDevice),
            HeadFault::Memory => PrintFault::Memory,
        }
    }
}

impl From<WriteFault> for PrintFault {
    ghost from_gives = { λ fault e. e ≡ of_write fault };

    fn from(fault: WriteFault) -> PrintFault {
        match fault {
            WriteFault::Device => PrintFault::Device,
            WriteFault::Memory => PrintFault::Memory,
        }
    }
}

impl PrintFault {
    /// The status of a run that ends by it. Takes no memory.
    pub fn status(&self) -> Status
        ensures { result ≡ print_status self.now }
    {
        match self {
            PrintFault::Merge(_) => Status::Refused,
            PrintFault::Device => Status::Device,
            PrintFault::Memory => Status::Memory,
        }
    }
}

/// Reports in the log why a text was not printed. Takes no memory.
pub fn say_fault<L: Sink>(log: &mut L, fault: PrintFault)
    ensures { Logs (L.taken log.old) (L.taken log.new) (print_line fault) }
{
    match fault {
        PrintFault::Merge(fault) => say_merge(log, fault),
        PrintFault::Device => say(log, &[b"out: X1\n"]),
        PrintFault::Memory => say_memory(log),
    }
}

/// Prints a text. Takes no memory.
///
/// # Errors
/// `Device` exactly where the output has failed. It has then taken a prefix of the text.
pub fn print_text<W: Sink>(text: &str, out: &mut W) -> Result<(), PrintFault>
    requires { (W.taken out.old).failed ≡ false }
    ensures printed { Prints (W.taken out.old) (W.taken out.new) result None text.now }
    ensures fault { IfErr result (λ e. e ≡ print_fault.Device) }
{
    write_all(out, text.as_bytes())?;
    Ok(())
}

// Prints the current snapshots.
fn print_currents<O: Office, W: Sink>(
    alloc: Global,
    office: &O,
    out: &mut W,
) -> Result<(), PrintFault>
    requires { (W.taken out.old).failed ≡ false }
    ensures { Prints (W.taken out.old) (W.taken out.new) result None
        (currents (O.held office.now)) }
{
    let text = currents_text(alloc, office)?;
    print_text(text.as_str(), out)
}

// Prints the conflicts.
fn print_conflicts<O: Office, W: Sink>(
    alloc: Global,
    office: &O,
    out: &mut W,
) -> Result<(), PrintFault>
    requires { (W.taken out.old).failed ≡ false }
    ensures { Prints (W.taken out.old) (W.taken out.new) result None
        (conflict_text (conflicts (O.held office.now))) }
{
    let list = office.conflicts(alloc)?;
    let text = conflicts_text(alloc, &list)?;
    print_text(text.as_str(), out)
}

// Prints the tally.
fn print_tally<O: Office, W: Sink>(alloc: Global, office: &O, out: &mut W) -> Result<(), PrintFault>
    requires { (W.taken out.old).failed ≡ false }
    ensures { Prints (W.taken out.old) (W.taken out.new) result None
        (tally (O.defined office.now).contests (O.held office.now)) }
{
    let text = office.tally_text(alloc)?;
    print_text(text.as_str(), out)
}

/// How many names have several bodies, where that is asked for, and they aren't what is printed.
/// None, too, where a growth was refused.
pub fn count_several<O: Office>(
    alloc: Global,
    office: &O,
    task: &Task,
    is_asked: bool,
) -> Option<usize>
    ensures counted { IfSome result (λ n. n ≡ length (conflicts (O.held office.now))) }
    ensures unasked { is_asked ≡ false → result ≡ None }
{
    if !is_asked || matches!(task, Task::Conflicts) {
        return None;
    }
    match office.conflicts(alloc) {
        Ok(list) => Some(list.as_slice().len()),
        Err(_) => None,
    }
}

/// Prints what a task prints of an office; of `check` and `drill` that is nothing.
///
/// # Errors
/// The first fault of a merge, with nothing printed; `Device` where the output has failed; `Memory`
/// where a growth was refused. The output has then taken a prefix of the text.
pub fn print_office<O: Office, W: Sink>(
    alloc: Global,
    office: &O,
    task: &Task,
    out: &mut W,
) -> Result<(), PrintFault>
    requires { (W.taken out.old).failed ≡ false }
    ensures { Prints (W.taken out.old) (W.taken out.new) result
        (facts_fault (O.defined office.now) task.now (O.held office.now))
        (facts_text (O.defined office.now) task.now (O.held office.now)) }
{
    match task {
        Task::Currents => print_currents(alloc, office, out),
        Task::Conflicts => print_conflicts(alloc, office, out),
        Task::Tally => print_tally(alloc, office, out),
        Task::Check | Task::Drill { .. } => Ok(()),
        Task::Merge {
            date,
            device,
            volume,
        } => print_volume(
            alloc,
            office,
            date.as_str(),
            device.as_str(),
            volume.get() as usize,
            out,
        ),
    }
}
