ghost use Rattle.std.specs.Prelude.{◌≡◌, ◌<◌, ◌≤◌, ◌++◌, length, map, slice_index_or, decimal};
ghost use Rattle.std.specs.Prelude.{OnOk, IfOk};
ghost use Rattle.std.specs.Prelude.{string_bytes, false, None};
ghost use Rattle.std.specs.FinSet.{empty};
ghost use Rattle.std.specs.List.{position_or_len};
ghost use Rattle.cvr_run.specs.Drill.{are_same, office_line, office_lines, AreOfOne};
ghost use Rattle.cvr_run.specs.Printing.{Prints};

use crate::number::push_number;
use crate::printing::{PrintFault, print_text};
use cdf_types::{Memory, Sink};
use cvr_office::Office;
use std::alloc::Global;

// Whether two offices of one definition hold the same facts.
fn holds_same<O: Office>(one: &O, other: &O) -> bool
    requires { O.defined one.now ≡ O.defined other.now }
    ensures { result ≡ are_same (O.held one.now) (O.held other.now) }
{
    one.same(other)
}

// The least place of an office that is the same as the one at this place.
fn same_place<O: Office>(offices: &[O], place: usize) -> usize
    requires there { place < length offices.now }
    requires of_one { AreOfOne (map O.defined offices.now) }
    ensures least { result
        ≡ position_or_len (are_same (slice_index_or (map O.held offices.now) place empty))
        (map O.held offices.now) }
    ensures within { result ≤ place }
{
    let office = &offices[place];
    for other in 0..place {
        if holds_same(office, &offices[other]) {
            return other;
        }
    }
    place
}

// Adds a label and a number.
fn push_field(text: &mut String, label: &str, number: usize) -> Result<(), Memory>
    ensures { OnOk result
        (string_bytes text.new ≡ string_bytes text.old ++ (label.now ++ decimal number)) }
{
    text.push_str(label)?;
    push_number(text, number)?;
    Ok(())
}

// Adds the line of the office at a place.
fn push_office<O: Office>(text: &mut String, offices: &[O], place: usize) -> Result<(), Memory>
    requires there { place < length offices.now }
    requires of_one { AreOfOne (map O.defined offices.now) }
    ensures { OnOk result
        (string_bytes text.new ≡ string_bytes text.old
        ++ office_line (map O.held offices.now) place) }
{
    push_field(text, "office ", place + 1)?;
    push_field(text, " records ", offices[place].record_count())?;
    push_field(text, " facts ", offices[place].fact_count())?;
    push_field(text, " same ", same_place(offices, place) + 1)?;
    text.push_str("\n")?;
    Ok(())
}

// A line for each office.
fn offices_text<O: Office>(alloc: Global, offices: &[O]) -> Result<String, Memory>
    requires of_one { AreOfOne (map O.defined offices.now) }
    ensures { IfOk result (λ text. string_bytes text ≡ office_lines (map O.held offices.now)) }
{
    let mut text = String::new(alloc);
    for place in 0..offices.len() {
        push_office(&mut text, offices, place)?;
    }
    Ok(text)
}

/// Prints a line for each office of one definition: its number, how many records and facts it
/// holds, and the least number of an office that is the same.
///
/// # Errors
/// `Device` where the output has failed; `Memory` where a growth was refused. The output has then
/// taken a prefix of the text.
pub fn print_offices<O: Office, W: Sink>(
    alloc: Global,
    offices: &[O],
    out: &mut W,
) -> Result<(), PrintFault>
    requires working { (W.taken out.old).failed ≡ false }
    requires of_one { AreOfOne (map O.defined offices.now) }
    ensures { Prints (W.taken out.old) (W.taken out.new) result None
        (office_lines (map O.held offices.now)) }
{
    let text = offices_text(alloc, offices)?;
    print_text(text.as_str(), out)
}
