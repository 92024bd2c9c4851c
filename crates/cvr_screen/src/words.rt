//! Why a file is refused, in words for the public.
// Made by tools/codes from docs/FAULTS.md. Change that.

use cdf_types::{ReadFault, Rule};

// What is wrong where a rule of form is broken.
fn rule_words(rule: Rule) -> &'static str {
    match rule {
        Rule::NotObject => "an object is needed",
        Rule::Missing => "a required member is absent",
        Rule::WrongKind => "a value is of another kind",
        Rule::NotListed => "a text is none of those listed",
        Rule::WrongClass => "an object of another class stands there",
        Rule::EmptyText => "a name is empty",
        Rule::OutOfRange => "a count is out of range",
        Rule::TooFew => "an array has too few items",
        Rule::TooMany => "an array has too many items",
        Rule::Fractional => "fractional votes are not counted",
        Rule::NotMoment => "a text is no date and time with an offset",
        Rule::RepeatedId => "an id stands twice",
        Rule::RepeatedContest => "a contest stands twice in a snapshot",
        Rule::NotWhole => "a number is not whole",
    }
}

/// What is wrong with a refused file, and what to do; of a broken rule, the rule; nothing where
/// memory was refused. Takes no memory.
pub fn fault_words(fault: &ReadFault) -> &'static str {
    match fault {
        ReadFault::TooLong => {
            "The file is longer than 67,108,864 bytes. Have the tool that wrote it write several \
             files."
        }
        ReadFault::NotJson => {
            "The file is no JSON text. Look whether it was cut off, or is of another kind, as \
             XML; take away a byte order mark."
        }
        ReadFault::Schema { rule, .. } => rule_words(*rule),
        ReadFault::Reference { .. } => {
            "A text of it has to be the id of something in the file, and is not. Look the id up \
             in the file, and have it exported again."
        }
        ReadFault::Disagrees { .. } => {
            "Its election, a unit or a party of it is not the definition's. Was it exported under \
             another version of the election? Use the definition that it was made under, or have \
             it exported again."
        }
        ReadFault::Memory => "",
    }
}

/// What a refused file is in place of a report.
#[derive(Clone, Copy, Drop)]
pub enum Kind {
    Nothing,
    Cut,
    Mark,
    Utf16,
    Zip,
    Gzip,
    Pdf,
    Xml,
    Table,
    Json,
    Damaged,
    Unknown,
    Strange,
}

/// What such a file seems to be, and what to do. Takes no memory.
pub fn kind_words(kind: Kind) -> &'static str {
    match kind {
        Kind::Nothing => "It is empty. Copy it again.",
        Kind::Cut => "It is JSON that ends too soon. Copy it again, and compare the lengths.",
        Kind::Mark => "It has a byte order mark before its text. Have it written without one.",
        Kind::Utf16 => "It is a text in UTF-16. Have it written in UTF-8.",
        Kind::Zip => {
            "It is a ZIP, or a workbook, which is one. Unpack it, or have the records of a \
             workbook exported as CSV. cvr-audit gather makes reports of the exports that it \
             knows."
        }
        Kind::Gzip => "It is packed by gzip. Unpack it.",
        Kind::Pdf => {
            "It is a PDF, which has no records. Ask for the export that it was printed from."
        }
        Kind::Xml => {
            "It is XML or a page of the web. Have the records exported as JSON. cvr-audit gather \
             makes reports of the exports that it knows."
        }
        Kind::Table => {
            "It is a table such as CSV. Have the records exported as JSON; a list of voters or of \
             batches has none. cvr-audit gather makes reports of the exports that it knows."
        }
        Kind::Json => {
            "It is JSON of another kind than a report. cvr-audit gather makes reports of the \
             exports that it knows."
        }
        Kind::Damaged => "It is JSON that is damaged. Have it exported again.",
        Kind::Unknown => {
            "It is of no kind that is known here. Ask the maker of the tool that wrote it for \
             JSON of the standard."
        }
        Kind::Strange => {
            "It is JSON that not every reader takes: it is nested too deep, or has a number that \
             is too large, half a sign, or a word such as NaN. Have it exported again."
        }
    }
}
