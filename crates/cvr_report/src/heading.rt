ghost use Rattle.std.specs.Prelude.{◌≡◌};
ghost use Rattle.cdf_form.specs.Form.{is_moment};
ghost use Rattle.cvr_report.specs.declared.heading.HeadFault.TheVariants as head_fault;

use cdf_check::Definition;
use jiff::Timestamp;
use std::alloc::{AllocError, Global};
use std::marker::Model;
use thiserror::Error;

/// Why there is no heading: the first cause that applies.
#[derive(Clone, Copy, Debug, PartialEq, Eq, Error)]
pub enum HeadFault {
    /// The date is no moment.
    #[error("the date is no moment")]
    NotMoment,
    /// The definition lists no such device.
    #[error("the definition lists no such device")]
    NoDevice,
    /// A growth was refused.
    #[error("out of memory")]
    Memory,
}

impl From<AllocError> for HeadFault {
    ghost from_gives = { λ _ e. e ≡ head_fault.Memory };

    fn from(_refused: AllocError) -> HeadFault {
        HeadFault::Memory
    }
}

/// What stands at the head of a volume (NIST SP 1500-103, class CastVoteRecordReport, members
/// GeneratedDate and ReportGeneratingDeviceIds). Its date is a moment. Contracts see it as its two
/// texts.
#[derive(Drop)]
pub struct Heading {
    date: String,
    device: String,
}

impl Model for Heading {
    ghost use Rattle.std.specs.String.{string_bytes};
    ghost use Rattle.cvr_report.specs.Head.{Head, IsHeading};

    ghost Value = { Head };

    ghost view = { λ h. record { date = string_bytes h.date; device = string_bytes h.device } };

    ghost invariant = { λ h.
        IsHeading (record { date = string_bytes h.date; device = string_bytes h.device }) };
}

impl Heading {
    ghost use Rattle.std.specs.Prelude.{◌≡◌, IfOk, IfErr};
    ghost use Rattle.cvr_report.specs.Head.{IsHead, IsHeadFault, IsHeading};

    /// The heading of a date and of a device that the definition lists. The date is a date-time
    /// with an offset, as `2024-11-06T08:00:00Z` (RFC 3339, as `jiff` reads it), and no zone name
    /// in brackets.
    ///
    /// # Errors
    /// `NotMoment` exactly where the date isn't one, then `NoDevice` exactly where the definition
    /// lists no such device; else `Memory` where a growth was refused.
    pub fn new(
        alloc: Global,
        definition: &Definition,
        date: &str,
        device: &str,
    ) -> Result<Heading, HeadFault>
        ensures head { IfOk result (IsHead definition.now date.now device.now) }
        ensures fault { IfErr result (IsHeadFault definition.now date.now device.now) }
    {
        if !is_moment(date) {
            return Err(HeadFault::NotMoment);
        }
        if !definition.device(device) {
            return Err(HeadFault::NoDevice);
        }
        Ok(Heading {
            date: String::from_str(alloc, date)?,
            device: String::from_str(alloc, device)?,
        })
    }

    /// The date, as it was handed in: a moment, as each heading has one. Takes no memory.
    pub fn date(&self) -> &str
        ensures date { result.now ≡ self.now.date }
        ensures heading { IsHeading self.now }
    {
        self.date.as_str()
    }

    /// The device's id, as it was handed in. Takes no memory.
    pub fn device(&self) -> &str
        ensures { result.now ≡ self.now.device }
    {
        self.device.as_str()
    }
}

// Whether a text is a date-time with an offset and no zone name.
fn is_moment(text: &str) -> bool
    ensures { result ≡ is_moment text.now }
{
    text.parse::<Timestamp>().is_ok() && !text.as_bytes().contains(&b'[')
}
