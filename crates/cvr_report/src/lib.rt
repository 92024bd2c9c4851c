//! Headings, and volumes: reports of what an office holds.
#![tactic(auto)]

pub mod examples;
mod fault;
mod heading;
mod ids;
pub mod law;
mod record;
mod scan;
mod shown;
mod volume;

pub use fault::WriteFault;
pub use heading::{HeadFault, Heading};
pub use volume::{volumes, write_volume};
