use crate::offices::write_office;
use cdf_types::{Memory, ReadFault};
use cvr_collect::{Cause, Event, JoinFault, Office, Outcome, play};
use std::alloc::Global;

// The places in a word, around a sign.
fn places_in(word: &str, sign: char) -> Option<(usize, usize)> {
    let (one, other) = word.split_once(sign)?;
    Some((one.parse().ok()?, other.parse().ok()?))
}

// The event of a word: office 1 imports file 2 by `1=2`, office 2 takes in what office 1 holds by
// `1>2`.
fn event_of(word: &str) -> Option<Event> {
    if let Some((office, file)) = places_in(word, '=') {
        return Some(Event::Import { office, file });
    }
    let (from, to) = places_in(word, '>')?;
    Some(Event::Exchange { from, to })
}

fn events_of(alloc: Global, words: &str) -> Result<Vec<Event>, ReadFault> {
    let mut events = Vec::new(alloc);
    for word in words.split(' ') {
        events.push(event_of(word).ok_or(ReadFault::NotJson)?)?;
    }
    Ok(events)
}

// The name of a refusal.
fn name_of(cause: &Cause) -> &'static str {
    match cause {
        Cause::Read(_) => "E",
        Cause::Join(JoinFault::OtherDefinition) => "J1",
        Cause::Join(JoinFault::Memory) => "J2",
        Cause::NoOffice => "N1",
        Cause::NoFile => "N2",
    }
}

// Writes the number of new facts, or the refusal.
fn write_outcome(text: &mut String, outcome: &Outcome) -> Result<(), Memory> {
    let printed = match outcome {
        Outcome::Accepted(count) => write!(text, "{count} "),
        Outcome::Refused(cause) => write!(text, "{} ", name_of(cause)),
    };
    printed?;
    Ok(())
}

// The place of the first office that is the same.
fn first_same<O: Office>(offices: &[O], office: &O) -> usize {
    offices
        .iter()
        .take_while(|other| !other.same(office))
        .count()
}

// Writes what an office counts, and the first that is the same.
fn write_counts<O: Office>(text: &mut String, offices: &[O], office: &O) -> Result<(), Memory> {
    let (records, facts) = (office.record_count(), office.fact_count());
    let (bodies, same) = (office.greatest_count(), first_same(offices, office));
    write!(text, " {records} {facts} {bodies} {same}")?;
    Ok(())
}

// Plays events. A function of its own, so that no other proof has to carry all that `play` ensures.
fn played<O: Office>(
    alloc: Global,
    offices: &mut [O],
    files: &[Vec<u8>],
    events: &[Event],
) -> Result<Vec<Outcome>, Memory> {
    play(alloc, offices, files, events)
}

/// Plays the events of these words, and writes the outcomes and what the offices then count.
pub fn write_events<O: Office>(
    alloc: Global,
    offices: &mut [O],
    files: &[Vec<u8>],
    words: &str,
    text: &mut String,
) -> Result<(), ReadFault> {
    let events = events_of(alloc, words)?;
    for outcome in &played(alloc, offices, files, events.as_slice())? {
        write_outcome(text, outcome)?;
    }
    text.push_str("|")?;
    for office in offices.iter() {
        write_counts(text, offices, office)?;
    }
    text.push_str("\n")?;
    Ok(())
}

/// Writes what offices answer, and which of them are the same as the first.
pub fn write_answers<O: Office>(
    alloc: Global,
    offices: &[O],
    text: &mut String,
) -> Result<(), Memory> {
    for office in offices {
        write_office(alloc, office, text)?;
        writeln!(text, "{}", first_same(offices, office) == 0)?;
    }
    Ok(())
}
