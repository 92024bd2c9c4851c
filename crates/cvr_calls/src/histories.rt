use crate::events::{write_answers, write_events};
use crate::offices::new_office;
use crate::volumes::volumes_of;
use cdf_types::ReadFault;
use cvr_collect::{CachedOffice, Office, PlainOffice};
use std::alloc::Global;
use std::fs;

// What histories are made of, each a line of a file.
#[derive(Drop)]
struct Pool {
    definitions: Vec<Vec<u8>>,
    reports: Vec<Vec<u8>>,
}

impl Pool {
    fn read(rt: &HostRuntime) -> anyhow::Result<Pool> {
        let definitions = read_lines(rt, "definitions.txt")?;
        let reports = read_lines(rt, "reports.txt")?;
        Ok(Pool {
            definitions,
            reports,
        })
    }
}

// The lines of a file.
fn read_lines(rt: &HostRuntime, name: &str) -> anyhow::Result<Vec<Vec<u8>>> {
    let bytes = fs::read(rt, name)?;
    Ok(lines_of(rt.alloc(), bytes.as_slice())?)
}

fn lines_of(alloc: Global, bytes: &[u8]) -> Result<Vec<Vec<u8>>, ReadFault> {
    let mut lines = Vec::new(alloc);
    for line in bytes.split_inclusive(|byte| *byte == b'\n') {
        lines.push(Vec::from_slice(alloc, line)?)?;
    }
    Ok(lines)
}

// A new office with the definition at a place.
fn office_at<O: Office>(alloc: Global, pool: &Pool, place: &str) -> Result<O, ReadFault> {
    let place = place.parse::<usize>().ok().ok_or(ReadFault::NotJson)?;
    let text = pool.definitions.get(place).ok_or(ReadFault::NotJson)?;
    new_office(alloc, text.as_slice())
}

// New offices with the definitions at these places.
fn offices_at<O: Office + Drop>(
    alloc: Global,
    pool: &Pool,
    places: &str,
) -> Result<Vec<O>, ReadFault> {
    let mut offices = Vec::new(alloc);
    for place in places.split(' ') {
        let office: O = office_at(alloc, pool, place)?;
        offices.push(office)?;
    }
    Ok(offices)
}

// The volumes of the office at a place.
fn volumes_at<O: Office>(
    alloc: Global,
    offices: &[O],
    place: &str,
) -> Result<Vec<Vec<u8>>, ReadFault> {
    let place = place.parse::<usize>().ok().ok_or(ReadFault::NotJson)?;
    volumes_of(alloc, offices.get(place).ok_or(ReadFault::NotJson)?)
}

// Plays a step, `0: 1=2 1>0` with volumes of the first office as files, or `1=2 1>0` with the
// reports; and writes what became of it.
fn write_step<O: Office>(
    alloc: Global,
    pool: &Pool,
    offices: &mut [O],
    step: &str,
    text: &mut String,
) -> Result<(), ReadFault> {
    match step.split_once(": ") {
        Some((giver, events)) => {
            let volumes = volumes_at(alloc, offices, giver)?;
            write_events(alloc, offices, volumes.as_slice(), events, text)
        }
        None => write_events(alloc, offices, pool.reports.as_slice(), step, text),
    }
}

// Plays steps, and writes what became of them, and what the offices then answer.
fn write_steps<O: Office>(
    alloc: Global,
    pool: &Pool,
    offices: &mut [O],
    steps: &str,
    text: &mut String,
) -> Result<(), ReadFault> {
    for step in steps.lines() {
        write_step(alloc, pool, offices, step, text)?;
    }
    write_answers(alloc, offices, text)?;
    Ok(())
}

// What is written of a history in offices of a kind.
fn printed<O: Office + Drop>(
    alloc: Global,
    pool: &Pool,
    history: &str,
) -> Result<String, ReadFault> {
    let (places, steps) = history.split_once('\n').ok_or(ReadFault::NotJson)?;
    let mut offices: Vec<O> = offices_at(alloc, pool, places)?;
    let mut text = String::new(alloc);
    write_steps(alloc, pool, offices.as_mut_slice(), steps, &mut text)?;
    Ok(text)
}

// What is written of a history in plain offices; in those that remember only where it differs.
fn printed_by_both(alloc: Global, pool: &Pool, history: &str) -> Result<String, ReadFault> {
    let mut text = printed::<PlainOffice>(alloc, pool, history)?;
    let cached = printed::<CachedOffice>(alloc, pool, history)?;
    if text.as_str() != cached.as_str() {
        text.push_str("wrong: offices that remember print\n")?;
        text.push_str(cached.as_str())?;
    }
    Ok(text)
}

/// Plays histories, and prints what is written of each. In the file an empty line stands between
/// them.
pub fn print_histories(rt: &HostRuntime) -> anyhow::Result<()> {
    let pool = Pool::read(rt)?;
    let text = fs::read_to_string(rt, "histories.txt")?;
    println!(rt; "histories")?;
    for history in text.split("\n\n") {
        print!(rt; "{}", printed_by_both(rt.alloc(), &pool, history)?)?;
    }
    Ok(())
}
