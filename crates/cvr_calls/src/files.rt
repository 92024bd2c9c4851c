use std::fs;

// Reports, each of which brings an office another kind of new fact.
static REPORTS: [&str; 7] = [
    "scan_for_ann.json",
    "adjudicated_for_bob.json",
    "adjudicated_other_body.json",
    "scan_other_unit.json",
    "device_other_body.json",
    "every_kind_of_position.json",
    "batched_with_image.json",
];

// Reports of every kind of vote and of most members, and one that is refused.
static CHECKED: [&str; 3] = [
    "every_kind_of_position.json",
    "batched_with_image.json",
    "scan_without_unique_id.json",
];

/// The bytes of the files that the scripts read.
#[derive(Drop)]
pub struct Files {
    /// The definition.
    pub definition: Vec<u8>,
    /// Reports that offices take in.
    pub reports: Vec<Vec<u8>>,
    /// Reports that are checked alone.
    pub checked: Vec<Vec<u8>>,
}

impl Files {
    /// The files, which lie where the program runs.
    pub fn read(rt: &HostRuntime) -> anyhow::Result<Files> {
        let definition = fs::read(rt, "definition.json")?;
        let reports = read_all(rt, &REPORTS)?;
        let checked = read_all(rt, &CHECKED)?;
        Ok(Files {
            definition,
            reports,
            checked,
        })
    }
}

fn read_all(rt: &HostRuntime, names: &[&str]) -> anyhow::Result<Vec<Vec<u8>>> {
    let mut files = Vec::new(rt.alloc());
    for name in names {
        files.push(fs::read(rt, *name)?)?;
    }
    Ok(files)
}
