ghost use Rattle.std.specs.Prelude.{◌≡◌, false};

// How many depths there are.
const DEPTHS: usize = 128;

// The most items or members for which room is made at once. More would be wasted where short ones
// stand behind a long one.
const MOST: usize = 8;

/// What is noted while values are read: of each depth, how many items the last array had there, and
/// how many members the last object, so that the next one gets room for as many at once, up to
/// eight; and whether a number was read that isn't whole.
#[derive(Drop)]
pub struct Track {
    items: [usize; DEPTHS],
    members: [usize; DEPTHS],
    /// Whether a number was read that isn't whole.
    pub fraction: bool,
}

impl Track {
    /// Nothing was read.
    pub fn new() -> Track
        ensures { result.fraction ≡ false }
    {
        Track {
            items: [0; DEPTHS],
            members: [0; DEPTHS],
            fraction: false,
        }
    }

    // How many items an array at a depth gets room for.
    pub(crate) fn items(&self, depth: usize) -> usize {
        noted(&self.items, depth)
    }

    // How many members an object at a depth gets room for.
    pub(crate) fn members(&self, depth: usize) -> usize {
        noted(&self.members, depth)
    }

    // Notes an array at a depth.
    pub(crate) fn note_items(&mut self, depth: usize, count: usize)
        ensures { self.new.fraction ≡ self.old.fraction }
    {
        note(&mut self.items, depth, count);
    }

    // Notes an object at a depth.
    pub(crate) fn note_members(&mut self, depth: usize, count: usize)
        ensures { self.new.fraction ≡ self.old.fraction }
    {
        note(&mut self.members, depth, count);
    }
}

fn noted(counts: &[usize; DEPTHS], depth: usize) -> usize {
    match counts.get(depth) {
        Some(count) => (*count).min(MOST),
        None => 0,
    }
}

fn note(counts: &mut [usize; DEPTHS], depth: usize, count: usize) {
    if let Some(held) = counts.get_mut(depth) {
        *held = count;
    }
}
