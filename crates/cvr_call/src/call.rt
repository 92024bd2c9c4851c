ghost use Rattle.std.specs.Prelude.{◌≡◌, ◌⊎◌, ◌≤◌, ◌&&◌, length, nat_le};
ghost use Rattle.std.specs.Prelude.{if◌then◌else◌};
ghost use Rattle.cvr_run.specs.Status.{code_of};
ghost use Rattle.cvr_call.specs.Given.{Given, IsInput};
ghost use Rattle.cvr_call.specs.Responds.{Answer, IsAnswer, IsSoFar};
ghost use Rattle.cvr_call.specs.Left.{HasPut, IsUnanswered, Leaves, no_input, no_memory, no_room};
ghost use Rattle.cvr_call.specs.Left.{put_into};

use crate::answer::answer_input;
use cdf_types::MemorySink;
use cvr_cli::Status;
use std::alloc::Global;

// The status of a call whose text or log is longer than its room.
const NO_ROOM: u8 = 6;

/// How many bytes a text and a log have.
#[repr(C)]
pub struct CvrSizes {
    /// The bytes of the text.
    pub text: usize,
    /// The bytes of the log.
    pub log: usize,
}

/// Puts bytes into a room, as many as fit, and answers whether that is all of them.
pub fn put(bytes: &[u8], room: &mut [u8]) -> bool
    ensures room { room.new ≡ put_into room.old bytes.now }
    ensures fits { result ≡ nat_le (length bytes.now) (length room.old) }
{
    let count = bytes.len().min(room.len());
    room[..count].copy_from_slice(&bytes[..count]);
    bytes.len() <= room.len()
}

/// The status of a call that the program answered.
pub fn answer_code(status: Status, text_fits: bool, log_fits: bool) -> u8
    ensures { result ≡ (if text_fits && log_fits then code_of status else no_room) }
{
    if text_fits && log_fits {
        status.code()
    } else {
        NO_ROOM
    }
}

/// Does what words ask for over files in memory. The input is these words, and then of each file
/// its path and its bytes, one piece after the other; `ends` says where each piece ends, and
/// `words` how many are words. Paths are compared byte by byte; of two files with one path the
/// first counts.
///
/// All that is passed stays the caller's, and nothing is kept between calls. The text and the log
/// stand in their rooms as far as they fit; `sizes` says how long they are. Answers the program's
/// status, 0 to 4; 5 where the input isn't words and files, and nothing is done; and 6 where the
/// text or the log is longer than its room. A refused growth is answered by 4: what then stands in
/// the rooms, with its lengths in `sizes`, is what was printed and logged so far.
#[unsafe(no_mangle)]
pub extern "C" fn cvr_call(
    alloc: Global,
    input: &[u8],
    ends: &[usize],
    words: usize,
    text: &mut [u8],
    log: &mut [u8],
    sizes: &mut CvrSizes,
) -> u8
    ensures handed_over { (given : Given) → IsInput input.now ends.now words given
        → (result ≡ no_memory) ⊎ ((answer : Answer) × IsAnswer given answer
        × Leaves answer (record { text = text.old; log = log.old })
        (record { text = text.new; log = log.new }) sizes.new result) }
    ensures so_far { result ≡ no_memory → (given : Given) → IsInput input.now ends.now words given
        → (put : HasPut (record { text = text.old; log = log.old })
        (record { text = text.new; log = log.new }) sizes.new) × IsSoFar given put.text put.log }
    ensures no_input { result ≡ no_input → (given : Given)
        → ¬ IsInput input.now ends.now words given }
    ensures bad_input { ((given : Given) → ¬ IsInput input.now ends.now words given)
        → (result ≡ no_input) ⊎ (result ≡ no_memory) }
    ensures left { HasPut (record { text = text.old; log = log.old })
        (record { text = text.new; log = log.new }) sizes.new }
    ensures nothing_handed_over { result ≡ no_input
        → IsUnanswered (record { text = text.old; log = log.old })
        (record { text = text.new; log = log.new }) sizes.new }
    ensures within { result ≤ no_room }
{
    let mut out = MemorySink::new(alloc, usize::MAX, 0);
    let mut lines = MemorySink::new(alloc, usize::MAX, 0);
    let answered = answer_input(alloc, input, ends, words, &mut out, &mut lines);
    let text_fits = put(out.taken(), text);
    let log_fits = put(lines.taken(), log);
    sizes.text = out.taken().len();
    sizes.log = lines.taken().len();
    match answered {
        Ok(status) => answer_code(status, text_fits, log_fits),
        Err(fault) => fault.code(),
    }
}
