ghost use Rattle.std.specs.Prelude.{◌≡◌};
ghost use Rattle.cvr_call.specs.Offices.{LeavesFault, code_number, fault_path, fault_status};
ghost use Rattle.cvr_call.specs.Offices.{rule_number};

use crate::call::put;
use cdf_types::ReadFault;
use cvr_cli::Status;

/// Why a file was refused: the numbers of its code, 1 for E1, and of the rule that it breaks, or 0;
/// and how many bytes its path has.
#[repr(C)]
pub struct CvrRefusal {
    /// The number of the code.
    pub code: u8,
    /// The number of the rule.
    pub rule: u8,
    /// The bytes of the path.
    pub path: usize,
}

// The numbers of a fault's code and of the rule, and its path.
fn parts(fault: &ReadFault) -> (u8, u8, &str)
    ensures code { result.0 ≡ code_number fault.now }
    ensures rule { result.1 ≡ rule_number fault.now }
    ensures path { result.2.now ≡ fault_path fault.now }
{
    match fault {
        ReadFault::TooLong => (1, 0, ""),
        ReadFault::NotJson => (2, 0, ""),
        ReadFault::Schema { path, rule } => (3, rule.number(), path.as_str()),
        ReadFault::Reference { path } => (4, 0, path.as_str()),
        ReadFault::Disagrees { path } => (5, 0, path.as_str()),
        ReadFault::Memory => (6, 0, ""),
    }
}

/// Reports why a file was refused, with its path in a room, and answers the status of the call.
pub fn leave_refusal(fault: &ReadFault, room: &mut [u8], refusal: &mut CvrRefusal) -> u8
    ensures handed_over { LeavesFault fault.now room.old room.new refusal.new }
    ensures status { result ≡ fault_status fault.now }
{
    let (code, rule, path) = parts(fault);
    put(path.as_bytes(), room);
    refusal.code = code;
    refusal.rule = rule;
    refusal.path = path.len();
    match fault {
        ReadFault::Memory => Status::Memory.code(),
        _ => Status::Refused.code(),
    }
}
