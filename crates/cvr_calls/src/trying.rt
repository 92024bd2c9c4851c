use crate::files::Files;
use crate::scripts::Script;
use cdf_types::ReadFault;
use std::io::Read;

// The next byte of standard input. 0 where there is none.
fn next_byte(rt: &HostRuntime) -> u8 {
    let mut bytes = [0u8; 1];
    match rt.stdin().read(&mut bytes) {
        Ok(1) => bytes[0],
        _ => 0,
    }
}

// Whether this is the text that the calls gave.
fn is_printed(printed: &Result<String, ReadFault>, wanted: &str) -> bool {
    match printed {
        Ok(text) => text.as_str() == wanted,
        Err(_) => false,
    }
}

// Makes the calls of a copy, and answers whether they gave what they give where nothing is refused,
// or answered out of memory where it was, and gave it when made again.
fn is_right(rt: &HostRuntime, script: Script, files: &Files, wanted: &str) -> bool {
    let printed = script.printed(rt.alloc(), files);
    let was_refused = next_byte(rt) == b'm';
    match printed {
        Err(ReadFault::Memory) => was_refused
            && is_printed(&script.printed(rt.alloc(), files), wanted),
        printed => is_printed(&printed, wanted),
    }
}

// Tries a script that gives this text where nothing is refused.
fn try_printed(rt: &HostRuntime, name: &str, script: Script, files: &Files, wanted: &str) -> bool {
    let _ = println!(rt; "script {name}");
    let is_copy = next_byte(rt) == b'c';
    if !is_copy {
        let _ = print!(rt; "{wanted}");
    } else if !is_right(rt, script, files, wanted) {
        let _ = println!(rt; "wrong: {name}");
    }
    !is_copy
}

/// Tries a script, and answers whether another may follow: not in a copy.
pub fn try_script(rt: &HostRuntime, name: &str, script: Script, files: &Files) -> bool {
    match script.printed(rt.alloc(), files) {
        Ok(wanted) => try_printed(rt, name, script, files, wanted.as_str()),
        Err(fault) => {
            let _ = println!(rt; "wrong: {name}: {fault}");
            true
        }
    }
}
