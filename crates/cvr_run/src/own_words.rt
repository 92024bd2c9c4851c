ghost use Rattle.std.specs.Prelude.{◌≡◌, map, true, false, string_bytes};
ghost use Rattle.cvr_run.specs.OwnWords.{AsksVersion, PrintsOwn, version_text};

use crate::ending::end_with;
use crate::printing::print_text;
use crate::refusals::Refusals;
use crate::status::Status;
use cdf_types::Sink;

/// Whether the words ask for the version. Takes no memory.
pub fn asks_version(words: &[String]) -> bool
    ensures yes { result ≡ true → AsksVersion (map string_bytes words.now) }
    ensures no { result ≡ false → ¬ AsksVersion (map string_bytes words.now) }
{
    match words {
        [word] => match word.as_str() {
            "--version" | "-V" => true,
            _ => false,
        },
        _ => false,
    }
}

/// Prints a text of the program's own. Takes no memory.
pub fn print_own<W: Sink, L: Sink>(text: &str, out: &mut W, log: &mut L) -> Status
    requires { (W.taken out.old).failed ≡ false }
    ensures { PrintsOwn text.now result
        (record { out = W.taken out.old; log = L.taken log.old })
        (record { out = W.taken out.new; log = L.taken log.new }) }
{
    let printed = print_text(text, out);
    end_with(printed, Refusals::none(), log)
}

/// Prints the version. Takes no memory.
pub fn print_version<W: Sink, L: Sink>(out: &mut W, log: &mut L) -> Status
    requires { (W.taken out.old).failed ≡ false }
    ensures { PrintsOwn version_text result
        (record { out = W.taken out.old; log = L.taken log.old })
        (record { out = W.taken out.new; log = L.taken log.new }) }
{
    print_own("cvr 1.4.0\n", out, log)
}
