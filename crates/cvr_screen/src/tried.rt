// What there is in the place of an option that asks for tables.
const TABLES: &str =
    "cvr prints lines; cvr-audit totals DEF FILE.. --format json, or csv, prints tables";

// What there is in the place of an option that people try.
fn instead_of(option: &str) -> Option<&'static str> {
    match option {
        "--json" | "--csv" | "--format" => Some(TABLES),
        "-o" | "--out" | "--output" => {
            Some("cvr prints to standard output, which > OUT saves in a file")
        }
        _ => None,
    }
}

/// The first of the words that is an option that people try, and what there is in its place.
pub fn tried(words: &[String]) -> Option<(&str, &'static str)> {
    for word in words {
        let word = word.as_str();
        let option = match word.split_once('=') {
            Some((option, _)) => option,
            None => word,
        };
        if let Some(instead) = instead_of(option) {
            return Some((option, instead));
        }
    }
    None
}
