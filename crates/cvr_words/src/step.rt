ghost use Rattle.std.specs.Prelude.{◌≡◌, option_map};
ghost use Rattle.cvr_words.specs.Step.{exchange_in, import_in, step_form};
ghost use Rattle.cvr_words.specs.Steps.{form_of};

use crate::number::read_number;

/// A step as it is read, before its path has a place.
#[derive(Clone, Copy)]
pub(crate) enum Form<'a> {
    Import(u32, &'a str),
    Exchange(u32, u32),
}

fn read_import<'a>(text: &'a str) -> Option<Form<'a>>
    ensures { option_map form_of result ≡ import_in text.now }
{
    let (number, path) = text.split_once('=')?;
    let office = read_number(number)?;
    if path.is_empty() {
        return None;
    }
    Some(Form::Import(office, path))
}

fn read_exchange<'a>(text: &'a str) -> Option<Form<'a>>
    ensures { option_map form_of result ≡ exchange_in text.now }
{
    let (from, to) = text.split_once('>')?;
    Some(Form::Exchange(read_number(from)?, read_number(to)?))
}

/// The form of a step; None for a text that has none. Takes no memory.
#[tactic(auto, unfolding(crate::specs::Step::step_form))]
pub(crate) fn read_step<'a>(text: &'a str) -> Option<Form<'a>>
    ensures { option_map form_of result ≡ step_form text.now }
{
    if let Some(form) = read_import(text) {
        return Some(form);
    }
    read_exchange(text)
}
