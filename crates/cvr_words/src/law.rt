ghost use Rattle.cvr_words.specs.Laws.{NoFaultLaw, NoLoggedFaultLaw, OneRequestLaw};
ghost use Rattle.cvr_words.specs.StepLaws.{OneFormLaw, StepFormsLaw, StepPlacesLaw, StepTextsLaw};

/// Words ask for one request at most, and those that ask for one have no fault but `Memory`.
pub fn words_ask_for_one_request()
    ensures one { OneRequestLaw }
    ensures no_fault { NoFaultLaw }
    ensures no_logged_fault { NoLoggedFaultLaw }
{}

/// Where each text has a form, the steps have these texts, and do what they say: an import takes in
/// the file at its own path. The imports take the paths in order. No text has both forms.
pub fn steps_do_what_their_texts_say()
    ensures texts { StepTextsLaw }
    ensures forms { StepFormsLaw }
    ensures places { StepPlacesLaw }
    ensures one_form { OneFormLaw }
{}
