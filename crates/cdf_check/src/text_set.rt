use cdf_node::Node;
use cdf_parts::ids::Ids;
use std::alloc::{AllocError, Global};
use std::collections::BTreeSet;
use std::marker::Model;

/// Texts, each once. Contracts see them as a list.
#[derive(Drop)]
pub(crate) struct TextSet {
    texts: BTreeSet<String>,
}

impl Model for TextSet {
    ghost use Rattle.cdf_parts.specs.Places.{Texts};
    ghost use Rattle.cdf_parts.specs.Ids.{bytes_of};

    ghost Value = { Texts };

    ghost view = { λ t. bytes_of t.texts.keys };
}

impl TextSet {
    ghost use Rattle.std.specs.Prelude.{◌≡◌, ◌∷◌, ◌++◌, [], map, option_map, OnOk};
    ghost use Rattle.std.specs.List.{cons_option, filter_map};
    ghost use Rattle.serde_json.specs.Find.{as_str};
    ghost use Rattle.cdf_node.specs.View.{view};
    ghost use Rattle.cdf_check.specs.Within.{lists, SameTexts};

    pub(crate) fn new(alloc: Global) -> TextSet
        ensures { result ≡ [] }
    {
        TextSet {
            texts: BTreeSet::new(alloc),
        }
    }

    /// Adds a text.
    ///
    /// # Errors
    /// An `AllocError` where a growth was refused.
    #[tactic(auto, using(crate::proofs::NamedTexts::already_there, crate::proofs::NamedTexts::one_more))]
    pub(crate) fn add(&mut self, alloc: Global, text: &str) -> Result<(), AllocError>
        ensures { OnOk result (SameTexts self.new (self.old ++ text.now ∷ [])) }
    {
        if self.texts.contains(text) {
            return Ok(());
        }
        let _ = self.texts.insert(String::from_str(alloc, text)?)?;
        Ok(())
    }

    /// Adds a text, if there is one.
    ///
    /// # Errors
    /// As `add`.
    #[tactic(auto, using(crate::proofs::NamedTexts::none_more))]
    pub(crate) fn add_any(&mut self, alloc: Global, text: Option<&str>) -> Result<(), AllocError>
        ensures { OnOk result
            (SameTexts self.new (self.old ++ cons_option (option_map (λ s. s.now) text.entry) [])) }
    {
        match text {
            None => Ok(()),
            Some(text) => self.add(alloc, text),
        }
    }

    /// Adds the texts among some items.
    ///
    /// # Errors
    /// As `add`.
    pub(crate) fn add_items(&mut self, alloc: Global, items: &[Node<'_>]) -> Result<(), AllocError>
        ensures { OnOk result
            (SameTexts self.new (self.old ++ filter_map as_str (map view items.now))) }
    {
        for item in items {
            self.add_any(alloc, item.as_str())?;
        }
        Ok(())
    }

    /// Whether each of the texts is one of the ids.
    pub(crate) fn are_among(&self, ids: &Ids) -> bool
        ensures { result ≡ lists ids.now self.now }
    {
        for text in &self.texts {
            if !ids.contains(text.as_str()) {
                return false;
            }
        }
        true
    }
}
