use crate::lists::Lists;
use crate::named::Named;
use cdf_node::Node;
use cdf_parts::contests::Contests;
use cdf_parts::ids::Ids;
use cdf_parts::{election_items, items_at};
use cdf_types::{Body, Memory};
use std::alloc::Global;
use std::marker::Model;
use std::rc::Rc;

/// An election definition: what is kept of a sound report. Two reports have the same definition
/// where the texts of their Election, GpUnits and Parties are the same; which members make a
/// definition is this project's own. Contracts see it as a record of lists.
pub struct Definition {
    elections: Named,
    units: Named,
    parties: Named,
    devices: Named,
    contests: Contests,
    lists: Rc<Lists>,
}

// By hand: what holds one has shorter proofs than with a derived `Drop`.
impl Drop for Definition {
    fn drop(self) {
        let Definition {
            elections: _,
            units: _,
            parties: _,
            devices: _,
            contests: _,
            lists: _,
        } = self;
    }
}

impl Model for Definition {
    ghost use Rattle.cdf_definition.specs.Frame.{Frame};
    ghost use Rattle.cdf_definition.specs.Lists.{AreOfOne};

    ghost Value = { Frame };

    ghost view = { λ a. record {
      elections = a.elections;
      units = a.units;
      parties = a.parties;
      devices = a.devices;
      contests = a.contests;
    } };

    ghost invariant = { λ a. AreOfOne (record {
      elections = a.elections;
      units = a.units;
      parties = a.parties;
      devices = a.devices;
      contests = a.contests;
    }) a.lists.value };
}

impl Definition {
    ghost use Rattle.std.specs.Prelude.{◌≡◌, ◌<◌, length, slice_index_or, IfOk, [], ◌∷◌, bytes_eq};
    ghost use Rattle.std.specs.Prelude.{IsTrue, ◌↔◌};
    ghost use Rattle.std.specs.Bool.{OnTrue};
    ghost use Rattle.std.specs.List.{list_any};
    ghost use Rattle.cdf_node.specs.View.{view};
    ghost use Rattle.cdf_parts.specs.Places.{place_in, contest_ids, selections_at};
    ghost use Rattle.cdf_definition.specs.Named.{ids_of, texts_of};
    ghost use Rattle.cdf_definition.specs.Frame.{frame_of, IsSame};
    ghost use Rattle.cdf_definition.specs.Sound.{IsSound, WasRead, IsFrame};
    ghost use Rattle.cdf_definition.specs.Lists.{HasLists};

    /// What is kept of a report.
    ///
    /// # Errors
    /// `Memory` where a growth was refused.
    pub(crate) fn of_report(alloc: Global, report: &Node<'_>) -> Result<Definition, Memory>
        requires sound { IsSound (view report.now) }
        requires read { WasRead (view report.now) }
        ensures { IfOk result (λ def. def ≡ frame_of (view report.now)) }
    {
        Ok(Definition {
            elections: Named::of_items(alloc, items_at("Election", report))?,
            units: Named::of_items(alloc, items_at("GpUnit", report))?,
            parties: Named::of_items(alloc, items_at("Party", report))?,
            devices: Named::of_items(alloc, items_at("ReportingDevice", report))?,
            contests: Contests::of_items(alloc, election_items("Contest", report))?,
            lists: Lists::of_report(alloc, report)?,
        })
    }

    /// An equal definition, with the same devices.
    ///
    /// # Errors
    /// `Memory` where a growth was refused.
    pub fn copy(&self, alloc: Global) -> Result<Definition, Memory>
        ensures { IfOk result (λ def. def ≡ self.now) }
    {
        Ok(Definition {
            elections: self.elections.copy(alloc)?,
            units: self.units.copy(alloc)?,
            parties: self.parties.copy(alloc)?,
            devices: self.devices.copy(alloc)?,
            contests: self.contests.copy(alloc)?,
            lists: self.lists.clone()?,
        })
    }

    /// Whether both are the same definition: the same texts of the Election, of GpUnits and of
    /// Parties, whatever their order in the files. Devices may differ. Takes no memory.
    pub fn same(&self, other: &Definition) -> bool
        ensures { IsTrue result ↔ IsSame self.now other.now }
    {
        self.elections.same(&other.elections)
            && self.units.same(&other.units)
            && self.parties.same(&other.parties)
    }

    /// A definition is what is kept of some sound report. Takes no memory.
    pub fn made_of_a_report(&self)
        ensures { IsFrame self.now }
    {
        let _ = &self.elections;
    }

    /// How many contests the Election has. Takes no memory.
    pub fn contest_count(&self) -> usize
        ensures { result ≡ length self.now.contests }
    {
        self.contests.ids().len()
    }

    /// The id of the contest at a place, from 0 in the order of the Election. Takes no memory.
    pub fn contest(&self, place: usize) -> &str
        requires { place < length self.now.contests }
        ensures { result.now ≡ slice_index_or (contest_ids self.now.contests) place [] }
    {
        self.contests.ids().get(place)
    }

    /// The place of the contest with this id, from 0, if there is one. Takes no memory.
    pub fn find_contest(&self, id: &str) -> Option<usize>
        ensures { result ≡ place_in (contest_ids self.now.contests) id.now }
    {
        self.contests.ids().find(id)
    }

    /// How many contest selections the contest at a place has. Takes no memory.
    pub fn selection_count(&self, contest: usize) -> usize
        requires { contest < length self.now.contests }
        ensures { result ≡ length (selections_at self.now.contests contest) }
    {
        self.contests.selections(contest).len()
    }

    /// The id of the contest selection at a place of the contest at a place, both from 0. Takes no
    /// memory.
    pub fn selection(&self, contest: usize, place: usize) -> &str
        requires contest { contest < length self.now.contests }
        requires place { place < length (selections_at self.now.contests contest) }
        ensures { result.now ≡ slice_index_or (selections_at self.now.contests contest) place [] }
    {
        self.contests.selections(contest).get(place)
    }

    /// The place of the contest selection with this id in the contest at a place, both from 0, if
    /// there is one. Takes no memory.
    pub fn find_selection(&self, contest: usize, id: &str) -> Option<usize>
        requires { contest < length self.now.contests }
        ensures { result ≡ place_in (selections_at self.now.contests contest) id.now }
    {
        self.contests.selections(contest).find(id)
    }

    /// The compact text of the Election. Takes no memory.
    pub fn election(&self) -> &Body
        ensures { texts_of self.now.elections ≡ result.now ∷ [] }
    {
        &self.elections.bodies()[0]
    }

    /// The compact texts of the GpUnits, in byte order of their ids. Takes no memory.
    pub fn units(&self) -> &[Body]
        ensures { result.now ≡ texts_of self.now.units }
    {
        self.units.bodies()
    }

    /// The compact texts of the Parties, in byte order of their ids. Takes no memory.
    pub fn parties(&self) -> &[Body]
        ensures { result.now ≡ texts_of self.now.parties }
    {
        self.parties.bodies()
    }

    /// The compact texts of the ReportingDevices, in byte order of their ids. Takes no memory.
    pub fn devices(&self) -> &[Body]
        ensures { result.now ≡ texts_of self.now.devices }
    {
        self.devices.bodies()
    }

    /// The id of the ReportingDevice at a place of `devices`, from 0. Takes no memory.
    pub fn device_id(&self, place: usize) -> &str
        requires { place < length self.now.devices }
        ensures { result.now ≡ slice_index_or (ids_of self.now.devices) place [] }
    {
        self.devices.ids().get(place)
    }

    /// Whether a ReportingDevice of the definition has this id. Takes no memory.
    pub fn device(&self, id: &str) -> bool
        ensures { result ≡ list_any (bytes_eq id.now) (ids_of self.now.devices) }
    {
        self.devices.ids().contains(id)
    }

    /// Whether a value has the lists that the definition was made with: the same Election, GpUnits
    /// and Parties, in the same order. Takes no memory.
    pub fn has_lists(&self, value: &Node<'_>) -> bool
        ensures { OnTrue result (HasLists self.now (view value.now)) }
    {
        self.lists.as_ref().are_in(value)
    }

    /// The ids of the GpUnits, in byte order. Takes no memory.
    pub fn unit_ids(&self) -> &Ids
        ensures { result.now ≡ ids_of self.now.units }
    {
        self.units.ids()
    }

    /// The ids of the Parties, in byte order. Takes no memory.
    pub fn party_ids(&self) -> &Ids
        ensures { result.now ≡ ids_of self.now.parties }
    {
        self.parties.ids()
    }

    // The Election by its id.
    pub(crate) fn elections(&self) -> &Named
        ensures { result.now ≡ self.now.elections }
    {
        &self.elections
    }

    // The GpUnits by their ids.
    pub(crate) fn named_units(&self) -> &Named
        ensures { result.now ≡ self.now.units }
    {
        &self.units
    }

    // The Parties by their ids.
    pub(crate) fn named_parties(&self) -> &Named
        ensures { result.now ≡ self.now.parties }
    {
        &self.parties
    }

    /// The contests by id and place, each with the ids of its selections. Takes no memory.
    pub fn contests(&self) -> &Contests
        ensures { result.now ≡ self.now.contests }
    {
        &self.contests
    }
}
