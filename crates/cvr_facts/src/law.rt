//! Laws of joining, of the order of choosing, of sums and of the facts of a file.
ghost use Rattle.std.specs.Prelude.{◌≡◌};
ghost use Rattle.cvr_fact_types.specs.Facts.{name_cmp};
ghost use Rattle.cvr_fact_types.specs.Orders.{device_cmp};
ghost use Rattle.cvr_facts.specs.Laws.{ChoosingLaw, EqualLaw, RankLaw, UndatedLaw, EarlierLaw};
ghost use Rattle.cvr_facts.specs.Laws.{BytesLaw, BodiesLaw, ExactLaw, CurrentLaw, OneCurrentLaw};
ghost use Rattle.cvr_facts.specs.Laws.{MomentLaw, NoMomentLaw, JoiningLaw, SumsLaw};
ghost use Rattle.cvr_facts.specs.SumLaws.{EitherLaw, MarkedLaw, UnsetLaw, VotesLaw};
ghost use Rattle.cvr_facts.specs.SumLaws.{SnapshotRangeLaw, EachOnceLaw, InOrderLaw};
ghost use Rattle.cvr_facts.specs.Sources.{FactSourceLaw, DeviceListedLaw, HeaderListedLaw};
ghost use Rattle.cvr_facts.specs.Sources.{SnapshotListedLaw, FactHeldLaw, SpelledLaw};
ghost use Rattle.cvr_facts.specs.Sources.{SetItemsLaw, HeaderBodiesLaw, SnapshotBodiesLaw};
ghost use Rattle.cvr_facts.specs.Sources.{TextsInOrder, TextsAreExact, BodiesInOrder};
ghost use Rattle.cvr_facts.specs.Sources.{BodiesAreExact};

use cvr_fact_types::{DeviceFact, RecordName};

/// Joining facts is commutative, associative and idempotent, and joining nothing changes nothing.
pub fn joining()
    ensures { JoiningLaw }
{}

/// Names of records are ordered by device, then by unique; devices as facts by id, then by body;
/// each by bytes.
pub fn names_are_ordered_by_bytes()
    ensures names { (a b : RecordName) → ⟦<RecordName as Ord>⟧.cmp a b ≡ name_cmp a b }
    ensures devices { (a b : DeviceFact) → ⟦<DeviceFact as Ord>⟧.cmp a b ≡ device_cmp a b }
{}

/// The order of choosing is a total order of snapshots, and that of their bodies. A lower rank is
/// less; of one kind, no moment is less than any, and an earlier moment is less; of one kind and
/// moment, bodies go by their bytes. Two are equal in it where rank, moment and body are, and so
/// two of one record only where they are the same.
pub fn choosing()
    ensures total { ChoosingLaw }
    ensures rank { RankLaw }
    ensures undated { UndatedLaw }
    ensures earlier { EarlierLaw }
    ensures bytes { BytesLaw }
    ensures equal { EqualLaw }
    ensures bodies { BodiesLaw }
    ensures exact { ExactLaw }
{}

/// Texts, and bodies in the order of choosing, are in a total order in which only equal ones tie.
pub fn texts_are_ordered()
    ensures texts { TextsInOrder }
    ensures exact_texts { TextsAreExact }
    ensures bodies { BodiesInOrder }
    ensures exact_bodies { BodiesAreExact }
{}

/// A record that has a snapshot has exactly one that is current: the one that none of its snapshots
/// passes in the order of choosing.
pub fn currents()
    ensures current { CurrentLaw }
    ensures one { OneCurrentLaw }
{}

/// The moment of a snapshot is the instant of one of its annotations, and none of them has a later
/// one; it has no moment exactly where none of them has an instant.
pub fn moments()
    ensures moment { MomentLaw }
    ensures none { NoMomentLaw }
{}

/// No position both counts and is pending, and only a marked one is pending. Without IsAllocable a
/// position counts exactly where it is marked.
pub fn positions()
    ensures apart { EitherLaw }
    ensures marked { MarkedLaw }
    ensures absent { UnsetLaw }
{}

/// The votes of a contest's selections and the unassigned ones add up to the votes of its counting
/// positions. A snapshot has the sums of each of its contests once, in order of place.
pub fn sums_add_up()
    ensures votes { VotesLaw }
    ensures ranges { SnapshotRangeLaw }
    ensures once { EachOnceLaw }
    ensures order { InOrderLaw }
{}

/// The sums of a contest in one snapshot stay below 2^54.
pub fn sums_stay_below()
    ensures { SumsLaw }
{}

/// Each fact of a file comes from a device, a record or a snapshot of it, and each of these gives
/// one. What the report of an accepted file says of them is what their bodies spell.
pub fn sources()
    ensures source { FactSourceLaw }
    ensures devices { DeviceListedLaw }
    ensures headers { HeaderListedLaw }
    ensures snapshots { SnapshotListedLaw }
    ensures held { FactHeldLaw }
    ensures spelled { SpelledLaw }
{}

/// The bodies of a record's headers and snapshots are those of its facts.
pub fn bodies_of_records()
    ensures items { SetItemsLaw }
    ensures headers { HeaderBodiesLaw }
    ensures snapshots { SnapshotBodiesLaw }
{}
