ghost use Rattle.std.specs.Prelude.{◌≡◌, ◌+◌, ℕ, List, IsTrue, ◌↔◌, ◌⊎◌, OnOk, OnErr, IfOk, IfErr};
ghost use Rattle.std.specs.Prelude.{map, length, Option, None, Some, option_map, string_bytes};
ghost use Rattle.std.specs.FinMap.{get};
ghost use Rattle.std.specs.FinSet.{union, len};
ghost use Rattle.std.specs.Option.{IfSome};
ghost use Rattle.cdf_types.specs.declared.fault.ReadFault.{ReadFault};
ghost use Rattle.cdf_form.specs.Reading.{IsMemory};
ghost use Rattle.cdf_parts.specs.Parts.{record_count};
ghost use Rattle.cdf_definition.specs.Frame.{Frame, IsSame};
ghost use Rattle.cdf_definition.specs.Acceptance.{Valid, first_refusal, value_in};
ghost use Rattle.cvr_fact_types.specs.Facts.{Facts, text_cmp, name_cmp};
ghost use Rattle.cvr_facts.specs.Reports.{facts};
ghost use Rattle.cvr_tally.specs.declared.key.RowKey.{RowKey};
ghost use Rattle.cvr_office.specs.Names.{records, devices, count_under, conflicts, greatest_count};
ghost use Rattle.cvr_office.specs.declared.conflict.ConflictName.TheVariants as name;
ghost use Rattle.cvr_office.specs.declared.fault.JoinFault.TheVariants as join_fault;
ghost use Rattle.cvr_office.specs.CanHold.{starting_content, CanHold};
ghost use Rattle.cvr_office.specs.Readers.{next, nth_from_one, growth, device_list, IsHeader};
ghost use Rattle.cvr_office.specs.Readers.{IsCurrent, AreRecordFacts};
ghost use Rattle.cvr_office.specs.Tallied.{row, rows, tally, total_limit, IsBelow};

use crate::conflict::ConflictList;
use crate::fault::JoinFault;
use crate::record_facts::RecordFacts;
use cdf_check::Definition;
use cdf_types::{Body, Memory, ReadFault};
use cvr_facts::{HeaderFact, RecordName, SnapshotFact};
use cvr_tally::{Row, RowKey, Totals};
use std::alloc::Global;

/// What an import brought.
#[derive(Clone, Copy, Debug, PartialEq, Eq)]
pub struct Receipt {
    /// The cast vote records of the file (NIST SP 1500-103, class CVR).
    pub cvrs: usize,
    /// The facts that were new.
    pub new_facts: usize,
}

/// A place that collects cast vote records: it holds a set of facts beside one definition.
pub trait Office {
    // its facts
    ghost held: { Self → Facts };

    // its definition
    ghost defined: { Self → Frame };

    /// A new office, which holds the devices of its definition.
    ///
    /// # Errors
    /// `Memory` where a growth was refused; the definition is then dropped.
    fn new(alloc: Global, definition: Definition) -> Result<Self, Memory>
        ensures content { IfOk result (λ o. held o ≡ starting_content definition) }
        ensures definition { IfOk result (λ o. defined o ≡ definition) };

    /// Its definition, which no call changes. Takes no memory.
    fn definition(&self) -> &Definition
        ensures is { result.now ≡ defined self.now }
        ensures can_hold { CanHold (defined self.now) (held self.now) };

    /// Takes in the facts of a file that is accepted beside the definition.
    ///
    /// # Errors
    /// As `check_report`. The office is then as it was.
    fn import(&mut self, bytes: &[u8]) -> Result<Receipt, ReadFault>
        ensures content { OnOk result (held self.new ≡ union (held self.old) (facts bytes.now)) }
        ensures valid { OnOk result (Valid (defined self.old) bytes.now) }
        ensures cvrs { IfOk result (λ r. r.cvrs ≡ record_count (value_in bytes.now)) }
        ensures new_facts { IfOk result
            (λ r. r.new_facts ≡ growth (held self.old) (facts bytes.now)) }
        ensures first { IfErr result
            (λ e. ¬ IsMemory e → first_refusal (defined self.old) bytes.now ≡ Some e) }
        ensures unchanged { OnErr result (held self.new ≡ held self.old) }
        ensures definition { defined self.new ≡ defined self.old };

    /// Takes in the facts of another office, which stays as it is, and answers how many were new.
    ///
    /// # Errors
    /// `OtherDefinition` where the definitions differ (devices aside); else `Memory` where a growth
    /// was refused. The office is then as it was.
    fn join(&mut self, other: &Self) -> Result<usize, JoinFault>
        ensures content { OnOk result (held self.new ≡ union (held self.old) (held other.now)) }
        ensures same { OnOk result (IsSame (defined self.old) (defined other.now)) }
        ensures new_facts { IfOk result (λ n. n ≡ growth (held self.old) (held other.now)) }
        ensures fault { IfErr result
            (λ e. ((e ≡ join_fault.OtherDefinition)
            × ¬ IsSame (defined self.old) (defined other.now))
            ⊎ ((e ≡ join_fault.Memory) × IsSame (defined self.old) (defined other.now))) }
        ensures unchanged { OnErr result (held self.new ≡ held self.old) }
        ensures definition { defined self.new ≡ defined self.old };

    /// Whether both have the same definition (devices aside) and hold the same facts. Takes no
    /// memory.
    fn same(&self, other: &Self) -> bool
        ensures { IsTrue result ↔
            (IsSame (defined self.now) (defined other.now) × (held self.now ≡ held other.now)) };

    /// The current snapshot of a record: the greatest by Type, then by its latest annotation, then
    /// by bytes. None where there is no such record. Takes no memory.
    fn current(&self, key: &RecordName) -> Option<&SnapshotFact>
        ensures { IsCurrent (defined self.now).contests (held self.now) key.now
            (option_map (λ s. s.now) result) };

    /// The header of a record: the greatest by bytes. None where there is no such record. Takes no
    /// memory.
    fn header(&self, key: &RecordName) -> Option<&HeaderFact>
        ensures { IsHeader (held self.now) key.now (option_map (λ h. h.now) result) };

    /// All facts of a record. None where there is no such record.
    ///
    /// # Errors
    /// `Memory` where a growth was refused.
    fn record_facts(
        &self,
        alloc: Global,
        key: &RecordName,
    ) -> Result<Option<RecordFacts<'_>>, Memory>
        ensures { IfOk result
            (AreRecordFacts (defined self.now).contests (held self.now) key.now) };

    /// The least record name above the given one, or the least of all. Takes no memory.
    fn next_record(&self, after: Option<&RecordName>) -> Option<&RecordName>
        ensures { option_map (λ k. k.now) result
            ≡ next name_cmp (records (held self.now)) (option_map (λ k. k.now) after.entry) };

    /// The least device id above the given one, or the least of all. Takes no memory.
    fn next_device(&self, after: Option<&str>) -> Option<&str>
        ensures { option_map (λ i. i.now) result
            ≡ next text_cmp (devices (held self.now)) (option_map (λ i. i.now) after.entry) };

    /// How many bodies the device with this id has, 0 where there is none. Takes no memory.
    fn device_count(&self, id: &str) -> usize
        ensures { result ≡ count_under (held self.now) (name.Device id.now) };

    /// Body number `k` of the device with this id, from 1, greatest first by bytes. None for 0 and
    /// above their number. Takes no memory.
    fn device_body(&self, id: &str, k: usize) -> Option<&Body>
        ensures { option_map (λ b. b.now) result
            ≡ nth_from_one (device_list (held self.now) id.now) k };

    /// The names with two bodies or more, in order.
    ///
    /// # Errors
    /// `Memory` where a growth was refused.
    fn conflicts(&self, alloc: Global) -> Result<ConflictList, Memory>
        ensures { IfOk result (λ list. list ≡ conflicts (held self.now)) };

    /// The row of the tally for a key: the sums over those records whose header has the key's unit
    /// and batch, and whose current snapshot has its contest. None where there is no such record.
    /// Each number is below 2^118.
    ///
    /// # Errors
    /// `Memory` where a growth was refused.
    fn row(&self, alloc: Global, key: &RowKey) -> Result<Option<Row>, Memory>
        ensures row { IfOk result
            (λ found. found ≡ row (defined self.now).contests (held self.now) key.now) }
        ensures below { IfOk result (λ found. IfSome found (IsBelow total_limit)) };

    /// The rows of the tally: each one that has a ballot. Each number is below 2^118.
    ///
    /// How often rows were changed on the way is left open. That the numbers which a CVRContest
    /// states agree with its positions is not said.
    ///
    /// # Errors
    /// `Memory` where a growth was refused.
    fn totals(&self, alloc: Global) -> Result<Totals, Memory>
        ensures rows { IfOk result
            (λ t. t.rows ≡ rows (defined self.now).contests (held self.now)) }
        ensures contests { IfOk result (λ t. t.contests ≡ (defined self.now).contests) }
        ensures below { IfOk result
            (λ t. (q : RowKey) → IfSome (get t.rows q) (IsBelow total_limit)) };

    /// The lines of the tally: those of its rows.
    ///
    /// # Errors
    /// `Memory` where a growth was refused.
    fn tally_text(&self, alloc: Global) -> Result<String, Memory>
        ensures { IfOk result
            (λ text. string_bytes text ≡ tally (defined self.now).contests (held self.now)) };

    /// How many records it has. Takes no memory.
    fn record_count(&self) -> usize
        ensures { result ≡ length (records (held self.now)) };

    /// How many facts it holds. Takes no memory.
    fn fact_count(&self) -> usize
        ensures { result ≡ len (held self.now) };

    /// The greatest number of bodies under one name, 0 where there is none. Takes no memory.
    fn greatest_count(&self) -> usize
        ensures { result ≡ greatest_count (held self.now) };
}
