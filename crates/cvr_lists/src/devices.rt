ghost use Rattle.std.specs.Prelude.{◌≡◌, map, option_map, false, Some};
ghost use Rattle.std.specs.Option.{option_cmp, option_map_or};
ghost use Rattle.std.specs.Ordering.{is_lt, is_le};
ghost use Rattle.std.specs.List.Sorted.{IsStrictlySortedBy};
ghost use Rattle.cvr_fact_types.specs.Facts.{text_cmp};
ghost use Rattle.cvr_office.specs.Names.{body_of, bodies_under, count_under, device_in, devices};
ghost use Rattle.cvr_office.specs.declared.conflict.ConflictName.TheVariants as name;
ghost use Rattle.cvr_office.specs.Readers.{next, nth_from_one, device_list};
ghost use Rattle.cvr_office.specs.Place.{fact_of, any_cmp};
ghost use Rattle.cvr_office.specs.Plain.{set_of};

use crate::shared::SharedFact;
use cdf_types::Body;
use cvr_office::any_fact::AnyFact;

// The least device id above the given one, or the least of all. Takes no memory.
pub fn next_device_in<'a>(facts: &'a [SharedFact], after: Option<&str>) -> Option<&'a str>
    requires { IsStrictlySortedBy any_cmp facts.now }
    ensures { option_map (λ i. i.now) result
        ≡ next text_cmp (devices (set_of facts.now)) (option_map (λ i. i.now) after.entry) }
{
    let place = facts.partition_point(|fact| is_up_to(fact, after));
    device_id(facts.get(place)?)
}

// How many bodies the device with this id has. Takes no memory.
pub fn device_count_in(facts: &[SharedFact], id: &str) -> usize
    requires { IsStrictlySortedBy any_cmp facts.now }
    ensures { result ≡ count_under (set_of facts.now) (name.Device id.now) }
{
    devices_under(facts, id).len()
}

// Body number `k` of the device with this id, from 1, greatest first. Takes no memory.
pub fn device_body_in<'a>(facts: &'a [SharedFact], id: &str, k: usize) -> Option<&'a Body>
    requires { IsStrictlySortedBy any_cmp facts.now }
    ensures { option_map (λ b. b.now) result
        ≡ nth_from_one (device_list (set_of facts.now) id.now) k }
{
    let bodies = devices_under(facts, id);
    let place = bodies.len().checked_sub(k)?;
    bodies.get(place).map(body)
}

// The facts of a device, which stand side by side.
fn devices_under<'a>(facts: &'a [SharedFact], id: &str) -> &'a [SharedFact]
    requires { IsStrictlySortedBy any_cmp facts.now }
    ensures { map (λ f. body_of (fact_of f)) result.now
        ≡ bodies_under (set_of facts.now) (name.Device id.now) }
{
    let start = facts.partition_point(|fact| is_below(fact, id));
    let rest = &facts[start..];
    let end = rest.partition_point(|fact| is_up_to(fact, Some(id)));
    &rest[..end]
}

// The id of a device, if the fact is one.
fn device_id(fact: &SharedFact) -> Option<&str>
    ensures { option_map (λ i. i.now) result ≡ device_in (fact_of fact.now) }
{
    match fact.fact() {
        AnyFact::Device(device) => Some(device.id.as_str()),
        AnyFact::Header(_) | AnyFact::Snapshot(_) => None,
    }
}

// Whether the fact is a device with an id below this one.
fn is_below(fact: &SharedFact, id: &str) -> bool
    ensures { result ≡ option_map_or (λ i. is_lt (text_cmp i id.now))
        (device_in (fact_of fact.now)) false }
{
    match fact.fact() {
        AnyFact::Device(device) => device.id.as_str() < id,
        AnyFact::Header(_) | AnyFact::Snapshot(_) => false,
    }
}

// Whether the fact is a device with an id that is not above the given one.
fn is_up_to(fact: &SharedFact, id: Option<&str>) -> bool
    ensures { result ≡ option_map_or
        (λ i. is_le (option_cmp text_cmp (Some i) (option_map (λ i. i.now) id.entry)))
        (device_in (fact_of fact.now)) false }
{
    match fact.fact() {
        AnyFact::Device(device) => Some(device.id.as_str()) <= id,
        AnyFact::Header(_) | AnyFact::Snapshot(_) => false,
    }
}

// The body of a fact.
fn body(fact: &SharedFact) -> &Body
    ensures { result.now ≡ body_of (fact_of fact.now) }
{
    match fact.fact() {
        AnyFact::Device(device) => &device.body,
        AnyFact::Header(header) => &header.body,
        AnyFact::Snapshot(snapshot) => &snapshot.body,
    }
}
