ghost use Rattle.std.specs.Prelude.{◌≡◌, ◌<◌, ◌≤◌, ◌∷◌, ◌++◌, ◌^◌, [], length, List, Err, None};
ghost use Rattle.std.specs.Prelude.{Some, IfOk, OnOk, MatchOption, if◌then◌else◌, false};
ghost use Rattle.json.specs.Token as spec;
ghost use Rattle.serde_json.specs.Data.{Data, Members, array, object};
ghost use Rattle.serde_json.specs.Find.{get_member};
ghost use Rattle.serde_json.specs.Read.{read as read_data};
ghost use Rattle.serde_json.specs.Written.{has_float};
ghost use Rattle.cdf_node.specs.Next.{next_value, next_last};
ghost use Rattle.cdf_node.specs.Order.{IsSorted};
ghost use Rattle.cdf_node.specs.View.{view, items_of, members_view};
ghost use Rattle.cdf_pull.specs.Fold.{items_in, without_items, emptied_at, items_found};
ghost use Rattle.cdf_pull.specs.Fold.{items_under};
ghost use Rattle.cdf_pull.specs.Fold.{left_beside, IsOrdered, IsFolded, most_tokens};

use bumpalo::Bump;
use cdf_node::{NoValue, Node, Track, in_order, read, read_array, read_object, scalar};
use json::{Reader, Scratch, Token};
use std::alloc::{AllocError, Global};

/// What is kept of the items of an array, which are handed over one at a time.
pub trait Fold {
    type Kept;

    ghost keeps: { Self → List Data → Self.Kept → Type 0 };

    /// What is kept of no items.
    fn none(&self, alloc: Global) -> Self::Kept
        ensures { keeps self.now [] result };

    /// Takes the next item, which stands at this place in the array. Its names rise, at every
    /// depth. `fraction` says whether a number that isn't whole was read with it: where it is
    /// false, the item has none.
    ///
    /// # Errors
    /// An `AllocError` where a growth was refused.
    fn take(
        &self,
        alloc: Global,
        kept: &mut Self::Kept,
        place: usize,
        item: Node<'_>,
        fraction: bool,
    ) -> Result<(), AllocError>
        requires few { place < 2 ^ 63 }
        requires rises { IsSorted (view item) }
        requires whole { fraction ≡ false → has_float (view item) ≡ false }
        ensures { OnOk result ((ds : List Data) → place ≡ length ds → keeps self.now ds kept.old
            → keeps self.now (ds ++ view item.entry ∷ []) kept.new) };
}

// What is kept of the items of the array whose first bracket was read. Each is taken, and its
// memory given back, before the next one is read.
#[tactic(auto, using(cdf_node::proofs::Lemmas::array_flat, cdf_node::proofs::Lemmas::array_shorter))]
fn fold_items<F: Fold>(
    alloc: Global,
    reader: &mut Reader<'_>,
    depth: usize,
    fold: &F,
) -> Result<F::Kept, NoValue>
where
    F::Kept: Drop,
    requires { length reader.now ≤ most_tokens }
    ensures items { IfOk result (λ kept. (ds : List Data)
        × (next_value depth (spec.Token.begin_array ∷ reader.old)
        ≡ Some (array (items_of ds), reader.new))
        × F.keeps fold.now ds kept) }
    ensures unread { result ≡ Err NoValue.Unread
        → next_value depth (spec.Token.begin_array ∷ reader.old) ≡ None }
    ensures shorter { OnOk result (length reader.new < length reader.old) }
{
    if depth == 0 {
        return Err(NoValue::Unread);
    }
    let mut arena = Bump::new(alloc);
    let mut track = Track::new();
    let mut kept = fold.none(alloc);
    let mut place = 0;
    'items: while !reader.take_end_array() {
        track.fraction = false;
        let item = read(&arena, reader, depth - 1, &mut track)?;
        fold.take(alloc, &mut kept, place, item, track.fraction)?;
        place += 1;
        // Where it fails, the arena goes on growing.
        let _ = arena.reset();
    }
    Ok(kept)
}

// The next value, without its items, and what is kept of these.
#[tactic(auto, using(cdf_node::proofs::Lemmas::next_value_nothing))]
fn read_emptied<'t, 'a: 't, F: Fold>(
    alloc: Global,
    bump: &'t Bump,
    reader: &mut Reader<'a>,
    depth: usize,
    track: &mut Track,
    fold: &F,
) -> Result<(Node<'t>, F::Kept), NoValue>
where
    F::Kept: Drop,
    requires { length reader.now ≤ most_tokens }
    ensures value { IfOk result (λ p. (d : Data)
        × (next_value depth reader.old ≡ Some (d, reader.new))
        × (view p.0 ≡ without_items d)
        × F.keeps fold.now (items_in d) p.1) }
    ensures unread { result ≡ Err NoValue.Unread → next_value depth reader.old ≡ None }
    ensures shorter { OnOk result (length reader.new < length reader.old) }
{
    let token = reader.next().ok_or(NoValue::Unread)?;
    match token {
        Token::BeginArray => {
            let kept = fold_items(alloc, reader, depth, fold)?;
            Ok((Node::Array(&[]), kept))
        }
        Token::BeginObject => {
            let found = read_object(bump, reader, depth, track)?;
            Ok((Node::Object(found), fold.none(alloc)))
        }
        _ => Ok((scalar(token, track)?, fold.none(alloc))),
    }
}

// The next member's value, emptied if its name is the one that is folded, and what is kept then.
fn read_member<'t, 'a: 't, F: Fold>(
    alloc: Global,
    bump: &'t Bump,
    reader: &mut Reader<'a>,
    depth: usize,
    track: &mut Track,
    is_folded: bool,
    kept: F::Kept,
    fold: &F,
) -> Result<(Node<'t>, F::Kept), NoValue>
where
    F::Kept: Drop,
    requires { length reader.now ≤ most_tokens }
    ensures value { IfOk result (λ p. (d : Data)
        × (next_value depth reader.old ≡ Some (d, reader.new))
        × (view p.0 ≡ (if is_folded then without_items d else d))
        × ((ds : List Data) → F.keeps fold.now ds kept
        → F.keeps fold.now (if is_folded then items_in d else ds) p.1)) }
    ensures unread { result ≡ Err NoValue.Unread → next_value depth reader.old ≡ None }
    ensures shorter { OnOk result (length reader.new < length reader.old) }
{
    if is_folded {
        // What was kept of an earlier array of the same name is freed first.
        drop(kept);
        read_emptied(alloc, bump, reader, depth, track, fold)
    } else {
        Ok((read(bump, reader, depth, track)?, kept))
    }
}

// The members of the object whose first brace was read, with that under the name emptied, and what
// is kept of its items.
#[tactic(auto, using(cdf_node::proofs::Lemmas::object_flat))]
fn read_members<'t, 'a: 't, F: Fold>(
    alloc: Global,
    bump: &'t Bump,
    reader: &mut Reader<'a>,
    depth: usize,
    name: &str,
    fold: &F,
) -> Result<(&'t [(&'t str, Node<'t>)], F::Kept), NoValue>
where
    F::Kept: Drop,
    requires { length reader.now ≤ most_tokens }
    ensures members { IfOk result (λ p. (ms : Members)
        × (next_value depth (spec.Token.begin_object ∷ reader.old) ≡ Some (object ms, reader.new))
        × (members_view p.0.now ≡ emptied_at name.now ms)
        × F.keeps fold.now (items_found (get_member name.now ms)) p.1) }
    ensures unread { result ≡ Err NoValue.Unread
        → next_value depth (spec.Token.begin_object ∷ reader.old) ≡ None }
{
    if depth == 0 {
        return Err(NoValue::Unread);
    }
    let mut found = Vec::new(bump);
    let mut track = Track::new();
    let mut kept = fold.none(alloc);
    'members: while let Some(key) = reader.next_key()? {
        let (member, anew) = read_member(
            alloc,
            bump,
            reader,
            depth - 1,
            &mut track,
            key == name,
            kept,
            fold,
        )?;
        found.push((key, member))?;
        kept = anew;
    }
    Ok((in_order(bump, found)?, kept))
}

// The next value, with the array under the name of an object emptied, and what is kept of its
// items.
#[tactic(auto, using(cdf_node::proofs::Lemmas::next_value_nothing))]
fn read_beside<'t, 'a: 't, F: Fold>(
    alloc: Global,
    bump: &'t Bump,
    reader: &mut Reader<'a>,
    depth: usize,
    name: &str,
    fold: &F,
) -> Result<(Node<'t>, F::Kept), NoValue>
where
    F::Kept: Drop,
    requires { length reader.now ≤ most_tokens }
    ensures value { IfOk result (λ p. (d : Data)
        × (next_value depth reader.old ≡ Some (d, reader.new))
        × (view p.0 ≡ left_beside name.now d)
        × F.keeps fold.now (items_under name.now d) p.1
        × IsOrdered d) }
    ensures unread { result ≡ Err NoValue.Unread → next_value depth reader.old ≡ None }
{
    let token = reader.next().ok_or(NoValue::Unread)?;
    match token {
        Token::BeginArray => {
            let items = read_array(bump, reader, depth, &mut Track::new())?;
            Ok((Node::Array(items), fold.none(alloc)))
        }
        Token::BeginObject => {
            let (found, kept) = read_members(alloc, bump, reader, depth, name, fold)?;
            Ok((Node::Object(found), kept))
        }
        _ => Ok((scalar(token, &mut Track::new())?, fold.none(alloc))),
    }
}

// The value that the tokens are, with nothing behind it.
fn read_whole<'t, 'a: 't, F: Fold>(
    alloc: Global,
    bump: &'t Bump,
    reader: &mut Reader<'a>,
    depth: usize,
    name: &str,
    fold: &F,
) -> Result<(Node<'t>, F::Kept), NoValue>
where
    F::Kept: Drop,
    requires { length reader.now ≤ most_tokens }
    ensures value { IfOk result (λ p. (d : Data)
        × (next_last depth reader.old ≡ Some d)
        × (view p.0 ≡ left_beside name.now d)
        × F.keeps fold.now (items_under name.now d) p.1
        × IsOrdered d) }
    ensures unread { result ≡ Err NoValue.Unread → next_last depth reader.old ≡ None }
{
    let found = read_beside(alloc, bump, reader, depth, name, fold)?;
    if reader.next().is_some() {
        return Err(NoValue::Unread);
    }
    Ok(found)
}

// How deep serde_json lets arrays and objects nest.
const MAX_DEPTH: usize = 127;

/// What a text is as serde_json reads it, but for the items of the array under a name of its
/// object, and what a fold keeps of those items, which were handed to it one by one. Of two members
/// of one name the last counts, and what isn't there has no items. None where serde_json reads no
/// value. What is left stands in the arena, with texts of `text` and of `scratch`, which grows to
/// the text's length; an item is gone once it was taken.
///
/// # Errors
/// An `AllocError` where a growth was refused.
#[tactic(auto, using(crate::proofs::Tokens::tokens_few))]
pub fn read_text_fold<'t, F: Fold>(
    alloc: Global,
    bump: &'t Bump,
    text: &'t str,
    scratch: &'t mut Scratch,
    name: &str,
    fold: &F,
) -> Result<Option<(Node<'t>, F::Kept)>, AllocError>
where
    F::Kept: Drop,
    ensures { IfOk result (λ found. MatchOption found (read_data text.now ≡ None)
        (λ p. IsFolded (F.keeps fold.now) text.now name.now (view p.0) p.1)) }
{
    let mut reader = Reader::new(text, scratch)?;
    match read_whole(alloc, bump, &mut reader, MAX_DEPTH, name, fold) {
        Ok(found) => Ok(Some(found)),
        Err(NoValue::Unread) => Ok(None),
        Err(NoValue::Memory) => Err(AllocError),
    }
}
