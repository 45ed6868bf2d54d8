//! Evaluating declared sets.

ghost use Rattle.std.specs.Prelude.{◌≡◌, ◌||◌, [], IfOk, Ok, is_some, map};
ghost use Rattle.std.specs.Option.{option_copied};
ghost use Rattle.net_expr.specs.declared.world.Entry.TheVariants.{Set as ASet};
ghost use Rattle.net_base.specs.declared.diagnostic.Language.TheVariants.{Data as InData};
ghost use Rattle.net_base.specs.declared.diagnostic.Detail.TheVariants.{Reported};
ghost use Rattle.net_base.specs.declared.diagnostic.Fault.TheVariants.{At};
ghost use Rattle.net_base.specs.declared.error_code.ErrorCode.TheVariants.{DoubleValue};
ghost use Rattle.net_bind.specs.declared.given.DataContent.TheVariants as given;
ghost use Rattle.net_tree.specs.View.{phrase_of};
ghost use Rattle.net_bind.specs.BoundSets as bound;
ghost use Rattle.net_bind.specs.SetData as set_data;
ghost use Rattle.net_bind.specs.SetPhrases.{assigned as assigned_in};
ghost use Rattle.net_base.specs.Outcomes.{Refines, Updates, and_then, each, diagnostic_at};

use crate::bind_world::BindingEnv;
use crate::boxed_values::{boxed, unboxed};
use crate::cell::tuple_in;
use crate::cell_group::{all_of_size, begins_at, keys_of, whole_rows};
use crate::data_item::{given_words, set_rows};
use crate::given::{DataContent, Groups, Line, NamedData};
use crate::set_phrase::{Claim, Claims, SetPhrase, assigned, into_assigned, set_phrases};
use crate::world_calls::reject_name;
use net_base::{Boxed, ErrorCode, Fault, Items, Language};
use net_data::Members;
use net_expr::Entry;
use net_lex::{Token, Word};
use net_sets::{HashKey, IndexedSet, SetFault, TUPLES_LIMIT, TupleSet};
use net_tree::Phrase;
use std::alloc::{AllocError, Global};

/// Returns the number of members of a key: that of the first declared name of the heading, if it is
/// already evaluated.
pub(crate) fn leading_size(widths: &[usize], leader: usize, own: usize) -> usize
    ensures { result ≡ set_data.leading_size widths.now leader own }
{
    match widths.get(leader) {
        Some(width) => *width,
        None => own,
    }
}

pub(crate) fn agrees(word: &Word<'_, '_>, reported: usize, own: usize) -> Result<(), Fault>
    ensures { Refines (set_data.agrees word.now reported own) result }
{
    if reported == own {
        Ok(())
    } else {
        Err(Fault::of_data(ErrorCode::Arity, word.span()))
    }
}

/// Builds the error for a statement that repeats earlier data for a name. Fails only if memory runs
/// out.
pub(crate) fn doubled(alloc: Global, word: &Word<'_, '_>) -> Result<Fault, AllocError>
    ensures { IfOk result (λ f. f ≡ At (diagnostic_at InData DoubleValue word.now.span (Reported word.now.text))) }
{
    let token = word.token();
    reject_name(
        alloc,
        Language::Data,
        ErrorCode::DoubleValue,
        token.span,
        &token.text,
    )
}

fn member_rows<'c, 't, 's>(
    alloc: Global,
    dimension: usize,
    word: &Word<'t, 's>,
    members: &Members<'t, 's>,
    words: &'c [Word<'t, 's>],
) -> Result<Items<Line<'c, 't, 's>>, Fault>
    requires { words.now ≡ set_data.words members.now }
    ensures { Refines (set_data.given_rows [] dimension word.now (given.Members members.now)) result }
{
    let rows = set_rows(alloc, dimension, members, words)?;
    all_of_size(word.span(), dimension, rows.as_slice())?;
    Ok(rows)
}

fn key_rows<'c, 't, 's>(
    alloc: Global,
    widths: &[usize],
    dimension: usize,
    word: &Word<'t, 's>,
    groups: &Groups<'c, 't, 's>,
) -> Result<Items<Line<'c, 't, 's>>, Fault>
    ensures { Refines (set_data.given_rows widths.now dimension word.now (given.Groups groups.now)) result }
{
    agrees(
        word,
        leading_size(widths, groups.leader, dimension),
        dimension,
    )?;
    let at = word.span();
    let rows = whole_rows(alloc, at, dimension, groups.values, groups.cells.cells())?;
    Ok(keys_of(alloc, dimension, rows.as_slice())?)
}

/// Returns the rows of a set in a statement; `words` are the members of its items.
fn given_rows<'c, 't, 's>(
    alloc: Global,
    widths: &[usize],
    dimension: usize,
    named: &NamedData<'c, 't, 's>,
    words: &'c [Word<'t, 's>],
) -> Result<Items<Line<'c, 't, 's>>, Fault>
    requires { words.now ≡ set_data.given_words named.now.given }
    ensures { Refines (set_data.given_rows widths.now dimension named.now.word named.now.given) result }
{
    match &named.given {
        DataContent::Members(members) => member_rows(alloc, dimension, &named.word, members, words),
        DataContent::Groups(groups) => key_rows(alloc, widths, dimension, &named.word, groups),
        DataContent::Grid(_) => Ok(Items::new(Vec::new(alloc))),
    }
}

fn with_member<'s>(
    alloc: Global,
    word: &Word<'_, 's>,
    row: &[Word<'_, 's>],
    set: &mut TupleSet<'s>,
) -> Result<(), Fault>
    ensures { Updates (set_data.with_member word.now row.now set.old) result set.new }
{
    let at = begins_at(word.span(), row);
    let _few = set.len();
    match set.add_new(tuple_in(row)) {
        Ok(true) => Ok(()),
        Ok(false) => Err(reject_name(
            alloc,
            Language::Data,
            ErrorCode::DoubleValue,
            at,
            &word.text(),
        )?),
        Err(SetFault::OutOfMemory) => Err(Fault::OutOfMemory),
        Err(SetFault::TooMany) => Err(Fault::of_data(ErrorCode::TooMany, at)),
    }
}

fn members_of<'s>(
    alloc: Global,
    key: HashKey,
    word: &Word<'_, 's>,
    rows: &[Line<'_, '_, 's>],
) -> Result<Boxed<TupleSet<'s>>, Fault>
    ensures { Refines (each (set_data.with_member word.now) rows.now []) result }
{
    let mut set = TupleSet::with_room(alloc, key, rows.len().min(TUPLES_LIMIT));
    for row in rows {
        with_member(alloc, word, row.cells(), &mut set)?;
    }
    Ok(boxed(alloc, set)?)
}

/// Returns whether the set already has a value from `:=` or an earlier statement.
fn is_given(is_assigned: bool, found: &Option<Boxed<TupleSet<'_>>>) -> bool
    ensures { result ≡ (is_assigned || is_some found.now) }
{
    is_assigned || found.is_some()
}

/// Adds a statement with the members of a set, which must not have a value yet.
fn with_statement<'s>(
    alloc: Global,
    earlier: &BindingEnv<'_, 's>,
    dimension: usize,
    is_assigned: bool,
    named: &NamedData<'_, '_, 's>,
    found: Option<Boxed<TupleSet<'s>>>,
) -> Result<Option<Boxed<TupleSet<'s>>>, Fault>
    ensures { Refines (set_data.with_statement earlier.now.widths.now dimension is_assigned named.now found.entry) result }
{
    let words = given_words(alloc, &named.given)?;
    let rows = given_rows(alloc, earlier.widths, dimension, named, words.as_slice())?;
    if is_given(is_assigned, &found) {
        Err(doubled(alloc, &named.word)?)
    } else {
        Ok(Some(members_of(alloc, earlier.env.hash_key(), &named.word, rows.as_slice())?))
    }
}

/// Returns the set in the data statements, if they give one.
fn given_set<'s>(
    alloc: Global,
    earlier: &BindingEnv<'_, 's>,
    dimension: usize,
    is_assigned: bool,
    named_data: &[NamedData<'_, '_, 's>],
) -> Result<Option<Boxed<TupleSet<'s>>>, Fault>
    ensures { Refines (set_data.given_set earlier.now.widths.now dimension is_assigned named_data.now) result }
{
    let mut found = None;
    for named in named_data {
        found = with_statement(alloc, earlier, dimension, is_assigned, named, found)?;
    }
    Ok(found)
}

fn is_allowed<'s>(set: &TupleSet<'s>, claim: &Claim<'_, 's>) -> bool
    ensures { result ≡ bound.is_allowed set.now claim.now }
{
    match claim {
        Claim::Within(_, superset) => superset.contains_all(set),
        Claim::Nothing => true,
        Claim::Dimension(_) => true,
        Claim::Becomes(_, _) => true,
    }
}

/// Checks that the set is a subset of each set that its phrases name.
fn allowed<'s>(
    alloc: Global,
    name: &Token<'s>,
    set: &TupleSet<'s>,
    phrases: &[SetPhrase<'_, 's>],
) -> Result<(), Fault>
    ensures { Refines (bound.allowed name.now set.now phrases.now) result }
{
    for phrase in phrases {
        if !is_allowed(set, &phrase.claim) {
            return Err(reject_name(
                alloc,
                Language::Model,
                ErrorCode::Restriction,
                phrase.at,
                &name.text,
            )?);
        }
    }
    Ok(())
}

/// Returns the set of `:=`, or else the set from the data, if its phrases allow it.
fn allowed_set<'s>(
    alloc: Global,
    name: &Token<'s>,
    phrases: Items<SetPhrase<'_, 's>>,
    found: Option<Boxed<TupleSet<'s>>>,
) -> Result<Boxed<TupleSet<'s>>, Fault>
    ensures { Refines (and_then (bound.one_of name.now (assigned_in phrases.entry) found.entry)
        (λ ts. and_then (bound.allowed name.now ts phrases.entry) (λ _. Ok ts))) result }
{
    match (assigned(phrases.as_slice()), &found) {
        (Some(set), _) => allowed(alloc, name, set, phrases.as_slice())?,
        (None, Some(set)) => allowed(alloc, name, set.get(), phrases.as_slice())?,
        (None, None) => {}
    }
    match (into_assigned(alloc, phrases)?, found) {
        (Some(set), _) => Ok(set),
        (None, Some(set)) => Ok(set),
        (None, None) => Err(reject_name(
            alloc,
            Language::Model,
            ErrorCode::NoValue,
            name.span,
            &name.text,
        )?),
    }
}

/// Builds the entry of a set, with an index by components if it is likely to be used. The
/// representation of a set in a world is chosen only here.
fn set_entry<'s>(
    alloc: Global,
    is_iterated: bool,
    dimension: u8,
    set: Boxed<TupleSet<'s>>,
) -> Result<Boxed<Entry<'s>>, AllocError>
    ensures { IfOk result (λ e. e ≡ ASet dimension set.entry) }
{
    let set = IndexedSet::new(alloc, is_iterated, unboxed(set))?;
    boxed(alloc, Entry::Set(dimension, set))
}

fn set_of<'s>(
    alloc: Global,
    is_iterated: bool,
    earlier: &BindingEnv<'_, 's>,
    name: &Token<'s>,
    named_data: &[NamedData<'_, '_, 's>],
    claims: Claims<'_, 's>,
) -> Result<Boxed<Entry<'s>>, Fault>
    ensures { Refines (bound.set_of earlier.now.widths.now name.now named_data.now claims.entry) result }
{
    let Claims { dimension, phrases } = claims;
    let dimension = dimension.unwrap_or(1);
    let found = given_set(
        alloc,
        earlier,
        usize::from(dimension),
        assigned(phrases.as_slice()).is_some(),
        named_data,
    )?;
    let set = allowed_set(alloc, name, phrases, found)?;
    Ok(set_entry(alloc, is_iterated, dimension, set)?)
}

/// Evaluates a declared set: its phrases, then its data, then its value.
pub(crate) fn bound_set<'s>(
    alloc: Global,
    is_iterated: bool,
    earlier: &BindingEnv<'_, 's>,
    name: &Token<'s>,
    phrases: &[Phrase<'s>],
    named_data: &[NamedData<'_, '_, 's>],
) -> Result<Boxed<Entry<'s>>, Fault>
    ensures { Refines (bound.bound_set earlier.now.env earlier.now.widths.now name.now (map phrase_of phrases.now) named_data.now) result }
{
    let claims = set_phrases(alloc, &earlier.env, phrases)?;
    set_of(alloc, is_iterated, earlier, name, named_data, claims)
}
