// What one line of a text of names gives.
ghost use Rattle.std.specs.Prelude.{◌≡◌, Ok, IfOk, IfErr, option_map};
ghost use Rattle.text_model.specs.Id.{has_id};
ghost use Rattle.text_model.specs.Fault as fault;
ghost use Rattle.state_model.specs.Names as names;
ghost use Rattle.name_model.specs.Line.{name_line_of};
ghost use Rattle.name_model.specs.Targets as model;
ghost use Rattle.name_model.specs.Reading.{in_first_form};
ghost use Rattle.name_model.specs.Reading as reading;
ghost use Rattle.ref_map.specs.Values.{line_value};
ghost use Rattle.ref_map.specs.Faults.{IsLineFault};
ghost use Rattle.ref_map.specs.Rows.{reader, form};

use crate::fault::LineFault;
use crate::fit::fit_ref;
use crate::form::{commit_line, tag_line};
use crate::line::NameLine;
use crate::lookup::Lookup;
use crate::read::{name_line, ref_line};
use bridge_text::Id;
use std::alloc::Global;

/// The side that has a text of names.
#[derive(Clone, Copy, Debug, PartialEq, Eq)]
pub enum Side {
    /// Mercurial, whose lines name changesets, kept tags and other refs.
    Hg,
    /// Git, whose lines have an id and a ref.
    Git,
}

/// A ref and what it names.
#[derive(Debug, Drop)]
pub struct Row {
    /// The id of the commit or the tag.
    pub id: Id,
    /// The name of the ref, from `refs/` on.
    pub name: Vec<u8>,
}

/// What a line gives. The faults stand in the order of the checks.
pub fn row_at<K: Lookup>(
    alloc: Global,
    known: &K,
    side: Side,
    text: &[u8],
) -> Result<Row, LineFault>
    ensures row { IfOk result (λ row. reader side (K.targets known.now) text.now ≡ Ok (record { id = row.id; name = row.name.items })) }
    ensures fault { IfErr result (IsLineFault (reader side (K.targets known.now) text.now)) }
{
    let Some(line) = line_in(known, side, text) else {
        return Err(LineFault::NameShape);
    };
    let name = line.ref_name(alloc)?;
    if !fit_ref(&name) {
        return Err(LineFault::RefUnfit);
    }
    let id = target(known, &line)?;
    Ok(Row { id, name })
}

// The line, if it has a form of its side.
fn line_in<'a, K: Lookup>(known: &K, side: Side, text: &'a [u8]) -> Option<NameLine<'a>>
    ensures { option_map line_value result ≡ form side (K.targets known.now) text.entry.now }
{
    match side {
        Side::Hg => first_form(known, text),
        Side::Git => ref_line(text),
    }
}

fn first_form<'a, K: Lookup>(known: &K, text: &'a [u8]) -> Option<NameLine<'a>>
    ensures { option_map line_value result ≡ in_first_form (K.targets known.now) (name_line_of text.entry.now) }
{
    let Some(line) = name_line(text) else {
        return None;
    };
    if is_first_form(known, &line) {
        Some(line)
    } else {
        None
    }
}

// Whether no other form fits the ref of a `ref` line.
fn is_first_form<K: Lookup>(known: &K, line: &NameLine<'_>) -> bool
    ensures { result ≡ reading.is_first_form (K.targets known.now) (line_value line.now) }
{
    match line {
        NameLine::Bookmark { .. } => true,
        NameLine::PlainTag { .. } => true,
        NameLine::Annotated { .. } => true,
        NameLine::InPhase { .. } => true,
        NameLine::OtherRef { id, name } => line_of(known, *id, name).is_other(),
    }
}

/// The line of a ref: the first form that fits.
pub fn line_of<'a, K: Lookup>(known: &K, id: Id, name: &'a [u8]) -> NameLine<'a>
    ensures { line_value result ≡ model.line_of_ref (K.targets known.now) (record { id = id; name = name.entry.now }) }
{
    match known.changeset_of(&id) {
        Some(node) => commit_line(node, id, name),
        None => tag_line(known.has_tag(&id), id, name),
    }
}

// The commit or tag that the line names.
fn target<K: Lookup>(known: &K, line: &NameLine<'_>) -> Result<Id, LineFault>
    ensures id { IfOk result (λ id. model.target (K.targets known.now) (line_value line.now) ≡ Ok id) }
    ensures fault { IfErr result (IsLineFault (model.target (K.targets known.now) (line_value line.now))) }
{
    match line {
        NameLine::Bookmark { node, .. } => partner(known, node),
        NameLine::PlainTag { node, .. } => partner(known, node),
        NameLine::Annotated { id, .. } => kept_tag(known, id),
        NameLine::InPhase { node, .. } => partner(known, node),
        NameLine::OtherRef { id, .. } => saved(known, id),
    }
}

fn partner<K: Lookup>(known: &K, node: &Id) -> Result<Id, LineFault>
    ensures id { IfOk result (λ id. model.found_or fault.TargetUnknown (model.commit_of (K.targets known.now) node.now) ≡ Ok id) }
    ensures fault { IfErr result (IsLineFault (model.found_or fault.TargetUnknown (model.commit_of (K.targets known.now) node.now))) }
{
    match known.commit_of(node) {
        Some(id) => Ok(id),
        None => Err(LineFault::TargetUnknown),
    }
}

fn kept_tag<K: Lookup>(known: &K, id: &Id) -> Result<Id, LineFault>
    ensures id { IfOk result (λ tag. model.known_or fault.TagUnknown (has_id (K.targets known.now).tags id.now) id.now ≡ Ok tag) }
    ensures fault { IfErr result (IsLineFault (model.known_or fault.TagUnknown (has_id (K.targets known.now).tags id.now) id.now)) }
{
    if known.has_tag(id) {
        Ok(*id)
    } else {
        Err(LineFault::TagUnknown)
    }
}

fn saved<K: Lookup>(known: &K, id: &Id) -> Result<Id, LineFault>
    ensures id { IfOk result (λ found. model.known_or fault.TargetUnknown (names.is_target (K.targets known.now) id.now) id.now ≡ Ok found) }
    ensures fault { IfErr result (IsLineFault (model.known_or fault.TargetUnknown (names.is_target (K.targets known.now) id.now) id.now)) }
{
    if is_target(known, id) {
        Ok(*id)
    } else {
        Err(LineFault::TargetUnknown)
    }
}

// Whether the id is that of a saved commit or of a kept tag.
fn is_target<K: Lookup>(known: &K, id: &Id) -> bool
    ensures { result ≡ names.is_target (K.targets known.now) id.now }
{
    known.changeset_of(id).is_some() || known.has_tag(id)
}
