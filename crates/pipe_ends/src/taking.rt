// What parts hold.
ghost use Rattle.std.specs.Prelude.{◌≡◌, ◌∷◌, [], map, IfOk};
ghost use Rattle.std.specs.List.{flat_map};
ghost use Rattle.pipe_parts.specs.declared.part.Part.TheVariants as kept;
ghost use Rattle.pipe_ends.specs.Held as spec;

use aggregate::Partial;
use batch::Piece;
use group_sets::SetsPartial;
use hash_join::BuildPart;
use pipe_parts::Part;
use std::alloc::Global;
use sub_types::NoMemory;

/// The pieces that parts hold. A part of another breaker is `NoMemory`, here and below: no breaker is given one.
pub(crate) fn pieces_in(alloc: Global, parts: Vec<Part>) -> Result<Vec<Piece>, NoMemory>
    ensures { IfOk result (λ pieces. map kept.Rows pieces.items ≡ parts.items) }
{
    let mut pieces = Vec::with_capacity(alloc, parts.len())?;
    for part in parts {
        pieces.push(piece_in(part)?)?;
    }
    Ok(pieces)
}

fn piece_in(part: Part) -> Result<Piece, NoMemory>
    ensures { IfOk result (λ piece. kept.Rows piece ≡ part) }
{
    match part {
        Part::Rows(piece) => Ok(piece),
        Part::Groups(_) | Part::Sets(_) | Part::Built(_, _) => Err(NoMemory),
    }
}

/// What they know of groups.
pub(crate) fn partials_in(alloc: Global, parts: Vec<Part>) -> Result<Vec<Partial>, NoMemory>
    ensures { IfOk result (λ partials. map kept.Groups partials.items ≡ parts.items) }
{
    let mut partials = Vec::with_capacity(alloc, parts.len())?;
    for part in parts {
        partials.push(partial_in(part)?)?;
    }
    Ok(partials)
}

fn partial_in(part: Part) -> Result<Partial, NoMemory>
    ensures { IfOk result (λ partial. kept.Groups partial ≡ part) }
{
    match part {
        Part::Groups(partial) => Ok(partial),
        Part::Rows(_) | Part::Sets(_) | Part::Built(_, _) => Err(NoMemory),
    }
}

/// What they know of several sets of groups.
pub(crate) fn set_partials_in(alloc: Global, parts: Vec<Part>) -> Result<Vec<SetsPartial>, NoMemory>
    ensures { IfOk result (λ partials. map kept.Sets partials.items ≡ parts.items) }
{
    let mut partials = Vec::with_capacity(alloc, parts.len())?;
    for part in parts {
        partials.push(set_partial_in(part)?)?;
    }
    Ok(partials)
}

fn set_partial_in(part: Part) -> Result<SetsPartial, NoMemory>
    ensures { IfOk result (λ partial. kept.Sets partial ≡ part) }
{
    match part {
        Part::Sets(partial) => Ok(partial),
        Part::Rows(_) | Part::Groups(_) | Part::Built(_, _) => Err(NoMemory),
    }
}

/// The parts of a join's table.
pub(crate) fn rights_in(alloc: Global, parts: Vec<Part>) -> Result<Vec<BuildPart>, NoMemory>
    ensures { IfOk result (λ rights. rights.items ≡ flat_map spec.right_in parts.items) }
{
    let mut rights = Vec::with_capacity(alloc, parts.len())?;
    for part in parts {
        rights.push(right_in(part)?)?;
    }
    Ok(rights)
}

fn right_in(part: Part) -> Result<BuildPart, NoMemory>
    ensures { IfOk result (λ right. right ∷ [] ≡ spec.right_in part) }
{
    match part {
        Part::Built(right, _) => Ok(right),
        Part::Rows(_) | Part::Groups(_) | Part::Sets(_) => Err(NoMemory),
    }
}
