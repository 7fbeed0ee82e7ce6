//! The areas of a disk as JSON.

ghost use Rattle.std.specs.Prelude.{◌≡◌, ◌++◌, None, Some, OnOk, IfOk};
ghost use Rattle.rr_cli.specs.AreaObjects.{area_object, areas_objects};

use rr_journal::AreaReport;
use rr_json::{push_end, push_number_member, push_open};
use std::alloc::{AllocError, Global};

// Appends that an area isn't formatted, as an object.
fn push_unformatted(out: &mut Vec<u8>, area: u64) -> Result<(), AllocError>
    ensures ok { OnOk result (out.new.items ≡ out.old.items ++ area_object area None) }
{
    push_open(out, b"unformatted")?;
    push_number_member(out, b"area", area)?;
    push_end(out)
}

// Appends what is told of a formatted area, as an object.
fn push_formatted(out: &mut Vec<u8>, area: u64, told: AreaReport) -> Result<(), AllocError>
    ensures ok { OnOk result (out.new.items ≡ out.old.items ++ area_object area (Some told)) }
{
    push_open(out, b"area")?;
    push_number_member(out, b"area", area)?;
    push_number_member(out, b"epoch", told.epoch)?;
    push_number_member(out, b"node", u64::from(told.node.index()))?;
    push_number_member(out, b"nodes", u64::from(told.nodes.count()))?;
    push_number_member(out, b"facts", told.next)?;
    push_number_member(out, b"decided", told.decided)?;
    push_number_member(out, b"version", u64::from(told.version.number()))?;
    push_end(out)
}

// Appends what is told of an area, as an object.
fn push_area_object(
    out: &mut Vec<u8>,
    area: u64,
    told: Option<AreaReport>,
) -> Result<(), AllocError>
    ensures ok { OnOk result (out.new.items ≡ out.old.items ++ area_object area told) }
{
    match told {
        None => push_unformatted(out, area),
        Some(told) => push_formatted(out, area, told),
    }
}

/// What is told of both areas: an object in a line each.
pub(crate) fn areas_objects(
    alloc: Global,
    first: Option<AreaReport>,
    second: Option<AreaReport>,
) -> Result<Vec<u8>, AllocError>
    ensures { IfOk result (λ text. text.items ≡ areas_objects first second) }
{
    let mut text = Vec::new(alloc);
    push_area_object(&mut text, 0, first)?;
    push_area_object(&mut text, 1, second)?;
    Ok(text)
}
