//! What an audit finds, as JSON.

ghost use Rattle.std.specs.Prelude.{◌≡◌, ◌≤◌, ◌∷◌, ◌++◌, [], OnOk, IfOk, codes};
ghost use Rattle.rr_cli.specs.AuditObjects.{yes_object, refusal_members, given_front, stop_members, given_members, no_object};

use rr_audit::Given;
use rr_json::{
    push_end, push_label, push_line_front, push_number_member, push_open, push_text_member,
};
use rr_text::ReportLine;
use rr_text::text_word::push_byte;
use rr_types::{NodeId, Refusal};
use std::alloc::{AllocError, Global};

/// The object of a yes to a tape of `count` events.
pub(crate) fn yes_object(alloc: Global, count: u64) -> Result<Vec<u8>, AllocError>
    ensures { IfOk result (λ text. text.items ≡ yes_object count) }
{
    let mut text = Vec::new(alloc);
    push_open(&mut text, b"yes")?;
    push_number_member(&mut text, b"events", count)?;
    push_end(&mut text)?;
    Ok(text)
}

// The members of a refusal: its number and its name.
fn push_refusal_members(out: &mut Vec<u8>, refusal: Refusal) -> Result<(), AllocError>
    ensures ok { OnOk result (out.new.items ≡ out.old.items ++ refusal_members refusal) }
{
    push_number_member(out, b"number", u64::from(refusal.number()))?;
    push_text_member(out, b"name", refusal.name().as_bytes())
}

// What node `node` gives instead of an event, without the end of the object.
fn push_given(
    alloc: Global,
    out: &mut Vec<u8>,
    node: NodeId,
    given: &Given,
) -> Result<(), AllocError>
    ensures ok { OnOk result (out.new.items ≡ out.old.items ++ given_front node given.now) }
{
    match given {
        Given::NoNode => push_open(out, b"no node"),
        Given::Refused(refusal) => {
            push_open(out, b"refusal")?;
            push_refusal_members(out, *refusal)
        }
        Given::NoMessage => push_open(out, b"no message"),
        Given::OtherNode(to) => {
            push_open(out, b"other node")?;
            push_number_member(out, b"node", u64::from(to.index()))
        }
        Given::NothingStaged => push_open(out, b"nothing to flush"),
        Given::StillFlushing => push_open(out, b"still flushing"),
        Given::NothingFlushed => push_open(out, b"nothing to mark"),
        Given::Number(next) => {
            push_open(out, b"other number")?;
            push_number_member(out, b"number", *next)
        }
        Given::NothingToSend => push_open(out, b"nothing to send"),
        Given::Sends(number, message) => {
            let number = u64::from(*number);
            let message = **message;
            push_line_front(alloc, out, &ReportLine::Send { number, message })
        }
        Given::NothingToAcknowledge => push_open(out, b"nothing to acknowledge"),
        Given::Acknowledges(request, reply) => {
            let request = *request;
            let reply = *reply;
            push_line_front(
                alloc,
                out,
                &ReportLine::Ack {
                    node,
                    request,
                    reply,
                },
            )
        }
    }
}

// The members of an event that isn't next: its number, its line, and the refusal.
fn push_stop_members(out: &mut Vec<u8>, number: u64) -> Result<(), AllocError>
    requires { number ≤ 1000000 }
    ensures ok { OnOk result (out.new.items ≡ out.old.items ++ stop_members number) }
{
    push_number_member(out, b"event", number)?;
    push_number_member(out, b"line", number + 1)?;
    push_refusal_members(out, Refusal::AuditNo(number))
}

// The members of what is next: the event's node, and what that gives instead.
fn push_given_members(
    alloc: Global,
    out: &mut Vec<u8>,
    node: NodeId,
    given: &Given,
) -> Result<(), AllocError>
    ensures ok { OnOk result (out.new.items ≡ out.old.items ++ given_members node given.now) }
{
    push_number_member(out, b"node", u64::from(node.index()))?;
    push_label(out, b"given")?;
    push_given(alloc, out, node, given)?;
    push_byte(out, b'}')
}

/// The object of a no to the event of this number: its line, the refusal, its node, and what that gives instead.
pub(crate) fn no_object(
    alloc: Global,
    number: u64,
    node: NodeId,
    given: &Given,
) -> Result<Vec<u8>, AllocError>
    requires { number ≤ 1000000 }
    ensures { IfOk result (λ text. text.items ≡ no_object number node given.now) }
{
    let mut text = Vec::new(alloc);
    push_open(&mut text, b"no")?;
    push_stop_members(&mut text, number)?;
    push_given_members(alloc, &mut text, node, given)?;
    push_end(&mut text)?;
    Ok(text)
}
