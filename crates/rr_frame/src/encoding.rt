//! Messages as bytes.

ghost use Rattle.std.specs.Prelude.{◌≡◌, ◌<◌, ◌++◌, IfOk, OnOk};
ghost use Rattle.rr_types.specs.Limits.{instance_count};
ghost use Rattle.rr_frame.specs.Numbers.{number_bytes};
ghost use Rattle.rr_frame.specs.MessageFormat.{body_bytes, message_bytes, IsLawfulBody, IsLawfulMessage};

use crate::command::put_command;
use crate::fact::put_estimate;
use crate::number::{put_u8, put_u32};
use crate::version::Version;
use bytes::Bytes;
use rr_types::{Body, Instance, Message};
use std::alloc::{AllocError, Global};

/// What the most messages take: the fields before a command and a command with short name and value.
const USUAL_LENGTH: usize = 64;

/// Puts the kind of a message, and the instance that it is about.
fn put_about(out: &mut Vec<u8>, kind: u8, instance: Instance) -> Result<(), AllocError>
    ensures ok { OnOk result (out.new.items ≡ out.old.items ++ (number_bytes 1 kind ++ number_bytes 4 instance)) }
    ensures lawful { OnOk result (instance < instance_count) }
{
    put_u8(out, kind)?;
    put_u32(out, instance.number())?;
    Ok(())
}

#[tactic(auto, unfolding(crate::specs::MessageFormat::body_bytes))]
fn put_body(out: &mut Vec<u8>, body: &Body) -> Result<(), AllocError>
    ensures ok { OnOk result (out.new.items ≡ out.old.items ++ body_bytes body.now) }
    ensures lawful { OnOk result (IsLawfulBody 7 body.now) }
{
    match body {
        Body::Estimate(instance, estimate) => {
            put_about(out, 1, *instance)?;
            put_estimate(out, estimate)
        }
        Body::Proposal(instance, round, command) => {
            put_about(out, 2, *instance)?;
            put_u32(out, round.number())?;
            put_command(out, command)
        }
        Body::Ack(instance, round) => {
            put_about(out, 3, *instance)?;
            put_u32(out, round.number())
        }
        Body::Decision(instance, command) => {
            put_about(out, 4, *instance)?;
            put_command(out, command)
        }
        Body::Request(command) => {
            put_u8(out, 5)?;
            put_command(out, command)
        }
        Body::Nack(instance, round) => {
            put_about(out, 6, *instance)?;
            put_u32(out, round.number())
        }
        Body::Beat => put_u8(out, 7),
        Body::Suspects(set) => {
            put_u8(out, 8)?;
            put_u8(out, set.bits())
        }
        Body::Ask(instance) => put_about(out, 9, *instance),
    }
}

#[tactic(auto, unfolding(crate::specs::MessageFormat::message_bytes_in))]
pub(crate) fn put_message(out: &mut Vec<u8>, message: &Message) -> Result<(), AllocError>
    ensures ok { OnOk result (out.new.items ≡ out.old.items ++ message_bytes message.now) }
    ensures lawful { OnOk result (IsLawfulMessage 7 message.now) }
{
    put_u8(out, Version::Two.number())?;
    put_u8(out, message.from.index())?;
    put_u8(out, message.to.index())?;
    put_body(out, &message.body)
}

/// The one spelling of a message in version 2, in a buffer that can be shared without a copy.
pub fn encode(alloc: Global, message: &Message) -> Result<Bytes, AllocError>
    ensures ok { IfOk result (λ b. b ≡ message_bytes message.now) }
    ensures lawful { OnOk result (IsLawfulMessage 7 message.now) }
{
    let mut out = Vec::with_capacity(alloc, USUAL_LENGTH)?;
    put_message(&mut out, message)?;
    Ok(Bytes::from_vec(out)?)
}
