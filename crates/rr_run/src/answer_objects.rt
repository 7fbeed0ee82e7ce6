//! The answers to a script as JSON: an object for each.

ghost use Rattle.std.specs.Prelude.{◌≡◌, ◌++◌, OnOk, IfOk};
ghost use Rattle.std.specs.List.{flat_map};
ghost use Rattle.rr_json.specs.Json.{opened};
ghost use Rattle.rr_run.specs.AnswerObjects.{look_members, answer_object, answer_objects, answers_in};

use rr_cli::Form;
use rr_json::{
    push_end, push_line_front, push_number_member, push_open, push_text_member, push_words_member,
};
use rr_text::{Answer, Answers, ReportLine};
use rr_types::{Name, NodeId, Reply, RequestNo};
use std::alloc::{AllocError, Global};

fn push_acknowledged(
    alloc: Global,
    out: &mut Vec<u8>,
    node: NodeId,
    request: RequestNo,
    reply: Reply,
) -> Result<(), AllocError>
    ensures ok { OnOk result (out.new.items ≡ out.old.items ++ answer_object (Answer.Acknowledged node request reply)) }
{
    let line = ReportLine::Ack {
        node,
        request,
        reply,
    };
    push_line_front(alloc, out, &line)?;
    push_end(out)
}

fn push_unacknowledged(
    out: &mut Vec<u8>,
    node: NodeId,
    request: RequestNo,
) -> Result<(), AllocError>
    ensures ok { OnOk result (out.new.items ≡ out.old.items ++ answer_object (Answer.Unacknowledged node request)) }
{
    push_open(out, b"none")?;
    push_number_member(out, b"node", u64::from(node.index()))?;
    push_number_member(out, b"client", u64::from(request.client))?;
    push_number_member(out, b"request", request.seq)?;
    push_end(out)
}

// The beginning of the object of a look, of this kind.
fn push_look(out: &mut Vec<u8>, kind: &[u8], node: NodeId, name: &Name) -> Result<(), AllocError>
    ensures ok { OnOk result (out.new.items ≡ out.old.items ++ opened kind.now ++ look_members node name.now) }
{
    push_open(out, kind)?;
    push_number_member(out, b"node", u64::from(node.index()))?;
    push_text_member(out, b"name", name.as_bytes())
}

// Appends an answer as an object.
fn push_answer_object(alloc: Global, out: &mut Vec<u8>, answer: &Answer) -> Result<(), AllocError>
    ensures ok { OnOk result (out.new.items ≡ out.old.items ++ answer_object answer.now) }
{
    match answer {
        Answer::Acknowledged {
            node,
            request,
            reply,
        } => push_acknowledged(alloc, out, *node, *request, *reply),
        Answer::Unacknowledged { node, request } => push_unacknowledged(out, *node, *request),
        Answer::Free { node, name } => {
            push_look(out, b"free", *node, name)?;
            push_end(out)
        }
        Answer::Bound {
            node,
            name,
            owner,
            value,
        } => {
            push_look(out, b"bound", *node, name)?;
            push_number_member(out, b"owner", u64::from(*owner))?;
            push_words_member(out, b"value", value.as_bytes())?;
            push_end(out)
        }
        Answer::Unseen { node, name } => {
            push_look(out, b"unseen", *node, name)?;
            push_end(out)
        }
    }
}

// Appends answers, an object each.
fn push_answer_objects(
    alloc: Global,
    out: &mut Vec<u8>,
    answers: &[Answer],
) -> Result<(), AllocError>
    ensures ok { OnOk result (out.new.items ≡ out.old.items ++ flat_map answer_object answers.now) }
{
    for answer in answers {
        push_answer_object(alloc, out, answer)?;
    }
    Ok(())
}

// The answers as JSON: an object for each, in their order.
fn answer_objects(alloc: Global, answers: &Answers) -> Result<Vec<u8>, AllocError>
    ensures { IfOk result (λ text. text.items ≡ answer_objects answers.now) }
{
    let mut text = Vec::new(alloc);
    push_answer_objects(alloc, &mut text, answers.as_slice())?;
    Ok(text)
}

/// The answers in a form: a line of words for each, or an object of JSON.
pub(crate) fn answers_in(
    alloc: Global,
    form: Form,
    answers: &Answers,
) -> Result<Vec<u8>, AllocError>
    ensures { IfOk result (λ text. text.items ≡ answers_in form answers.now) }
{
    match form {
        Form::Plain => answers.text(alloc),
        Form::Json => answer_objects(alloc, answers),
    }
}
