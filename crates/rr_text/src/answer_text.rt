//! Printing answers.

ghost use Rattle.std.specs.Prelude.{◌≡◌, ◌++◌, ◌∷◌, [], OnOk, IfOk, codes, decimal};
ghost use Rattle.std.specs.List.{flat_map};
ghost use Rattle.rr_text.specs.Words.{spaced};
ghost use Rattle.rr_text.specs.AnswerTexts.{look_words, holding_text, answer_words, answer_line, answer_text};

use crate::answer::{Answer, Answers};
use crate::report::ReportLine;
use crate::text_report::{push_report_words, push_request};
use crate::text_word::{push_byte, push_bytes, push_number, push_number_word, push_word};
use rr_types::{Name, NodeId, Reply, RequestNo, Value};
use std::alloc::{AllocError, Global};

fn push_acknowledged(
    out: &mut Vec<u8>,
    node: NodeId,
    request: RequestNo,
    reply: Reply,
) -> Result<(), AllocError>
    ensures ok { OnOk result (out.new.items ≡ out.old.items ++ spaced (answer_words (Answer.Acknowledged node request reply))) }
{
    push_report_words(
        out,
        &ReportLine::Ack {
            node,
            request,
            reply,
        },
    )
}

fn push_unacknowledged(
    out: &mut Vec<u8>,
    node: NodeId,
    request: RequestNo,
) -> Result<(), AllocError>
    ensures ok { OnOk result (out.new.items ≡ out.old.items ++ spaced (answer_words (Answer.Unacknowledged node request))) }
{
    push_bytes(out, b"none")?;
    push_number_word(out, u64::from(node.index()))?;
    push_request(out, request)
}

fn push_look(out: &mut Vec<u8>, node: NodeId, name: &Name) -> Result<(), AllocError>
    ensures ok { OnOk result (out.new.items ≡ out.old.items ++ spaced (codes "look" ∷ decimal node ∷ name.now ∷ [])) }
{
    push_bytes(out, b"look")?;
    push_number_word(out, u64::from(node.index()))?;
    push_word(out, name.as_bytes())
}

fn push_holding(out: &mut Vec<u8>, owner: u32, value: &Value) -> Result<(), AllocError>
    ensures ok { OnOk result (out.new.items ≡ out.old.items ++ 32 ∷ holding_text owner value.now) }
{
    push_number_word(out, u64::from(owner))?;
    push_byte(out, b':')?;
    push_bytes(out, value.as_bytes())
}

fn push_answer_words(out: &mut Vec<u8>, answer: &Answer) -> Result<(), AllocError>
    ensures ok { OnOk result (out.new.items ≡ out.old.items ++ spaced (answer_words answer.now)) }
{
    match answer {
        Answer::Acknowledged {
            node,
            request,
            reply,
        } => push_acknowledged(out, *node, *request, *reply),
        Answer::Unacknowledged { node, request } => push_unacknowledged(out, *node, *request),
        Answer::Free { node, name } => {
            push_look(out, *node, name)?;
            push_word(out, b"free")
        }
        Answer::Bound {
            node,
            name,
            owner,
            value,
        } => {
            push_look(out, *node, name)?;
            push_holding(out, *owner, value)
        }
        Answer::Unseen { node, name } => {
            push_look(out, *node, name)?;
            push_word(out, b"none")
        }
    }
}

fn push_answer_line(out: &mut Vec<u8>, answer: &Answer) -> Result<(), AllocError>
    ensures ok { OnOk result (out.new.items ≡ out.old.items ++ answer_line answer.now) }
{
    push_answer_words(out, answer)?;
    push_byte(out, b'\n')
}

fn push_answer_lines(out: &mut Vec<u8>, answers: &[Answer]) -> Result<(), AllocError>
    ensures ok { OnOk result (out.new.items ≡ out.old.items ++ flat_map answer_line answers.now) }
{
    for answer in answers {
        push_answer_line(out, answer)?;
    }
    Ok(())
}

impl Answers {
    /// The text of the answers: a line each.
    pub fn text(&self, alloc: Global) -> Result<Vec<u8>, AllocError>
        ensures ok { IfOk result (λ v. v.items ≡ answer_text self.now) }
    {
        let mut out = Vec::new(alloc);
        push_answer_lines(&mut out, self.as_slice())?;
        Ok(out)
    }
}
