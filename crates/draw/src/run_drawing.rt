//! A run that was written down: what is drawn of each of its lines, and of the first that the checker refuses.
ghost use Rattle.std.specs.Prelude.{◌≡◌, ◌++◌, IfOk, IfSome, OnOk, codes, string_bytes};
ghost use Rattle.std.specs.Option.{option_map};
ghost use Rattle.draw.specs.RunDrawn.{AreSentences, IsRefusalDrawn, IsRunDrawn, SaysReply, SaysWrong, place_about};

use heap_spec::Reply;
use plain_heap::{Keeper, Wrong};
use programs::Fault;
use std::alloc::{AllocError, Global};
use trace_lines::{Objection, record_line, refused_line};
use tracing::{Tracer, place_of};
use written_runs::{Judgement, Places, Rule, read_line, reply_text, wrong_text};

/// The record of a line that the checker takes, which has this number in its file.
pub(crate) fn run_written(
    alloc: Global,
    tracer: &mut Tracer,
    number: u64,
    line: &str,
) -> Result<String, Fault>
    ensures { IfOk result (λ text. IsRunDrawn tracer.old line.now tracer.new (string_bytes text)) }
{
    let Ok(read) = read_line(alloc, Places::Classes, line.as_bytes()) else {
        return Err(Fault::Memory);
    };
    let Some(read) = read else {
        return Err(Fault::BadLine(number));
    };
    let Ok(asked) = str::from_utf8(read.command) else {
        return Err(Fault::BadLine(number));
    };
    let (hint, _) = read.behind.hint();
    // The checker took this line already.
    let Ok(Some(changes)) = tracer.tell(None, &read.event, &read.reply, hint) else {
        return Err(Fault::Memory);
    };
    let Ok(said) = reply_text(alloc, &read.reply) else {
        return Err(Fault::Memory);
    };
    match record_line(alloc, asked, said.as_str(), &changes) {
        Ok(record) => Ok(record),
        Err(_) => Err(Fault::Memory),
    }
}

// Says behind sentences which reply a line had to have, if it is told.
fn say_reply(said: &mut Vec<String>, alloc: Global, reply: Option<Reply>) -> Result<(), AllocError>
    ensures { OnOk result (SaysReply reply said.old.items said.new.items) }
{
    let Some(reply) = reply else {
        return Ok(());
    };
    let text = reply_text(alloc, &reply)?;
    let sentence = format!(in alloc; "a sequential heap answers {text}")?;
    said.push(sentence)?;
    Ok(())
}

// Says behind sentences what is wrong with an object, if something is.
fn say_wrong(
    said: &mut Vec<String>,
    alloc: Global,
    wrong: Option<Wrong>,
    keeper: Option<Keeper>,
) -> Result<(), AllocError>
    ensures { OnOk result (SaysWrong wrong said.old.items said.new.items) }
{
    let Some(wrong) = wrong else {
        return Ok(());
    };
    let sentence = wrong_text(alloc, &wrong, keeper)?;
    said.push(sentence)?;
    Ok(())
}

/// What the checker says of a line that breaks this rule: the sentences that `replay` prints.
pub(crate) fn sentences(
    alloc: Global,
    rule: Rule,
    judgement: &Judgement,
) -> Result<Vec<String>, AllocError>
    ensures { IfOk result (λ said. AreSentences judgement.now.expected judgement.now.wrong said.items) }
{
    let mut said = Vec::new(alloc);
    let sentence = format!(in alloc; "{}", rule.text())?;
    said.push(sentence)?;
    say_reply(&mut said, alloc, judgement.expected)?;
    say_wrong(&mut said, alloc, judgement.wrong, judgement.keeper)?;
    Ok(said)
}

// The place of the object that was forgotten or kept wrongly.
fn place_of_wrong(wrong: Wrong) -> u64
    ensures { result ≡ place_about wrong }
{
    match wrong {
        Wrong::IsMissing(base)
        | Wrong::StandsTwice(base)
        | Wrong::HasToStay(base)
        | Wrong::HasToGo(base) => place_of(base),
    }
}

// The place that a judgement speaks of.
fn place_judged(judgement: &Judgement) -> Option<u64>
    ensures { result ≡ option_map place_about judgement.now.wrong }
{
    match judgement.wrong {
        Some(wrong) => Some(place_of_wrong(wrong)),
        None => None,
    }
}

// The command of a line, and its answer: what stands behind ` => `.
fn parted(line: &str) -> Option<(&str, &str)>
    ensures { IfSome result (λ parts. line.now ≡ parts.0.now ++ (codes " => " ++ parts.1.now)) }
{
    line.split_once(" => ")
}

/// The record of a line that the checker refuses with these sentences, which has this number in its file.
pub(crate) fn refusal_written(
    alloc: Global,
    number: u64,
    line: &str,
    says: Vec<String>,
    judgement: &Judgement,
) -> Result<String, Fault>
    ensures { IfOk result (λ text. IsRefusalDrawn number line.now says.items judgement.now.wrong (string_bytes text)) }
{
    let Some((asked, answer)) = parted(line) else {
        return Err(Fault::BadLine(number));
    };
    let objection = Objection {
        line: number,
        says,
        about: place_judged(judgement),
    };
    match refused_line(alloc, asked, answer, &objection) {
        Ok(record) => Ok(record),
        Err(_) => Err(Fault::Memory),
    }
}
