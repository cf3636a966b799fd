// The service: one record, or one question or charge beside the records.
#![tactic(auto)]

ghost use Rattle.std.specs.Prelude.{◌≡◌, [], length, drop};
ghost use Rattle.terms.specs.declared.Answer.TheVariants as Answer;
ghost use Rattle.terms.specs.Refusals.{number_of_refusal};
ghost use Rattle.state.specs.State.{held_of};
ghost use Rattle.records.specs.Records.{as_question, parsed_body};
ghost use Rattle.questions.specs.Code.{HeldState};
ghost use Rattle.commands.specs.Call.{judged, effect, call, span_call};
ghost use Rattle.commands.specs.Buffers.{lent, is_short_or, after_of};
ghost use Rattle.commands.specs.Code.{Enough};
ghost use Rattle.service.specs.Tables.{tables, after_charge};
ghost use Rattle.service.specs.Charging.{charge_call};
ghost use Rattle.service.specs.Code.{LentAs, ToChargeAs};

use charges::Charge;
use commands::Reply;
use reader::Input;
use state::State;
use terms::{Answer, Question, Refusal};

// Whether block or a table is too short, or what else is lent to a call.
fn is_short(other: bool, block: usize, labels: usize, links: usize) -> bool
    ensures { result ≡ is_short_or other block labels links }
{
    if block < block::SIZE {
        return true;
    }
    if labels < terms::LABEL_ENTRIES {
        return true;
    }
    if links < terms::LINK_ENTRIES {
        return true;
    }
    other
}

// Lent memory, which every call is judged by first, and the state that its block holds; `other` says whether what else is lent to the call is too short.
fn lent_state(other: bool, block: &[u8], labels: usize, links: usize) -> Result<State, Refusal>
    ensures { LentAs other block.now labels links result }
{
    if is_short(other, block.len(), labels, links) {
        return Err(Refusal::ShortMemory);
    }
    block::load(block).ok_or(Refusal::BadBlock)
}

// A call that is refused before a record was read: no bytes are used.
fn refused(refusal: Refusal) -> Reply
    ensures { (result.answer ≡ Answer.Refused (number_of_refusal refusal)) × (result.used ≡ 0) }
{
    Reply {
        answer: Answer::from(refusal),
        used: 0,
    }
}

// One record from a place of the input on.
pub fn record_at(
    block: &mut [u8],
    labels: &mut [u64],
    links: &mut [u8],
    spans: &mut [i32],
    input: &[u8],
    at: usize,
) -> Reply
    ensures { after_of result block.new labels.new links.new spans.new
        ≡ call (lent block.old labels.old links.old spans.old) (drop at input.now) }
{
    let few_spans = spans.len() < terms::SPAN_NUMBERS;
    match lent_state(few_spans, block, labels.len(), links.len()) {
        Err(refusal) => refused(refusal),
        Ok(state) => {
            let settings = state.settings;
            match reader::parse(settings, input, at) {
                Input::Nothing => Reply {
                    answer: Answer::End,
                    used: 0,
                },
                Input::Refused(number, used) => {
                    let answer = Answer::Refused(number);
                    Reply { answer, used }
                }
                Input::Record(command, used) => commands::work(
                    command,
                    &input[at + 4..at + used],
                    state,
                    block,
                    labels,
                    links,
                    spans,
                    used,
                ),
            }
        }
    }
}

// One record from the start of the input.
pub fn record(
    block: &mut [u8],
    labels: &mut [u64],
    links: &mut [u8],
    spans: &mut [i32],
    input: &[u8],
) -> Reply
    ensures { after_of result block.new labels.new links.new spans.new
        ≡ call (lent block.old labels.old links.old spans.old) input.now }
{
    record_at(block, labels, links, spans, input, 0)
}

// A question beside the records, with what the block holds: judged as a record's is, and no bytes are used.
fn aside(
    state: State,
    block: &[u8],
    labels: &mut [u64],
    links: &mut [u8],
    spans: &mut [i32],
    question: Question,
) -> Reply
    requires { HeldState state × Enough (length block.now) (length labels.old) (length links.old) (length spans.old) }
    ensures { after_of result block.now labels.new links.new spans.new
        ≡ effect (held_of state) (lent block.now labels.old links.old spans.old)
        (judged (held_of state) (parsed_body (as_question (held_of state).settings question) [] 0)) }
{
    let settings = state.settings;
    match records::ask(settings, question) {
        Ok(_) => {
            let answer = questions::answer(&state, labels, links, spans, question);
            Reply { answer, used: 0 }
        }
        Err(unasked) => refused(unasked),
    }
}

// The spans of a label of an item, asked beside the records: the block is read alone.
pub fn spans_of(
    block: &[u8],
    labels: &mut [u64],
    links: &mut [u8],
    spans: &mut [i32],
    item: u8,
    label: u8,
) -> Reply
    ensures { after_of result block.now labels.new links.new spans.new
        ≡ span_call (lent block.now labels.old links.old spans.old) item label }
{
    let few_spans = spans.len() < terms::SPAN_NUMBERS;
    match lent_state(few_spans, block, labels.len(), links.len()) {
        Ok(state) => aside(
            state,
            block,
            labels,
            links,
            spans,
            Question::Spans(item, label),
        ),
        Err(refusal) => refused(refusal),
    }
}

// The state that a charge goes by: lent memory first, then item and lines.
fn to_charge(
    block: &[u8],
    labels: usize,
    links: usize,
    lines: &[u32],
    item: u32,
) -> Result<State, Refusal>
    ensures { ToChargeAs block.now labels links item lines.now result }
{
    let inside_line = lines.len() % 3 != 0;
    let state = lent_state(inside_line, block, labels, links)?;
    charges::judged(item, lines)?;
    Ok(state)
}

// The charge of an item by price lines, three numbers each, asked beside the records: the block is read alone, and no span is kept.
pub fn charge(
    block: &[u8],
    labels: &mut [u64],
    links: &mut [u8],
    lines: &[u32],
    item: u32,
) -> Charge
    ensures { after_charge result (tables block.now labels.new links.new)
        ≡ charge_call (tables block.now labels.old links.old) item lines.now }
{
    match to_charge(block, labels.len(), links.len(), lines, item) {
        Ok(state) => charging::bill(&state, labels, links, item as u8, lines),
        Err(refusal) => Charge::from(refusal),
    }
}
