// Records: the table of kinds, and the decoder of each body.
#![tactic(auto)]

ghost use Rattle.std.specs.Prelude.{◌≡◌, ◌+◌, T, length, Ok};
ghost use Rattle.terms.specs.Otherwise.{by_number};
ghost use Rattle.refusals.specs.Refusals.{tested as testedBy};
ghost use Rattle.records.specs.declared.Command.TheVariants as To;
ghost use Rattle.records.specs.Records.{mark_tests, as_rule, as_operator_rule, as_put, as_take, as_counting, as_hole, as_question};
ghost use Rattle.records.specs.Records.{decode_body};
ghost use Rattle.records.specs.Formats.{
  operator_at,
  label_rule,
  both_rule,
  link_rule,
  via_rule,
  label_mark,
  link_mark,
  label_stretch,
  link_stretch,
  shift_at,
  label_question,
  link_question,
  spans_question,
};
ghost use Rattle.frames.specs.Frames.{allows, lengths_of};

use terms::{Atom, Counting, Mark, Operator, Question, Refusal, Rule, Settings, require};

// What a record asks for.
#[derive(Drop)]
pub enum Command {
    Reset,
    Add(Rule),
    Put(Mark),
    Take(Mark),
    Count(Counting),
    Confine(i32, i32),
    Shift(i32),
    Restrict,
    Ask(Question),
}

// A rule to add: its names under the settings.
fn add(settings: Settings, rule: Rule) -> Result<Command, Refusal>
    ensures { by_number result ≡ as_rule settings rule }
{
    require(rule.is_named(), Refusal::BadName)?;
    Ok(Command::Add(rule))
}

// And behind them what its operator was read as.
fn add_with(settings: Settings, read: Option<Operator>, rule: Rule) -> Result<Command, Refusal>
    ensures { by_number result ≡ as_operator_rule settings read rule }
{
    let command = add(settings, rule)?;
    read.ok_or(Refusal::BadOperator)?;
    Ok(command)
}

// The tests of a mark to put or to take.
fn mark_tested(settings: Settings, mark: Mark) -> Result<(), Refusal>
    ensures { by_number result ≡ testedBy (mark_tests settings mark) }
{
    let atom = mark.atom;
    require(atom.is_markable(), Refusal::BadName)?;
    require(mark.is_placed(), Refusal::BadDepth)?;
    require(mark.is_ordered(), Refusal::EndsReversed)
}

fn put(settings: Settings, mark: Mark) -> Result<Command, Refusal>
    ensures { by_number result ≡ as_put settings mark }
{
    mark_tested(settings, mark)?;
    Ok(Command::Put(mark))
}

fn take(settings: Settings, mark: Mark) -> Result<Command, Refusal>
    ensures { by_number result ≡ as_take settings mark }
{
    mark_tested(settings, mark)?;
    Ok(Command::Take(mark))
}

// A question; the span call beside the records uses it too.
pub fn ask(settings: Settings, question: Question) -> Result<Command, Refusal>
    ensures { by_number result ≡ as_question settings question }
{
    require(question.in_range(), Refusal::BadName)?;
    Ok(Command::Ask(question))
}

fn label_rule(settings: Settings, body: &[u8]) -> Result<Command, Refusal>
    requires { length body.now ≡ 7 }
    ensures { by_number result ≡ as_operator_rule settings (operator_at body.now) (label_rule body.now) }
{
    let read = Operator::new(body[0], codec::u32_at(body, 1));
    let rule = Rule::Label(read.unwrap_or(Operator::WITHIN_1), body[5], body[6]);
    add_with(settings, read, rule)
}

fn both_rule(settings: Settings, body: &[u8]) -> Result<Command, Refusal>
    requires { length body.now ≡ 3 }
    ensures { by_number result ≡ as_rule settings (both_rule body.now) }
{
    let rule = Rule::Both(body[0], body[1], body[2]);
    add(settings, rule)
}

fn link_rule(settings: Settings, body: &[u8]) -> Result<Command, Refusal>
    requires { length body.now ≡ 7 }
    ensures { by_number result ≡ as_operator_rule settings (operator_at body.now) (link_rule body.now) }
{
    let read = Operator::new(body[0], codec::u32_at(body, 1));
    let rule = Rule::Link(read.unwrap_or(Operator::WITHIN_1), body[5], body[6]);
    add_with(settings, read, rule)
}

fn via_rule(settings: Settings, body: &[u8]) -> Result<Command, Refusal>
    requires { length body.now ≡ 3 }
    ensures { by_number result ≡ as_rule settings (via_rule body.now) }
{
    let rule = Rule::Via(body[0], body[1], body[2]);
    add(settings, rule)
}

// A mark of the kinds with one depth: it is both ends.
fn label_mark(body: &[u8]) -> Mark
    requires { length body.now ≡ 6 }
    ensures { result ≡ label_mark body.now }
{
    let depth = codec::i32_at(body, 2);
    Mark {
        atom: Atom::Has(body[0], body[1]),
        top: depth,
        bottom: depth,
    }
}

fn link_mark(body: &[u8]) -> Mark
    requires { length body.now ≡ 7 }
    ensures { result ≡ link_mark body.now }
{
    let depth = codec::i32_at(body, 3);
    Mark {
        atom: Atom::Linked(body[0], body[1], body[2]),
        top: depth,
        bottom: depth,
    }
}

// A mark of the kinds with two depths.
fn label_stretch(body: &[u8]) -> Mark
    requires { length body.now ≡ 10 }
    ensures { result ≡ label_stretch body.now }
{
    Mark {
        atom: Atom::Has(body[0], body[1]),
        top: codec::i32_at(body, 2),
        bottom: codec::i32_at(body, 6),
    }
}

fn link_stretch(body: &[u8]) -> Mark
    requires { length body.now ≡ 11 }
    ensures { result ≡ link_stretch body.now }
{
    Mark {
        atom: Atom::Linked(body[0], body[1], body[2]),
        top: codec::i32_at(body, 3),
        bottom: codec::i32_at(body, 7),
    }
}

fn ask_label(settings: Settings, body: &[u8]) -> Result<Command, Refusal>
    requires { length body.now ≡ 10 }
    ensures { by_number result ≡ as_question settings (label_question body.now) }
{
    let atom = Atom::Has(body[0], body[1]);
    ask(settings, Question::Holds(atom, codec::i64_at(body, 2)))
}

fn ask_link(settings: Settings, body: &[u8]) -> Result<Command, Refusal>
    requires { length body.now ≡ 11 }
    ensures { by_number result ≡ as_question settings (link_question body.now) }
{
    let atom = Atom::Linked(body[0], body[1], body[2]);
    ask(settings, Question::Holds(atom, codec::i64_at(body, 3)))
}

fn ask_spans(settings: Settings, body: &[u8]) -> Result<Command, Refusal>
    requires { length body.now ≡ 2 }
    ensures { by_number result ≡ as_question settings (spans_question body.now) }
{
    ask(settings, Question::Spans(body[0], body[1]))
}

// The number of a counting.
fn count(body: &[u8]) -> Result<Command, Refusal>
    requires { length body.now ≡ 1 }
    ensures { by_number result ≡ as_counting body.now }
{
    let number = body[0];
    require(terms::is_counting(number), Refusal::BadOperator)?;
    Ok(Command::Count(Counting::of(number)))
}

// The two ends of a hole.
fn confine(body: &[u8]) -> Result<Command, Refusal>
    requires { length body.now ≡ 8 }
    ensures { by_number result ≡ as_hole body.now }
{
    let top = codec::i32_at(body, 0);
    let bottom = codec::i32_at(body, 4);
    require(
        terms::is_depth(top) & terms::is_depth(bottom),
        Refusal::BadDepth,
    )?;
    require(top <= bottom, Refusal::EndsReversed)?;
    Ok(Command::Confine(top, bottom))
}

// The amount of a shift. Whether a depth leaves its range by it, what is held decides.
fn shift(body: &[u8]) -> Result<Command, Refusal>
    requires { length body.now ≡ 4 }
    ensures { by_number result ≡ Ok (To.Shift (shift_at body.now)) }
{
    Ok(Command::Shift(codec::i32_at(body, 0)))
}

// The table of kinds: decoders. The frame lets no other kind come here.
#[tactic(auto, unfolding(frames::specs::Frames::lengths_of, crate::specs::Records::body_tests, crate::specs::Records::command_in))]
pub fn decode_body(settings: Settings, kind: u16, body: &[u8]) -> Result<Command, Refusal>
    requires { T (allows (lengths_of kind) (length body.now + 2)) }
    ensures { by_number result ≡ decode_body settings kind body.now }
{
    match kind {
        1 => Ok(Command::Reset),
        2 => label_rule(settings, body),
        3 => both_rule(settings, body),
        4 => link_rule(settings, body),
        5 => via_rule(settings, body),
        6 => put(settings, label_mark(body)),
        7 => put(settings, link_mark(body)),
        8 => take(settings, label_mark(body)),
        9 => take(settings, link_mark(body)),
        10 => ask_label(settings, body),
        11 => ask_link(settings, body),
        12 => ask_spans(settings, body),
        13 => put(settings, label_stretch(body)),
        14 => put(settings, link_stretch(body)),
        15 => take(settings, label_stretch(body)),
        16 => take(settings, link_stretch(body)),
        17 => count(body),
        18 => confine(body),
        20 => shift(body),
        21 => Ok(Command::Restrict),
        _ => Err(Refusal::UnknownKind),
    }
}
