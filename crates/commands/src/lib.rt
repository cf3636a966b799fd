// The work of a command on what is held: refused, stored, or answered.
#![tactic(auto)]

ghost use Rattle.std.specs.Prelude.{◌≡◌, ◌≤◌, T, length, IfOk};
ghost use Rattle.state.specs.State.{held_of, CountsIn, ChangeAs};
ghost use Rattle.places.specs.Layout.{SIZE};
ghost use Rattle.records.specs.Parsed as Parsed;
ghost use Rattle.records.specs.Proper.{Proper};
ghost use Rattle.questions.specs.Code.{HeldState};
ghost use Rattle.commands.specs.Call.{held_tests, changed_by, judged, effect};
ghost use Rattle.commands.specs.Buffers.{lent, after_of};
ghost use Rattle.commands.specs.Code.{Enough, KeptAs};

use records::Command;
use state::State;
use terms::{Answer, Refusal};

// The answer and the bytes used.
#[derive(Drop)]
pub struct Reply {
    pub answer: Answer,
    pub used: usize,
}

// A change: refused, or stored.
fn keep(block: &mut [u8], change: Result<State, Refusal>, used: usize) -> Reply
    requires { IfOk change CountsIn × (SIZE ≤ length block.old) }
    ensures { KeptAs change used block.old block.new result }
{
    match change {
        Ok(state) => {
            block::store(block, state);
            Reply {
                answer: Answer::Done,
                used,
            }
        }
        Err(refusal) => Reply {
            answer: Answer::from(refusal),
            used,
        },
    }
}

// What a command, with its body beside it, makes of what is held. A question leaves it.
fn changed(command: Command, body: &[u8], state: State) -> Result<State, Refusal>
    requires { HeldState state × T (Proper command) }
    ensures { ChangeAs (held_tests (held_of state) command body.now)
        (changed_by (held_of state) command body.now) result }
{
    match command {
        Command::Reset => Ok(State::empty()),
        Command::Add(rule) => rules::with_rule(state, rule),
        Command::Put(mark) => marks::put(state, mark),
        Command::Take(mark) => marks::take(state, mark),
        Command::Count(counting) => settings::count(state, counting),
        Command::Confine(top, bottom) => settings::confine(state, top, bottom),
        Command::Shift(by) => correction::shift(state, by),
        Command::Restrict => settings::restrict(state),
        Command::Ask(_) => Ok(state),
    }
}

// The work of a command, with its body beside it, on what is held.
pub fn work(
    command: Command,
    body: &[u8],
    state: State,
    block: &mut [u8],
    labels: &mut [u64],
    links: &mut [u8],
    spans: &mut [i32],
    used: usize,
) -> Reply
    requires { HeldState state × T (Proper command) × Enough (length block.old) (length labels.old) (length links.old) (length spans.old) }
    ensures { after_of result block.new labels.new links.new spans.new
        ≡ effect (held_of state) (lent block.old labels.old links.old spans.old)
        (judged (held_of state) (Parsed.Record command body.now used)) }
{
    match command {
        Command::Ask(question) => {
            let answer = questions::answer(&state, labels, links, spans, question);
            Reply { answer, used }
        }
        _ => keep(block, changed(command, body, state), used),
    }
}
