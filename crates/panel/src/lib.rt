// The panel's calls, for a host program in C: one takes one record, and beside the records one asks for spans and one for a charge.
#![tactic(auto)]

ghost use Rattle.std.specs.Prelude.{◌≡◌};
ghost use Rattle.commands.specs.Call.{call, span_call};
ghost use Rattle.commands.specs.Buffers.{lent};
ghost use Rattle.service.specs.Tables.{tables};
ghost use Rattle.service.specs.Charging.{charge_call};
ghost use Rattle.panel.specs.Exported.{halves, packed, returned, exported, packed_charge, returned_charge, exported_charge};
ghost use Rattle.panel.specs.ExportedLaws.{clamped};

use charges::Charge;
use terms::Answer;

// A number in the upper half, a value in the lower.
fn halves(number: u8, value: u16) -> u32
    ensures { result ≡ halves number value }
{
    (number as u32) * 65536 + (value as u32)
}

fn pack(answer: Answer) -> u32
    ensures { result ≡ packed answer }
{
    halves(answer.number(), answer.value())
}

fn pack_charge(charge: Charge) -> u32
    ensures { result ≡ packed_charge charge }
{
    halves(charge.number(), charge.value())
}

// A number as a byte; those that no byte holds are no names, and neither is 255.
fn clamp(n: u32) -> u8
    ensures { result ≡ clamped n }
{
    if n < 256 { n as u8 } else { 255 }
}

// One record from the start of the input.
#[unsafe(no_mangle)]
pub extern "C" fn harmikse_record(
    block: &mut [u8],
    labels: &mut [u64],
    links: &mut [u8],
    spans: &mut [i32],
    input: &[u8],
    used: &mut u64,
) -> u32
    ensures { returned result used.new (lent block.new labels.new links.new spans.new)
        ≡ exported (call (lent block.old labels.old links.old spans.old) input.now) }
{
    let reply = service::record(block, labels, links, spans, input);
    let n = reply.used;
    *used = n as u64;
    let answer = reply.answer;
    pack(answer)
}

// The spans of a label of an item. The block is read alone, and no bytes are used.
#[unsafe(no_mangle)]
pub extern "C" fn harmikse_spans(
    block: &[u8],
    labels: &mut [u64],
    links: &mut [u8],
    spans: &mut [i32],
    item: u32,
    label: u32,
) -> u32
    ensures { returned result 0 (lent block.now labels.new links.new spans.new)
        ≡ exported (span_call (lent block.now labels.old links.old spans.old) item label) }
{
    let reply = service::spans_of(block, labels, links, spans, clamp(item), clamp(label));
    let answer = reply.answer;
    pack(answer)
}

// The charge of an item by price lines, three numbers each. The block is read alone, and the total is written only where there is one.
#[unsafe(no_mangle)]
pub extern "C" fn harmikse_charge(
    block: &[u8],
    labels: &mut [u64],
    links: &mut [u8],
    lines: &[u32],
    item: u32,
    total: &mut u64,
) -> u32
    ensures { returned_charge result total.new (tables block.now labels.new links.new)
        ≡ exported_charge total.old (charge_call (tables block.now labels.old links.old) item lines.now) }
{
    let charge = service::charge(block, labels, links, lines, item);
    match charge {
        Charge::Total(cents) => {
            *total = cents;
            pack_charge(charge)
        }
        Charge::Open => pack_charge(charge),
        Charge::Contradiction(_) => pack_charge(charge),
        Charge::Refused(_) => pack_charge(charge),
    }
}
