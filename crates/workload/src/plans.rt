//! The requests that are drawn, and the plan that spells them.
ghost use Rattle.std.specs.Prelude.{◌≡◌, ◌≤◌, ◌<◌, ◌+◌, ℕ, [], ◌∷◌, ◌++◌, length, IfOk};
ghost use Rattle.cpu12_isa.specs.Regions.{free_start};
ghost use Rattle.interrupt_plan.specs.Plans.{Spells};
ghost use Rattle.csv.specs.Writing.{default_writer, row_text};
ghost use Rattle.workload.specs.{Draws.state_after, Texts.request_fields, Workloads.AreDrawnRequests};

use crate::draws::Draws;
use crate::rows::with_field;
use cpu12_isa::instr::Write;
use fz_list::List;
use interrupt_plan::{Plan, Request};
use itoa::Buffer;
use std::alloc::{AllocError, Global};

/// The first byte that a request may write.
const FIRST_FREE: u32 = 0x1800;

/// Requests, and the text that spells them.
#[derive(Drop)]
pub(crate) struct PlanText {
    pub(crate) text: Vec<u8>,
    pub(crate) requests: Plan,
}

/// Draws a request in each of 1000 samples.
pub(crate) fn drawn_plan(alloc: Global, draws: &mut Draws) -> Result<PlanText, AllocError>
    ensures drawn { (number : ℕ) → draws.old.state ≡ state_after number 2001
        → IfOk result (λ plan. AreDrawnRequests number plan.requests) }
    ensures spelled { (number : ℕ) → draws.old.state ≡ state_after number 2001
        → IfOk result (λ plan. Spells plan.text.items plan.requests) }
    ensures short { IfOk result (λ plan. length plan.text.items ≤ 1048576) }
{
    let mut text = Vec::new(alloc);
    let mut requests = Vec::new(alloc);
    for k in 0..1000u32 {
        let (moment, at, value) = draws.request();
        text = with_request(alloc, text, k + 1, moment, at, value)?;
        requests.push(request_of(alloc, k + 1, moment, at, value)?)?;
    }
    Ok(PlanText {
        text,
        requests: List::new(requests),
    })
}

/// The text followed by a request's row.
fn with_request(
    alloc: Global,
    text: Vec<u8>,
    sample: u32,
    moment: u32,
    at: u32,
    value: u32,
) -> Result<Vec<u8>, AllocError>
    requires at { at < 2016 }
    requires value { value < 256 }
    ensures { IfOk result (λ t. t.items ≡ text.items
        ++ row_text default_writer (request_fields sample (moment, at, value))) }
{
    let mut sample_buffer = Buffer::new();
    let mut moment_buffer = Buffer::new();
    let address = FIRST_FREE + at;
    let address_digits = hex::encode_upper(alloc, &[(address / 256) as u8, (address % 256) as u8])?;
    let value_digits = hex::encode_upper(alloc, &[value as u8])?;
    let with_sample = with_field(text, sample_buffer.format(sample).as_bytes(), b',')?;
    let with_moment = with_field(with_sample, moment_buffer.format(moment).as_bytes(), b',')?;
    let with_address = with_field(with_moment, address_digits.as_bytes(), b',')?;
    with_field(with_address, value_digits.as_bytes(), b'\n')
}

/// A request for one byte in a sample, at an offset from the first free byte.
fn request_of(
    alloc: Global,
    sample: u32,
    moment: u32,
    at: u32,
    value: u32,
) -> Result<Request, AllocError>
    requires at { at < 2016 }
    requires value { value < 256 }
    ensures { IfOk result (λ request. request ≡ record {
      sample = sample;
      moment = moment;
      writes = record { at = free_start + at; value = value } ∷ [];
    }) }
{
    let write = Write {
        at: (FIRST_FREE + at) as u16,
        value: value as u8,
    };
    let writes = List::new(vec![in alloc; write]?);
    Ok(Request {
        sample,
        moment,
        writes,
    })
}
