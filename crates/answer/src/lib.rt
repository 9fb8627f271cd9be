// The record of an answer: 64 lent bytes, as in docs/LAYOUT.md. A shorter record is never written, and bytes beyond 64 are
// left.
#![tactic(auto)]

ghost use Rattle.std.specs.Prelude.{◌≡◌};
ghost use Rattle.session.specs.Call.{refuses};
ghost use Rattle.entry.specs.State.{state_number};
ghost use Rattle.answer.specs.Record.{front_bytes, report_bytes, told, told_of};

mod refusal;

use atr::Report;
use entry::State;
pub use refusal::Refusal;
use slot::Next;

// bytes in a record
pub const RECORD: usize = 64;
// where its parts start: number, state, ending and counts; what attach reports; what is not used
const FRONT: usize = 0;

const REPORT: usize = 16;

const REST: usize = 32;

const REST_SIZE: usize = RECORD - REST;

// A refusal: its number, and the other fields 0. Any number is taken, since `refuses` speaks of each; 0 is open's own answer.
pub fn refuse(rec: &mut [u8], number: u8)
    ensures { rec.new ≡ told rec.old (refuses number) }
{
    let mut record = [0u8; RECORD];
    record[0] = number;
    lent::put(rec, FRONT, &record);
}

// Number 0, state, ending, blocks sent, length written, wait. The ending is a number, since `front_bytes` speaks of each.
fn front(state: State, ending: u8, sent: u32, written: usize, wait: u32) -> [u8; 16]
    ensures { result ≡ front_bytes 0 (state_number state) ending sent written wait }
{
    let mut front = [0u8; 16];
    front[1] = u8::from(state);
    front[2] = ending;
    front[4..8].copy_from_slice(&sent.to_be_bytes());
    front[8..12].copy_from_slice(&written.to_be_bytes()[4..]);
    front[12..].copy_from_slice(&wait.to_be_bytes());
    front
}

// What attach reports.
fn report(r: Report) -> [u8; 16]
    ensures { result ≡ report_bytes r }
{
    let mut report = [0u8; 16];
    report[0] = r.ifsc;
    report[1] = r.used;
    report[2] = r.historical;
    report[3] = r.d;
    report[4..6].copy_from_slice(&r.f.to_be_bytes());
    report[6..8].copy_from_slice(&r.distance.to_be_bytes());
    report[8..12].copy_from_slice(&r.cwt.to_be_bytes());
    report[12..].copy_from_slice(&r.bwt.to_be_bytes());
    report
}

// An answer with number 0: what a call gives, the bytes that it wrote to the output, and the report, zeros but for attach.
pub fn tell(rec: &mut [u8], n: Next, written: usize, r: Report)
    ensures { rec.new ≡ told_of rec.old n written r }
{
    if rec.len() < RECORD {
        return;
    }
    let front = front(State::from(n.slot), n.ending, n.sent, written, n.wait);
    lent::put(rec, FRONT, &front);
    lent::put(rec, REPORT, &report(r));
    lent::fill(rec, REST, REST_SIZE, 0);
}
