// Results as C gets them: each result of a crate below becomes a number or a record of numbers.
#![tactic(auto)]

ghost use Rattle.std.specs.Prelude.{◌≡◌};
ghost use Rattle.std.specs.Result.{result_unwrap_or};
ghost use Rattle.device_status.specs.Status.{silence};
ghost use Rattle.device.specs.Results.{nothing_sent};
ghost use Rattle.numbers.specs.Exported.{answer_numbers, step_numbers, next_numbers, device_numbers, carried_numbers, found_numbers, salvaged_numbers, tested_number};

use answers::Refusal;
use device::Sent;
use device_instructions::RegisteredWrite;
use device_status::Reply;
use line_log::Place;
use log_salvage::Figures;
use reader_core::{Event, Step};
use reader_plain::Event as SegmentEvent;

// What a feeding or gap call returns. kind 0: no event, from a gap call: nothing is left; 1: a packet of `count` bytes; 2: a bad
// checksum; else the number of a refusal. `id` is that of the packet or of the bad checksum.
#[repr(C)]
#[derive(Clone, Copy)]
pub struct StepNumbers {
    pub taken: usize,
    pub count: usize,
    pub kind: u8,
    pub id: u8,
}

// What the plain reader returns: where the event begins, of a packet its byte count, where reading goes on, the kind as above, and
// the ID. All of it is 0 where there is no event.
#[repr(C)]
#[derive(Clone, Copy)]
pub struct EventNumbers {
    pub offset: usize,
    pub count: usize,
    pub next: usize,
    pub kind: u8,
    pub id: u8,
}

// What a call of the device returns: the status's byte count, 0 for silence, or minus the number of a refusal; the reply slot; and
// the registered write from now on.
#[repr(C)]
#[derive(Clone, Copy)]
pub struct DeviceNumbers {
    pub count: i64,
    pub slot: usize,
    pub registered: RegisteredWrite,
}

// What the first of two calls of the device returns: 0, or minus the number of a refusal; the reply that waits; and the registered
// write from now on.
#[repr(C)]
#[derive(Clone, Copy)]
pub struct CarriedNumbers {
    pub refusal: i64,
    pub reply: Reply,
    pub registered: RegisteredWrite,
}

// What the question to a log returns: 1 for a packet, 0 for none, or minus the number of a refusal; the packet's segment and its
// offset there, 0 beside any other answer.
#[repr(C)]
#[derive(Clone, Copy)]
pub struct FoundNumbers {
    pub found: i64,
    pub segment: usize,
    pub offset: usize,
}

// What the salvage of a log returns: the bytes written, or minus the number of a refusal; then the report: how many entries were
// dropped, how many index numbers have changed, the bytes behind the old index that are in no kept segment, and whether the header
// has changed. These are 0 beside a refusal.
#[repr(C)]
#[derive(Clone, Copy)]
pub struct SalvagedNumbers {
    pub count: i64,
    pub dropped: usize,
    pub index: usize,
    pub leftover: usize,
    pub header: u8,
}

// The bytes taken stand beside a refusal too. The packet's bytes are in the caller's buffer. [G5 N9 N11]
pub fn step(taken: usize, event: Result<Option<Event>, Refusal>) -> StepNumbers
    ensures { result ≡ answer_numbers taken event }
{
    let (count, kind, id) = match event {
        Ok(Some(Event::Packet { id, size })) => (size, 1, id),
        Ok(Some(Event::BadChecksum { id })) => (0, 2, id),
        Ok(None) => (0, 0, 0),
        Err(refusal) => (0, u8::from(refusal), 0),
    };
    StepNumbers {
        taken,
        count,
        kind,
        id,
    }
}

// A refused step has taken nothing.
impl From<Result<Step, Refusal>> for StepNumbers {
    ghost from_gives = { λ answer numbers. numbers ≡ step_numbers answer };

    fn from(answer: Result<Step, Refusal>) -> StepNumbers {
        match answer {
            Ok(Step { taken, event, .. }) => step(taken, Ok(event)),
            Err(refusal) => step(0, Err(refusal)),
        }
    }
}

// The packet's bytes are in the caller's segment.
impl From<Option<SegmentEvent>> for EventNumbers {
    ghost from_gives = { λ answer numbers. numbers ≡ next_numbers answer };

    fn from(answer: Option<SegmentEvent>) -> EventNumbers {
        let Some(event) = answer else {
            return EventNumbers {
                offset: 0,
                count: 0,
                next: 0,
                kind: 0,
                id: 0,
            };
        };
        match event {
            SegmentEvent::Packet {
                offset,
                count,
                next,
                id,
            } => EventNumbers {
                offset,
                count,
                next,
                kind: 1,
                id,
            },
            SegmentEvent::BadChecksum { offset, next, id } => EventNumbers {
                offset,
                count: 0,
                next,
                kind: 2,
                id,
            },
        }
    }
}

// The same, moved field by field, as it was written a moment before: one load of what several stores have not yet brought to memory
// would wait for them.
fn moved(registered: RegisteredWrite) -> RegisteredWrite
    ensures { result ≡ registered }
{
    let bytes = registered.bytes;
    RegisteredWrite {
        address: registered.address,
        count: registered.count,
        bytes,
        min: registered.min,
        max: registered.max,
    }
}

// The status is in the caller's buffer.
pub fn response(answer: Result<Sent, Refusal>, kept: RegisteredWrite) -> DeviceNumbers
    ensures { result ≡ device_numbers answer kept }
{
    let registered = moved(kept);
    match answer {
        Ok(sent) => DeviceNumbers {
            count: answers::exported_count(sent.count),
            slot: sent.slot,
            registered,
        },
        Err(refusal) => DeviceNumbers {
            count: answers::exported_refusal(refusal),
            slot: 0,
            registered,
        },
    }
}

// Each reply is answered as it stands, beside a refusal too. [D50 G5 N11]
pub fn carried_beside(
    refused: Result<(), Refusal>,
    reply: Reply,
    registered: RegisteredWrite,
) -> CarriedNumbers
    ensures { result ≡ carried_numbers (nothing_sent refused) reply registered }
{
    CarriedNumbers {
        refusal: answers::exported_done(refused),
        reply,
        registered,
    }
}

// The reply that waits, which is silence beside a refusal.
pub fn carried(answer: Result<Reply, Refusal>, registered: RegisteredWrite) -> CarriedNumbers
    ensures { result ≡ carried_numbers (nothing_sent answer) (result_unwrap_or answer silence) registered }
{
    match answer {
        Ok(reply) => carried_beside(Ok(()), reply, registered),
        Err(refusal) => carried_beside(Err(refusal), device_status::silence(), registered),
    }
}

impl From<Result<Option<Place>, Refusal>> for FoundNumbers {
    ghost from_gives = { λ answer numbers. numbers ≡ found_numbers answer };

    fn from(answer: Result<Option<Place>, Refusal>) -> FoundNumbers {
        match answer {
            Ok(Some(Place { segment, offset })) => FoundNumbers {
                found: 1,
                segment,
                offset,
            },
            Ok(None) => FoundNumbers {
                found: 0,
                segment: 0,
                offset: 0,
            },
            Err(refusal) => FoundNumbers {
                found: answers::exported_refusal(refusal),
                segment: 0,
                offset: 0,
            },
        }
    }
}

impl From<Result<Figures, Refusal>> for SalvagedNumbers {
    ghost from_gives = { λ answer numbers. numbers ≡ salvaged_numbers answer };

    fn from(answer: Result<Figures, Refusal>) -> SalvagedNumbers {
        match answer {
            Ok(figures) => SalvagedNumbers {
                count: answers::exported_count(figures.count),
                dropped: figures.dropped,
                index: figures.index,
                leftover: figures.leftover,
                header: u8::from(figures.header),
            },
            Err(refusal) => SalvagedNumbers {
                count: answers::exported_refusal(refusal),
                dropped: 0,
                index: 0,
                leftover: 0,
                header: 0,
            },
        }
    }
}

// 1 for a plan of the wanted goals, 0 for other bytes.
pub fn tested(answer: Result<bool, Refusal>) -> i64
    ensures { result ≡ tested_number answer }
{
    match answer {
        Ok(is_plan) => i64::from(is_plan),
        Err(refusal) => answers::exported_refusal(refusal),
    }
}
