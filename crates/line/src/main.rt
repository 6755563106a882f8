// Reads standard input, up to 65,536 bytes of it, as one segment and prints its events by the plain reader: `packet ID INSTRUCTION
// COUNT`, with the count of unstuffed parameters, or `crc ID`, a line for each event, and last `end BYTES`, the bytes read.
// If a read or a write fails, it says so on standard error and does not print `end BYTES`.
#![tactic(auto)]

ghost use Rattle.std.specs.Prelude.{◌-◌, length};
ghost use Rattle.std.specs.Iterator.{at_most};
ghost use Rattle.reader_plain.specs.Plain.{Within};

use anyhow::Context;
use packet_front::MAX_BODY;
use reader_plain::Event as Found;
use std::io;

// An event lies within the segment, and reading goes on behind where it begins.
fn next_event(segment: &[u8], from: usize) -> Option<Found>
    ensures { Within segment.now from result }
{
    reader_plain::next_event(segment, from)
}

// An event of a segment, a packet by all its bytes.
#[derive(Clone, Copy)]
enum Event<'a> {
    Packet { id: u8, bytes: &'a [u8] },
    BadChecksum { id: u8 },
}

// The events of a segment from an offset on, each read from where the one before says that reading goes on.
#[derive(Drop)]
struct Events<'a> {
    segment: &'a [u8],
    from: usize,
}

impl<'a> Iterator for Events<'a> {
    type Item = Event<'a>;

    ghost remaining = { λ events. at_most (length events.segment.now - events.from) };

    fn next(&mut self) -> Option<Event<'a>> {
        match next_event(self.segment, self.from)? {
            Found::Packet {
                offset,
                next,
                id,
                ..
            } => {
                let bytes = &self.segment[offset..next];
                self.from = next;
                Some(Event::Packet { id, bytes })
            }
            Found::BadChecksum { next, id, .. } => {
                self.from = next;
                Some(Event::BadChecksum { id })
            }
        }
    }
}

// A packet's body is never empty, and unstuffed it has at most 1,022 bytes.
fn print_packet(rt: &impl Print, id: u8, bytes: &[u8]) -> io::Result<()> {
    let mut body = [0u8; MAX_BODY];
    match packet::unstuff(bytes, &mut body) {
        Ok(n) if n > 0 => println!(rt; "packet {id} {} {}", body[0], n - 1),
        _ => Err(io::Error::other("a packet has no body")),
    }
}

// A line for each event, and the last.
fn print_segment(rt: &impl Print, segment: &[u8]) -> io::Result<()> {
    for event in (Events { segment, from: 0 }) {
        match event {
            Event::Packet { id, bytes } => print_packet(rt, id, bytes)?,
            Event::BadChecksum { id } => println!(rt; "crc {id}")?,
        }
    }
    println!(rt; "end {}", segment.len())
}

fn run(rt: &HostRuntime) -> anyhow::Result<()> {
    let mut buffer = [0u8; 65536];
    let n = input::read(&mut rt.stdin(), &mut buffer)?;
    print_segment(rt, &buffer[..n]).context("standard output cannot be written")
}

fn main(rt: HostRuntime) {
    if let Err(error) = run(&rt) {
        let _ = eprintln!(rt; "line: {error}");
    }
}
