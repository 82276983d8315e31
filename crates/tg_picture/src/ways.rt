//! The courses of packets: each delivery and each loss, in the order of the steps.

ghost use Rattle.std.specs.Prelude.{◌≡◌, ◌++◌, nat_lt, option_copied, IfOk, OnOk};
ghost use Rattle.std.specs.List.{position};
ghost use Rattle.tg_picture.specs.Courses as seen;
ghost use Rattle.tg_picture.specs.Courses.{is_delivery, course_by, course_of, course_at, delivery, listed};

use crate::steps::{Happening, Step};
use std::alloc::Global;
use tg_base::{List, NoMemory, NodeId, Packet};

/// How the course of a packet ends.
#[derive(Clone, Copy, PartialEq, Eq)]
pub enum Ending {
    /// It came for the first time.
    First,
    /// It came before, and came again.
    Again,
    /// It was lost.
    Lost,
}

/// The course of a packet, from the node that sent it to the one that it was sent to.
#[derive(Clone, Copy, PartialEq, Eq)]
pub struct Course {
    pub packet: u64,
    pub from: NodeId,
    pub to: NodeId,
    /// The step in which it was sent, from 0.
    pub sent_in: u64,
    /// The step in which it came or was lost, from 0.
    pub ends_in: u64,
    pub ending: Ending,
}

/// One course for each delivery and each loss in the steps from `from` on and below `upto`, in their order.
/// An `Err` is want of memory.
///
/// The time is that of all steps for each course.
#[tactic(auto, unfolding(crate::specs::Courses::courses))]
pub fn courses(
    alloc: Global,
    packets: &[Packet],
    steps: &[Step],
    from: usize,
    upto: usize,
) -> Result<List<Course>, NoMemory>
    ensures { IfOk result (λ cs. cs ≡ seen.courses packets.now steps.now from upto) }
{
    let mut found = List::new(alloc);
    for at in 0..upto {
        if from <= at {
            put_course(course_at(packets, steps, at), &mut found)?;
        }
    }
    Ok(found)
}

fn put_course(course: Option<Course>, found: &mut List<Course>) -> Result<(), NoMemory>
    ensures { OnOk result (found.new ≡ found.old ++ listed course) }
{
    match course {
        None => Ok(()),
        Some(course) => found.push(course),
    }
}

// The course that ends in a step.
fn course_at(packets: &[Packet], steps: &[Step], at: usize) -> Option<Course>
    ensures { result ≡ course_at packets.now steps.now at }
{
    match steps.get(at) {
        None => None,
        Some(step) => course_by(packets, steps, at, step.happening),
    }
}

fn course_by(packets: &[Packet], steps: &[Step], at: usize, happening: Happening) -> Option<Course>
    ensures { result ≡ course_by packets.now steps.now at happening }
{
    match happening {
        Happening::Came { packet } => {
            let ending = delivery(came_before(steps, at, packet));
            course_of(steps, at, packet, ending, packets.get(packet as usize))
        }
        Happening::Lost { packet } => course_of(
            steps,
            at,
            packet,
            Ending::Lost,
            packets.get(packet as usize),
        ),
        Happening::Given { .. } | Happening::Ticked { .. } | Happening::Stopped { .. } => None,
    }
}

// The course of a packet that ends in a step, where the packet had been sent before.
fn course_of(
    steps: &[Step],
    at: usize,
    number: u64,
    ending: Ending,
    packet: Option<&Packet>,
) -> Option<Course>
    ensures { result ≡ course_of steps.now at number ending (option_copied packet.entry) }
{
    match packet {
        None => None,
        Some(packet) => {
            if number < sent_before(steps, at) {
                Some(Course {
                    packet: number,
                    from: packet.from,
                    to: packet.to,
                    sent_in: sent_in(steps, number),
                    ends_in: at as u64,
                    ending,
                })
            } else {
                None
            }
        }
    }
}

// How a delivery ends a course.
fn delivery(again: bool) -> Ending
    ensures { result ≡ delivery again }
{
    if again { Ending::Again } else { Ending::First }
}

// Whether a packet came in a step before this one.
fn came_before(steps: &[Step], at: usize, packet: u64) -> bool
    ensures { result ≡ seen.came_before steps.now at packet }
{
    steps
        .iter()
        .take(at)
        .any(|step| is_delivery(packet, step.happening))
}

fn is_delivery(number: u64, happening: Happening) -> bool
    ensures { result ≡ is_delivery number happening }
{
    match happening {
        Happening::Came { packet } => packet == number,
        _ => false,
    }
}

/// The step by which a packet had been sent.
pub fn sent_in(steps: &[Step], packet: u64) -> u64
    ensures { result ≡ seen.sent_in steps.now packet }
{
    match first_past(steps, packet) {
        Some(at) => at as u64,
        None => steps.len() as u64,
    }
}

// The first step by which more packets had been sent than a number.
fn first_past(steps: &[Step], packet: u64) -> Option<usize>
    ensures { result ≡ position (λ (s : Step). nat_lt packet s.sent) steps.now }
{
    steps.iter().position(|step| packet < step.sent)
}

/// How many packets had been sent before a step.
pub fn sent_before(steps: &[Step], at: usize) -> u64
    ensures { result ≡ seen.sent_before steps.now at }
{
    if at == 0 {
        return 0;
    }
    sent_by(steps.get(at - 1))
}

/// How many packets had been sent after a step.
pub fn sent_by(step: Option<&Step>) -> u64
    ensures { result ≡ seen.sent_by (option_copied step.entry) }
{
    match step {
        None => 0,
        Some(step) => step.sent,
    }
}
