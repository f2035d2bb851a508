//! Random schedules: whatever turns the others have, an application without the board prints and reports what it does alone.

use crate::application::add;
use ns_base::no_memory::NoMemory;
use ns_session::session::Session;
use rand_pcg::Pcg32;
use rand_pcg::rand_core::Rng;
use std::alloc::Global;

/// One that counts, one that fails after some lines, and one that never ends by itself.
const SOURCES: [&str; 3] = [
    "class T packageUsing: m = () (public main: p args: a = (1 to: 20 do: [:n | p console printLine: n]))",
    "class T packageUsing: m = () (public main: p args: a = (1 to: 9 do: [:n | p console print: 9 // (7 - n)]))",
    "class T packageUsing: m = () (public main: p args: a = ([true] whileTrue: [p console print: '.']))",
];

/// What an application has printed, and the line that reports its end.
#[derive(Drop)]
struct Outcome {
    transcript: Vec<u8>,
    line: Vec<u8>,
}

#[test]
fn schedules_change_no_application(rt: HostRuntime) {
    assert!(rt; all_agree(rt.alloc()));
}

/// Whether each application does under 500 random schedules what it does alone.
fn all_agree(alloc: Global) -> bool {
    match alone(alloc) {
        Some(alone) => (0..500).all(|seed| agrees(alloc, seed, alone.as_slice())),
        None => false,
    }
}

/// What each application is told of alone.
fn alone(alloc: Global) -> Option<Vec<Outcome>> {
    let mut all = Vec::new(alloc);
    for source in SOURCES {
        let mut session = Session::new(alloc);
        add(alloc, &mut session, source)?.ok()?;
        session.turn(0, u64::MAX).ok()?;
        all.push(told(alloc, &session, 0)?).ok()?;
    }
    Some(all)
}

/// What is told of an application that has ended.
fn told(alloc: Global, session: &Session, number: u32) -> Option<Outcome> {
    let transcript = session.transcript(number)?.to_vec(alloc).ok()?;
    let line = session.line(alloc, number).ok()??;
    Some(Outcome { transcript, line })
}

/// Whether all applications together, in random turns until all have ended, do what each does alone.
fn agrees(alloc: Global, seed: u64, alone: &[Outcome]) -> bool {
    match together(alloc) {
        Some(mut session) => {
            play(&mut session, seed, alone) && ends_alike(alloc, &mut session, alone)
        }
        None => false,
    }
}

/// A session of all applications.
fn together(alloc: Global) -> Option<Session> {
    let mut session = Session::new(alloc);
    for source in SOURCES {
        add(alloc, &mut session, source)?.ok()?;
    }
    Some(session)
}

/// Whether after each of 40 random turns each application has printed a beginning of what it prints alone.
fn play(session: &mut Session, seed: u64, alone: &[Outcome]) -> bool {
    let mut random = Pcg32::new(seed, 0);
    for _ in 0..40 {
        let number = random.next_u32() % 4;
        let _turn = session.turn(number, u64::from(random.next_u32() % 32));
        if !are_begun(session, alone) {
            return false;
        }
    }
    true
}

fn are_begun(session: &Session, alone: &[Outcome]) -> bool {
    (0..).zip(alone).all(|(number, told)| match session.transcript(number) {
        Some(transcript) => told.transcript.starts_with(transcript),
        None => false,
    })
}

/// Whether with a last turn each application has printed and reports what it does alone.
fn ends_alike(alloc: Global, session: &mut Session, alone: &[Outcome]) -> bool {
    for (number, told) in (0..).zip(alone) {
        let _turn = session.turn(number, u64::MAX);
        if !is_told(alloc, session, number, told) {
            return false;
        }
    }
    true
}

fn is_told(alloc: Global, session: &Session, number: u32, told: &Outcome) -> bool {
    match (session.transcript(number), session.line(alloc, number)) {
        (Some(transcript), Ok(Some(line))) => transcript == told.transcript.as_slice()
            && line == told.line,
        _ => false,
    }
}
