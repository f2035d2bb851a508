//! What calls of a session refuse, and the texts of their refusals.

use crate::application::add;
use ns_session::fault::{AddFault, NoSuch};
use ns_session::session::Session;
use std::alloc::{AllocError, Global};

/// An application that ends at once.
const SHORT: &str = "class T packageUsing: m = () (public main: p args: a = ())";

#[test]
fn the_seventeenth_application_is_refused(rt: HostRuntime) {
    assert!(rt; sixteen_and_no_more(rt.alloc()));
}

/// Whether a session takes sixteen applications, refuses one more, and knows of none by its number.
fn sixteen_and_no_more(alloc: Global) -> bool {
    let mut session = Session::new(alloc);
    for number in 0..16 {
        if add(alloc, &mut session, SHORT) != Some(Ok(number)) {
            return false;
        }
    }
    add(alloc, &mut session, SHORT) == Some(Err(AddFault::Full))
        && session.turn(15, 1).is_ok()
        && knows_nothing_of(alloc, &mut session, 16)
}

#[test]
fn an_empty_session_has_no_application(rt: HostRuntime) {
    let mut session = Session::new(rt.alloc());
    assert!(rt; knows_nothing_of(rt.alloc(), &mut session, 0));
}

/// Whether a session has no application of that number.
fn knows_nothing_of(alloc: Global, session: &mut Session, number: u32) -> bool {
    session.turn(number, 1).is_err()
        && session.ending(number).is_none()
        && session.transcript(number).is_none()
        && session.line(alloc, number) == Ok(None)
}

#[test]
fn refusals_have_their_texts(rt: HostRuntime) {
    assert!(rt; is_text(AddFault::Full.to_string(rt.alloc()), "session is full"));
    assert!(rt; is_text(AddFault::Memory.to_string(rt.alloc()), "no memory"));
    assert!(rt; is_text(NoSuch.to_string(rt.alloc()), "no such application"));
}

fn is_text(text: Result<String, AllocError>, want: &str) -> bool {
    text.is_ok_and(|text| text.as_str() == want)
}
