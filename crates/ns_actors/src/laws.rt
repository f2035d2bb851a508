//! Laws of turns of actors. Each function does nothing but name the laws that it rests on, and its contract is the law.

ghost use Rattle.ns_actors.specs.Laws.{nobody, TurnsKeepOthers, AddingKeepsBoxes, PostingKeepsBoxes, TurnsKeepBoxes, HeldTurnsKeepBoxes};
ghost use Rattle.ns_actors.specs.Laws.{AllAlone, AddingKeepsAlone, PostingKeepsAlone, TurnsKeepAlone, HeldTurnsKeepAlone};
ghost use Rattle.ns_actors.specs.Laws.{AddingKeepsActors, PostingKeepsActors, TurnsKeepActors, HeldTurnsKeepActors};
ghost use Rattle.ns_actors.specs.Laws.{RestingTurnsStay, RestingRoundsStay, RoundsEnd, OutboxesAreShort, EndsAreShort, SendsBegin, StepsAreWithin};
ghost use Rattle.ns_actors.specs.Stated.{AreActors, BoxesAgree};

/// A turn of one actor changes no other, but for letters that come behind its box.
pub fn turns_keep_others()
    ensures { TurnsKeepOthers }
{}

/// Boxes agree with what was posted: of nobody, and after each call if they did so before.
pub fn boxes_stay_in_agreement()
    ensures nobody { BoxesAgree nobody }
    ensures added { AddingKeepsBoxes }
    ensures posted { PostingKeepsBoxes }
    ensures turns { TurnsKeepBoxes }
    ensures held { HeldTurnsKeepBoxes }
{}

/// Each actor stands, and has posted, as it would alone with the letters that it has taken: so it is after each call if it was
/// so before.
pub fn actors_stay_alone()
    ensures nobody { AllAlone nobody }
    ensures added { AddingKeepsAlone }
    ensures posted { PostingKeepsAlone }
    ensures turns { TurnsKeepAlone }
    ensures held { HeldTurnsKeepAlone }
{
    ns_moves::valid_world::sends_of_a_host_are_valid();
    ns_moves::valid_frames::moves_keep_valid();
    ns_run_code::laws::valid_runs_come_to_rest();
}

/// All that holds of actors holds of nobody, and after each call if it held before.
pub fn actors_stay_actors()
    ensures nobody { AreActors nobody }
    ensures added { AddingKeepsActors }
    ensures posted { PostingKeepsActors }
    ensures turns { TurnsKeepActors }
    ensures held { HeldTurnsKeepActors }
{
    ns_world::later::what_lives_stays();
    ns_moves::move_laws::moves_go_onward();
    ns_moves::valid_world::sends_of_a_host_are_valid();
    ns_moves::valid_frames::moves_keep_valid();
    ns_run_code::laws::valid_runs_come_to_rest();
    ns_session::laws::applications_stay_in_reach();
    ns_session::laws::begun_runs_stay_begun();
}

/// A turn of an actor that rests, and so a round of actors that rest, changes nothing; and where each other round leaves less to do,
/// and at first there is less than two to the power of the rounds, they end where all rest.
pub fn rounds_come_to_rest()
    ensures turn { RestingTurnsStay }
    ensures stay { RestingRoundsStay }
    ensures end { RoundsEnd }
{}

/// Where an actor takes a letter that its code names, a send begins: its run is reached, and its first move charges a step.
pub fn sends_begin_in_reach()
    ensures { SendsBegin }
{
    ns_moves::valid_world::sends_of_a_host_are_valid();
}

/// An outbox has at most as many letters as the world has cells; so the one with which a run has ended has at most as many as the
/// run's limit on cells.
pub fn outboxes_are_short()
    ensures world { OutboxesAreShort }
    ensures limit { EndsAreShort }
{}

/// A run that was reached has used no more steps than its limit.
pub fn steps_are_within()
    ensures { StepsAreWithin }
{}
