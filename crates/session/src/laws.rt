//! Laws of the turns of a session, and of its replies. A function that does nothing carries each.
ghost use Rattle.session.specs.Laws.{CertificateIsAccepted, OthersMayPublish, TurnsAreASession, TurnsJoin};
ghost use Rattle.session.specs.Laws.{WitnessIsNoLessThanCut};

/// Two turns, one after the other, do what one turn might have done. So a task whose peer isn't ready here and there
/// does what it does over a peer that waits.
pub fn turns_join()
    ensures { TurnsJoin }
{}

/// Turns from a fresh start to an end are a session that ended so: what they wrote is what
/// [`serve_session`](crate::serve_session) promises of that end.
pub fn turns_are_a_session()
    ensures { TurnsAreASession }
{}

/// On a list that isn't a shelf's alone, others may publish between two turns.
pub fn others_may_publish()
    ensures { OthersMayPublish }
{}

/// No flow that WITNESS tells is less than the value of CUT for the same two routers.
pub fn a_witness_is_no_less_than_the_cut()
    ensures { WitnessIsNoLessThanCut }
{}

/// What CERTIFICATE tells is accepted by [`check`](certifier::check), its first line included, and whatever stands
/// behind it: it is the certificate of the tree of its record.
pub fn a_certificate_is_accepted()
    ensures { CertificateIsAccepted }
{}
