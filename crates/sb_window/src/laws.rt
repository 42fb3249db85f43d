//! The laws of a window. Each function does nothing; its contract is the law.

ghost use Rattle.sb_window.specs.Events.{
  NewRepresents,
  BeginRepresents,
  EndRepresents,
  PurgeRepresents,
  ExpectsTheLastPut,
  ExpectationStays,
  PutsAreSpaced,
  PutsFit,
  WaitsLieAhead,
};
ghost use Rattle.sb_window.specs.Waits.{WaitsEnd};

/// A new window goes with no event.
pub fn new_represents()
    ensures { NewRepresents }
{}

/// A put that begins is the last one of its block, and all that are kept stay.
pub fn begin_represents()
    ensures { BeginRepresents }
{}

/// A put that ends has its end, and all others stay.
pub fn end_represents()
    ensures { EndRepresents }
{}

/// No put is given up while it is kept.
pub fn purge_represents()
    ensures { PurgeRepresents }
{}

/// A GET has to show just the last put of its block, where that ended ok and is kept.
pub fn expects_the_last_put()
    ensures { ExpectsTheLastPut }
{}

/// What a GET has to show stays until it is past its time, if nothing else happens.
pub fn expectation_stays()
    ensures { ExpectationStays }
{}

/// A put that may begin is spaced from the end of the last one of its block, ok or not.
pub fn puts_are_spaced()
    ensures { PutsAreSpaced }
{}

/// At most as many blocks have a last put that is kept as the window has entries.
pub fn puts_fit()
    ensures { PutsFit }
{}

/// A put that may not begin yet is to be tried again at a later reading.
pub fn waits_lie_ahead()
    ensures { WaitsLieAhead }
{}

/// Where no put is open, a put that may not begin yet waits for a reading alone, from which on it may begin.
pub fn waits_end()
    ensures { WaitsEnd }
{}
