//! The laws of a line at its place.

ghost use Rattle.std.specs.Prelude.{◌≡◌, ◌++◌, List, Some};
ghost use Rattle.board_core.specs.Doing.{Act, Moment, after_acts, calls_of};
ghost use Rattle.board_core.specs.Stop.{Left};
ghost use Rattle.board_core.specs.Told.{Told};
ghost use Rattle.ras_account.specs.Continued.{account_after_all};
ghost use Rattle.ras_events.specs.Described.{NumberedLine, settings_told};
ghost use Rattle.ras_exit.specs.declared.exit.Exit.{Exit};
ghost use Rattle.ras_run.specs.LineActs.{AreAcceptedActs, AreLineActs, CanAsk, HoldsAt, asking_acts};
ghost use Rattle.ras_run.specs.LineCalls.{AreCallsAt};
ghost use Rattle.ras_run.specs.Moments.{refused_store};
ghost use Rattle.ras_run.specs.Output.{output_at};
ghost use Rattle.ras_run.specs.Places.{Place, event_at, places_from, reports, site_after, site_along, site_at};
ghost use Rattle.ras_run.specs.Sites.{Site, Start, first_site};
ghost use Rattle.ras_run.specs.Status.{refusal_at};
ghost use Rattle.ras_run.specs.Taking.{IsAccepted, LineMoment};

/// The laws of places: all lines before a line decide what it does. The function does nothing: its
/// clauses are what it is for.
pub fn place_laws()
    // The site after lines has the machine description that they give, and the account at the start
    // with all that they report.
    ensures settings { (start : Start) (before : List NumberedLine)
        → (site_at start before).settings ≡ settings_told before }
    ensures account { (start : Start) (before : List NumberedLine)
        → (site_at start before).account
        ≡ account_after_all start.account (reports (first_site start) before) }

    // The places of joined lists of lines: first the places of the first list, then the places of
    // the second from the site after the first.
    ensures places { (site : Site) (first others : List NumberedLine)
        → places_from site (first ++ others)
        ≡ places_from site first ++ places_from (site_along site first) others }
{}

/// The laws of a line's acts at its place, over the files and the record store of its site. The
/// function does nothing: its clauses are what it is for.
pub fn line_laws()
    // A crash at any point of a line leaves one of the line's stages, also during the device calls
    // of a line that is then rejected.
    ensures moments { (place : Place) (t : Told) (acts : List Act) (left : Left)
        → AreAcceptedActs place t acts → Moment acts t left → LineMoment place t.here left }
    ensures asking { (place : Place) (t : Told) (left : Left)
        → CanAsk (event_at place) t → HoldsAt place.0 t
        → Moment (asking_acts place t) t left → LineMoment place t.here left }

    // Once an accepted line is done, the files and the record store are as the next site says, and
    // the line's text is printed.
    ensures done { (place : Place) (t : Told) (acts : List Act)
        → AreAcceptedActs place t acts
        → HoldsAt (site_after place.0 place.1) (after_acts acts t) }
    ensures prints { (place : Place) (t : Told) (acts : List Act)
        → IsAccepted place → AreLineActs place t acts
        → (after_acts acts t).here.out ≡ t.here.out ++ output_at place }

    // A rejected line changes neither files nor text, and changes the record store only if a device
    // that was busy for too long saved the line's record.
    ensures refused { (place : Place) (exit : Exit) (t : Told) (acts : List Act)
        → refusal_at place ≡ Some exit → CanAsk (event_at place) t → HoldsAt place.0 t
        → AreLineActs place t acts
        → (after_acts acts t).here ≡ record t.here {
          store = refused_store exit (event_at place) place.0.store;
        } }

    // The disk calls of an accepted line are the calls defined for it.
    ensures calls { (place : Place) (t : Told) (acts : List Act)
        → IsAccepted place → AreLineActs place t acts → AreCallsAt place t.here (calls_of acts) }

    // Over any modelled board a line has acts.
    ensures some { (place : Place) (t : Told) → (acts : List Act) × AreLineActs place t acts }
{}
