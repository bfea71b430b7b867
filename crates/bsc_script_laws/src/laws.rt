//! What holds of each script, played or only read, carried by functions that do nothing.
ghost use Rattle.std.specs.Prelude.{◌≡◌, List, Some};
ghost use Rattle.bsc_history.specs.declared.limits.About.{About};
ghost use Rattle.bsc_script.specs.declared.line.Line.{Line};
ghost use Rattle.bsc_script.specs.States.{State, new_hub};
ghost use Rattle.bsc_script.specs.Carrying.{ScriptOutcome};
ghost use Rattle.bsc_script.specs.Running.{run_line};
ghost use Rattle.bsc_script.specs.Laws.{IsOfOneHub, LineGoesOn, after_lines};

/// After any lines that a new hub accepts, the calls that they made are a legal history of caller 0, and the frames
/// that were written for each open name are the first ones that entered its outbox, in order: all of them where it is
/// connected and not held.
pub fn a_script_is_of_one_hub()
    ensures { (about : About) (lines : List Line) (s : State) →
        after_lines (Some (new_hub about)) lines ≡ Some s → IsOfOneHub s }
{}

/// The calls that one more line makes stand behind those before, and each of their looks finds how many frames had
/// been written for its connection before the line. The line writes nothing under a name that isn't open, and after the
/// close of a name only that its connection is gone. The frames that it writes for a name stand together in its text,
/// in the order in which they entered the outbox.
pub fn a_line_goes_on()
    ensures { (about : About) (lines : List Line) (s : State) (line : Line) (o : ScriptOutcome) →
        after_lines (Some (new_hub about)) lines ≡ Some s → run_line s line ≡ Some o → LineGoesOn s o }
{}
