//! Laws of transcripts, for all lines.

ghost use Rattle.transcript.specs.Grammar.{LinesAreBadForAReason, LinesHaveAGrammar};
ghost use Rattle.transcript.specs.Records.{EventLinesAreRead, RecordsAreTranscripts, SettingsLinesAreRead};
ghost use Rattle.transcript.specs.Told.{LinesCanFollow};

/// A line that was read can be followed, and the next one then too.
pub fn lines_can_follow()
    ensures { LinesCanFollow }
{
    agent_settings::client_keeps_limits();
}

/// The reader accepts exactly the lines of the grammar, and reads of each what it says.
pub fn lines_have_a_grammar()
    ensures { LinesHaveAGrammar }
{}

/// The reader refuses exactly the lines that have one of the four reasons, and each for its reason.
pub fn lines_are_bad_for_a_reason()
    ensures { LinesAreBadForAReason }
{}

/// Inputs that lines can tell are read again from their lines.
pub fn event_lines_are_read()
    ensures { EventLinesAreRead }
{}

/// Settings that lines can tell are read again from their lines.
pub fn settings_lines_are_read()
    ensures { SettingsLinesAreRead }
{}

/// The lines of settings, and then those of inputs that lines can tell, are a transcript that says them.
pub fn records_are_transcripts()
    ensures { RecordsAreTranscripts }
{}
